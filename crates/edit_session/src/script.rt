// Scripts.
ghost use Rattle.std.specs.Prelude.{◌≡◌, IfOk, OnErr};
ghost use Rattle.certificate_lines.specs.Lines.{bytes_of};
ghost use Rattle.edit_session.specs.SessionLog.{IsSessionLog};
ghost use Rattle.edit_session.specs.Lines.{MayGoOn, HoldsMore};
ghost use Rattle.edit_session.specs.Scripts.{IsScriptWritten, IsToldAtFirst, IsSaidTo, IsLoggedLine};

use crate::{NoMemory, Said, Session};
use certificate_lines::is_blank;
use shq_oracle::RunLog;

/// Does what the lines of a script ask for, one after another, and puts their answers last. Lines of whitespace alone
/// are passed over. Where a query could not be decided, the lines after it are not looked at, and the last line that is
/// put is `undecided`.
///
/// # Errors
///
/// Out of memory. The session has ended then; answers to the first lines were put, and no others. The log has
/// what these lines logged, with a test of the next one perhaps, and is honest all the same.
pub fn run_script(
    session: &mut Session,
    lines: &[&[u8]],
    budget: u32,
    log: &mut RunLog,
    out: &mut Vec<u8>,
) -> Result<Said, NoMemory>
    requires may_go_on { MayGoOn session.old budget log.old }
    requires honest { IsSessionLog session.old.state.ontology budget log.old }

    // What is put is what is said to each line from the session on, up to the last or to one that could not be decided;
    // where memory is refused, to the first lines.
    ensures written { IfOk result
        (IsScriptWritten budget session.old.state log.old out.old.items (bytes_of lines.now) session.new.state log.new
        out.new.items) }
    ensures unfinished { OnErr result
        (IsToldAtFirst budget session.old.state log.old out.old.items (bytes_of lines.now) log.new out.new.items) }

    // Whatever is answered, axioms were put last at most, and the log is honest.
    ensures more { HoldsMore session.old.state.ontology session.new.state.ontology }
    ensures honest { IsSessionLog session.new.state.ontology budget log.new }
{
    for line in lines {
        match say_to(session, line, budget, log, out)? {
            Said::Answered => {}
            Said::Spent => {
                out.extend_from_slice(b"undecided\n")?;
                return Ok(Said::Spent);
            }
        }
    }
    Ok(Said::Answered)
}

// Does what a line asks for, unless it is of whitespace alone.
fn say_to(
    session: &mut Session,
    line: &[u8],
    budget: u32,
    log: &mut RunLog,
    out: &mut Vec<u8>,
) -> Result<Said, NoMemory>
    requires may_go_on { MayGoOn session.old budget log.old }
    requires honest { IsSessionLog session.old.state.ontology budget log.old }
    ensures said { IfOk result
        (IsSaidTo budget session.old line.now log.old out.old.items session.new log.new out.new.items) }
    ensures unwritten { OnErr result (out.new.items ≡ out.old.items) }
    ensures logged { OnErr result (IsLoggedLine session.old.state line.now log.old log.new) }
    ensures more { HoldsMore session.old.state.ontology session.new.state.ontology }
    ensures honest { IsSessionLog session.new.state.ontology budget log.new }
{
    if is_blank(line) {
        return Ok(Said::Answered);
    }
    session.line(line, budget, log, out)
}
