// Calls of sessions, below the job: a line, and a script.
ghost use Rattle.std.specs.Prelude.{[], IfOk};
ghost use Rattle.edit_session.specs.SessionLog.{IsSessionLog};
ghost use Rattle.edit_session.specs.Lines.{MayGoOn};

use edit_session::{NoMemory, Said, Session, run_script};
use ofn_reader::{Refusal, read_ontology};
use run_log::RunLog;
use std::alloc::Global;
use std::test::Fail;

const TWO_AXIOMS: &[u8] = b"Prefix(:=<http://e.org/>)
Ontology(SubClassOf(:A :B) SubClassOf(:B :C))";

// Lines, and what is answered to them.
const ANSWERED: &[(&[&[u8]], &[u8])] = &[
    (&[b"ask SubClassOf(:A :C)"], b"yes 1 2\n"),
    (
        &[b"remove 1", b" ", b"ask SubClassOf(:A :C)"],
        b"removed 1\nno\n",
    ),
];

// A session on a document of at most 1,000 bytes.
fn begun(alloc: Global, document: &[u8]) -> Result<Session, Refusal>
    ensures may_go_on { IfOk result (λ s. MayGoOn s 1000 []) }
    ensures honest { IfOk result (λ s. IsSessionLog s.state.ontology 1000 []) }
{
    if document.len() > 1000 {
        return Err(Refusal::NoMemory);
    }
    let (ontology, context, _) = read_ontology(alloc, document)?;
    Ok(Session::new(alloc, ontology, context)?)
}

// Answers a line alone, or a script of other lines.
fn answer(
    session: &mut Session,
    lines: &[&[u8]],
    log: &mut RunLog,
    out: &mut Vec<u8>,
) -> Result<Said, NoMemory>
    requires may_go_on { MayGoOn session.old 1000 log.old }
    requires honest { IsSessionLog session.old.state.ontology 1000 log.old }
{
    match lines {
        [line] => session.line(line, 1000, log, out),
        _ => run_script(session, lines, 1000, log, out),
    }
}

// Whether these lines are answered so.
fn are_answered(
    alloc: Global,
    session: &mut Session,
    lines: &[&[u8]],
    wanted: &[u8],
) -> Result<bool, Refusal>
    requires may_go_on { MayGoOn session.old 1000 [] }
    requires honest { IsSessionLog session.old.state.ontology 1000 [] }
{
    let mut log = RunLog::new(alloc);
    let mut out = Vec::new(alloc);
    let said = answer(session, lines, &mut log, &mut out)?;
    Ok(said == Said::Answered && out.as_slice() == wanted)
}

fn are_answered_on(
    alloc: Global,
    document: &[u8],
    lines: &[&[u8]],
    wanted: &[u8],
) -> Result<bool, Refusal> {
    let mut session = begun(alloc, document)?;
    are_answered(alloc, &mut session, lines, wanted)
}

#[test]
fn lines_and_scripts_are_answered(rt: HostRuntime) -> Result<(), Fail> {
    for (place, (lines, wanted)) in ANSWERED.iter().enumerate() {
        let are_so = are_answered_on(rt.alloc(), TWO_AXIOMS, lines, wanted)?;
        assert!(rt; are_so, "lines {place}");
    }
    Ok(())
}
