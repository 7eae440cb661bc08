// An edit session.
ghost use Rattle.std.specs.Prelude.{◌≡◌, ◌≤◌, Ok, IfOk, OnErr, option_map};
ghost use Rattle.job_inputs.specs.Limits.{IsOntologyInLimit};
ghost use Rattle.shq_oracle.specs.Entries.{spent_of};
ghost use Rattle.job_inputs.specs.Answer.{text_bytes};
ghost use Rattle.edit_session.specs.Noted.{nothing_noted};
ghost use Rattle.edit_session.specs.Sessions.{begun};
ghost use Rattle.edit_session.specs.Logged.{LogsAtMostOne};
ghost use Rattle.edit_session.specs.Said.{IsAddedOrRefused, IsRemovedOrNot};
ghost use Rattle.edit_session.specs.Editing.{IsTextOf, HasText};
ghost use Rattle.edit_session.specs.Lines.{MayGoOn, IsLineTold, IsLineDone, HoldsMore, IsAskTold, AskLogsAtMostOne};

use crate::asking::ask;
use crate::editing::{add, remove};
use crate::noted_places::NotedPlaces;
use crate::requests::{Request, read_request};
use crate::texts::{bad_line, no_text, refusal_text, yes_text};
use crate::{NoMemory, Said};
use axiom_sets::AxiomSet;
use job_inputs::Text;
use ofn_reader::{Context, Refusal};
use shq_oracle::{Outcome, RunLog};
use shq_terms::Ontology;
use std::alloc::Global;
use std::marker::Model;

/// An ontology that is edited and asked, line by line.
///
/// Contracts see the axioms that were ever held with the names that are listed, what texts are read with, the numbers
/// of the live axioms, and what was noted of the log.
#[derive(Drop)]
pub struct Session {
    alloc: Global,
    ontology: Ontology,
    context: Context,
    live: AxiomSet,
    noted: NotedPlaces,
}

impl Model for Session {
    ghost use Rattle.std.specs.Coded.{codes};
    ghost use Rattle.shq_terms.specs.Code.{concept_code};
    ghost use Rattle.edit_session.specs.Sessions.{SessionLists, live_code};

    ghost Value = { SessionLists };

    ghost coded = { Prim.hlevel (codes, concept_code, live_code) };

    ghost use Rattle.edit_session.specs.Sessions.{state_of};
    ghost use Rattle.edit_session.specs.Places.{plain_noted};
    ghost use Rattle.edit_session.specs.Editing.{IsHeld};

    ghost view = { λ s. record { state = state_of s.ontology s.context s.live.members; noted = plain_noted s.noted } };

    ghost invariant = { λ s. IsHeld s.ontology s.live };
}

impl Session {
    ghost use Rattle.edit_session.specs.Sessions.{SessionLists};

    /// A session on a document, as `read_ontology` of `ofn_reader` gives it. Each axiom is live.
    ///
    /// # Errors
    ///
    /// Out of memory.
    pub fn new(alloc: Global, ontology: Ontology, context: Context) -> Result<Session, NoMemory>
        requires { IsOntologyInLimit ontology }
        ensures { IfOk result (λ s. s ≡ record { state = begun ontology context; noted = nothing_noted }) }
    {
        let live = AxiomSet::full(alloc, ontology.axiom_count())?;
        Ok(Session {
            alloc,
            ontology,
            context,
            live,
            noted: NotedPlaces::new(alloc),
        })
    }

    /// Does what a line of a script asks for, and puts the answer last, as one line:
    ///
    /// | line | effect and answer |
    /// |---|---|
    /// | `add TEXT` | the text is one numbered axiom, which gets the next number: `axiom K` |
    /// | `remove K` | the axiom is live, and is taken out for good: `removed K` |
    /// | `ask TEXT` | the text is a query: `yes` and the numbers of live axioms that entail it, or `no` |
    /// | any other | `bad line` |
    ///
    /// A text that is refused changes nothing, and the answer says why. A query is tested at most once, by at most the
    /// steps that are left of the budget, where no earlier test of the log answers it. The log begins with the entries
    /// that the session has seen, which are those of the lines before, or it has fewer: then it is another log, and
    /// what was seen is forgotten.
    ///
    /// # Errors
    ///
    /// Out of memory. The session has ended then, as after `Spent`, and the log is honest all the same.
    pub fn line(
        &mut self,
        line: &[u8],
        budget: u32,
        log: &mut RunLog,
        out: &mut Vec<u8>,
    ) -> Result<Said, NoMemory>
        requires { MayGoOn self.old budget log.old }

        // The answer that belongs to the line was put last, with the session and the log after it; or the query could
        // not be decided.
        ensures done { IfOk result
            (IsLineDone budget self.old line.now log.old out.old.items self.new log.new out.new.items) }

        // Whatever is answered, axioms were put last at most, and the budget is kept.
        ensures more { HoldsMore self.old.state.ontology self.new.state.ontology }
        ensures within { spent_of log.new ≤ budget }
        ensures logged { OnErr result (LogsAtMostOne self.old.state line.now log.old log.new) }
        ensures unwritten { OnErr result (out.new.items ≡ out.old.items) }
    {
        let Some(answer) = self.answer(line, budget, log)? else {
            return Ok(Said::Spent);
        };
        out.extend_from_slice(answer.bytes())?;
        Ok(Said::Answered)
    }

    // The answer to a line; none where its query could not be decided.
    fn answer(
        &mut self,
        line: &[u8],
        budget: u32,
        log: &mut RunLog,
    ) -> Result<Option<Text>, NoMemory>
        requires { MayGoOn self.old budget log.old }
        ensures told { IfOk result
            (λ found. IsLineTold budget self.old line.now log.old self.new log.new (option_map text_bytes found)) }
        ensures more { HoldsMore self.old.state.ontology self.new.state.ontology }
        ensures within { spent_of log.new ≤ budget }
        ensures logged { OnErr result (LogsAtMostOne self.old.state line.now log.old log.new) }
    {
        match read_request(line) {
            Request::Add(text) => Ok(Some(self.add(text)?)),
            Request::Remove(number) => Ok(Some(self.remove(number)?)),
            Request::Ask(text) => self.ask(text, budget, log),
            Request::Other => Ok(Some(bad_line())),
        }
    }

    fn add(&mut self, text: &str) -> Result<Text, NoMemory>
        ensures added { IfOk result
            (λ answer. IsAddedOrRefused self.old.state text.now self.new.state (text_bytes answer)) }
        ensures noted { self.new.noted ≡ self.old.noted }
        ensures more { HoldsMore self.old.state.ontology self.new.state.ontology }
    {
        add(
            self.alloc,
            text,
            &mut self.ontology,
            &mut self.context,
            &mut self.live,
        )
    }

    fn remove(&mut self, number: u32) -> Result<Text, NoMemory>
        ensures removed { IfOk result
            (λ answer. IsRemovedOrNot self.old.state number self.new.state (text_bytes answer)) }
        ensures noted { self.new.noted ≡ self.old.noted }
        ensures same { self.new.state.ontology ≡ self.old.state.ontology }
    {
        remove(self.alloc, number, &mut self.live)
    }

    // The answer to a query, if it could be decided.
    fn ask(&mut self, text: &str, budget: u32, log: &mut RunLog) -> Result<Option<Text>, NoMemory>
        requires { MayGoOn self.old budget log.old }
        ensures told { IfOk result
            (λ found. IsAskTold budget self.old text.now log.old self.new log.new (option_map text_bytes found)) }
        ensures same { self.new.state ≡ self.old.state }
        ensures within { spent_of log.new ≤ budget }
        ensures logged { OnErr result (AskLogsAtMostOne self.old.state text.now log.old log.new) }
    {
        let asked = ask(
            self.alloc,
            text,
            &mut self.ontology,
            &self.context,
            &self.live,
            &mut self.noted,
            budget,
            log,
        );
        answer_text(self.alloc, asked)
    }
}

// The text of the answer to a query, or why it is none; no text where it could not be decided.
fn answer_text(alloc: Global, asked: Result<Outcome, Refusal>) -> Result<Option<Text>, NoMemory>
    ensures text { IfOk result (λ found. IsTextOf asked (option_map text_bytes found)) }
    ensures has_text { OnErr result (HasText asked) }
{
    match asked {
        Ok(outcome) => outcome_text(alloc, outcome),
        Err(refusal) => Ok(Some(refusal_text(alloc, refusal)?)),
    }
}

fn outcome_text(alloc: Global, outcome: Outcome) -> Result<Option<Text>, NoMemory>
    ensures text { IfOk result (λ found. IsTextOf (Ok outcome) (option_map text_bytes found)) }
    ensures has_text { OnErr result (HasText (Ok outcome)) }
{
    match outcome {
        Outcome::Yes(found) => {
            let _limit = found.limit();
            Ok(Some(yes_text(alloc, &found)?))
        }
        Outcome::No => Ok(Some(no_text())),
        Outcome::Undecided => Ok(None),
    }
}
