//! Questions about sets of an ontology's axioms, for one query, answered by an oracle.
//!
//! Pinpointing asks a black box whether sets of axioms entail a statement. An [`Asker`] is that box over the search
//! of a tableau. It asks by as few searches as it can: of a set only the axioms of a module count, on which the
//! answer depends alone; and where the log has a test whose answer covers the asked set, no search is made. A yes
//! covers each set with the axioms that its refutation names, a no covers each part of the set that was tested. So no
//! answer is searched for twice, whichever sets are asked, and all that an answer rests on stands in the log.
//!
//! Who wants the evidence of each test, too, asks by steps: [`Asker::known`] says what the log knows, and
//! [`Asker::decide`] tests the rest with a refutation or a model.
#![tactic(auto)]

mod asker;
mod known;
mod law;
mod memo;

pub use asker::Asker;
pub use known::Known;
pub use law::{holders_keep_answers, modules_keep_answers};
pub use shq_oracle::{Answer, Entry, Oracle, RunLog};
pub use shq_terms::NoMemory;
