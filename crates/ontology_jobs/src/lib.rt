//! The jobs on an ontology, each from the words that ask for it to the answer that is written.
//!
//! A certifying program gives with each answer a certificate that can be checked without trust in the program
//! (McConnell, Mehlhorn, Näher and Schweitzer, "Certifying algorithms", Computer Science Review 5, 2011). The jobs
//! `sat` and `entails` find such certificates, finite counter-models and refutations, and the job `check` verifies
//! them; `evidence` finds the reasons and repairs of a query with what shows each, and `audit` verifies these, and that
//! they are all; `classify`, `realize`, `instances`, `explain`, `repair` and `why` rest on many such tests, which the
//! log has. `session` answers a script of edits and queries, and whether a query follows as a new run on the axioms of
//! that moment would find it. All of it is itself proved: the clause `answer` of `run` says for any words and input
//! which text is written, with which status, and what the log then has.
#![tactic(auto)]

mod jobs;
mod laws;
mod words;
mod workload_number;

pub use edit_session::RunLog;
pub use job_inputs::Status;
pub use jobs::run;
pub use laws::{
    accepted_audits_list_all, accepted_queries_do_not_follow, accepted_queries_follow,
    answers_are_unique, bad_words_ask_for_nothing, done_answers_are_shown,
    no_memory_spends_no_test, refusals_are_answered_alike, runs_are_complete, undecided_spends_all,
};
pub use words::{Command, Job, read_words};
pub use workload_number::WorkloadNumber;
