//! The jobs `sat`, `entails` and `check`: whether a class expression can have an element, whether a statement follows,
//! and whether a certificate shows what it is to show.
//!
//! The first two ask the oracle one question, about all axioms of a document, and write its evidence behind the
//! verdict: what is written is a certificate, a finite counter-model or a refutation, and `check` verifies it. So
//! nobody has to trust the search that found it (McConnell, Mehlhorn, Näher and Schweitzer, "Certifying algorithms",
//! Computer Science Review 5, 2011). For `check` the document and the query are read, then the certificate, and then it
//! is judged.
#![tactic(auto)]

mod answering;
mod certificate;
mod checking;
mod deciding;
mod judging;
mod laws;
mod verdict_laws;
mod verifying;

pub use answering::Decide;
pub use certificate::Certificate;
pub use laws::{a_no_does_not_follow, a_yes_follows, verdicts_exclude_each_other};
pub use shq_oracle::RunLog;
pub use verdict_laws::{malformed_line_is_the_first, verdicts_are_true};
pub use verifying::verify;
