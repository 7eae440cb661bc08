//! What the jobs read, how they end, and what is written where something is refused.
//!
//! - **Inputs.** A job is asked about a document alone. After its last bracket only whitespace and comments may stand
//!   (OWL 2 Structural Specification and Functional-Style Syntax, section 2.1, has no more in an ontology document);
//!   the first other byte is a fault of the document, on its line. A question is a statement, that is an
//!   inclusion of two class expressions or that an individual is in one, or whether a class expression has an element,
//!   which asks for the inclusion of it in `owl:Nothing`.
//! - **Answers.** Each job answers a status and one text. A document or a query that is refused is answered in the same
//!   way by each of them: with the sort of the refusal, what is wrong, and where. Longer answers are put together of
//!   bytes, numbers and sets of axioms (`pieces`).
//! - **Jobs.** A [`Job`] says what it reads of the bytes, and how it answers that. [`answer_to`] does what all jobs
//!   have in common: it reads, answers what is refused, lets the job answer the rest, and says so where memory is
//!   refused.
#![tactic(auto)]

mod asking;
mod complaint;
mod documents;
mod job;
mod laws;
mod message;
mod pieces;
mod reading;
mod rest;
mod status;
mod text;
mod unread;
mod verdict;

pub use asking::{Input, read_question_input};
pub use complaint::{Complaint, Place, Sort, complaint_of};
pub use documents::{document, query_on};
pub use job::{Job, answer_to};
pub use laws::{
    documents_alone_are_not_refused, gaps_have_no_stray, questions_are_read_in_one_way,
};
pub use message::{Message, unread_reply};
pub use pieces::{put, put_number, put_set};
pub use reading::{WrittenQuestion, read_document, read_question};
pub use rest::first_stray;
pub use status::Status;
pub use text::Text;
pub use unread::Unread;
pub use verdict::Verdict;
