// A document with a question on it.
ghost use Rattle.std.specs.Prelude.{◌≤◌, IfOk, IfErr, length};
ghost use Rattle.job_inputs.specs.Limits.{IsInLimit};
ghost use Rattle.job_inputs.specs.Questions.{question_text, IsDocumentAlone};
ghost use Rattle.job_inputs.specs.Inputs.{IsInputOf, IsNoInputOf};

use crate::reading::{WrittenQuestion, read_document, read_question};
use crate::unread::Unread;
use shq_terms::{Ontology, Query};
use std::alloc::Global;
use text_laws::Context;

/// An ontology and a query on it.
#[derive(Drop)]
pub struct Input {
    pub ontology: Ontology,
    pub query: Query,
}

/// Reads a document with nothing else after it, and a question on it.
///
/// # Errors
///
/// What is refused, the document before the question, and `NoMemory`.
pub fn read_question_input(
    alloc: Global,
    question: WrittenQuestion<'_>,
    bytes: &[u8],
) -> Result<Input, Unread>
    requires { length bytes.now ≤ 4294967293 }
    ensures input { IfOk result (IsInputOf (question_text question.entry) bytes.now) }
    ensures within { IfOk result (λ i. IsInLimit i.ontology i.query) }
    ensures unread { IfErr result (IsNoInputOf (question_text question.entry) bytes.now) }
{
    let (ontology, context) = read_document(alloc, bytes)?;
    let outcome = read_query(alloc, question, bytes, ontology, &context);
    drop(context);
    outcome
}

// Reads a question on a document.
fn read_query(
    alloc: Global,
    question: WrittenQuestion<'_>,
    bytes: &[u8],
    mut ontology: Ontology,
    context: &Context,
) -> Result<Input, Unread>
    requires { IsDocumentAlone bytes.now ontology context.now }
    ensures input { IfOk result (IsInputOf (question_text question.entry) bytes.now) }
    ensures unread { IfErr result (IsNoInputOf (question_text question.entry) bytes.now) }
{
    let _document = bytes;
    match read_question(alloc, question, &mut ontology, context) {
        Ok(query) => Ok(Input { ontology, query }),
        Err(unread) => {
            drop(ontology);
            Err(unread)
        }
    }
}
