// Documents alone, and questions on them.
ghost use Rattle.std.specs.Prelude.{◌≡◌, ◌≤◌, IfOk, IfErr, IfSome, IsNone, OnErr, drop, length};
ghost use Rattle.shq_terms.specs.Concept.{bottom};
ghost use Rattle.job_inputs.specs.Limits.{IsOntologyInLimit};
ghost use Rattle.job_inputs.specs.Rest.{IsOnlyGap, IsStrayLine};
ghost use Rattle.job_inputs.specs.Questions.{question_text, has_element, follows, IsDocumentAlone, IsReadQuestion};
ghost use Rattle.job_inputs.specs.Questions.{IsUnreadDocument, IsUnreadQuestion};

use crate::documents::{document, query_on};
use crate::rest::first_stray;
use crate::unread::Unread;
use ofn_tree::end_line;
use shq_terms::{Concept, Node, On, Ontology, Query};
use std::alloc::Global;
use text_laws::{Context, Refusal, read_class};

/// What is asked of a document.
#[derive(Clone, Copy)]
pub enum WrittenQuestion<'a> {
    /// Whether the class expression of this text has an element in some interpretation.
    HasElement(&'a str),
    /// Whether the axiom of this text follows, a `SubClassOf` or a `ClassAssertion`.
    Follows(&'a str),
}

/// Reads a document with nothing else after it.
///
/// # Errors
///
/// `Document` with what is wrong first, where what stands after the document counts as a fault of shape on its line;
/// and `NoMemory`.
pub fn read_document(alloc: Global, bytes: &[u8]) -> Result<(Ontology, Context), Unread>
    requires { length bytes.now ≤ 4294967293 }
    ensures read { IfOk result (λ r. IsDocumentAlone bytes.now r.0 r.1) }
    ensures within { IfOk result (λ r. IsOntologyInLimit r.0) }
    ensures unread { IfErr result (IsUnreadDocument bytes.now) }
{
    let (ontology, context, end) = document(alloc, bytes)?;
    match line_behind(bytes, end) {
        Some(line) => {
            drop(ontology);
            drop(context);
            Err(Unread::Document(Refusal::BadShape(line)))
        }
        None => Ok((ontology, context)),
    }
}

// The line of the first byte after a document that ends at this place, but for whitespace and comments.
fn line_behind(bytes: &[u8], end: usize) -> Option<u32>
    requires within { end ≤ length bytes.now }
    requires small { length bytes.now ≤ 4294967293 }
    ensures none { IsNone result → IsOnlyGap (drop end bytes.now) }
    ensures some { IfSome result (IsStrayLine bytes.now end) }
{
    match first_stray(&bytes[end..]) {
        Some(place) => Some(end_line(&bytes[..end + place])),
        None => None,
    }
}

/// Reads a question on a document, whose names are listed after those of the document.
///
/// # Errors
///
/// `Query` with what is wrong first, and `NoMemory`. The ontology is then as before.
pub fn read_question(
    alloc: Global,
    question: WrittenQuestion<'_>,
    ontology: &mut Ontology,
    context: &Context,
) -> Result<Query, Unread>
    ensures read { IfOk result (IsReadQuestion ontology.old context.now (question_text question.entry) ontology.new) }
    ensures unread { IfErr result (IsUnreadQuestion ontology.old context.now (question_text question.entry)) }
    ensures unchanged { OnErr result (ontology.new ≡ ontology.old) }
{
    match question {
        WrittenQuestion::HasElement(class) => query_of_class(alloc, class, ontology, context),
        WrittenQuestion::Follows(statement) => query_of_statement(
            alloc, statement, ontology, context,
        ),
    }
}

fn query_of_statement(
    alloc: Global,
    statement: &str,
    ontology: &mut Ontology,
    context: &Context,
) -> Result<Query, Unread>
    ensures read { IfOk result (IsReadQuestion ontology.old context.now (follows statement.now) ontology.new) }
    ensures unread { IfErr result (IsUnreadQuestion ontology.old context.now (follows statement.now)) }
    ensures unchanged { OnErr result (ontology.new ≡ ontology.old) }
{
    query_on(alloc, statement, ontology, context)
}

// The query that asks whether a class expression has an element.
#[tactic(auto, using(crate::proofs::Refused::class_refused))]
fn query_of_class(
    alloc: Global,
    class: &str,
    ontology: &mut Ontology,
    context: &Context,
) -> Result<Query, Unread>
    ensures read { IfOk result (IsReadQuestion ontology.old context.now (has_element class.now) ontology.new) }
    ensures unread { IfErr result (IsUnreadQuestion ontology.old context.now (has_element class.now)) }
    ensures unchanged { OnErr result (ontology.new ≡ ontology.old) }
{
    match read_class(alloc, class, ontology, context) {
        Ok(sub) => Ok(within_nothing(sub)),
        Err(refusal) => Err(Unread::of_query(refusal)),
    }
}

// That the class expression has no element.
fn within_nothing(sub: Concept) -> Query
    ensures { result ≡ record { sub = sub; sup = bottom; on = On.Any } }
{
    Query {
        sub,
        sup: Concept { node: Node::Bottom },
        on: On::Any,
    }
}
