// A document that bytes begin with, and a query on it.
ghost use Rattle.std.specs.Prelude.{◌≡◌, ◌≤◌, IfOk, IfErr, OnErr, length};
ghost use Rattle.text_laws.specs.Documents.{IsDocument};
ghost use Rattle.job_inputs.specs.Asked.{IsUnasked, IsUndocumented, IsReadQuery};

use crate::unread::Unread;
use shq_terms::{Ontology, Query};
use std::alloc::Global;
use text_laws::{Context, read_ontology, read_query};

/// Reads the document that the bytes begin with, and answers the place after it.
///
/// # Errors
///
/// `Document` with what is wrong first, and `NoMemory`.
#[tactic(auto, using(crate::proofs::Stops::document_refused))]
pub fn document(alloc: Global, bytes: &[u8]) -> Result<(Ontology, Context, usize), Unread>
    requires { length bytes.now ≤ 4294967293 }
    ensures document { IfOk result (λ r. IsDocument bytes.now r.0 r.1 r.2) }
    ensures within { IfOk result (λ r. r.2 ≤ length bytes.now) }
    ensures refused { IfErr result (IsUndocumented bytes.now) }
{
    match read_ontology(alloc, bytes) {
        Ok(read) => Ok(read),
        Err(refusal) => Err(Unread::of_document(refusal)),
    }
}

/// Reads a query on a document, whose names are listed after those of the document.
///
/// # Errors
///
/// `Query` with what is wrong first, and `NoMemory`. The ontology is then as before.
#[tactic(auto, using(crate::proofs::Stops::query_refused))]
pub fn query_on(
    alloc: Global,
    query: &str,
    ontology: &mut Ontology,
    context: &Context,
) -> Result<Query, Unread>
    ensures query { IfOk result (IsReadQuery ontology.old context.now query.now ontology.new) }
    ensures refused { IfErr result (IsUnasked ontology.old context.now query.now) }
    ensures unchanged { OnErr result (ontology.new ≡ ontology.old) }
{
    match read_query(alloc, query, ontology, context) {
        Ok(asked) => Ok(asked),
        Err(refusal) => Err(Unread::of_query(refusal)),
    }
}
