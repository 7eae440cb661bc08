// Documents and queries as text.
ghost use Rattle.std.specs.Prelude.{◌≡◌, ◌++◌, IfOk, string_bytes};
ghost use Rattle.job_runs.specs.Texts.{document_text, query_text};

use crate::NoMemory;
use std::alloc::Global;

// A text between two others.
fn between(alloc: Global, front: &str, text: &str, back: &str) -> Result<String, NoMemory>
    ensures { IfOk result (λ s. string_bytes s ≡ front.now ++ text.now ++ back.now) }
{
    let mut whole = String::from_str(alloc, front)?;
    whole.push_str(text)?;
    whole.push_str(back)?;
    Ok(whole)
}

/// A document with these axioms, which stand on line 3 and after it.
///
/// # Errors
///
/// Out of memory.
pub fn document(alloc: Global, axioms: &str) -> Result<String, NoMemory>
    ensures { IfOk result (λ d. string_bytes d ≡ document_text axioms.now) }
{
    between(
        alloc,
        "Prefix(:=<http://e.org/>)\nOntology(\n",
        axioms,
        "\n)\n",
    )
}

/// The axiom that a question asks for: the class expression of `sat` is part of nothing, and that of `entails` is the
/// axiom itself.
///
/// # Errors
///
/// Out of memory.
pub fn query_of(alloc: Global, job: &str, asked: &str) -> Result<String, NoMemory>
    ensures { IfOk result (λ q. string_bytes q ≡ query_text job.now asked.now) }
{
    if job == "entails" {
        Ok(String::from_str(alloc, asked)?)
    } else {
        between(alloc, "SubClassOf(", asked, " owl:Nothing)")
    }
}
