// Answers as texts.
ghost use Rattle.std.specs.Prelude.{◌≡◌, IfOk, codes};
ghost use Rattle.job_inputs.specs.Answer.{text_bytes};
ghost use Rattle.edit_session.specs.Said.{bad_line, numbered_line, yes_line, no_line, SaysWrong};

use axiom_sets::AxiomSet;
use job_inputs::{Place, Text, complaint_of, put_set};
use ofn_reader::Refusal;
use shq_terms::NoMemory;
use std::alloc::Global;

/// The answer to a line that is none of a script.
pub(crate) fn bad_line() -> Text
    ensures { text_bytes result ≡ bad_line }
{
    Text::Fixed("bad line\n")
}

/// That an axiom was added, and its number.
pub(crate) fn axiom_text(alloc: Global, number: u32) -> Result<Text, NoMemory>
    ensures { IfOk result (λ text. text_bytes text ≡ numbered_line (codes "axiom") number) }
{
    Ok(Text::Made(format!(in alloc; "axiom {number}\n")?))
}

/// That the axiom of a number was removed.
pub(crate) fn removed_text(alloc: Global, number: u32) -> Result<Text, NoMemory>
    ensures { IfOk result (λ text. text_bytes text ≡ numbered_line (codes "removed") number) }
{
    Ok(Text::Made(format!(in alloc; "removed {number}\n")?))
}

/// That a query follows from these axioms.
pub(crate) fn yes_text(alloc: Global, found: &AxiomSet) -> Result<Text, NoMemory>
    ensures { IfOk result (λ text. text_bytes text ≡ yes_line found.now) }
{
    let mut text = Vec::from_slice(alloc, b"yes ")?;
    put_set(alloc, &mut text, found)?;
    text.push(b'\n')?;
    Ok(Text::Bytes(text))
}

/// That a query does not follow.
pub(crate) fn no_text() -> Text
    ensures { text_bytes result ≡ no_line }
{
    Text::Fixed("no\n")
}

/// Why a text is refused.
pub(crate) fn refusal_text(alloc: Global, refusal: Refusal) -> Result<Text, NoMemory>
    ensures { IfOk result (λ text. SaysWrong refusal (text_bytes text)) }
{
    match complaint_of(refusal) {
        Some(complaint) => Ok(Text::Made(complaint.text(alloc, Place::Query)?)),
        None => Err(NoMemory),
    }
}
