//! What is answered of the sets that a search found: a list of all justifications or of all repairs, or the numbers of
//! both.
//!
//! A justification is a smallest set of axioms from which a query follows; a repair is a smallest set without which it
//! does not follow any more. A hitting-set tree finds the justifications, and leaves among which the repairs are
//! (Raymond Reiter, "A Theory of Diagnosis from First Principles", Artificial Intelligence 32, 1987). Where the search
//! was finished, all are listed, and else those that its nodes make known.
ghost use Rattle.std.specs.Prelude.{◌≡◌, ◌++◌, ◌∷◌, [], length, IfOk, OnOk};
ghost use Rattle.std.specs.List.{All};
ghost use Rattle.job_inputs.specs.Answer.{text_bytes};
ghost use Rattle.pinpointing_jobs.specs.Listings.{heading, last_line, listing_text, end_status};
ghost use Rattle.pinpointing_jobs.specs.Written.{AreOfAxioms, IsWritten};

use crate::wanted::Wanted;
use crate::{NoMemory, sets_text};
use axiom_sets::AxiomSet;
use job_inputs::{Status, Text};
use repair_list::{Found, repairs};
use shq_terms::Ontology;
use std::alloc::Global;

/// The list of the wanted sets among those that were found of the axioms of an ontology: how the run ends, and the
/// text. Where the search was not finished, the heading says that the list is a part, and the last line is `undecided`.
///
/// # Errors
///
/// Out of memory.
pub fn list_answer(
    alloc: Global,
    wanted: Wanted,
    ontology: &Ontology,
    found: &Found,
) -> Result<(Status, Text), NoMemory>
    requires { AreOfAxioms ontology.now found.now }
    ensures { IfOk result (λ a. IsWritten wanted ontology.now found.now a.0 (text_bytes a.1)) }
{
    match wanted {
        Wanted::Justifications => {
            let justifications = &found.justifications;
            listing(alloc, wanted, ontology, justifications, found.finished)
        }
        Wanted::Repairs => {
            let repairs = repairs(alloc, found)?;
            listing(alloc, wanted, ontology, &repairs, found.finished)
        }
    }
}

// The text of a list of sets, and how the run ends.
fn listing(
    alloc: Global,
    wanted: Wanted,
    ontology: &Ontology,
    sets: &[AxiomSet],
    finished: bool,
) -> Result<(Status, Text), NoMemory>
    requires { All (λ s. s.limit ≡ length ontology.now.axioms) sets.now }
    ensures text { IfOk result (λ a. text_bytes a.1 ≡ listing_text ontology.now wanted finished sets.now) }
    ensures status { IfOk result (λ a. a.0 ≡ end_status finished) }
{
    let mut out = Vec::new(alloc);
    sets_text(alloc, &mut out, ontology, heading(wanted, finished), sets)?;
    out.extend_from_slice(last_line(finished).as_bytes())?;
    Ok((end_status(finished), Text::Bytes(out)))
}

fn heading(wanted: Wanted, finished: bool) -> &'static str
    ensures { result.now ≡ heading wanted finished }
{
    match (wanted, finished) {
        (Wanted::Justifications, true) => "justifications",
        (Wanted::Justifications, false) => "partial justifications",
        (Wanted::Repairs, true) => "repairs",
        (Wanted::Repairs, false) => "partial repairs",
    }
}

fn last_line(finished: bool) -> &'static str
    ensures { result.now ≡ last_line finished }
{
    if finished { "" } else { "undecided\n" }
}

// How a run ends whose search was finished, or was not.
fn end_status(finished: bool) -> Status
    ensures { result ≡ end_status finished }
{
    if finished {
        Status::Done
    } else {
        Status::Undecided
    }
}
