// The numbers of the sets.
ghost use Rattle.std.specs.Prelude.{◌≡◌, true, IfOk, OnErr};
ghost use Rattle.job_inputs.specs.Answer.{text_bytes};
ghost use Rattle.pinpointing_jobs.specs.Counts.{counts_text};
ghost use Rattle.pinpointing_jobs.specs.Written.{AreOfAxioms, IsWrittenCount, IsToldCount};

use crate::NoMemory;
use crate::whole_text::put_heading;
use job_inputs::{Status, Text};
use repair_list::{Found, repairs};
use shq_terms::Ontology;
use std::alloc::Global;

/// The numbers of axioms, justifications and repairs of a workload, where these were found of the axioms of its
/// ontology: how the run ends, and the text. Where the search was not finished, the text is `undecided` alone.
///
/// # Errors
///
/// Out of memory. The search was finished then: that the budget was spent is told without memory.
pub fn count_answer(
    alloc: Global,
    number: u32,
    ontology: &Ontology,
    found: &Found,
) -> Result<(Status, Text), NoMemory>
    requires { AreOfAxioms ontology.now found.now }
    ensures told { IfOk result (λ a. IsToldCount number ontology.now found.now a.0 (text_bytes a.1)) }
    ensures refused { OnErr result (found.now.finished ≡ true) }
{
    if !found.finished {
        return Ok((Status::Undecided, Text::Fixed("undecided\n")));
    }
    let text = counts(alloc, number, ontology, found)?;
    Ok((Status::Done, text))
}

// The numbers of what a finished search found.
fn counts(alloc: Global, number: u32, ontology: &Ontology, found: &Found) -> Result<Text, NoMemory>
    requires { AreOfAxioms ontology.now found.now }
    ensures { IfOk result (λ text. IsWrittenCount number ontology.now found.now (text_bytes text)) }
{
    let repairs = repairs(alloc, found)?;
    let axioms = ontology.axiom_count();
    counts_text(
        alloc,
        number,
        axioms,
        found.justifications.len(),
        repairs.len(),
    )
}

fn counts_text(
    alloc: Global,
    number: u32,
    axioms: u32,
    justifications: usize,
    repairs: usize,
) -> Result<Text, NoMemory>
    ensures { IfOk result (λ text. text_bytes text ≡ counts_text number axioms justifications repairs) }
{
    let mut out = Vec::new(alloc);
    put_heading(alloc, &mut out, b"workload", number as usize)?;
    put_heading(alloc, &mut out, b"axioms", axioms as usize)?;
    put_heading(alloc, &mut out, b"justifications", justifications)?;
    put_heading(alloc, &mut out, b"repairs", repairs)?;
    Ok(Text::Bytes(out))
}
