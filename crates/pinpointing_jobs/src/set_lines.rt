// The lines of sets.
ghost use Rattle.std.specs.Prelude.{◌≡◌, ◌++◌, OnOk};
ghost use Rattle.job_inputs.specs.SetText.{set_text};
ghost use Rattle.ofn_writer.specs.Canonical.{line};
ghost use Rattle.pinpointing_jobs.specs.SetLists.{set_lines};

use crate::NoMemory;
use axiom_sets::AxiomSet;
use job_inputs::{put, put_set};
use std::alloc::Global;

/// Puts a line for each set last.
pub(crate) fn put_sets(alloc: Global, out: &mut Vec<u8>, sets: &[AxiomSet]) -> Result<(), NoMemory>
    ensures { OnOk result (out.new.items ≡ out.old.items ++ set_lines sets.now) }
{
    for set in sets {
        put_set_line(alloc, out, set)?;
    }
    Ok(())
}

fn put_set_line(alloc: Global, out: &mut Vec<u8>, set: &AxiomSet) -> Result<(), NoMemory>
    ensures { OnOk result (out.new.items ≡ out.old.items ++ line (set_text set.now)) }
{
    put_set(alloc, out, set)?;
    put(out, b"\n")
}
