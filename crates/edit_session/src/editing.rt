// Axioms that come and go.
ghost use Rattle.std.specs.Prelude.{◌≡◌, ◌≤◌, true, IfOk};
ghost use Rattle.std.specs.FinSet as set;
ghost use Rattle.job_inputs.specs.Answer.{text_bytes};
ghost use Rattle.edit_session.specs.Sessions.{state_of};
ghost use Rattle.edit_session.specs.Said.{IsAddedOrRefused};
ghost use Rattle.edit_session.specs.Editing.{IsHeld, IsRemovedFrom};
ghost use Rattle.edit_session.specs.Lines.{HoldsMore};

use crate::inclusion::grown;
use crate::texts::{axiom_text, bad_line, refusal_text, removed_text};
use axiom_sets::AxiomSet;
use job_inputs::Text;
use ofn_reader::{Context, read_axiom};
use shq_terms::{NoMemory, Ontology};
use std::alloc::Global;

/// Adds the axiom that a text says, which is live then; or answers why it is none, and nothing changes.
///
/// # Errors
///
/// Out of memory.
pub(crate) fn add(
    alloc: Global,
    text: &str,
    ontology: &mut Ontology,
    context: &mut Context,
    live: &mut AxiomSet,
) -> Result<Text, NoMemory>
    requires { IsHeld ontology.old live.old }
    ensures added { IfOk result
        (λ answer. IsAddedOrRefused (state_of ontology.old context.old live.old.members) text.now
        (state_of ontology.new context.new live.new.members) (text_bytes answer)) }
    ensures held { IsHeld ontology.new live.new }
    ensures more { HoldsMore ontology.old ontology.new }
{
    let mut more = grown(alloc, live, ontology.axiom_count() + 1)?;
    match read_axiom(alloc, text, ontology, context) {
        Ok(number) => {
            more.put(number);
            *live = more;
            axiom_text(alloc, number)
        }
        Err(refusal) => refusal_text(alloc, refusal),
    }
}

/// Takes a live axiom out for good; or answers that the number is none of a live axiom.
///
/// # Errors
///
/// Out of memory.
pub(crate) fn remove(alloc: Global, number: u32, live: &mut AxiomSet) -> Result<Text, NoMemory>
    ensures removed { IfOk result
        (λ answer. IsRemovedFrom live.old.members number live.new.members (text_bytes answer)) }
    ensures limit { live.new.limit ≡ live.old.limit }
{
    if is_live(live, number) {
        live.take(number);
        removed_text(alloc, number)
    } else {
        Ok(bad_line())
    }
}

fn is_live(live: &AxiomSet, number: u32) -> bool
    ensures told { result ≡ set.contains live.now.members number }
    ensures within { result ≡ true → (1 ≤ number) × (number ≤ live.now.limit) }
{
    let limit = live.limit();
    1 <= number && number <= limit && live.has(number)
}
