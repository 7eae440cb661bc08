// The evidence of tests.
ghost use Rattle.std.specs.Prelude.{◌≡◌, ◌∷◌, [], ◌++◌, OnOk};
ghost use Rattle.std.specs.FinSet as sets;
ghost use Rattle.pinpointing_jobs.specs.Asking.{reply_of};
ghost use Rattle.pinpointing_jobs.specs.Decided.{outcome_of};
ghost use Rattle.audit_jobs.specs.Kept.{HasRoom, NamesUpTo, KeepsAnswer};

use axiom_sets::AxiomSet;
use finite_model::Interp;
use pinpointing_jobs::Answer;
use refutation_tree::Refutation;
use set_questions::Reply;
use shq_terms::NoMemory;
use std::alloc::Global;

/// An interpretation of the axioms of a set in which the query does not hold.
#[derive(Drop)]
pub(crate) struct CounterModel {
    pub(crate) set: AxiomSet,
    pub(crate) model: Interp,
}

/// What tests of one query found.
#[derive(Drop)]
pub(crate) struct Evidence {
    pub(crate) refutations: Vec<Refutation>,
    pub(crate) models: Vec<CounterModel>,
}

/// No evidence.
pub(crate) fn no_evidence(alloc: Global) -> Evidence
    ensures refutations { result.refutations.items ≡ [] }
    ensures models { result.models.items ≡ [] }
{
    Evidence {
        refutations: Vec::new(alloc),
        models: Vec::new(alloc),
    }
}

/// Makes room for what one more test finds.
///
/// # Errors
///
/// Out of memory. What is kept stays, whatever the result.
pub(crate) fn make_room(evidence: &mut Evidence) -> Result<(), NoMemory>
    ensures refutations { evidence.new.refutations.items ≡ evidence.old.refutations.items }
    ensures models { evidence.new.models.items ≡ evidence.old.models.items }
    ensures room { OnOk result (HasRoom evidence.new) }
{
    evidence.refutations.reserve(1)?;
    evidence.models.reserve(1)?;
    Ok(())
}

/// Keeps what a test of the set found, for which there is room, and tells whether the query follows. `names` is the
/// empty set, which gets the axioms of a refutation.
pub(crate) fn keep(evidence: &mut Evidence, set: AxiomSet, names: AxiomSet, answer: Answer) -> Reply
    requires room { HasRoom evidence.old }
    requires none { names.members ≡ sets.empty }
    requires limit { NamesUpTo names.limit answer }
    ensures reply { result ≡ reply_of (outcome_of answer) }
    ensures kept { KeepsAnswer evidence.old evidence.new set answer }
{
    match answer {
        Answer::Entailed(refutation) => Reply::Yes(keep_refutation(evidence, names, refutation)),
        Answer::NotEntailed(model) => {
            evidence.models.push_reserved(CounterModel { set, model });
            Reply::No
        }
        Answer::Undecided => Reply::Spent,
    }
}

// Keeps a refutation, and tells its axioms.
fn keep_refutation(evidence: &mut Evidence, mut names: AxiomSet, refutation: Refutation) -> AxiomSet
    requires room { HasRoom evidence.old }
    requires none { names.members ≡ sets.empty }
    requires limit { refutation.axioms.limit ≡ names.limit }
    ensures axioms { result ≡ refutation.axioms }
    ensures refutations { evidence.new.refutations.items ≡ evidence.old.refutations.items ++ refutation ∷ [] }
    ensures models { evidence.new.models.items ≡ evidence.old.models.items }
{
    names.put_all(refutation.axioms_used());
    evidence.refutations.push_reserved(refutation);
    names
}
