// Evidence is taken out by its set of axioms.
ghost use Rattle.std.specs.Prelude.{◌≡◌, ◌<◌, length, slice_index_or};
ghost use Rattle.refutation_tree.specs.RefutationLists.{RefutationLists};
ghost use Rattle.audit_jobs.specs.declared.evidence.CounterModel.{CounterModel as PlainModel};
ghost use Rattle.audit_jobs.specs.Kept.{HasRefutation, HasModel};
ghost use Rattle.audit_jobs.specs.Taken.{TakesOut};

use crate::evidence::CounterModel;
use axiom_sets::AxiomSet;
use refutation_tree::Refutation;

/// Takes out a refutation that names just these axioms.
pub(crate) fn take_refutation(refutations: &mut Vec<Refutation>, axioms: &AxiomSet) -> Refutation
    requires { HasRefutation refutations.old.items axioms.now }
    ensures { TakesOut (λ r. r.axioms) axioms.now refutations.old.items refutations.new.items result }
{
    let place = place_of_refutation(refutations, axioms);
    refutations.remove(place)
}

fn place_of_refutation(refutations: &[Refutation], axioms: &AxiomSet) -> usize
    requires { HasRefutation refutations.now axioms.now }
    ensures within { result < length refutations.now }
    ensures is { (d : RefutationLists) → (slice_index_or refutations.now result d).axioms ≡ axioms.now }
{
    for place in 0..refutations.len() {
        if *refutations[place].axioms_used() == *axioms {
            return place;
        }
    }
    unreachable!()
}

/// Takes out a model of the set.
pub(crate) fn take_model(models: &mut Vec<CounterModel>, set: &AxiomSet) -> CounterModel
    requires { HasModel models.old.items set.now }
    ensures { TakesOut (λ m. m.set) set.now models.old.items models.new.items result }
{
    let place = place_of_model(models, set);
    models.remove(place)
}

fn place_of_model(models: &[CounterModel], set: &AxiomSet) -> usize
    requires { HasModel models.now set.now }
    ensures within { result < length models.now }
    ensures is { (d : PlainModel) → (slice_index_or models.now result d).set ≡ set.now }
{
    for place in 0..models.len() {
        if models[place].set == *set {
            return place;
        }
    }
    unreachable!()
}
