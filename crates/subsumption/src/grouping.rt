// Groups of equal classes of a relation.
ghost use Rattle.std.specs.Prelude.{◌≡◌, ℕ, ◌<◌, ◌==◌, ◌&&◌, not, true, IfOk};
ghost use Rattle.shq_meaning.specs.Below.{all_below};
ghost use Rattle.lane_sieve.specs.Sets.{passing};
ghost use Rattle.subsumption.specs.Rows.{holds};
ghost use Rattle.subsumption.specs.ClassSets.{has_class, HoldsClasses};
ghost use Rattle.subsumption.specs.Groups.{is_between, is_equal, is_first, is_lowest, holds_no_other};

use crate::Relation;
use crate::class_sets::{classes_of, has_none_before, keep, push_if, put_if};
use axiom_sets::AxiomSet;
use shq_terms::NoMemory;
use std::alloc::Global;

/// The classes that are not equal to `owl:Nothing` and not to `owl:Thing`.
///
/// # Errors
///
/// Out of memory.
pub fn classes_between(alloc: Global, relation: &Relation) -> Result<AxiomSet, NoMemory>
    ensures { IfOk result (HoldsClasses relation.now.count (is_between relation.now.count (holds relation.now))) }
{
    let count = relation.class_count();
    let mut between = AxiomSet::empty(alloc, count + 2)?;
    for class in 0..count {
        let passes = !relation.relates(class, count + 1) && !relation.relates(count, class);
        put_if(&mut between, class, passes);
    }
    Ok(between)
}

/// Those of these classes that are equal to none of them with a smaller number.
///
/// # Errors
///
/// Out of memory.
pub fn first_classes(
    alloc: Global,
    relation: &Relation,
    between: &AxiomSet,
) -> Result<AxiomSet, NoMemory>
    requires { HoldsClasses relation.now.count (is_between relation.now.count (holds relation.now)) between.now }
    ensures { IfOk result (HoldsClasses relation.now.count (is_first relation.now.count (holds relation.now))) }
{
    let count = relation.class_count();
    let mut firsts = AxiomSet::empty(alloc, count + 2)?;
    for class in 0..count {
        let passes = is_first(relation, between, class)?;
        put_if(&mut firsts, class, passes);
    }
    Ok(firsts)
}

fn is_first(relation: &Relation, between: &AxiomSet, class: u32) -> Result<bool, NoMemory>
    requires class { class < relation.now.count }
    requires between { HoldsClasses relation.now.count (is_between relation.now.count (holds relation.now))
        between.now }
    ensures { IfOk result (λ passes. passes ≡ is_first relation.now.count (holds relation.now) class) }
{
    let _limit = between.limit();
    if !between.has(class + 1) {
        return Ok(false);
    }
    let equal = equal_classes(relation, between, class)?;
    Ok(has_none_before(&equal, class))
}

/// The classes of the group of a class.
///
/// # Errors
///
/// Out of memory.
pub fn equal_classes(
    relation: &Relation,
    between: &AxiomSet,
    class: u32,
) -> Result<AxiomSet, NoMemory>
    requires class { class < relation.now.count }
    requires between { HoldsClasses relation.now.count (is_between relation.now.count (holds relation.now))
        between.now }
    ensures { IfOk result (HoldsClasses relation.now.count (is_equal relation.now.count (holds relation.now) class)) }
{
    let mut equal = between.try_clone()?;
    keep(&mut equal, relation.above(class))?;
    keep(&mut equal, relation.below(class))?;
    Ok(equal)
}

/// Those classes of a set in which no other class of the set is included, ascending.
///
/// # Errors
///
/// Out of memory.
pub fn lowest(alloc: Global, relation: &Relation, set: &AxiomSet) -> Result<Vec<u32>, NoMemory>
    requires { HoldsClasses relation.now.count (has_class set.now) set.now }
    ensures { IfOk result
        (λ cs. cs.items
        ≡ passing (is_lowest relation.now.count (holds relation.now) (has_class set.now)) 0 relation.now.count) }
{
    let candidates = classes_of(alloc, set)?;
    let mut left = set.try_clone()?;
    let mut lowest = Vec::new(alloc);
    for candidate in &candidates {
        let passes = is_lowest(relation, &mut left, *candidate);
        push_if(&mut lowest, *candidate, passes)?;
    }
    Ok(lowest)
}

// Whether no other class of the set is included in this one, which is in the set. The set is as before.
fn is_lowest(relation: &Relation, set: &mut AxiomSet, class: u32) -> bool
    requires class { class < relation.now.count }
    requires set { HoldsClasses relation.now.count (has_class set.old) set.old }
    requires member { has_class set.old class ≡ true }
    ensures lowest { result ≡ holds_no_other relation.now.count (holds relation.now) (has_class set.old) class }
    ensures limit { set.new.limit ≡ set.old.limit }
    ensures same { (x : ℕ) → has_class set.new x ≡ has_class set.old x }
{
    let _limit = set.limit();
    set.take(class + 1);
    let lowest = !relation.below(class).meets(set);
    set.put(class + 1);
    lowest
}
