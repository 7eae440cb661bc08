// Sets of classes, in which the class x has the number x + 1.
ghost use Rattle.std.specs.Prelude.{◌≡◌, ℕ, ◌<◌, ◌==◌, ◌&&◌, ◌||◌, not, [], ◌∷◌, ◌++◌, if◌then◌else◌, IfOk, OnOk};
ghost use Rattle.std.specs.Prelude.{OnErr};
ghost use Rattle.shq_meaning.specs.Below.{all_below};
ghost use Rattle.subsumption.specs.ClassSets.{has_class, class_list};

use axiom_sets::AxiomSet;
use shq_terms::NoMemory;
use std::alloc::Global;

/// The classes of a set, ascending.
///
/// # Errors
///
/// Out of memory.
pub fn classes_of(alloc: Global, set: &AxiomSet) -> Result<Vec<u32>, NoMemory>
    ensures { IfOk result (λ classes. classes.items ≡ class_list set.now) }
{
    let mut classes = Vec::new(alloc);
    for number in set.numbers() {
        classes.push(number - 1)?;
    }
    Ok(classes)
}

/// Puts a class last in the list, if it passes.
///
/// # Errors
///
/// Out of memory. The list is as before then.
pub fn push_if(classes: &mut Vec<u32>, class: u32, passes: bool) -> Result<(), NoMemory>
    ensures listed { OnOk result (classes.new.items ≡ classes.old.items ++ (if passes then class ∷ [] else [])) }
    ensures unchanged { OnErr result (classes.new.items ≡ classes.old.items) }
{
    if passes {
        classes.push(class)?;
    }
    Ok(())
}

/// Puts a class into the set, if it passes.
pub fn put_if(set: &mut AxiomSet, class: u32, passes: bool)
    requires { class < set.old.limit }
    ensures limit { set.new.limit ≡ set.old.limit }
    ensures members { (x : ℕ) → has_class set.new x ≡ (has_class set.old x || (x == class && passes)) }
{
    let _limit = set.limit();
    if passes {
        set.put(class + 1);
    }
}

/// Takes out each member that is not in the other set.
///
/// # Errors
///
/// Out of memory. The set is as before then.
pub fn keep(set: &mut AxiomSet, other: &AxiomSet) -> Result<(), NoMemory>
    requires { other.now.limit ≡ set.old.limit }
    ensures limit { set.new.limit ≡ set.old.limit }
    ensures members { OnOk result ((x : ℕ) → has_class set.new x ≡ (has_class set.old x && has_class other.now x)) }
    ensures unchanged { OnErr result (set.new ≡ set.old) }
{
    let mut rest = set.try_clone()?;
    rest.take_all(other);
    set.take_all(&rest);
    Ok(())
}

/// Whether no class of the set has a smaller number than this one.
pub fn has_none_before(set: &AxiomSet, class: u32) -> bool
    ensures { result ≡ all_below class (λ x. not (has_class set.now x)) }
{
    let mut numbers = set.numbers();
    match numbers.next() {
        Some(number) => class < number,
        None => true,
    }
}
