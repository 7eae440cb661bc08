// From a relation of classes to its taxonomy.
ghost use Rattle.std.specs.Prelude.{◌≡◌, ◌<◌, IfOk, IsTrue};
ghost use Rattle.lane_sieve.specs.Sets.{passing};
ghost use Rattle.classifier.specs.Rows.{holds};
ghost use Rattle.classifier.specs.ClassSets.{HoldsClasses};
ghost use Rattle.classifier.specs.Groups.{is_empty, holds_all, is_between, is_first};
ghost use Rattle.classification_jobs.specs.Listing.{is_listed};
ghost use Rattle.classification_jobs.specs.Taxonomies.{is_above, is_parent, group_of, groups_of, hierarchy_of};
ghost use Rattle.classification_jobs.specs.Taxonomies.{taxonomy_of};

use crate::groups::{Group, Hierarchy, Taxonomy};
use axiom_sets::AxiomSet;
use classifier::{
    Relation, classes_between, classes_of, equal_classes, first_classes, keep, lowest, push_if,
};
use shq_terms::NoMemory;
use std::alloc::Global;

impl Taxonomy {
    /// The taxonomy of the classes of a relation.
    ///
    /// # Errors
    ///
    /// Out of memory.
    pub fn of(alloc: Global, relation: &Relation) -> Result<Taxonomy, NoMemory>
        ensures taxonomy { IfOk result (λ t. t ≡ taxonomy_of relation.now.count (holds relation.now)) }
        ensures listed { IfOk result (λ t. IsTrue (is_listed relation.now.count t)) }
    {
        let count = relation.class_count();
        if relation.relates(count, count + 1) {
            return Ok(Taxonomy::Inconsistent);
        }
        Ok(Taxonomy::Consistent(hierarchy(alloc, relation)?))
    }
}

fn hierarchy(alloc: Global, relation: &Relation) -> Result<Hierarchy, NoMemory>
    ensures { IfOk result (λ h. h ≡ hierarchy_of relation.now.count (holds relation.now)) }
{
    let nothing = empty_classes(alloc, relation)?;
    let thing = full_classes(alloc, relation)?;
    let groups = groups(alloc, relation)?;
    Ok(Hierarchy::new(nothing, thing, groups))
}

// The classes that are included in `owl:Nothing`.
fn empty_classes(alloc: Global, relation: &Relation) -> Result<Vec<u32>, NoMemory>
    ensures { IfOk result
        (λ cs. cs.items ≡ passing (is_empty relation.now.count (holds relation.now)) 0 relation.now.count) }
{
    let count = relation.class_count();
    let mut classes = Vec::new(alloc);
    for class in 0..count {
        push_if(&mut classes, class, relation.relates(class, count + 1))?;
    }
    Ok(classes)
}

// The classes in which `owl:Thing` is included.
fn full_classes(alloc: Global, relation: &Relation) -> Result<Vec<u32>, NoMemory>
    ensures { IfOk result
        (λ cs. cs.items ≡ passing (holds_all relation.now.count (holds relation.now)) 0 relation.now.count) }
{
    let count = relation.class_count();
    let mut classes = Vec::new(alloc);
    for class in 0..count {
        push_if(&mut classes, class, relation.relates(count, class))?;
    }
    Ok(classes)
}

// The groups of the other classes.
fn groups(alloc: Global, relation: &Relation) -> Result<Vec<Group>, NoMemory>
    ensures { IfOk result (λ gs. gs.items ≡ groups_of relation.now.count (holds relation.now)) }
{
    let between = classes_between(alloc, relation)?;
    let firsts = first_classes(alloc, relation, &between)?;
    let classes = classes_of(alloc, &firsts)?;
    groups_by(alloc, relation, &between, &firsts, &classes)
}

// The groups of these first classes.
fn groups_by(
    alloc: Global,
    relation: &Relation,
    between: &AxiomSet,
    firsts: &AxiomSet,
    classes: &[u32],
) -> Result<Vec<Group>, NoMemory>
    requires between { HoldsClasses relation.now.count (is_between relation.now.count (holds relation.now))
        between.now }
    requires firsts { HoldsClasses relation.now.count (is_first relation.now.count (holds relation.now)) firsts.now }
    requires classes { classes.now ≡ passing (is_first relation.now.count (holds relation.now)) 0 relation.now.count }
    ensures { IfOk result (λ gs. gs.items ≡ groups_of relation.now.count (holds relation.now)) }
{
    let mut groups = Vec::new(alloc);
    for class in classes {
        groups.push(group(alloc, relation, between, firsts, *class)?)?;
    }
    Ok(groups)
}

// The group whose first class is this one.
fn group(
    alloc: Global,
    relation: &Relation,
    between: &AxiomSet,
    firsts: &AxiomSet,
    class: u32,
) -> Result<Group, NoMemory>
    requires class { class < relation.now.count }
    requires between { HoldsClasses relation.now.count (is_between relation.now.count (holds relation.now))
        between.now }
    requires firsts { HoldsClasses relation.now.count (is_first relation.now.count (holds relation.now)) firsts.now }
    ensures { IfOk result (λ g. g ≡ group_of relation.now.count (holds relation.now) class) }
{
    let equal = equal_classes(relation, between, class)?;
    let classes = classes_of(alloc, &equal)?;
    let parents = parents(alloc, relation, firsts, class)?;
    Ok(Group::new(classes, parents))
}

// The first classes of the groups directly above that of a class.
fn parents(
    alloc: Global,
    relation: &Relation,
    firsts: &AxiomSet,
    class: u32,
) -> Result<Vec<u32>, NoMemory>
    requires class { class < relation.now.count }
    requires firsts { HoldsClasses relation.now.count (is_first relation.now.count (holds relation.now)) firsts.now }
    ensures { IfOk result
        (λ ps. ps.items ≡ passing (is_parent relation.now.count (holds relation.now) class) 0 relation.now.count) }
{
    let above = classes_above(relation, firsts, class)?;
    lowest(alloc, relation, &above)
}

// The first classes of the other groups that hold a class.
fn classes_above(relation: &Relation, firsts: &AxiomSet, class: u32) -> Result<AxiomSet, NoMemory>
    requires class { class < relation.now.count }
    requires firsts { HoldsClasses relation.now.count (is_first relation.now.count (holds relation.now)) firsts.now }
    ensures { IfOk result (HoldsClasses relation.now.count (is_above relation.now.count (holds relation.now) class)) }
{
    let mut above = firsts.try_clone()?;
    above.take(class + 1);
    keep(&mut above, relation.above(class))?;
    Ok(above)
}
