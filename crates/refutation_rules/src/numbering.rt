// The numbers of a refutation's concepts in a table.
ghost use Rattle.std.specs.Prelude.{◌≡◌, ◌≤◌, ◌∷◌, IsTrue, IfOk, length, map, slice_index};
ghost use Rattle.calculus_specs.specs.Shape.{has_parts_below, is_normal};
ghost use Rattle.calculus_specs.specs.Shape.Shape.{top as plain_top};
ghost use Rattle.calculus_specs.specs.Tree.{tree_of};
ghost use Rattle.shq_nnf.specs.Shapes.{form_of};
ghost use Rattle.shq_nnf.specs.Numbers.{Extends, IsNumber};
ghost use Rattle.role_box.specs.RoleAxioms.{role_axioms};
ghost use Rattle.axiom_sets.specs.Sets.{IsWithin, member_list};
ghost use Rattle.refutation_rules.specs.Numbers.{AreFirst, AreAllNumbered, renumbered, IsRenumbered};

use crate::NoMemory;
use axiom_sets::AxiomSet;
use refutation_tree::Refutation;
use role_box::RoleBox;
use shq_nnf::{Concepts, Shape};
use shq_terms::Ontology;
use std::alloc::Global;

// The numbers of top and, after it, of each concept of the refutation.
pub(crate) fn number_concepts(
    alloc: Global,
    concepts: &mut Concepts,
    refutation: &Refutation,
) -> Result<Vec<u32>, NoMemory>
    ensures numbers { IfOk result (λ ns. AreAllNumbered refutation.now.shapes concepts.new ns.items) }
{
    let _count = concepts.len();
    let mut numbers = Vec::new(alloc);
    numbers.push(0)?;
    for place in 0..refutation.shape_count() {
        let number = put_concept(alloc, concepts, &numbers, refutation, place + 1)?;
        numbers.push(number)?;
    }
    Ok(numbers)
}

// The number of a concept, where those before it have theirs.
fn put_concept(
    alloc: Global,
    concepts: &mut Concepts,
    numbers: &[u32],
    refutation: &Refutation,
    concept: u32,
) -> Result<u32, NoMemory>
    requires numbers { AreFirst refutation.now.shapes concepts.old numbers.now concept }
    requires low { 1 ≤ concept }
    requires high { concept ≤ length refutation.now.shapes }
    ensures number { IfOk result (λ n. IsNumber concepts.new n (tree_of (plain_top ∷ refutation.now.shapes) concept)) }
    ensures kept { Extends concepts.old concepts.new }
{
    let _count = concepts.len();
    put_renumbered(alloc, concepts, numbers, refutation.shape(concept))
}

// The number of a shape with other numbers for its parts.
fn put_renumbered(
    alloc: Global,
    concepts: &mut Concepts,
    numbers: &[u32],
    shape: Shape<'_>,
) -> Result<u32, NoMemory>
    requires parts { IsTrue (has_parts_below (length concepts.old) (renumbered numbers.now (form_of shape))) }
    requires normal { IsTrue (is_normal concepts.old (renumbered numbers.now (form_of shape))) }
    ensures number { IfOk result (IsRenumbered concepts.old concepts.new numbers.now shape.entry) }
    ensures kept { Extends concepts.old concepts.new }
{
    match shape {
        Shape::Top => concepts.put(Shape::Top),
        Shape::Bottom => concepts.put(Shape::Bottom),
        Shape::Name(class) => concepts.put(Shape::Name(class)),
        Shape::NotName(class) => concepts.put(Shape::NotName(class)),
        Shape::And(parts) => {
            let parts = renumbered(alloc, numbers, parts)?;
            concepts.put(Shape::And(&parts))
        }
        Shape::Or(parts) => {
            let parts = renumbered(alloc, numbers, parts)?;
            concepts.put(Shape::Or(&parts))
        }
        Shape::SomeOf(role, filler) => {
            concepts.put(Shape::SomeOf(role, number_at(numbers, filler)))
        }
        Shape::AllOf(role, filler) => {
            concepts.put(Shape::AllOf(role, number_at(numbers, filler)))
        }
        Shape::Min(count, role, filler) => {
            concepts.put(Shape::Min(count, role, number_at(numbers, filler)))
        }
        Shape::Max(count, role, filler) => {
            concepts.put(Shape::Max(count, role, number_at(numbers, filler)))
        }
    }
}

fn renumbered(alloc: Global, numbers: &[u32], parts: &[u32]) -> Result<Vec<u32>, NoMemory>
    ensures { IfOk result (λ found. found.items ≡ map (slice_index numbers.now) parts.now) }
{
    Ok(
        parts
            .iter()
            .map(|part| number_at(numbers, *part))
            .collect(alloc)?,
    )
}

fn number_at(numbers: &[u32], concept: u32) -> u32
    ensures { result ≡ slice_index numbers.now concept }
{
    match numbers.get(concept as usize) {
        Some(number) => *number,
        None => 0,
    }
}

// The roles by the axioms that are named.
pub(crate) fn roles_of(
    alloc: Global,
    ontology: &Ontology,
    named: &AxiomSet,
) -> Result<RoleBox, NoMemory>
    requires { IsWithin (length ontology.now.axioms) named.now.members }
    ensures { IfOk result (λ roles. roles ≡ role_axioms ontology.now.axioms (member_list named.now)) }
{
    let numbers = listed(alloc, named)?;
    let roles = RoleBox::build(alloc, ontology, &numbers)?;
    Ok(roles)
}

fn listed(alloc: Global, named: &AxiomSet) -> Result<Vec<u32>, NoMemory>
    ensures { IfOk result (λ numbers. numbers.items ≡ member_list named.now) }
{
    Ok(named.numbers().collect(alloc)?)
}
