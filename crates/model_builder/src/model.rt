// The model of a saturated tree.
ghost use Rattle.std.specs.Prelude.{◌≡◌, ◌<◌, ◌^◌, IsTrue, IfOk, length};
ghost use Rattle.calculus_specs.specs.State.{node_count_from};
ghost use Rattle.search_laws.specs.Limits.{IsInLimit};
ghost use Rattle.finite_model.specs.ModelLists.{meaning};
ghost use Rattle.finite_model.specs.Written.{uses_listed_names};
ghost use Rattle.blocking.specs.Trail.{facts_in, items_of};
ghost use Rattle.search_laws.specs.Built.{IsBuilt};
ghost use Rattle.search_laws.specs.CounterModelLaws.{IsCounterModel};
ghost use Rattle.blocking.specs.Followed.{IsCurrent};
ghost use Rattle.search_rules.specs.RuleLists.{numbers_in, context_in};
ghost use Rattle.model_builder.specs.Collected.{IsOfElements};
ghost use Rattle.model_builder.specs.Numbered.{AreNumbered};
ghost use Rattle.model_builder.specs.Saturated.{IsSaturatedTrail};

use crate::elements::elements_of;
use crate::places::places_of;
use crate::structure::{edges_of, members_of};
use crate::{NoMemory, interpretation};
use blocking::{Blocks, Tree};
use finite_model::Interp;
use role_box::RoleBox;
use search_laws::{Concepts, elements_are_few};
use search_rules::SearchRules;
use shq_terms::Query;
use std::alloc::{Allocator, Global};

/// The finite interpretation of a saturated tree: it meets the axioms of the rules, and an element of it is in the left
/// side of the query and not in its right side; where the query is on an individual, that individual is.
///
/// The tree's trail is one that a search over these rules for the query reaches, and is saturated; `found_blocks` has
/// its blocks. The interpretation is exactly that of the trail, and uses listed names alone. It costs what the labels
/// and the edges of the elements cost, and the pairs of transitive roles.
///
/// # Errors
///
/// Out of memory.
pub fn build<A: Allocator + Copy>(
    alloc: Global,
    tree: &Tree<A>,
    found_blocks: &Blocks,
    rules: &SearchRules<'_>,
    query: &Query,
) -> Result<Interp, NoMemory>
    requires first { tree.now.first ≡ (context_in rules.now).first }
    requires current { IsCurrent tree.now.first (facts_in tree.now.entries) found_blocks.now }
    requires within { IsInLimit rules.now.ontology query.now }
    requires saturated { IsSaturatedTrail rules.now query.now (items_of tree.now.entries) }
    ensures built { IfOk result (λ k. IsBuilt (context_in rules.now) (facts_in tree.now.entries) (meaning k)) }
    ensures counter_model { IfOk result
        (λ k. IsCounterModel rules.now.ontology (numbers_in rules.now) query.now (meaning k)) }
    ensures listed { IfOk result (λ k. IsTrue (uses_listed_names rules.now.ontology k)) }
{
    let _ = query;
    let count = rules.ontology().role_count();
    let concepts = rules.concepts();
    let model = interpretation_of_elements(
        alloc,
        tree,
        found_blocks,
        concepts,
        rules.roles(),
        count,
    )?;
    let _size = model.size();
    Ok(model)
}

/// The interpretation of a tree's elements: representatives that are not under a block, in the order of their nodes. A
/// class has the elements whose node, or what blocks it, has its name; a role below `count` has the edges of these
/// nodes by roles below it, and the chains of transitive roles below it. An individual is the element that its node is
/// one with: there is one first node more than individuals.
///
/// # Errors
///
/// Out of memory.
pub fn interpretation_of_elements<A: Allocator + Copy>(
    alloc: Global,
    tree: &Tree<A>,
    found_blocks: &Blocks,
    concepts: &Concepts,
    roles: &RoleBox,
    count: u32,
) -> Result<Interp, NoMemory>
    requires { IsCurrent tree.now.first (facts_in tree.now.entries) found_blocks.now }
    ensures { IfOk result
        (λ k. IsOfElements concepts.now roles.now count tree.now.first (facts_in tree.now.entries) (meaning k)) }
{
    let elements = elements_of(alloc, tree, found_blocks)?;
    let numbers = elements.numbers.as_slice();
    let originals = elements.originals.as_slice();
    interpretation_of(alloc, tree, numbers, originals, concepts, roles, count)
}

// The interpretation of elements by the numbers of nodes and the nodes that they are like.
fn interpretation_of<A: Allocator + Copy>(
    alloc: Global,
    tree: &Tree<A>,
    numbers: &[Option<u32>],
    originals: &[u32],
    concepts: &Concepts,
    roles: &RoleBox,
    count: u32,
) -> Result<Interp, NoMemory>
    requires numbered { AreNumbered tree.now.first (facts_in tree.now.entries)
        (node_count_from tree.now.first (facts_in tree.now.entries)) numbers.now originals.now }
    requires few { length originals.now < 2 ^ 32 }
    ensures { IfOk result
        (λ k. IsOfElements concepts.now roles.now count tree.now.first (facts_in tree.now.entries) (meaning k)) }
{
    elements_are_few();
    let size = originals.len() as u32;
    let members = members_of(alloc, tree, concepts, originals, size)?;
    let edges = edges_of(alloc, tree, numbers, originals, size)?;
    let places = places_of(alloc, tree, numbers, tree.first() - 1)?;
    interpretation(alloc, size, &members, &edges, roles, count, &places)
}
