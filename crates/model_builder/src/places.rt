// The individuals, by the elements that they are.
ghost use Rattle.std.specs.Prelude.{◌≡◌, ◌<◌, ◌≤◌, ◌+◌, ◌^◌, None, length, map, OnOk, IfOk, All};
ghost use Rattle.std.specs.List.{range_with_len};
ghost use Rattle.calculus_specs.specs.Joins.{rep};
ghost use Rattle.calculus_specs.specs.State.{node_count_from};
ghost use Rattle.blocking.specs.Trail.{facts_in};
ghost use Rattle.model_builder.specs.Numbered.{number_of, place_of};
ghost use Rattle.model_builder.specs.Collected.{ArePlaces};
ghost use Rattle.model_builder.specs.Gains.{HasPlaces};

use crate::NoMemory;
use crate::structure::number_at;
use blocking::Tree;
use finite_model::Interp;
use std::alloc::{Allocator, Global};

/// For each of the first `count` individuals, which have the first nodes, the element that its node is one with.
pub(crate) fn places_of<A: Allocator + Copy>(
    alloc: Global,
    tree: &Tree<A>,
    numbers: &[Option<u32>],
    count: u32,
) -> Result<Vec<u32>, NoMemory>
    requires first { count ≤ tree.now.first }
    requires numbers { numbers.now
        ≡ map (number_of tree.now.first (facts_in tree.now.entries))
        (range_with_len 0 (node_count_from tree.now.first (facts_in tree.now.entries))) }
    ensures { IfOk result (λ places. ArePlaces tree.now.first (facts_in tree.now.entries) count places.items) }
{
    let mut places = Vec::new(alloc);
    for individual in 0..count {
        places.push(place_of(tree, numbers, individual))?;
    }
    Ok(places)
}

/// The element that the node of an individual is one with.
fn place_of<A: Allocator + Copy>(tree: &Tree<A>, numbers: &[Option<u32>], individual: u32) -> u32
    ensures { result ≡ place_of numbers.now (rep (facts_in tree.now.entries)) individual }
{
    match number_at(numbers, tree.representative(individual)) {
        Some(place) => place,
        None => 0,
    }
}

/// Makes the first individuals the elements at their places.
pub(crate) fn put_places(model: &mut Interp, places: &[u32]) -> Result<(), NoMemory>
    requires inside { All (λ x. x < model.old.size) places.now }
    requires few { length places.now < 2 ^ 32 }
    ensures { OnOk result (HasPlaces model.old model.new places.now) }
{
    for individual in 0..places.len() as u32 {
        model.put_individual(individual, places[individual as usize])?;
    }
    Ok(())
}
