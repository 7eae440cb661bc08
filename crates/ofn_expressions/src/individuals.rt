// Individuals.
ghost use Rattle.std.specs.Prelude.{◌≡◌, IfOk, string_bytes};
ghost use Rattle.ofn_tree.specs.Items.{items_of};
ghost use Rattle.ofn_expressions.specs.Counts.{Counts, Grows};
ghost use Rattle.ofn_expressions.specs.Walk.{Judged, Tested};
ghost use Rattle.ofn_expressions.specs.Names.{iri_of};
ghost use Rattle.ofn_expressions.specs.Individuals.{is_anonymous_item, individual_name_tests, individual_tests};
ghost use Rattle.ofn_expressions.specs.Individuals.{individuals_tests, MeansIndividual, MeanIndividuals};

use crate::names::{item_line, read_iri};
use crate::{Construct, Prefixes, Reading, Refusal};
use ofn_tree::{Form, Tree};
use shq_terms::NumberList;
use std::alloc::Global;

// The item is a name that begins with `_:`.
#[tactic(auto, unfolding(crate::specs::Names::is_anonymous))]
fn is_anonymous_item(tree: &Tree<'_>) -> bool
    ensures { result ≡ is_anonymous_item tree.now }
{
    match &tree.form {
        Form::Name(name, _) => name.as_bytes().starts_with(b"_:"),
        Form::Iri(_, _) | Form::Literal(_) | Form::Sign(_, _) | Form::Group(_, _, _) => false,
    }
}

// The IRI that an item stands for where the name of an individual must stand.
#[tactic(auto, using(crate::proofs::IndividualLists::anonymous_refused, crate::proofs::IndividualLists::named_tests))]
fn read_individual_iri(
    alloc: Global,
    tree: &Tree<'_>,
    prefixes: &Prefixes,
) -> Result<String, Refusal>
    ensures tests { (s : Counts) → Judged result s (individual_name_tests prefixes.now tree.now) s }
    ensures value { IfOk result (λ iri. string_bytes iri ≡ iri_of prefixes.now tree.now) }
{
    if is_anonymous_item(tree) {
        return Err(Refusal::Outside(item_line(tree), Construct::AnonymousIndividual));
    }
    read_iri(alloc, tree, prefixes)
}

/// The number of the individual that an item is. A new individual is listed here.
///
/// # Errors
///
/// What is wrong first, in the order of the tests, and `NoMemory`. The individuals that were met before stay listed in
/// `state`. No axiom is added.
#[tactic(auto, using(crate::proofs::Cited::walking))]
pub fn read_individual(
    alloc: Global,
    tree: &Tree<'_>,
    prefixes: &Prefixes,
    state: &mut Reading,
) -> Result<u32, Refusal>
    ensures tests { Tested result state.old (individual_tests prefixes.now tree.now) state.new }
    ensures grown { Grows state.old state.new }
    ensures value { IfOk result (MeansIndividual prefixes.now state.new.counts tree.now) }
{
    let iri = read_individual_iri(alloc, tree, prefixes)?;
    state.add_individual(item_line(tree), &iri)
}

/// The numbers of the individuals that the items are.
///
/// # Errors
///
/// What is wrong first, in the order of the tests, and `NoMemory`. The individuals that were met before stay listed in
/// `state`. No axiom is added.
#[tactic(auto, using(crate::proofs::Cited::growing))]
pub fn read_individuals(
    alloc: Global,
    items: &[Tree<'_>],
    prefixes: &Prefixes,
    state: &mut Reading,
) -> Result<NumberList, Refusal>
    ensures tests { Tested result state.old (individuals_tests prefixes.now (items_of items.now)) state.new }
    ensures grown { Grows state.old state.new }
    ensures value { IfOk result (MeanIndividuals prefixes.now state.new.counts (items_of items.now)) }
{
    let mut individuals = NumberList::new(alloc);
    for item in items {
        let individual = read_individual(alloc, item, prefixes, state)?;
        individuals.push(individual)?;
    }
    Ok(individuals)
}
