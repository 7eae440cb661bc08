// Roles.
ghost use Rattle.std.specs.Prelude.{◌≡◌, IfOk};
ghost use Rattle.ofn_tree.specs.Items.{items_of};
ghost use Rattle.ofn_expressions.specs.Counts.{Grows};
ghost use Rattle.ofn_expressions.specs.Walk.{Tested};
ghost use Rattle.ofn_expressions.specs.Constructs.{excluded_role_name};
ghost use Rattle.ofn_expressions.specs.Classes.{role_tests, role_name_tests, roles_tests, role_group_refusal};
ghost use Rattle.ofn_expressions.specs.Classes.{declared_role_tests, listed_role, unless_excluded, MeansRole};
ghost use Rattle.ofn_expressions.specs.Classes.{MeanRoles, NamesRole};

use crate::construct::{excluded_role, excluded_role_name};
use crate::names::{item_line, read_iri};
use crate::{Construct, Prefixes, Reading, Refusal};
use ofn_tree::{Form, Tree};
use shq_terms::NumberList;
use std::alloc::Global;

/// The number of the role that an item is. A new role is listed here.
///
/// # Errors
///
/// What is wrong first, in the order of the tests, and `NoMemory`. The roles that were met before stay listed in
/// `state`. No axiom is added.
#[tactic(auto, using(crate::proofs::Groups::role_group_refused, crate::proofs::Cited::growing))]
pub fn read_role(
    alloc: Global,
    tree: &Tree<'_>,
    prefixes: &Prefixes,
    state: &mut Reading,
) -> Result<u32, Refusal>
    ensures tests { Tested result state.old (role_tests prefixes.now tree.now) state.new }
    ensures grown { Grows state.old state.new }
    ensures value { IfOk result (MeansRole prefixes.now state.new.counts tree.now) }
{
    match &tree.form {
        Form::Group(Some(text), _, line) => Err(group_refusal(excluded_role(text), *line)),
        Form::Group(None, _, line) => Err(Refusal::BadShape(*line)),
        Form::Name(_, _) | Form::Iri(_, _) | Form::Literal(_) | Form::Sign(_, _) => {
            read_role_name(alloc, tree, prefixes, state)
        }
    }
}

// The refusal of a group where a role must stand.
fn group_refusal(excluded: Option<Construct>, line: u32) -> Refusal
    ensures { result ≡ role_group_refusal excluded line }
{
    match excluded {
        Some(construct) => Refusal::Outside(line, construct),
        None => Refusal::BadShape(line),
    }
}

#[tactic(auto, using(crate::proofs::Cited::walking))]
fn read_role_name(
    alloc: Global,
    tree: &Tree<'_>,
    prefixes: &Prefixes,
    state: &mut Reading,
) -> Result<u32, Refusal>
    ensures tests { Tested result state.old (role_name_tests prefixes.now tree.now) state.new }
    ensures grown { Grows state.old state.new }
    ensures value { IfOk result (MeansRole prefixes.now state.new.counts tree.now) }
{
    let iri = read_iri(alloc, tree, prefixes)?;
    list_role(&iri, item_line(tree), state)
}

#[tactic(auto, using(crate::proofs::Cited::placing))]
fn list_role(iri: &str, line: u32, state: &mut Reading) -> Result<u32, Refusal>
    ensures tests { Tested result state.old (listed_role (excluded_role_name iri.now) line iri.now) state.new }
    ensures grown { Grows state.old state.new }
    ensures value { IfOk result (NamesRole state.new.counts iri.now) }
{
    match excluded_role_name(iri) {
        Some(construct) => Err(Refusal::Outside(line, construct)),
        None => state.add_role(line, iri),
    }
}

/// Lists the role that an item declares, unless it is one of those that are left out.
///
/// # Errors
///
/// What is wrong first, in the order of the tests, and `NoMemory`. The roles that were met before stay listed in
/// `state`. No axiom is added.
#[tactic(auto, using(crate::proofs::Cited::walking))]
pub fn declare_role(
    alloc: Global,
    tree: &Tree<'_>,
    prefixes: &Prefixes,
    state: &mut Reading,
) -> Result<(), Refusal>
    ensures tests { Tested result state.old (declared_role_tests prefixes.now tree.now) state.new }
    ensures grown { Grows state.old state.new }
{
    let iri = read_iri(alloc, tree, prefixes)?;
    list_declared(&iri, item_line(tree), state)
}

#[tactic(auto, using(crate::proofs::Cited::growing))]
fn list_declared(iri: &str, line: u32, state: &mut Reading) -> Result<(), Refusal>
    ensures tests { Tested result state.old (unless_excluded (excluded_role_name iri.now) line iri.now) state.new }
    ensures grown { Grows state.old state.new }
{
    match excluded_role_name(iri) {
        Some(_) => Ok(()),
        None => {
            state.add_role(line, iri)?;
            Ok(())
        }
    }
}

/// The numbers of the roles that the items are.
///
/// # Errors
///
/// What is wrong first, in the order of the tests, and `NoMemory`. The roles that were met before stay listed in
/// `state`. No axiom is added.
#[tactic(auto, using(crate::proofs::Cited::growing))]
pub fn read_roles(
    alloc: Global,
    items: &[Tree<'_>],
    prefixes: &Prefixes,
    state: &mut Reading,
) -> Result<NumberList, Refusal>
    ensures tests { Tested result state.old (roles_tests prefixes.now (items_of items.now)) state.new }
    ensures grown { Grows state.old state.new }
    ensures value { IfOk result (MeanRoles prefixes.now state.new.counts (items_of items.now)) }
{
    let mut roles = NumberList::new(alloc);
    for item in items {
        let role = read_role(alloc, item, prefixes, state)?;
        roles.push(role)?;
    }
    Ok(roles)
}
