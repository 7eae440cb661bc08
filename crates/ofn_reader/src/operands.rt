// The items of numbered axioms.
ghost use Rattle.std.specs.Prelude.{◌≡◌, ◌∷◌, ◌++◌, [], IfOk, length, true};
ghost use Rattle.std.specs.Result.{result_map_both};
ghost use Rattle.shq_terms.specs.declared.axioms.Axiom.TheVariants as axioms;
ghost use Rattle.ofn_tree.specs.Items.{items_of};
ghost use Rattle.ofn_expressions.specs.Counts.{Grows};
ghost use Rattle.ofn_expressions.specs.Walk.{Tested};
ghost use Rattle.ofn_expressions.specs.Classes.{classes_tests, role_tests, roles_tests};
ghost use Rattle.ofn_expressions.specs.Individuals.{individuals_tests};
ghost use Rattle.ofn_reader.specs.Axioms.{axiom_fits, class_pair_tests, role_pair_tests, role_then_class_tests};
ghost use Rattle.ofn_reader.specs.Axioms.{member_tests, pair_tests, name_then_classes_tests, operand_tests, ItemsSay};
ghost use Rattle.ofn_reader.specs.Queries.{MeansPair, MeansMember};
ghost use Rattle.ofn_reader.specs.declared.keywords.AxiomKind.TheVariants as K;

use crate::keywords::AxiomKind;
use ofn_expressions::{
    Prefixes, Reading, Refusal, read_class, read_class_name, read_classes, read_individual,
    read_individuals, read_role, read_roles,
};
use ofn_tree::Tree;
use shq_terms::{Axiom, Concept, On, Query};
use std::alloc::Global;

/// Two class expressions.
///
/// # Errors
///
/// What is wrong first, in the order of the tests, and `NoMemory`.
#[tactic(auto, using(ofn_expressions::proofs::Cited::walking))]
pub(crate) fn read_pair(
    alloc: Global,
    sub: &Tree<'_>,
    sup: &Tree<'_>,
    prefixes: &Prefixes,
    state: &mut Reading,
) -> Result<Query, Refusal>
    ensures tests { Tested result state.old (class_pair_tests prefixes.now sub.now sup.now) state.new }
    ensures grown { Grows state.old state.new }
    ensures value { IfOk result (MeansPair prefixes.now state.new.counts (items_of (sub.now ∷ sup.now ∷ []))) }
{
    let sub = read_class(alloc, sub, prefixes, state)?;
    let sup = read_class(alloc, sup, prefixes, state);
    pair_of(sub, sup)
}

fn pair_of(sub: Concept, sup: Result<Concept, Refusal>) -> Result<Query, Refusal>
    ensures { result ≡ result_map_both (λ d. record { sub = sub; sup = d; on = On.Any }) (λ e. e) sup }
{
    match sup {
        Ok(sup) => Ok(Query {
            sub,
            sup,
            on: On::Any,
        }),
        Err(refusal) => {
            drop(sub);
            Err(refusal)
        }
    }
}

fn sub_class(pair: Query) -> Axiom
    ensures { result ≡ axioms.SubClassOf pair.sub pair.sup }
{
    Axiom::SubClassOf(pair.sub, pair.sup)
}

#[tactic(auto, using(ofn_expressions::proofs::Cited::growing))]
fn read_sub_class(
    alloc: Global,
    sub: &Tree<'_>,
    sup: &Tree<'_>,
    prefixes: &Prefixes,
    state: &mut Reading,
) -> Result<Axiom, Refusal>
    ensures tests { Tested result state.old (class_pair_tests prefixes.now sub.now sup.now) state.new }
    ensures grown { Grows state.old state.new }
    ensures value { IfOk result (ItemsSay prefixes.now state.new.counts K.SubClassOf (sub.now ∷ sup.now ∷ [])) }
{
    let pair = read_pair(alloc, sub, sup, prefixes, state)?;
    Ok(sub_class(pair))
}

#[tactic(auto, using(ofn_expressions::proofs::Cited::growing))]
fn read_equivalent_classes(
    alloc: Global,
    items: &[Tree<'_>],
    prefixes: &Prefixes,
    state: &mut Reading,
) -> Result<Axiom, Refusal>
    ensures tests { Tested result state.old (classes_tests prefixes.now items.now) state.new }
    ensures grown { Grows state.old state.new }
    ensures value { IfOk result (ItemsSay prefixes.now state.new.counts K.EquivalentClasses items.now) }
{
    let classes = read_classes(alloc, items, prefixes, state)?;
    Ok(Axiom::EquivalentClasses(classes))
}

#[tactic(auto, using(ofn_expressions::proofs::Cited::growing))]
fn read_disjoint_classes(
    alloc: Global,
    items: &[Tree<'_>],
    prefixes: &Prefixes,
    state: &mut Reading,
) -> Result<Axiom, Refusal>
    ensures tests { Tested result state.old (classes_tests prefixes.now items.now) state.new }
    ensures grown { Grows state.old state.new }
    ensures value { IfOk result (ItemsSay prefixes.now state.new.counts K.DisjointClasses items.now) }
{
    let classes = read_classes(alloc, items, prefixes, state)?;
    Ok(Axiom::DisjointClasses(classes))
}

#[tactic(auto, using(ofn_expressions::proofs::Cited::walking))]
fn read_disjoint_union(
    alloc: Global,
    name: &Tree<'_>,
    classes: &[Tree<'_>],
    prefixes: &Prefixes,
    state: &mut Reading,
) -> Result<Axiom, Refusal>
    ensures tests { Tested result state.old (name_then_classes_tests prefixes.now name.now classes.now) state.new }
    ensures grown { Grows state.old state.new }
    ensures value { IfOk result (ItemsSay prefixes.now state.new.counts K.DisjointUnion (name.now ∷ classes.now)) }
{
    let name = read_class_name(alloc, name, prefixes, state)?;
    let classes = read_classes(alloc, classes, prefixes, state)?;
    Ok(Axiom::DisjointUnion(name, classes))
}

#[tactic(auto, using(ofn_expressions::proofs::Cited::walking))]
fn read_sub_role(
    alloc: Global,
    sub: &Tree<'_>,
    sup: &Tree<'_>,
    prefixes: &Prefixes,
    state: &mut Reading,
) -> Result<Axiom, Refusal>
    ensures tests { Tested result state.old (role_pair_tests prefixes.now sub.now sup.now) state.new }
    ensures grown { Grows state.old state.new }
    ensures value { IfOk result (ItemsSay prefixes.now state.new.counts K.SubRole (sub.now ∷ sup.now ∷ [])) }
{
    let sub = read_role(alloc, sub, prefixes, state)?;
    let sup = read_role(alloc, sup, prefixes, state)?;
    Ok(Axiom::SubRole(sub, sup))
}

#[tactic(auto, using(ofn_expressions::proofs::Cited::growing))]
fn read_equivalent_roles(
    alloc: Global,
    items: &[Tree<'_>],
    prefixes: &Prefixes,
    state: &mut Reading,
) -> Result<Axiom, Refusal>
    ensures tests { Tested result state.old (roles_tests prefixes.now (items_of items.now)) state.new }
    ensures grown { Grows state.old state.new }
    ensures value { IfOk result (ItemsSay prefixes.now state.new.counts K.EquivalentRoles items.now) }
{
    let roles = read_roles(alloc, items, prefixes, state)?;
    Ok(Axiom::EquivalentRoles(roles))
}

#[tactic(auto, using(ofn_expressions::proofs::Cited::walking))]
fn read_domain(
    alloc: Global,
    role: &Tree<'_>,
    class: &Tree<'_>,
    prefixes: &Prefixes,
    state: &mut Reading,
) -> Result<Axiom, Refusal>
    ensures tests { Tested result state.old (role_then_class_tests prefixes.now role.now class.now) state.new }
    ensures grown { Grows state.old state.new }
    ensures value { IfOk result (ItemsSay prefixes.now state.new.counts K.Domain (role.now ∷ class.now ∷ [])) }
{
    let role = read_role(alloc, role, prefixes, state)?;
    let class = read_class(alloc, class, prefixes, state)?;
    Ok(Axiom::Domain(role, class))
}

#[tactic(auto, using(ofn_expressions::proofs::Cited::walking))]
fn read_range(
    alloc: Global,
    role: &Tree<'_>,
    class: &Tree<'_>,
    prefixes: &Prefixes,
    state: &mut Reading,
) -> Result<Axiom, Refusal>
    ensures tests { Tested result state.old (role_then_class_tests prefixes.now role.now class.now) state.new }
    ensures grown { Grows state.old state.new }
    ensures value { IfOk result (ItemsSay prefixes.now state.new.counts K.Range (role.now ∷ class.now ∷ [])) }
{
    let role = read_role(alloc, role, prefixes, state)?;
    let class = read_class(alloc, class, prefixes, state)?;
    Ok(Axiom::Range(role, class))
}

#[tactic(auto, using(ofn_expressions::proofs::Cited::walking))]
fn read_functional(
    alloc: Global,
    role: &Tree<'_>,
    prefixes: &Prefixes,
    state: &mut Reading,
) -> Result<Axiom, Refusal>
    ensures tests { Tested result state.old (role_tests prefixes.now role.now ++ []) state.new }
    ensures grown { Grows state.old state.new }
    ensures value { IfOk result (ItemsSay prefixes.now state.new.counts K.Functional (role.now ∷ [])) }
{
    let role = read_role(alloc, role, prefixes, state)?;
    Ok(Axiom::Functional(role))
}

#[tactic(auto, using(ofn_expressions::proofs::Cited::walking))]
fn read_transitive(
    alloc: Global,
    role: &Tree<'_>,
    prefixes: &Prefixes,
    state: &mut Reading,
) -> Result<Axiom, Refusal>
    ensures tests { Tested result state.old (role_tests prefixes.now role.now ++ []) state.new }
    ensures grown { Grows state.old state.new }
    ensures value { IfOk result (ItemsSay prefixes.now state.new.counts K.Transitive (role.now ∷ [])) }
{
    let role = read_role(alloc, role, prefixes, state)?;
    Ok(Axiom::Transitive(role))
}

/// A class expression, and an individual that is said to be in it.
#[derive(Drop)]
pub(crate) struct Membership {
    pub(crate) class: Concept,
    pub(crate) individual: u32,
}

/// A class expression and an individual.
///
/// # Errors
///
/// What is wrong first, in the order of the tests, and `NoMemory`.
#[tactic(auto, using(ofn_expressions::proofs::Cited::walking))]
pub(crate) fn read_member(
    alloc: Global,
    class: &Tree<'_>,
    individual: &Tree<'_>,
    prefixes: &Prefixes,
    state: &mut Reading,
) -> Result<Membership, Refusal>
    ensures tests { Tested result state.old (member_tests prefixes.now class.now individual.now) state.new }
    ensures grown { Grows state.old state.new }
    ensures value { IfOk result
        (λ m. MeansMember prefixes.now state.new.counts class.now individual.now m.class m.individual) }
{
    let class = read_class(alloc, class, prefixes, state)?;
    let individual = read_individual(alloc, individual, prefixes, state);
    member_of(class, individual)
}

fn member_of(class: Concept, individual: Result<u32, Refusal>) -> Result<Membership, Refusal>
    ensures { result ≡ result_map_both (λ a. record { class = class; individual = a }) (λ e. e) individual }
{
    match individual {
        Ok(individual) => Ok(Membership { class, individual }),
        Err(refusal) => {
            drop(class);
            Err(refusal)
        }
    }
}

fn member_axiom(member: Membership) -> Axiom
    ensures { result ≡ axioms.Member member.class member.individual }
{
    Axiom::Member(member.class, member.individual)
}

#[tactic(auto, using(ofn_expressions::proofs::Cited::growing))]
fn read_member_axiom(
    alloc: Global,
    class: &Tree<'_>,
    individual: &Tree<'_>,
    prefixes: &Prefixes,
    state: &mut Reading,
) -> Result<Axiom, Refusal>
    ensures tests { Tested result state.old (member_tests prefixes.now class.now individual.now) state.new }
    ensures grown { Grows state.old state.new }
    ensures value { IfOk result (ItemsSay prefixes.now state.new.counts K.Member (class.now ∷ individual.now ∷ [])) }
{
    let member = read_member(alloc, class, individual, prefixes, state)?;
    Ok(member_axiom(member))
}

#[tactic(auto, using(ofn_expressions::proofs::Cited::walking))]
fn read_pair_axiom(
    alloc: Global,
    role: &Tree<'_>,
    from: &Tree<'_>,
    to: &Tree<'_>,
    prefixes: &Prefixes,
    state: &mut Reading,
) -> Result<Axiom, Refusal>
    ensures tests { Tested result state.old (pair_tests prefixes.now role.now from.now to.now) state.new }
    ensures grown { Grows state.old state.new }
    ensures value { IfOk result (ItemsSay prefixes.now state.new.counts K.Pair (role.now ∷ from.now ∷ to.now ∷ [])) }
{
    let role = read_role(alloc, role, prefixes, state)?;
    let from = read_individual(alloc, from, prefixes, state)?;
    let to = read_individual(alloc, to, prefixes, state)?;
    Ok(Axiom::Pair(role, from, to))
}

#[tactic(auto, using(ofn_expressions::proofs::Cited::growing))]
fn read_same(
    alloc: Global,
    items: &[Tree<'_>],
    prefixes: &Prefixes,
    state: &mut Reading,
) -> Result<Axiom, Refusal>
    ensures tests { Tested result state.old (individuals_tests prefixes.now (items_of items.now)) state.new }
    ensures grown { Grows state.old state.new }
    ensures value { IfOk result (ItemsSay prefixes.now state.new.counts K.SameAll items.now) }
{
    let individuals = read_individuals(alloc, items, prefixes, state)?;
    Ok(Axiom::SameAll(individuals))
}

#[tactic(auto, using(ofn_expressions::proofs::Cited::growing))]
fn read_different(
    alloc: Global,
    items: &[Tree<'_>],
    prefixes: &Prefixes,
    state: &mut Reading,
) -> Result<Axiom, Refusal>
    ensures tests { Tested result state.old (individuals_tests prefixes.now (items_of items.now)) state.new }
    ensures grown { Grows state.old state.new }
    ensures value { IfOk result (ItemsSay prefixes.now state.new.counts K.Different items.now) }
{
    let individuals = read_individuals(alloc, items, prefixes, state)?;
    Ok(Axiom::Different(individuals))
}

/// The axiom that as many items say as its kind asks.
///
/// # Errors
///
/// What is wrong first, in the order of the tests, and `NoMemory`.
#[tactic(auto, using(ofn_expressions::proofs::Cited::growing))]
pub(crate) fn read_operands(
    alloc: Global,
    kind: AxiomKind,
    items: &[Tree<'_>],
    prefixes: &Prefixes,
    state: &mut Reading,
) -> Result<Axiom, Refusal>
    requires { axiom_fits kind (length items.now) ≡ true }
    ensures tests { Tested result state.old (operand_tests prefixes.now kind (items_of items.now)) state.new }
    ensures grown { Grows state.old state.new }
    ensures value { IfOk result (ItemsSay prefixes.now state.new.counts kind items.now) }
{
    match kind {
        AxiomKind::SubClassOf => read_sub_class(alloc, &items[0], &items[1], prefixes, state),
        AxiomKind::EquivalentClasses => read_equivalent_classes(alloc, items, prefixes, state),
        AxiomKind::DisjointClasses => read_disjoint_classes(alloc, items, prefixes, state),
        AxiomKind::DisjointUnion => {
            read_disjoint_union(alloc, &items[0], items.split_at(1).1, prefixes, state)
        }
        AxiomKind::SubRole => read_sub_role(alloc, &items[0], &items[1], prefixes, state),
        AxiomKind::EquivalentRoles => read_equivalent_roles(alloc, items, prefixes, state),
        AxiomKind::Domain => read_domain(alloc, &items[0], &items[1], prefixes, state),
        AxiomKind::Range => read_range(alloc, &items[0], &items[1], prefixes, state),
        AxiomKind::Functional => read_functional(alloc, &items[0], prefixes, state),
        AxiomKind::Transitive => read_transitive(alloc, &items[0], prefixes, state),
        AxiomKind::Member => read_member_axiom(alloc, &items[0], &items[1], prefixes, state),
        AxiomKind::Pair => {
            read_pair_axiom(alloc, &items[0], &items[1], &items[2], prefixes, state)
        }
        AxiomKind::SameAll => read_same(alloc, items, prefixes, state),
        AxiomKind::Different => read_different(alloc, items, prefixes, state),
    }
}
