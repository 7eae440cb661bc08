// The facts of assertions, each by its place.
ghost use Rattle.std.specs.Prelude.{◌≡◌, IsTrue, IfSome, option_map};
ghost use Rattle.shq_nnf.specs.Parts.{axiom_has_counts_within};
ghost use Rattle.shq_nnf.specs.Facts.{nth_fact, fact_at, same_facts, apart_facts};
ghost use Rattle.calculus_specs.specs.Reading.{read_fact};
ghost use Rattle.refutation_rules.specs.Assertions.{form_behind, HasCountsWithin, same_pair, apart_pair};

use calculus_specs::Fact;
use shq_terms::{Axiom, Concept};

// The fact at a place, from 1, of an axiom whose cardinalities are at most 100. `None` where the axiom is no assertion
// or has no such fact.
#[tactic(auto, using(crate::proofs::FactPlaces::no_other))]
pub(crate) fn fact_at(axiom: &Axiom, place: u32) -> Option<Fact<&Concept>>
    requires { IsTrue (axiom_has_counts_within 100 «axiom».now) }
    ensures fact { option_map (read_fact form_behind) result ≡ fact_at «axiom».now place }
    ensures counts { IfSome result HasCountsWithin }
{
    match axiom {
        Axiom::Member(class, individual) => {
            if place == 1 {
                Some(Fact::Has(*individual, class))
            } else {
                None
            }
        }
        Axiom::Pair(role, from, to) => {
            if place == 1 {
                Some(Fact::Edge(*role, *from, *to))
            } else {
                None
            }
        }
        Axiom::SameAll(individuals) => {
            neighbours_at(individuals.items(), place).map(|pair| Fact::Same(pair.0, pair.1))
        }
        Axiom::Different(individuals) => {
            pair_at(individuals.items(), place).map(|pair| Fact::Apart(pair.0, pair.1))
        }
        Axiom::SubClassOf(_, _) | Axiom::EquivalentClasses(_) => None,
        Axiom::DisjointClasses(_) | Axiom::DisjointUnion(_, _) => None,
        Axiom::SubRole(_, _) | Axiom::EquivalentRoles(_) | Axiom::Transitive(_) => None,
        Axiom::Domain(_, _) | Axiom::Range(_, _) | Axiom::Functional(_) => None,
    }
}

// The individual at a place, from 1, and the one after it.
fn neighbours_at(individuals: &[u32], place: u32) -> Option<(u32, u32)>
    ensures { option_map same_pair result ≡ nth_fact (same_facts individuals.now) place }
{
    let place = place as usize;
    if place == 0 {
        return None;
    }
    if place >= individuals.len() {
        return None;
    }
    Some((individuals[place - 1], individuals[place]))
}

// The two individuals at a place, from 1, where each is paired with those after it.
fn pair_at(individuals: &[u32], place: u32) -> Option<(u32, u32)>
    ensures { option_map apart_pair result ≡ nth_fact (apart_facts individuals.now) place }
{
    if place == 0 {
        return None;
    }
    let mut rest = place as usize - 1;
    for first in 0..individuals.len() {
        let later = individuals.len() - first - 1;
        if rest < later {
            return Some((individuals[first], individuals[first + 1 + rest]));
        }
        rest -= later;
    }
    None
}
