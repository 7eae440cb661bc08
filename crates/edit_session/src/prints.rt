// The prints of queries.
ghost use Rattle.std.specs.Prelude.{◌≡◌};
ghost use Rattle.shq_terms.specs.Concept.{parts_of};
ghost use Rattle.edit_session.specs.Prints.{mixed, with_concept, with_parts, with_on, query_print};

use shq_oracle::KeptQuery;
use shq_terms::{Concept, Node, On, Query};

// How many prints there are: a prime number, so that sums of multiples spread.
const PRINTS: u64 = 4093;

/// The print of a query, which an equal query has too.
pub(crate) fn query_print(query: &Query) -> u32
    ensures { result ≡ query_print query.now }
{
    print_of(&query.sub, &query.sup, query.on)
}

/// The print of a query that an entry keeps.
pub(crate) fn kept_print(query: &KeptQuery) -> u32
    ensures { result ≡ query_print query.now }
{
    print_of(query.sub(), query.sup(), query.on())
}

// The print of the query of these parts.
fn print_of(sub: &Concept, sup: &Concept, on: On) -> u32
    ensures { result ≡ with_on (with_concept (with_concept 0 sub.now) sup.now) on }
{
    let first = with_concept(0, sub);
    let both = with_concept(first, sup);
    with_on(both, on)
}

// The print with one number more.
#[tactic(auto, unfolding(crate::specs::Prints::mixed))]
fn mixed(print: u32, number: u32) -> u32
    ensures { result ≡ mixed print number }
{
    let all = u64::from(print) * 31 + u64::from(number);
    (all % PRINTS) as u32
}

#[cycle(print)]
fn with_concept(print: u32, concept: &Concept) -> u32
    ensures { result ≡ with_concept print concept.now }
{
    match &concept.node {
        Node::Top => mixed(print, 1),
        Node::Bottom => mixed(print, 2),
        Node::Name(class) => mixed(mixed(print, 3), *class),
        Node::Not(inner) => with_concept(mixed(print, 4), inner),
        Node::And(parts) => with_parts(print, 5, parts),
        Node::Or(parts) => with_parts(print, 6, parts),
        Node::SomeOf(role, filler) => with_concept(mixed(mixed(print, 7), *role), filler),
        Node::AllOf(role, filler) => with_concept(mixed(mixed(print, 8), *role), filler),
        Node::Min(count, role, filler) => {
            with_concept(mixed(mixed(mixed(print, 9), *count), *role), filler)
        }
        Node::Max(count, role, filler) => {
            with_concept(mixed(mixed(mixed(print, 10), *count), *role), filler)
        }
        Node::Exact(count, role, filler) => {
            with_concept(mixed(mixed(mixed(print, 11), *count), *role), filler)
        }
    }
}

// The print with a kind of class expressions and its parts.
#[cycle(print)]
fn with_parts(print: u32, kind: u32, concepts: &[Concept]) -> u32
    ensures { result ≡ with_parts (mixed print kind) (parts_of concepts.now) }
{
    let mut all = mixed(print, kind);
    for concept in concepts {
        all = with_concept(all, concept);
    }
    mixed(all, 12)
}

fn with_on(print: u32, on: On) -> u32
    ensures { result ≡ with_on print on }
{
    match on {
        On::Any => mixed(print, 1),
        On::Individual(individual) => mixed(mixed(print, 2), individual),
    }
}
