// Equality of class expressions and of queries.
ghost use Rattle.std.specs.Prelude.{◌≡◌, ◌↔◌, IsTrue};

use crate::{Concept, Node, On, Query};

impl Concept {
    /// Whether the other is the same tree, with the same kinds, numbers and parts in the same order. Takes no memory.
    #[cycle(same)]
    #[tactic(auto, using(crate::proofs::Parts::same_in_intersection, crate::proofs::Parts::same_in_union))]
    pub fn is_same(&self, other: &Concept) -> bool
        ensures { IsTrue result ↔ (self.now ≡ other.now) }
    {
        match (&self.node, &other.node) {
            (Node::Top, Node::Top) => true,
            (Node::Bottom, Node::Bottom) => true,
            (Node::Name(class), Node::Name(other_class)) => class == other_class,
            (Node::Not(inner), Node::Not(other_inner)) => inner.is_same(other_inner),
            (Node::And(parts), Node::And(others)) => are_same(parts, others),
            (Node::Or(parts), Node::Or(others)) => are_same(parts, others),
            (Node::SomeOf(role, filler), Node::SomeOf(other_role, other_filler)) => {
                role == other_role && filler.is_same(other_filler)
            }
            (Node::AllOf(role, filler), Node::AllOf(other_role, other_filler)) => {
                role == other_role && filler.is_same(other_filler)
            }
            (Node::Min(count, role, filler), Node::Min(other_count, other_role, other_filler)) => {
                count == other_count && role == other_role && filler.is_same(other_filler)
            }
            (Node::Max(count, role, filler), Node::Max(other_count, other_role, other_filler)) => {
                count == other_count && role == other_role && filler.is_same(other_filler)
            }
            (
                Node::Exact(count, role, filler),
                Node::Exact(other_count, other_role, other_filler),
            ) => { count == other_count && role == other_role && filler.is_same(other_filler) }
            (
                Node::Top
                | Node::Bottom
                | Node::Name(_)
                | Node::Not(_)
                | Node::And(_)
                | Node::Or(_)
                | Node::SomeOf(_, _)
                | Node::AllOf(_, _)
                | Node::Min(_, _, _)
                | Node::Max(_, _, _)
                | Node::Exact(_, _, _),
                _,
            ) => false,
        }
    }
}

#[cycle(same)]
fn are_same(concepts: &[Concept], others: &[Concept]) -> bool
    ensures { IsTrue result ↔ (concepts.now ≡ others.now) }
{
    if concepts.len() != others.len() {
        return false;
    }
    for (concept, other) in concepts.iter().zip(others) {
        if !concept.is_same(other) {
            return false;
        }
    }
    true
}

impl On {
    /// Whether the other is of the same individual, or both are of each element.
    pub fn is_same(self, other: On) -> bool
        ensures { IsTrue result ↔ (self ≡ other) }
    {
        match (self, other) {
            (On::Any, On::Any) => true,
            (On::Individual(individual), On::Individual(other_individual)) => {
                individual == other_individual
            }
            (On::Any, On::Individual(_)) | (On::Individual(_), On::Any) => false,
        }
    }
}

impl Query {
    /// Whether the other asks of the same elements, and of the same trees, whether they are in the one and not in the
    /// other. Takes no memory.
    pub fn is_same(&self, other: &Query) -> bool
        ensures { IsTrue result ↔ (self.now ≡ other.now) }
    {
        self.sub.is_same(&other.sub) && self.sup.is_same(&other.sup) && self.on.is_same(other.on)
    }
}
