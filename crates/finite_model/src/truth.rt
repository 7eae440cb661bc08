// Truth at an element, and the elements at which an expression may be true.
ghost use Rattle.std.specs.Prelude.{◌≡◌, ◌<◌, ◌||◌, nat_eq};
ghost use Rattle.shq_terms.specs.Concept.{parts_of};
ghost use Rattle.shq_meaning.specs.Truth.{holds, hold_all, hold_any, successors, each_successor, is_asked_at};
ghost use Rattle.shq_meaning.specs.Truth.{refutes_at};
ghost use Rattle.shq_meaning.specs.Least.{IsFirstBelow};
ghost use Rattle.finite_model.specs.AtElement.{can_refute};
ghost use Rattle.finite_model.specs.ModelLists.{meaning, begins};
ghost use Rattle.finite_model.specs.Next.{IsNext, least};

use crate::Interp;
use shq_terms::{Concept, Node, On, Query};

impl Interp {
    /// Whether the element is in the class expression (OWL 2 Direct Semantics, section 2.2.3). The element is below the
    /// size.
    #[cycle(truth)]
    pub fn holds(&self, concept: &Concept, x: u32) -> bool
        requires { x < self.now.size }
        ensures { result ≡ holds (meaning self.now) concept.now x }
    {
        match &concept.node {
            Node::Top => true,
            Node::Bottom => false,
            Node::Name(class) => self.in_class(*class, x),
            Node::Not(inner) => !self.holds(inner, x),
            Node::And(parts) => self.all_hold(parts, x),
            Node::Or(parts) => self.any_holds(parts, x),
            Node::SomeOf(role, filler) => self.successors(*role, filler, x) >= 1,
            Node::AllOf(role, filler) => self.each_successor(*role, filler, x),
            Node::Min(count, role, filler) => self.successors(*role, filler, x) >= *count,
            Node::Max(count, role, filler) => self.successors(*role, filler, x) <= *count,
            Node::Exact(count, role, filler) => self.successors(*role, filler, x) == *count,
        }
    }

    #[cycle(truth)]
    pub(crate) fn all_hold(&self, parts: &[Concept], x: u32) -> bool
        requires { x < self.now.size }
        ensures { result ≡ hold_all (meaning self.now) (parts_of parts.now) x }
    {
        for part in parts {
            if !self.holds(part, x) {
                return false;
            }
        }
        true
    }

    #[cycle(truth)]
    pub(crate) fn any_holds(&self, parts: &[Concept], x: u32) -> bool
        requires { x < self.now.size }
        ensures { result ≡ hold_any (meaning self.now) (parts_of parts.now) x }
    {
        for part in parts {
            if self.holds(part, x) {
                return true;
            }
        }
        false
    }

    /// How many successors in the role are in the filler.
    #[cycle(truth)]
    fn successors(&self, role: u32, filler: &Concept, x: u32) -> u32
        ensures { result ≡ successors (meaning self.now) role (holds (meaning self.now) filler.now) x }
    {
        let mut count = 0;
        let mut from = 0;
        while let Some(y) = self.next_successor(role, x, from) {
            from = self.after(y);
            count += self.holds(filler, y) as u32;
        }
        count
    }

    /// Whether each successor in the role is in the filler.
    #[cycle(truth)]
    pub(crate) fn each_successor(&self, role: u32, filler: &Concept, x: u32) -> bool
        ensures { result ≡ each_successor (meaning self.now) role (holds (meaning self.now) filler.now) x }
    {
        let mut from = 0;
        while let Some(y) = self.next_successor(role, x, from) {
            if !self.holds(filler, y) {
                return false;
            }
            from = self.after(y);
        }
        true
    }

    /// The next element at which the expression may be true. It is false at each that is passed over: outside the class
    /// of a name, and without a successor where the expression wants one. A conjunction passes over what any of its
    /// parts does, a disjunction what all do.
    #[cycle(candidates)]
    pub(crate) fn next_candidate(&self, concept: &Concept, from: u32) -> Option<u32>
        ensures { IsNext self.now.size from (holds (meaning self.now) concept.now) result }
    {
        match &concept.node {
            Node::Bottom => None,
            Node::Name(class) => self.next_member(*class, from),
            Node::And(parts) => self.next_in_all(parts, from),
            Node::Or(parts) => self.next_in_any(parts, from),
            Node::SomeOf(role, _) => self.next_beginning(*role, from),
            Node::Min(count, role, _) => self.next_counted(*count, *role, from),
            Node::Exact(count, role, _) => self.next_counted(*count, *role, from),
            Node::Top | Node::Not(_) | Node::AllOf(_, _) | Node::Max(_, _, _) => {
                self.next_element(from)
            }
        }
    }

    // The next element with a successor in the role, where a count wants one.
    fn next_counted(&self, count: u32, role: u32, from: u32) -> Option<u32>
        ensures { IsNext self.now.size from (λ x. nat_eq count 0 || begins self.now role x) result }
    {
        if count == 0 {
            return self.next_element(from);
        }
        self.next_beginning(role, from)
    }

    #[cycle(candidates)]
    pub(crate) fn next_in_all(&self, parts: &[Concept], from: u32) -> Option<u32>
        ensures { IsNext self.now.size from (hold_all (meaning self.now) (parts_of parts.now)) result }
    {
        let mut next = self.next_element(from)?;
        for part in parts {
            next = self.next_candidate(part, next)?;
        }
        Some(next)
    }

    #[cycle(candidates)]
    pub(crate) fn next_in_any(&self, parts: &[Concept], from: u32) -> Option<u32>
        ensures { IsNext self.now.size from (hold_any (meaning self.now) (parts_of parts.now)) result }
    {
        let mut next = None;
        for part in parts {
            next = least(next, self.next_candidate(part, from));
        }
        next
    }

    // Whether the query speaks of the element.
    fn is_asked_at(&self, on: On, x: u32) -> bool
        ensures { result ≡ is_asked_at (meaning self.now) on x }
    {
        match on {
            On::Any => true,
            On::Individual(individual) => x == self.individual(individual),
        }
    }

    fn refutes_at(&self, query: &Query, x: u32) -> bool
        requires { x < self.now.size }
        ensures { result ≡ refutes_at (meaning self.now) query.now x }
    {
        self.is_asked_at(query.on, x) && self.holds(&query.sub, x) && !self.holds(&query.sup, x)
    }

    // The next element that the query speaks of, and that may be in its left side.
    fn next_asked(&self, query: &Query, from: u32) -> Option<u32>
        ensures { IsNext self.now.size from (can_refute (meaning self.now) query.now) result }
    {
        match query.on {
            On::Any => self.next_candidate(&query.sub, from),
            On::Individual(individual) => self.next_at_individual(individual, from),
        }
    }

    /// The least element that the query speaks of in its left side and outside its right side. `None` exactly where
    /// there is none.
    pub fn refutes(&self, query: &Query) -> Option<u32>
        ensures { IsFirstBelow self.now.size (refutes_at (meaning self.now) query.now) result }
    {
        let mut from = 0;
        while let Some(x) = self.next_asked(query, from) {
            if self.refutes_at(query, x) {
                return Some(x);
            }
            from = self.after(x);
        }
        None
    }
}

// The lesser of two that may be there.
pub(crate) fn least(a: Option<u32>, b: Option<u32>) -> Option<u32>
    ensures { result ≡ least a b }
{
    match (a, b) {
        (Some(x), Some(y)) => Some(if x < y { x } else { y }),
        (Some(x), None) => Some(x),
        (None, y) => y,
    }
}
