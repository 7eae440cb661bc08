// Whether an interpretation meets axioms.
ghost use Rattle.std.specs.Prelude.{◌≡◌, ◌<◌, eqb};
ghost use Rattle.std.specs.List.{list_all};
ghost use Rattle.shq_meaning.specs.Truth.{all_same, none_twice, out_degree, are_same, differs_from_all, are_different};
ghost use Rattle.shq_meaning.specs.Truth.{meets};
ghost use Rattle.shq_meaning.specs.Below.{all_below};
ghost use Rattle.finite_model.specs.AtElement.{met_at, assertion_is_met, is_split, in_whole_or_part, rows_equal};
ghost use Rattle.finite_model.specs.AtElement.{can_break, begins_any};
ghost use Rattle.finite_model.specs.ModelLists.{meaning};
ghost use Rattle.finite_model.specs.Next.{IsNext};

use crate::Interp;
use crate::truth::least;
use shq_terms::{Axiom, Concept};

impl Interp {
    /// Whether the interpretation meets the axiom (OWL 2 Direct Semantics, section 2.3). An axiom that is no assertion
    /// says the same of each element by itself, so elements that can break none are passed over. No memory is taken.
    #[tactic(auto, using(crate::proofs::AtElement::met_at_each))]
    pub fn meets(&self, axiom: &Axiom) -> bool
        ensures { result ≡ meets (meaning self.now) «axiom».now }
    {
        self.assertion_is_met(axiom) && self.meets_at_each(axiom)
    }

    // Whether the axiom is met, if it is an assertion.
    fn assertion_is_met(&self, axiom: &Axiom) -> bool
        ensures { result ≡ assertion_is_met (meaning self.now) «axiom».now }
    {
        match axiom {
            Axiom::Member(class, individual) => self.holds(class, self.individual(*individual)),
            Axiom::Pair(role, from, to) => {
                self.in_role(*role, self.individual(*from), self.individual(*to))
            }
            Axiom::SameAll(individuals) => self.are_same(individuals.items()),
            Axiom::Different(individuals) => self.are_different(individuals.items()),
            Axiom::SubClassOf(_, _)
            | Axiom::EquivalentClasses(_)
            | Axiom::DisjointClasses(_)
            | Axiom::DisjointUnion(_, _)
            | Axiom::SubRole(_, _)
            | Axiom::EquivalentRoles(_)
            | Axiom::Domain(_, _)
            | Axiom::Range(_, _)
            | Axiom::Functional(_)
            | Axiom::Transitive(_) => true,
        }
    }

    fn are_same(&self, individuals: &[u32]) -> bool
        ensures { result ≡ are_same (meaning self.now) individuals.now }
    {
        let Some(first) = individuals.first() else {
            return true;
        };
        self.are_all(individuals, self.individual(*first))
    }

    // Whether each of the individuals is the element.
    fn are_all(&self, individuals: &[u32], x: u32) -> bool
        ensures { result ≡ list_all (λ a. eqb ((meaning self.now).individual a) x) individuals.now }
    {
        individuals.iter().all(|other| self.individual(*other) == x)
    }

    // Whether each two of the individuals are different elements. Each two are a fact of the axiom, and facts count as
    // parts: an ontology within the limits has at most 500,000 of them, and so many comparisons are made at most.
    fn are_different(&self, individuals: &[u32]) -> bool
        ensures { result ≡ are_different (meaning self.now) individuals.now }
    {
        for (index, individual) in individuals.iter().enumerate() {
            if !self.differs_from_all(*individual, &individuals[index + 1..]) {
                return false;
            }
        }
        true
    }

    fn differs_from_all(&self, individual: u32, others: &[u32]) -> bool
        ensures { result ≡ differs_from_all (meaning self.now) individual others.now }
    {
        let x = self.individual(individual);
        others.iter().all(|other| x != self.individual(*other))
    }

    fn meets_at_each(&self, axiom: &Axiom) -> bool
        ensures { result ≡ all_below self.now.size (met_at (meaning self.now) «axiom».now) }
    {
        let mut from = 0;
        while let Some(x) = self.next_that_can_break(axiom, from) {
            if !self.meets_at(axiom, x) {
                return false;
            }
            from = self.after(x);
        }
        true
    }

    // The next element that is in a class, or begins a pair of a role, without which the axiom says nothing of it.
    fn next_that_can_break(&self, axiom: &Axiom, from: u32) -> Option<u32>
        ensures { IsNext self.now.size from (can_break self.now «axiom».now) result }
    {
        match axiom {
            Axiom::SubClassOf(sub, _) => self.next_candidate(sub, from),
            Axiom::EquivalentClasses(parts) => self.next_in_any(parts.items(), from),
            Axiom::DisjointClasses(parts) => self.next_in_any(parts.items(), from),
            Axiom::DisjointUnion(whole, parts) => self.next_in_either(whole, parts.items(), from),
            Axiom::EquivalentRoles(roles) => self.next_beginning_of_any(roles.items(), from),
            Axiom::SubRole(role, _) => self.next_beginning(*role, from),
            Axiom::Domain(role, _) => self.next_beginning(*role, from),
            Axiom::Range(role, _) => self.next_beginning(*role, from),
            Axiom::Functional(role) => self.next_beginning(*role, from),
            Axiom::Transitive(role) => self.next_beginning(*role, from),
            Axiom::Member(_, _) | Axiom::Pair(_, _, _) | Axiom::SameAll(_) | Axiom::Different(_) =>
                None,
        }
    }

    fn next_in_either(&self, whole: &Concept, parts: &[Concept], from: u32) -> Option<u32>
        ensures { IsNext self.now.size from (in_whole_or_part (meaning self.now) whole.now parts.now) result }
    {
        least(
            self.next_candidate(whole, from),
            self.next_in_any(parts, from),
        )
    }

    fn next_beginning_of_any(&self, roles: &[u32], from: u32) -> Option<u32>
        ensures { IsNext self.now.size from (begins_any self.now roles.now) result }
    {
        let mut next = None;
        for role in roles {
            next = least(next, self.next_beginning(*role, from));
        }
        next
    }

    fn meets_at(&self, axiom: &Axiom, x: u32) -> bool
        requires { x < self.now.size }
        ensures { result ≡ met_at (meaning self.now) «axiom».now x }
    {
        match axiom {
            Axiom::SubClassOf(sub, sup) => !self.holds(sub, x) || self.holds(sup, x),
            Axiom::EquivalentClasses(parts) => self.all_same(parts.items(), x),
            Axiom::DisjointClasses(parts) => self.none_twice(parts.items(), x),
            Axiom::DisjointUnion(whole, parts) => self.is_split(whole, parts.items(), x),
            Axiom::SubRole(role, other) => self.row_within(*role, x, *other, x),
            Axiom::EquivalentRoles(roles) => self.rows_equal(roles.items(), x),
            Axiom::Domain(role, class) => self.out_degree(*role, x) < 1 || self.holds(class, x),
            Axiom::Range(role, class) => self.each_successor(*role, class, x),
            Axiom::Functional(role) => self.out_degree(*role, x) <= 1,
            Axiom::Transitive(role) => self.row_is_transitive(*role, x),
            Axiom::Member(_, _) | Axiom::Pair(_, _, _) | Axiom::SameAll(_) | Axiom::Different(_) =>
                true,
        }
    }

    fn all_same(&self, parts: &[Concept], x: u32) -> bool
        requires { x < self.now.size }
        ensures { result ≡ all_same (meaning self.now) parts.now x }
    {
        !self.any_holds(parts, x) || self.all_hold(parts, x)
    }

    fn none_twice(&self, parts: &[Concept], x: u32) -> bool
        requires { x < self.now.size }
        ensures { result ≡ none_twice (meaning self.now) parts.now x }
    {
        parts.iter().filter(|part| self.holds(part, x)).count() <= 1
    }

    fn is_split(&self, whole: &Concept, parts: &[Concept], x: u32) -> bool
        requires { x < self.now.size }
        ensures { result ≡ is_split (meaning self.now) whole.now parts.now x }
    {
        self.holds(whole, x) == self.any_holds(parts, x) && self.none_twice(parts, x)
    }

    fn rows_equal(&self, roles: &[u32], x: u32) -> bool
        requires { x < self.now.size }
        ensures { result ≡ rows_equal (meaning self.now) roles.now x }
    {
        let Some(first) = roles.first() else {
            return true;
        };
        roles.iter().all(|other| {
            self.row_within(*first, x, *other, x) && self.row_within(*other, x, *first, x)
        })
    }

    fn out_degree(&self, role: u32, x: u32) -> u32
        ensures { result ≡ out_degree (meaning self.now) role x }
    {
        let mut count = 0;
        let mut from = 0;
        while let Some(y) = self.next_successor(role, x, from) {
            from = self.after(y);
            count += 1;
        }
        count
    }
}
