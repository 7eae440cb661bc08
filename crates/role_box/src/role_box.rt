// The role box: tests of roles, over the table of the roles above each role.
ghost use Rattle.std.specs.Prelude.{◌≡◌, ℕ, ◌≤◌, ◌==◌, ◌↔◌, IsTrue, IfOk, length};
ghost use Rattle.std.specs.List.{All};
ghost use Rattle.std.specs.List.Sorted.{IsStrictlyIncreasing};
ghost use Rattle.std.specs.Iterator.{YieldsFirst, item_count};
ghost use Rattle.calculus_specs.specs.Roles.{IsBelow, IsSimple};
ghost use Rattle.role_box.specs.RoleAxioms.{role_axioms};
ghost use Rattle.role_box.specs.Steps.{Leads, is_transitive, IsTransitive};
ghost use Rattle.role_box.specs.Paths.{is_below};
ghost use Rattle.role_box.specs.Closure.{is_between, AreBetween};

use crate::closure::{RoleSet, closed_rows, joined_rows, transitive_roles};
use crate::role_axiom::collect_role_axioms;
use crate::{NoMemory, RoleAxiom};
use lane_sieve::has_number;
use shq_terms::Ontology;
use std::alloc::Global;
use std::marker::Model;

/// Tests of roles by a list of role axioms, as which contracts see it.
#[derive(Drop)]
pub struct RoleBox {
    axioms: Vec<RoleAxiom>,
    rows: Vec<RoleSet>,
    transitive: RoleSet,
    complex: RoleSet,
}

impl Model for RoleBox {
    ghost use Rattle.std.specs.Prelude.{List};
    ghost use Rattle.role_box.specs.declared.role_axiom.RoleAxiom.{RoleAxiom};
    ghost use Rattle.role_box.specs.Closure.{IsClosed};

    ghost Value = { List RoleAxiom };

    ghost view = { λ b. b.axioms.items };

    ghost invariant = { λ b. IsClosed b.axioms.items b.rows.items b.transitive b.complex };
}

impl RoleBox {
    /// The tests by the role axioms among the axioms of these numbers, which count from 1. Axioms of other kinds are
    /// passed over.
    ///
    /// # Errors
    ///
    /// `NoMemory` where the allocator refuses room for the axioms or their table.
    pub fn build(alloc: Global, ontology: &Ontology, only: &[u32]) -> Result<RoleBox, NoMemory>
        requires { All (λ k. (1 ≤ k) × (k ≤ length ontology.now.axioms)) only.now }
        ensures { IfOk result (λ roles. roles ≡ role_axioms ontology.now.axioms only.now) }
    {
        let axioms = collect_role_axioms(alloc, ontology, only)?;
        let rows = closed_rows(alloc, ontology.role_count(), &axioms)?;
        let transitive = transitive_roles(&axioms);
        let complex = joined_rows(&rows, &transitive);
        Ok(RoleBox {
            axioms,
            rows,
            transitive,
            complex,
        })
    }

    /// Whether a chain of inclusions and equivalences leads from one role to another, or they are the same.
    pub fn below(&self, lower: u32, upper: u32) -> bool
        ensures chain { IsTrue result ↔ IsBelow (Leads self.now) lower upper }
        ensures test { result ≡ is_below self.now lower upper }
    {
        match self.rows.get(lower as usize) {
            Some(row) => has_number(row, upper),
            None => lower == upper,
        }
    }

    /// Whether no transitive role is below the role.
    pub fn simple(&self, role: u32) -> bool
        ensures { IsTrue result ↔ IsSimple (Leads self.now) (IsTransitive self.now) role }
    {
        !has_number(&self.complex, role)
    }

    /// A bound, at most 1,000, of the roles that the tests tell apart: from it on each role is below itself alone.
    pub fn role_bound(&self) -> u32
        ensures outside { (r s : ℕ) → result ≤ r → is_below self.now r s ≡ (r == s) }
        ensures small { result ≤ 1000 }
    {
        self.rows.len() as u32
    }

    /// Whether an axiom makes the role transitive.
    pub fn is_transitive(&self, role: u32) -> bool
        ensures { result ≡ is_transitive self.now role }
    {
        has_number(&self.transitive, role)
    }

    /// Whether the role is transitive, above the one role and below the other.
    fn is_between(&self, role: u32, lower: u32, upper: u32) -> bool
        ensures { result ≡ is_between self.now lower upper role }
    {
        self.is_transitive(role) && self.below(lower, role) && self.below(role, upper)
    }

    /// The transitive roles above the one role and below the other, these two included, in ascending order.
    pub fn transitive_between(&self, lower: u32, upper: u32) -> Between<'_>
        ensures members { AreBetween self.now lower upper result }
        ensures ascending { IsStrictlyIncreasing result }
    {
        Between {
            roles: self,
            lower,
            upper,
            next: 0,
            end: self.rows.len() as u32,
        }
    }
}

/// The transitive roles between two roles that are still to come.
#[derive(Drop)]
pub struct Between<'a> {
    roles: &'a RoleBox,
    lower: u32,
    upper: u32,
    next: u32,
    end: u32,
}

impl<'a> Model for Between<'a> {
    ghost use Rattle.std.specs.Prelude.{List, ℕ, ◌≤◌};
    ghost use Rattle.role_box.specs.Closure.{between_from};

    ghost Value = { List ℕ };

    ghost view = { λ b. between_from b.roles.now b.lower b.upper b.next b.end };

    ghost invariant = { λ b. b.end ≤ 1000 };
}

impl<'a> Iterator for Between<'a> {
    type Item = u32;

    ghost next_gives = { YieldsFirst (λ s. s) };

    ghost remaining = { item_count (λ s. s) };

    fn next(&mut self) -> Option<u32> {
        while self.next < self.end {
            let role = self.next;
            self.next += 1;
            if self.roles.is_between(role, self.lower, self.upper) {
                return Some(role);
            }
        }
        None
    }
}
