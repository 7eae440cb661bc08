// A finite interpretation: what it keeps, and how elements are found in it.
ghost use Rattle.std.specs.Prelude.{◌≡◌, ℕ, ◌<◌, ◌≤◌, ◌+◌, ◌^◌, [], true, false, cond, OnOk, OnErr, IfOk, IfSome, ◌||◌};
ghost use Rattle.std.specs.Prelude.{nat_eq, nat_le, eqb};
ghost use Rattle.std.specs.List.Sorted.{IsStrictlySortedBy};
ghost use Rattle.std.specs.Map.{keys_of};
ghost use Rattle.std.specs.Ordering.{is_gt, nat_cmp};
ghost use Rattle.shq_meaning.specs.Truth.{PlacesIndividuals};
ghost use Rattle.finite_model.specs.ModelLists.{meaning, begins, IsDomain, member_cmp, link_cmp, tuple_cmp};
ghost use Rattle.finite_model.specs.ModelLists.{with_member, with_link, with_individual, first_between};
ghost use Rattle.finite_model.specs.AtElement.{row_within, row_is_transitive};
ghost use Rattle.finite_model.specs.Next.{IsNext, within};
ghost use Rattle.finite_model.specs.Written.{elements_of, pairs_of};

use shq_terms::NoMemory;
use std::alloc::Global;
use std::collections::{BTreeMap, BTreeSet};
use std::marker::Model;

/// A finite interpretation (OWL 2 Direct Semantics, section 2.2): a domain of the numbers below a size, a set of them
/// for each class, a set of pairs of them for each role, and one of them for each individual. A class or role of which
/// nothing was put is empty, and an individual for which no element was put is the element 0.
#[derive(Drop)]
pub struct Interp {
    size: u32,
    members: BTreeSet<(u32, u32)>,
    links: BTreeSet<(u32, u32, u32)>,
    // The individuals that are another element than 0, so that what is kept tells no more than what is meant.
    individuals: BTreeMap<u32, u32>,
}

impl Model for Interp {
    ghost use Rattle.finite_model.specs.ModelLists.{ModelLists, IsDomain};

    ghost Value = { ModelLists };

    ghost view = { λ i. record {
      size = i.size;
      members = i.members.keys;
      links = i.links.keys;
      individuals = i.individuals.entries;
    } };

    ghost invariant = { λ i. IsDomain i.size i.members.keys i.links.keys i.individuals.entries };
}

impl Interp {
    ghost use Rattle.finite_model.specs.ModelLists.{ModelLists};

    /// An interpretation of that many elements, at least one, in which each class and each role is empty, and each
    /// individual is the element 0.
    pub fn new(alloc: Global, size: u32) -> Interp
        requires { 1 ≤ size }
        ensures { result ≡ record { size = size; members = []; links = []; individuals = [] } }
    {
        Interp {
            size,
            members: BTreeSet::new(alloc),
            links: BTreeSet::new(alloc),
            individuals: BTreeMap::new(alloc),
        }
    }

    /// How many elements there are. All members and pairs are of elements, and each individual is one.
    pub fn size(&self) -> u32
        ensures size { result ≡ self.now.size }
        ensures some { 1 ≤ result }
        ensures inside { IsDomain self.now.size self.now.members self.now.links self.now.individuals }
        ensures places { PlacesIndividuals (meaning self.now) }
    {
        self.size
    }

    // How many members of classes and how many pairs of roles were put, and how many individuals are another element
    // than 0. All of them are elements, and in ascending order.
    pub(crate) fn counts(&self) -> (usize, usize, usize)
        ensures domain { IsDomain self.now.size self.now.members self.now.links self.now.individuals }
        ensures small { self.now.size < 2 ^ 32 }
        ensures members { IsStrictlySortedBy member_cmp self.now.members }
        ensures links { IsStrictlySortedBy link_cmp self.now.links }
        ensures individuals { IsStrictlySortedBy nat_cmp (keys_of self.now.individuals) }
    {
        prove!(self.size >= 1);
        (self.members.len(), self.links.len(), self.individuals.len())
    }

    /// Puts the element into the class, where it stands once, or changes nothing. The element is below the size.
    pub fn put_class(&mut self, class: u32, x: u32) -> Result<(), NoMemory>
        requires { x < self.old.size }
        ensures put { OnOk result (self.new ≡ with_member class x self.old) }
        ensures unchanged { OnErr result (self.new ≡ self.old) }
    {
        self.members.insert((class, x))?;
        Ok(())
    }

    /// Puts the pair into the role, where it stands once, or changes nothing. The elements are below the size.
    pub fn put_pair(&mut self, role: u32, x: u32, y: u32) -> Result<(), NoMemory>
        requires from { x < self.old.size }
        requires to { y < self.old.size }
        ensures put { OnOk result (self.new ≡ with_link role x y self.old) }
        ensures unchanged { OnErr result (self.new ≡ self.old) }
    {
        self.links.insert((role, x, y))?;
        Ok(())
    }

    /// Makes the individual that element, whatever it was before, or changes nothing. The element is below the size.
    pub fn put_individual(&mut self, individual: u32, x: u32) -> Result<(), NoMemory>
        requires { x < self.old.size }
        ensures put { OnOk result (self.new ≡ with_individual individual x self.old) }
        ensures stands { OnOk result
            ((a : ℕ)
            → (meaning self.new).individual a ≡ cond (nat_eq a individual) x ((meaning self.old).individual a)) }
        ensures unchanged { OnErr result (self.new ≡ self.old) }
    {
        if x == 0 {
            self.individuals.remove(&individual);
        } else {
            self.individuals.insert(individual, x)?;
        }
        Ok(())
    }

    /// The element that the individual is.
    pub fn individual(&self, individual: u32) -> u32
        ensures element { result ≡ (meaning self.now).individual individual }
        ensures inside { result < self.now.size }
    {
        self.individuals.get(&individual).copied().unwrap_or(0)
    }

    /// The elements of the class, ascending.
    #[tactic(auto, using(crate::proofs::Ranges::members_between))]
    pub(crate) fn elements(&self, alloc: Global, class: u32) -> Result<Vec<u32>, NoMemory>
        requires { class < 4294967295 }
        ensures { IfOk result (λ xs. xs.items ≡ elements_of class self.now.members) }
    {
        Ok(
            self.members
                .range((class, 0)..(class + 1, 0))
                .map(|member| member.1)
                .collect(alloc)?,
        )
    }

    /// The pairs of the role, each after the role, ascending.
    #[tactic(auto, using(crate::proofs::Ranges::links_between))]
    pub(crate) fn pairs(&self, alloc: Global, role: u32) -> Result<Vec<(u32, u32, u32)>, NoMemory>
        requires { role < 4294967295 }
        ensures { IfOk result (λ ps. ps.items ≡ pairs_of role self.now.links) }
    {
        Ok(
            self.links
                .range((role, 0, 0)..(role + 1, 0, 0))
                .copied()
                .collect(alloc)?,
        )
    }

    pub(crate) fn in_class(&self, class: u32, x: u32) -> bool
        ensures { result ≡ (meaning self.now).in_class class x }
    {
        self.members.contains(&(class, x))
    }

    pub(crate) fn in_role(&self, role: u32, x: u32, y: u32) -> bool
        ensures { result ≡ (meaning self.now).in_role role x y }
    {
        self.links.contains(&(role, x, y))
    }

    /// The number after that of an element.
    pub(crate) fn after(&self, x: u32) -> u32
        requires { x < self.now.size }
        ensures { result ≡ x + 1 }
    {
        prove!(x < self.size);
        x + 1
    }

    /// The element of that number, if there are so many.
    pub(crate) fn next_element(&self, from: u32) -> Option<u32>
        ensures { result ≡ within self.now.size from }
    {
        if from < self.size { Some(from) } else { None }
    }

    // The least member between the bounds.
    fn first_member(&self, low: (u32, u32), high: (u32, u32)) -> Option<(u32, u32)>
        requires { is_gt (member_cmp low high) ≡ false }
        ensures first { result ≡ first_between member_cmp low high self.now.members }
        ensures ordered { IsStrictlySortedBy member_cmp self.now.members }
        ensures small { self.now.size < 2 ^ 32 }
    {
        prove!(self.size >= 1);
        let mut members = self.members.range(low..=high);
        members.next().copied()
    }

    // The least pair between the bounds, with its role.
    fn first_link(&self, low: (u32, u32, u32), high: (u32, u32, u32)) -> Option<(u32, u32, u32)>
        requires { is_gt (tuple_cmp low high) ≡ false }
        ensures first { result ≡ first_between tuple_cmp low high self.now.links }
        ensures ordered { IsStrictlySortedBy tuple_cmp self.now.links }
        ensures small { self.now.size < 2 ^ 32 }
    {
        prove!(self.size >= 1);
        let mut links = self.links.range(low..=high);
        links.next().copied()
    }

    /// The element that the individual is, unless it comes before.
    pub(crate) fn next_at_individual(&self, individual: u32, from: u32) -> Option<u32>
        ensures { IsNext self.now.size from (λ x. eqb x ((meaning self.now).individual individual)) result }
    {
        let x = self.individual(individual);
        if from <= x { Some(x) } else { None }
    }

    /// The next element of the class.
    pub(crate) fn next_member(&self, class: u32, from: u32) -> Option<u32>
        ensures { IsNext self.now.size from ((meaning self.now).in_class class) result }
    {
        let member = self.first_member((class, from), (class, u32::MAX))?;
        self.next_element(member.1)
    }

    /// The next successor of the element in the role.
    pub(crate) fn next_successor(&self, role: u32, x: u32, from: u32) -> Option<u32>
        ensures next { IsNext self.now.size from ((meaning self.now).in_role role x) result }
        ensures successor { IfSome result (λ y. (meaning self.now).in_role role x y ≡ true) }
    {
        let link = self.first_link((role, x, from), (role, x, u32::MAX))?;
        self.next_element(link.2)
    }

    /// The next element with which a pair of the role begins.
    pub(crate) fn next_beginning(&self, role: u32, from: u32) -> Option<u32>
        ensures { IsNext self.now.size from (begins self.now role) result }
    {
        let link = self.first_link((role, from, 0), (role, u32::MAX, u32::MAX))?;
        self.next_element(link.1)
    }

    // Whether the element is outside the domain, or the pair is in the role.
    fn is_pair_unless_outside(&self, role: u32, x: u32, y: u32) -> bool
        ensures { result ≡ (nat_le self.now.size y || (meaning self.now).in_role role x y) }
    {
        y >= self.size || self.in_role(role, x, y)
    }

    /// Whether each successor of y in the role is one of x in the other role.
    pub(crate) fn row_within(&self, role: u32, y: u32, other: u32, x: u32) -> bool
        requires { y < self.now.size }
        ensures { result ≡ row_within (meaning self.now) role y other x }
    {
        prove!(y < self.size);
        self.links
            .range((role, y, 0)..(role, y + 1, 0))
            .all(|link| self.is_pair_unless_outside(other, x, link.2))
    }

    // Whether the element y is outside the domain, or x has the successors of y.
    fn hands_on_unless_outside(&self, role: u32, x: u32, y: u32) -> bool
        ensures { result ≡ (nat_le self.now.size y || row_within (meaning self.now) role y role x) }
    {
        y >= self.size || self.row_within(role, y, role, x)
    }

    pub(crate) fn row_is_transitive(&self, role: u32, x: u32) -> bool
        requires { x < self.now.size }
        ensures { result ≡ row_is_transitive (meaning self.now) role x }
    {
        prove!(x < self.size);
        self.links
            .range((role, x, 0)..(role, x + 1, 0))
            .all(|link| self.hands_on_unless_outside(role, x, link.2))
    }
}
