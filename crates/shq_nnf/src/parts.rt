// The parts of axioms, in numbers of a table.
ghost use Rattle.std.specs.Prelude.{◌≡◌, ◌+◌, ◌-◌, ◌<◌, ◌≤◌, IsTrue, IfOk, OnErr, length, slice_index_or};
ghost use Rattle.shq_meaning.specs.Concept.{parts_of, some_of, at_most, top};
ghost use Rattle.calculus_specs.specs.Rows.{conjuncts_in, inclusion_of, range_of};
ghost use Rattle.calculus_specs.specs.Tree.{tree_of};
ghost use Rattle.shq_nnf.specs.Counts.{has_counts_within, have_counts_within};
ghost use Rattle.shq_nnf.specs.Numbers.{Extends, IsNumber, AreNumbers};
ghost use Rattle.shq_nnf.specs.Parts.{StandsForPart, covering, signed_inclusion, inclusion_at, disjoint_pair};
ghost use Rattle.shq_nnf.specs.Parts.{disjoint_parts, equivalent_parts, union_parts, part_in, axiom_parts};
ghost use Rattle.shq_nnf.specs.Parts.{axiom_has_counts_within};

use crate::shapes::Shape;
use crate::{Concepts, NoMemory};
use shq_meaning::{Axiom, Concept, NumberList};
use std::alloc::Global;

/// What an axiom says of one element, in numbers of a table.
#[derive(Drop)]
pub enum Part {
    /// What is in all of these is in the last.
    Inclusion(NumberList, u32),
    /// What is at the end of an edge of the role is in the class.
    Range(u32, u32),
}

impl Concepts {
    /// A part of an axiom whose cardinalities are at most 100. Parts are numbered from 1.
    ///
    /// # Errors
    ///
    /// Out of memory.
    pub fn part(&mut self, axiom: &Axiom, part: u32) -> Result<Part, NoMemory>
        requires first { 1 ≤ part }
        requires last { part ≤ length (axiom_parts «axiom».now) }
        requires counts { IsTrue (axiom_has_counts_within 100 «axiom».now) }
        ensures part { IfOk result (λ p. StandsForPart self.new p (part_in (axiom_parts «axiom».now) (part - 1))) }
        ensures kept { Extends self.old self.new }
        ensures unchanged { OnErr result (self.new ≡ self.old) }
    {
        let len = self.len();
        let outcome = self.part_at(axiom, part - 1);
        self.settled(len, outcome)
    }

    fn part_at(&mut self, axiom: &Axiom, place: u32) -> Result<Part, NoMemory>
        requires listed { place < length (axiom_parts «axiom».now) }
        requires counts { IsTrue (axiom_has_counts_within 100 «axiom».now) }
        ensures part { IfOk result (λ p. StandsForPart self.new p (part_in (axiom_parts «axiom».now) place)) }
        ensures kept { Extends self.old self.new }
    {
        match axiom {
            Axiom::SubClassOf(sub, sup) => self.inclusion_part(sub, sup, false),
            Axiom::EquivalentClasses(classes) => self.equivalent_part(classes.items(), place),
            Axiom::DisjointClasses(classes) => self.disjoint_part(classes.items(), place),
            Axiom::DisjointUnion(class, classes) => self.union_part(class, classes.items(), place),
            Axiom::Domain(role, class) => self.domain_part(*role, class),
            Axiom::Range(role, class) => self.range_part(*role, class),
            Axiom::Functional(role) => self.functional_part(*role),
            Axiom::SubRole(_, _) => unreachable!(),
            Axiom::EquivalentRoles(_) => unreachable!(),
            Axiom::Transitive(_) => unreachable!(),
            Axiom::Member(_, _) => unreachable!(),
            Axiom::Pair(_, _, _) => unreachable!(),
            Axiom::SameAll(_) => unreachable!(),
            Axiom::Different(_) => unreachable!(),
        }
    }

    // Of classes of which each is in the next, and the last in the first.
    fn equivalent_part(&mut self, classes: &[Concept], place: u32) -> Result<Part, NoMemory>
        requires listed { place < length classes.now }
        requires counts { IsTrue (have_counts_within 100 (parts_of classes.now)) }
        ensures part { IfOk result (λ p. StandsForPart self.new p (part_in (equivalent_parts classes.now) place)) }
        ensures kept { Extends self.old self.new }
    {
        let place = place as usize;
        let next = next_place(place, classes.len());
        let part = self.inclusion_part(&classes[place], &classes[next], false)?;
        Ok(part)
    }

    // Of classes of which no two have a common element.
    fn disjoint_part(&mut self, classes: &[Concept], place: u32) -> Result<Part, NoMemory>
        requires listed { place < length (disjoint_parts classes.now) }
        requires counts { IsTrue (have_counts_within 100 (parts_of classes.now)) }
        ensures part { IfOk result (λ p. StandsForPart self.new p (part_in (disjoint_parts classes.now) place)) }
        ensures kept { Extends self.old self.new }
    {
        let (first, second) = pair_at(classes, place as usize);
        let part = self.inclusion_part(first, second, true)?;
        Ok(part)
    }

    fn union_part(
        &mut self,
        class: &Concept,
        classes: &[Concept],
        place: u32,
    ) -> Result<Part, NoMemory>
        requires listed { place < 1 + length classes.now + length (disjoint_parts classes.now) }
        requires class_counts { IsTrue (has_counts_within 100 class.now) }
        requires counts { IsTrue (have_counts_within 100 (parts_of classes.now)) }
        ensures part { IfOk result (λ p. StandsForPart self.new p (part_in (union_parts class.now classes.now) place)) }
        ensures kept { Extends self.old self.new }
    {
        if place == 0 {
            return self.covering_part(class, classes);
        }
        let place = place - 1;
        if place as usize >= classes.len() {
            return self.disjoint_part(classes, place - classes.len() as u32);
        }
        let part = self.inclusion_part(&classes[place as usize], class, false)?;
        Ok(part)
    }

    // What is in the class is in one of the classes.
    fn covering_part(&mut self, class: &Concept, classes: &[Concept]) -> Result<Part, NoMemory>
        requires class_counts { IsTrue (has_counts_within 100 class.now) }
        requires counts { IsTrue (have_counts_within 100 (parts_of classes.now)) }
        ensures part { IfOk result (λ p. StandsForPart self.new p (covering class.now classes.now)) }
        ensures kept { Extends self.old self.new }
    {
        let first = self.form(class, false)?;
        let second = self.joined_form(true, classes, false)?;
        let part = self.inclusion(first, second)?;
        Ok(part)
    }

    fn domain_part(&mut self, role: u32, class: &Concept) -> Result<Part, NoMemory>
        requires { IsTrue (has_counts_within 100 class.now) }
        ensures part { IfOk result (λ p. StandsForPart self.new p (inclusion_of (some_of role top) class.now)) }
        ensures kept { Extends self.old self.new }
    {
        let any = self.top();
        let first = self.quantified(false, role, any)?;
        let second = self.form(class, false)?;
        let part = self.inclusion(first, second)?;
        Ok(part)
    }

    fn range_part(&mut self, role: u32, class: &Concept) -> Result<Part, NoMemory>
        requires { IsTrue (has_counts_within 100 class.now) }
        ensures part { IfOk result (λ p. StandsForPart self.new p (range_of role class.now)) }
        ensures kept { Extends self.old self.new }
    {
        let class = self.form(class, false)?;
        Ok(Part::Range(role, class))
    }

    fn functional_part(&mut self, role: u32) -> Result<Part, NoMemory>
        ensures part { IfOk result (λ p. StandsForPart self.new p (inclusion_of top (at_most 1 role top))) }
        ensures kept { Extends self.old self.new }
    {
        let any = self.top();
        let second = self.at_most(1, role, any)?;
        let part = self.inclusion(any, second)?;
        Ok(part)
    }

    // What is in the left side is in the right side, or in its complement.
    pub(crate) fn inclusion_part(
        &mut self,
        left: &Concept,
        right: &Concept,
        negated: bool,
    ) -> Result<Part, NoMemory>
        requires left_counts { IsTrue (has_counts_within 100 left.now) }
        requires right_counts { IsTrue (has_counts_within 100 right.now) }
        ensures part { IfOk result (λ p. StandsForPart self.new p (signed_inclusion left.now negated right.now)) }
        ensures kept { Extends self.old self.new }
    {
        let first = self.form(left, false)?;
        let second = self.form(right, negated)?;
        let part = self.inclusion(first, second)?;
        Ok(part)
    }

    fn inclusion(&self, left: u32, right: u32) -> Result<Part, NoMemory>
        requires left_listed { left < length self.now }
        requires right_listed { right < length self.now }
        ensures { IfOk result (λ p. StandsForPart self.now p (inclusion_at self.now left right)) }
    {
        let conjuncts = self.conjunct_list(left)?;
        Ok(Part::Inclusion(conjuncts, right))
    }

    fn conjunct_list(&self, concept: u32) -> Result<NumberList, NoMemory>
        requires { concept < length self.now }
        ensures { IfOk result (λ ns. AreNumbers self.now ns (conjuncts_in (tree_of self.now concept))) }
    {
        let _count = self.len();
        let mut members = Vec::new(self.alloc);
        self.push_conjuncts(&mut members, concept)?;
        let numbers = number_list(self.alloc, &members)?;
        Ok(numbers)
    }
}

fn number_list(alloc: Global, numbers: &[u32]) -> Result<NumberList, NoMemory>
    ensures { IfOk result (λ list. list ≡ numbers.now) }
{
    let mut list = NumberList::new(alloc);
    for number in numbers {
        list.push(*number)?;
    }
    Ok(list)
}

// The place after this one, and after the last the first.
fn next_place(place: usize, len: usize) -> usize
    requires { place < len }
    ensures within { result < len }
    ensures next { place + 1 < len → result ≡ place + 1 }
    ensures first { len ≤ place + 1 → result ≡ 0 }
{
    if place + 1 < len { place + 1 } else { 0 }
}

// The two classes of a pair, where each class is paired with those after it.
fn pair_at(classes: &[Concept], place: usize) -> (&Concept, &Concept)
    requires listed { place < length (disjoint_parts classes.now) }
    requires counts { IsTrue (have_counts_within 100 (parts_of classes.now)) }
    ensures pair { disjoint_pair result.0.now result.1.now ≡ part_in (disjoint_parts classes.now) place }
    ensures first_counts { IsTrue (has_counts_within 100 result.0.now) }
    ensures second_counts { IsTrue (has_counts_within 100 result.1.now) }
{
    let mut rest = place;
    for first in 0..classes.len() {
        let later = classes.len() - first - 1;
        if rest < later {
            return (&classes[first], &classes[first + 1 + rest]);
        }
        rest -= later;
    }
    unreachable!()
}

/// How many parts an axiom has: at most 500,000.
pub fn part_count(axiom: &Axiom) -> u32
    requires { length (axiom_parts «axiom».now) ≤ 500000 }
    ensures { result ≡ length (axiom_parts «axiom».now) }
{
    match axiom {
        Axiom::SubClassOf(_, _) => 1,
        Axiom::EquivalentClasses(classes) => class_count(classes.items()),
        Axiom::DisjointClasses(classes) => pair_count(classes.items()),
        Axiom::DisjointUnion(_, classes) => union_count(classes.items()),
        Axiom::Domain(_, _) => 1,
        Axiom::Range(_, _) => 1,
        Axiom::Functional(_) => 1,
        Axiom::SubRole(_, _) => 0,
        Axiom::EquivalentRoles(_) => 0,
        Axiom::Transitive(_) => 0,
        Axiom::Member(_, _) | Axiom::Pair(_, _, _) | Axiom::SameAll(_) | Axiom::Different(_) => 0,
    }
}

fn class_count(classes: &[Concept]) -> u32
    requires { length (equivalent_parts classes.now) ≤ 500000 }
    ensures { result ≡ length (equivalent_parts classes.now) }
{
    classes.len() as u32
}

fn union_count(classes: &[Concept]) -> u32
    requires { 1 + length classes.now + length (disjoint_parts classes.now) ≤ 500000 }
    ensures { result ≡ 1 + length classes.now + length (disjoint_parts classes.now) }
{
    1 + classes.len() as u32 + pair_count(classes)
}

fn pair_count(classes: &[Concept]) -> u32
    requires { length (disjoint_parts classes.now) ≤ 500000 }
    ensures { result ≡ length (disjoint_parts classes.now) }
{
    let count = classes.len();
    if count == 0 {
        return 0;
    }
    (count * (count - 1) / 2) as u32
}
