// Normal forms of class expressions and of their complements.
ghost use Rattle.std.specs.Prelude.{◌≡◌, ◌<◌, ◌≤◌, IsTrue, IfOk, OnOk, OnErr, length, take, true};
ghost use Rattle.shq_meaning.specs.Concept.{parts_of};
ghost use Rattle.calculus_specs.specs.Normal.{normal_form, negated_form};
ghost use Rattle.calculus_specs.specs.Tree.{tree_of};
ghost use Rattle.shq_nnf.specs.Numbers.{Extends, IsNumber, IsNumberIf, AreNumbers};
ghost use Rattle.shq_nnf.specs.Counts.{has_counts_within, have_counts_within};
ghost use Rattle.shq_nnf.specs.Bounds.{signed_form, signed_forms, joined_form, quantifier_form, bounded_form};

use crate::counts::Bound;
use crate::{Concepts, NoMemory};
use shq_meaning::{Concept, Node};

impl Concepts {
    /// The number of the normal form of a class expression whose cardinalities are at most 100.
    ///
    /// # Errors
    ///
    /// Out of memory.
    pub fn intern(&mut self, concept: &Concept) -> Result<u32, NoMemory>
        requires { IsTrue (has_counts_within 100 concept.now) }
        ensures number { IfOk result (λ n. IsNumber self.new n (normal_form concept.now)) }
        ensures kept { Extends self.old self.new }
        ensures unchanged { OnErr result (self.new ≡ self.old) }
    {
        let len = self.len();
        let outcome = self.form(concept, false);
        self.settled(len, outcome)
    }

    /// The number of the normal form of the complement of a class expression whose cardinalities are at most 100.
    ///
    /// # Errors
    ///
    /// Out of memory.
    pub fn intern_complement(&mut self, concept: &Concept) -> Result<u32, NoMemory>
        requires { IsTrue (has_counts_within 100 concept.now) }
        ensures number { IfOk result (λ n. IsNumber self.new n (negated_form concept.now)) }
        ensures kept { Extends self.old self.new }
        ensures unchanged { OnErr result (self.new ≡ self.old) }
    {
        let len = self.len();
        let outcome = self.form(concept, true);
        self.settled(len, outcome)
    }

    /// The number of the normal form of the complement of a number.
    ///
    /// # Errors
    ///
    /// Out of memory.
    pub fn negated(&mut self, concept: u32) -> Result<u32, NoMemory>
        requires { concept < length self.old }
        ensures number { IfOk result (λ n. IsNumber self.new n (negated_form (tree_of self.old concept))) }
        ensures kept { Extends self.old self.new }
        ensures unchanged { OnErr result (self.new ≡ self.old) }
    {
        let len = self.len();
        let outcome = self.complement_of(concept);
        self.settled(len, outcome)
    }

    // The outcome of steps that began at a length: where memory ran out, the table is cut back to it.
    pub(crate) fn settled<T>(
        &mut self,
        len: u32,
        outcome: Result<T, NoMemory>,
    ) -> Result<T, NoMemory>
        requires { 0 < len }
        ensures same { result ≡ outcome }
        ensures ok { OnOk outcome (self.new ≡ self.old) }
        ensures cut { OnErr outcome (self.new ≡ take len self.old) }
    {
        if outcome.is_err() {
            self.truncate(len);
        }
        outcome
    }

    // The number of the normal form of a class expression, or of its complement.
    #[cycle(forms)]
    pub(crate) fn form(&mut self, concept: &Concept, negated: bool) -> Result<u32, NoMemory>
        requires { IsTrue (has_counts_within 100 concept.now) }
        ensures number { IfOk result (λ n. IsNumber self.new n (signed_form negated concept.now)) }
        ensures kept { Extends self.old self.new }
    {
        match &concept.node {
            Node::Top => self.constant(negated),
            Node::Bottom => self.constant(!negated),
            Node::Name(class) => self.literal(*class, negated),
            Node::Not(inner) => self.form(inner, !negated),
            Node::And(parts) => self.joined_form(negated, parts, negated),
            Node::Or(parts) => self.joined_form(!negated, parts, negated),
            Node::SomeOf(role, filler) => self.quantified_form(negated, *role, filler, negated),
            Node::AllOf(role, filler) => self.quantified_form(!negated, *role, filler, negated),
            Node::Min(count, role, filler) => self.bounded_form(
                Bound::AtLeast,
                *count,
                *role,
                filler,
                negated,
            ),
            Node::Max(count, role, filler) => self.bounded_form(
                Bound::AtMost,
                *count,
                *role,
                filler,
                negated,
            ),
            Node::Exact(count, role, filler) => self.bounded_form(
                Bound::Exactly,
                *count,
                *role,
                filler,
                negated,
            ),
        }
    }

    #[cycle(forms)]
    pub(crate) fn joined_form(
        &mut self,
        union: bool,
        parts: &[Concept],
        negated: bool,
    ) -> Result<u32, NoMemory>
        requires { IsTrue (have_counts_within 100 (parts_of parts.now)) }
        ensures number { IfOk result (λ n. IsNumber self.new n (joined_form union (signed_forms negated parts.now))) }
        ensures kept { Extends self.old self.new }
    {
        let numbers = self.forms(parts, negated)?;
        let number = self.joined(union, &numbers)?;
        Ok(number)
    }

    #[cycle(forms)]
    fn forms(&mut self, concepts: &[Concept], negated: bool) -> Result<Vec<u32>, NoMemory>
        requires { IsTrue (have_counts_within 100 (parts_of concepts.now)) }
        ensures numbers { IfOk result (λ ns. AreNumbers self.new ns.items (signed_forms negated concepts.now)) }
        ensures kept { Extends self.old self.new }
    {
        let mut numbers = Vec::new(self.alloc);
        for concept in concepts {
            let number = self.form(concept, negated)?;
            numbers.push(number)?;
        }
        Ok(numbers)
    }

    #[cycle(forms)]
    fn quantified_form(
        &mut self,
        all: bool,
        role: u32,
        filler: &Concept,
        negated: bool,
    ) -> Result<u32, NoMemory>
        requires { IsTrue (has_counts_within 100 filler.now) }
        ensures number { IfOk result (λ n. IsNumber self.new n (quantifier_form all role negated filler.now)) }
        ensures kept { Extends self.old self.new }
    {
        let inner = self.form(filler, negated)?;
        let number = self.quantified(all, role, inner)?;
        Ok(number)
    }

    #[cycle(forms)]
    fn bounded_form(
        &mut self,
        bound: Bound,
        count: u32,
        role: u32,
        filler: &Concept,
        negated: bool,
    ) -> Result<u32, NoMemory>
        requires counts { IsTrue (has_counts_within 100 filler.now) }
        requires within { count ≤ 100 }
        ensures number { IfOk result (λ n. IsNumber self.new n (bounded_form bound negated count role filler.now)) }
        ensures kept { Extends self.old self.new }
    {
        let uses_plain = bound.uses_plain(negated, count);
        let uses_negated = bound.uses_negated(negated, count);
        let plain = self.filler(uses_plain, filler, false)?;
        let complement = self.filler(uses_negated, filler, true)?;
        let number = self.bounded(bound, negated, count, role, plain, complement)?;
        Ok(number)
    }

    // The number of the filler's form where it is used, and else any number.
    #[cycle(forms)]
    fn filler(&mut self, used: bool, filler: &Concept, negated: bool) -> Result<u32, NoMemory>
        requires { IsTrue (has_counts_within 100 filler.now) }
        ensures number { IfOk result (λ n. IsNumberIf used self.new n (signed_form negated filler.now)) }
        ensures kept { Extends self.old self.new }
    {
        if !used {
            return Ok(self.top());
        }
        let number = self.form(filler, negated)?;
        Ok(number)
    }
}
