// Quantifiers and cardinalities over numbers.
ghost use Rattle.std.specs.Prelude.{◌≡◌, ◌<◌, ◌≤◌, IfOk, OnErr, length, [], ◌∷◌, true};
ghost use Rattle.shq_meaning.specs.Concept.{at_most, top, bottom, name, complement};
ghost use Rattle.calculus_specs.specs.Normal.{least_form};
ghost use Rattle.calculus_specs.specs.Tree.{tree_of};
ghost use Rattle.shq_nnf.specs.declared.counts.Bound.TheVariants.{AtLeast, AtMost};
ghost use Rattle.shq_nnf.specs.Numbers.{Extends, IsNumber};
ghost use Rattle.shq_nnf.specs.Bounds.{signed_form, quantified_form, IsBounded, uses_plain, uses_negated};

use crate::shapes::Shape;
use crate::{Concepts, NoMemory};

/// What a cardinality bounds.
#[derive(Clone, Copy, Drop)]
pub(crate) enum Bound {
    AtLeast,
    AtMost,
    Exactly,
}

impl Bound {
    // Whether the normal form uses that of the filler.
    pub(crate) fn uses_plain(self, negated: bool, count: u32) -> bool
        ensures { result ≡ uses_plain self negated count }
    {
        match self {
            Bound::AtLeast if negated => count > 1,
            Bound::AtMost if negated => true,
            Bound::Exactly if negated => true,
            _ => count > 0,
        }
    }

    // Whether it uses that of the filler's complement.
    pub(crate) fn uses_negated(self, negated: bool, count: u32) -> bool
        ensures { result ≡ uses_negated self negated count }
    {
        match self {
            Bound::AtLeast => negated && count == 1,
            Bound::AtMost => !negated && count == 0,
            Bound::Exactly => if negated { count == 1 } else { count == 0 },
        }
    }
}

impl Concepts {
    pub(crate) fn top(&self) -> u32
        ensures { IsNumber self.now result top }
    {
        let _count = self.len();
        0
    }

    // `Top`, or its complement.
    pub(crate) fn constant(&mut self, negated: bool) -> Result<u32, NoMemory>
        ensures number { IfOk result (λ n. IsNumber self.new n (signed_form negated top)) }
        ensures kept { Extends self.old self.new }
    {
        if negated {
            return self.put(Shape::Bottom);
        }
        Ok(self.top())
    }

    // A class, or its complement.
    pub(crate) fn literal(&mut self, class: u32, negated: bool) -> Result<u32, NoMemory>
        ensures number { IfOk result (λ n. IsNumber self.new n (signed_form negated (name class))) }
        ensures kept { Extends self.old self.new }
    {
        if negated {
            return self.put(Shape::NotName(class));
        }
        self.put(Shape::Name(class))
    }

    // All successors, or some of them.
    pub(crate) fn quantified(&mut self, all: bool, role: u32, filler: u32) -> Result<u32, NoMemory>
        requires { filler < length self.old }
        ensures number { IfOk result (λ n. IsNumber self.new n (quantified_form all role (tree_of self.old filler))) }
        ensures kept { Extends self.old self.new }
    {
        if all {
            return self.put(Shape::AllOf(role, filler));
        }
        self.put(Shape::SomeOf(role, filler))
    }

    pub(crate) fn at_least(&mut self, count: u32, role: u32, filler: u32) -> Result<u32, NoMemory>
        requires listed { filler < length self.old }
        requires within { count ≤ 101 }
        ensures number { IfOk result (λ n. IsNumber self.new n (least_form count role (tree_of self.old filler))) }
        ensures kept { Extends self.old self.new }
    {
        if count == 0 {
            return Ok(self.top());
        }
        if count == 1 {
            return self.put(Shape::SomeOf(role, filler));
        }
        self.put(Shape::Min(count, role, filler))
    }

    pub(crate) fn at_most(&mut self, count: u32, role: u32, filler: u32) -> Result<u32, NoMemory>
        requires listed { filler < length self.old }
        requires some { 1 ≤ count }
        requires within { count ≤ 100 }
        ensures number { IfOk result (λ n. IsNumber self.new n (at_most count role (tree_of self.old filler))) }
        ensures kept { Extends self.old self.new }
    {
        self.put(Shape::Max(count, role, filler))
    }

    // A cardinality or its complement, over the numbers of the filler and of the filler's complement.
    pub(crate) fn bounded(
        &mut self,
        bound: Bound,
        negated: bool,
        count: u32,
        role: u32,
        plain: u32,
        complement: u32,
    ) -> Result<u32, NoMemory>
        requires plain_listed { plain < length self.old }
        requires complement_listed { complement < length self.old }
        requires within { count ≤ 100 }
        ensures number { IfOk result (IsBounded self.old self.new bound negated count role plain complement) }
        ensures kept { Extends self.old self.new }
    {
        match bound {
            Bound::AtLeast => self.least(negated, count, role, plain, complement),
            Bound::AtMost => self.most(negated, count, role, plain, complement),
            Bound::Exactly => {
                let least = self.least(negated, count, role, plain, complement)?;
                let most = self.most(negated, count, role, plain, complement)?;
                let number = self.joined(negated, &[least, most])?;
                Ok(number)
            }
        }
    }

    // At least so many, or fewer.
    fn least(
        &mut self,
        negated: bool,
        count: u32,
        role: u32,
        plain: u32,
        complement: u32,
    ) -> Result<u32, NoMemory>
        requires plain_listed { plain < length self.old }
        requires complement_listed { complement < length self.old }
        requires within { count ≤ 100 }
        ensures number { IfOk result (IsBounded self.old self.new AtLeast negated count role plain complement) }
        ensures kept { Extends self.old self.new }
    {
        if !negated {
            return self.at_least(count, role, plain);
        }
        if count == 0 {
            return self.put(Shape::Bottom);
        }
        if count == 1 {
            return self.put(Shape::AllOf(role, complement));
        }
        self.at_most(count - 1, role, plain)
    }

    // At most so many, or more.
    fn most(
        &mut self,
        negated: bool,
        count: u32,
        role: u32,
        plain: u32,
        complement: u32,
    ) -> Result<u32, NoMemory>
        requires plain_listed { plain < length self.old }
        requires complement_listed { complement < length self.old }
        requires within { count ≤ 100 }
        ensures number { IfOk result (IsBounded self.old self.new AtMost negated count role plain complement) }
        ensures kept { Extends self.old self.new }
    {
        if negated {
            return self.at_least(count + 1, role, plain);
        }
        if count == 0 {
            return self.put(Shape::AllOf(role, complement));
        }
        self.at_most(count, role, plain)
    }
}
