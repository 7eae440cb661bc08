// The complements of numbers.
ghost use Rattle.std.specs.Prelude.{◌≡◌, ◌<◌, ◌≤◌, nat_lt, IsTrue, IfOk, length};
ghost use Rattle.std.specs.List.{list_all};
ghost use Rattle.calculus_specs.specs.Shape.{shape_of, IsTable};
ghost use Rattle.shq_nnf.specs.Bounds.{joined_form, complement_quantifier, negated_tree, negated_trees};
ghost use Rattle.shq_nnf.specs.Shapes.{form_of_owned};
ghost use Rattle.shq_nnf.specs.Numbers.{Extends, IsNumber, AreNumbers};

use crate::shapes::{OwnedShape, owned};
use crate::{Concepts, NoMemory};

impl Concepts {
    // The number of the normal form of a number's complement.
    #[cycle(complements)]
    pub(crate) fn complement_of(&mut self, concept: u32) -> Result<u32, NoMemory>
        requires { concept < length self.old }
        ensures number { IfOk result (λ n. IsNumber self.new n (negated_tree self.old concept)) }
        ensures kept { Extends self.old self.new }
    {
        let shape = self.copied(concept)?;
        match &shape {
            OwnedShape::Top => self.constant(true),
            OwnedShape::Bottom => self.constant(false),
            OwnedShape::Name(class) => self.literal(*class, true),
            OwnedShape::NotName(class) => self.literal(*class, false),
            OwnedShape::And(parts) => self.joined_complement(true, parts, concept),
            OwnedShape::Or(parts) => self.joined_complement(false, parts, concept),
            OwnedShape::SomeOf(role, filler) => self.quantified_complement(true, *role, *filler),
            OwnedShape::AllOf(role, filler) => self.quantified_complement(false, *role, *filler),
            OwnedShape::Min(count, role, filler) => self.at_most(*count - 1, *role, *filler),
            OwnedShape::Max(count, role, filler) => self.at_least(*count + 1, *role, *filler),
        }
    }

    fn copied(&self, concept: u32) -> Result<OwnedShape, NoMemory>
        requires { concept < length self.now }
        ensures shape { IfOk result (λ kept. form_of_owned kept ≡ shape_of self.now concept) }
        ensures table { IsTable self.now }
    {
        owned(self.alloc, self.shape(concept))
    }

    // Of parts that are all below a number of the table.
    #[cycle(complements)]
    fn joined_complement(&mut self, union: bool, parts: &[u32], above: u32) -> Result<u32, NoMemory>
        requires listed { above ≤ length self.old }
        requires below { IsTrue (list_all (λ c. nat_lt c above) parts.now) }
        ensures number { IfOk result (λ n. IsNumber self.new n (joined_form union (negated_trees self.old parts.now))) }
        ensures kept { Extends self.old self.new }
    {
        let numbers = self.complements(parts, above)?;
        let number = self.joined(union, &numbers)?;
        Ok(number)
    }

    #[cycle(complements)]
    fn complements(&mut self, parts: &[u32], above: u32) -> Result<Vec<u32>, NoMemory>
        requires listed { above ≤ length self.old }
        requires below { IsTrue (list_all (λ c. nat_lt c above) parts.now) }
        ensures numbers { IfOk result (λ ns. AreNumbers self.new ns.items (negated_trees self.old parts.now)) }
        ensures kept { Extends self.old self.new }
    {
        let mut numbers = Vec::new(self.alloc);
        for part in parts {
            let number = self.complement_of(*part)?;
            numbers.push(number)?;
        }
        Ok(numbers)
    }

    #[cycle(complements)]
    fn quantified_complement(&mut self, all: bool, role: u32, filler: u32) -> Result<u32, NoMemory>
        requires { filler < length self.old }
        ensures number { IfOk result (λ n. IsNumber self.new n (complement_quantifier self.old all role filler)) }
        ensures kept { Extends self.old self.new }
    {
        let inner = self.complement_of(filler)?;
        let number = self.quantified(all, role, inner)?;
        Ok(number)
    }
}
