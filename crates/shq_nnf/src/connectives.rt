// Intersections and unions of numbers.
ghost use Rattle.std.specs.Prelude.{◌≡◌, ◌<◌, nat_lt, IsTrue, IfOk, OnOk, OnErr, ◌++◌, length};
ghost use Rattle.std.specs.List.{list_all, list_any};
ghost use Rattle.calculus_specs.specs.Shape.{shape_of};
ghost use Rattle.calculus_specs.specs.Normal.{and_of, or_of};
ghost use Rattle.shq_nnf.specs.Numbers.{Extends, IsNumber, trees_at};
ghost use Rattle.shq_nnf.specs.Bounds.{joined_form};
ghost use Rattle.shq_nnf.specs.Opened.{is_top_shape, is_bottom_shape, conjunct_numbers_at, disjunct_numbers_at};
ghost use Rattle.shq_nnf.specs.Opened.{conjunct_numbers, disjunct_numbers, is_open_conjunct, is_open_disjunct};
ghost use Rattle.shq_nnf.specs.Opened.{open_intersection, open_union};

use crate::shapes::Shape;
use crate::{Concepts, NoMemory};

impl Concepts {
    // The number of an intersection in normal form.
    pub(crate) fn intersection_of(&mut self, parts: &[u32]) -> Result<u32, NoMemory>
        requires { IsTrue (list_all (λ c. nat_lt c (length self.old)) parts.now) }
        ensures number { IfOk result (λ n. IsNumber self.new n (and_of (trees_at self.old parts.now))) }
        ensures kept { Extends self.old self.new }
        ensures unchanged { OnErr result (self.new ≡ self.old) }
    {
        let _count = self.len();
        let members = self.conjuncts(parts)?;
        self.intersect(&members)
    }

    // The members of an intersection: the parts of inner ones stand in their places, and `Top` is left out.
    fn conjuncts(&self, parts: &[u32]) -> Result<Vec<u32>, NoMemory>
        requires { IsTrue (list_all (λ c. nat_lt c (length self.now)) parts.now) }
        ensures { IfOk result (λ members. members.items ≡ conjunct_numbers self.now parts.now) }
    {
        let mut members = Vec::new(self.alloc);
        for part in parts {
            self.push_conjuncts(&mut members, *part)?;
        }
        Ok(members)
    }

    pub(crate) fn push_conjuncts(&self, members: &mut Vec<u32>, part: u32) -> Result<(), NoMemory>
        requires { part < length self.now }
        ensures { OnOk result (members.new.items ≡ members.old.items ++ conjunct_numbers_at self.now part) }
    {
        match self.shape(part) {
            Shape::Top => {}
            Shape::And(inner) => members.extend_from_slice(inner)?,
            _ => members.push(part)?,
        }
        Ok(())
    }

    // The number of the intersection of members that are opened.
    fn intersect(&mut self, members: &[u32]) -> Result<u32, NoMemory>
        requires listed { IsTrue (list_all (λ c. nat_lt c (length self.old)) members.now) }
        requires opened { IsTrue (list_all (λ c. is_open_conjunct (shape_of self.old c)) members.now) }
        ensures number { IfOk result (λ n. IsNumber self.new n (open_intersection (trees_at self.old members.now))) }
        ensures kept { Extends self.old self.new }
        ensures unchanged { OnErr result (self.new ≡ self.old) }
    {
        let _count = self.len();
        if self.any_bottom(members) {
            return self.put(Shape::Bottom);
        }
        match members {
            [] => Ok(0),
            [member] => Ok(*member),
            _ => self.put(Shape::And(members)),
        }
    }

    fn any_bottom(&self, members: &[u32]) -> bool
        requires { IsTrue (list_all (λ c. nat_lt c (length self.now)) members.now) }
        ensures { result ≡ list_any (λ c. is_bottom_shape (shape_of self.now c)) members.now }
    {
        let mut found = false;
        for member in members {
            let here = self.is_bottom(*member);
            found = found || here;
        }
        found
    }

    fn is_bottom(&self, concept: u32) -> bool
        requires { concept < length self.now }
        ensures { result ≡ is_bottom_shape (shape_of self.now concept) }
    {
        matches!(self.shape(concept), Shape::Bottom)
    }

    /// The number of the normal form of the union of these numbers: the parts of inner unions stand in their places,
    /// and `Bottom` is left out.
    ///
    /// # Errors
    ///
    /// Out of memory.
    pub fn union_of(&mut self, parts: &[u32]) -> Result<u32, NoMemory>
        requires { IsTrue (list_all (λ c. nat_lt c (length self.old)) parts.now) }
        ensures number { IfOk result (λ n. IsNumber self.new n (or_of (trees_at self.old parts.now))) }
        ensures kept { Extends self.old self.new }
        ensures unchanged { OnErr result (self.new ≡ self.old) }
    {
        let _count = self.len();
        let members = self.disjuncts(parts)?;
        self.unite(&members)
    }

    // The members of a union: the parts of inner ones stand in their places, and `Bottom` is left out.
    fn disjuncts(&self, parts: &[u32]) -> Result<Vec<u32>, NoMemory>
        requires { IsTrue (list_all (λ c. nat_lt c (length self.now)) parts.now) }
        ensures { IfOk result (λ members. members.items ≡ disjunct_numbers self.now parts.now) }
    {
        let mut members = Vec::new(self.alloc);
        for part in parts {
            self.push_disjuncts(&mut members, *part)?;
        }
        Ok(members)
    }

    fn push_disjuncts(&self, members: &mut Vec<u32>, part: u32) -> Result<(), NoMemory>
        requires { part < length self.now }
        ensures { OnOk result (members.new.items ≡ members.old.items ++ disjunct_numbers_at self.now part) }
    {
        match self.shape(part) {
            Shape::Bottom => {}
            Shape::Or(inner) => members.extend_from_slice(inner)?,
            _ => members.push(part)?,
        }
        Ok(())
    }

    // The number of the union of members that are opened.
    fn unite(&mut self, members: &[u32]) -> Result<u32, NoMemory>
        requires listed { IsTrue (list_all (λ c. nat_lt c (length self.old)) members.now) }
        requires opened { IsTrue (list_all (λ c. is_open_disjunct (shape_of self.old c)) members.now) }
        ensures number { IfOk result (λ n. IsNumber self.new n (open_union (trees_at self.old members.now))) }
        ensures kept { Extends self.old self.new }
        ensures unchanged { OnErr result (self.new ≡ self.old) }
    {
        let _count = self.len();
        if self.any_top(members) {
            return Ok(0);
        }
        match members {
            [] => self.put(Shape::Bottom),
            [member] => Ok(*member),
            _ => self.put(Shape::Or(members)),
        }
    }

    fn any_top(&self, members: &[u32]) -> bool
        requires { IsTrue (list_all (λ c. nat_lt c (length self.now)) members.now) }
        ensures { result ≡ list_any (λ c. is_top_shape (shape_of self.now c)) members.now }
    {
        let mut found = false;
        for member in members {
            let here = self.is_top(*member);
            found = found || here;
        }
        found
    }

    fn is_top(&self, concept: u32) -> bool
        requires { concept < length self.now }
        ensures { result ≡ is_top_shape (shape_of self.now concept) }
    {
        matches!(self.shape(concept), Shape::Top)
    }

    // A union, or an intersection.
    pub(crate) fn joined(&mut self, union: bool, parts: &[u32]) -> Result<u32, NoMemory>
        requires { IsTrue (list_all (λ c. nat_lt c (length self.old)) parts.now) }
        ensures number { IfOk result (λ n. IsNumber self.new n (joined_form union (trees_at self.old parts.now))) }
        ensures kept { Extends self.old self.new }
    {
        if union {
            return self.union_of(parts);
        }
        self.intersection_of(parts)
    }
}
