// What a line rests on.
ghost use Rattle.std.specs.Prelude.{◌<◌, length};
ghost use Rattle.shq_nnf.specs.Numbers.{Extends};
ghost use Rattle.refutation_rules.specs.RefutationContext.{IsSameButTable};

use crate::{NoMemory, Rules};
use refutation_tree::Line;
use shq_nnf::Shape;

/// What a branch has to know for a line to have a place in it. Concepts are numbers of a table.
#[derive(Clone, Copy, Debug, PartialEq, Eq, Hash)]
pub enum Premise {
    /// A node.
    Node(u32),
    /// A node in a concept.
    Has(u32, u32),
    /// An edge from one node to another, by whichever role.
    Edge(u32, u32),
    /// Two nodes that differ, the smaller one first.
    Apart(u32, u32),
    /// Two nodes that are one.
    Same(u32, u32),
}

impl<'a> Rules<'a> {
    /// Adds the premises of a line to a list. Of an edge its role is not told. What is listed serves to find the lines
    /// that others rest on; whether the line has a place in a branch is for [`Rules::outcome`] to say.
    ///
    /// # Errors
    ///
    /// Out of memory. The table keeps its numbers, and may have gained some.
    pub fn put_premises(&mut self, line: &Line, premises: &mut Vec<Premise>) -> Result<(), NoMemory>
        ensures kept { Extends self.old.table self.new.table }
        ensures same { IsSameButTable self.old self.new }
    {
        match line {
            Line::Start | Line::Fact(..) => Ok(()),
            Line::And(node, concept) | Line::Or(node, concept) => {
                self.put_concept(*node, *concept, premises)
            }
            Line::SomeOf(node, _, concept) | Line::Least(node, _, concept) => {
                self.put_concept(*node, *concept, premises)
            }
            Line::All(node, end, concept) | Line::Carry(node, end, _, concept) => {
                put_edge(*node, *end, premises)?;
                self.put_concept(*node, *concept, premises)
            }
            Line::Row(node, axiom, part, positions) => {
                self.put_row(*node, *axiom, *part, positions.items(), premises)
            }
            Line::Range(node, end, _) => put_edge(*node, *end, premises),
            Line::Choose(node, _) => put_node(*node, premises),
            Line::Pair(first, second) => {
                put_node(*first, premises)?;
                put_node(*second, premises)
            }
            Line::Differ(first, second) => {
                put_apart(*first, *second, premises)?;
                premises.push(Premise::Same(*first, *second))?;
                Ok(())
            }
            Line::Bottom(node) => put_has(*node, self.bottom(), premises),
            Line::Clash(node, concept) => self.put_clash(*node, *concept, premises),
            Line::Most(node, concept, ends) => {
                self.put_most(*node, *concept, ends.items(), premises)
            }
        }
    }

    // The node, in a concept of the refutation.
    fn put_concept(
        &self,
        node: u32,
        concept: u32,
        premises: &mut Vec<Premise>,
    ) -> Result<(), NoMemory> {
        match self.number(concept) {
            Some(number) => put_has(node, number, premises),
            None => Ok(()),
        }
    }

    // The node, in a concept of the refutation and in its complement.
    fn put_clash(
        &mut self,
        node: u32,
        concept: u32,
        premises: &mut Vec<Premise>,
    ) -> Result<(), NoMemory>
        ensures kept { Extends self.old.table self.new.table }
        ensures same { IsSameButTable self.old self.new }
    {
        match self.number(concept) {
            Some(number) => {
                let negated = self.negated(number)?;
                put_has(node, number, premises)?;
                put_has(node, negated, premises)
            }
            None => Ok(()),
        }
    }

    // The node, in each of the conjuncts by which a row is used.
    fn put_row(
        &mut self,
        node: u32,
        axiom: u32,
        part: u32,
        positions: &[u32],
        premises: &mut Vec<Premise>,
    ) -> Result<(), NoMemory>
        ensures kept { Extends self.old.table self.new.table }
        ensures same { IsSameButTable self.old self.new }
    {
        let row = self.inclusion_row(axiom, part, positions)?;
        put_node(node, premises)?;
        match row {
            Some(row) => put_all(node, row.premises.items(), premises),
            None => Ok(()),
        }
    }

    // The node, in the restriction, and edges to the ends, which are in its filler and apart.
    fn put_most(
        &self,
        node: u32,
        concept: u32,
        ends: &[u32],
        premises: &mut Vec<Premise>,
    ) -> Result<(), NoMemory> {
        self.put_concept(node, concept, premises)?;
        for end in ends {
            put_edge(node, *end, premises)?;
        }
        match self.filler(concept) {
            Some(filler) => put_fillers(filler, ends, premises)?,
            None => {}
        }
        put_all_apart(ends, premises)
    }

    // The filler of an "at most" restriction of the refutation.
    fn filler(&self, concept: u32) -> Option<u32> {
        match self.number(concept) {
            Some(number) => match self.shape(number) {
                Shape::Max(_, _, filler) => Some(filler),
                Shape::Top | Shape::Bottom | Shape::Name(_) | Shape::NotName(_) => None,
                Shape::And(_) | Shape::Or(_) | Shape::SomeOf(..) | Shape::AllOf(..) => None,
                Shape::Min(..) => None,
            },
            None => None,
        }
    }
}

fn put_node(node: u32, premises: &mut Vec<Premise>) -> Result<(), NoMemory> {
    premises.push(Premise::Node(node))?;
    Ok(())
}

fn put_has(node: u32, number: u32, premises: &mut Vec<Premise>) -> Result<(), NoMemory> {
    put_node(node, premises)?;
    premises.push(Premise::Has(node, number))?;
    Ok(())
}

fn put_edge(from: u32, to: u32, premises: &mut Vec<Premise>) -> Result<(), NoMemory> {
    put_node(from, premises)?;
    put_node(to, premises)?;
    premises.push(Premise::Edge(from, to))?;
    Ok(())
}

fn put_apart(first: u32, second: u32, premises: &mut Vec<Premise>) -> Result<(), NoMemory> {
    put_node(first, premises)?;
    put_node(second, premises)?;
    premises.push(Premise::Apart(first.min(second), first.max(second)))?;
    Ok(())
}

fn put_all(node: u32, numbers: &[u32], premises: &mut Vec<Premise>) -> Result<(), NoMemory> {
    for number in numbers {
        put_has(node, *number, premises)?;
    }
    Ok(())
}

fn put_fillers(filler: u32, ends: &[u32], premises: &mut Vec<Premise>) -> Result<(), NoMemory> {
    for end in ends {
        put_has(*end, filler, premises)?;
    }
    Ok(())
}

fn put_all_apart(ends: &[u32], premises: &mut Vec<Premise>) -> Result<(), NoMemory> {
    for place in 0..ends.len() {
        let end = ends[place];
        for other in ends.split_at(place + 1).1 {
            put_apart(end, *other, premises)?;
        }
    }
    Ok(())
}
