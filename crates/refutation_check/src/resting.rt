// Which entries made what a line asks for. What a node lacks, one that is joined with it may have: then the line rests
// on the joins between the two as well.
use crate::NoMemory;
use crate::joined::Joined;
use crate::support::Support;
use refutation_rules::Premise;

impl Support {
    /// Rests on the entries that made what is asked for.
    ///
    /// # Errors
    ///
    /// Out of memory.
    pub(crate) fn rest_on(&mut self, premise: Premise) -> Result<(), NoMemory> {
        match premise {
            Premise::Node(_) => {
                self.rest_on_made(premise)?;
                Ok(())
            }
            Premise::Has(node, number) => self.rest_on_concept(node, number),
            Premise::Edge(from, to) => self.rest_on_edges(from, to),
            Premise::Apart(first, second) => self.rest_on_apart(first, second),
            Premise::Same(first, second) => self.rest_on_joins(first, second),
        }
    }

    // Rests on the entry that made the premise, if there is one on the path.
    fn rest_on_made(&mut self, premise: Premise) -> Result<bool, NoMemory> {
        match self.maker(premise) {
            Some(entry) => {
                self.supporters.put(entry)?;
                Ok(true)
            }
            None => Ok(false),
        }
    }

    fn joined(&mut self, node: u32) -> Result<Joined, NoMemory> {
        Joined::with(self.alloc, node, &mut self.joins, &self.path)
    }

    // Rests on the joins that lead to the node at a place.
    fn rest_on_steps(&mut self, joined: &Joined, place: usize) -> Result<(), NoMemory> {
        let mut at = place;
        for _ in 0..joined.len() {
            let Some((entry, from)) = joined.step_to(at) else {
                return Ok(())
            };
            self.supporters.put(entry)?;
            at = from;
        }
        Ok(())
    }

    fn rest_on_concept(&mut self, node: u32, number: u32) -> Result<(), NoMemory> {
        if self.rest_on_made(Premise::Has(node, number))? || self.joins.len() == 0 {
            return Ok(());
        }
        let joined = self.joined(node)?;
        for place in 0..joined.len() {
            if self.has_at(&joined, place, number)? {
                return self.rest_on_steps(&joined, place);
            }
        }
        Ok(())
    }

    fn has_at(&mut self, joined: &Joined, place: usize, number: u32) -> Result<bool, NoMemory> {
        match joined.node(place) {
            Some(node) => self.rest_on_made(Premise::Has(node, number)),
            None => Ok(false),
        }
    }

    // Rests on all that made an edge between the nodes, since the premise does not tell its role.
    fn rest_on_edges(&mut self, from: u32, to: u32) -> Result<(), NoMemory> {
        if self.joins.len() == 0 {
            self.rest_on_chain(from, to)?;
            return Ok(());
        }
        let starts = self.joined(from)?;
        let ends = self.joined(to)?;
        for first in 0..starts.len() {
            for second in 0..ends.len() {
                if self.has_edge_at(&starts, first, &ends, second)? {
                    self.rest_on_steps(&starts, first)?;
                    self.rest_on_steps(&ends, second)?;
                }
            }
        }
        Ok(())
    }

    fn has_edge_at(
        &mut self,
        starts: &Joined,
        first: usize,
        ends: &Joined,
        second: usize,
    ) -> Result<bool, NoMemory> {
        match (starts.node(first), ends.node(second)) {
            (Some(from), Some(to)) => self.rest_on_chain(from, to),
            _ => Ok(false),
        }
    }

    // Rests on each entry that made an edge from one node to the other. `false` where there is none.
    fn rest_on_chain(&mut self, from: u32, to: u32) -> Result<bool, NoMemory> {
        let head = self.edges.head(&self.path, Premise::Edge(from, to))?;
        let mut place = head;
        for _ in 0..self.edges.len() {
            let Some(link) = self.edges.link(place) else {
                return Ok(head.is_some())
            };
            self.supporters.put(link.entry)?;
            place = link.before;
        }
        Ok(head.is_some())
    }

    fn rest_on_apart(&mut self, first: u32, second: u32) -> Result<(), NoMemory> {
        if self.rest_on_made(Premise::Apart(first.min(second), first.max(second)))?
            || self.joins.len() == 0
        {
            return Ok(());
        }
        let ones = self.joined(first)?;
        let others = self.joined(second)?;
        for one in 0..ones.len() {
            for other in 0..others.len() {
                if self.are_apart_at(&ones, one, &others, other)? {
                    self.rest_on_steps(&ones, one)?;
                    return self.rest_on_steps(&others, other);
                }
            }
        }
        Ok(())
    }

    fn are_apart_at(
        &mut self,
        ones: &Joined,
        one: usize,
        others: &Joined,
        other: usize,
    ) -> Result<bool, NoMemory> {
        match (ones.node(one), others.node(other)) {
            (Some(first), Some(second)) => {
                self.rest_on_made(Premise::Apart(first.min(second), first.max(second)))
            }
            _ => Ok(false),
        }
    }

    // Rests on the joins by which the two nodes are one.
    fn rest_on_joins(&mut self, first: u32, second: u32) -> Result<(), NoMemory> {
        let joined = self.joined(first)?;
        match joined.place_of(second) {
            Some(place) => self.rest_on_steps(&joined, place),
            None => Ok(()),
        }
    }
}
