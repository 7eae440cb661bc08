// The lines that the lines of a refutation rest on.
use crate::NoMemory;
use crate::chains::Chains;
use crate::path::Path;
use crate::supporters::Supporters;
use indexmap::IndexMap;
use refutation_rules::{Fact, FirstNodes, NewNodes, Outcome, Premise};
use std::alloc::Global;

/// What the lines that were read rest on: each on those before it in its branch that made what it asks for.
#[derive(Drop)]
pub(crate) struct Support {
    pub(crate) alloc: Global,
    pub(crate) path: Path,
    pub(crate) supporters: Supporters,
    // Which entry made what a line may ask for, but for edges and joins.
    pub(crate) made: IndexMap<Premise, u32>,
    // Edges by their two nodes, and joins by either node.
    pub(crate) edges: Chains,
    pub(crate) joins: Chains,
}

impl Support {
    pub(crate) fn new(alloc: Global) -> Support {
        Support {
            alloc,
            path: Path::new(alloc),
            supporters: Supporters::new(alloc),
            made: IndexMap::new(alloc),
            edges: Chains::new(alloc),
            joins: Chains::new(alloc),
        }
    }

    /// Reads a line with these premises, which leaves this of its branch.
    pub(crate) fn put(&mut self, premises: &[Premise], outcome: &Outcome) -> Result<(), NoMemory> {
        self.supporters.begin(true, stays(outcome))?;
        for premise in premises {
            self.rest_on(*premise)?;
        }
        let line = self.path.put()?;
        match outcome {
            Outcome::Closed => self.turn(),
            Outcome::Started(nodes) => self.make_first(line, *nodes),
            Outcome::More(facts) => self.make_all(line, facts),
            Outcome::Nodes(nodes) => self.make_nodes(line, *nodes),
            Outcome::Branches(facts) => {
                self.path.branch_out(facts)?;
                self.turn()
            }
        }
    }

    /// Of each line that was read whether a branching or the end of a branch rests on it, by whichever lines between.
    ///
    /// # Errors
    ///
    /// Out of memory.
    pub(crate) fn needed(self) -> Result<Vec<bool>, NoMemory> {
        let Support {
            alloc,
            supporters,
            ..
        } = self;
        supporters.needed(alloc)
    }

    // Goes on with the next branch that waits, if there is one. Its beginning makes the fact that it has of its own.
    fn turn(&mut self) -> Result<(), NoMemory> {
        match self.path.turn() {
            Some(fact) => {
                self.supporters.begin(false, true)?;
                let branch = self.path.put()?;
                self.make_fact(branch, fact)
            }
            None => Ok(()),
        }
    }

    /// The entry on the path that made the premise.
    pub(crate) fn maker(&self, premise: Premise) -> Option<u32> {
        match self.made.get(&premise) {
            Some(entry) => {
                if self.path.has(*entry) {
                    Some(*entry)
                } else {
                    None
                }
            }
            None => None,
        }
    }

    // Notes that the entry made something, unless one on the path made it before.
    fn make(&mut self, entry: u32, premise: Premise) -> Result<(), NoMemory> {
        if self.maker(premise).is_none() {
            self.made.insert(premise, entry)?;
        }
        Ok(())
    }

    fn make_edge(&mut self, entry: u32, from: u32, to: u32) -> Result<(), NoMemory> {
        self.edges
            .put(&self.path, Premise::Edge(from, to), entry, to)
    }

    fn make_join(&mut self, entry: u32, first: u32, second: u32) -> Result<(), NoMemory> {
        self.joins
            .put(&self.path, Premise::Node(first), entry, second)?;
        self.joins
            .put(&self.path, Premise::Node(second), entry, first)
    }

    fn make_fact(&mut self, entry: u32, fact: Fact<u32>) -> Result<(), NoMemory> {
        match fact {
            Fact::Has(node, number) => self.make(entry, Premise::Has(node, number)),
            Fact::Edge(_, from, to) => self.make_edge(entry, from, to),
            Fact::Apart(first, second) => {
                self.make(entry, Premise::Apart(first.min(second), first.max(second)))
            }
            Fact::Same(first, second) => self.make_join(entry, first, second),
        }
    }

    fn make_all(&mut self, line: u32, facts: &[Fact<u32>]) -> Result<(), NoMemory> {
        for fact in facts {
            self.make_fact(line, *fact)?;
        }
        Ok(())
    }

    fn make_first(&mut self, line: u32, nodes: FirstNodes) -> Result<(), NoMemory> {
        self.make(line, Premise::Has(nodes.asked, nodes.sub))?;
        self.make(line, Premise::Has(nodes.asked, nodes.not_sup))
    }

    fn make_nodes(&mut self, line: u32, nodes: NewNodes) -> Result<(), NoMemory> {
        for place in 0..nodes.count {
            let node = nodes.first.saturating_add(place);
            self.make(line, Premise::Node(node))?;
            self.make(line, Premise::Has(node, nodes.concept))?;
            self.make_edge(line, nodes.from, node)?;
            self.make_apart(line, nodes, place)?;
        }
        Ok(())
    }

    // The node at a place is apart from those after it.
    fn make_apart(&mut self, line: u32, nodes: NewNodes, place: u32) -> Result<(), NoMemory> {
        let node = nodes.first.saturating_add(place);
        for later in place.saturating_add(1)..nodes.count {
            self.make(
                line,
                Premise::Apart(node, nodes.first.saturating_add(later)),
            )?;
        }
        Ok(())
    }
}

// Whether a line that leaves this of its branch stays in any case.
fn stays(outcome: &Outcome) -> bool {
    match outcome {
        Outcome::Closed | Outcome::Started(_) | Outcome::Branches(_) => true,
        Outcome::More(_) | Outcome::Nodes(_) => false,
    }
}
