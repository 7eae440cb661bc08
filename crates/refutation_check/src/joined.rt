// Nodes that are one by what lines have joined.
use crate::NoMemory;
use crate::chains::Chains;
use crate::path::Path;
use indexmap::IndexMap;
use refutation_rules::Premise;
use std::alloc::Global;

// The entry that joined a node, and the place of the other node among those that are one.
#[derive(Clone, Copy, Debug)]
struct Step {
    entry: u32,
    from: usize,
}

/// The nodes that are one with a node, itself first, and how each was reached from it.
#[derive(Drop)]
pub(crate) struct Joined {
    steps: IndexMap<u32, Option<Step>>,
}

impl Joined {
    /// The nodes that are one with this one by joins on the path. Each join is found by either of its nodes.
    pub(crate) fn with(
        alloc: Global,
        node: u32,
        joins: &mut Chains,
        path: &Path,
    ) -> Result<Joined, NoMemory> {
        let mut joined = Joined {
            steps: IndexMap::new(alloc),
        };
        joined.steps.insert(node, None)?;
        joined.spread(joins, path)?;
        Ok(joined)
    }

    // Takes in what is joined with the nodes, the first of them first.
    fn spread(&mut self, joins: &mut Chains, path: &Path) -> Result<(), NoMemory> {
        for place in 0..joins.len().saturating_add(1) {
            match self.node(place) {
                Some(node) => {
                    let head = joins.head(path, Premise::Node(node))?;
                    self.spread_from(place, head, joins)?;
                }
                None => return Ok(()),
            }
        }
        Ok(())
    }

    // Takes in what is joined with the node at a place, by the links from a head on.
    fn spread_from(
        &mut self,
        place: usize,
        head: Option<usize>,
        joins: &Chains,
    ) -> Result<(), NoMemory> {
        let mut at = head;
        for _ in 0..joins.len() {
            let Some(link) = joins.link(at) else {
                return Ok(())
            };
            if !self.steps.contains_key(&link.node) {
                let step = Step {
                    entry: link.entry,
                    from: place,
                };
                self.steps.insert(link.node, Some(step))?;
            }
            at = link.before;
        }
        Ok(())
    }

    /// How many nodes are one.
    pub(crate) fn len(&self) -> usize {
        self.steps.len()
    }

    /// The node at a place.
    pub(crate) fn node(&self, place: usize) -> Option<u32> {
        match self.steps.get_index(place) {
            Some((node, _)) => Some(*node),
            None => None,
        }
    }

    /// The place of a node.
    pub(crate) fn place_of(&self, node: u32) -> Option<usize> {
        self.steps.get_index_of(&node)
    }

    /// The entry whose join led to the node at a place, and the place that it led from.
    pub(crate) fn step_to(&self, place: usize) -> Option<(u32, usize)> {
        match self.steps.get_index(place) {
            Some((_, Some(step))) => Some((step.entry, step.from)),
            Some((_, None)) | None => None,
        }
    }
}
