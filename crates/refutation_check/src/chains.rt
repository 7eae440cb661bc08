// Entries of a path that are found by what they made.
use crate::NoMemory;
use crate::path::Path;
use indexmap::IndexMap;
use refutation_rules::Premise;
use std::alloc::Global;

/// An entry that made something, the node to which this leads, and the place of the link before it.
#[derive(Clone, Copy, Debug)]
pub(crate) struct Link {
    pub(crate) entry: u32,
    pub(crate) node: u32,
    pub(crate) before: Option<usize>,
}

/// For each key a chain of links, the latest first. Only entries on the path count: one that has left it never comes
/// back, so that its link is cut off for good, and each is cut off once.
#[derive(Drop)]
pub(crate) struct Chains {
    heads: IndexMap<Premise, Option<usize>>,
    links: Vec<Link>,
}

impl Chains {
    pub(crate) fn new(alloc: Global) -> Chains {
        Chains {
            heads: IndexMap::new(alloc),
            links: Vec::new(alloc),
        }
    }

    /// How many links there were ever.
    pub(crate) fn len(&self) -> usize {
        self.links.len()
    }

    /// Puts a link at the head of a chain.
    pub(crate) fn put(
        &mut self,
        path: &Path,
        key: Premise,
        entry: u32,
        node: u32,
    ) -> Result<(), NoMemory> {
        let before = self.head(path, key)?;
        let place = self.links.len();
        self.links.push(Link {
            entry,
            node,
            before,
        })?;
        self.heads.insert(key, Some(place))?;
        Ok(())
    }

    /// The place of the latest link of a chain. Those behind it are on the path too.
    pub(crate) fn head(&mut self, path: &Path, key: Premise) -> Result<Option<usize>, NoMemory> {
        let Some(head) = self.heads.get(&key).copied() else {
            return Ok(None)
        };
        let cut = self.on_path(path, head);
        if cut != head {
            self.heads.insert(key, cut)?;
        }
        Ok(cut)
    }

    // The first place from a head on whose link is on the path.
    fn on_path(&self, path: &Path, head: Option<usize>) -> Option<usize> {
        let mut place = head;
        for _ in 0..self.links.len() {
            match self.link(place) {
                Some(link) => {
                    if path.has(link.entry) {
                        return place;
                    }
                    place = link.before;
                }
                None => return None,
            }
        }
        None
    }

    /// The link at a place.
    pub(crate) fn link(&self, place: Option<usize>) -> Option<Link> {
        match place {
            Some(at) => self.links.get(at).copied(),
            None => None,
        }
    }
}
