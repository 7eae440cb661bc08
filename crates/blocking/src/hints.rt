// What each node had when its block was found last, so that most blocks need not be looked for anew.
ghost use Rattle.std.specs.Prelude.{◌≡◌, ℕ, ◌<◌, ◌≤◌, ◌^◌, length, take, [], ◌∷◌, ◌++◌, slice_index, IsTrue, IfOk};
ghost use Rattle.std.specs.Prelude.{OnOk, OnErr};
ghost use Rattle.std.specs.Prelude.{slice_set};
ghost use Rattle.lane_sieve.specs.Words.{places};
ghost use Rattle.blocking.specs.Hinted.{known_at, known_of, known_with, is_among, no_hints, IsShown, IsHint, IsHintAt};
ghost use Rattle.blocking.specs.Hinted.{AreExact, AreShown};

use crate::Block;
use calculus_specs::NoMemory;
use lane_sieve::{Lanes, candidates};
use std::alloc::Global;
use std::marker::Model;

/// What a node had, whether it could block others, and its block, as a hint: that it is under a block says nothing.
#[derive(Drop)]
pub(crate) struct Known {
    label: Vec<u32>,
    may_block: bool,
    hint: Block,
}

impl Model for Known {
    ghost use Rattle.blocking.specs.Hinted.{KnownNode};

    ghost Value = { KnownNode };

    ghost view = { λ k. record { label = k.label.items; may_block = k.may_block; hint = k.hint } };
}

impl Known {
    /// Of a node with these concepts.
    ///
    /// # Errors
    ///
    /// Out of memory.
    pub(crate) fn new(
        heap: Global,
        concepts: &[u32],
        may_block: bool,
        hint: Block,
    ) -> Result<Known, NoMemory>
        ensures { IfOk result (λ k. k ≡ known_of concepts.now may_block hint) }
    {
        let mut label = Vec::new(heap);
        label.extend_from_slice(concepts)?;
        Ok(Known {
            label,
            may_block,
            hint,
        })
    }

    // Whether it has these concepts, in the same order.
    fn has_label(&self, concepts: &[u32]) -> bool
        ensures { IsTrue result → self.now.label ≡ concepts.now }
    {
        self.label.as_slice() == concepts
    }

    // Whether it could block others.
    fn may_block(&self) -> bool
        ensures { result ≡ self.now.may_block }
    {
        self.may_block
    }

    // Its block, as a hint.
    fn hint(&self) -> Block
        ensures { result ≡ self.now.hint }
    {
        self.hint
    }

    // With another hint.
    fn set_hint(&mut self, hint: Block)
        ensures { self.new ≡ record self.old { hint = hint } }
    {
        self.hint = hint;
    }
}

/// What is known of each node from 0 on, the prints of those that may block others, and the nodes that have changed
/// since the hints were found. A hint holds of all other nodes.
#[derive(Drop)]
pub(crate) struct Hints {
    known: Vec<Known>,
    prints: Lanes,
    changed: Vec<u32>,
}

impl Model for Hints {
    ghost use Rattle.std.specs.Prelude.{◌≡◌, length};
    ghost use Rattle.blocking.specs.Hinted.{HintLists, AreShown, AreHints};

    ghost Value = { HintLists };

    ghost view = { λ h. record { known = h.known.items; prints = h.prints; changed = h.changed.items } };

    ghost invariant = { λ h. (length h.prints ≡ length h.known.items) × AreShown h.known.items h.prints
        × AreHints h.known.items h.changed.items };
}

impl Hints {
    /// Of no node. It takes no memory.
    pub(crate) fn new(heap: Global) -> Hints
        ensures { result ≡ no_hints }
    {
        Hints {
            known: Vec::new(heap),
            prints: Lanes::new(heap),
            changed: Vec::new(heap),
        }
    }

    /// Of how many nodes something is known.
    pub(crate) fn len(&self) -> u32
        ensures { result ≡ length self.now.known }
    {
        let _ = &self.known;
        self.prints.len()
    }

    /// Whether a node had these concepts.
    pub(crate) fn has_label(&self, node: u32, concepts: &[u32]) -> bool
        ensures known { IsTrue result → node < length self.now.known }
        ensures label { IsTrue result → (known_at self.now.known node).label ≡ concepts.now }
    {
        if node >= self.len() {
            return false;
        }
        self.known[node as usize].has_label(concepts)
    }

    /// Whether a node could block others.
    pub(crate) fn may_block(&self, node: u32) -> bool
        requires { node < length self.now.known }
        ensures { result ≡ (known_at self.now.known node).may_block }
    {
        self.known[node as usize].may_block()
    }

    /// The block of a node, as a hint.
    pub(crate) fn hint(&self, node: u32) -> Block
        requires { node < length self.now.known }
        ensures hint { result ≡ (known_at self.now.known node).hint }
        ensures holds { IsHintAt self.now.known self.now.changed node }
    {
        let _ = &self.changed;
        self.known[node as usize].hint()
    }

    /// The nodes that have changed since the hints were found.
    pub(crate) fn changed(&self) -> &[u32]
        ensures { result.now ≡ self.now.changed }
    {
        self.changed.as_slice()
    }

    /// Whether a node has changed since the hints were found.
    pub(crate) fn has_changed(&self, node: u32) -> bool
        ensures { result ≡ is_among node self.now.changed }
    {
        self.changed.contains(&node)
    }

    /// Gives a node another hint.
    pub(crate) fn renew(&mut self, node: u32, hint: Block)
        requires there { node < length self.old.known }
        requires hint { IsHint self.old.known [] node (known_at self.old.known node).label hint }
        ensures known { let k = known_at self.old.known node in
            self.new.known ≡ slice_set self.old.known node (known_of k.label k.may_block hint) }
    {
        self.known[node as usize].set_hint(hint);
    }

    /// Knows this of a node, which has changed where something else was known of it.
    ///
    /// # Errors
    ///
    /// Out of memory. What is known is as before.
    pub(crate) fn put(&mut self, node: u32, known: Known, print: [u64; 4]) -> Result<(), NoMemory>
        requires there { node ≤ length self.old.known }
        requires hint { IsHint self.old.known [] node known.label known.hint }
        requires shown { IsShown known.may_block known.label print }
        ensures put { OnOk result (self.new.known ≡ known_with self.old.known node known) }
        ensures unchanged { OnErr result (self.new.known ≡ self.old.known) }
    {
        if node < self.len() {
            self.change(node, known, print)
        } else {
            self.push(known, print)
        }
    }

    // Knows this of a node of which something else was known.
    fn change(&mut self, node: u32, known: Known, print: [u64; 4]) -> Result<(), NoMemory>
        requires there { node < length self.old.known }
        requires hint { IsHint self.old.known [] node known.label known.hint }
        requires shown { IsShown known.may_block known.label print }
        ensures put { OnOk result (self.new.known ≡ slice_set self.old.known node known) }
        ensures unchanged { OnErr result (self.new.known ≡ self.old.known) }
    {
        self.changed.push(node)?;
        self.prints.set(node, print);
        self.known[node as usize] = known;
        Ok(())
    }

    // Knows this of one node more.
    fn push(&mut self, known: Known, print: [u64; 4]) -> Result<(), NoMemory>
        requires hint { IsHint self.old.known [] (length self.old.known) known.label known.hint }
        requires shown { IsShown known.may_block known.label print }
        ensures put { OnOk result (self.new.known ≡ self.old.known ++ known ∷ []) }
        ensures unchanged { OnErr result (self.new.known ≡ self.old.known) }
    {
        let len = self.prints.len();
        self.prints.push(print)?;
        match self.known.push(known) {
            Ok(()) => Ok(()),
            Err(_) => {
                self.prints.cut(len);
                Err(NoMemory)
            }
        }
    }

    /// Knows what there is of the nodes below `len` alone, whose hints hold of all nodes. None has changed then.
    pub(crate) fn settle(&mut self, len: u32)
        requires there { len ≤ length self.old.known }
        requires exact { AreExact self.old.known len }
        ensures { self.new.known ≡ take len self.old.known }
    {
        self.known.truncate(len as usize);
        self.prints.cut(len);
        self.changed.truncate(0);
    }

    /// Writes the nodes whose prints have this one in them to the front, and answers how many these are.
    pub(crate) fn sift(&self, print: &[u64; 4], found: &mut Vec<u32>) -> usize
        requires { length self.now.known ≤ length found.old.items }
        ensures found { take result found.new.items ≡ places 0 print.now self.now.prints }
        ensures within { result ≤ length found.new.items }
        ensures length { length found.new.items ≡ length found.old.items }
        ensures fits { (i : ℕ) → slice_index print.now i < 2 ^ 64 }
        ensures shown { AreShown self.now.known self.now.prints }
        ensures each { length self.now.prints ≡ length self.now.known }
    {
        candidates(*print, &self.prints, found.as_mut_slice())
    }
}
