// The branches that are open.
ghost use Rattle.std.specs.Prelude.{◌≡◌, ◌+◌, ◌^◌, ◌≤◌, false, [], ◌∷◌, ◌++◌, OnOk, length, map};
ghost use Rattle.std.specs.List.{list_any, range_with_len};
ghost use Rattle.calculus_specs.specs.State.{apart_from, pairwise_apart};
ghost use Rattle.refutation_rules.specs.NumberedBranch.{has_node};
ghost use Rattle.refutation_rules.specs.Outcomes.{branches_after, started_branch};
ghost use Rattle.refutation_check.specs.Open.{branches, branches_for, waiting_with, with_new_nodes, facts_of_new};
ghost use Rattle.refutation_check.specs.Open.{knowing, knowing_nodes, IsReady};

use crate::NoMemory;
use refutation_rules::{BranchFacts, Fact, FirstNodes, Mark, NewNodes, Outcome};
use std::alloc::Global;
use std::marker::Model;

// A branch that waits: it begins as the one that is read does up to the mark, and has this fact of its own there.
#[derive(Clone, Copy, Debug)]
pub(crate) struct Pending {
    mark: Mark,
    fact: Fact<u32>,
}

/// The open branches of a refutation: the one that is read, and those that wait.
#[derive(Drop)]
pub(crate) struct OpenBranches {
    branch: BranchFacts,
    pending: Vec<Pending>,
    closed: bool,
}

impl Model for OpenBranches {
    ghost use Rattle.std.specs.Prelude.{length, reverse};
    ghost use Rattle.refutation_check.specs.Open.{Open, branches_at, AreWithin};

    ghost Value = { Open };

    ghost view = { λ o. record {
      branch = o.branch;
      waiting = branches_at o.branch o.pending.items;
      closed = o.closed;
    } };

    ghost invariant = { λ o. AreWithin (length o.branch.nodes) (length o.branch.facts) (reverse o.pending.items) };
}

impl OpenBranches {
    ghost use Rattle.refutation_check.specs.Open.{Open};

    /// One branch that knows nothing.
    pub(crate) fn new(alloc: Global) -> OpenBranches
        ensures { branches result ≡ (record { nodes = []; facts = [] }) ∷ [] }
    {
        OpenBranches {
            branch: BranchFacts::new(alloc),
            pending: Vec::new(alloc),
            closed: false,
        }
    }

    /// Whether no branch is open.
    pub(crate) fn is_closed(&self) -> bool
        ensures { result ≡ self.now.closed }
    {
        self.closed
    }

    /// The branch that is read.
    pub(crate) fn branch(&self) -> &BranchFacts
        ensures { result.now ≡ self.now.branch }
    {
        &self.branch
    }

    /// Puts what a line leaves of the branch in its place.
    ///
    /// # Errors
    ///
    /// Out of memory. What is open then is no longer that of the lines that were read.
    pub(crate) fn apply(&mut self, outcome: &Outcome) -> Result<(), NoMemory>
        requires open { self.old.closed ≡ false }
        requires ready { IsReady self.old.branch outcome.now }
        ensures { OnOk result (branches self.new ≡ branches_after self.old.branch outcome.now ++ self.old.waiting) }
    {
        match outcome {
            Outcome::Closed => self.close(),
            Outcome::Started(nodes) => self.start(nodes),
            Outcome::More(facts) => self.add_all(facts),
            Outcome::Nodes(nodes) => self.add_nodes(nodes),
            Outcome::Branches(facts) => self.branch_out(facts),
        }
    }

    // Goes on with the next branch that waits.
    fn close(&mut self) -> Result<(), NoMemory>
        requires { self.old.closed ≡ false }
        ensures { OnOk result (branches self.new ≡ self.old.waiting) }
    {
        match self.pending.pop() {
            None => {
                self.closed = true;
                Ok(())
            }
            Some(next) => {
                self.branch.undo_to(next.mark);
                self.branch.add(next.fact)?;
                Ok(())
            }
        }
    }

    // Lets a branch wait for each fact, where it has this fact more, and goes on with the first of them.
    fn branch_out(&mut self, facts: &[Fact<u32>]) -> Result<(), NoMemory>
        requires { self.old.closed ≡ false }
        ensures { OnOk result (branches self.new ≡ branches_for self.old.branch facts.now ++ self.old.waiting) }
    {
        let mark = self.branch.mark();
        for place in 0..facts.len() {
            let fact = facts[facts.len() - 1 - place];
            self.put_pending(Pending { mark, fact })?;
        }
        self.close()
    }

    // Lets one branch more wait.
    fn put_pending(&mut self, pending: Pending) -> Result<(), NoMemory>
        requires nodes { pending.mark.nodes ≡ length self.old.branch.nodes }
        requires facts { pending.mark.facts ≡ length self.old.branch.facts }
        ensures { OnOk result (self.new ≡ waiting_with self.old pending.fact) }
    {
        self.pending.push(pending)?;
        Ok(())
    }

    // Knows a fact more in the branch that is read.
    fn add(&mut self, fact: Fact<u32>) -> Result<(), NoMemory>
        ensures { OnOk result (self.new ≡ knowing self.old (fact ∷ [])) }
    {
        self.branch.add(fact)?;
        Ok(())
    }

    // Knows a node more there.
    fn add_node(&mut self, node: u32) -> Result<(), NoMemory>
        requires { has_node self.old.branch node ≡ false }
        ensures { OnOk result (self.new ≡ knowing_nodes self.old (node ∷ [])) }
    {
        self.branch.add_node(node)?;
        Ok(())
    }

    // Knows several facts more there.
    fn add_all(&mut self, facts: &[Fact<u32>]) -> Result<(), NoMemory>
        ensures { OnOk result (self.new ≡ knowing self.old facts.now) }
    {
        for fact in facts {
            self.add(*fact)?;
        }
        Ok(())
    }

    // Knows the first nodes alone, and the concepts of the one in question.
    fn start(&mut self, nodes: &FirstNodes) -> Result<(), NoMemory>
        requires nodes { self.old.branch.nodes ≡ [] }
        requires facts { self.old.branch.facts ≡ [] }
        requires small { nodes.now.count ≤ 2 ^ 32 }
        ensures { OnOk result (self.new ≡ record self.old { branch = started_branch nodes.now }) }
    {
        self.know_all(0, nodes.count)?;
        self.add(Fact::Has(nodes.asked, nodes.sub))?;
        self.add(Fact::Has(nodes.asked, nodes.not_sup))
    }

    // Knows new nodes and what is said of them.
    fn add_nodes(&mut self, nodes: &NewNodes) -> Result<(), NoMemory>
        requires small { nodes.now.first + nodes.now.count ≤ 2 ^ 32 }
        requires new { list_any (has_node self.old.branch) (range_with_len nodes.now.first nodes.now.count) ≡ false }
        ensures { OnOk result (self.new ≡ with_new_nodes self.old nodes.now) }
    {
        self.know_all(nodes.first, nodes.count)?;
        self.add_edges(nodes)?;
        self.keep_apart(nodes.first, nodes.count)
    }

    // Knows so many nodes more from the first one on.
    #[tactic(auto, using(crate::proofs::Ranges::next_is_new))]
    fn know_all(&mut self, first: u32, count: u32) -> Result<(), NoMemory>
        requires small { first + count ≤ 2 ^ 32 }
        requires new { list_any (has_node self.old.branch) (range_with_len first count) ≡ false }
        ensures { OnOk result (self.new ≡ knowing_nodes self.old (range_with_len first count)) }
    {
        for place in 0..count {
            self.add_node(first + place)?;
        }
        Ok(())
    }

    // Knows of each new node the edge that leads to it, and its concept.
    fn add_edges(&mut self, nodes: &NewNodes) -> Result<(), NoMemory>
        requires small { nodes.now.first + nodes.now.count ≤ 2 ^ 32 }
        ensures { OnOk result (self.new ≡ knowing self.old (facts_of_new nodes.now)) }
    {
        for place in 0..nodes.count {
            self.add(Fact::Edge(nodes.role, nodes.from, nodes.first + place))?;
            self.add(Fact::Has(nodes.first + place, nodes.concept))?;
        }
        Ok(())
    }

    // Keeps so many nodes from the first one on apart, each from those after it.
    fn keep_apart(&mut self, first: u32, count: u32) -> Result<(), NoMemory>
        requires small { first + count ≤ 2 ^ 32 }
        ensures { OnOk result (self.new ≡ knowing self.old (pairwise_apart first count)) }
    {
        for place in 0..count {
            self.keep_from(first + place, count - 1 - place)?;
        }
        Ok(())
    }

    // Keeps a node apart from so many that follow it.
    fn keep_from(&mut self, node: u32, count: u32) -> Result<(), NoMemory>
        requires small { node + 1 + count ≤ 2 ^ 32 }
        ensures { OnOk result (self.new ≡ knowing self.old (apart_from node (node + 1) count)) }
    {
        for place in 0..count {
            self.add(Fact::Apart(node, node + 1 + place))?;
        }
        Ok(())
    }
}
