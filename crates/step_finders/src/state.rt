// What finders read.
ghost use Rattle.std.specs.Prelude.{◌≡◌, ℕ, ◌+◌, ◌<◌, ◌==◌, ◌^◌, ◌↔◌, true, List, MatchOption, IsTrue, IsNone, IfSome};
ghost use Rattle.calculus_specs.specs.declared.facts.Fact.{Fact as PlainFact};
ghost use Rattle.calculus_specs.specs.Joins.{rep};
ghost use Rattle.calculus_specs.specs.State.{node_count_from, parent_from, has as holds, has_edge};
ghost use Rattle.calculus_specs.specs.State.{are_apart as kept_apart};
ghost use Rattle.calculus_specs.specs.Shape.{shape_of, IsTable};
ghost use Rattle.calculus_specs.specs.Tree.{IsComplement};
ghost use Rattle.calculus_specs.specs.Rows.{IsChoice};
ghost use Rattle.shq_nnf.specs.Shapes.{form_of};
ghost use Rattle.tableau_specs.specs.declared.Block.TheVariants.{Clear};
ghost use Rattle.tableau_specs.specs.Blocked.{block_of};
ghost use Rattle.tableau_specs.specs.Steps.{SearchContext, below_of};
ghost use Rattle.tableau_specs.specs.LineLaws.{RangesAreFirst};
ghost use Rattle.step_finders.specs.Clashing.{AreMosts};
ghost use Rattle.calculus_specs.specs.Listed.{IsLabel, AreEdges, AreJoined};
ghost use Rattle.step_finders.specs.Giving.{AreGiven, AreGivenInto};
ghost use Rattle.step_finders.specs.Found.{AreCarriesOf, Files, AreFiled};

use calculus_specs::Fact;
use shq_nnf::{NumberList, Shape};

/// A state of a search, as a list of facts.
pub trait State {
    ghost facts: { Self → List (PlainFact ℕ) };

    // How many of its nodes are first ones.
    ghost first: { Self → ℕ };

    /// How many nodes there are.
    fn nodes(&self) -> u32
        ensures count { result ≡ node_count_from (first self.now) (facts self.now) }
        ensures small { result + 200 < 2 ^ 32 };

    /// The representative of a node.
    fn representative(&self, node: u32) -> u32
        ensures { result ≡ rep (facts self.now) node };

    /// The nodes that are one with a node, itself among them.
    fn members(&self, node: u32) -> &[u32]
        requires { node < node_count_from (first self.now) (facts self.now) }
        ensures { AreJoined (facts self.now) (node_count_from (first self.now) (facts self.now)) node result.now };

    /// The parent of a node, which first nodes do not have.
    fn parent(&self, node: u32) -> Option<u32>
        requires { node < node_count_from (first self.now) (facts self.now) }
        ensures { result ≡ parent_from (first self.now) (facts self.now) node };

    /// The first edge into a node: its role, and the node where it begins. First nodes have none.
    fn origin(&self, node: u32) -> Option<(u32, u32)>
        requires { node < node_count_from (first self.now) (facts self.now) }
        ensures none { IsNone result → node < first self.now }
        ensures some { IfSome result
            (λ o. (has_edge (facts self.now) (λ s. s == o.0) o.1 node ≡ true)
            × (parent_from (first self.now) (facts self.now) node ≡ Some o.1)) };

    /// Whether the node has the concept.
    fn has(&self, node: u32, concept: u32) -> bool
        ensures { result ≡ holds (facts self.now) node concept };

    /// What the node has.
    fn label(&self, node: u32) -> &[u32]
        ensures { IsLabel (facts self.now) node result.now };

    /// The edges that begin at the node, each as its role and a node, whose representative is the end.
    fn edges(&self, node: u32) -> &[(u32, u32)]
        ensures { AreEdges (facts self.now) node result.now };

    /// Whether two nodes are apart.
    fn are_apart(&self, one: u32, other: u32) -> bool
        requires one { one < node_count_from (first self.now) (facts self.now) }
        requires other { other < node_count_from (first self.now) (facts self.now) }
        ensures { result ≡ kept_apart (facts self.now) one other };
}

/// A state of a search of which the blocks of all nodes are known. Only whether nodes may be made rests on these, so
/// all other steps are found in a [`State`].
pub trait StateWithBlocks: State {
    /// Whether nodes may be made below a representative.
    fn is_clear(&self, node: u32) -> bool
        ensures { IsTrue result ↔ (block_of (Self.first self.now) (Self.facts self.now) node ≡ Clear) };
}

/// A row that waits for no concept.
#[derive(Clone, Copy, Debug, PartialEq, Eq)]
pub struct PlainRow {
    /// The number of its axiom.
    pub axiom: u32,
    /// The number of its part in the axiom, from 1.
    pub part: u32,
    /// The number of the concept that it gives.
    pub gives: u32,
}

/// A row that is used at nodes with all of some names.
#[derive(Drop)]
pub struct NamedRow {
    /// The number of its axiom.
    pub axiom: u32,
    /// The number of its part in the axiom, from 1.
    pub part: u32,
    /// The positions, from 1, of the conjuncts that it waits for.
    pub positions: NumberList,
    /// The numbers of these conjuncts, in the same order.
    pub waits: NumberList,
    /// The number of the concept that it gives.
    pub gives: u32,
}

/// A fact that an axiom gives to first nodes.
#[derive(Clone, Copy, Debug, PartialEq, Eq)]
pub struct Given {
    /// The number of the axiom.
    pub axiom: u32,
    /// The number of the fact among those of the axiom, from 1.
    pub place: u32,
    /// The fact, over the numbers of concepts.
    pub fact: Fact<u32>,
}

/// The concepts, roles, rows and given facts that a search uses.
pub trait Rules {
    ghost context: { Self → SearchContext };

    ghost files: { Self → Files };

    /// How many first nodes there are.
    fn first(&self) -> u32
        ensures { result ≡ (context self.now).first };

    /// The facts that axioms give.
    fn given(&self) -> &[Given]
        ensures { AreGiven (context self.now) result.now };

    /// The role and the beginning of each edge to a node that axioms give. Only first nodes have such edges.
    fn given_into(&self, node: u32) -> &[(u32, u32)]
        ensures { AreGivenInto (context self.now) node result.now };

    /// The shape of a concept.
    fn shape(&self, concept: u32) -> Shape<'_>
        ensures { form_of result ≡ shape_of (context self.now).table concept };

    /// Whether a role is below another.
    fn is_below(&self, lower: u32, upper: u32) -> bool
        ensures { result ≡ below_of (context self.now) lower upper };

    /// The transitive roles below that of a universal restriction, each with its restriction of the same filler.
    fn carries(&self, concept: u32) -> &[(u32, u32)]
        ensures { AreCarriesOf (context self.now) (shape_of (context self.now).table concept) result.now };

    /// The number of a concept's complement, if it has one.
    fn complement(&self, concept: u32) -> Option<u32>
        ensures { MatchOption result ((d : ℕ) → ¬ IsComplement (context self.now).table concept d)
            (λ d. IsComplement (context self.now).table concept d) };

    /// Each 'at most' with this filler.
    fn mosts(&self, filler: u32) -> &[u32]
        ensures { AreMosts (context self.now).table filler result.now };

    /// The rows that are used at each node.
    fn general(&self) -> &[PlainRow]
        ensures { result.now ≡ (files self.now).general };

    /// The rows that wait for this concept, among others.
    fn named(&self, concept: u32) -> &[NamedRow]
        ensures { result.now ≡ (files self.now).named concept };

    /// The rows that are used where an edge of the role begins.
    fn at_begins(&self, role: u32) -> &[PlainRow]
        ensures { result.now ≡ (files self.now).begins role };

    /// The rows that are used where an edge of the role ends.
    fn at_ends(&self, role: u32) -> &[PlainRow]
        ensures { result.now ≡ (files self.now).ends role };

    /// What is always so of rules. Nothing is computed.
    fn is_ready(&self)
        ensures rooted { 0 < (context self.now).first }
        ensures tabled { IsTable (context self.now).table }
        ensures chosen { IsChoice (context self.now).theory (context self.now).table (context self.now).rows }
        ensures ranged { RangesAreFirst (context self.now).theory }
        ensures filed { AreFiled (context self.now) (files self.now) };
}
