// The lines of a refutation.
ghost use Rattle.refutation_tree.specs.RuleLine.{line_of, NamesConcept};

use certificate_lines::NumberList;

/// A line of a refutation. Lines stand in preorder of the tree of branches.
///
/// In the fields `X`, `Y` and `Z` are nodes, and `C` is the number of a concept among the refutation's shapes.
#[derive(Drop)]
pub enum Line {
    /// The first nodes, one of which is in the query's subclass and in the complement of its superclass.
    Start,
    /// `X C`: the parts of an intersection.
    And(u32, u32),
    /// `X C`: a branch for each part of a union.
    Or(u32, u32),
    /// `X Y C`: what a universal restriction says of a successor.
    All(u32, u32, u32),
    /// `X Y ROLE C`: a universal restriction that a transitive role passes on to a successor.
    Carry(u32, u32, u32, u32),
    /// `X A P I ..`: the row of the part numbered `P` of the axiom numbered `A`, for the conjuncts at these positions.
    Row(u32, u32, u32, NumberList),
    /// `X Y A`: what the range axiom numbered `A` says of a successor.
    Range(u32, u32, u32),
    /// `X Y C`: a new successor for an existential restriction.
    SomeOf(u32, u32, u32),
    /// `X Y C`: new successors for an "at least" restriction, the first of which is `Y`.
    Least(u32, u32, u32),
    /// `Y C`: a branch where `Y` is in a concept, and one where it is not.
    Choose(u32, u32),
    /// `Y Z`: a branch where two nodes are the same, and one where they are not.
    Pair(u32, u32),
    /// `X`: a node in `owl:Nothing`.
    Bottom(u32),
    /// `X C`: a node in a class and in its complement.
    Clash(u32, u32),
    /// `X C Y ..`: more successors than an "at most" restriction allows.
    Most(u32, u32, NumberList),
    /// `A P`: the fact numbered `P` of the assertion numbered `A`.
    Fact(u32, u32),
    /// `Y Z`: two nodes that are different and the same.
    Differ(u32, u32),
}

impl Line {
    /// The number of the concept that the line names.
    pub fn concept(&self) -> Option<u32>
        ensures { NamesConcept (line_of self.now) result }
    {
        match self {
            Line::And(_, concept) | Line::Or(_, concept) => Some(*concept),
            Line::All(_, _, concept) | Line::Carry(_, _, _, concept) => Some(*concept),
            Line::SomeOf(_, _, concept) | Line::Least(_, _, concept) => Some(*concept),
            Line::Choose(_, concept) | Line::Clash(_, concept) => Some(*concept),
            Line::Most(_, concept, _) => Some(*concept),
            Line::Row(..) | Line::Range(..) | Line::Fact(..) => None,
            Line::Start | Line::Pair(..) | Line::Bottom(..) | Line::Differ(..) => None,
        }
    }
}
