//! Refutations: rule lines, what each adds to what is known, and when a tree of them shuts every branch.
//!
//! A refutation is a closed tableau, written down: a tree of rule applications, each of whose branches ends in a clash,
//! in preorder. Its rules are those of the tableau calculi for SHQ (Horrocks, Sattler and Tobies, "Practical Reasoning
//! for Expressive Description Logics", 1999), but for three things. A line names the premises that it uses, so that a
//! checker searches for nothing. Nothing is said of blocking or of an order of the rules, which are matters of search
//! alone. And a general inclusion is used by a row, at nodes that have some of its class names already.
ghost use Rattle.calculus_specs.specs.RefutationLaws.{StackFindsTrees, LinesAreJudged};

/// Lines that a stack of open branches takes to its end are the preorder of one shut tree, and those of a shut tree are
/// taken to the end.
pub fn a_stack_of_open_branches_finds_shut_trees()
    ensures { StackFindsTrees }
{}

/// Lines are a refutation, or break the rules at exactly one place.
pub fn lines_are_valid_or_broken_at_one_place()
    ensures { LinesAreJudged }
{}
