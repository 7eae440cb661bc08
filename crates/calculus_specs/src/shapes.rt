//! Concepts in normal form and the shapes by which a table keeps them, the parts of an axiom and the rows of a part,
//! and roles below others: what the tableau calculus and its refutations speak of.
//!
//! - **Negation normal form.** A complement stands on class names alone. Beyond that, intersections and unions are
//!   flat, and the cardinalities 0 and 1 are written by other operators where these say the same, so that fewer equal
//!   concepts have different forms.
//! - **A table of shapes.** Each concept of a search has a number, and its parts have numbers below it. Equal concepts
//!   have equal numbers (hash consing), so that a comparison is one of numbers.
//! - **Parts and rows.** An axiom is a list of inclusions and ranges, its parts. An inclusion is used by one of its
//!   rows: at every node, or only at nodes that have some of the class names on its left or an edge of some role
//!   (absorption; Horrocks and Tobies, "Reasoning with Axioms: Theory and Practice", 2000). Here any choice of names on
//!   the left may trigger a row, and the axiom itself is never rewritten.
//! - **Role inclusion and simple roles** are those of the OWL 2 Structural Specification, section 11.
ghost use Rattle.calculus_specs.specs.ShapeLaws.{NormalFormsAreNotDeeper, TestIsEquality, TableGrows};
ghost use Rattle.calculus_specs.specs.ShapeLaws.{TreesFollowShapes, NumbersAreUnique};

/// The roles of a normal form, or of that of the complement, nest no deeper than those of the concept.
pub fn normal_forms_are_not_deeper()
    ensures { NormalFormsAreNotDeeper }
{}

/// The test whether two concepts are the same tree answers yes for equal trees, and for no others.
pub fn equal_trees_are_found_equal()
    ensures { TestIsEquality }
{}

/// A concept that is added to a table leaves each number that the table had its tree.
pub fn numbers_keep_their_trees()
    ensures { TableGrows }
{}

/// The tree of a number is made of its shape and the trees of the parts.
pub fn trees_follow_shapes()
    ensures { TreesFollowShapes }
{}

/// In a table of concepts in normal form no two numbers have the same tree.
pub fn numbers_are_unique()
    ensures { NumbersAreUnique }
{}
