// What a fact is shown as.

use refutation_truth::Concept;

/// A fact of an axiom, whose number comes first. Roles and individuals are numbers.
#[derive(Clone, Copy)]
pub enum Given<'a> {
    /// The individual is in the class expression.
    Member(u32, &'a Concept, u32),
    /// The role leads from the first individual to the second.
    Pair(u32, u32, u32, u32),
    /// The two individuals are the same.
    Same(u32, u32, u32),
    /// The two individuals are different.
    Differ(u32, u32, u32),
}
