// Which sets of axioms are wanted.

/// Which sets of axioms are wanted of a query.
#[derive(Clone, Copy, Debug, PartialEq, Eq)]
pub enum Wanted {
    /// The smallest sets from which it follows.
    Justifications,
    /// The smallest sets without which it does not follow any more.
    Repairs,
}
