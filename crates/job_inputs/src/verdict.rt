// What the verification of a certificate says.

/// What a certificate shows.
#[derive(Clone, Copy, Debug, PartialEq, Eq)]
pub enum Verdict {
    /// Its model meets every axiom and refutes the query.
    NotEntailed,
    /// Its refutation is valid.
    Entailed,
    /// Its model does not meet the axiom of this number, which is the least.
    Axiom(u32),
    /// Its model meets every axiom and does not refute the query.
    Query,
    /// Its refutation breaks the rules, first on the line of this number.
    Line(u64),
}
