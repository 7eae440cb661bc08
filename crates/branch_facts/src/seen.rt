// A fact between representatives, by which an index finds it.
ghost use Rattle.std.specs.Prelude.{◌≡◌};
ghost use Rattle.branch_facts.specs.Seen.{renamed, mentions, seen_renamed};

/// A fact between representatives.
#[derive(Clone, Copy, Debug, PartialEq, Eq, Hash)]
pub(crate) enum Seen {
    /// A node and its concept.
    Has(u32, u32),
    /// A role, and the nodes where an edge of it begins and ends.
    Edge(u32, u32, u32),
    /// Two nodes that are different.
    Apart(u32, u32),
}

impl Seen {
    /// Whether the fact is one of the node.
    pub(crate) fn mentions(&self, node: u32) -> bool
        ensures { result ≡ mentions node self.now }
    {
        match *self {
            Seen::Has(x, _) => x == node,
            Seen::Edge(_, x, y) | Seen::Apart(x, y) => x == node || y == node,
        }
    }

    /// The same fact of the lower node, where it is one of the higher.
    pub(crate) fn renamed(&self, high: u32, low: u32) -> Seen
        ensures { result ≡ seen_renamed high low self.now }
    {
        match *self {
            Seen::Has(x, concept) => Seen::Has(renamed(high, low, x), concept),
            Seen::Edge(role, x, y) => Seen::Edge(
                role,
                renamed(high, low, x),
                renamed(high, low, y),
            ),
            Seen::Apart(x, y) => Seen::Apart(renamed(high, low, x), renamed(high, low, y)),
        }
    }
}

/// What a node becomes by the link from one to another.
pub(crate) fn renamed(high: u32, low: u32, node: u32) -> u32
    ensures { result ≡ renamed high low node }
{
    if node == high { low } else { node }
}
