// Places in a trail to which a search goes back.

/// A length of a trail, to which it can be cut later.
#[derive(Clone, Copy, Debug, PartialEq, Eq)]
pub struct Mark {
    /// The number of entries that stay.
    pub len: u32,
}
