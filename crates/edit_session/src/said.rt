// How a line ends.

/// Whether a line was answered.
#[derive(Clone, Copy, Debug, PartialEq, Eq)]
pub enum Said {
    /// It was, by one line of text.
    Answered,
    /// The budget was spent before its query was decided.
    Spent,
}
