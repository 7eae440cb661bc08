// How a run ends.

/// How a run ended.
#[derive(Clone, Copy, Debug, PartialEq, Eq)]
pub enum Status {
    /// The job was done.
    Done,
    /// `check` rejected the certificate.
    Rejected,
    /// The words ask for no job, and nothing was read.
    BadWords,
    /// The text of the document or of the query is wrong.
    BadText,
    /// The document or the query uses a construct that is left out.
    Outside,
    /// A limit was passed.
    Limit,
    /// The source failed.
    ReadFault,
    /// The sink failed, and a front of the answer was written.
    WriteFault,
    /// The budget of the search was spent before there was an answer.
    Undecided,
    /// Memory was refused.
    NoMemory,
}
