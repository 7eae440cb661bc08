// What keeps an input from being verified.
ghost use Rattle.std.specs.Prelude.{◌≡◌};
ghost use Rattle.job_inputs.specs.Unread.{document_unread, query_unread};

use shq_terms::NoMemory;
use text_laws::{LineFault, Refusal};

/// Why there is nothing to verify.
#[derive(Clone, Copy, Debug, PartialEq, Eq)]
pub enum Unread {
    /// Why the document is refused.
    Document(Refusal),
    /// Why the query is refused.
    Query(Refusal),
    /// The rest is no certificate, and this is the number of its first malformed line.
    Line(u32),
    /// Out of memory.
    NoMemory,
}

impl Unread {
    /// The document is refused.
    pub fn of_document(refusal: Refusal) -> Unread
        ensures { result ≡ document_unread refusal }
    {
        match refusal {
            Refusal::NoMemory => Unread::NoMemory,
            refusal => Unread::Document(refusal),
        }
    }

    /// The query is refused.
    pub fn of_query(refusal: Refusal) -> Unread
        ensures { result ≡ query_unread refusal }
    {
        match refusal {
            Refusal::NoMemory => Unread::NoMemory,
            refusal => Unread::Query(refusal),
        }
    }
}

impl From<LineFault> for Unread {
    ghost use Rattle.std.specs.Prelude.{◌≡◌};
    ghost use Rattle.job_inputs.specs.Unread.{line_unread};

    ghost from_gives = { λ fault u. u ≡ line_unread fault };

    fn from(fault: LineFault) -> Self {
        match fault {
            LineFault::Malformed(line) => Unread::Line(line),
            LineFault::NoMemory => Unread::NoMemory,
        }
    }
}

impl From<NoMemory> for Unread {
    ghost use Rattle.std.specs.Prelude.{◌≡◌};
    ghost use Rattle.job_inputs.specs.declared.unread.Unread.TheVariants as unread;

    ghost from_gives = { λ _ u. u ≡ unread.NoMemory };

    fn from(_: NoMemory) -> Self {
        Unread::NoMemory
    }
}
