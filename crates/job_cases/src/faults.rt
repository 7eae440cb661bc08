// Why a file of cases is not run to its end.

use job_runs::NoMemory;
use shq_io::ReadEnd;
use std::io;
use std::str::Utf8Error;

/// Why a file of cases is not run to its end.
#[derive(Clone, Copy, Debug)]
pub(crate) enum Fault {
    /// This line, counted from 1, is none that may stand there.
    Malformed {
        /// The line.
        line: usize,
    },
    /// There is no case.
    NoCase,
    /// The file was not read to its end, or is no text.
    Unread,
    /// A line could not be printed.
    Unprinted,
    /// Out of memory.
    NoMemory,
}

impl From<NoMemory> for Fault {
    fn from(_: NoMemory) -> Self {
        Fault::NoMemory
    }
}

impl From<ReadEnd> for Fault {
    fn from(_: ReadEnd) -> Self {
        Fault::Unread
    }
}

impl From<Utf8Error> for Fault {
    fn from(_: Utf8Error) -> Self {
        Fault::Unread
    }
}

impl From<io::Error> for Fault {
    fn from(_: io::Error) -> Self {
        Fault::Unprinted
    }
}
