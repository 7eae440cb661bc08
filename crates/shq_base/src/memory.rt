// Out of memory.

use std::alloc::{AllocError, AllocFailed};

/// Out of memory: the allocator refused a request. A call that allocates may answer it at any of its requests.
#[derive(Clone, Copy, Debug, PartialEq, Eq)]
pub struct NoMemory;

impl From<AllocError> for NoMemory {
    fn from(_: AllocError) -> Self {
        NoMemory
    }
}

/// The value that found no room is let go.
impl<T: Drop> From<AllocFailed<T>> for NoMemory {
    fn from(_: AllocFailed<T>) -> Self {
        NoMemory
    }
}
