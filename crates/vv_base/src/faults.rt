use std::alloc::{AllocError, AllocFailed};

/// A text has no room for what was to be appended.
#[derive(Clone, Copy, Debug, PartialEq, Eq)]
pub struct Full;

/// Memory ran out.
#[derive(Clone, Copy, Debug, PartialEq, Eq)]
pub struct NoMemory;

impl From<AllocError> for NoMemory {
    fn from(_: AllocError) -> NoMemory {
        NoMemory
    }
}

impl<T: Drop> From<AllocFailed<T>> for NoMemory {
    fn from(_: AllocFailed<T>) -> NoMemory {
        NoMemory
    }
}
