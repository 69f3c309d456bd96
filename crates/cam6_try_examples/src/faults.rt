//! Why an example can't be played.

use std::alloc::{AllocError, AllocFailed};

/// Why an example, or a line of one, can't be played.
#[derive(Clone, Copy, Debug, PartialEq, Eq)]
pub enum Unplayable {
    /// An allocation failed.
    NoMemory,
    /// A line isn't of any kind that is known.
    Unread,
}

impl From<AllocError> for Unplayable {
    /// Makes `NoMemory` of a failed allocation.
    fn from(_: AllocError) -> Unplayable {
        Unplayable::NoMemory
    }
}

impl<T: Drop> From<AllocFailed<T>> for Unplayable {
    /// Drops the value that couldn't be stored, and makes `NoMemory`.
    fn from(_: AllocFailed<T>) -> Unplayable {
        Unplayable::NoMemory
    }
}
