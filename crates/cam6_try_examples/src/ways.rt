//! Ways in which the lines of an example are played. Each program has its own.

use crate::examples::Sent;
use crate::faults::Unplayable;
use std::alloc::Global;
use std::io;

/// What is made of the lines that a part of an example sends.
pub trait Way: Drop {
    /// Reads the words after `as` as a way. Any other words are an error.
    fn read(alloc: Global, words: &str) -> Result<Self, Unplayable>;
}

/// A way that needs nothing but memory to be played. `play_with` is for ways that need more.
pub trait Played: Way {
    /// Plays the lines in this way. Returns what comes back, one text for each time that they are
    /// played. Each must be what is wanted.
    fn played(&self, alloc: Global, sent: &[Sent]) -> io::Result<Vec<Vec<u8>>>;
}
