//! What comes of an event.

use crate::refused::Refused;
use crate::replies::Reply;

/// What comes of an event. The numbers are those of the bands that are left after it.
#[derive(Debug, Drop)]
pub enum Outcome {
    /// An allocation failed for a command, and nothing has changed.
    NoMemory,
    Refused(Refused),
    Asked(u64),
    Leased(u64),
    Banded(u64),
    Preempted(u64),
    /// With the bands that are left, if the board held a command.
    Failed(Option<u64>),
    Repaired,
    Evicted,
    Collected(Reply),
}
