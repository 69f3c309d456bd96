//! What may happen to a core.

use crate::commands::Command;

/// An event, with its numbers as they were given. Users are numbered from 1, and boards from 0.
#[derive(Debug, Drop)]
pub enum Event {
    /// A user gives their machine a command.
    Ask(u64, Command),
    /// A user's command goes to a board.
    Lease(u64, u64),
    /// A board does one band.
    Band(u64),
    /// A command is taken off its board.
    Preempt(u64),
    /// A board fails, and loses what it holds.
    Fail(u64),
    /// A board that failed is idle again.
    Repair(u64),
    /// The table that was used longest ago leaves the cache.
    Evict,
    /// A user collects the reply to their command.
    Collect(u64),
}
