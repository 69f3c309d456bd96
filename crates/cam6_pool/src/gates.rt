//! What a worker asks before it goes on.

/// The gate's verdict on a band.
#[derive(Clone, Copy, Debug, PartialEq, Eq)]
pub enum Turn {
    /// The band may be done.
    Go,
    /// The command is to be taken off the board, and waits again.
    Preempt,
    /// The same, and the worker ends.
    Stop,
}

/// Tells workers when to go on. It is asked by several threads at once.
pub trait Gate {
    /// Returns whether the worker does the next band of a user's command, takes the command off the
    /// board, or ends too. The worker calls it before each band. Users are numbered from 1, boards
    /// from 0, the bands of a step from 0: a step at side s has s/16 of them.
    fn turn(&self, board: u8, user: u8, band: u8) -> Turn;

    /// Returns whether the worker looks for a command again, after it found none for its board. If
    /// false, the worker ends. It may wait for a while, or until a command is put.
    fn idle(&self, board: u8) -> bool;
}
