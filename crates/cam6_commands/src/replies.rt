//! What is replied to a command.

use crate::refusals::Refusal;
use crate::rows::{PlaneRows, RowColours, RowText};
use crate::saved::SavedMachine;
use crate::texts::Names;

/// A reply: what was done, or why nothing was.
#[derive(Debug, Drop)]
pub enum Reply {
    Done(Done),
    Refused(Refusal),
}

/// The reply to a command that was done. Each command has a form of its own.
#[derive(Debug, Drop)]
pub enum Done {
    Set,
    Clear,
    Rule,
    Drop,
    /// The names of the rules, in their order.
    Rules { names: Names },
    Cycle,
    Side,
    Map,
    /// The position after the run.
    Run { position: usize },
    /// The position after going back.
    Back { position: usize },
    Row { bits: RowText },
    Plane { rows: PlaneRows },
    Colours { colours: RowColours },
    Count { count: u32 },
    /// The whole machine but its limit.
    Save { machine: SavedMachine },
    Load,
}
