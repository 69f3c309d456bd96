//! What a user asks of their machine.

use crate::items::Items;
use crate::saved::SavedMachine;
use crate::texts::Text;
use cam6_planes::Bits;
use cam6_wiring::{Grid, Wiring};

/// A command, with its numbers as the user gave them.
#[derive(Debug, Drop)]
pub enum Command {
    /// Writes a row of a plane; column 0 is the highest bit of the first byte.
    Set {
        plane: u64,
        row: u64,
        bits: Bits,
    },
    /// Sets every bit of a plane to 0.
    Clear {
        plane: u64,
    },
    /// Keeps a rule under a name, instead of the one that has the name already.
    Rule {
        name: Text,
        wiring: Wiring,
        text: Text,
    },
    /// Forgets a rule. Those after it close up.
    Drop {
        name: Text,
    },
    /// Asks for the names of the rules, in their order.
    Rules,
    /// Sets the cycle, and the position to 0.
    Cycle {
        entries: NamedEntries,
    },
    /// Does so many steps forward along the cycle.
    Run {
        n: u64,
    },
    /// Undoes so many steps, backward along the cycle.
    Back {
        n: u64,
    },
    /// Asks for a row of a plane.
    Row {
        plane: u64,
        row: u64,
    },
    /// Asks for all rows of a plane.
    Plane {
        plane: u64,
    },
    /// Changes the side, with blank planes and the position 0.
    Side {
        side: u64,
    },
    /// Sets the colour of each of the sixteen states of a cell.
    Map {
        colours: [u64; 16],
    },
    /// Asks for the colours of a row's cells.
    Colours {
        row: u64,
    },
    /// Asks how many cells have a state with its bit set in the mask.
    Count {
        mask: u64,
    },
    /// Asks for the whole machine.
    Save,
    /// Loads a machine that was saved, whole but for its limit.
    Load {
        machine: SavedMachine,
    },
}

/// An entry of a cycle as a user writes it: for each half a rule's name, or none.
#[derive(Debug, Drop)]
pub struct NamedEntry {
    pub a: Option<Text>,
    pub b: Option<Text>,
    pub grid: Grid,
    pub phase: u64,
}

/// The entries of a cycle, in order.
pub type NamedEntries = Items<NamedEntry>;
