//! A machine as it is saved and loaded: all of it but its limit.

use crate::commands::NamedEntries;
use crate::items::Items;
use crate::texts::Text;
use cam6_planes::Bits;
use cam6_wiring::Wiring;

/// A machine as it is saved. The machine that loads it checks whether there is such a machine.
#[derive(Debug, Drop)]
pub struct SavedMachine {
    /// A colour for each state of a cell.
    pub colours: [u64; 16],
    /// The cycle. It has no entries if none is set.
    pub cycle: NamedEntries,
    /// The rows of each of the four planes.
    pub planes: [BitRows; 4],
    /// The position in the cycle.
    pub position: u64,
    pub rules: NamedRules,
    pub side: u64,
}

/// The rows of a plane, from row 0 on.
pub type BitRows = Items<Bits>;

/// A rule: its name, what it is written for, and its text.
#[derive(Debug, Drop)]
pub struct NamedRule {
    pub name: Text,
    pub wiring: Wiring,
    pub text: Text,
}

/// Rules, in order.
pub type NamedRules = Items<NamedRule>;
