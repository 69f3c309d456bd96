//! The entries of a cycle.
ghost use Rattle.std.specs.Prelude.{◌≡◌};
ghost use Rattle.cam6_cycle.specs.Unused.{idle_entry};

use cam6_wiring::{Grid, Hood, Minor, Phase};

/// A half's rule: its number among the rules that are kept, and what it is written for.
#[derive(Clone, Copy, Debug, PartialEq, Eq)]
pub struct HalfRule {
    pub number: usize,
    pub hood: Hood,
    pub minor: Minor,
}

/// What a step uses: for each half a rule or none, and the grid and the phase. A half without a
/// rule keeps its planes.
#[derive(Clone, Copy, Debug, PartialEq, Eq)]
pub struct Entry {
    pub a: Option<HalfRule>,
    pub b: Option<HalfRule>,
    pub grid: Grid,
    pub phase: Phase,
}

impl Default for Entry {
    ghost is_default = { λ entry. entry ≡ idle_entry };

    /// Returns an entry without rules, on the even grid in phase 0. It leaves every plane as it is.
    fn default() -> Entry {
        Entry {
            a: None,
            b: None,
            grid: Grid::Even,
            phase: Phase::P0,
        }
    }
}
