//! What a step uses: the tables of a cycle's entry.
ghost use Rattle.std.specs.Prelude.{◌≡◌};
ghost use Rattle.cam6_band.specs.ByTables.{setting_by, values_of};

use cam6_entries::Table;
use cam6_wiring::{Grid, Half, Hood, Minor, Phase, Setting};

/// A half's table, and what names are on its address lines.
#[derive(Clone, Copy)]
pub struct HalfTable<'a> {
    pub table: &'a Table,
    pub hood: Hood,
    pub minor: Minor,
}

/// The tables of both halves, with the grid and the phase of the step. A half without a table keeps
/// its planes.
#[derive(Clone, Copy)]
pub struct EntryTables<'a> {
    pub a: Option<HalfTable<'a>>,
    pub b: Option<HalfTable<'a>>,
    pub grid: Grid,
    pub phase: Phase,
}

impl<'a> EntryTables<'a> {
    /// Returns the grid and the phase of the entry, for a half.
    pub(crate) fn setting(&self, half: Half) -> Setting
        ensures { result ≡ setting_by half (values_of self.now) }
    {
        Setting {
            half,
            grid: self.grid,
            phase: self.phase,
        }
    }
}
