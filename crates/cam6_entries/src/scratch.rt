//! The scratch with which a table makes the rows of a band.

use cam6_lines::UnitLines;
use cam6_program::Slots;

/// Scratch for what the cells of a unit see, and for the slots of a program. It is made once and lent
/// to each band. Nothing is promised of what it holds between bands.
#[derive(Drop)]
pub struct TableScratch {
    pub(crate) lines: UnitLines,
    pub(crate) slots: Slots,
}

impl TableScratch {
    /// Makes scratch for the bands of any table.
    pub fn blank() -> TableScratch {
        TableScratch {
            lines: UnitLines::blank(),
            slots: Slots::blank(),
        }
    }
}
