//! The scratch that is lent to bands.

use crate::half_rows::HalfRows;
use cam6_entries::TableScratch;

/// Scratch for the bands of steps. It is made once and lent to each band. Nothing is promised of what
/// it holds between bands.
#[derive(Drop)]
pub struct Scratch {
    /// Half A's new rows, which are made before those of half B and written after them.
    pub(crate) a: HalfRows,
    pub(crate) half: HalfScratch,
}

/// Scratch for a half's new rows, and for what its table needs to make them.
#[derive(Drop)]
pub(crate) struct HalfScratch {
    pub(crate) rows: HalfRows,
    pub(crate) table: TableScratch,
}

impl Scratch {
    /// Makes scratch for the bands of any step. Does not allocate.
    pub fn blank() -> Scratch {
        Scratch {
            a: HalfRows::blank(),
            half: HalfScratch {
                rows: HalfRows::blank(),
                table: TableScratch::blank(),
            },
        }
    }
}
