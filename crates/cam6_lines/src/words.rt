//! The words of a row that have the right columns of blocks.
ghost use Rattle.std.specs.Prelude.{◌≡◌, ◌<◌, ◌==◌, ℕ};
ghost use Rattle.cam6_planes.specs.Row.{word_column};
ghost use Rattle.cam6_wiring.specs.Block.{side_in_block};

use cam6_wiring::Grid;

/// The even columns of a word. Column 0 is its highest bit.
const EVEN_COLUMNS: u64 = 0xAAAA_AAAA_AAAA_AAAA;

/// The odd columns of a word.
const ODD_COLUMNS: u64 = 0x5555_5555_5555_5555;

/// Returns a word with 1 in the right columns of the grid's blocks, and 0 in the left ones. Column
/// 0, the highest bit, is a left one on the even grid.
#[inline]
pub(crate) fn right_columns(grid: Grid) -> u64
    ensures { (c : ℕ) → c < 64 → word_column result c ≡ (side_in_block grid c == 1) }
{
    match grid {
        Grid::Even => ODD_COLUMNS,
        Grid::Odd => EVEN_COLUMNS,
    }
}
