//! Rows made column by column: the same bit in each, the blocks' right columns, or the even
//! columns of one row with the odd ones of another.
ghost use Rattle.std.specs.Prelude.{◌≡◌, ◌<◌, ◌*◌, ◌%◌, ◌==◌, ℕ, if◌then◌else◌};
ghost use Rattle.cam6_planes.specs.Row.{word_column, column_bit};
ghost use Rattle.cam6_planes.specs.declared.row.TheConstants.{WORDS};
ghost use Rattle.cam6_wiring.specs.Block.{side_in_block};

use crate::blocks::Grid;
use cam6_planes::{Row, WORDS};

/// The even columns of a word. Column 0 is its highest bit.
const EVEN_COLUMNS: u64 = 0xAAAA_AAAA_AAAA_AAAA;

/// The odd columns of a word.
const ODD_COLUMNS: u64 = 0x5555_5555_5555_5555;

/// Returns the row that has this bit in every column, also past the side.
pub(crate) fn row_of(bit: bool) -> Row
    ensures { (x : ℕ) → x < 64 * WORDS → column_bit result x ≡ bit }
{
    if bit { [u64::MAX; WORDS] } else { [0; WORDS] }
}

/// Returns a row with 1 in the right columns of the grid's blocks, and 0 in the left ones. Words
/// past the side are filled likewise.
pub(crate) fn right_columns(grid: Grid) -> Row
    ensures { (x : ℕ) → x < 64 * WORDS → column_bit result x ≡ (side_in_block grid x == 1) }
{
    match grid {
        Grid::Even => [ODD_COLUMNS; WORDS],
        Grid::Odd => [EVEN_COLUMNS; WORDS],
    }
}

/// Copies the odd columns of `odd` to `row`, whose even columns stay as they are. Column 0 is the
/// highest bit of the first word, and words past the side are written too.
pub(crate) fn put_odd_columns(row: &mut Row, odd: &Row)
    ensures { (x : ℕ) → x < 64 * WORDS → column_bit row.new x
        ≡ (if x % 2 == 1 then column_bit odd.now x else column_bit row.old x) }
{
    for i in 0..WORDS {
        row[i] = mixed_word(row[i], odd[i]);
    }
}

/// Returns the word with the even columns of `even` and the odd columns of `odd`. Column 0 is the
/// highest bit.
#[tactic(auto, using(crate::proofs::MixedColumns::mixed_column))]
fn mixed_word(even: u64, odd: u64) -> u64
    ensures { (c : ℕ) → c < 64 → word_column result c
        ≡ (if c % 2 == 1 then word_column odd c else word_column even c) }
{
    even & EVEN_COLUMNS | odd & ODD_COLUMNS
}
