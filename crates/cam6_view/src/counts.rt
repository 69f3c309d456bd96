//! How many cells have a state of a set.
ghost use Rattle.std.specs.Prelude.{◌≡◌, ◌≤◌, ◌*◌, ℕ};
ghost use Rattle.cam6_planes.specs.Cells.{cells};
ghost use Rattle.cam6_planes.specs.Stored.{width};
ghost use Rattle.cam6_planes.specs.declared.row.TheConstants.{WORDS};
ghost use Rattle.cam6_view.specs.States.{is_in, count_below, count_of};
ghost use Rattle.cam6_view.specs.Internal.{AreSpread, state_in_row, state_in_words};

use crate::columns::{select_by_state, spread, words_of};
use cam6_band::AtRest;
use cam6_planes::{CellRow, WORDS};

/// Returns how many cells of the image have a state whose bit is set in the mask. Bit 0 is for
/// state 0.
pub fn count(rest: &AtRest, mask: u16) -> u32
    ensures { result ≡ count_of (width rest.now.planes) (cells rest.now.planes) mask }
{
    let planes = rest.planes();
    let side = planes.side();
    let sets = spread(mask);
    let mut total = 0;
    for y in 0..side.number() {
        total += count_in_row(planes.row(y), &sets, side.words());
    }
    total
}

/// Returns how many cells of the first `words` words of a row, at most 8 words of 64 columns, have
/// a state of the sets. `sets` is the mask's, as `spread` makes it.
fn count_in_row(rows: &CellRow, sets: &[u64; 16], words: usize) -> u32
    requires { words ≤ WORDS }
    ensures value { (mask : ℕ) → AreSpread mask sets.now →
        result ≡ count_below (λ x. is_in mask (state_in_row rows.now x)) (64 * words) }
    ensures bound { result ≤ 64 * words }
{
    let mut total = 0;
    for k in 0..words {
        total += count_in_word(&words_of(rows, k), sets);
    }
    total
}

/// Returns how many of 64 columns have a state of the sets. `words` has the columns of each plane,
/// and `sets` is the mask's, as `spread` makes it.
fn count_in_word(words: &[u64; 4], sets: &[u64; 16]) -> u32
    ensures value { (mask : ℕ) → AreSpread mask sets.now →
        result ≡ count_below (λ c. is_in mask (state_in_words words.now c)) 64 }
    ensures bound { result ≤ 64 }
{
    select_by_state(words, sets).count_ones()
}
