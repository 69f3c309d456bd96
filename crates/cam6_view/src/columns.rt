//! The 64 columns of a word, chosen by the states of their cells.
ghost use Rattle.std.specs.Prelude.{◌≡◌, ◌<◌, ◌≤◌, ◌+◌, ◌*◌, ℕ, slice_index};
ghost use Rattle.cam6_planes.specs.Row.{word_column};
ghost use Rattle.cam6_planes.specs.declared.row.TheConstants.{WORDS};
ghost use Rattle.cam6_view.specs.States.{is_in};
ghost use Rattle.cam6_view.specs.Internal.{AreSpread, lower_state, state_in_words, state_in_row};

use cam6_planes::{CellRow, WORDS, chosen_word, word_of};

/// Returns for each state, by its number, a word of 64 columns. All bits are 1 if the mask has the
/// state's bit, and 0 if it hasn't. Bit 0 of the mask is for state 0.
pub(crate) fn spread(mask: u16) -> [u64; 16]
    ensures { AreSpread mask result }
{
    let mut sets = [0; 16];
    for state in 0..16u16 {
        sets[usize::from(state)] = spread_bit(mask, state);
    }
    sets
}

/// Returns a word whose 64 bits are all the mask's bit of this state, from 0 to 15.
fn spread_bit(mask: u16, state: u16) -> u64
    requires { state < 16 }
    ensures { (c : ℕ) → c < 64 → word_column result c ≡ is_in mask state }
{
    word_of(mask >> state & 1 == 1)
}

/// Returns a row's columns `64 * k` to `64 * k + 63`, as one word for each plane. The highest bit
/// is the first column. `k` is from 0 to 7.
pub(crate) fn words_of(rows: &CellRow, k: usize) -> [u64; 4]
    requires { k < WORDS }
    ensures { (c : ℕ) → c < 64 → state_in_words result c ≡ state_in_row rows.now (64 * k + c) }
{
    [rows[0][k], rows[1][k], rows[2][k], rows[3][k]]
}

/// Returns a word that has at each of 64 columns the bit of `sets[state]` there, for the state of
/// the column's cell. `words` has the columns of each plane, as `words_of` returns them.
pub(crate) fn select_by_state(words: &[u64; 4], sets: &[u64; 16]) -> u64
    ensures { (c : ℕ) → c < 64 → word_column result c
        ≡ word_column (slice_index sets.now (state_in_words words.now c)) c }
{
    let below_8 = chosen_word(
        words[2],
        select_by_lower_planes(words, sets, 0),
        select_by_lower_planes(words, sets, 4),
    );
    let from_8 = chosen_word(
        words[2],
        select_by_lower_planes(words, sets, 8),
        select_by_lower_planes(words, sets, 12),
    );
    chosen_word(words[3], below_8, from_8)
}

/// Returns a word that has at each of 64 columns the bit of `sets[first + n]` there. `n`, from 0 to
/// 3, is the column's bit of plane 0 plus twice that of plane 1. `first` is at most 12.
fn select_by_lower_planes(words: &[u64; 4], sets: &[u64; 16], first: usize) -> u64
    requires { first + 4 ≤ 16 }
    ensures { (c : ℕ) → c < 64 → word_column result c
        ≡ word_column (slice_index sets.now (first + lower_state words.now c)) c }
{
    let unset = chosen_word(words[0], sets[first], sets[first + 1]);
    let set = chosen_word(words[0], sets[first + 2], sets[first + 3]);
    chosen_word(words[1], unset, set)
}
