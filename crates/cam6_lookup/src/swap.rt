//! The addresses of 128 columns at once, by four rounds of swaps among sixteen rows.
ghost use Rattle.std.specs.Prelude.{◌≡◌, ◌<◌, ◌≤◌, ◌+◌, ◌*◌, ◌/◌, ◌%◌, ℕ, slice_index, map};
ghost use Rattle.std.specs.Int.{bit_at};
ghost use Rattle.cam6_lookup.specs.Transposed.{ShowAddresses, cell, swapped_row, swapped_position};

use crate::digits::Digit;
use cam6_wiring::LINES;

/// Two words of a line: 128 columns.
pub(crate) type Pair = [u64; 2];

/// Sixteen rows of two words.
pub(crate) type Sixteen = [Pair; 16];

/// Returns the addresses of the 128 columns in words `word` and `word + 1` of the lines, which both
/// must exist. In its lane l of sixteen bits, row k has the address of position 16 l + k of each
/// word. Position 0 and lane 0 are the lowest.
pub(crate) fn shown_addresses<const N: usize>(lines: &[&[u64; N]; LINES], word: usize) -> Sixteen
    requires { word + 2 ≤ N }
    ensures { ShowAddresses result (map (λ line. line.now) lines.now) word }
{
    transposed(&sixteen::<N>(lines, word))
}

/// Returns the rows transposed, in each lane of sixteen bits: bit k of row r becomes bit r of row
/// k. Bit 0 is the lowest.
fn transposed(rows: &Sixteen) -> Sixteen
    ensures { (k i p : ℕ) → k < 16 → i < 2 → p < 64 →
        cell result k i p ≡ cell rows.now (p % 16) i (p / 16 * 16 + k) }
{
    let rows = round(rows, Digit::Eight);
    let rows = round(&rows, Digit::Four);
    let rows = round(&rows, Digit::Two);
    round(&rows, Digit::One)
}

/// Returns the rows after one round of the transposition. Each bit moves to the row and position
/// whose numbers have exchanged this binary digit.
#[inline(always)]
fn round(rows: &Sixteen, digit: Digit) -> Sixteen
    ensures { (k i p : ℕ) → k < 16 → i < 2 → p < 64 →
        cell result k i p ≡ cell rows.now (swapped_row digit k p) i (swapped_position digit k p) }
{
    [
        row_after_round(rows, 0, digit),
        row_after_round(rows, 1, digit),
        row_after_round(rows, 2, digit),
        row_after_round(rows, 3, digit),
        row_after_round(rows, 4, digit),
        row_after_round(rows, 5, digit),
        row_after_round(rows, 6, digit),
        row_after_round(rows, 7, digit),
        row_after_round(rows, 8, digit),
        row_after_round(rows, 9, digit),
        row_after_round(rows, 10, digit),
        row_after_round(rows, 11, digit),
        row_after_round(rows, 12, digit),
        row_after_round(rows, 13, digit),
        row_after_round(rows, 14, digit),
        row_after_round(rows, 15, digit),
    ]
}

/// Returns row `k`, from 0 to 15, as it is after the round of this digit over these rows.
#[inline]
fn row_after_round(rows: &Sixteen, k: usize, digit: Digit) -> Pair
    requires { k < 16 }
    ensures { (i p : ℕ) → i < 2 → p < 64 → bit_at (slice_index result i) p
        ≡ cell rows.now (swapped_row digit k p) i (swapped_position digit k p) }
{
    let worth = digit.worth();
    if k / worth % 2 == 0 {
        let [first, next] = rows[k];
        let [second, after] = rows[k + worth];
        [digit.first(first, second), digit.first(next, after)]
    } else {
        let [first, next] = rows[k - worth];
        let [second, after] = rows[k];
        [digit.second(first, second), digit.second(next, after)]
    }
}

/// Returns words `word` and `word + 1`, which both must exist, of each of the twelve lines, line 0
/// first. After them come four rows of zeros.
fn sixteen<const N: usize>(lines: &[&[u64; N]; LINES], word: usize) -> Sixteen
    requires { word + 2 ≤ N }
    ensures { (k i p : ℕ) → k < 12 → i < 2 →
        cell result k i p ≡ cell (map (λ line. line.now) lines.now) k (word + i) p }
{
    let zeros = [0; 2];
    [
        pair::<N>(lines[0], word),
        pair::<N>(lines[1], word),
        pair::<N>(lines[2], word),
        pair::<N>(lines[3], word),
        pair::<N>(lines[4], word),
        pair::<N>(lines[5], word),
        pair::<N>(lines[6], word),
        pair::<N>(lines[7], word),
        pair::<N>(lines[8], word),
        pair::<N>(lines[9], word),
        pair::<N>(lines[10], word),
        pair::<N>(lines[11], word),
        zeros,
        zeros,
        zeros,
        zeros,
    ]
}

/// Returns words `word` and `word + 1` of a line, which both must exist.
fn pair<const N: usize>(line: &[u64; N], word: usize) -> Pair
    requires { word + 2 ≤ N }
    ensures { (i : ℕ) → i < 2 → slice_index result i ≡ slice_index line.now (word + i) }
{
    [line[word], line[word + 1]]
}
