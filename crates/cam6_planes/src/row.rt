//! One packed row, from its bytes, and its shifts by one column round the torus.
ghost use Rattle.std.specs.Prelude.{◌≡◌, ◌<◌, ◌≤◌, ◌+◌, ◌-◌, ◌*◌, ◌%◌, ◌==◌, ℕ, false, length};
ghost use Rattle.std.specs.Int.{bit_at};
ghost use Rattle.cam6_planes.specs.Row.{word_column, column_bit, byte_column, west_of};
ghost use Rattle.cam6_planes.specs.Row.{east_of};
ghost use Rattle.cam6_planes.specs.Side.{side_number};
ghost use Rattle.cam6_planes.specs.declared.row.TheConstants.{WORDS};

use crate::sides::Side;

/// Columns of a row of the largest side.
pub const COLUMNS: usize = 512;

/// Words of such a row.
pub const WORDS: usize = COLUMNS / 64;

/// Bytes of such a row.
pub const BYTES: usize = COLUMNS / 8;

/// Hexadecimal digits of such a row.
pub const DIGITS: usize = COLUMNS / 4;

/// The bits of one row of one plane. Column 0 is the highest bit of the first word; the words past
/// the side are 0.
pub type Row = [u64; WORDS];

/// A row of cells: that row of each of the four planes.
pub type CellRow = [Row; 4];

/// Returns the row with, at each column, the bit of the column to its west. West of column 0 is
/// the last column. Words past the side are 0.
pub fn west(row: &Row, side: Side) -> Row
    ensures value { let s = side_number side in
        (x : ℕ) → x < s → column_bit result x ≡ column_bit row.now (west_of s x) }
    ensures past { (x : ℕ) → side_number side ≤ x → column_bit result x ≡ false }
{
    let mut shifted = [0; WORDS];
    put_west(&mut shifted, row, side);
    shifted
}

/// Returns the row with, at each column, the bit of the column to its east. East of the last
/// column is column 0. Words past the side are 0.
pub fn east(row: &Row, side: Side) -> Row
    ensures value { let s = side_number side in
        (x : ℕ) → x < s → column_bit result x ≡ column_bit row.now (east_of s x) }
    ensures past { (x : ℕ) → side_number side ≤ x → column_bit result x ≡ false }
{
    let mut shifted = [0; WORDS];
    put_east(&mut shifted, row, side);
    shifted
}

/// Writes to `shifted`, at each column, the bit that `row` has in the column to the west. West of
/// column 0 is the last column. The words of `shifted` past the side stay as they are.
pub fn put_west(shifted: &mut Row, row: &Row, side: Side)
    ensures value { let s = side_number side in
        (x : ℕ) → x < s → column_bit shifted.new x ≡ column_bit row.now (west_of s x) }
    ensures past { (x : ℕ) → side_number side ≤ x →
        column_bit shifted.new x ≡ column_bit shifted.old x }
{
    let words = side.words();
    shifted[0] = moved_east(row[0], row[words - 1]);
    for i in 1..words {
        shifted[i] = moved_east(row[i], row[i - 1]);
    }
}

/// Writes to `shifted`, at each column, the bit that `row` has in the column to the east. East of
/// the last column is column 0. The words of `shifted` past the side stay as they are.
pub fn put_east(shifted: &mut Row, row: &Row, side: Side)
    ensures value { let s = side_number side in
        (x : ℕ) → x < s → column_bit shifted.new x ≡ column_bit row.now (east_of s x) }
    ensures past { (x : ℕ) → side_number side ≤ x →
        column_bit shifted.new x ≡ column_bit shifted.old x }
{
    let last = side.words() - 1;
    for i in 0..last {
        shifted[i] = moved_west(row[i], row[i + 1]);
    }
    shifted[last] = moved_west(row[last], row[0]);
}

/// Returns the word with each bit moved to the next column east, the next lower bit. The first
/// column gets the last bit of `before`, and the word's own last bit is dropped.
#[inline]
pub fn moved_east(word: u64, before: u64) -> u64
    ensures first { word_column result 0 ≡ word_column before 63 }
    ensures others { (c : ℕ) → c < 63 → word_column result (c + 1) ≡ word_column word c }
{
    word >> 1 | before << 63
}

/// Returns the word with each bit moved to the next column west, the next higher bit. The last
/// column gets the first bit of `after`, and the word's own first bit is dropped.
#[inline]
pub fn moved_west(word: u64, after: u64) -> u64
    ensures others { (c : ℕ) → c < 63 → word_column result c ≡ word_column word (c + 1) }
    ensures last { word_column result 63 ≡ word_column after 0 }
{
    word << 1 | after >> 63
}

/// Whether the row has 1 at column `x`, from 0 to 511. Column 0 is the highest bit of the first
/// word.
pub(crate) fn is_set(row: &Row, x: usize) -> bool
    requires { x < 64 * WORDS }
    ensures { result ≡ column_bit row.now x }
{
    row[x / 64] >> (63 - x % 64) & 1 == 1
}

/// Returns the row whose first `words` words, at most `WORDS`, have these bytes, exactly eight to a
/// word. The highest bit of the first byte is column 0. The other words are 0.
pub(crate) fn row_of_bytes(bytes: &[u8], words: usize) -> Row
    requires bytes { length bytes.now ≡ 8 * words }
    requires room { words ≤ WORDS }
    ensures { (x : ℕ) → x < 64 * words → column_bit result x ≡ byte_column bytes.now x }
{
    let mut row = [0; WORDS];
    for i in 0..words {
        row[i] = word_of_bytes(bytes, i);
    }
    row
}

/// Returns the word whose 64 columns have bytes 8i to 8i + 7 of `bytes`, all of which it must have.
/// The highest bit of byte 8i is column 0 of the word.
fn word_of_bytes(bytes: &[u8], i: usize) -> u64
    requires { 8 * i + 8 ≤ length bytes.now }
    ensures { (c : ℕ) → c < 64 → word_column result c ≡ byte_column bytes.now (64 * i + c) }
{
    let mut word = 0;
    for k in 0..8 {
        word = word << 8 | u64::from(bytes[8 * i + k]);
    }
    word
}
