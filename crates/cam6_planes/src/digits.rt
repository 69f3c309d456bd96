//! Makes and reads a row's hexadecimal digits and bytes: four columns to a digit, from column 0 on.
ghost use Rattle.std.specs.Prelude.{◌≡◌, ◌<◌, ◌≤◌, ◌+◌, ◌-◌, ◌*◌, ◌/◌, ◌%◌, ◌==◌, ℕ, length};
ghost use Rattle.std.specs.Int.{bit_at};
ghost use Rattle.cam6_planes.specs.Row.{word_column, column_bit, byte_column};
ghost use Rattle.cam6_planes.specs.Digits.{row_text, row_bytes, bits_of_digits};
ghost use Rattle.cam6_planes.specs.Side.{side_number, side_of};
ghost use Rattle.cam6_planes.specs.declared.row.TheConstants.{BYTES, DIGITS};

use crate::row::{BYTES, DIGITS, Row};
use crate::sides::Side;
use std::marker::Model;

/// The bits of a row of one of the three sides. Contracts see them as bytes. The first byte has
/// columns 0 to 7.
#[derive(Debug, Drop)]
pub struct Bits {
    side: Side,
    bytes: [u8; BYTES],
}

impl Model for Bits {
    ghost use Rattle.std.specs.Prelude.{List, ℕ, ◌/◌, take};
    ghost use Rattle.cam6_planes.specs.Side.{side_number};

    ghost Value = { List ℕ };

    ghost view = { λ b. take (side_number b.side / 8) b.bytes };
}

impl Bits {
    /// Lends the bytes of the row, one for each eight columns of its side. The first byte has
    /// columns 0 to 7, and its highest bit is column 0.
    pub fn as_slice(&self) -> &[u8]
        ensures { result.now ≡ self.now }
    {
        &self.bytes[..self.side.number() / 8]
    }
}

/// Returns the row that ASCII hexadecimal digits of either case stand for, four columns to a digit
/// from column 0 on. Returns `None` if there aren't 32, 64 or 128 digits, or if a byte is not a
/// digit.
pub fn bits_of_digits(digits: &[u8]) -> Option<Bits>
    ensures { result ≡ bits_of_digits digits.now }
{
    let side = side_of_digits(digits.len())?;
    let mut bytes = [0; BYTES];
    hex::decode_to_slice(digits, &mut bytes[..side.number() / 8]).ok()?;
    Some(Bits { side, bytes })
}

/// Returns the side whose rows have `count` hexadecimal digits: 32, 64 or 128. Returns `None` for
/// any other count.
fn side_of_digits(count: usize) -> Option<Side>
    ensures { result ≡ side_of (4 * count) }
{
    if count > DIGITS {
        return None;
    }
    Side::of(4 * count as u64)
}

/// Fills `text` with the row's lower case hexadecimal digits from column 0 on, four columns to a
/// digit. The length of `text` has to be even, and at most `DIGITS`.
pub(crate) fn write_hex(row: &Row, text: &mut [u8])
    requires bytes { length text.old % 2 ≡ 0 }
    requires row { length text.old ≤ DIGITS }
    ensures { text.new ≡ row_text (length text.old) (column_bit row.now) }
{
    let bytes = bytes_of_row(row);
    hex::encode_to_slice(&bytes[..text.len() / 2], text).unwrap();
}

/// Returns the row's bits in the columns of this side.
pub(crate) fn bits_of_row(row: &Row, side: Side) -> Bits
    ensures { result ≡ row_bytes (side_number side / 8) (column_bit row.now) }
{
    Bits {
        side,
        bytes: bytes_of_row(row),
    }
}

/// Returns all bytes of the row, also those past its side. The first byte has columns 0 to 7, and
/// its highest bit is column 0.
fn bytes_of_row(row: &Row) -> [u8; BYTES]
    ensures { (x : ℕ) → x < 8 * BYTES → byte_column result x ≡ column_bit row.now x }
{
    let mut bytes = [0; BYTES];
    for i in 0..BYTES {
        bytes[i] = byte_of_word(row[i / 8], i % 8);
    }
    bytes
}

/// Returns the byte of columns 8k to 8k + 7 of the word, for `k` from 0 to 7. Its highest bit is
/// column 8k.
fn byte_of_word(word: u64, k: usize) -> u8
    requires { k < 8 }
    ensures { (c : ℕ) → c < 8 → (bit_at result (7 - c) == 1) ≡ word_column word (8 * k + c) }
{
    word.to_be_bytes()[k]
}
