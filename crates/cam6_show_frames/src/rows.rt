//! Rows of cells, from the digits that say them.
ghost use Rattle.std.specs.Prelude.{◌≡◌, ◌<◌, ◌/◌, ◌*◌, map, length};
ghost use Rattle.std.specs.List.{range_with_len};
ghost use Rattle.cam6_planes.specs.Row.{bit_number, byte_column};
ghost use Rattle.cam6_planes.specs.Side.{side_number};
ghost use Rattle.cam6_show_frames.specs.Frame.{colours};
ghost use Rattle.cam6_show_frames.specs.Replies.{digit_column, colours_of_text, bits_of_text};

use crate::frames::RowInColours;
use cam6_planes::{COLUMNS, Side, bits_of_digits};

/// Returns the row of colours that a text has, one hexadecimal digit of either case for each
/// column. Returns `None` for any other text, or if no torus has so many columns.
pub(crate) fn colours_of_text(text: &[u8]) -> Option<RowInColours>
    ensures { result ≡ colours_of_text text.now }
{
    let side = Side::of(text.len() as u64)?;
    let mut bytes = [0; COLUMNS / 2];
    let digits = &mut bytes[..side.number() / 2];
    hex::decode_to_slice(text, digits).ok()?;
    Some(row_of_digits(side, digits))
}

/// Makes the row of this side whose colours are the digits of these bytes. A byte has two digits,
/// the first in its upper four bits. There is one byte for every two columns.
fn row_of_digits(side: Side, bytes: &[u8]) -> RowInColours
    requires { length bytes.now ≡ side_number side / 2 }
    ensures { result ≡ map (digit_column bytes.now) (range_with_len 0 (side_number side)) }
{
    let mut colours = [0; COLUMNS];
    for x in 0..side.number() {
        colours[x] = digit_column(bytes, x);
    }
    RowInColours::new(side, colours)
}

/// Returns the colour of column `x`, which lies within the bytes. A byte has two colours, the first
/// in its upper four bits.
fn digit_column(bytes: &[u8], x: usize) -> u8
    requires { x / 2 < length bytes.now }
    ensures digit { result ≡ digit_column bytes.now x }
    ensures few { result < colours }
{
    let byte = bytes[x / 2];
    if x % 2 == 0 { byte / 16 } else { byte % 16 }
}

/// Returns the row of one plane that a text has, four columns to a hexadecimal digit of either
/// case. A digit's highest bit is its first column. The row's colours are 0 and 1. Returns `None`
/// for any other text, or if no torus has so many columns.
pub(crate) fn bits_of_text(text: &[u8]) -> Option<RowInColours>
    ensures { result ≡ bits_of_text text.now }
{
    let bits = bits_of_digits(text)?;
    let bytes = bits.as_slice();
    let side = Side::of(8 * bytes.len() as u64)?;
    Some(row_of_bits(side, bytes))
}

/// Makes the row of this side that has the colour 1 where a bit of these bytes is set, and 0
/// elsewhere. There are eight columns to a byte, and its highest bit is the first of them.
fn row_of_bits(side: Side, bytes: &[u8]) -> RowInColours
    requires { 8 * length bytes.now ≡ side_number side }
    ensures { result ≡ map (λ x. bit_number (byte_column bytes.now x))
        (range_with_len 0 (side_number side)) }
{
    let mut colours = [0; COLUMNS];
    for x in 0..side.number() {
        colours[x] = bit_column(bytes, x);
    }
    RowInColours::new(side, colours)
}

/// Returns 1 if the bit of column `x`, which lies within the bytes, is set, or else 0. A byte's
/// highest bit is its first column.
fn bit_column(bytes: &[u8], x: usize) -> u8
    requires { x / 8 < length bytes.now }
    ensures bit { result ≡ bit_number (byte_column bytes.now x) }
    ensures few { result < colours }
{
    u8::from(bytes[x / 8] >> (7 - x % 8) & 1 == 1)
}
