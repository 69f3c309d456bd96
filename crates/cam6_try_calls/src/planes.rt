//! Rows and planes by functions that no program calls, and what no reply shows of the others.

use cam6_planes::{COLUMNS, DIGITS, NoMemory, Planes, Row, Side, WORDS, east, west};
use std::fmt::Debug;
use std::process::Abort;

/// Checks that both values are equal, and aborts if they aren't. A failure names this place. An
/// assertion costs its proof wherever it is written, so it stands here.
pub(crate) fn same_at<R: Abort, T: PartialEq + Debug, P: Debug>(
    rt: &R,
    got: &T,
    want: &T,
    place: &P,
) {
    assert_eq!(rt; got, want, "at {place:?}");
}

/// Sets a row of a plane, both counted from 0, to these machine words. Aborts if there is no such
/// row or plane.
pub(crate) fn set_row(rt: &impl Abort, planes: &mut Planes, plane: usize, row: usize, words: Row) {
    assert!(rt; plane < 4 && row < planes.side().number());
    planes.set_row_words(plane, row, words);
}

/// Returns a row with one column set, counted from 0 and modulo 512. A word's highest bit is its
/// first column.
pub(crate) fn lone(column: usize) -> Row {
    let column = column % COLUMNS;
    let mut row = [0; WORDS];
    row[column / 64] = 1 << (63 - column % 64);
    row
}

/// A lone column moves to its neighbour to the east and to the west on the ring, by hand.
#[test]
fn lone_columns_move(rt: HostRuntime) {
    for (side, column, its_east, its_west) in [
        (Side::S128, 0usize, 1, 127),
        (Side::S128, 63, 64, 62),
        (Side::S128, 64, 65, 63),
        (Side::S128, 127, 0, 126),
        (Side::S256, 0, 1, 255),
        (Side::S256, 1, 2, 0),
        (Side::S256, 100, 101, 99),
        (Side::S256, 127, 128, 126),
        (Side::S256, 128, 129, 127),
        (Side::S256, 191, 192, 190),
        (Side::S256, 192, 193, 191),
        (Side::S256, 254, 255, 253),
        (Side::S256, 255, 0, 254),
        (Side::S512, 0, 1, 511),
        (Side::S512, 255, 256, 254),
        (Side::S512, 256, 257, 255),
        (Side::S512, 511, 0, 510),
    ] {
        let row = lone(column);
        same_at(&rt, &west(&row, side), &lone(its_east), &column);
        same_at(&rt, &east(&row, side), &lone(its_west), &column);
    }
}

const FIRST: u64 = 0x0123_4567_89AB_CDEF;

const SECOND: u64 = 0xFEDC_BA98_7654_3210;

const LAST: u64 = 0x8000_0000_0000_0001;

// Every digit, and the first and the last column of the last word.
const ROW: Row = [FIRST, SECOND, 0, LAST, 0, 0, 0, 0];

const TEXT: &[u8] = b"0123456789abcdeffedcba987654321000000000000000008000000000000001";

const BYTES: [u8; 32] = [
    0x01, 0x23, 0x45, 0x67, 0x89, 0xAB, 0xCD, 0xEF, 0xFE, 0xDC, 0xBA, 0x98, 0x76, 0x54, 0x32, 0x10,
    0, 0, 0, 0, 0, 0, 0, 0, 0x80, 0, 0, 0, 0, 0, 0, 0x01,
];

/// A row is set and read by bytes, digits and machine words. By hand: a digit is four columns, a
/// byte eight and a word 64, the first the highest bit.
#[test]
fn digits_bytes_and_words(rt: HostRuntime) -> Result<(), NoMemory> {
    let mut planes = Planes::blank(rt.alloc(), Side::S256)?;
    planes.put_row(0, 0, &BYTES);
    set_row(&rt, &mut planes, 3, 255, ROW);
    check_row(&rt, &planes, 0, 0, ROW);
    check_row(&rt, &planes, 3, 255, ROW);
    check_digits(&rt, &planes);
    Ok(())
}

/// Checks that row `y` of plane `p`, both counted from 0, is `want`. Aborts if there is no such row
/// or plane.
pub(crate) fn check_row(rt: &impl Abort, planes: &Planes, p: usize, y: usize, want: Row) {
    assert!(rt; p < 4 && y < planes.side().number());
    same_at(rt, &planes.row_words(p, y), &want, &(p, y));
}

/// Checks that row 255 of plane 3 has the digits of `TEXT`, and that nothing is written after them.
/// Checks that the columns of row 0 of plane 0 are the bits of `ROW`.
fn check_digits(rt: &impl Abort, planes: &Planes) {
    assert!(rt; planes.side().number() == 256);
    let mut text = [b'-'; DIGITS];
    same_at(rt, &planes.row_hex(3, 255, &mut text), &64, &"digits");
    same_at(rt, &&text[..64], &TEXT, &"digits");
    same_at(rt, &&text[64..], &[b'-'; 64].as_slice(), &"what lies after");
    for x in 0..256 {
        let want = (ROW[x / 64] >> (63 - x % 64)) % 2 == 1;
        same_at(rt, &planes.bit(0, x, 0), &want, &x);
    }
}

/// Planes change their side, and are copied. At a side of 128 a row has two words, and what is
/// written past them isn't there. A copy has the cells and the side of other planes, and stays if
/// these change.
#[test]
fn sides_change(rt: HostRuntime) -> Result<(), NoMemory> {
    let mut planes = Planes::blank(rt.alloc(), Side::S512)?;
    planes.set_row_words(0, 511, [1; WORDS]);
    check_row(&rt, &planes, 0, 511, [1; WORDS]);
    planes.set_side(Side::S128);
    check_row(&rt, &planes, 0, 127, [0; WORDS]);
    planes.set_row_words(0, 127, [1; WORDS]);
    planes.set_row_words(3, 0, ROW);
    let mut copy = Planes::blank(rt.alloc(), Side::S256)?;
    copy.set_row_words(1, 7, ROW);
    copy.copy_from(&planes);
    planes.set_row_words(0, 127, [0; WORDS]);
    assert!(rt; copy.side() == Side::S128 && copy.limit() == Side::S256);
    check_row(&rt, &copy, 0, 127, [1, 1, 0, 0, 0, 0, 0, 0]);
    check_row(&rt, &copy, 3, 0, [FIRST, SECOND, 0, 0, 0, 0, 0, 0]);
    check_row(&rt, &copy, 1, 7, [0; WORDS]);
    check_row(&rt, &planes, 0, 127, [0; WORDS]);
    Ok(())
}
