//! The lines before the cells: remarks, and the header.
ghost use Rattle.std.specs.Prelude.{◌≡◌, ◌<◌, ℕ, Option, MatchOption, None, Some, option_and_then, ◌*◌};
ghost use Rattle.std.specs.Prelude.{codes};
ghost use Rattle.cam6_patterns.specs.Pattern.{most_cells};
ghost use Rattle.cam6_patterns.specs.Header.{is_blank, is_decimal, past_blanks, number_at_front};
ghost use Rattle.cam6_patterns.specs.Header.{number_after};
ghost use Rattle.cam6_patterns.specs.Header.{strip_prefix, after_sign, extent_at_front, ends_header};
ghost use Rattle.cam6_patterns.specs.Header.{extents_in, offset_at_front, corner_at_front};
ghost use Rattle.cam6_patterns.specs.Header.{after_first, corner_in, if_none};
ghost use Rattle.cam6_patterns.specs.Reading.{box, on_head, on_header};
ghost use Rattle.cam6_patterns.specs.Outcome.{StandsFor, AreExtents, LeadsTo, boxed};
ghost use Rattle.cam6_planes.specs.Side.{side_number};

use crate::faults::{Cause, PatternFault};
use cam6_planes::{COLUMNS, Side};

/// The most columns and rows of a pattern, and of a torus.
pub(crate) const MOST_CELLS: usize = COLUMNS;

/// Where a pattern lies, and how large it is.
#[derive(Clone, Copy)]
pub(crate) struct Extent {
    pub(crate) width: usize,
    pub(crate) height: usize,
    pub(crate) column: usize,
    pub(crate) row: usize,
}

/// How far a line before the cells leads.
#[derive(Clone, Copy)]
pub(crate) enum Head {
    /// The header comes later, and remarks may have said where the pattern lies.
    Before(Option<(usize, usize)>),
    /// The line is the header.
    Within(Extent),
}

/// Reads a line before the cells: a remark, a blank line, or the header. `number` is the line's
/// number, counted from 1. `corner` is the pattern's upper left corner, a column and a row, if a
/// remark before had one. Any other line is a fault, and so is a header with a number above the
/// side.
pub(crate) fn read_head(
    side: Side,
    number: usize,
    corner: Option<(usize, usize)>,
    line: &[u8],
) -> Result<Head, PatternFault>
    ensures { (states : ℕ) → LeadsTo states
        (on_head (side_number side) states number corner line.now) result }
{
    let Some((first, _)) = line.split_first() else {
        return Ok(Head::Before(corner));
    };
    if *first == b'#' {
        return Ok(Head::Before(first_or_second(corner_in(line), corner)));
    }
    if past_blanks(line).is_empty() {
        return Ok(Head::Before(corner));
    }
    check_header(side, number, corner, extents_in(line))
}

/// Returns where the pattern lies, and how large it is. `extents` is the header's width and height,
/// or `None` if the line is no header, which is a fault. A width or height above the side is one
/// too. `number` is the line's, counted from 1.
fn check_header(
    side: Side,
    number: usize,
    corner: Option<(usize, usize)>,
    extents: Option<(usize, usize)>,
) -> Result<Head, PatternFault>
    ensures { (states : ℕ) (said : Option (ℕ × ℕ)) → AreExtents said extents →
        LeadsTo states (on_header (side_number side) states number corner said) result }
{
    let Some((width, height)) = extents else {
        return Err(fault(number, Cause::NoHeader));
    };
    if side.number() < width {
        return Err(fault(number, Cause::TooWide));
    }
    if side.number() < height {
        return Err(fault(number, Cause::TooHigh));
    }
    Ok(Head::Within(boxed(corner, width, height)))
}

/// Returns where a pattern lies, and how large it is. Its upper left corner is `corner`, a column
/// and a row, or column 0 of row 0 for `None`.
fn boxed(corner: Option<(usize, usize)>, width: usize, height: usize) -> Extent
    ensures { boxed result ≡ box corner (width, height) }
{
    match corner {
        None => Extent {
            width,
            height,
            column: 0,
            row: 0,
        },
        Some((column, row)) => Extent {
            width,
            height,
            column,
            row,
        },
    }
}

/// Returns the first pair if it is there, or else the second, which may be `None`.
fn first_or_second(
    first: Option<(usize, usize)>,
    second: Option<(usize, usize)>,
) -> Option<(usize, usize)>
    ensures { result ≡ if_none first second }
{
    match first {
        None => second,
        Some(found) => Some(found),
    }
}

/// Returns the fault of this cause at the first column of a line. `line` is its number, counted
/// from 1.
fn fault(line: usize, cause: Cause) -> PatternFault
    ensures { result ≡ (record { line = line; column = 1; cause = cause }) }
{
    PatternFault {
        line,
        column: 1,
        cause,
    }
}

/// Returns whether a byte is a space, a tab, or a CR.
pub(crate) fn is_blank(byte: u8) -> bool
    ensures { result ≡ is_blank byte }
{
    byte == b' ' || byte == b'\t' || byte == b'\r'
}

/// Returns whether a byte is a decimal digit.
pub(crate) fn is_decimal(byte: u8) -> bool
    ensures { result ≡ is_decimal byte }
{
    b'0' <= byte && byte < b':'
}

/// Returns the bytes after the spaces, tabs and CRs at their front.
fn past_blanks(bytes: &[u8]) -> &[u8]
    ensures { result.now ≡ past_blanks bytes.now }
{
    let mut rest = bytes;
    while let Some((byte, later)) = rest.split_first() {
        if !is_blank(*byte) {
            return rest;
        }
        rest = later;
    }
    rest
}

/// Returns the decimal number at the front, and the bytes after it. A number from 1,024 on is
/// reduced as `lowered` says. Returns `None` if no digit stands at the front.
fn number_at_front(bytes: &[u8]) -> Option<(usize, &[u8])>
    ensures { MatchOption result (number_at_front bytes.now ≡ None)
        (λ r. (n : ℕ) × (number_at_front bytes.now ≡ Some (n, r.1.now)) × StandsFor n r.0) }
{
    let (first, later) = bytes.split_first()?;
    if !is_decimal(*first) {
        return None;
    }
    Some(number_after(usize::from(*first - b'0'), later))
}

/// Returns the decimal number of the digit `first`, from 0 to 9, and of the digits at the front
/// after it. Also returns the bytes after these. A number from 1,024 on is reduced as `lowered`
/// says.
fn number_after(first: usize, bytes: &[u8]) -> (usize, &[u8])
    requires { first < 10 }
    ensures { (n : ℕ) × (number_after first bytes.now ≡ (n, result.1.now))
        × StandsFor n result.0 }
{
    let mut number = first;
    let mut rest = bytes;
    while let Some((byte, later)) = rest.split_first() {
        if !is_decimal(*byte) {
            return (number, rest);
        }
        number = lowered(10 * number + usize::from(*byte - b'0'));
        rest = later;
    }
    (number, rest)
}

/// Reduces a large number. A number below 1,024 stays as it is. A larger one becomes one from 1,024
/// to 1,535 that is the same modulo 512.
fn lowered(number: usize) -> usize
    ensures same { StandsFor number result }
    ensures small { result < 3 * most_cells }
{
    if number < 2 * MOST_CELLS {
        number
    } else {
        2 * MOST_CELLS + number % MOST_CELLS
    }
}

/// Returns the bytes after `first`, or `None` if the bytes don't begin with it.
fn strip_prefix<'a>(first: &[u8], bytes: &'a [u8]) -> Option<&'a [u8]>
    ensures { MatchOption result (strip_prefix first.now bytes.now ≡ None)
        (λ r. strip_prefix first.now bytes.now ≡ Some r.now) }
{
    let mut wanted = first;
    let mut rest = bytes;
    while let Some((want, wanted_later)) = wanted.split_first() {
        let (byte, later) = rest.split_first()?;
        if *want != *byte {
            return None;
        }
        wanted = wanted_later;
        rest = later;
    }
    Some(rest)
}

/// Returns the bytes after any spaces, tabs and CRs and then the byte `sign`. Returns `None` if
/// another byte, or none, comes after the blanks.
fn after_sign(sign: u8, bytes: &[u8]) -> Option<&[u8]>
    ensures { MatchOption result (after_sign sign bytes.now ≡ None)
        (λ r. after_sign sign bytes.now ≡ Some r.now) }
{
    strip_prefix(&[sign], past_blanks(bytes))
}

/// Returns the number after this letter and an equals sign, and the bytes after the number. Spaces,
/// tabs and CRs may stand before each of the three. Returns `None` if the bytes don't begin so.
fn extent_at_front(letter: u8, bytes: &[u8]) -> Option<(usize, &[u8])>
    ensures { MatchOption result (extent_at_front letter bytes.now ≡ None)
        (λ r. (n : ℕ) × (extent_at_front letter bytes.now ≡ Some (n, r.1.now))
        × StandsFor n r.0) }
{
    let rest = after_sign(letter, bytes)?;
    let rest = after_sign(b'=', rest)?;
    number_at_front(past_blanks(rest))
}

/// Returns whether the bytes are empty, or begin with a comma.
fn ends_header(bytes: &[u8]) -> bool
    ensures { result ≡ ends_header bytes.now }
{
    match bytes.split_first() {
        None => true,
        Some((byte, _)) => *byte == b',',
    }
}

/// Returns the width and the height in a header, `x = WIDTH, y = HEIGHT`, and at its end nothing or
/// a comma and more. A number from 1,024 on is reduced as `lowered` says. Returns `None` if the
/// line is no header.
fn extents_in(line: &[u8]) -> Option<(usize, usize)>
    ensures { AreExtents (extents_in line.now) result }
{
    let (width, rest) = extent_at_front(b'x', line)?;
    let rest = after_sign(b',', rest)?;
    let (height, rest) = extent_at_front(b'y', rest)?;
    if ends_header(past_blanks(rest)) {
        Some((width, height))
    } else {
        None
    }
}

/// Returns the whole number at the front, modulo 512 and so from 0 to 511, and the bytes after it.
/// A minus may stand before the number. Returns `None` if no number stands at the front.
fn offset_at_front(bytes: &[u8]) -> Option<(usize, &[u8])>
    ensures { MatchOption result (offset_at_front bytes.now ≡ None)
        (λ r. offset_at_front bytes.now ≡ Some (r.0, r.1.now)) }
{
    let (first, later) = bytes.split_first()?;
    if *first == b'-' {
        let (number, rest) = number_at_front(later)?;
        Some(((MOST_CELLS - number % MOST_CELLS) % MOST_CELLS, rest))
    } else {
        let (number, rest) = number_at_front(bytes)?;
        Some((number % MOST_CELLS, rest))
    }
}

/// Returns the column and the row at the front, each modulo 512, with the byte `between` between
/// them. Returns `None` if the bytes don't begin so.
fn corner_at_front(between: u8, bytes: &[u8]) -> Option<(usize, usize)>
    ensures { result ≡ corner_at_front between bytes.now }
{
    let (column, rest) = offset_at_front(bytes)?;
    let rest = strip_prefix(&[between], rest)?;
    let (row, _) = offset_at_front(rest)?;
    Some((column, row))
}

/// Returns the bytes after the first place where `wanted` stands. Returns `None` if it stands
/// nowhere, or if `bytes` is empty.
fn after_first<'a>(wanted: &[u8], bytes: &'a [u8]) -> Option<&'a [u8]>
    ensures { MatchOption result (after_first wanted.now bytes.now ≡ None)
        (λ r. after_first wanted.now bytes.now ≡ Some r.now) }
{
    let mut rest = bytes;
    while let Some((_, later)) = rest.split_first() {
        if let Some(found) = strip_prefix(wanted, rest) {
            return Some(found);
        }
        rest = later;
    }
    None
}

/// Returns the column and the row of a pattern's upper left corner, each modulo 512, that a remark
/// has. It stands after `#P `, `#R `, or the `Pos=` of a `#CXRLE ` line. Returns `None` for any
/// other line.
fn corner_in(line: &[u8]) -> Option<(usize, usize)>
    ensures { result ≡ corner_in line.now }
{
    let second = first_or_second(corner_after(b"#P ", line), corner_after(b"#R ", line));
    first_or_second(corner_of_position(line), second)
}

/// Returns the column and the row, each modulo 512, after `Pos=` in a remark that begins with
/// `#CXRLE `, as Golly writes it. A comma stands between them. Returns `None` for any other line.
fn corner_of_position(line: &[u8]) -> Option<(usize, usize)>
    ensures { result
        ≡ option_and_then
        (λ rest. option_and_then (corner_at_front 44) (after_first (codes "Pos=") rest))
        (strip_prefix (codes "#CXRLE ") line.now) }
{
    let rest = strip_prefix(b"#CXRLE ", line)?;
    corner_at_front(b',', after_first(b"Pos=", rest)?)
}

/// Returns the column and the row, each modulo 512, with a space between them, after the bytes
/// `first` at the front of a line. Returns `None` for any other line.
fn corner_after(first: &[u8], line: &[u8]) -> Option<(usize, usize)>
    ensures { result ≡ option_and_then (corner_at_front 32) (strip_prefix first.now line.now) }
{
    corner_at_front(b' ', strip_prefix(first, line)?)
}
