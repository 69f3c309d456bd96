//! Patterns on a torus.
ghost use Rattle.std.specs.Prelude.{◌≡◌, ◌<◌, ◌≤◌, ◌+◌, ◌++◌, ◌==◌, length};
ghost use Rattle.std.specs.Int.{bit_at};
ghost use Rattle.cam6_planes.specs.Row.{bit_number};
ghost use Rattle.cam6_patterns.specs.Pattern.{most_cells, state_in};
ghost use Rattle.cam6_planes.specs.Side.{side_number};
ghost use Rattle.cam6_show_frames.specs.Front.{WritesFront};
ghost use Rattle.cam6_patterns.specs.Placing.{placed};

use crate::patterns::{Pattern, PatternRow};
use arrayvec::ArrayVec;
use cam6_planes::{BYTES, DIGITS, Side};
use cam6_show_frames::{Unshown, write_bytes};
use itoa::Buffer;
use std::io::Write;
use std::marker::Model;

/// One to four planes. The first has a state's lowest bit. Contracts see a list.
#[derive(Debug, Drop)]
pub struct ChosenPlanes {
    pub(crate) count: usize,
    pub(crate) planes: [u8; 4],
}

impl Model for ChosenPlanes {
    ghost use Rattle.std.specs.Prelude.{◌<◌, ◌≤◌, List, ℕ, take};
    ghost use Rattle.std.specs.List.{AllByRecursion};

    ghost Value = { List ℕ };

    ghost view = { λ c. take c.count c.planes };

    ghost invariant = { λ c. (0 < c.count) × (c.count ≤ 4)
        × AllByRecursion (λ plane. plane < 4) (take c.count c.planes) };
}

impl ChosenPlanes {
    ghost use Rattle.std.specs.Prelude.{◌≡◌, ◌<◌, ◌≤◌, ◌^◌, length, take};
    ghost use Rattle.std.specs.List.{AllByRecursion};

    /// Makes the list of the first `count` of these planes, from 1 to 4. Each of them is a number
    /// from 0 to 3.
    pub fn new(count: usize, planes: [u8; 4]) -> ChosenPlanes
        requires some { 0 < count }
        requires few { count ≤ 4 }
        requires planes { AllByRecursion (λ plane. plane < 4) (take count planes) }
        ensures { result ≡ take count planes }
    {
        ChosenPlanes { count, planes }
    }

    /// Returns how many states the planes can hold: 2, 4, 8 or 16.
    pub fn states(&self) -> u8
        ensures value { result ≡ 2 ^ length self.now }
        ensures few { result ≤ 16 }
    {
        match self.count {
            1 => 2,
            2 => 4,
            3 => 8,
            _ => 16,
        }
    }

    /// Returns the planes in order, at least one and at most four.
    fn as_slice(&self) -> &[u8]
        ensures { result.now ≡ self.now }
    {
        &self.planes[..self.count]
    }
}

/// Writes the `set` command lines that put a pattern on a torus of this side. Each of its rows has
/// one line for each plane: plane k of `planes`, from 0, gets bit k of the states. The pattern's
/// own upper left corner is moved by `column` columns and `row` rows, each less than 512.
pub fn write_placed<W: Write>(
    writer: &mut W,
    side: Side,
    column: usize,
    row: usize,
    planes: &ChosenPlanes,
    pattern: &Pattern,
) -> Result<(), Unshown>
    requires column { column < most_cells }
    requires row { row < most_cells }
    ensures { WritesFront result (W.contents writer.old) (W.contents writer.new)
        (placed (side_number side) column row planes.now pattern.now) }
{
    let placement = Placement {
        side,
        first: column + pattern.column,
        top: row + pattern.row,
        pattern,
    };
    for y in 0..pattern.height {
        placement.write_row(writer, planes, y)?;
    }
    Ok(())
}

/// A pattern on a torus, with its first column at `first` and its first row at `top`.
#[derive(Drop)]
struct Placement<'a> {
    side: Side,
    first: usize,
    top: usize,
    pattern: &'a Pattern,
}

impl Placement<'_> {
    ghost use Rattle.std.specs.Prelude.{take, ◌/◌, ◌%◌, ◌+◌, ◌≤◌, ◌*◌, ℕ, length};
    ghost use Rattle.std.specs.List.{AllByRecursion};
    ghost use Rattle.cam6_planes.specs.Row.{bit_number};
    ghost use Rattle.cam6_planes.specs.Digits.{four_columns, eight_columns, row_bytes, row_text};
    ghost use Rattle.cam6_patterns.specs.Placing.{bit_placed, set_line};
    ghost use Rattle.cam6_patterns.specs.Outcome.{lines_of_row};

    /// Writes the `set` lines of the pattern's row `y`, counted from 0 and less than 512: one for
    /// each plane. Plane k of `planes`, from 0, gets bit k of the states.
    fn write_row<W: Write>(
        &self,
        writer: &mut W,
        planes: &ChosenPlanes,
        y: usize,
    ) -> Result<(), Unshown>
        requires top { self.now.top < 2 * most_cells }
        requires row { y < most_cells }
        ensures { WritesFront result (W.contents writer.old) (W.contents writer.new)
            (lines_of_row (side_number self.now.side) self.now.first self.now.top
            self.now.pattern.now y 0 planes.now) }
    {
        for (k, plane) in planes.as_slice().iter().enumerate() {
            let line = self.set_line(*plane, k, y);
            write_bytes(writer, line.as_slice())?;
        }
        Ok(())
    }

    /// Returns the command line, with its LF, that sets a row of this plane. Its bits are bit `k`,
    /// 0 the lowest, of the states in the pattern's row `y`. `y` is less than 512.
    fn set_line(&self, plane: u8, k: usize, y: usize) -> Line
        requires top { self.now.top < 2 * most_cells }
        requires row { y < most_cells }
        ensures { let side = side_number self.now.side in
            result.items ≡ set_line side plane ((self.now.top + y) % side)
            (bit_placed side self.now.first self.now.pattern.now k y) }
    {
        let side = self.side.number();
        let digits = self.digits(k, y);
        let mut number = Buffer::new();
        let mut line = Line::new();
        push_all(&mut line, b"{\"bits\":\"");
        push_all(&mut line, &digits[..side / 4]);
        push_all(&mut line, b"\",\"do\":\"set\",\"plane\":");
        push_all(&mut line, number.format(plane).as_bytes());
        push_all(&mut line, b",\"row\":");
        push_all(&mut line, number.format((self.top + y) % side).as_bytes());
        push_all(&mut line, b"}\n");
        line
    }

    /// Returns the hexadecimal digits of a row of a plane: bit `k` of the states in the pattern's
    /// row `y`. There are four columns to a digit, the first its highest bit. Only a quarter as
    /// many digits as the side has columns count.
    fn digits(&self, k: usize, y: usize) -> [u8; DIGITS]
        ensures { let n = side_number self.now.side / 4 in
            take n result ≡ row_text n
            (bit_placed (side_number self.now.side) self.now.first self.now.pattern.now k y) }
    {
        let bytes = self.bytes(k, y);
        let columns = self.side.number();
        let mut digits = [0; DIGITS];
        hex::encode_to_slice(&bytes[..columns / 8], &mut digits[..columns / 4]).unwrap();
        digits
    }

    /// Returns the bytes of a row of a plane: bit `k` of the states in the pattern's row `y`. There
    /// are eight columns to a byte, the first its highest bit. Only an eighth as many bytes as the
    /// side has columns count.
    fn bytes(&self, k: usize, y: usize) -> [u8; BYTES]
        ensures { let n = side_number self.now.side / 8 in
            take n result ≡ row_bytes n
            (bit_placed (side_number self.now.side) self.now.first self.now.pattern.now k y) }
    {
        let mut bytes = [0; BYTES];
        for i in 0..self.side.number() / 8 {
            bytes[i] = self.eight_columns(k, y, 8 * i);
        }
        bytes
    }

    /// Returns bit `k` of the states at the torus's columns x to x + 7, in the pattern's row `y`,
    /// as a number. Column x gives the highest bit. All eight are less than 512.
    fn eight_columns(&self, k: usize, y: usize, x: usize) -> u8
        requires { x + 8 ≤ most_cells }
        ensures { result ≡ eight_columns
            (bit_placed (side_number self.now.side) self.now.first self.now.pattern.now k y) x }
    {
        16 * self.four_columns(k, y, x) + self.four_columns(k, y, x + 4)
    }

    /// Returns bit `k` of the states at the torus's columns x to x + 3, in the pattern's row `y`,
    /// as a number. Column x gives the highest bit. All four are less than 512.
    fn four_columns(&self, k: usize, y: usize, x: usize) -> u8
        requires { x + 4 ≤ most_cells }
        ensures columns { result ≡ four_columns
            (bit_placed (side_number self.now.side) self.now.first self.now.pattern.now k y) x }
        ensures digit { result < 16 }
    {
        8 * self.bit(k, y, x)
            + 4 * self.bit(k, y, x + 1)
            + 2 * self.bit(k, y, x + 2)
            + self.bit(k, y, x + 3)
    }

    /// Returns bit `k`, 0 the lowest, of the state at the torus's column `x`, in the pattern's row
    /// `y`. It is 0 beside the pattern. `x` is less than 512.
    fn bit(&self, k: usize, y: usize, x: usize) -> u8
        requires { x < most_cells }
        ensures bit { result ≡ bit_number (bit_placed (side_number self.now.side) self.now.first
            self.now.pattern.now k y x) }
        ensures small { result < 2 }
    {
        let side = self.side.number();
        let column = (x + (side - self.first % side)) % side;
        let pattern = self.pattern;
        if column < pattern.width {
            bit_of(state_in(&pattern.rows, column, y), k)
        } else {
            0
        }
    }
}

/// A command line that sets a row.
type Line = ArrayVec<u8, LINE>;

/// Bytes that such a line can have.
const LINE: usize = DIGITS + 128;

/// Pushes bytes to a line that has room for them.
fn push_all(line: &mut Line, bytes: &[u8])
    requires { length line.old.items + length bytes.now ≤ LINE }
    ensures { line.new.items ≡ line.old.items ++ bytes.now }
{
    line.try_extend_from_slice(bytes).unwrap();
}

/// Returns the state at column `x` of row `y`, both counted from 0, or 0 if the rows leave it out.
fn state_in(rows: &[PatternRow], x: usize, y: usize) -> u8
    ensures { result ≡ state_in rows.now x y }
{
    match rows.get(y) {
        None => 0,
        Some(row) => match row.states.get(x) {
            None => 0,
            Some(state) => *state,
        },
    }
}

/// Returns bit `k` of a state, counted from the lowest, which is 0. It is 0 for `k` from 8 on.
fn bit_of(state: u8, k: usize) -> u8
    ensures bit { result ≡ bit_number (bit_at state k == 1) }
    ensures small { result < 2 }
{
    if k < 8 { (state >> k) & 1 } else { 0 }
}
