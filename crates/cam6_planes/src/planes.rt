//! The four planes of a machine.
ghost use Rattle.std.specs.Prelude.{◌≡◌, ◌<◌, ◌≤◌, ◌*◌, ◌/◌, ℕ, slice_index_or, slice_set};
ghost use Rattle.std.specs.Prelude.{[], IfOk, length, take, drop, false, replicate};
ghost use Rattle.std.specs.Str.{IsAscii};
ghost use Rattle.cam6_planes.specs.Row.{column_bit, byte_column};
ghost use Rattle.cam6_planes.specs.Digits.{row_text, row_bytes};
ghost use Rattle.cam6_planes.specs.Side.{side_number};
ghost use Rattle.cam6_planes.specs.Stored.{width};
ghost use Rattle.cam6_planes.specs.declared.row.TheConstants.{WORDS};
ghost use Rattle.cam6_planes.specs.Cells.{cells, no_cells, with_row, without_plane, IsRow};

use crate::digits::{Bits, bits_of_row, write_hex};
use crate::memory::NoMemory;
use crate::row::{CellRow, DIGITS, Row, WORDS, is_set, row_of_bytes};
use crate::sides::Side;
use std::alloc::Global;
use std::marker::Model;

/// Four bit planes, with room for planes of the limit's side. Each row of the storage holds that
/// row of all four.
#[derive(Drop)]
pub struct Planes {
    side: Side,
    limit: Side,
    rows: Vec<CellRow>,
}

impl Model for Planes {
    ghost use Rattle.std.specs.Prelude.{◌≤◌, vec_len};
    ghost use Rattle.cam6_planes.specs.Stored.{Stored};
    ghost use Rattle.cam6_planes.specs.Side.{side_number};

    ghost Value = { Stored };

    ghost view = { λ a. record {
      side = a.side;
      limit = a.limit;
      rows = a.rows.items;
    } };

    ghost invariant = { λ a.
        (side_number a.side ≤ side_number a.limit) × (side_number a.limit ≤ vec_len a.rows) };
}

impl Planes {
    /// Allocates planes of the limit's side, with every bit 0. Returns `NoMemory` if the allocation
    /// fails. No other function here allocates.
    pub fn blank(alloc: Global, limit: Side) -> Result<Planes, NoMemory>
        ensures cells { IfOk result (λ planes. cells planes ≡ no_cells) }
        ensures side { IfOk result (λ planes. planes.side ≡ limit) }
        ensures limit { IfOk result (λ planes. planes.limit ≡ limit) }
    {
        let side = limit.number();
        let mut rows = Vec::with_capacity(alloc, side)?;
        for _y in 0..side {
            rows.push([[0; WORDS]; 4])?;
        }
        Ok(Planes {
            side: limit,
            limit,
            rows,
        })
    }

    /// The side of the planes, which is at most their limit.
    pub fn side(&self) -> Side
        ensures side { result ≡ self.now.side }
        ensures within { width self.now ≤ side_number self.now.limit }
    {
        self.side
    }

    /// The largest side that the planes may have.
    pub fn limit(&self) -> Side
        ensures { result ≡ self.now.limit }
    {
        self.limit
    }

    /// Changes the side, which has to be at most the limit, and sets every bit to 0. Does not
    /// allocate.
    pub fn set_side(&mut self, side: Side)
        requires { side_number side ≤ side_number self.old.limit }
        ensures cells { cells self.new ≡ no_cells }
        ensures side { self.new.side ≡ side }
        ensures limit { self.new.limit ≡ self.old.limit }
    {
        clear(&mut self.rows);
        self.side = side;
    }

    /// The bit of plane `p`, from 0 to 3, at column `x` of row `y`. Both have to be below the side.
    #[tactic(auto, using(crate::proofs::CellsAt::cells_at, crate::proofs::SideNumbers::side_most))]
    pub fn bit(&self, p: usize, x: usize, y: usize) -> bool
        requires plane { p < 4 }
        requires column { x < width self.now }
        requires row { y < width self.now }
        ensures { result ≡ cells self.now p x y }
    {
        is_set(&plane_row(&self.rows[y], p), x)
    }

    /// Returns row `y` of plane `p`, 64 columns to a word. Column 0 is the highest bit of the first
    /// word. Words past the side are 0. `p` has to be below 4, and `y` below the side.
    pub fn row_words(&self, p: usize, y: usize) -> Row
        requires plane { p < 4 }
        requires row { y < width self.now }
        ensures value { (x : ℕ) → x < width self.now → column_bit result x ≡ cells self.now p x y }
        ensures past { (x : ℕ) → width self.now ≤ x → column_bit result x ≡ false }
    {
        let kept = plane_row(&self.rows[y], p);
        let mut row = [0; WORDS];
        for i in 0..self.side.words() {
            row[i] = kept[i];
        }
        row
    }

    /// Lends row `y` of all four planes, plane 0 first. Its words past the side may hold anything.
    /// `y` has to be below the side.
    #[tactic(auto, using(crate::proofs::CellsAt::row_of_stored))]
    pub fn row(&self, y: usize) -> &CellRow
        requires { y < width self.now }
        ensures { IsRow (width self.now) (cells self.now) y result.now }
    {
        &self.rows[y]
    }

    /// Writes row `y` of plane `p` to `text` as lower case hexadecimal digits, from column 0 on.
    /// Returns how many digits it wrote: a quarter of the side. The rest of `text` stays as it was.
    /// `p` has to be below 4, and `y` below the side.
    pub fn row_hex(&self, p: usize, y: usize, text: &mut [u8; DIGITS]) -> usize
        requires plane { p < 4 }
        requires row { y < width self.now }
        ensures digits { result ≡ width self.now / 4 }
        ensures value { take result text.new ≡ row_text result (λ x. cells self.now p x y) }
        ensures past { drop result text.new ≡ drop result text.old }
        ensures ascii { IsAscii (take result text.new) }
    {
        let digits = self.side.number() / 4;
        let row = self.row_words(p, y);
        write_hex(&row, &mut text[..digits]);
        digits
    }

    /// Returns the bits of row `y` of plane `p`, as many as the side has columns. `p` has to be
    /// below 4, and `y` below the side.
    pub fn row_bits(&self, p: usize, y: usize) -> Bits
        requires plane { p < 4 }
        requires row { y < width self.now }
        ensures { result ≡ row_bytes (width self.now / 8) (λ x. cells self.now p x y) }
    {
        bits_of_row(&self.row_words(p, y), self.side)
    }

    /// Replaces row `y` of plane `p`. Column 0 is the highest bit of the first word. Words past the
    /// side are ignored. `p` has to be below 4, and `y` below the side.
    pub fn set_row_words(&mut self, p: usize, y: usize, words: Row)
        requires plane { p < 4 }
        requires row { y < width self.old }
        ensures cells { cells self.new
            ≡ with_row (width self.old) (cells self.old) p y (column_bit words) }
        ensures side { self.new.side ≡ self.old.side }
        ensures limit { self.new.limit ≡ self.old.limit }
    {
        set_plane_row(&mut self.rows[y], p, words);
    }

    /// Replaces row `y` of plane `p` by these bytes, one for each eight columns of the side. The
    /// highest bit of the first byte is column 0. `p` has to be below 4, and `y` below the side.
    pub fn put_row(&mut self, p: usize, y: usize, bits: &[u8])
        requires plane { p < 4 }
        requires row { y < width self.old }
        requires bits { 8 * length bits.now ≡ width self.old }
        ensures cells { cells self.new
            ≡ with_row (width self.old) (cells self.old) p y (byte_column bits.now) }
        ensures side { self.new.side ≡ self.old.side }
        ensures limit { self.new.limit ≡ self.old.limit }
    {
        let words = self.side.words();
        self.set_row_words(p, y, row_of_bytes(bits, words));
    }

    /// Sets every bit of plane `p`, from 0 to 3, to 0.
    pub fn clear_plane(&mut self, p: usize)
        requires { p < 4 }
        ensures cells { cells self.new ≡ without_plane (width self.old) (cells self.old) p }
        ensures side { self.new.side ≡ self.old.side }
        ensures limit { self.new.limit ≡ self.old.limit }
    {
        clear_rows(&mut self.rows, p);
    }

    /// Copies the cells and the side of other planes. The limit stays as it was, and the other side
    /// has to be within it.
    pub fn copy_from(&mut self, other: &Planes)
        requires { width other.now ≤ side_number self.old.limit }
        ensures cells { cells self.new ≡ cells other.now }
        ensures side { self.new.side ≡ other.now.side }
        ensures limit { self.new.limit ≡ self.old.limit }
    {
        copy_rows(&mut self.rows, &other.rows, other.side.number());
        self.side = other.side;
    }
}

/// Copies the first `count` rows of `from` to `to`. Both need at least as many rows. The other rows
/// of `to` stay as they are.
fn copy_rows(to: &mut [CellRow], from: &[CellRow], count: usize)
    requires to { count ≤ length to.old }
    requires from { count ≤ length from.now }
    ensures { (y : ℕ) → y < count → slice_index_or to.new y [] ≡ slice_index_or from.now y [] }
{
    for y in 0..count {
        to[y] = from[y];
    }
}

/// Sets every bit of the rows to 0, in all four planes and past the side too.
fn clear(rows: &mut [CellRow])
    ensures { (y : ℕ) → y < length rows.old →
        slice_index_or rows.new y [] ≡ replicate 4 (replicate WORDS 0) }
{
    for row in rows {
        *row = [[0; WORDS]; 4];
    }
}

/// Sets plane `p`, from 0 to 3, to 0 in each row. The other planes stay as they are.
fn clear_rows(rows: &mut [CellRow], p: usize)
    requires { p < 4 }
    ensures planes { (y : ℕ) → y < length rows.old → length (slice_index_or rows.old y []) ≡ 4 }
    ensures value { (y : ℕ) → y < length rows.old → slice_index_or rows.new y []
        ≡ slice_set (slice_index_or rows.old y []) p (replicate WORDS 0) }
{
    for row in rows {
        set_plane_row(row, p, [0; WORDS]);
    }
}

/// Returns the words of plane `p`, from 0 to 3, in a stored row of all four planes.
fn plane_row(rows: &CellRow, p: usize) -> Row
    requires { p < 4 }
    ensures { result ≡ slice_index_or rows.now p [] }
{
    rows[p]
}

/// Replaces the words of plane `p`, from 0 to 3, in a stored row. The other planes stay as they
/// are.
fn set_plane_row(rows: &mut CellRow, p: usize, words: Row)
    requires { p < 4 }
    ensures planes { length rows.old ≡ 4 }
    ensures value { rows.new ≡ slice_set rows.old p words }
{
    rows[p] = words;
}
