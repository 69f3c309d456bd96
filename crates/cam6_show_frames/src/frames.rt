//! Rows of cells in colours, and frames of them.
ghost use Rattle.std.specs.Prelude.{◌≡◌, ◌<◌, take, length, All};
ghost use Rattle.std.specs.Bool.{OnTrue};
ghost use Rattle.std.specs.List.{AllByRecursion};
ghost use Rattle.cam6_planes.specs.Side.{side_number};
ghost use Rattle.cam6_planes.specs.declared.sides.Side.{Side};
ghost use Rattle.cam6_show_frames.specs.Frame.{colours, colour_at, IsRowOf, IsFrame};
ghost use Rattle.cam6_show_frames.specs.Replies.{are_long, frame_of_rows};

use cam6_planes::{COLUMNS, Side};
use std::marker::Model;

/// How many colours there are.
pub const COLOUR_COUNT: u8 = 16;

/// A row of cells, a colour from 0 to 15 for each column. Contracts see it as a list.
#[derive(Debug, Drop)]
pub struct RowInColours {
    side: Side,
    colours: [u8; COLUMNS],
}

impl Model for RowInColours {
    ghost use Rattle.std.specs.Prelude.{List, ℕ, take};
    ghost use Rattle.cam6_planes.specs.Side.{side_number};
    ghost use Rattle.cam6_show_frames.specs.Frame.{IsRowOf};

    ghost Value = { List ℕ };

    ghost view = { λ r. take (side_number r.side) r.colours };

    ghost invariant = { λ r. IsRowOf r.side (take (side_number r.side) r.colours) };
}

impl RowInColours {
    /// Makes a row of as many columns as the side has, with the first of these colours. Each of
    /// those is less than 16.
    pub(crate) fn new(side: Side, colours: [u8; COLUMNS]) -> RowInColours
        requires { IsRowOf side (take (side_number side) colours) }
        ensures { result ≡ take (side_number side) colours }
    {
        RowInColours { side, colours }
    }

    /// Returns how many columns the row has.
    pub(crate) fn columns(&self) -> usize
        ensures columns { result ≡ length self.now }
        ensures row { (side : Side) × (result ≡ side_number side) × IsRowOf side self.now }
    {
        self.side.number()
    }
}

/// A torus in colours: its rows, as many as each has columns. Contracts see it as a list of rows.
#[derive(Debug, Drop)]
pub struct Frame {
    rows: Vec<RowInColours>,
}

impl Model for Frame {
    ghost use Rattle.std.specs.Prelude.{List, ℕ};
    ghost use Rattle.cam6_show_frames.specs.Frame.{IsFrame};

    ghost Value = { List (List ℕ) };

    ghost view = { λ f. f.rows.items };

    ghost invariant = { λ f. IsFrame f.rows.items };
}

impl Frame {
    ghost use Rattle.cam6_show_frames.specs.Frame.{IsFrame};

    /// Makes the frame of these rows, from the top one on. There are as many rows as each has
    /// columns.
    pub(crate) fn new(rows: Vec<RowInColours>) -> Frame
        requires { IsFrame rows.items }
        ensures { result ≡ rows.items }
    {
        Frame { rows }
    }

    /// Returns the frame's side: how many rows and columns it has.
    pub fn side(&self) -> Side
        ensures side { side_number result ≡ length self.now }
        ensures frame { IsFrame self.now }
    {
        self.rows[0].side
    }

    /// Returns the colour, from 0 to 15, at a column and a row counted from 0. Numbers past the
    /// last go on round the torus.
    pub fn colour(&self, column: usize, row: usize) -> u8
        ensures value { result ≡ colour_at self.now column row }
        ensures few { result < colours }
    {
        let side = self.rows.len();
        self.rows[row % side].colours[column % side]
    }
}

/// Returns the frame of these rows. Returns `None` unless there are as many rows as each has
/// columns, and that is the number of a side.
pub(crate) fn frame_of_rows(rows: Vec<RowInColours>) -> Option<Frame>
    ensures { result ≡ frame_of_rows rows.items }
{
    let columns = rows.len();
    Side::of(columns as u64)?;
    if !are_long(columns, &rows) {
        return None;
    }
    Some(Frame::new(rows))
}

/// Returns whether each row has `columns` columns. It is true if there are no rows.
fn are_long(columns: usize, rows: &[RowInColours]) -> bool
    ensures long { result ≡ are_long columns rows.now }
    ensures rows { OnTrue result (All (λ row. (length row ≡ columns)
        × AllByRecursion (λ colour. colour < colours) row) rows.now) }
{
    for row in rows {
        if row.columns() != columns {
            return false;
        }
    }
    true
}
