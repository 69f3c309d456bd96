//! Rows of colours one after another, until they are a frame.
ghost use Rattle.std.specs.Prelude.{◌≡◌, ◌↔◌, IsTrue, IfOk, OnErr, Err, None, Some};
ghost use Rattle.cam6_show_frames.specs.Run.{taken};
ghost use Rattle.cam6_show_frames.specs.Unfinished.{IsUnfinished, goes_on};
ghost use Rattle.cam6_show_frames.specs.declared.runs.Untaken.TheVariants.{BreaksOff};

use crate::frames::{Frame, RowInColours};
use crate::replies::ReplyCells;
use std::alloc::Global;
use std::marker::Model;
use std::mem::replace;

/// The rows of a frame that is under way. Contracts see it as a list of rows.
#[derive(Debug, Drop)]
pub struct Run {
    rows: Vec<RowInColours>,
}

impl Model for Run {
    ghost use Rattle.std.specs.Prelude.{List, ℕ};
    ghost use Rattle.cam6_show_frames.specs.Unfinished.{IsUnfinished};

    ghost Value = { List (List ℕ) };

    ghost view = { λ r. r.rows.items };

    ghost invariant = { λ r. IsUnfinished r.rows.items };
}

/// Why a reply can't be taken.
#[derive(Clone, Copy, Debug, PartialEq, Eq)]
pub enum Untaken {
    /// The frame under way breaks off.
    BreaksOff,
    /// An allocation for the row failed.
    NoMemory,
}

impl Run {
    ghost use Rattle.std.specs.Prelude.{[]};

    /// Makes a run without rows.
    pub fn new(alloc: Global) -> Run
        ensures { result ≡ [] }
    {
        Run {
            rows: Vec::new(alloc),
        }
    }

    /// Returns whether the run has no rows of an unfinished frame.
    pub(crate) fn is_empty(&self) -> bool
        ensures { IsTrue result ↔ (self.now ≡ []) }
    {
        self.rows.is_empty()
    }

    /// Adds the cells of a reply, and returns the frame that they complete, if they do. A plane is
    /// a frame at once. If rows of an unfinished frame are there, returns `BreaksOff` for all cells
    /// but a row of their length. Returns `NoMemory` if an allocation fails. On an error the rows
    /// stay.
    pub fn take(&mut self, alloc: Global, said: ReplyCells) -> Result<Option<Frame>, Untaken>
        ensures ok { IfOk result (λ frame. taken self.old said
            ≡ Some (record { rows = self.new; frame = frame })) }
        ensures breaks_off { result ≡ Err BreaksOff → taken self.old said ≡ None }
        ensures kept { OnErr result (self.new ≡ self.old) }
    {
        match said {
            ReplyCells::Colours(row) => add_row(alloc, &mut self.rows, row),
            ReplyCells::Plane(frame) if self.rows.is_empty() => Ok(Some(frame)),
            ReplyCells::Other if self.rows.is_empty() => Ok(None),
            ReplyCells::Plane(_) | ReplyCells::Other => Err(Untaken::BreaksOff),
        }
    }
}

/// Adds a row to those of an unfinished frame. If the frame has as many rows as columns now,
/// returns it, and leaves no rows. Returns `BreaksOff` if the row's length differs, and `NoMemory`
/// if an allocation fails. On an error the rows stay.
fn add_row(
    alloc: Global,
    rows: &mut Vec<RowInColours>,
    row: RowInColours,
) -> Result<Option<Frame>, Untaken>
    requires { IsUnfinished rows.old.items }
    ensures unfinished { IsUnfinished rows.new.items }
    ensures ok { IfOk result (λ frame. taken rows.old.items (ReplyCells.Colours row)
        ≡ Some (record { rows = rows.new.items; frame = frame })) }
    ensures breaks_off { result ≡ Err BreaksOff → taken rows.old.items (ReplyCells.Colours row) ≡ None }
    ensures kept { OnErr result (rows.new.items ≡ rows.old.items) }
{
    if !has_same_length(rows, &row) {
        return Err(Untaken::BreaksOff);
    }
    let columns = row.columns();
    let Ok(()) = rows.push(row) else {
        return Err(Untaken::NoMemory);
    };
    if rows.len() < columns {
        return Ok(None);
    }
    Ok(Some(Frame::new(replace(rows, Vec::new(alloc)))))
}

/// Returns whether a row is as long as the rows before it. It is true if there are none.
fn has_same_length(rows: &[RowInColours], row: &RowInColours) -> bool
    ensures { result ≡ goes_on rows.now row.now }
{
    match rows.first() {
        Some(first) => row.columns() == first.columns(),
        None => true,
    }
}
