//! The cells of a pattern, read line by line.
ghost use Rattle.std.specs.Prelude.{◌≡◌, ◌++◌, OnOk, [], replicate, if◌then◌else◌, true, Ok, Err};
ghost use Rattle.cam6_patterns.specs.declared.reading.Unread.TheVariants.{Fault};

use crate::faults::{Cause, PatternFault};
use crate::headers::{MOST_CELLS, is_blank, is_decimal};
use crate::patterns::PatternRow;
use crate::reading::Unread;
use std::alloc::{AllocError, AllocFailed, Global};
use std::marker::Model;
use std::mem;

/// How many columns, rows and states there may be.
#[derive(Drop)]
pub(crate) struct Bounds {
    pub(crate) width: usize,
    pub(crate) height: usize,
    pub(crate) states: u8,
}

impl Model for Bounds {
    ghost use Rattle.cam6_patterns.specs.Body.{Bounds};

    ghost Value = { Bounds };

    ghost view = { λ b. record { width = b.width; height = b.height; states = b.states } };
}

/// Whether more may come, or the end was met.
#[derive(Clone, Copy)]
pub(crate) enum Going {
    More,
    Over,
}

/// What was read of the cells.
#[derive(Drop)]
pub(crate) struct Cells {
    alloc: Global,
    rows: Vec<PatternRow>,
    cells: Vec<u8>,
    count: Option<u16>,
}

impl Model for Cells {
    ghost use Rattle.cam6_patterns.specs.Body.{Read};

    ghost Value = { Read };

    ghost view = { λ r. record { rows = r.rows.items; cells = r.cells.items; count = r.count } };
}

impl Cells {
    ghost use Rattle.std.specs.Prelude.{ℕ, IfOk};
    ghost use Rattle.cam6_patterns.specs.Body.{nothing_read, whole_rows, times, is_counting, sign};
    ghost use Rattle.cam6_patterns.specs.Body.{with_digit, with_cells, with_row_ends, step};
    ghost use Rattle.cam6_patterns.specs.Body.{whole_line_read};
    ghost use Rattle.cam6_patterns.specs.Outcome.{StepsTo};

    /// Makes the cells of which nothing is read yet: no row, no cell and no count.
    pub(crate) fn new(alloc: Global) -> Cells
        ensures { result ≡ nothing_read }
    {
        Cells {
            alloc,
            rows: Vec::new(alloc),
            cells: Vec::new(alloc),
            count: None,
        }
    }

    /// Returns all rows that were read. A last row that didn't end counts if it has a cell.
    pub(crate) fn into_rows(self) -> Result<Vec<PatternRow>, AllocFailed<PatternRow>>
        ensures { IfOk result (λ rows. rows.items ≡ whole_rows self) }
    {
        let mut rows = self.rows;
        if !self.cells.is_empty() {
            rows.push(PatternRow { states: self.cells })?;
        }
        Ok(rows)
    }

    /// Reads a line of cells, whose number is `line`, counted from 1. At the line's end, a count
    /// without a sign is a fault. Returns `Over` after a `!`, and doesn't read what comes after it.
    /// Otherwise returns `More`, the line's first fault, or `NoMemory`.
    pub(crate) fn read_line(
        &mut self,
        bounds: &Bounds,
        line: usize,
        bytes: &[u8],
    ) -> Result<Going, Unread>
        ensures { StepsTo (whole_line_read bounds.now line bytes.now self.old) self.new result }
    {
        let mut rest = bytes;
        let mut column = 1;
        while let Some((byte, after)) = rest.split_first() {
            if let Going::Over = self.step(bounds, line, column, *byte)? {
                return Ok(Going::Over);
            }
            rest = after;
            column += 1;
        }
        self.unless_counting(line, column, Going::More)
    }

    /// Reads one byte, at this line and column, both counted from 1: a digit of a count, a space,
    /// tab or CR, a `$`, a `!` or a cell. Any other byte is a fault, and so is a space, tab, CR or
    /// `!` after a count. Returns `Over` after a `!`, and `More` after any other byte.
    fn step(
        &mut self,
        bounds: &Bounds,
        line: usize,
        column: usize,
        byte: u8,
    ) -> Result<Going, Unread>
        ensures { StepsTo (step bounds.now line column self.old (sign byte)) self.new result }
    {
        if is_decimal(byte) {
            self.add_digit(line, column, byte - b'0')
        } else if is_blank(byte) {
            self.unless_counting(line, column, Going::More)
        } else if byte == b'$' {
            self.end_rows(bounds, line, column)
        } else if byte == b'!' {
            self.unless_counting(line, column, Going::Over)
        } else if byte == b'b' || byte == b'.' {
            self.add_cells(bounds, line, column, 0)
        } else if byte == b'o' {
            self.add_cells(bounds, line, column, 1)
        } else if b'A' <= byte && byte < b'Y' {
            self.add_cells(bounds, line, column, byte - 64)
        } else {
            Err(fault(line, column, Cause::Unexpected))
        }
    }

    /// Appends a digit, from 0 to 9, to the count that is being read, and returns `More`. A count
    /// above 512 is a fault at this line and column.
    fn add_digit(&mut self, line: usize, column: usize, digit: u8) -> Result<Going, Unread>
        ensures { StepsTo (with_digit line column self.old digit) self.new result }
    {
        let number = 10 * u32::from(self.counted()) + u32::from(digit);
        if number > MOST_CELLS as u32 {
            return Err(fault(line, column, Cause::CountTooLarge));
        }
        self.count = Some(number as u16);
        Ok(Going::More)
    }

    /// Adds cells of this state to the row: as many as the count before them says, or one without a
    /// count. Returns `More`. It is a fault if the width or the height of `bounds` is exceeded, or
    /// if `state` isn't less than its number of states. Fails with `NoMemory` if an allocation
    /// fails.
    fn add_cells(
        &mut self,
        bounds: &Bounds,
        line: usize,
        column: usize,
        state: u8,
    ) -> Result<Going, Unread>
        ensures { StepsTo (with_cells bounds.now line column self.old state) self.new result }
    {
        let times = self.times();
        let cells = self.cells.len();
        if bounds.states <= state {
            return Err(fault(line, column, Cause::TooManyStates));
        }
        if bounds.width < cells || bounds.width - cells < times {
            return Err(fault(line, column, Cause::TooWide));
        }
        if bounds.height <= self.rows.len() {
            return Err(fault(line, column, Cause::TooHigh));
        }
        self.cells.resize(cells + times, state)?;
        self.count = None;
        Ok(Going::More)
    }

    /// Ends as many rows as the count before a `$` says, or one without a count: this row, and then
    /// rows without a cell. Returns `More`. More rows than the height of `bounds` are a fault.
    /// Fails with `NoMemory` if an allocation fails.
    fn end_rows(&mut self, bounds: &Bounds, line: usize, column: usize) -> Result<Going, Unread>
        ensures { StepsTo (with_row_ends bounds.now line column self.old) self.new result }
    {
        let times = self.times();
        let rows = self.rows.len();
        if bounds.height < rows || bounds.height - rows < times {
            return Err(fault(line, column, Cause::TooHigh));
        }
        self.count = None;
        if times > 0 {
            let states = mem::replace(&mut self.cells, Vec::new(self.alloc));
            self.rows.push(PatternRow { states })?;
            push_empty(self.alloc, &mut self.rows, times - 1)?;
        }
        Ok(Going::More)
    }

    /// Returns the count that is being read, or 0 if there is none.
    fn counted(&self) -> u16
        ensures { result
            ≡ (if is_counting self.now.count then times self.now.count else 0) }
    {
        match self.count {
            Some(count) => count,
            None => 0,
        }
    }

    /// Returns how often the next `$` or cell counts: the count that was just read, or 1 if there
    /// is none.
    fn times(&self) -> usize
        ensures { result ≡ times self.now.count }
    {
        match self.count {
            Some(count) => usize::from(count),
            None => 1,
        }
    }

    /// Returns `going`, or the fault `Unexpected` at this line and column if a count was read last.
    fn unless_counting(&self, line: usize, column: usize, going: Going) -> Result<Going, Unread>
        ensures { result ≡ (if is_counting self.now.count
            then Err (Fault (record { line = line; column = column; cause = Cause.Unexpected }))
            else Ok going) }
    {
        if self.count.is_some() {
            return Err(fault(line, column, Cause::Unexpected));
        }
        Ok(going)
    }
}

/// Pushes `count` rows without a cell.
fn push_empty(
    alloc: Global,
    rows: &mut Vec<PatternRow>,
    count: usize,
) -> Result<(), AllocFailed<PatternRow>>
    ensures { OnOk result (rows.new.items ≡ rows.old.items ++ replicate count []) }
{
    for _row in 0..count {
        rows.push(PatternRow {
            states: Vec::new(alloc),
        })?;
    }
    Ok(())
}

/// Returns the error for a fault at this line and column, both counted from 1.
pub(crate) fn fault(line: usize, column: usize, cause: Cause) -> Unread
    ensures { result ≡ Fault (record { line = line; column = column; cause = cause }) }
{
    Unread::Fault(PatternFault {
        line,
        column,
        cause,
    })
}
