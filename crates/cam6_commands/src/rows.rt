//! Rows as replies have them.
ghost use Rattle.std.specs.Prelude.{◌≡◌, ◌<◌, ◌≤◌, ◌/◌, take};
ghost use Rattle.std.specs.List.{AllByRecursion};
ghost use Rattle.std.specs.Str.{IsAscii};
ghost use Rattle.cam6_planes.specs.Stored.{width};
ghost use Rattle.cam6_planes.specs.Cells.{cells};
ghost use Rattle.cam6_planes.specs.Digits.{row_text};
ghost use Rattle.cam6_commands.specs.Limits.{max_colour};

use crate::items::Items;
use cam6_planes::{COLUMNS, DIGITS, Planes};
use std::marker::Model;

/// The text of a row: a lower case hexadecimal digit for every four columns. Contracts see it as
/// its bytes.
#[derive(Debug, Drop)]
pub struct RowText {
    digits: usize,
    text: [u8; DIGITS],
}

impl Model for RowText {
    ghost use Rattle.std.specs.Prelude.{List, ℕ, ◌≤◌, take};
    ghost use Rattle.std.specs.Str.{IsAscii};
    ghost use Rattle.cam6_planes.specs.declared.row.TheConstants.{DIGITS};

    ghost Value = { List ℕ };

    ghost view = { λ t. take t.digits t.text };

    ghost invariant = { λ t. (t.digits ≤ DIGITS) × IsAscii (take t.digits t.text) };
}

impl RowText {
    /// Returns the text of row `y` of plane `p`: a lower case hexadecimal digit for each four
    /// columns, from column 0 on. Plane `p` is from 0 to 3, and row `y` below the side.
    pub fn of(planes: &Planes, p: usize, y: usize) -> RowText
        requires plane { p < 4 }
        requires row { y < width planes.now }
        ensures { result ≡ row_text (width planes.now / 4) (λ x. cells planes.now p x y) }
    {
        let mut text = [0; DIGITS];
        let digits = planes.row_hex(p, y, &mut text);
        RowText { digits, text }
    }

    /// Lends the hexadecimal digits in ASCII, one for each four columns. Those of the lowest
    /// columns come first.
    pub fn as_slice(&self) -> &[u8]
        ensures digits { result.now ≡ self.now }
        ensures ascii { IsAscii result.now }
    {
        &self.text[..self.digits]
    }
}

/// The colours of a row's cells, from column 0 on. Contracts see them as a list.
#[derive(Debug, Drop)]
pub struct RowColours {
    count: usize,
    colours: [u8; COLUMNS],
}

impl Model for RowColours {
    ghost use Rattle.std.specs.Prelude.{List, ℕ, ◌≤◌, take};
    ghost use Rattle.std.specs.List.{AllByRecursion};
    ghost use Rattle.cam6_planes.specs.declared.row.TheConstants.{COLUMNS};
    ghost use Rattle.cam6_commands.specs.Limits.{max_colour};

    ghost Value = { List ℕ };

    ghost view = { λ r. take r.count r.colours };

    ghost invariant = { λ r.
        (r.count ≤ COLUMNS)
        × AllByRecursion (λ colour. colour ≤ max_colour) (take r.count r.colours) };
}

impl RowColours {
    ghost use Rattle.std.specs.Prelude.{◌≡◌, length};
    ghost use Rattle.cam6_planes.specs.declared.row.TheConstants.{COLUMNS};

    /// Returns a row of the first `count` of these colours, from column 0 on. `count` is at most
    /// 512, and each of these colours at most 15.
    pub fn new(count: usize, colours: [u8; COLUMNS]) -> RowColours
        requires count { count ≤ COLUMNS }
        requires colours { AllByRecursion (λ colour. colour ≤ max_colour) (take count colours) }
        ensures { result ≡ take count colours }
    {
        RowColours { count, colours }
    }

    /// Lends the colours of the row, each from 0 to 15, from column 0 on.
    pub fn as_slice(&self) -> &[u8]
        ensures value { result.now ≡ self.now }
        ensures few { length result.now ≤ COLUMNS }
        ensures small { AllByRecursion (λ colour. colour ≤ max_colour) result.now }
    {
        &self.colours[..self.count]
    }
}

/// The texts of a plane's rows, in order.
pub type PlaneRows = Items<RowText>;
