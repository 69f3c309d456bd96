//! The address lines of a whole row of cells.
ghost use Rattle.std.specs.Prelude.{◌≡◌, ◌<◌, ℕ, map};
ghost use Rattle.cam6_planes.specs.Cells.{Cells, torus};
ghost use Rattle.cam6_planes.specs.Row.{column_bit};
ghost use Rattle.cam6_planes.specs.Side.{side_number};
ghost use Rattle.cam6_wiring.specs.Lines.{AreRowsAround, sees_at, at_column, address_in};
ghost use Rattle.cam6_wiring.specs.Seen.{line_shows, address};
ghost use Rattle.cam6_wiring.specs.Wiring.{names_of};

use crate::blocks::Grid;
use crate::names::{Half, Name, Phase};
use crate::neighbours::Setting;
use crate::rows::{Rows, put_seen};
use crate::wirings::{Hood, LINES, Minor, names_of};
use cam6_planes::{Row, WORDS};

/// What the cells of a row show on each address line, the lowest line first.
pub type Lines = [Row; LINES];

/// Returns the twelve address lines of row `y`, which has to be the middle row of `rows`. At each
/// column they show what the cell there sees under the lines' names, and 0 on a line without a
/// name. Words past the side may hold anything.
pub fn lines_of_row(
    half: Half,
    hood: Hood,
    minor: Minor,
    grid: Grid,
    phase: Phase,
    y: usize,
    rows: &Rows,
) -> Lines
    requires { y < side_number rows.now.side }
    ensures lines { (f : Cells) → AreRowsAround f y rows.now →
        (x : ℕ) → x < side_number rows.now.side → let s = side_number rows.now.side in
        at_column x result ≡ map (line_shows
        (sees_at s f (record { half = half; grid = grid; phase = phase }) x y))
        (names_of hood minor) }
    ensures address { (f : Cells) → AreRowsAround f y rows.now →
        (x : ℕ) → x < side_number rows.now.side → let s = side_number rows.now.side in
        address_in result x ≡ address s (torus s f)
        (record { half = half; grid = grid; phase = phase }) hood minor x y }
{
    let mut lines = [[0; WORDS]; LINES];
    let setting = Setting { half, grid, phase };
    put_lines(&mut lines, setting, hood, minor, y, rows);
    lines
}

/// Writes the twelve address lines of row `y`, the middle row of `rows`, to `lines`. At each column
/// they show what the cell there sees under the lines' names, and 0 on a line without a name. Words
/// past the side may hold anything.
pub fn put_lines(
    lines: &mut Lines,
    setting: Setting,
    hood: Hood,
    minor: Minor,
    y: usize,
    rows: &Rows,
)
    requires { y < side_number rows.now.side }
    ensures lines { (f : Cells) → AreRowsAround f y rows.now →
        (x : ℕ) → x < side_number rows.now.side → let s = side_number rows.now.side in
        at_column x lines.new ≡ map (line_shows (sees_at s f setting x y)) (names_of hood minor) }
    ensures address { (f : Cells) → AreRowsAround f y rows.now →
        (x : ℕ) → x < side_number rows.now.side → let s = side_number rows.now.side in
        address_in lines.new x ≡ address s (torus s f) setting hood minor x y }
{
    let names = names_of(hood, minor);
    for k in 0..LINES {
        put_line(&mut lines[k], setting, names[k], y, rows);
    }
}

/// Writes one address line of row `y`, the middle row of `rows`: at each column what the cell there
/// sees under the line's name. Without a name every column is 0.
fn put_line(line: &mut Row, setting: Setting, name: Option<Name>, y: usize, rows: &Rows)
    requires { y < side_number rows.now.side }
    ensures { (f : Cells) → AreRowsAround f y rows.now →
        (x : ℕ) → x < side_number rows.now.side → let s = side_number rows.now.side in
        column_bit line.new x ≡ line_shows (sees_at s f setting x y) name }
{
    match name {
        Some(name) => put_seen(line, setting, name, y, rows),
        None => *line = [0; WORDS],
    }
}
