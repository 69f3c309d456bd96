//! What the cells of a unit see on the address lines that are asked for.
ghost use Rattle.std.specs.Prelude.{◌≡◌, ◌<◌, ◌≤◌, ◌+◌, ◌*◌, ℕ, List, [], map, length};
ghost use Rattle.std.specs.Prelude.{slice_index_or, Some, None};
ghost use Rattle.cam6_planes.specs.Cells.{Cells};
ghost use Rattle.cam6_wiring.specs.Lines.{at_column, sees_at};
ghost use Rattle.cam6_wiring.specs.Seen.{line_shows};
ghost use Rattle.cam6_wiring.specs.Wiring.{names_of};
ghost use Rattle.cam6_lines.specs.Bands.{IsBandOf, IsWithin, side_of};
ghost use Rattle.cam6_lines.specs.Limits.{height};
ghost use Rattle.cam6_lines.specs.Units.{columns, place, asked_for};
ghost use Rattle.cam6_lines.specs.Internal.Parts.{ShowsPart};
ghost use Rattle.cam6_lines.specs.Internal.Views.{IsPartFor};
ghost use Rattle.cam6_wiring.specs.declared.names.Name.{Name};
ghost use Rattle.cam6_wiring.specs.declared.wirings.TheConstants.{LINES};

use crate::bands::Band;
use crate::parts::{PART, SeenRows, put_part};
use crate::plans::Plan;
use crate::units::{Unit, words_of_row};
use crate::views::{Needed, View, unit_of};
use cam6_planes::Side;
use cam6_wiring::{LINES, Name, Setting};
use std::marker::Model;

/// What the cells of a unit show on each address line, the lowest line first.
pub type Lines<'a> = [&'a Unit; LINES];

/// Scratch for what a unit's cells see on their address lines. It is made once and lent to each band.
/// Contracts see it as the units of the twelve lines.
#[derive(Drop)]
pub struct UnitLines {
    parts: [SeenRows; LINES],
    views: [Option<View>; LINES],
    /// Words of a row of the parts.
    words: usize,
}

impl Model for UnitLines {
    ghost use Rattle.std.specs.Prelude.{◌≡◌, ◌≤◌, ℕ, List, map, length, slice_index_or, None, IfSome};
    ghost use Rattle.cam6_wiring.specs.declared.wirings.TheConstants.{LINES};
    ghost use Rattle.cam6_lines.specs.Internal.Views.{unit_of, IsInside};

    ghost Value = { List (List ℕ) };

    ghost view = { λ l. map (unit_of l.parts l.words) l.views };

    ghost invariant = { λ l. (length l.views ≡ LINES) × (l.words ≤ 4)
        × ((k : ℕ) → IfSome (slice_index_or l.views k None) (IsInside LINES)) };
}

impl UnitLines {
    /// Makes scratch in which every line shows 0.
    pub fn blank() -> UnitLines {
        UnitLines {
            parts: [[0; PART]; LINES],
            views: [None; LINES],
            words: 0,
        }
    }

    /// Replaces the lines by what the cells of a unit of the band see on the lines for which the
    /// plan asks. The other lines show 0. `unit` is the unit's number in the band, from 0 to below
    /// `units_of_band`. The band has to lie in its planes.
    pub fn put(&mut self, plan: &Plan, setting: &Setting, band: &Band, unit: usize)
        requires within { IsWithin band.now }
        requires unit { columns band.now.planes.now.side * unit < side_of band.now }
        ensures { (f : Cells) → IsBandOf f band.now → (r i : ℕ) → r < height →
            let side = band.now.planes.now.side in i < columns side →
            at_column (place side r i) self.new ≡ asked_for plan.now.lines (map (line_shows
            (sees_at (side_of band.now) f setting.now (columns side * unit + i) (band.now.first + r)))
            (names_of plan.now.hood plan.now.minor)) }
    {
        put_parts(&mut self.parts, &plan.needed, setting, band, unit);
        self.views = plan.views;
        self.words = words_of_row(band.planes.side());
    }

    /// Lends the twelve lines of the unit for which `put` was called last, line 0 first. They show
    /// 0 if it has not been called.
    pub fn lines<'a>(&'a self) -> Lines<'a>
        ensures { map (λ line. line.now) result ≡ self.now }
    {
        let parts = &self.parts;
        let views = &self.views;
        let words = self.words;
        [
            unit_of(parts, words, views[0]),
            unit_of(parts, words, views[1]),
            unit_of(parts, words, views[2]),
            unit_of(parts, words, views[3]),
            unit_of(parts, words, views[4]),
            unit_of(parts, words, views[5]),
            unit_of(parts, words, views[6]),
            unit_of(parts, words, views[7]),
            unit_of(parts, words, views[8]),
            unit_of(parts, words, views[9]),
            unit_of(parts, words, views[10]),
            unit_of(parts, words, views[11]),
        ]
    }
}

/// Writes each part that is needed for a unit of the band, by loops that are compiled for the words
/// of a unit's row. There have to be at least as many parts as are needed. `unit` is the unit's
/// number in the band, from 0.
fn put_parts(parts: &mut [SeenRows], needed: &Needed, setting: &Setting, band: &Band, unit: usize)
    requires room { needed.now.count ≤ length parts.old }
    requires most { needed.now.count ≤ LINES }
    requires within { IsWithin band.now }
    requires unit { columns band.now.planes.now.side * unit < side_of band.now }
    ensures { (f : Cells) → IsBandOf f band.now → (place : ℕ) (name : Name) →
        IsPartFor needed.now name place →
        ShowsPart f setting.now name band.now unit (slice_index_or parts.new place []) }
{
    match band.planes.side() {
        Side::S128 => put_parts_at::<2>(parts, needed, Side::S128, setting, band, unit),
        Side::S256 => put_parts_at::<4>(parts, needed, Side::S256, setting, band, unit),
        Side::S512 => put_parts_at::<4>(parts, needed, Side::S512, setting, band, unit),
    }
}

/// Writes each part that is needed for a unit of the band, whose side has to be `side`. A row of
/// the unit has to have `W` words. `unit` is the unit's number in the band, from 0.
fn put_parts_at<const W: usize>(
    parts: &mut [SeenRows],
    needed: &Needed,
    side: Side,
    setting: &Setting,
    band: &Band,
    unit: usize,
)
    requires room { needed.now.count ≤ length parts.old }
    requires most { needed.now.count ≤ LINES }
    requires words { 64 * W ≡ columns band.now.planes.now.side }
    requires side { side ≡ band.now.planes.now.side }
    requires within { IsWithin band.now }
    requires unit { columns band.now.planes.now.side * unit < side_of band.now }
    ensures { (f : Cells) → IsBandOf f band.now → (place : ℕ) (name : Name) →
        IsPartFor needed.now name place →
        ShowsPart f setting.now name band.now unit (slice_index_or parts.new place []) }
{
    for k in 0..needed.count {
        put_named::<W>(&mut parts[k], needed.names[k], side, setting, band, unit);
    }
}

/// Writes to `part` what the cells of a unit of the band see under a name. Without a name the part
/// stays as it was. A row of the unit has to have `W` words, and the band has to have this side.
#[inline(always)]
fn put_named<const W: usize>(
    part: &mut SeenRows,
    name: Option<Name>,
    side: Side,
    setting: &Setting,
    band: &Band,
    unit: usize,
)
    requires words { 64 * W ≡ columns band.now.planes.now.side }
    requires side { side ≡ band.now.planes.now.side }
    requires within { IsWithin band.now }
    requires unit { columns band.now.planes.now.side * unit < side_of band.now }
    ensures { (f : Cells) → IsBandOf f band.now → (known : Name) → name ≡ Some known →
        ShowsPart f setting.now known band.now unit part.new }
{
    if let Some(name) = name {
        put_part::<W>(part, side, setting, name, band, unit);
    }
}
