//! In which part, and from which row of it on, each line's unit is seen.
ghost use Rattle.std.specs.Prelude.{◌≡◌, ◌<◌, ◌≤◌, ◌*◌, ◌+◌, ◌==◌, ℕ, IfSome, Some, None};
ghost use Rattle.std.specs.Prelude.{slice_index_or, length, take, drop, [], IsTrue};
ghost use Rattle.cam6_lines.specs.declared.parts.TheConstants.{PART};
ghost use Rattle.cam6_lines.specs.declared.units.TheConstants.{UNIT};
ghost use Rattle.std.specs.Int.{bit_at};
ghost use Rattle.cam6_wiring.specs.declared.names.Name.{Name};
ghost use Rattle.cam6_wiring.specs.declared.wirings.TheConstants.{LINES};
ghost use Rattle.cam6_lines.specs.Internal.Views.{part_beside, part_name, seen_beside_from, seen_from};
ghost use Rattle.cam6_lines.specs.Internal.Views.{unit_of, IsInside, IsPartFor, IsSeen, AreViews};
ghost use Rattle.cam6_lines.specs.Internal.Views.{HasParts};

use crate::parts::{PART, SeenRows};
use crate::units::{UNIT, Unit};
use cam6_wiring::{Compass, LINES, Name};

/// Where a unit is seen: in a part, from a row on.
#[derive(Clone, Copy)]
pub(crate) struct View {
    pub(crate) part: u8,
    pub(crate) row: u8,
}

/// The parts that lines need: the names for which they are made, in the order in which they lie.
#[derive(Clone, Copy)]
pub(crate) struct Needed {
    pub(crate) names: [Option<Name>; LINES],
    pub(crate) count: usize,
}

/// A unit in which every line shows 0.
static NOTHING: Unit = [0; UNIT];

/// Lends the unit that a view picks from the parts, or a unit of zeros without a view. A row of the
/// parts has `words` words, at most 4. The view's part has to be among `parts`, and its row at most
/// 2.
#[inline]
pub(crate) fn unit_of(parts: &[SeenRows], words: usize, view: Option<View>) -> &Unit
    requires view { IfSome view (IsInside (length parts.now)) }
    requires words { words ≤ 4 }
    ensures { result.now ≡ unit_of parts.now words view }
{
    match view {
        Some(View { part, row }) => unit_at(parts, usize::from(part), words * usize::from(row)),
        None => &NOTHING,
    }
}

/// Lends the unit that begins at word `start` of the part at index `part`. The part has to exist,
/// and `start` has to be at most 8.
#[inline]
fn unit_at(parts: &[SeenRows], part: usize, start: usize) -> &Unit
    requires part { part < length parts.now }
    requires start { start + UNIT ≤ PART }
    ensures { result.now ≡ take UNIT (drop start (slice_index_or parts.now part [])) }
{
    parts[part][start..].first_chunk().unwrap()
}

impl Needed {
    /// Returns a list of no parts.
    pub(crate) fn none() -> Needed
        ensures { result.count ≡ 0 }
    {
        Needed {
            names: [None; LINES],
            count: 0,
        }
    }

    /// Returns where each line is seen, in which part and from which row on, line 0 first. It is
    /// `None` for a line without a bit in the mask `asked` or without a name. Adds the parts in
    /// which the lines are seen to the list, which has to be empty.
    pub(crate) fn views_of(
        &mut self,
        asked: u16,
        names: &[Option<Name>; LINES],
    ) -> [Option<View>; LINES]
        requires { self.old.count ≡ 0 }
        ensures views { AreViews asked names.now self.new result }
        ensures most { self.new.count ≤ LINES }
    {
        let mut views = [None; LINES];
        for k in 0..LINES {
            views[k] = self.view_of(is_asked(asked, k), names[k]);
        }
        views
    }

    /// Returns where a line with this name is seen, in which part and from which row on. Returns
    /// `None` if the line isn't asked for or has no name. Adds the part if it is missing. There
    /// have to be fewer than twelve parts.
    fn view_of(&mut self, asked: bool, name: Option<Name>) -> Option<View>
        requires { self.old.count < LINES }
        ensures seen { IsSeen self.new asked name result }
        ensures kept { HasParts self.old self.new }
        ensures more { self.new.count ≤ self.old.count + 1 }
    {
        match name {
            Some(name) if asked => {
                let part = self.place_of(name_of_part(name)) as u8;
                Some(View {
                    part,
                    row: seen_from(name) as u8,
                })
            }
            _ => None,
        }
    }

    /// Returns the index in the list of the part that is made for this name. Adds the part at the
    /// end if it is missing. There have to be fewer than twelve parts.
    fn place_of(&mut self, name: Name) -> usize
        requires { self.old.count < LINES }
        ensures place { IsPartFor self.new name result }
        ensures kept { HasParts self.old self.new }
        ensures more { self.new.count ≤ self.old.count + 1 }
    {
        for place in 0..self.count {
            if is_named(self.names[place], name) {
                return place;
            }
        }
        let place = self.count;
        self.names[place] = Some(name);
        self.count += 1;
        place
    }
}

/// Whether `known` is this name. Returns false for `None`.
fn is_named(known: Option<Name>, name: Name) -> bool
    ensures { IsTrue result → known ≡ Some name }
{
    match known {
        Some(known) => known == name,
        None => false,
    }
}

/// Whether the mask `asked` has a bit for the line, from 0 to 11. Line 0 is the lowest bit.
#[inline]
fn is_asked(asked: u16, line: usize) -> bool
    requires { line < LINES }
    ensures { result ≡ (bit_at asked line == 1) }
{
    asked >> line & 1 == 1
}

/// Returns the name for which the part is made in which this name is seen. It is the same direction
/// without its north or south, at the same level. A name without a direction has its own part.
fn name_of_part(name: Name) -> Name
    ensures { result ≡ part_name name }
{
    match name {
        Name::Beside(compass, level) => Name::Beside(part_beside(compass), level),
        _ => name,
    }
}

/// Returns the direction without its north or south: the centre, west or east.
fn part_beside(compass: Compass) -> Compass
    ensures { result ≡ part_beside compass }
{
    match compass {
        Compass::Center | Compass::North | Compass::South => Compass::Center,
        Compass::West | Compass::NorthWest | Compass::SouthWest => Compass::West,
        Compass::East | Compass::NorthEast | Compass::SouthEast => Compass::East,
    }
}

/// Returns the first row of its part, counted from 0, in which this name is seen. It is 0 if the
/// name looks to the north, 2 if to the south, else 1.
fn seen_from(name: Name) -> usize
    ensures row { result ≡ seen_from name }
    ensures within { result ≤ 2 }
{
    match name {
        Name::Beside(Compass::North | Compass::NorthWest | Compass::NorthEast, _) => 0,
        Name::Beside(Compass::South | Compass::SouthWest | Compass::SouthEast, _) => 2,
        _ => 1,
    }
}
