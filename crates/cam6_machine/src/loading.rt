//! A machine that was saved on its way back: what is found of it, and its planes.
ghost use Rattle.std.specs.Prelude.{◌≡◌, ◌<◌, ◌≤◌, [], length, true, is_ok, IfOk, IsOk};
ghost use Rattle.std.specs.List.{list_all};
ghost use Rattle.cam6_planes.specs.Side.{side_number};
ghost use Rattle.cam6_planes.specs.Cells.{cells, torus};
ghost use Rattle.cam6_model.specs.Saved.{saved_bit};
ghost use Rattle.cam6_model.specs.Refusals.{is_row, are_rows, are_planes, are_entries, is_position};
ghost use Rattle.cam6_rules.specs.Numbers.{entries_of, named_entries, AreNumbered};
ghost use Rattle.cam6_machine.specs.Internal.Loading.{IsLoaded, with_rows};

use crate::refusals::accept_colours;
use cam6_commands::{BitRows, Fault, NamedEntries, NamedEntry, SavedMachine};
use cam6_cycle::Cycle;
use cam6_planes::{Bits, NoMemory, Planes, Side};
use cam6_rules::{Rules, Tables};
use std::alloc::Global;

/// The planes of a machine that was saved, and their side.
#[derive(Drop)]
pub(crate) struct LoadedPlanes {
    pub(crate) side: Side,
    pub(crate) rows: [BitRows; 4],
}

/// A machine that was saved, as it is loaded.
#[derive(Drop)]
pub(crate) struct Loaded {
    pub(crate) planes: LoadedPlanes,
    pub(crate) rules: Rules,
    pub(crate) cycle: Option<Cycle>,
    pub(crate) position: usize,
    pub(crate) colours: [u8; 16],
}

/// Checks what was saved of a machine, and returns it as it is loaded. Returns `Ok(Err(NoMachine))`
/// if no machine saves this, and otherwise `Ok(Err(AboveLimit))` if its side is above the limit.
/// `Err` is only for a failed allocation. `scratch` lends memory to try its rules, and stays as it
/// was.
pub(crate) fn check_saved_machine(
    alloc: Global,
    limit: Side,
    saved: SavedMachine,
    scratch: &mut Tables,
) -> Result<Result<Loaded, Fault>, NoMemory>
    ensures loaded { IfOk result (λ found. IsLoaded limit saved found) }
    ensures scratch { scratch.new ≡ scratch.old }
    // Only rules need memory.
    ensures memory { saved.rules ≡ [] → IsOk result }
{
    let SavedMachine {
        colours,
        cycle,
        planes,
        position,
        rules,
        side,
    } = saved;
    let Some(side) = Side::of(side) else {
        return Ok(Err(Fault::NoMachine));
    };
    if !are_planes(side, &planes) {
        return Ok(Err(Fault::NoMachine));
    }
    let Ok(colours) = accept_colours(&colours) else {
        return Ok(Err(Fault::NoMachine));
    };
    let Some(rules) = Rules::of(alloc, rules, scratch)? else {
        return Ok(Err(Fault::NoMachine));
    };
    if !is_position(cycle.as_slice(), position) {
        return Ok(Err(Fault::NoMachine));
    }
    let Ok(cycle) = cycle_of(&rules, &cycle) else {
        return Ok(Err(Fault::NoMachine));
    };
    if side.number() > limit.number() {
        return Ok(Err(Fault::AboveLimit));
    }
    // `len` gives the proof the invariant of rules.
    let _number = rules.len();
    Ok(Ok(Loaded {
        planes: LoadedPlanes { side, rows: planes },
        rules,
        cycle,
        position: position as usize,
        colours,
    }))
}

/// Returns the cycle of these entries, with the numbers of their rules, or `None` if there are no
/// entries. Returns the fault if the entries are refused.
fn cycle_of(rules: &Rules, entries: &NamedEntries) -> Result<Option<Cycle>, Fault>
    ensures entries { is_ok result ≡ are_entries rules.now entries.now }
    ensures named { IfOk result (λ cycle.
        named_entries rules.now (entries_of cycle) ≡ entries.now) }
    ensures numbered { IfOk result (λ cycle. AreNumbered rules.now (entries_of cycle)) }
{
    if entries.as_slice().is_empty() {
        return Ok(None);
    }
    Ok(Some(rules.cycle_of(entries)?))
}

/// Whether the position, counted from 0, is below the number of entries. If there are no entries,
/// whether it is 0.
fn is_position(entries: &[NamedEntry], position: u64) -> bool
    ensures { result ≡ is_position entries.now position }
{
    if entries.is_empty() {
        position == 0
    } else {
        position < entries.len() as u64
    }
}

/// Whether these are four planes of this side: each has a row of bits for each row of the torus.
fn are_planes(side: Side, planes: &[BitRows; 4]) -> bool
    ensures { result ≡ are_planes (side_number side) planes.now }
{
    all_planes(side, planes)
}

/// Whether each of these planes has all rows of this side. How many planes there are doesn't
/// matter.
fn all_planes(side: Side, planes: &[BitRows]) -> bool
    ensures { result ≡ list_all (are_rows (side_number side)) planes.now }
{
    planes.iter().all(|rows| are_rows(side, rows))
}

/// Whether a plane has as many rows as this side, and each row a bit for each column.
fn are_rows(side: Side, rows: &BitRows) -> bool
    ensures { result ≡ are_rows (side_number side) rows.now }
{
    let rows = rows.as_slice();
    rows.len() == side.number() && all_rows(side, rows)
}

/// Whether each of these rows has a bit for each column of this side. How many rows there are
/// doesn't matter.
fn all_rows(side: Side, rows: &[Bits]) -> bool
    ensures { result ≡ list_all (is_row (side_number side)) rows.now }
{
    rows.iter().all(|row| is_row(side, row))
}

/// Whether a row has a bit for each column of this side.
fn is_row(side: Side, row: &Bits) -> bool
    ensures { result ≡ is_row (side_number side) row.now }
{
    row.as_slice().len() == side.number() / 8
}

/// Changes the side of the planes, and writes all rows of the four planes. The side must be within
/// the limit of the planes, and each plane have all rows and columns of it.
pub(crate) fn put_planes(planes: &mut Planes, side: Side, rows: &[BitRows; 4])
    requires within { side_number side ≤ side_number planes.old.limit }
    requires rows { are_planes (side_number side) rows.now ≡ true }
    ensures cells { cells planes.new ≡ torus (side_number side) (saved_bit rows.now) }
    ensures side { planes.new.side ≡ side }
    ensures limit { planes.new.limit ≡ planes.old.limit }
{
    planes.set_side(side);
    for p in 0..4 {
        put_rows(planes, p, rows[p].as_slice());
    }
}

/// Writes all rows of plane `p`, from 0 to 3, from row 0 on. There must be one for each row of the
/// side, with a bit for each column.
fn put_rows(planes: &mut Planes, p: usize, rows: &[Bits])
    requires plane { p < 4 }
    requires rows { are_rows (side_number planes.old.side) rows.now ≡ true }
    ensures cells { cells planes.new ≡ with_rows (side_number planes.old.side)
        (cells planes.old) p (length rows.now) rows.now }
    ensures side { planes.new.side ≡ planes.old.side }
    ensures limit { planes.new.limit ≡ planes.old.limit }
{
    for y in 0..rows.len() {
        planes.put_row(p, y, rows[y].as_slice());
    }
}
