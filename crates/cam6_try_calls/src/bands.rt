//! A billiard ball's step in bands that crosses the corner of a torus of each side, and is moved to
//! another image in its middle. A program's boards take a step as it is.

use crate::planes::{check_row, lone, same_at, set_row};
use cam6_band::{AtRest, EntryTables, HalfTable, MidStep, Next, Spare};
use cam6_planes::{NoMemory, Planes, Side, WORDS};
use cam6_table::{Table, compile};
use cam6_wiring::{Grid, Half, Hood, Minor, Phase, Wiring};
use std::alloc::Global;
use std::process::Abort;

/// A lone ball of a block goes to the opposite corner, two that face each other to the other two.
const BILLIARDS: &str = ": S4 CENTER CW + CCW + OPP + ; : D CENTER OPP = IF CW ELSE CENTER THEN ; \
    : B S4 { CENTER OPP D CENTER CENTER } >PLN0 ;";

const WIRING: Wiring = Wiring {
    half: Half::A,
    hood: Hood::Margolus,
    minor: Minor::Phases,
};

/// Returns the table of the billiard-ball rule, or `None` if its text is no rule or memory runs
/// out.
fn billiards(alloc: Global) -> Option<Table> {
    let mut table = Table::blank(alloc).ok()?;
    let _code = compile(alloc, WIRING, BILLIARDS, &mut table).ok()?;
    Some(table)
}

/// Does `bands` more bands of a step, and returns the step. None of them may be the last.
fn after_bands(rt: &impl Abort, mid: MidStep, tables: &EntryTables, bands: u16) -> MidStep {
    let mut mid = mid;
    for _band in 0..bands {
        mid = match mid.band(tables) {
            Next::More(more) => more,
            Next::Whole(_) => panic!(rt; "no row is left"),
        };
    }
    mid
}

/// Does the last band of a step, and returns its image. Aborts if it isn't the last.
fn last_band(rt: &impl Abort, mid: MidStep, tables: &EntryTables) -> AtRest {
    match mid.band(tables) {
        Next::Whole(image) => image,
        Next::More(more) => {
            let _given_up = more.abandon();
            panic!(rt; "rows are left")
        }
    }
}

/// Checks that this many bands of the step are done, on a torus of this side, which is its limit
/// too.
fn check_mid(rt: &impl Abort, mid: &MidStep, side: Side, bands: u16) {
    let got = (mid.rows() / 16, mid.side(), mid.limit());
    same_at(rt, &got, &(bands, side, side), &side);
}

/// Moves a step to another image, whose limit is at least the step's side. Returns the step, and
/// the limit of the image that it left.
fn moved(rt: &impl Abort, mid: MidStep, spare: Spare) -> (MidStep, Side) {
    assert!(rt; mid.side().number() <= spare.limit().number());
    let (mid, spare) = mid.move_into(spare);
    (mid, spare.limit())
}

/// Checks that a step of a lone ball is right if it is moved to another image after this many
/// bands. The ball is at column 0 of row 0. By hand, from the picture of the two grids: on the odd
/// one that cell is the lower right one of its block. The upper left one stands at the last column
/// of the last row.
fn check_moved(
    rt: &impl Abort,
    alloc: Global,
    tables: &EntryTables,
    side: Side,
    bands: u16,
) -> Result<(), NoMemory> {
    let mut planes = Planes::blank(alloc, side)?;
    let spare = Spare::of(Planes::blank(alloc, side)?);
    set_row(rt, &mut planes, 0, 0, lone(0));
    let mid = after_bands(rt, AtRest::of(planes).begin(tables), tables, bands);
    check_mid(rt, &mid, side, bands);
    let (mid, limit) = moved(rt, mid, spare);
    same_at(rt, &limit, &side, &bands);
    check_mid(rt, &mid, side, bands);
    let left = (side.number() / 16 - 1) as u16;
    let mid = after_bands(rt, mid, tables, left.saturating_sub(bands));
    check_ball(rt, last_band(rt, mid, tables).planes());
    Ok(())
}

/// Checks that plane 0 has a lone cell, at the last column of the last row.
fn check_ball(rt: &impl Abort, planes: &Planes) {
    let last = planes.side().number() - 1;
    for row in 0..last {
        check_row(rt, planes, 0, row, [0; WORDS]);
    }
    check_row(rt, planes, 0, last, lone(last));
}

/// A step is moved after one band, and after all but the last.
#[test]
fn a_step_is_moved(rt: HostRuntime) -> Result<(), NoMemory> {
    let table = billiards(rt.alloc()).ok_or(NoMemory)?;
    let Wiring { hood, minor, .. } = WIRING;
    let table = &table;
    let tables = EntryTables {
        a: Some(HalfTable { table, hood, minor }),
        b: None,
        grid: Grid::Odd,
        phase: Phase::P0,
    };
    for (side, bands) in [(Side::S128, 7), (Side::S256, 15), (Side::S512, 31)] {
        check_moved(&rt, rt.alloc(), &tables, side, 1)?;
        check_moved(&rt, rt.alloc(), &tables, side, bands)?;
    }
    Ok(())
}
