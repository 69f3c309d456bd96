//! Functions of wirings that no program calls: the lines of rows against the addresses of their
//! cells, cell by cell, and by hand the corners of blocks and the rotations in them.

use crate::planes::{same_at, set_row};
use cam6_planes::{NoMemory, Planes, Side, WORDS};
use cam6_wiring::{
    Compass, Corner, Grid, Half, Hood, Level, Minor, Name, Phase, Rotation, Rows, Setting, Wiring,
    address_at, corner_of, in_block, lines_of_row, seen,
};
use std::alloc::Global;
use std::process::Abort;

const HOODS: [Hood; 5] = [
    Hood::Moore,
    Hood::VonNeumann,
    Hood::Margolus,
    Hood::MargolusHorzVert,
    Hood::MargolusPhase,
];

/// Makes four planes of this side with pseudorandom cells, which are the same at each call.
fn without_a_pattern(rt: &impl Abort, alloc: Global, side: Side) -> Result<Planes, NoMemory> {
    let mut planes = Planes::blank(alloc, side)?;
    let mut number: u64 = 1;
    for plane in 0..4 {
        for row in 0..side.number() {
            let mut words = [0; WORDS];
            for word in &mut words {
                number = number
                    .wrapping_mul(6_364_136_223_846_793_005)
                    .wrapping_add(1_442_695_040_888_963_407);
                *word = number ^ (number >> 29);
            }
            set_row(rt, &mut planes, plane, row, words);
        }
    }
    Ok(planes)
}

/// Checks that the lines of row `y`, one for each address bit from the lowest, have the address of
/// the cell at each column. A word's highest bit is its first column.
fn check_row(rt: &impl Abort, planes: &Planes, wiring: Wiring, grid: Grid, phase: Phase, y: usize) {
    let side = planes.side().number();
    assert!(rt; y < side);
    let Wiring { half, hood, minor } = wiring;
    let lines = lines_of_row(half, hood, minor, grid, phase, y, &Rows::around(planes, y));
    for x in 0..side {
        assert!(rt; x < side && y < side && x / 64 < WORDS);
        let mut shown: u16 = 0;
        for line in lines.iter().rev() {
            let bit = (line[x / 64] >> (63 - x % 64)) % 2 == 1;
            shown = shown.wrapping_mul(2) | u16::from(bit);
        }
        let address = address_at(planes, half, hood, minor, grid, phase, x, y);
        same_at(rt, &shown, &address, &(wiring, grid, phase, x, y));
    }
}

/// Checks that the lines of rows have the addresses of their cells, for each half, grid and phase.
/// The rows are the first two and the last two. Also checks what the corner cells see at their
/// diagonals.
fn check_rows(rt: &impl Abort, planes: &Planes, hood: Hood, minor: Minor) {
    let last = planes.side().number() - 1;
    for half in [Half::A, Half::B] {
        for (x, y) in [(0, 0), (last, 0), (0, last), (last, last)] {
            check_diagonals(rt, planes, half, x, y);
        }
        let wiring = Wiring { half, hood, minor };
        for grid in [Grid::Even, Grid::Odd] {
            for phase in [Phase::P0, Phase::P1, Phase::P2, Phase::P3] {
                for y in [0, 1, last - 1, last] {
                    check_row(rt, planes, wiring, grid, phase, y);
                }
            }
        }
    }
}

/// Checks what the cell at column `x` of row `y` sees under the primed names of diagonal cells,
/// which no wiring has.
fn check_diagonals(rt: &impl Abort, planes: &Planes, half: Half, x: usize, y: usize) {
    let side = planes.side().number();
    assert!(rt; x < side && y < side);
    let (grid, phase) = (Grid::Even, Phase::P0);
    for (compass, right, down) in [
        (Compass::NorthWest, side - 1, side - 1),
        (Compass::NorthEast, 1, side - 1),
        (Compass::SouthWest, side - 1, 1),
        (Compass::SouthEast, 1, 1),
    ] {
        let name = Name::Beside(compass, Level::Upper);
        let got = seen(planes, Setting { half, grid, phase }, name, x, y);
        let (column, row) = (x.wrapping_add(right) % side, y.wrapping_add(down) % side);
        assert!(rt; column < side && row < side);
        let want = planes.bit(half.plane(Level::Upper), column, row);
        same_at(rt, &got, &want, &(half, name, x, y));
    }
}

/// The lines of rows have the addresses of cells, on random planes: for each neighbourhood with
/// each minor assignment.
#[test]
fn lines_show_addresses(rt: HostRuntime) -> Result<(), NoMemory> {
    for side in [Side::S128, Side::S256, Side::S512] {
        let planes = without_a_pattern(&rt, rt.alloc(), side)?;
        for hood in HOODS {
            for minor in [Minor::Centers, Minor::Phases, Minor::HorzVert] {
                check_rows(&rt, &planes, hood, minor);
            }
        }
    }
    Ok(())
}

/// Cells have their corners of blocks, from the picture of the two grids round the corner of the
/// torus.
#[test]
fn corners_of_cells(rt: HostRuntime) {
    for (grid, x, y, want) in [
        (Grid::Even, 0, 0, Corner::UpperLeft),
        (Grid::Even, 255, 0, Corner::UpperRight),
        (Grid::Even, 0, 255, Corner::LowerLeft),
        (Grid::Even, 255, 255, Corner::LowerRight),
        (Grid::Odd, 0, 0, Corner::LowerRight),
        (Grid::Odd, 255, 0, Corner::LowerLeft),
        (Grid::Odd, 0, 255, Corner::UpperRight),
        (Grid::Odd, 255, 255, Corner::UpperLeft),
    ] {
        same_at(&rt, &corner_of(grid, x, y), &want, &(grid, x, y));
    }
}

/// Rotations lead to other places of a block, from its picture: the places run clockwise from the
/// upper left one.
#[test]
fn rotations_in_a_block(rt: HostRuntime) {
    use Compass::{East, North, NorthEast, NorthWest, South, SouthEast, SouthWest, West};
    let rotations = [
        Rotation::Clockwise,
        Rotation::Opposite,
        Rotation::CounterClockwise,
    ];
    for (corner, places) in [
        (Corner::UpperLeft, [East, SouthEast, South]),
        (Corner::UpperRight, [South, SouthWest, West]),
        (Corner::LowerRight, [West, NorthWest, North]),
        (Corner::LowerLeft, [North, NorthEast, East]),
    ] {
        for (rotation, want) in rotations.into_iter().zip(places) {
            same_at(&rt, &in_block(corner, rotation), &want, &(corner, rotation));
        }
    }
}
