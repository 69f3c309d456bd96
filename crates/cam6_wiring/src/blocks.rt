//! Margolus blocks: the torus cut into squares of two by two cells, by the even or the odd grid.
ghost use Rattle.std.specs.Prelude.{◌≡◌};
ghost use Rattle.cam6_wiring.specs.Block.{corner_of, in_block, side_in_block};

use crate::names::{Compass, Rotation};

/// Where a block's upper left cell lies: at even coordinates, or at odd ones. The last blocks of
/// the odd grid join the last column with column 0, and the last row with row 0.
#[derive(Clone, Copy, Debug, PartialEq, Eq)]
pub enum Grid {
    Even,
    Odd,
}

/// A cell's corner of its block. The corners run clockwise.
#[derive(Clone, Copy, Debug, PartialEq, Eq)]
pub enum Corner {
    UpperLeft,
    UpperRight,
    LowerRight,
    LowerLeft,
}

/// Returns the corner of its block in which the cell at column `x` of row `y` lies. `x` and `y` are
/// counted from 0.
pub fn corner_of(grid: Grid, x: usize, y: usize) -> Corner
    ensures { result ≡ corner_of grid x y }
{
    match (side_in_block(grid, x), side_in_block(grid, y)) {
        (0, 0) => Corner::UpperLeft,
        (_, 0) => Corner::UpperRight,
        (0, _) => Corner::LowerLeft,
        _ => Corner::LowerRight,
    }
}

/// Returns the direction from the cell at this corner of a block to the block's cell at this
/// rotation. Clockwise is the next corner clockwise round the block.
pub fn in_block(corner: Corner, rotation: Rotation) -> Compass
    ensures { result ≡ in_block corner rotation }
{
    match (corner, rotation) {
        (Corner::UpperLeft, Rotation::Clockwise) => Compass::East,
        (Corner::UpperLeft, Rotation::Opposite) => Compass::SouthEast,
        (Corner::UpperLeft, Rotation::CounterClockwise) => Compass::South,
        (Corner::UpperRight, Rotation::Clockwise) => Compass::South,
        (Corner::UpperRight, Rotation::Opposite) => Compass::SouthWest,
        (Corner::UpperRight, Rotation::CounterClockwise) => Compass::West,
        (Corner::LowerRight, Rotation::Clockwise) => Compass::West,
        (Corner::LowerRight, Rotation::Opposite) => Compass::NorthWest,
        (Corner::LowerRight, Rotation::CounterClockwise) => Compass::North,
        (Corner::LowerLeft, Rotation::Clockwise) => Compass::North,
        (Corner::LowerLeft, Rotation::Opposite) => Compass::NorthEast,
        (Corner::LowerLeft, Rotation::CounterClockwise) => Compass::East,
    }
}

/// Returns 0 if column `x` is the left one of its blocks, and 1 if it is the right one. If `x` is a
/// row, returns 0 for the upper row of its blocks and 1 for the lower.
#[inline]
pub fn side_in_block(grid: Grid, x: usize) -> usize
    ensures { result ≡ side_in_block grid x }
{
    match grid {
        Grid::Even => x % 2,
        Grid::Odd => 1 - x % 2,
    }
}
