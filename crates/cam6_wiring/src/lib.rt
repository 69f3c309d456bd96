//! Wiring: which neighbour each of a half's twelve address lines shows, and what a cell sees there.
//!
//! Contract: `line_of` returns the line of a name, and `names_of` the names of all lines. `seen` is
//! the bit that a name means to a cell. `address_at` is a number with one bit for each line: what
//! the cell sees under the line's name (`specs/Seen.antt`). It works for all five neighbourhoods,
//! three minor assignments, both halves, both grids and four phases. `lines_of_row` and `put_lines`
//! do the same for a whole row of cells: at each column, each line shows what the cell there sees
//! under the line's name (`specs/Lines.antt`). `corner_of` returns a cell's corner of its
//! Margolus block, and `in_block` where the block's other cells lie. `side_in_block` says in which
//! of a block's two columns or rows a column or row is. `is_margolus` returns whether a
//! neighbourhood has blocks. `text` is the text of a half, a neighbourhood, a minor assignment or a
//! grid, and `named` is what a text names (`specs/Texts.antt`).
//!
//! The laws: an address shows, on the line of each name, what is seen under it, and 0 on every
//! other line. The line of a name and the names of the lines agree. A name is the same as itself
//! alone, and so is a wiring. Each text names what it is the text of, and no other text does. Each
//! rotation leads to a cell of the same block, one, two or three corners further clockwise.
//!
//! Stands on: `cam6_planes`.
//!
//! Read next: `names`, the names; `wirings`, their lines; `blocks`, the Margolus grids; `texts`; then
//! `neighbours`; `columns`, `rows` and `lines`, the same a row at a time; and `laws`.
#![tactic(auto)]

mod blocks;
mod columns;
pub mod laws;
mod lines;
mod names;
mod neighbours;
mod rows;
mod texts;
mod wirings;

pub use blocks::{Corner, Grid, corner_of, in_block, side_in_block};
pub use lines::{Lines, lines_of_row, put_lines};
pub use names::{Compass, Half, Level, Name, Phase, Rotation};
pub use neighbours::{Setting, address_at, seen};
pub use rows::Rows;
pub use wirings::{Hood, LINES, Minor, Wiring, line_of, names_of};
