//! Colours and counts of cells, by their states.
//!
//! Contract: a cell's state is the sum over its set planes p of 2 to the power p
//! (`specs/States.antt`). `colour_row` writes the colour of each cell of a row by its state.
//! `count` returns how many cells have a state of a set. No function allocates.
//!
//! So, if an image has one cell set in the planes 0 and 1 and no other cell set, the cell's state
//! is 3. `count` of the mask 8, the set of state 3 alone, is 1.
//!
//! Stands on: `cam6_planes` and `cam6_band`.
//!
//! Read next: `colours`; then `counts`, and `columns`, by which 64 cells are counted at once.
#![tactic(auto)]

mod colours;
mod columns;
mod counts;

pub use colours::{COLOURS, colour_row};
pub use counts::count;
