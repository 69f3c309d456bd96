//! The address lines of a band of sixteen rows, for all its cells at once. They show what each cell
//! sees on the lines that are asked for.
//!
//! Contract: `UnitLines::put` makes the lines of a unit, which is up to 256 columns of a band's
//! rows. At each place, each line for which a plan asks shows what the cell there sees under the
//! line's name. Every other line shows 0 (`specs/Units.antt`). `lines` lends the lines. A `Plan` is
//! for the lines that a mask asks for, under a wiring (`specs/Plans.antt`). `Band::around` lends a
//! row of the band with the rows beside it (`specs/Bands.antt`).
//!
//! Stands on: `cam6_planes`, for rows; `cam6_wiring`, for names and what is seen under them.
//!
//! How: lines that differ only by the row that they look at share one part of eighteen rows. They
//! are seen from its row 0, 1 or 2 on. So eight neighbours are three parts: the centre, the west
//! and the east. A part is made only if a line that is asked for needs it. A plan finds once which
//! parts these are and how each line is seen in them. Every band uses the plan.
//!
//! Read next: `bands` and `units`; `rows`, what the cells of a row see, by single `words`; `parts`;
//! `views`, how lines are seen in parts; `plans`; then `unit_lines`.
#![tactic(auto)]

mod bands;
mod parts;
mod plans;
mod rows;
mod unit_lines;
mod units;
mod views;
mod words;

pub use bands::{Band, HEIGHT};
pub use plans::Plan;
pub use unit_lines::{Lines, UnitLines};
pub use units::{UNIT, Unit, units_of_band, words_of_row};
