//! One step of all cells in bands of sixteen rows, over one image. It can stop after any band, move
//! to another image and go on there.
//!
//! Contract: an image is at rest, spare, or in the middle of a step (`AtRest`, `Spare`, `MidStep`).
//! `AtRest::begin` starts a step, and `MidStep::band_in` makes sixteen more rows of it, with a `Scratch`
//! as scratch. It promises this for all old planes from which the image is partway
//! (`specs/Partway.antt`) to their step by the tables at hand (`specs/ByTables.antt`). The last band
//! returns `Next::Whole`, with the planes after the step. The scratch may hold anything before a band
//! and after it. `MidStep::band` has scratch of its own, and promises the same. `move_into` moves a
//! step, with all that is saved of it, to another image. `abandon` gives it up. `tables_of_step`
//! takes tables that lie as a cycle needs them. It returns those that a step from a position uses,
//! and the position after it (`specs/AtPosition.antt`). The law: each half uses the table that the cycle needs for this
//! use of its rule. No function allocates.
//!
//! So, take planes of side 256, and a table of half A by which a cell becomes what its northern
//! neighbour was. After one band the rows 0 to 15 are new and the others old. Row 0 is what row 255
//! was. The sixteenth band returns `Whole`.
//!
//! No caller can read a cell of a `MidStep`. It can't be dropped: it goes on, or it is abandoned.
//!
//! Stands on: `cam6_planes`, `cam6_wiring`, `cam6_lines`, `cam6_entries` and `cam6_cycle`.
//!
//! Read next: `tables`, what a step uses, and `positions`, where it lies; `images`; `bands`; `scratch`,
//! what is lent to a band; then `new_rows`, the sixteen rows of a band, and `half_rows`, those of a
//! half; and `laws`.
#![tactic(auto)]

mod bands;
mod half_rows;
mod images;
pub mod laws;
mod new_rows;
mod positions;
mod scratch;
mod tables;

pub use bands::{BAND, MidStep, Next};
pub use images::{AtRest, Spare};
pub use positions::tables_of_step;
pub use scratch::Scratch;
pub use tables::{EntryTables, HalfTable};
