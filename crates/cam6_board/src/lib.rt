//! Modelled boards: a board holds one job at a time, moves it by a band a call, and may fail, which
//! loses all that it holds.
//!
//! Contract: `Board` is the contract of every board, by cases on what it holds (`specs/Held.antt`):
//! nothing, or a job with the tables that the job uses. A band moves the job by sixteen rows of the
//! step, by the tables of its position, the way that it goes along its cycle. It reports how it
//! ends (`specs/Bands.antt`). If a call fails, the count of faults rose in it, and the board holds
//! nothing after it. The fault carries planes with the limit of the lost ones. Nothing is said of
//! their bits.
//!
//! Stands on: `cam6_planes`, `cam6_entries`, `cam6_band`, `cam6_cycle`, `cam6_model` and `cam6_rules`.
//!
//! Read next: `images`, `jobs` and `tables`, what a board is loaded with; `boards`, what every board
//! does; `soft_boards`, those that never fail, with `worked`, the image that is worked on;
//! `flaky_boards`, those that fail at the calls of a list; then `laws`.
#![tactic(auto)]

mod boards;
mod flaky_boards;
mod images;
mod jobs;
pub mod laws;
mod soft_boards;
mod tables;
mod worked;

pub use boards::{BandEnd, Board, BoardFault};
pub use flaky_boards::FlakyBoard;
pub use images::Image;
pub use jobs::Job;
pub use soft_boards::SoftBoard;
pub use tables::Tables;
