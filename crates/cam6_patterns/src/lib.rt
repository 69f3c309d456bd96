//! Patterns as run-length text, as other programs keep them, and on a torus.
//!
//! Contract: `read_pattern` returns the pattern of a text, or the first fault with its line and
//! column (`specs/Reading.antt`). `PatternTexts` writes the text of each frame
//! (`specs/Writing.antt`). `write_placed` writes the command lines that set the rows of a pattern's
//! planes on a torus, over its seams (`specs/Placing.antt`).
//!
//! The law: the text of rows is read as a pattern with their cells.
//!
//! Stands on: `cam6_planes`, for the digits of rows; `cam6_show_frames`, for frames of replies;
//! `cam6_writing`; `hex`; `arrayvec` and `itoa`, for numbers as they are written.
//!
//! Read next: `patterns` and `faults`; `reading`, with `headers` and `bodies`; `writing`, with `lines`;
//! `placing`; then `laws`.
#![tactic(auto)]

mod bodies;
mod faults;
mod headers;
pub mod laws;
mod lines;
mod patterns;
mod placing;
mod reading;
mod writing;

pub use faults::{Cause, PatternFault};
pub use patterns::{Pattern, PatternRow};
pub use placing::{ChosenPlanes, write_placed};
pub use reading::{Unread, read_pattern};
pub use writing::PatternTexts;
