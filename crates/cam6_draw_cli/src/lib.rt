//! The arguments of `cam6_draw` and of `cam6_rle`, and the exit status of each end.
//!
//! Contract: `options_of_draw` and `options_of_rle` read the arguments as `clap` takes them
//! (`specs/DrawWords.antt`, `specs/RleWords.antt`). Arguments are refused only if `clap` has a
//! fault of them, if they ask for nothing, or if memory runs out (`Refuses` of `cam6_arguments`).
//! `failure_of` returns each end's exit status with its line (`specs/Statuses.antt`), and `report_end`
//! ends with them. `fault_text` says why a text isn't a pattern, and where.
//!
//! Stands on: `cam6_arguments`, for options and refusals; `cam6_show_frames`, for the ends;
//! `cam6_show_pictures`, for looks; `cam6_patterns`, for planes and faults of texts; `cam6_planes`,
//! for the sides; `clap`, `thiserror`.
//!
//! Read next: `statuses`, with `endings`; then `draw_options` and `draw_cli`, `rle_options` and
//! `rle_cli`.
#![tactic(auto)]

mod draw_cli;
mod draw_options;
mod endings;
mod rle_cli;
mod rle_options;
mod statuses;

pub use draw_cli::options_of_draw;
pub use draw_options::{DrawOptions, Way};
pub use endings::report_end;
pub use rle_cli::options_of_rle;
pub use rle_options::{Place, RleOptions};
pub use statuses::{BAD_INPUT, failure_of, fault_text};
