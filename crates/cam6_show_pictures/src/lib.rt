//! Pictures of frames, as files and on a terminal.
//!
//! Contract: the bytes of a picture are those of `netpbm` or of `terminal` (`specs/Netpbm.antt`,
//! `specs/Terminal.antt`). Pixels come row by row, and each has the light of its cell's colour
//! (`specs/Look.antt`). `palette_of` reads the lights of sixteen colours (`specs/Palette.antt`).
//!
//! Stands on: `cam6_show_frames`; `cam6_planes`, for the sides; `cam6_writing`; `hex`.
//!
//! Read next: `looks`; `netpbm` and `terminal`; then `palettes`.
#![tactic(auto)]

mod looks;
mod netpbm;
mod palettes;
mod terminal;

pub use looks::{Light, Look, MOST_SCALE, Window};
pub use netpbm::Netpbm;
pub use palettes::{PALETTE, palette_of};
pub use terminal::Terminal;
