//! Frames: what the lines of replies show of cells in colours.
//!
//! Contract: `show_frames` writes the pictures of the frames that a reader's lines show, in their
//! order (`specs/Showing.antt`). A `Screen` makes each picture. The function returns how the frames
//! end (`specs/Course.antt`): all lines are replies and no frame breaks off, or the line at which
//! that isn't so. A frame is the reply to `plane`, or a run of replies to `colours`. Each of these
//! is a row, and a run has as many rows as a row has columns. Other replies are skipped, but a run
//! breaks off at them. Only the rows of one frame and one line are kept, however many frames come.
//!
//! Stands on: `cam6_planes`, for the sides and the digits of rows; `cam6_writing`; `serde_json` with
//! its grammar in `json`, and `hex`.
//!
//! Read next: `frames`, rows and frames; `replies`, what a line says, with `rows`; `runs`, rows one
//! after another; then `showing`, with `lines` and `writers`; then `laws`, what is read back.
#![tactic(auto)]

mod frames;
pub mod laws;
mod lines;
mod replies;
mod rows;
mod runs;
mod showing;
mod writers;

pub use frames::{Frame, RowInColours};
pub use replies::{ReplyCells, Unsaid, read_reply};
pub use runs::{Run, Untaken};
pub use showing::{End, Screen, Unshown, show_frames};
pub use writers::write_bytes;
