//! What the arguments of `cam6_draw` ask for.

use cam6_planes::COLUMNS;
use cam6_show_pictures::Look;
use thiserror::Error;

/// What `cam6_draw` is to do.
#[derive(Clone, Copy, Debug)]
pub struct DrawOptions {
    /// How frames are looked at.
    pub look: Look,
    /// How their pictures are written.
    pub way: Way,
}

/// How pictures are written.
#[derive(Clone, Copy, Debug)]
pub enum Way {
    /// As files of the netpbm programs, one after the other.
    Ppm,
    /// On a terminal, one over the other.
    Text {
        /// The most pictures a second, if that is said.
        rate: Option<usize>,
    },
}

/// Why arguments that clap takes ask for nothing.
#[derive(Clone, Copy, Debug, Error)]
pub(crate) enum Unsaid {
    #[error("give either --ppm or --text, not both")]
    Way,
    #[error("--frames needs --text")]
    FramesOfFiles,
    #[error("--frames takes a whole number from 1 to 1000")]
    Frames,
    #[error("--scale takes a whole number from 1 to 16")]
    Scale,
    #[error("--crop takes a column and a row from 0 to {last}, and a width and a height from 1 to {most}", last = COLUMNS - 1, most = COLUMNS)]
    Crop,
    #[error("--palette takes sixteen groups of six hexadecimal digits, with commas between them")]
    Palette,
}
