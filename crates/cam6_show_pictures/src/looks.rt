//! How frames are looked at: the part of the torus that is shown, how large, and in which colours.
ghost use Rattle.std.specs.Prelude.{◌≡◌, ◌<◌, ◌≤◌, length};
ghost use Rattle.std.specs.Prelude.{None};
ghost use Rattle.cam6_show_pictures.specs.Look.{pixels_wide, pixels_high, light_shown, window_of};
ghost use Rattle.cam6_planes.specs.Side.{side_number};

use cam6_planes::Side;
use cam6_show_frames::Frame;
use std::marker::Model;

/// The most pixels that a cell is wide and high.
pub const MOST_SCALE: usize = 16;

/// A colour on the screen: how much of each light, of 255.
#[derive(Clone, Copy, Debug, PartialEq, Eq)]
pub struct Light {
    pub red: u8,
    pub green: u8,
    pub blue: u8,
}

/// The part of a torus from a column and a row on, over its seams. It has at least one column and one
/// row, and at most as many as the largest torus.
#[derive(Clone, Copy, Debug)]
pub struct Window {
    pub column: usize,
    pub row: usize,
    pub width: usize,
    pub height: usize,
}

impl Model for Window {
    ghost use Rattle.std.specs.Prelude.{◌<◌, ◌≤◌};
    ghost use Rattle.cam6_planes.specs.Limits.{max_columns};
    ghost use Rattle.cam6_show_pictures.specs.Look.{Window};

    ghost Value = { Window };

    ghost view = { λ w. record {
      column = w.column;
      row = w.row;
      width = w.width;
      height = w.height;
    } };

    ghost inverse = { λ w. record {
      column = w.column;
      row = w.row;
      width = w.width;
      height = w.height;
    } };

    ghost invariant = { λ w. (w.column < max_columns) × (w.row < max_columns)
        × (0 < w.width) × (w.width ≤ max_columns) × (0 < w.height) × (w.height ≤ max_columns) };
}

/// How frames are looked at.
#[derive(Clone, Copy, Debug)]
pub struct Look {
    /// The light of each colour.
    pub palette: [Light; 16],
    /// The part that is shown. `None` is the whole torus.
    pub window: Option<Window>,
    /// How many pixels a cell is wide and high, from 1 to 16.
    pub scale: usize,
}

impl Model for Look {
    ghost use Rattle.std.specs.Prelude.{◌<◌, ◌≤◌};
    ghost use Rattle.cam6_show_pictures.specs.Look.{Look, most_scale};

    ghost Value = { Look };

    ghost view = { λ l. record { palette = l.palette; window = l.window; scale = l.scale } };

    ghost inverse = { λ l. record { palette = l.palette; window = l.window; scale = l.scale } };

    ghost invariant = { λ l. (0 < l.scale) × (l.scale ≤ most_scale) };
}

impl Look {
    ghost use Rattle.std.specs.Prelude.{◌≡◌, ◌<◌, ◌≤◌};
    ghost use Rattle.cam6_show_pictures.specs.Look.{pixels_wide, pixels_high, light_shown, window_of};
    ghost use Rattle.cam6_show_pictures.specs.Look.{most_pixels};

    /// Returns how many pixels the picture of a frame is wide.
    pub fn width(&self, frame: &Frame) -> usize
        ensures value { result ≡ pixels_wide self.now frame.now }
        ensures some { 0 < result }
        ensures few { result ≤ most_pixels }
    {
        self.scale * self.window_of(frame).width
    }

    /// Returns how many pixels the picture of a frame is high.
    pub fn height(&self, frame: &Frame) -> usize
        ensures value { result ≡ pixels_high self.now frame.now }
        ensures some { 0 < result }
        ensures few { result ≤ most_pixels }
    {
        self.scale * self.window_of(frame).height
    }

    /// Returns the light of the cell that pixel (i, j) shows. Column i is counted from the left and
    /// row j from the top, both from 0, and both are less than 8,192. Pixels past the last go on
    /// round the torus.
    pub fn light(&self, frame: &Frame, i: usize, j: usize) -> Light
        requires column { i < most_pixels }
        requires row { j < most_pixels }
        ensures { result ≡ light_shown self.now frame.now i j }
    {
        let window = self.window_of(frame);
        let column = window.column + i / self.scale;
        let row = window.row + j / self.scale;
        self.palette[frame.colour(column, row) as usize]
    }

    /// Returns the part of a frame that is shown.
    fn window_of(&self, frame: &Frame) -> Window
        ensures { result ≡ window_of self.now.window (length frame.now) }
    {
        match self.window {
            Some(window) => window,
            None => whole(frame.side()),
        }
    }
}

/// Returns the window that is the whole of a torus of this side.
fn whole(side: Side) -> Window
    ensures { result ≡ window_of None (side_number side) }
{
    Window {
        column: 0,
        row: 0,
        width: side.number(),
        height: side.number(),
    }
}
