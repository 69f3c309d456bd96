//! What the arguments of `cam6_rle` ask for.

use cam6_patterns::ChosenPlanes;
use cam6_planes::Side;
use std::marker::Model;

/// What `cam6_rle` is to do.
#[derive(Debug, Drop)]
pub enum RleOptions {
    /// Set a pattern on a torus.
    Place(Place),
    /// Write the text of each frame of replies.
    Gather {
        /// The name of a rule, one line, or nothing.
        rule: String,
    },
}

/// Where a pattern is set.
#[derive(Debug, Drop)]
pub struct Place {
    pub side: Side,
    /// By how many columns and rows the pattern is moved, fewer than the largest torus has.
    pub column: usize,
    pub row: usize,
    pub planes: ChosenPlanes,
}

impl Model for Place {
    ghost use Rattle.std.specs.Prelude.{◌≤◌};
    ghost use Rattle.cam6_draw_cli.specs.Placing.{Placing, last_move};

    ghost Value = { Placing };

    ghost view = { λ p. record {
      side = p.side;
      column = p.column;
      row = p.row;
      planes = p.planes;
    } };

    ghost invariant = { λ p. (p.column ≤ last_move) × (p.row ≤ last_move) };
}
