//! Patterns of cells in states.
ghost use Rattle.std.specs.Prelude.{◌≡◌};

use crate::headers::Extent;
use std::marker::Model;

/// The cells of a row, a state from 0 to 15 each. Contracts see it as a list.
#[derive(Debug, Drop)]
pub struct PatternRow {
    pub(crate) states: Vec<u8>,
}

impl Model for PatternRow {
    ghost use Rattle.std.specs.Prelude.{List, ℕ};

    ghost Value = { List ℕ };

    ghost view = { λ r. r.states.items };
}

/// A pattern: its size, the place of its upper left corner, and its rows.
#[derive(Debug, Drop)]
pub struct Pattern {
    pub(crate) width: usize,
    pub(crate) height: usize,
    pub(crate) column: usize,
    pub(crate) row: usize,
    pub(crate) rows: Vec<PatternRow>,
}

impl Model for Pattern {
    ghost use Rattle.cam6_patterns.specs.Pattern.{Pattern, IsPattern, most_states};

    ghost Value = { Pattern };

    ghost view = { λ p. record {
      width = p.width;
      height = p.height;
      column = p.column;
      row = p.row;
      rows = p.rows.items;
    } };

    ghost invariant = { λ p. IsPattern most_states (record {
      width = p.width;
      height = p.height;
      column = p.column;
      row = p.row;
      rows = p.rows.items;
    }) };
}

impl Pattern {
    ghost use Rattle.std.specs.Prelude.{◌≡◌};
    ghost use Rattle.cam6_patterns.specs.Pattern.{IsPattern, most_states};
    ghost use Rattle.cam6_patterns.specs.Reading.{with_rows};
    ghost use Rattle.cam6_patterns.specs.Outcome.{boxed};

    /// Makes a pattern of these rows, at this place and of this size. The rows lie within the size,
    /// and each state is less than 16.
    pub(crate) fn new(extent: Extent, rows: Vec<PatternRow>) -> Pattern
        requires { IsPattern most_states (with_rows (boxed extent) rows.items) }
        ensures { result ≡ with_rows (boxed extent) rows.items }
    {
        Pattern {
            width: extent.width,
            height: extent.height,
            column: extent.column,
            row: extent.row,
            rows,
        }
    }
}
