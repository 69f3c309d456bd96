//! The texts of halves, hoods, minors and grids, as lines and examples have them.

use crate::blocks::Grid;
use crate::names::Half;
use crate::wirings::{Hood, Minor};

impl Half {
    ghost use Rattle.std.specs.Prelude.{◌≡◌};
    ghost use Rattle.cam6_wiring.specs.Texts.{half_text, half_named};

    /// The text of a half: `A` or `B`.
    pub fn text(self) -> &'static str
        ensures { result.now ≡ half_text self }
    {
        match self {
            Half::A => "A",
            Half::B => "B",
        }
    }

    /// Returns the half that has exactly this text, in capitals, or `None` if there is none.
    pub fn named(text: &str) -> Option<Half>
        ensures { result ≡ half_named text.now }
    {
        match text {
            "A" => Some(Half::A),
            "B" => Some(Half::B),
            _ => None,
        }
    }
}

impl Hood {
    ghost use Rattle.std.specs.Prelude.{◌≡◌};
    ghost use Rattle.cam6_wiring.specs.Texts.{hood_text, hood_named};

    /// The text of a neighbourhood: `N/MOORE`, `N/VONN`, `N/MARG`, `N/MARG-PH` or `N/MARG-HV`.
    pub fn text(self) -> &'static str
        ensures { result.now ≡ hood_text self }
    {
        match self {
            Hood::Moore => "N/MOORE",
            Hood::VonNeumann => "N/VONN",
            Hood::Margolus => "N/MARG",
            Hood::MargolusPhase => "N/MARG-PH",
            Hood::MargolusHorzVert => "N/MARG-HV",
        }
    }

    /// Returns the neighbourhood that has exactly this text, in capitals, or `None` if there is
    /// none.
    pub fn named(text: &str) -> Option<Hood>
        ensures { result ≡ hood_named text.now }
    {
        match text {
            "N/MOORE" => Some(Hood::Moore),
            "N/VONN" => Some(Hood::VonNeumann),
            "N/MARG" => Some(Hood::Margolus),
            "N/MARG-PH" => Some(Hood::MargolusPhase),
            "N/MARG-HV" => Some(Hood::MargolusHorzVert),
            _ => None,
        }
    }
}

impl Minor {
    ghost use Rattle.std.specs.Prelude.{◌≡◌};
    ghost use Rattle.cam6_wiring.specs.Texts.{minor_text, minor_named};

    /// The text of a minor assignment: `&/CENTERS`, `&/PHASES` or `&/HV`.
    pub fn text(self) -> &'static str
        ensures { result.now ≡ minor_text self }
    {
        match self {
            Minor::Centers => "&/CENTERS",
            Minor::Phases => "&/PHASES",
            Minor::HorzVert => "&/HV",
        }
    }

    /// Returns the minor assignment that has exactly this text, in capitals, or `None` if there is
    /// none.
    pub fn named(text: &str) -> Option<Minor>
        ensures { result ≡ minor_named text.now }
    {
        match text {
            "&/CENTERS" => Some(Minor::Centers),
            "&/PHASES" => Some(Minor::Phases),
            "&/HV" => Some(Minor::HorzVert),
            _ => None,
        }
    }
}

impl Grid {
    ghost use Rattle.std.specs.Prelude.{◌≡◌};
    ghost use Rattle.cam6_wiring.specs.Texts.{grid_text, grid_named};

    /// The text of a grid: `EVEN` or `ODD`.
    pub fn text(self) -> &'static str
        ensures { result.now ≡ grid_text self }
    {
        match self {
            Grid::Even => "EVEN",
            Grid::Odd => "ODD",
        }
    }

    /// Returns the grid that has exactly this text, in capitals, or `None` if there is none.
    pub fn named(text: &str) -> Option<Grid>
        ensures { result ≡ grid_named text.now }
    {
        match text {
            "EVEN" => Some(Grid::Even),
            "ODD" => Some(Grid::Odd),
            _ => None,
        }
    }
}
