//! How the lines that are asked for are seen under a wiring: found once, and used for every band.
ghost use Rattle.std.specs.Prelude.{◌≡◌, ◌≤◌, IsTrue};
ghost use Rattle.cam6_wiring.specs.Wiring.{names_of};
ghost use Rattle.cam6_wiring.specs.declared.wirings.TheConstants.{LINES};

use crate::views::{Needed, View};
use cam6_wiring::{Hood, LINES, Minor, names_of};
use std::marker::Model;

/// Which lines are asked for, under which wiring, and how they are seen. That is which parts they
/// need, and where in these each line's unit is.
#[derive(Drop)]
pub struct Plan {
    asked: u16,
    hood: Hood,
    minor: Minor,
    pub(crate) needed: Needed,
    pub(crate) views: [Option<View>; LINES],
}

impl Model for Plan {
    ghost use Rattle.std.specs.Prelude.{◌≤◌};
    ghost use Rattle.cam6_wiring.specs.Wiring.{names_of};
    ghost use Rattle.cam6_wiring.specs.declared.wirings.TheConstants.{LINES};
    ghost use Rattle.cam6_lines.specs.Plans.{Asked};
    ghost use Rattle.cam6_lines.specs.Internal.Views.{AreViews};

    ghost Value = { Asked };

    ghost view = { λ p. record {
      lines = p.asked;
      hood = p.hood;
      minor = p.minor;
    } };

    ghost invariant = { λ p.
        AreViews p.asked (names_of p.hood p.minor) p.needed p.views × (p.needed.count ≤ LINES) };
}

impl Plan {
    /// Returns the plan for these lines under a wiring. Bit k of the mask `asked`, the lowest being
    /// bit 0, is 1 if line k is asked for.
    pub fn of(asked: u16, hood: Hood, minor: Minor) -> Plan
        ensures lines { result.lines ≡ asked }
        ensures hood { result.hood ≡ hood }
        ensures minor { result.minor ≡ minor }
    {
        let mut needed = Needed::none();
        let views = needed.views_of(asked, &names_of(hood, minor));
        Plan {
            asked,
            hood,
            minor,
            needed,
            views,
        }
    }

    /// Returns a copy of the plan.
    pub fn copy(&self) -> Plan
        ensures { result ≡ self.now }
    {
        Plan {
            asked: self.asked,
            hood: self.hood,
            minor: self.minor,
            needed: self.needed,
            views: self.views,
        }
    }

    /// Whether the plan was made for exactly the lines of the mask `asked`, under this wiring.
    pub fn is_for(&self, asked: u16, hood: Hood, minor: Minor) -> bool
        ensures lines { IsTrue result → self.now.lines ≡ asked }
        ensures hood { IsTrue result → self.now.hood ≡ hood }
        ensures minor { IsTrue result → self.now.minor ≡ minor }
    {
        self.asked == asked && self.hood == hood && self.minor == minor
    }
}
