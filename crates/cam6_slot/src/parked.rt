//! What is parked beside a command that waits for a board.
ghost use Rattle.std.specs.Prelude.{◌≡◌};

use cam6_band::{AtRest, MidStep, Spare};
use cam6_board::Image;

/// The image of a machine that isn't at home: spare, or in the middle of a step. Such a step can't
/// be dropped, so it is abandoned.
pub enum Parked {
    Spare(Spare),
    Step(MidStep),
}

impl Drop for Parked {
    /// Abandons the step, if one is parked.
    fn drop(self) {
        match self {
            Parked::Spare(spare) => drop(spare),
            Parked::Step(step) => drop(step.abandon()),
        }
    }
}

impl Parked {
    ghost use Rattle.cam6_slot.specs.Parking.{rows_parked, IsWithinStep, HasRoomFor, LeavesAs};

    /// Returns how many rows of the parked step are done, or 0 if no step is parked.
    pub(crate) fn rows_done(&self) -> u16
        ensures rows { result ≡ rows_parked self.now }
        ensures within { IsWithinStep self.now }
    {
        match self {
            Parked::Spare(_) => 0,
            Parked::Step(step) => step.rows(),
        }
    }

    /// Returns the parked step. If no step is parked, copies the image at home into the spare
    /// planes and returns it at rest. Spare planes have the limit of those at home.
    pub(crate) fn into_image(self, home: &AtRest) -> Image
        requires { HasRoomFor home.now.planes self }
        ensures { LeavesAs home.now.planes self result }
    {
        match self {
            Parked::Spare(spare) => {
                let mut planes = spare.into_planes();
                planes.copy_from(home.planes());
                Image::Rest(AtRest::of(planes))
            }
            Parked::Step(step) => Image::Mid(step),
        }
    }
}
