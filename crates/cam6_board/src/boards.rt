//! What every board does.
ghost use Rattle.std.specs.Prelude.{◌≡◌, ◌≤◌, ◌<◌, ℕ, IfOk, IfErr, OnOk, OnErr};

use crate::images::Image;
use crate::jobs::Job;
use crate::tables::Tables;
use cam6_band::Spare;

/// How a band ends.
#[derive(Clone, Copy, Debug, PartialEq, Eq)]
pub enum BandEnd {
    /// In the middle of a step.
    Inside,
    /// With a step, and more are to be done.
    StepEnd,
    /// With the last step of the job.
    LastEnd,
}

/// The board failed: what it held is lost. The planes have the limit of the lost ones. Nothing is
/// said of their bits.
#[derive(Drop)]
pub struct BoardFault {
    pub spare: Spare,
}

/// A board: it holds one job at a time, with the tables that the job uses.
pub trait Board: Drop {
    ghost use Rattle.cam6_board.specs.Held.{Load, empty, loaded, rows_held, IsLoaded, HasWork};
    ghost use Rattle.cam6_board.specs.Held.{MovesHeld, GivesBack, IsOfLimit};
    ghost use Rattle.cam6_board.specs.Images.{planes_in};

    /// What the board holds.
    ghost held: { Self → Load };

    /// How often it failed.
    ghost fault_count: { Self → ℕ };

    /// Returns how often the board failed since it was made.
    fn faults(&self) -> u64
        ensures { result ≡ fault_count self.now };

    /// Returns how many rows of the step under way are done, a multiple of sixteen, which is 0 at
    /// rest. Returns `None` if the board is empty.
    fn rows(&self) -> Option<u16>
        ensures { result ≡ rows_held (held self.now) };

    /// Loads a board, which must be empty, with a job and the tables of its cycle's uses, which it
    /// copies. If the board fails, returns `BoardFault` with the planes as spare: the job is lost,
    /// and the board is empty.
    fn load(&mut self, job: Job, tables: &Tables) -> Result<(), BoardFault>
        requires { held self.old ≡ empty }
        ensures count { fault_count self.old ≤ fault_count self.new }
        ensures ok { OnOk result (held self.new ≡ loaded job tables.now) }
        ensures err { OnErr result (held self.new ≡ empty) }
        ensures counted { OnErr result (fault_count self.old < fault_count self.new) }
        ensures spare { IfErr result (λ fault.
            fault.spare.planes.limit ≡ (planes_in job.image).limit) };

    /// Does one band of the job, sixteen rows, and returns whether a step or the job ends with it.
    /// The board must hold a job with steps to do. If the board fails, returns `BoardFault` with
    /// spare planes, and the board is then empty.
    fn band(&mut self) -> Result<BandEnd, BoardFault>
        requires { HasWork (held self.old) }
        ensures count { fault_count self.old ≤ fault_count self.new }
        ensures ok { IfOk result (λ end. MovesHeld (held self.old) end (held self.new)) }
        ensures err { OnErr result (held self.new ≡ empty) }
        ensures counted { OnErr result (fault_count self.old < fault_count self.new) }
        ensures spare { IfErr result (λ fault.
            IsOfLimit (held self.old) fault.spare.planes.limit) };

    /// Takes the job's image off the board and returns it, at rest or in the middle of a step. The
    /// board must hold a job. If the board fails, returns `BoardFault` with spare planes: the image
    /// is lost. The board is empty after it in both cases.
    fn unload(&mut self) -> Result<Image, BoardFault>
        requires { IsLoaded (held self.old) }
        ensures count { fault_count self.old ≤ fault_count self.new }
        ensures image { IfOk result (λ image. GivesBack (held self.old) image) }
        ensures empty { held self.new ≡ empty }
        ensures counted { OnErr result (fault_count self.old < fault_count self.new) }
        ensures spare { IfErr result (λ fault.
            IsOfLimit (held self.old) fault.spare.planes.limit) };
}
