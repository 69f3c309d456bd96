//! A command that waits for a board.
ghost use Rattle.std.specs.Prelude.{◌≡◌, ◌<◌};
ghost use Rattle.cam6_commands.specs.declared.commands.Command.{Command};
ghost use Rattle.cam6_model.specs.Machine.{Machine};

use crate::leases::Lease;
use crate::parked::Parked;
use crate::works::Work;
use cam6_board::Job;
use std::marker::Model;

/// Steps of a command that wait for a board, with the machine's image at home. Beside it lies a
/// step that is parked half done, or spare planes.
#[derive(Drop)]
pub struct Queued {
    work: Work,
    parked: Parked,
}

impl Model for Queued {
    ghost use Rattle.cam6_slot.specs.Parking.{StoredQueued, IsQueued};

    ghost Value = { StoredQueued };

    ghost view = { λ q. record { work = q.work; parked = q.parked } };

    ghost invariant = { λ q. IsQueued (record { work = q.work; parked = q.parked }) };
}

impl Queued {
    ghost use Rattle.cam6_slot.specs.Leases.{JobFits};
    ghost use Rattle.cam6_slot.specs.Lefts.{queued_left, queued_home, lease_left, lease_home};
    ghost use Rattle.cam6_slot.specs.Parking.{IsBeside, IsQueued};
    ghost use Rattle.cam6_slot.specs.Stands.{Stands, StandsOut};

    /// Makes a command that waits for a board. At least one step is left. `parked` is its image
    /// that isn't at home: spare planes of the same limit, or the next step half done.
    pub(crate) fn new(work: Work, parked: Parked) -> Queued
        requires some { work.reached.steps < work.total }
        requires parked { IsBeside work parked }
        ensures { result ≡ record { work = work; parked = parked } }
    {
        let _home = work.home();
        // The rows of a parked step are whole bands, fewer than the step has.
        let _rows = parked.rows_done();
        Queued { work, parked }
    }

    /// Returns how many bands of 16 rows are still to be done, over all steps. It is at least 1.
    pub fn left(&self) -> u64
        ensures left { result ≡ queued_left self.now }
        ensures some { 0 < result }
        // The invariant of a command that waits.
        ensures always { IsQueued self.now }
    {
        self.work.left(self.parked.rows_done())
    }

    /// Leases the command to a board, whose number counts from 0. Returns the lease, and the job to
    /// load the board with. The job goes on from the parked step, or from a copy of the image at
    /// home.
    pub fn lease(self, board: u8) -> (Lease, Job)
        // For whatever machine and command.
        ensures stands { (m : Machine) (c : Command) →
            Stands self m c → StandsOut result.0 result.1 m c }
        ensures fits { JobFits result.0 result.1 }
        ensures left { lease_left result.0 ≡ queued_left self }
        ensures home { lease_home result.0 ≡ queued_home self }
        ensures some { 0 < lease_left result.0 }
        ensures board { result.0.board ≡ board }
        ensures work { result.0.work ≡ self.work }
    {
        let Queued { work, parked } = self;
        let rows = parked.rows_done();
        // Planes have a side within their limit.
        let _side = work.home().planes().side();
        let image = parked.into_image(work.home());
        let job = work.job(image);
        (Lease::new(work, rows, board), job)
    }
}
