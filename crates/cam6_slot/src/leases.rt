//! A command that a board holds.
ghost use Rattle.std.specs.Prelude.{◌≡◌, ◌<◌, ◌≤◌, ◌+◌, ◌%◌, ℕ, List, true};
ghost use Rattle.cam6_planes.specs.Stored.{width};
ghost use Rattle.cam6_band.specs.Limits.{band};
ghost use Rattle.cam6_board.specs.Images.{is_rest};
ghost use Rattle.cam6_board.specs.Jobs.{StoredJob};
ghost use Rattle.cam6_board.specs.Bands.{Moves};
ghost use Rattle.cam6_board.specs.declared.boards.BandEnd.{BandEnd};
ghost use Rattle.cam6_commands.specs.declared.commands.Command.{Command};
ghost use Rattle.cam6_model.specs.Machine.{Machine};

use crate::finished::Finished;
use crate::needs::{Need, need_at};
use crate::parked::Parked;
use crate::queued::Queued;
use crate::works::Work;
use cam6_band::{AtRest, BAND, Spare};
use cam6_board::{BandEnd, Image};
use std::marker::Model;

/// Steps of a command with its job on a board: all of it but the image that travels.
#[derive(Drop)]
pub struct Lease {
    work: Work,
    /// The rows of the step under way that are done.
    rows: u16,
    board: u8,
}

impl Model for Lease {
    ghost use Rattle.cam6_slot.specs.Leases.{StoredLease, IsLease};

    ghost Value = { StoredLease };

    ghost view = { λ l. record { work = l.work; rows = l.rows; board = l.board } };

    ghost invariant = { λ l.
        IsLease (record { work = l.work; rows = l.rows; board = l.board }) };
}

impl Lease {
    ghost use Rattle.cam6_cycle.specs.Limits.{max_tables};
    ghost use Rattle.cam6_slot.specs.Finished.{IsDone};
    ghost use Rattle.cam6_slot.specs.Leases.{IsLease, ImageFits, JobFits, TablesFit};
    ghost use Rattle.cam6_slot.specs.Lefts.{queued_left, queued_home, lease_left, lease_home};
    ghost use Rattle.cam6_slot.specs.Lefts.{bands_of_lease, home_after};
    ghost use Rattle.cam6_slot.specs.Needs.{needs_of, IsNeed, HasCode, CanBeUndone, IsTableNeeded};
    ghost use Rattle.cam6_slot.specs.Needs.{way_told, wiring_told};
    ghost use Rattle.cam6_slot.specs.Stands.{Stands, StandsOut};
    ghost use Rattle.cam6_block.specs.RuleTables.{IsTableBy};

    /// Makes the lease of steps that a board does. `rows` of the step under way are done: whole
    /// bands of 16, and fewer than all. `rows` is 0 if no step is left. Boards are numbered from 0.
    pub(crate) fn new(work: Work, rows: u16, board: u8) -> Lease
        requires rows { rows < width work.home }
        requires bands { rows % band ≡ 0 }
        requires step { 0 < rows → work.reached.steps < work.total }
        ensures { result ≡ record { work = work; rows = rows; board = board } }
    {
        let _home = work.home();
        Lease { work, rows, board }
    }

    /// Returns the number of the board, counted from 0.
    pub fn board(&self) -> u8
        ensures { result ≡ self.now.board }
    {
        self.board
    }

    /// Returns how many bands of 16 rows are still to be done, over all steps. If there are some,
    /// the job has steps left. If there are none, its image is at rest.
    pub fn left(&self) -> u64
        ensures left { result ≡ lease_left self.now }
        // The invariant of a lease.
        ensures always { IsLease self.now }
        ensures work { (job : StoredJob) → JobFits self.now job → 0 < result → 0 < job.steps }
        ensures rest { (job : StoredJob) → JobFits self.now job → result ≡ 0 →
            is_rest job.image ≡ true }
    {
        self.work.left(self.rows)
    }

    /// Counts one band that was done on the board, and returns the lease. At least one was left. It
    /// finds out by itself whether the band ends a step, and doesn't look at `end`.
    pub fn band(mut self, end: BandEnd) -> Lease
        requires { 0 < lease_left self }
        // For whatever machine and command, and whatever end the board reported.
        ensures stands { (m : Machine) (c : Command) (before after : StoredJob)
            (end : BandEnd) (tables : List (List ℕ)) →
            TablesFit self.work tables → StandsOut self before m c →
            Moves tables before end after → StandsOut result after m c }
        ensures fits { (before after : StoredJob) (end : BandEnd) (tables : List (List ℕ)) →
            JobFits self before → Moves tables before end after → JobFits result after }
        ensures tables { (tables : List (List ℕ)) →
            TablesFit self.work tables → TablesFit result.work tables }
        ensures left { lease_left result + 1 ≡ lease_left self }
        ensures home { lease_home result ≡ lease_home self }
        ensures board { result.board ≡ self.board }
    {
        self.advance(end);
        self
    }

    /// Counts one band that was done on the board, of at least one that was left. Does so in place,
    /// since a lease takes more than a kilobyte. It finds out by itself whether the band ends a
    /// step, and doesn't look at `_end`.
    pub fn advance(&mut self, _end: BandEnd)
        requires { 0 < lease_left self.old }
        // For whatever machine and command, and whatever end the board reported.
        ensures stands { (m : Machine) (c : Command) (before after : StoredJob)
            (end : BandEnd) (tables : List (List ℕ)) →
            TablesFit self.old.work tables → StandsOut self.old before m c →
            Moves tables before end after → StandsOut self.new after m c }
        ensures fits { (before after : StoredJob) (end : BandEnd) (tables : List (List ℕ)) →
            JobFits self.old before → Moves tables before end after → JobFits self.new after }
        ensures tables { (tables : List (List ℕ)) →
            TablesFit self.old.work tables → TablesFit self.new.work tables }
        ensures left { lease_left self.new + 1 ≡ lease_left self.old }
        ensures home { lease_home self.new ≡ lease_home self.old }
        ensures board { self.new.board ≡ self.old.board }
    {
        let rows = self.rows + BAND as u16;
        let side = self.work.home().planes().side().number();
        if usize::from(rows) < side {
            self.rows = rows;
            return;
        }
        self.work.go();
        self.rows = 0;
    }

    /// Makes the command wait for a board again. `image` is what was taken off the board, with
    /// bands left to do. An image at rest becomes the one at home. A half-done step is parked.
    pub fn preempt(self, image: Image) -> Queued
        requires left { 0 < lease_left self }
        requires image { ImageFits self.work self.rows image }
        // For whatever machine and command.
        ensures stands { (m : Machine) (c : Command) (job : StoredJob) →
            StandsOut self job m c → job.image ≡ image → Stands result m c }
        ensures left { queued_left result ≡ lease_left self }
        ensures home { queued_home result
            ≡ home_after (bands_of_lease self) (lease_left self) (lease_home self) }
    {
        let mut work = self.work;
        match image.into_rest() {
            Ok(image) => {
                let spare = work.come_home(image);
                Queued::new(work, Parked::Spare(spare))
            }
            Err(step) => Queued::new(work, Parked::Step(step)),
        }
    }

    /// Makes the command wait for a board again, after the board has lost the image. All steps that
    /// the image at home doesn't have are to be done again. The spare planes replace the lost ones,
    /// and have the same limit.
    pub fn lost(self, spare: Spare) -> Queued
        requires { spare.planes.limit ≡ self.work.home.limit }
        // For whatever machine and command.
        ensures stands { (m : Machine) (c : Command) (job : StoredJob) →
            StandsOut self job m c → Stands result m c }
        ensures left { queued_left result ≡ lease_home self }
        ensures home { queued_home result ≡ lease_home self }
    {
        let mut work = self.work;
        work.go_back();
        Queued::new(work, Parked::Spare(spare))
    }

    /// Finishes the command. Returns the machine with this image, and the reply for its user. All
    /// bands are done, and `image` was taken off the board.
    pub fn finish(self, image: AtRest) -> Finished
        requires left { lease_left self ≡ 0 }
        requires limit { image.planes.limit ≡ self.work.home.limit }
        // For whatever machine and command.
        ensures { (m : Machine) (c : Command) (job : StoredJob) →
            StandsOut self job m c → job.image ≡ Image.Rest image → IsDone result m c }
    {
        let _home = self.work.home();
        self.work.finish(image)
    }

    /// Returns how many tables the job needs: one for each use of a rule in the cycle.
    pub fn needs(&self) -> u8
        ensures needs { result ≡ needs_of self.now.work }
        ensures few { result ≤ max_tables }
    {
        self.work.needs()
    }

    /// Returns which rule a table is for, and whether it undoes the rule. `index` is the table's
    /// number, from 0 to below `needs`. The tables go entry by entry, half A's before half B's.
    pub fn need(&self, index: u8) -> Need<'_>
        requires { index < needs_of self.now.work }
        ensures need { IsNeed self.now.work index result }
        ensures code { HasCode result }
        ensures undone { CanBeUndone result }
        // Entries of the rule are those that the job needs.
        ensures table { (entries : List ℕ) →
            IsTableBy (way_told result.inverted) (wiring_told result) result.text.now entries →
            IsTableNeeded self.now.work index entries }
    {
        need_at(&self.work, index)
    }
}
