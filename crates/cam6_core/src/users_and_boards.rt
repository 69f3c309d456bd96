//! One user's whereabouts or one board, taken or changed in its place.
ghost use Rattle.std.specs.Prelude.{◌≡◌, ◌<◌, false, length, slice_set, Some};
ghost use Rattle.std.specs.List.{slice_get};
ghost use Rattle.cam6_cache.specs.Cached.{AreTrue};
ghost use Rattle.cam6_slot.specs.Leases.{JobFits};
ghost use Rattle.cam6_slot.specs.Lefts.{lease_left};
ghost use Rattle.cam6_station.specs.Calls.{BandGives, PreemptGives, FailGives, is_lost};
ghost use Rattle.cam6_station.specs.Held.{idle, dead, IsLoaded, IsAlive};
ghost use Rattle.cam6_station.specs.Loading.{IsAfterLoads};
ghost use Rattle.cam6_core.specs.Refusals.{standing, is_missing};
ghost use Rattle.cam6_core.specs.State.{at_number, with_user, with_board, board_of, IsNumber};
ghost use Rattle.cam6_core.specs.Internal.Returning.{IsLoadedWith, IsOfUser, IsOfUserIf};

use crate::parts::{Core, Whereabouts};
use cam6_board::Job;
use cam6_slot::{Lease, Queued};
use cam6_station::{Banded, Preempted, User};
use std::mem;

impl Core {
    /// Returns the user with this number, counted from 1, who has to exist. There are at most 32
    /// users.
    pub(crate) fn user_of(&self, number: u64) -> User
        requires { is_missing ((standing self.now).user number) ≡ false }
        ensures { result ≡ number }
    {
        let _users = self.users.len();
        User::numbered(number as usize)
    }

    /// Returns the whereabouts of a user of this core, and leaves `Out` in their place.
    pub(crate) fn take_user(&mut self, user: User) -> Whereabouts
        requires { IsNumber (length self.old.users) user }
        ensures was { at_number self.old.users user ≡ Some result }
        ensures now { self.new ≡ with_user self.old user Whereabouts.Out }
        ensures number { IsNumber (length self.new.users) user }
    {
        mem::replace(&mut self.users[user.row()], Whereabouts::Out)
    }

    /// Replaces the whereabouts of a user of this core, and drops the old ones.
    pub(crate) fn set_user(&mut self, user: User, whereabouts: Whereabouts)
        requires { IsNumber (length self.old.users) user }
        ensures { self.new ≡ with_user self.old user whereabouts }
    {
        drop(mem::replace(&mut self.users[user.row()], whereabouts));
    }

    /// Returns the number of an idle board, counted from 0, as a byte, as a lease has it. There are
    /// at most 8 boards.
    pub(crate) fn board_number(&self, board: u64) -> u8
        requires { slice_get self.now.boards board ≡ Some idle }
        ensures { result ≡ board }
    {
        let _boards = self.boards.len();
        board as u8
    }

    /// Fills the tables of a user's lease, and then loads an idle board with the lease and its job.
    /// Boards are counted from 0. At least one band is left.
    pub(crate) fn load(&mut self, board: u64, user: User, lease: Lease, job: Job)
        requires user { IsNumber (length self.old.users) user }
        requires board { slice_get self.old.boards board ≡ Some idle }
        requires job { JobFits lease job }
        requires left { 0 < lease_left lease }
        ensures board { IsLoadedWith (board_of self.new board) user lease job }
        ensures users { self.new.users ≡ self.old.users }
        ensures others { self.new.boards
            ≡ slice_set self.old.boards board (board_of self.new board) }
        ensures loads { IsAfterLoads lease.work self.old.cache self.new.cache }
        ensures tables { AreTrue self.new.cache.tables }
        ensures capacity { self.new.cache.capacity ≡ self.old.cache.capacity }
    {
        // `left` and `len` give the proof the invariants of the lease and of the cache.
        let _bands = lease.left();
        self.filling.fill(&mut self.cache, &lease);
        let _tables = self.cache.len();
        let station = &mut self.boards[board as usize];
        station.load(user, lease, job, self.filling.tables());
    }

    /// Does one band on a board that holds a command. Returns how many bands are left, or after the
    /// last one the finished command with its user.
    pub(crate) fn run_band(&mut self, board: u64) -> Banded
        requires { IsLoaded (board_of self.old board) }
        ensures gives { BandGives (board_of self.old board) result (board_of self.new board) }
        ensures never { is_lost result ≡ false }
        ensures others { self.new ≡ with_board self.old board (board_of self.new board) }
        ensures user { IsOfUser (length self.old.users) result }
    {
        self.boards[board as usize].band()
    }

    /// Takes the command off a board that holds one, which is idle then. Returns the user and the
    /// command.
    pub(crate) fn preempt_board(&mut self, board: u64) -> (User, Queued)
        requires { IsLoaded (board_of self.old board) }
        ensures back { PreemptGives (board_of self.old board)
            (Preempted.Back result.0 result.1) idle }
        ensures idle { self.new ≡ with_board self.old board idle }
        ensures user { IsNumber (length self.old.users) result.0 }
    {
        self.boards[board as usize].preempt()
    }

    /// Makes a board fail that hasn't failed. Returns the user and the command that it held, to go
    /// on from its image at home, or `None` if it held none. The caller has to queue the command:
    /// the users stay as they were.
    pub(crate) fn fail_board(&mut self, board: u64) -> Option<(User, Queued)>
        requires { IsAlive (board_of self.old board) }
        ensures back { FailGives (board_of self.old board) result }
        ensures dead { self.new ≡ with_board self.old board dead }
        ensures user { IsOfUserIf (length self.old.users) result }
    {
        self.boards[board as usize].fail()
    }

    /// Makes a board idle that has failed.
    pub(crate) fn repair_board(&mut self, board: u64)
        requires { slice_get self.old.boards board ≡ Some dead }
        ensures { self.new ≡ with_board self.old board idle }
    {
        self.boards[board as usize].repair();
    }
}
