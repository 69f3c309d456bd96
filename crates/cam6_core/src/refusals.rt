//! Which events are refused.
ghost use Rattle.std.specs.Prelude.{◌≡◌};
ghost use Rattle.std.specs.Option.{option_copied};
ghost use Rattle.cam6_commands.specs.declared.commands.Command.{Command};
ghost use Rattle.cam6_core.specs.State.{at_number};
ghost use Rattle.cam6_commands.specs.declared.events.Event.TheVariants as event;
ghost use Rattle.cam6_core.specs.Refusals.{standing, refusal, loaded_refusal, is_missing};
ghost use Rattle.cam6_core.specs.Refusals.{is_waiting, is_queued, is_finished};
ghost use Rattle.cam6_core.specs.Refusals.{is_idle, is_loaded, is_dead};

use crate::parts::{Core, Whereabouts};
use cam6_commands::{Event, Refused};

impl Core {
    /// Returns the first reason to refuse an event, or `None` if it isn't refused.
    pub(crate) fn refusal(&self, event: &Event) -> Option<Refused>
        ensures { result ≡ refusal (standing self.now) event.now }
    {
        match event {
            Event::Ask(user, _) => self.ask_refusal(*user),
            Event::Lease(user, board) => self.lease_refusal(*user, *board),
            Event::Band(board) | Event::Preempt(board) => self.loaded_refusal(*board),
            Event::Fail(board) => self.fail_refusal(*board),
            Event::Repair(board) => self.repair_refusal(*board),
            Event::Evict => self.evict_refusal(),
            Event::Collect(user) => self.collect_refusal(*user),
        }
    }
}

impl Core {
    /// Returns why an ask is refused, whatever its command: there is no such user, or their last
    /// reply isn't collected. Returns `None` if it isn't refused.
    fn ask_refusal(&self, user: u64) -> Option<Refused>
        // Whatever is asked.
        ensures { (c : Command) → result ≡ refusal (standing self.now) (event.Ask user c) }
    {
        if self.no_user(user) {
            return Some(Refused::NoSuchNumber);
        }
        if self.is_waiting(user) {
            return Some(Refused::UserIsWaiting);
        }
        None
    }

    /// Returns why a lease is refused, or `None` if it isn't. The first cause counts: no such user
    /// or board, a dead board, a board that isn't idle, a user without a waiting command.
    fn lease_refusal(&self, user: u64, board: u64) -> Option<Refused>
        ensures { result ≡ refusal (standing self.now) (event.Lease user board) }
    {
        if self.no_user(user) || self.no_board(board) {
            return Some(Refused::NoSuchNumber);
        }
        if self.is_dead(board) {
            return Some(Refused::BoardIsDead);
        }
        if !self.is_idle(board) {
            return Some(Refused::BoardIsNotIdle);
        }
        if !self.is_queued(user) {
            return Some(Refused::UserIsNotQueued);
        }
        None
    }

    /// Returns why a band or a preempt of a board is refused: there is no such board, it has
    /// failed, or it holds no command. Returns `None` if it holds one.
    fn loaded_refusal(&self, board: u64) -> Option<Refused>
        ensures { result ≡ loaded_refusal ((standing self.now).board board) }
    {
        if self.no_board(board) {
            return Some(Refused::NoSuchNumber);
        }
        if self.is_dead(board) {
            return Some(Refused::BoardIsDead);
        }
        if !self.is_loaded(board) {
            return Some(Refused::BoardHoldsNothing);
        }
        None
    }

    /// Returns why the failure of a board is refused: there is no such board, or it has failed
    /// already. Returns `None` if it isn't refused.
    fn fail_refusal(&self, board: u64) -> Option<Refused>
        ensures { result ≡ refusal (standing self.now) (event.Fail board) }
    {
        if self.no_board(board) {
            return Some(Refused::NoSuchNumber);
        }
        if self.is_dead(board) {
            return Some(Refused::BoardIsDead);
        }
        None
    }

    /// Returns why a repair is refused: there is no such board, or it has not failed. Returns
    /// `None` if it isn't refused.
    fn repair_refusal(&self, board: u64) -> Option<Refused>
        ensures { result ≡ refusal (standing self.now) (event.Repair board) }
    {
        if self.no_board(board) {
            return Some(Refused::NoSuchNumber);
        }
        if !self.is_dead(board) {
            return Some(Refused::BoardIsNotDead);
        }
        None
    }

    /// Returns why an eviction is refused: the cache holds no table. Returns `None` if it isn't
    /// refused.
    fn evict_refusal(&self) -> Option<Refused>
        ensures { result ≡ refusal (standing self.now) event.Evict }
    {
        if self.cache.len() == 0 {
            return Some(Refused::NoTableIsCached);
        }
        None
    }

    /// Returns why a collect is refused: there is no such user, or no reply waits for them. Returns
    /// `None` if it isn't refused.
    fn collect_refusal(&self, user: u64) -> Option<Refused>
        ensures { result ≡ refusal (standing self.now) (event.Collect user) }
    {
        if self.no_user(user) {
            return Some(Refused::NoSuchNumber);
        }
        if !self.is_finished(user) {
            return Some(Refused::NothingIsFinished);
        }
        None
    }
}

impl Core {
    /// Returns the whereabouts of a user, counted from 1, or `None` if there is no such user.
    fn user(&self, user: u64) -> Option<&Whereabouts>
        ensures { option_copied result ≡ at_number self.now.users user }
    {
        if user == 0 {
            return None;
        }
        self.users.get((user - 1) as usize)
    }

    /// Whether no user has the number. Users are counted from 1.
    fn no_user(&self, user: u64) -> bool
        ensures { result ≡ is_missing ((standing self.now).user user) }
    {
        self.user(user).is_none()
    }

    /// Whether a user has a command whose reply isn't collected. It is also true if there is no
    /// such user.
    fn is_waiting(&self, user: u64) -> bool
        ensures { result ≡ is_waiting ((standing self.now).user user) }
    {
        !matches!(self.user(user), Some(Whereabouts::Resting(_)))
    }

    /// Whether there is such a user, and their command waits for a board.
    fn is_queued(&self, user: u64) -> bool
        ensures { result ≡ is_queued ((standing self.now).user user) }
    {
        matches!(self.user(user), Some(Whereabouts::Queued(_)))
    }

    /// Whether there is such a user, and their reply waits to be collected.
    fn is_finished(&self, user: u64) -> bool
        ensures { result ≡ is_finished ((standing self.now).user user) }
    {
        matches!(self.user(user), Some(Whereabouts::Finished(_)))
    }

    /// Whether no board has the number. Boards are counted from 0.
    fn no_board(&self, board: u64) -> bool
        ensures { result ≡ is_missing ((standing self.now).board board) }
    {
        self.boards.get(board as usize).is_none()
    }

    /// Whether there is such a board, and it is idle.
    fn is_idle(&self, board: u64) -> bool
        ensures { result ≡ is_idle ((standing self.now).board board) }
    {
        match self.boards.get(board as usize) {
            Some(station) => station.is_idle(),
            None => false,
        }
    }

    /// Whether there is such a board, and it holds a command.
    fn is_loaded(&self, board: u64) -> bool
        ensures { result ≡ is_loaded ((standing self.now).board board) }
    {
        match self.boards.get(board as usize) {
            Some(station) => station.is_loaded(),
            None => false,
        }
    }

    /// Whether there is such a board, and it has failed.
    fn is_dead(&self, board: u64) -> bool
        ensures { result ≡ is_dead ((standing self.now).board board) }
    {
        match self.boards.get(board as usize) {
            Some(station) => station.is_dead(),
            None => false,
        }
    }
}
