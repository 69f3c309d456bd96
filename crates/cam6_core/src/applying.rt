//! Event by event.
ghost use Rattle.std.specs.Prelude.{◌≡◌, true, false};
ghost use Rattle.cam6_core.specs.Refusals.{standing, is_waiting, is_queued, is_finished};
ghost use Rattle.cam6_core.specs.Refusals.{is_idle, is_loaded, is_dead, is_missing};
ghost use Rattle.cam6_core.specs.Goes.{Goes, LoadsTables, Takes, Spares};
ghost use Rattle.cam6_commands.specs.declared.events.Event.TheVariants as event;

use crate::parts::{Core, Whereabouts};
use cam6_commands::{Command, Event, Outcome, Reply};
use cam6_slot::Asked;
use cam6_slot::laws::places_have_the_side;
use cam6_station::{Banded, User};

impl Core {
    /// Does an event, and returns its outcome. If the event is refused, does nothing and returns
    /// the reason. Allocates only for an ask and for newly cached tables.
    pub fn apply(&mut self, event: Event) -> Outcome
        ensures goes { Goes self.old event result self.new }
        ensures loads { LoadsTables event result self.old self.new }
        ensures others { Spares event self.old self.new }
    {
        if let Some(reason) = self.refusal(&event) {
            return Outcome::Refused(reason);
        }
        match event {
            Event::Ask(number, command) => {
                let user = self.user_of(number);
                self.ask(user, command)
            }
            Event::Lease(number, board) => {
                let user = self.user_of(number);
                self.lease(user, board)
            }
            Event::Band(board) => self.band(board),
            Event::Preempt(board) => self.preempt(board),
            Event::Fail(board) => self.fail(board),
            Event::Repair(board) => self.repair(board),
            Event::Evict => self.evict(),
            Event::Collect(number) => {
                let user = self.user_of(number);
                self.collect(user)
            }
        }
    }

    /// Gives a user's machine a command. The user has no other one. Returns how many bands it
    /// needs, which is 0 if its reply is already there. If an allocation fails, returns `NoMemory`,
    /// and the machine is as it was.
    fn ask(&mut self, user: User, command: Command) -> Outcome
        requires { is_waiting ((standing self.old).user user) ≡ false }
        ensures takes { Takes self.old (event.Ask user command) result self.new }
        ensures others { Spares (event.Ask user command) self.old self.new }
    {
        let resting = match self.take_user(user) {
            Whereabouts::Resting(resting) => resting,
            _ => unreachable!(),
        };
        match resting.ask(command) {
            Asked::NoMemory(same) => {
                self.set_user(user, Whereabouts::Resting(same));
                Outcome::NoMemory
            }
            Asked::Finished(finished) => {
                self.set_user(user, Whereabouts::Finished(finished));
                Outcome::Asked(0)
            }
            Asked::Queued(queued) => {
                let left = queued.left();
                self.set_user(user, Whereabouts::Queued(queued));
                Outcome::Asked(left)
            }
        }
    }

    /// Puts a user's command, which has to wait for a board, on an idle board, after filling its
    /// tables. Boards are counted from 0. Returns how many bands are left.
    fn lease(&mut self, user: User, board: u64) -> Outcome
        requires board { is_idle ((standing self.old).board board) ≡ true }
        requires user { is_queued ((standing self.old).user user) ≡ true }
        ensures takes { Takes self.old (event.Lease user board) result self.new }
        ensures loads { LoadsTables (event.Lease user board) result self.old self.new }
        ensures others { Spares (event.Lease user board) self.old self.new }
    {
        let queued = match self.take_user(user) {
            Whereabouts::Queued(queued) => queued,
            _ => unreachable!(),
        };
        let left = queued.left();
        let (lease, job) = queued.lease(self.board_number(board));
        self.load(board, user, lease, job);
        Outcome::Leased(left)
    }

    /// Does one band on a board that holds a command. Returns how many bands of the command are
    /// left. After the last one the reply waits to be collected, and the board is idle.
    fn band(&mut self, board: u64) -> Outcome
        requires { is_loaded ((standing self.old).board board) ≡ true }
        ensures takes { Takes self.old (event.Band board) result self.new }
        ensures others { Spares (event.Band board) self.old self.new }
    {
        match self.run_band(board) {
            Banded::More(left) => Outcome::Banded(left),
            Banded::Last(user, finished) => {
                self.set_user(user, Whereabouts::Finished(finished));
                Outcome::Banded(0)
            }
            Banded::Lost(_, _) => unreachable!(),
        }
    }

    /// Takes the command off a board that holds one. The board is idle then, and the command waits
    /// for a board again. Returns how many bands are left.
    fn preempt(&mut self, board: u64) -> Outcome
        requires { is_loaded ((standing self.old).board board) ≡ true }
        ensures takes { Takes self.old (event.Preempt board) result self.new }
        ensures others { Spares (event.Preempt board) self.old self.new }
    {
        places_have_the_side();
        let (user, queued) = self.preempt_board(board);
        let left = queued.left();
        self.set_user(user, Whereabouts::Queued(queued));
        Outcome::Preempted(left)
    }

    /// Makes a board fail that hasn't failed. The command that it held waits again, from its image
    /// at home. Returns how many bands are left then, or no number if the board held nothing.
    fn fail(&mut self, board: u64) -> Outcome
        requires there { is_missing ((standing self.old).board board) ≡ false }
        requires alive { is_dead ((standing self.old).board board) ≡ false }
        ensures takes { Takes self.old (event.Fail board) result self.new }
        ensures others { Spares (event.Fail board) self.old self.new }
    {
        let Some(back) = self.fail_board(board) else {
            return Outcome::Failed(None);
        };
        let (user, queued) = back;
        let left = queued.left();
        self.set_user(user, Whereabouts::Queued(queued));
        Outcome::Failed(Some(left))
    }

    /// Repairs a board that has failed. It is idle then.
    fn repair(&mut self, board: u64) -> Outcome
        requires { is_dead ((standing self.old).board board) ≡ true }
        ensures takes { Takes self.old (event.Repair board) result self.new }
        ensures others { Spares (event.Repair board) self.old self.new }
    {
        self.repair_board(board);
        Outcome::Repaired
    }

    /// Drops the cached table that was used longest ago. Does nothing if no table is cached.
    fn evict(&mut self) -> Outcome
        ensures takes { Takes self.old event.Evict result self.new }
        ensures others { Spares event.Evict self.old self.new }
    {
        let _ = self.cache.evict_oldest();
        // The tables that stay are their keys' true ones.
        let _tables = self.cache.len();
        Outcome::Evicted
    }

    /// Returns the reply of a user, whose command has to be finished. Their machine has no command
    /// after it.
    fn collect(&mut self, user: User) -> Outcome
        requires { is_finished ((standing self.old).user user) ≡ true }
        ensures takes { Takes self.old (event.Collect user) result self.new }
        ensures others { Spares (event.Collect user) self.old self.new }
    {
        let finished = match self.take_user(user) {
            Whereabouts::Finished(finished) => finished,
            _ => unreachable!(),
        };
        let (resting, reply) = finished.collect();
        self.set_user(user, Whereabouts::Resting(resting));
        Outcome::Collected(reply)
    }
}
