//! A user's desk.
ghost use Rattle.std.specs.Prelude.{◌≡◌, ◌+◌, [], ◌∷◌, Some, None, true};
ghost use Rattle.std.specs.Arc.{arc_value};
ghost use Rattle.cam6_handoff.specs.declared.rule.View.TheVariants.{Rests};
ghost use Rattle.cam6_handoff.specs.Standing.{standing};
ghost use Rattle.cam6_handoff.specs.Steps.{IsAt};

use crate::rule::{Counts, Handing, View};
use crate::steps;
use crate::steps::Token;
use atomic_table::Table;
use cam6_commands::{Command, Reply};
use cam6_machine::Now;
use cam6_planes::NoMemory;
use cam6_slot::{Place, Resting};
use std::alloc::Global;
use std::marker::Model;
use std::sync::{Arc, Wait};

pub(crate) type HandTable = Table<Option<Place>, View, Counts, Handing, Global>;

/// The desk of one user: it has the user's machine, or waits for what a command makes of it.
#[derive(Drop)]
pub struct Desk {
    table: Arc<HandTable>,
    seat: Token,
    /// The user's row in the table.
    row: usize,
    resting: Option<Resting>,
}

impl Model for Desk {
    ghost use Rattle.std.specs.Arc.{arc_value};
    ghost use Rattle.cam6_handoff.specs.Steps.{IsAt};
    ghost use Rattle.cam6_handoff.specs.Standing.{Stance};
    ghost use Rattle.cam6_handoff.specs.Internal.Tokens.{stance_of, DeskToken};

    ghost Value = { Stance };

    ghost view = { λ d. stance_of d.row d.resting d.seat.me.0 };

    ghost invariant = { λ d.
        IsAt (arc_value d.table).shared.table_id (arc_value d.table).shared.key.users
        d.seat.table_id d.row × DeskToken d.row d.resting d.seat.me };
}

/// What comes of a command that is put at a desk.
#[derive(Drop)]
pub enum Put {
    /// It is done, with this reply.
    Answered(Reply),
    /// Its steps wait for a board.
    Waiting,
}

impl Desk {
    ghost use Rattle.std.specs.Prelude.{IfOk, IsOk, OnErr};
    ghost use Rattle.cam6_handoff.specs.Standing.{is_waiting, IsResting};
    ghost use Rattle.cam6_handoff.specs.Desks.{PutGives, CollectGives, AskGives, WantsNone};

    /// Whether a command was put at the desk, and its reply isn't collected yet.
    pub fn is_waiting(&self) -> bool
        ensures { result ≡ is_waiting self.now }
    {
        self.resting.is_none()
    }

    /// Gives the desk a command while it waits for no reply. Does one without steps at once, and
    /// returns its reply. Any other one waits for a board: then returns `Waiting`. Allocates all
    /// memory of the command. If that fails, the desk is as it was.
    pub fn put(&mut self, command: Command) -> Result<Put, NoMemory>
        requires { IsResting self.old }
        ensures gives { IfOk result (λ put. PutGives self.old command put self.new) }
        ensures err { OnErr result (self.new ≡ self.old) }
        // It may run out of memory only if a private machine may need some.
        ensures memory { WantsNone self.old command → IsOk result }
    {
        let Some(resting) = &mut self.resting else {
            unreachable!()
        };
        match resting.now(command)? {
            Now::Reply(reply) => Ok(Put::Answered(reply)),
            Now::Work(steps, direction) => {
                let Some(resting) = self.resting.take() else {
                    unreachable!()
                };
                let queued = resting.queue(steps, direction);
                steps::put(&self.table.shared, &mut self.seat, self.row, queued);
                Ok(Put::Waiting)
            }
        }
    }

    /// Returns the reply to the command that was put, if the command is finished. Then the desk has
    /// the machine again. Returns `None` if it isn't finished, or if the desk doesn't wait.
    pub fn try_collect(&mut self) -> Option<Reply>
        ensures { CollectGives self.old result self.new }
    {
        if self.resting.is_some() {
            return None;
        }
        let finished = steps::collect(&self.table.shared, &mut self.seat, self.row)?;
        let (resting, reply) = finished.collect();
        self.resting.insert(resting);
        Some(reply)
    }

    /// Does a command and returns its reply. The desk must not wait for another reply. Sleeps until
    /// boards have done the command's steps. If an allocation fails, the desk is as it was.
    pub fn ask<R: Wait>(&mut self, rt: &R, command: Command) -> Result<Reply, NoMemory>
        requires { IsResting self.old }
        ensures gives { IfOk result (λ reply. AskGives self.old command reply self.new) }
        ensures err { OnErr result (self.new ≡ self.old) }
        ensures memory { WantsNone self.old command → IsOk result }
    {
        match self.put(command)? {
            Put::Answered(reply) => Ok(reply),
            Put::Waiting => Ok(self.wait(rt)),
        }
    }

    /// Sleeps until the command that was put is finished, and returns its reply. The desk has to
    /// wait for one. `ask` calls it if `put` returns `Waiting`.
    pub fn wait<R: Wait>(&mut self, rt: &R) -> Reply
        requires { is_waiting self.old ≡ true }
        ensures { CollectGives self.old (Some result) self.new }
    {
        for _ in rt.forever() {
            if let Some(reply) = self.try_collect() {
                return reply;
            }
            self.sleep(rt);
        }
        unreachable!()
    }

    /// Sleeps until the user's word in the table changes. Returns at once if the command that was
    /// put is finished.
    fn sleep<R: Wait>(&self, rt: &R) {
        let seen = self.table.shared.peek(self.row);
        if seen != steps::DONE {
            self.table
                .shared
                .park(rt, self.row, (seen & 0xffff_ffff) as u32);
        }
    }
}

/// Makes the desk of a row with a machine. Rows are counted from 0: user 1 has row 0. `seat` is its
/// token, which has taken the row's slot.
pub(crate) fn desk_of(table: Arc<HandTable>, seat: Token, row: usize, resting: Resting) -> Desk
    requires at { IsAt (arc_value table).shared.table_id (arc_value table).shared.key.users
        seat.table_id row }
    requires rests { seat.me ≡ (Rests row, (row, None) ∷ []) }
    ensures { result ≡ standing (row + 1) resting }
{
    Desk {
        table,
        seat,
        row,
        resting: Some(resting),
    }
}
