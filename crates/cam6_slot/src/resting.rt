//! A machine at rest, and what comes of a command.
ghost use Rattle.std.specs.Prelude.{◌≡◌, false, IfOk, IsOk, OnErr};
ghost use Rattle.cam6_commands.specs.declared.commands.Command.{Command};
ghost use Rattle.cam6_machine.specs.declared.replies.Now.{Now};
ghost use Rattle.cam6_machine.specs.AtOnce.{CanWork};
ghost use Rattle.cam6_model.specs.Machine.{Machine as Alone};

use crate::finished::Finished;
use crate::parked::Parked;
use crate::queued::Queued;
use crate::works::Work;
use cam6_commands::Command;
use cam6_cycle::Direction;
use cam6_machine::{Machine, Now};
use cam6_planes::NoMemory;
use std::marker::Model;

/// A machine with no command under way.
#[derive(Drop)]
pub struct Resting {
    machine: Machine,
}

/// What comes of a command.
#[derive(Drop)]
pub enum Asked {
    /// It is done.
    Finished(Finished),
    /// Its steps wait for a board.
    Queued(Queued),
    /// An allocation failed, and the machine is as it was.
    NoMemory(Resting),
}

/// Where a user's command lies while nobody works at it.
#[derive(Drop)]
pub enum Place {
    Queued(Queued),
    Finished(Finished),
}

impl Model for Resting {
    ghost use Rattle.cam6_machine.specs.Stored.{StoredMachine};

    ghost Value = { StoredMachine };

    ghost view = { λ r. r.machine };
}

impl Resting {
    ghost use Rattle.cam6_machine.specs.Stored.{machine_of};
    ghost use Rattle.cam6_model.specs.Memory.{may_want_memory};
    ghost use Rattle.cam6_slot.specs.Asked.{StandsFor, HasLeft, HasHome, Opens};
    ghost use Rattle.cam6_slot.specs.Asked.{IsBack, HadMemory};
    ghost use Rattle.cam6_slot.specs.AtOnce.{Says};
    ghost use Rattle.cam6_slot.specs.Lefts.{bands_of, queued_left, queued_home};
    ghost use Rattle.cam6_slot.specs.Stands.{Stands};
    ghost use Rattle.cam6_slot.specs.Works.{machine_at_home, command_in};

    /// Makes a resting machine of one that has no command under way.
    pub fn new(machine: Machine) -> Resting
        ensures { result ≡ machine }
    {
        Resting { machine }
    }

    /// Returns the machine, as the last command left it.
    pub fn into_machine(self) -> Machine
        ensures { result ≡ self }
    {
        self.machine
    }

    /// Does a command without steps, and returns its reply. For a command with steps, returns their
    /// number and direction, and does none: the caller passes them to `queue`. Allocates all memory
    /// of the command. If that fails, the machine is as it was.
    pub fn now(&mut self, command: Command) -> Result<Now, NoMemory>
        ensures says { IfOk result (λ now.
            Says (machine_of self.old) command now (machine_of self.new)) }
        ensures ready { IfOk result (λ now. CanWork now (machine_of self.new)) }
        ensures err { OnErr result (self.new ≡ self.old) }
        // It may run out of memory only if a private machine may.
        ensures memory { may_want_memory (machine_of self.old) command ≡ false → IsOk result }
    {
        self.machine.now(command)
    }

    /// Makes a command of these steps wait for a board. Steps and direction are those that `now`
    /// returned last. The machine's image is the one at home.
    pub fn queue(self, steps: u16, direction: Direction) -> Queued
        requires { CanWork (Now.Work steps direction) (machine_of self) }
        // For whatever machine and command they are said of.
        ensures stands { (m : Alone) (c : Command) →
            Says m c (Now.Work steps direction) (machine_of self) → Stands result m c }
        ensures left { (m : Alone) (c : Command) →
            Says m c (Now.Work steps direction) (machine_of self) →
            queued_left result ≡ bands_of m c }
        ensures home { (m : Alone) (c : Command) →
            Says m c (Now.Work steps direction) (machine_of self) →
            queued_home result ≡ bands_of m c }
        ensures opens { (m : Alone) (c : Command) →
            Says m c (Now.Work steps direction) (machine_of self) →
            (machine_at_home result.work ≡ m) × (command_in result.work ≡ c) }
    {
        let Resting { machine } = self;
        // `limit` gives the proof the machine's invariant.
        let _limit = machine.limit();
        let (kept, home, spare) = machine.into_parts();
        let work = Work::begin(kept, direction, steps, home);
        Queued::new(work, Parked::Spare(spare))
    }

    /// Gives the machine a command. A command without steps is done at once. The steps of any other
    /// command wait for a board. Allocates all memory of the command. If that fails, returns the
    /// machine as it was.
    pub fn ask(mut self, command: Command) -> Asked
        ensures stands { StandsFor (machine_of self) command result }
        ensures left { HasLeft (bands_of (machine_of self) command) result }
        ensures home { HasHome (bands_of (machine_of self) command) result }
        ensures opens { Opens (machine_of self) command result }
        ensures back { IsBack self result }
        // It may run out of memory only if a private machine may.
        ensures memory { may_want_memory (machine_of self) command ≡ false → HadMemory result }
    {
        match self.now(command) {
            Ok(Now::Reply(reply)) => Asked::Finished(Finished::new(self.machine, reply)),
            Ok(Now::Work(steps, direction)) => Asked::Queued(self.queue(steps, direction)),
            Err(_) => Asked::NoMemory(self),
        }
    }
}
