//! A command that is finished.
ghost use Rattle.std.specs.Prelude.{◌≡◌};

use crate::resting::Resting;
use cam6_commands::Reply;
use cam6_machine::Machine;
use std::marker::Model;

/// A machine, and the reply that its user hasn't had yet.
#[derive(Drop)]
pub struct Finished {
    machine: Machine,
    reply: Reply,
}

impl Model for Finished {
    ghost use Rattle.cam6_slot.specs.Finished.{StoredFinished};

    ghost Value = { StoredFinished };

    ghost view = { λ f. record { machine = f.machine; told = f.reply } };
}

impl Finished {
    /// Makes a finished command of the machine after it and the reply for its user.
    pub(crate) fn new(machine: Machine, reply: Reply) -> Finished
        ensures machine { result.machine ≡ machine }
        ensures reply { result.told ≡ reply }
    {
        Finished { machine, reply }
    }

    /// Returns the machine, which has no command now, and the reply for its user.
    pub fn collect(self) -> (Resting, Reply)
        ensures machine { result.0 ≡ self.machine }
        ensures reply { result.1 ≡ self.told }
    {
        (Resting::new(self.machine), self.reply)
    }
}
