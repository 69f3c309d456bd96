//! Who waits at the desk of a host's user.

use crate::streams::Connection;
use crate::waits::Patience;
use cam6_commands::{Command, Reply};
use cam6_handoff::{Desk, Put};
use cam6_planes::NoMemory;
use cam6_pool::SlicingGate;
use cam6_session::Waiter;
use std::sync::Wait;
use std::time::Clock;

/// Waits for boards. If steps wait for a board, the gate of the boards is rung, and the connection
/// sends the answers that it held back. Nothing here can wait without that (`Patience`).
#[derive(Drop)]
pub struct AtGate<'a, R, C> {
    pub patience: Patience<R>,
    pub gate: &'a SlicingGate<R>,
    pub connection: &'a C,
}

impl<'a, R: Wait + Clock + Drop, C: Connection> Waiter for AtGate<'a, R, C> {
    ghost use Rattle.std.specs.Prelude.{◌≡◌, IfOk, IsOk, OnErr};
    ghost use Rattle.cam6_handoff.specs.Standing.{IsResting};
    ghost use Rattle.cam6_handoff.specs.Desks.{AskGives, WantsNone};

    /// Does a command at a desk that waits for no reply, and returns its reply, as `Desk::ask`
    /// does. Before it waits for steps, it rings the gate, and the connection sends the answers
    /// that it holds back.
    fn ask(&self, desk: &mut Desk, command: Command) -> Result<Reply, NoMemory>
        requires { IsResting desk.old }
        ensures gives { IfOk result (λ reply. AskGives desk.old command reply desk.new) }
        ensures err { OnErr result (desk.new ≡ desk.old) }
        ensures memory { WantsNone desk.old command → IsOk result }
    {
        match desk.put(command)? {
            Put::Answered(reply) => Ok(reply),
            Put::Waiting => {
                let rung = self.gate.ring();
                let released = self.connection.release();
                Ok(self.patience.wait(desk, rung, released))
            }
        }
    }
}
