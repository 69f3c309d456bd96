//! Who may wait for the boards.
ghost use Rattle.std.specs.Prelude.{◌≡◌, Some, true};
ghost use Rattle.cam6_handoff.specs.Desks.{CollectGives};
ghost use Rattle.cam6_handoff.specs.Standing.{is_waiting};

use crate::streams::Released;
use cam6_commands::Reply;
use cam6_handoff::Desk;
use cam6_pool::Rung;
use std::sync::Wait;

/// A handle of the runtime that waits only for who shows that the gate of the boards was rung, and
/// that the connection sent what it held back. Nobody else can wait by it, since the handle is private.
#[derive(Drop)]
pub struct Patience<R> {
    rt: R,
}

impl<R: Wait> Patience<R> {
    /// Makes it of a handle of the runtime, by which it sleeps.
    pub fn new(rt: R) -> Patience<R> {
        Patience { rt }
    }

    /// Waits for the reply to the command that was put at the desk, and returns it. The desk has to
    /// wait for one. `_rung` and `_released` prove that the gate was rung, and that the connection
    /// sent what it held back.
    pub fn wait(&self, desk: &mut Desk, _rung: Rung, _released: Released) -> Reply
        requires { is_waiting desk.old ≡ true }
        ensures { CollectGives desk.old (Some result) desk.new }
    {
        desk.wait(&self.rt)
    }
}
