//! Who answers commands.

use cam6_commands::{Command, Reply};
use cam6_handoff::Desk;
use cam6_machine::Machine;
use cam6_planes::NoMemory;
use std::sync::Wait;

/// Something that stands at a machine, and answers commands as that machine does.
pub trait Ask {
    ghost use Rattle.std.specs.Prelude.{◌≡◌, ℕ, IfOk, OnOk, OnErr};
    ghost use Rattle.cam6_model.specs.Machine.{Machine};
    ghost use Rattle.cam6_model.specs.Alone.{reply, after};

    /// The machine at which it stands.
    ghost stands_at: { Self → Machine };

    /// Whether it is this user's, counted from 1.
    ghost is_of: { ℕ → Self → Type 0 };

    /// Whether it may be asked.
    ghost is_ready: { Self → Type 0 };

    /// Does the command and returns its reply. It must be ready to be asked. If an allocation
    /// fails, nothing changes.
    fn ask(&mut self, command: Command) -> Result<Reply, NoMemory>
        requires { is_ready self.old }
        ensures reply { IfOk result (λ r. r ≡ reply (stands_at self.old) command) }
        ensures machine { OnOk result (stands_at self.new ≡ after (stands_at self.old) command) }
        ensures err { OnErr result (stands_at self.new ≡ stands_at self.old) }
        ensures ready { is_ready self.new }
        ensures user { (u : ℕ) → is_of u self.old → is_of u self.new };
}

impl Ask for Machine {
    ghost use Rattle.std.specs.Prelude.{◌≡◌, ℕ, false, IfOk, IsOk, OnOk, OnErr, ⊤};
    ghost use Rattle.cam6_machine.specs.Stored.{machine_of};
    ghost use Rattle.cam6_model.specs.Alone.{reply, after};
    ghost use Rattle.cam6_model.specs.Memory.{may_want_memory};

    ghost stands_at = { λ m. machine_of m };

    // A private machine is anybody's.
    ghost is_of = { λ _ _. ⊤ };

    // A machine may always be asked.
    ghost is_ready = { λ _. ⊤ };

    /// Does the command and returns its reply. If an allocation fails, the machine is as it was.
    fn ask(&mut self, command: Command) -> Result<Reply, NoMemory>
        ensures reply { IfOk result (λ r. r ≡ reply (machine_of self.old) command) }
        ensures machine { OnOk result (machine_of self.new
            ≡ after (machine_of self.old) command) }
        ensures err { OnErr result (machine_of self.new ≡ machine_of self.old) }
        ensures ready { ⊤ }
        ensures user { ℕ → ⊤ → ⊤ }
        // It may run out of memory only if `Machine::reply_to` may.
        ensures memory { may_want_memory (machine_of self.old) command ≡ false → IsOk result }
    {
        self.reply_to(command)
    }
}

/// Somebody who asks a desk, and waits if boards do the steps of what is asked.
pub trait Waiter {
    ghost use Rattle.std.specs.Prelude.{◌≡◌, IfOk, IsOk, OnErr};
    ghost use Rattle.cam6_handoff.specs.Standing.{IsResting};
    ghost use Rattle.cam6_handoff.specs.Desks.{AskGives, WantsNone};

    /// Does a command at a desk that waits for no reply, and returns its reply, as `Desk::ask`
    /// does. May wait in its own way for the command's steps. If an allocation fails, the desk is
    /// as it was.
    fn ask(&self, desk: &mut Desk, command: Command) -> Result<Reply, NoMemory>
        requires { IsResting desk.old }
        ensures gives { IfOk result (λ reply. AskGives desk.old command reply desk.new) }
        ensures err { OnErr result (desk.new ≡ desk.old) }
        // It may run out of memory only if a private machine may.
        ensures memory { WantsNone desk.old command → IsOk result };
}

/// Waits by a handle of the runtime, at the desk alone.
pub struct Unaided<R> {
    /// The handle.
    pub rt: R,
}

impl<R: Wait> Waiter for Unaided<R> {
    ghost use Rattle.std.specs.Prelude.{◌≡◌, IfOk, IsOk, OnErr};
    ghost use Rattle.cam6_handoff.specs.Standing.{IsResting};
    ghost use Rattle.cam6_handoff.specs.Desks.{AskGives, WantsNone};

    /// Does a command at a desk that waits for no reply, and returns its reply, by `Desk::ask`.
    /// Waits for the command's steps by the runtime's handle alone. If an allocation fails, the
    /// desk is as it was.
    fn ask(&self, desk: &mut Desk, command: Command) -> Result<Reply, NoMemory>
        requires { IsResting desk.old }
        ensures gives { IfOk result (λ reply. AskGives desk.old command reply desk.new) }
        ensures err { OnErr result (desk.new ≡ desk.old) }
        ensures memory { WantsNone desk.old command → IsOk result }
    {
        desk.ask(&self.rt, command)
    }
}

/// A user's desk, with whoever asks it for the user.
pub struct AtDesk<W> {
    /// Who asks, and waits.
    pub waiter: W,
    /// The desk.
    pub desk: Desk,
}

impl<W: Waiter> Ask for AtDesk<W> {
    ghost use Rattle.std.specs.Prelude.{◌≡◌, ℕ, IfOk, IsOk, OnOk, OnErr};
    ghost use Rattle.cam6_model.specs.Alone.{reply, after};
    ghost use Rattle.cam6_handoff.specs.Standing.{IsDeskOf, IsResting};
    ghost use Rattle.cam6_handoff.specs.Desks.{WantsNone};
    ghost use Rattle.cam6_session.specs.Desks.{machine_at};

    ghost stands_at = { λ d. machine_at d.desk };

    ghost is_of = { λ u d. IsDeskOf u d.desk };

    // A desk may be asked while it doesn't wait, and no longer waits when it has answered.
    ghost is_ready = { λ d. IsResting d.desk };

    /// Does a command at the desk, which waits for no reply, and returns its reply. The waiter
    /// waits for the command's steps, whichever boards do them. If an allocation fails, the desk is
    /// as it was.
    fn ask(&mut self, command: Command) -> Result<Reply, NoMemory>
        requires { IsResting self.old.desk }
        ensures reply { IfOk result (λ r. r ≡ reply (machine_at self.old.desk) command) }
        ensures machine { OnOk result (machine_at self.new.desk
            ≡ after (machine_at self.old.desk) command) }
        ensures err { OnErr result (machine_at self.new.desk ≡ machine_at self.old.desk) }
        ensures ready { IsResting self.new.desk }
        ensures user { (u : ℕ) → IsDeskOf u self.old.desk → IsDeskOf u self.new.desk }
        // It may run out of memory only if a private machine may.
        ensures memory { WantsNone self.old.desk command → IsOk result }
    {
        self.waiter.ask(&mut self.desk, command)
    }
}
