//! A machine that answers lines.
ghost use Rattle.std.specs.Prelude.{◌≡◌, IfErr, IfOk, List, ℕ, Ok};
ghost use Rattle.cam6_machine.specs.Stored.{machine_of};
ghost use Rattle.cam6_model.specs.Alone.{after, reply};
ghost use Rattle.cam6_model.specs.Machine.{blank};
ghost use Rattle.cam6_wire.specs.Commands.{command as what_is_said};
ghost use Rattle.cam6_wire.specs.Replies.{reply_bytes};
ghost use Rattle.cam6_web_machine.specs.Answers.{Fails, IsUntold};
ghost use Rattle.cam6_web_bridge.specs.Hosts.{answer_bytes};

use cam6_commands::{Command, Reply};
use cam6_machine::Machine;
use cam6_planes::{NoMemory, Side};
use cam6_web_bridge::{Answer, Host, Silence};
use cam6_wire::{LineFault, fault_text, fixed_text, read_command, reply_text};
use std::alloc::Global;

/// A machine of a page's own.
#[derive(Drop)]
pub struct PrivateMachine {
    alloc: Global,
    machine: Machine,
}

impl PrivateMachine {
    /// Makes a blank machine of this limit, the largest side that it can have.
    pub fn new(alloc: Global, limit: Side) -> Result<PrivateMachine, NoMemory>
        ensures { IfOk result (λ own. machine_of own.machine ≡ blank limit) }
    {
        Ok(PrivateMachine {
            alloc,
            machine: Machine::new(alloc, limit)?,
        })
    }
}

impl Host for PrivateMachine {
    ghost use Rattle.cam6_machine.specs.Stored.{machine_of};
    ghost use Rattle.cam6_model.specs.Machine.{Machine};
    ghost use Rattle.cam6_web_machine.specs.Answers.{by_private_machine};

    ghost state = { Machine };

    ghost stands = { λ own. machine_of own.machine };

    ghost answering = { by_private_machine };

    /// Does the command of a line, and returns the text of the machine's reply, without its LF. A
    /// line that is no command has a fault as its answer. Allocates nothing for an empty line and
    /// for one that is too long. The only error is `NoMemory`.
    fn ask(&mut self, line: &[u8]) -> Result<Answer, Silence> {
        match read_command(self.alloc, line) {
            Ok(command) => reply_to(self.alloc, &mut self.machine, command),
            Err(LineFault::NoMemory) => Err(Silence::NoMemory),
            Err(fault) => Ok(Answer::Fixed(fault_text(fault))),
        }
    }
}

/// Does a command, and returns the text of the machine's reply, without its LF. The only error is
/// `NoMemory`, and then the command may have been done.
fn reply_to(alloc: Global, machine: &mut Machine, command: Command) -> Result<Answer, Silence>
    ensures text { IfOk result (λ answer.
        answer_bytes answer ≡ reply_bytes (reply (machine_of machine.old) command)) }
    ensures machine { IfOk result (λ answer.
        machine_of machine.new ≡ after (machine_of machine.old) command) }
    ensures silence { (l : List ℕ) → what_is_said l ≡ Ok command → IfErr result (λ silence.
        Fails (machine_of machine.old) l silence (machine_of machine.new)) }
{
    match machine.reply_to(command) {
        Ok(reply) => answer_of(alloc, &reply),
        Err(_) => Err(Silence::NoMemory),
    }
}

/// Returns the text of a reply, without its LF. Allocates nothing for a reply that only says what
/// was done. The only error is `NoMemory`.
fn answer_of(alloc: Global, reply: &Reply) -> Result<Answer, Silence>
    ensures text { IfOk result (λ answer. answer_bytes answer ≡ reply_bytes reply.now) }
    ensures silence { IfErr result (λ silence. IsUntold reply.now silence) }
{
    if let Some(text) = fixed_text(reply) {
        return Ok(Answer::Fixed(text));
    }
    match reply_text(alloc, reply) {
        Ok(text) => Ok(Answer::Made(text.into_bytes())),
        Err(_) => Err(Silence::NoMemory),
    }
}
