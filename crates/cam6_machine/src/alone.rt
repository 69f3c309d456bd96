//! A private machine.
ghost use Rattle.std.specs.Prelude.{◌≡◌, IfOk};
ghost use Rattle.cam6_model.specs.Machine.{blank};
ghost use Rattle.cam6_machine.specs.Stored.{machine_of};
ghost use Rattle.cam6_model.specs.Alone.{replies, after_all};

use crate::machines::Machine;
use cam6_commands::{Command, Reply};
use cam6_planes::{NoMemory, Side};
use std::alloc::Global;

/// Returns the replies of a blank machine of this limit to commands, in order, and the machine
/// after them. Returns `NoMemory` only if an allocation fails.
pub fn replies_alone(
    alloc: Global,
    limit: Side,
    commands: Vec<Command>,
) -> Result<(Vec<Reply>, Machine), NoMemory>
    ensures replies { IfOk result (λ done. done.0.items ≡ replies (blank limit) commands.items) }
    ensures machine { IfOk result (λ done.
        machine_of done.1 ≡ after_all (blank limit) commands.items) }
{
    let mut machine = Machine::new(alloc, limit)?;
    let replies = replies_of(alloc, &mut machine, commands)?;
    Ok((replies, machine))
}

/// Does commands one after another, and returns their replies in order. If an allocation fails,
/// returns `NoMemory`, and some of the commands may be done.
fn replies_of(
    alloc: Global,
    machine: &mut Machine,
    commands: Vec<Command>,
) -> Result<Vec<Reply>, NoMemory>
    ensures replies { IfOk result (λ told.
        told.items ≡ replies (machine_of machine.old) commands.items) }
    ensures machine { IfOk result (λ _.
        machine_of machine.new ≡ after_all (machine_of machine.old) commands.items) }
{
    let mut replies = Vec::with_capacity(alloc, commands.len())?;
    for command in commands {
        replies.push(machine.reply_to(command)?)?;
    }
    Ok(replies)
}
