//! What lines of commands say.

use crate::command_lines::line_of;
use cam6_commands::Command;
use cam6_try_examples::{Sent, add_line, no_memory};
use cam6_wire::{LineFault, fault_text, read_command};
use std::alloc::Global;
use std::io;

/// Reads each line as a command. Returns, for each, a line: the plainest one of its command, or the
/// text of the line's fault. Fails if memory runs out.
pub fn readings(alloc: Global, sent: &[Sent]) -> io::Result<Vec<u8>> {
    let mut answers = Vec::new(alloc);
    for line in sent {
        add_command(
            alloc,
            &mut answers,
            read_command(alloc, line.bytes.as_slice()),
        )?;
    }
    Ok(answers)
}

/// Adds the plainest line of a command to `answers`, or the line of a fault. Fails if memory runs
/// out, as `LineFault::NoMemory` says or here.
fn add_command(
    alloc: Global,
    answers: &mut Vec<u8>,
    command: Result<Command, LineFault>,
) -> io::Result<()> {
    match command {
        Ok(command) => add_line(answers, line_of(alloc, &command)?.as_str()),
        Err(LineFault::NoMemory) => Err(no_memory()),
        Err(fault) => add_line(answers, fault_text(fault)),
    }
}
