//! Users, whose commands are asked at their desks by threads of their own.
ghost use Rattle.std.specs.Prelude.{◌≡◌, false};
ghost use Rattle.cam6_handoff.specs.Standing.{is_waiting};

use crate::threads::{Flag, Handle, Thread};
use cam6_commands::{Command, Reply};
use cam6_handoff::Desk;
use cam6_try_examples::no_memory;
use cam6_wire::{read_command, reply_text};
use std::alloc::Global;
use std::thread::spawn;
use std::{io, mem};

/// What a thread that asked at a desk comes back with.
#[derive(Drop)]
struct Spoken {
    desk: Desk,
    /// `None` if the desk waited already, or there was no memory for it.
    reply: Option<Reply>,
}

/// A user, who may ask at their desk.
#[derive(Drop)]
pub struct User {
    /// The user's desk, unless a thread has it.
    desk: Option<Desk>,
    /// The thread that has the user's desk.
    thread: Option<Thread<Spoken>>,
}

impl User {
    /// Makes a user at a desk, without a thread.
    pub fn new(desk: Desk) -> User {
        User {
            desk: Some(desk),
            thread: None,
        }
    }

    /// Starts a thread that asks a line's command at the user's desk. Returns false, and starts
    /// none, if the line can't be read as a command, even for lack of memory, or if the desk isn't
    /// here. Fails if memory runs out later, or if the thread can't be started, and then the desk
    /// may be lost.
    pub fn start<R: Handle + Send + Sync + 'static>(
        &mut self,
        rt: R,
        line: &str,
    ) -> io::Result<bool> {
        let Ok(command) = read_command(rt.alloc(), line.as_bytes()) else {
            return Ok(false);
        };
        let flag = Flag::new(rt.alloc())?;
        let raised = flag.shared()?;
        let Some(desk) = self.desk.take() else {
            return Ok(false);
        };
        let thread = sent(rt, desk, command, flag, raised);
        drop(mem::replace(&mut self.thread, thread));
        if self.thread.is_none() {
            return Err(no_memory());
        }
        Ok(true)
    }

    /// Waits for the user's thread to end, takes the desk back, and returns the text of the reply.
    /// Returns `None` if there is no thread, or if it runs on for more than `LOOKS` milliseconds.
    /// Fails if the desk gave no reply, or if memory runs out.
    pub fn join<R: Handle>(&mut self, rt: &R) -> io::Result<Option<String>> {
        if !self.is_back(rt) {
            return Ok(None);
        }
        match self.thread.take() {
            Some(thread) => {
                let spoken = thread.handle.join(rt);
                self.desk.insert(spoken.desk);
                text_of(rt.alloc(), spoken.reply.as_ref())
            }
            None => Ok(None),
        }
    }

    /// Waits for the user's thread to end. Returns false if there is none, or if it runs on for
    /// more than `LOOKS` milliseconds.
    fn is_back<R: Handle>(&self, rt: &R) -> bool {
        match &self.thread {
            Some(thread) => thread.ends(rt),
            None => false,
        }
    }
}

/// Returns the text of a reply, which is never `None`. Without a reply it fails as if memory had
/// run out.
fn text_of(alloc: Global, reply: Option<&Reply>) -> io::Result<Option<String>> {
    match reply {
        Some(reply) => Ok(Some(reply_text(alloc, reply).map_err(|_| no_memory())?)),
        None => Err(no_memory()),
    }
}

/// Starts a thread that asks a command at the desk, and then raises the flag `raised`. `flag` is
/// another handle to that flag, for the caller. Returns `None`, and loses the desk, if it can't be
/// started.
fn sent<R: Handle + Send + Sync + 'static>(
    rt: R,
    desk: Desk,
    command: Command,
    flag: Flag,
    raised: Flag,
) -> Option<Thread<Spoken>> {
    let handle = spawn(&rt, move || speak(&rt, desk, command, &raised)).ok()?;
    Some(Thread { handle, flag })
}

/// Asks a command at the desk, unless the desk still waits for another one. Then raises the flag.
/// Returns the desk with the reply, or without one if it waited or memory ran out.
fn speak<R: Handle>(rt: &R, mut desk: Desk, command: Command, raised: &Flag) -> Spoken {
    let reply = if desk.is_waiting() {
        None
    } else {
        desk.ask(rt, command).ok()
    };
    raised.raise();
    Spoken { desk, reply }
}
