//! Who answers lines.
ghost use Rattle.std.specs.Prelude.{◌≡◌, List, ℕ, Ok, Err, string_bytes};
ghost use Rattle.cam6_model.specs.Machine.{Machine};
ghost use Rattle.cam6_wire.specs.declared.faults.LineFault.TheVariants.{NoMemory};
ghost use Rattle.cam6_wire.specs.Commands.{command as what_is_said, IsFaultOf, IsSaid};
ghost use Rattle.cam6_wire.specs.Replies.{reply_bytes};
ghost use Rattle.cam6_session.specs.Answers.{by_machine};
ghost use Rattle.cam6_session.specs.Held.{Holds};
ghost use Rattle.cam6_session.specs.Responding.{Responds, TakesMemory, TellsText, TellsFault};

use crate::desks::Ask;
use crate::line_buffer::LineBuf;
use crate::sessions::Stop;
use cam6_commands::{Command, Reply};
use cam6_wire::{LineFault, fault_line, fixed_line, read_command, reply_text};
use cam6_writing::send;
use std::alloc::Global;
use std::io::Write;

/// Something that answers lines, one after another.
pub trait Answerer {
    ghost use Rattle.std.specs.Prelude.{List, ℕ};
    ghost use Rattle.cam6_session.specs.Answering.{Answering};
    ghost use Rattle.cam6_session.specs.Held.{Holds};
    ghost use Rattle.cam6_session.specs.Responding.{Responds};

    /// The type of what it stands at.
    ghost state: { Type 0 };

    /// Where what is asked stands.
    ghost asked: { Self → state };

    /// Whether it is this user's, counted from 1.
    ghost is_of: { ℕ → Self → Type 0 };

    /// Whether it may be given a line.
    ghost may_answer: { Self → Type 0 };

    /// How it answers lines.
    ghost answering: { Answering state };

    /// Answers a whole line, without its LF, by one line, which it writes. The line may be too
    /// long. If an allocation or the write fails, returns why serving stops there.
    fn respond<W: Write>(
        &mut self,
        alloc: Global,
        line: &LineBuf,
        writer: &mut W,
    ) -> Result<(), Stop>
        requires { may_answer self.old }
        ensures ready { may_answer self.new }
        ensures user { (u : ℕ) → is_of u self.old → is_of u self.new }
        ensures responds { (l : List ℕ) → Holds line.now l → Responds answering result l
            (W.contents writer.old) (W.contents writer.new) (asked self.old) (asked self.new) };
}

/// Whatever stands at a machine answers lines as that machine does.
impl<D: Ask> Answerer for D {
    ghost use Rattle.std.specs.Prelude.{List, ℕ};
    ghost use Rattle.cam6_model.specs.Machine.{Machine};
    ghost use Rattle.cam6_session.specs.Answers.{by_machine};
    ghost use Rattle.cam6_session.specs.Held.{Holds};
    ghost use Rattle.cam6_session.specs.Responding.{Responds};

    ghost state = { Machine };

    ghost asked = { D.stands_at };

    ghost is_of = { D.is_of };

    ghost may_answer = { D.is_ready };

    ghost answering = { by_machine };

    /// Does the command of a whole line, and writes the reply as a line. If the line has no
    /// command, writes its fault. If an allocation or the write fails, returns why serving stops
    /// there.
    fn respond<W: Write>(
        &mut self,
        alloc: Global,
        line: &LineBuf,
        writer: &mut W,
    ) -> Result<(), Stop>
        requires { D.is_ready self.old }
        ensures ready { D.is_ready self.new }
        ensures user { (u : ℕ) → D.is_of u self.old → D.is_of u self.new }
        ensures responds { (l : List ℕ) → Holds line.now l → Responds by_machine result l
            (W.contents writer.old) (W.contents writer.new)
            (D.stands_at self.old) (D.stands_at self.new) }
    {
        match read_request(alloc, line) {
            Ok(command) => respond_to(alloc, command, writer, self),
            Err(fault) => respond_fault(fault, writer),
        }
    }
}

/// Returns the command that a line is read as. Else returns the line's fault, or `NoMemory` if an
/// allocation fails.
fn read_request(alloc: Global, line: &LineBuf) -> Result<Command, LineFault>
    ensures said { (l : List ℕ) → Holds line.now l → IsSaid result (what_is_said l) }
    ensures memory { (l : List ℕ) → Holds line.now l → result ≡ Err NoMemory → TakesMemory l }
{
    let Some(bytes) = line.bytes() else {
        return Err(LineFault::TooLong);
    };
    read_command(alloc, bytes)
}

/// Does the command at the desk, and writes its reply as a line. If an allocation or the write
/// fails, returns why serving stops there. After a failed allocation that tells whether the command
/// was done.
fn respond_to<W: Write, D: Ask>(
    alloc: Global,
    command: Command,
    writer: &mut W,
    desk: &mut D,
) -> Result<(), Stop>
    requires { D.is_ready desk.old }
    ensures ready { D.is_ready desk.new }
    ensures user { (u : ℕ) → D.is_of u desk.old → D.is_of u desk.new }
    ensures responds { (l : List ℕ) → what_is_said l ≡ Ok command → Responds by_machine result l
        (W.contents writer.old) (W.contents writer.new)
        (D.stands_at desk.old) (D.stands_at desk.new) }
{
    let Ok(reply) = desk.ask(command) else {
        return Err(Stop::NoMemory { done: false });
    };
    tell_reply(alloc, &reply, writer)
}

/// Writes a reply as a line. Allocates nothing for a reply that only says what was done. Returns
/// why serving stops if the write fails, or `NoMemory` with `done: true` if an allocation fails.
fn tell_reply<W: Write>(alloc: Global, reply: &Reply, writer: &mut W) -> Result<(), Stop>
    ensures { TellsText result (reply_bytes reply.now)
        (W.contents writer.old) (W.contents writer.new) }
{
    if let Some(fixed) = fixed_line(reply) {
        send(writer, fixed.as_bytes())?;
        return Ok(());
    }
    let Ok(text) = reply_text(alloc, reply) else {
        return Err(Stop::NoMemory { done: true });
    };
    tell(writer, text)
}

/// Writes the fault of a line that has no command, as a line. If the fault is `NoMemory`, writes
/// nothing and returns `Stop` with `done: false`. If the write fails, returns that.
fn respond_fault<W: Write>(fault: LineFault, writer: &mut W) -> Result<(), Stop>
    ensures { (l : List ℕ) (m : Machine) → IsFaultOf fault (what_is_said l) →
        (fault ≡ NoMemory → TakesMemory l) →
        Responds by_machine result l (W.contents writer.old) (W.contents writer.new) m m }
{
    tell_fault(fault, writer)
}

/// Writes a line's fault as a line. If the fault is `NoMemory`, writes nothing and returns `Stop`
/// with `done: false`. If the write fails, returns that.
pub(crate) fn tell_fault<W: Write>(fault: LineFault, writer: &mut W) -> Result<(), Stop>
    ensures { TellsFault result fault (W.contents writer.old) (W.contents writer.new) }
{
    match fault {
        LineFault::NoMemory => Err(Stop::NoMemory { done: false }),
        _ => {
            send(writer, fault_line(fault).as_bytes())?;
            Ok(())
        }
    }
}

/// Writes the text, which has no LF, and an LF. If there is no memory for the LF, writes nothing
/// and returns `NoMemory` with `done: true`. If the write fails, returns that.
pub(crate) fn tell<W: Write>(writer: &mut W, text: String) -> Result<(), Stop>
    ensures { TellsText result (string_bytes text) (W.contents writer.old) (W.contents writer.new) }
{
    let mut line = text;
    if line.push('\n').is_err() {
        return Err(Stop::NoMemory { done: true });
    }
    send(writer, line.as_bytes())?;
    Ok(())
}
