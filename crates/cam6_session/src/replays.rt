//! A stream of event lines, each answered by one line.
ghost use Rattle.std.specs.Prelude.{◌≡◌, List, ℕ, Ok, Err, true};
ghost use Rattle.cam6_core.specs.Runs.{accepted};
ghost use Rattle.cam6_core.specs.State.{State};
ghost use Rattle.cam6_wire.specs.Commands.{IsFaultOf, IsSaid};
ghost use Rattle.cam6_wire.specs.Events.{event as what_happens};
ghost use Rattle.cam6_wire.specs.Outcomes.{outcome_bytes};
ghost use Rattle.cam6_wire.specs.declared.faults.LineFault.TheVariants.{NoMemory};
ghost use Rattle.cam6_session.specs.Events.{by_core};
ghost use Rattle.cam6_session.specs.Held.{Holds};
ghost use Rattle.cam6_session.specs.Replays.{WritesOutcomes};
ghost use Rattle.cam6_session.specs.Responding.{Responds, TakesMemory, TellsText};
ghost use Rattle.cam6_session.specs.Sessions.{AnswersReader};
ghost use Rattle.cam6_session.specs.Spending.{SpendsItsReads};

use crate::answerers::{Answerer, tell, tell_fault};
use crate::line_buffer::LineBuf;
use crate::sessions::{End, Stop, answer_lines};
use cam6_commands::{Event, Outcome};
use cam6_core::Core;
use cam6_wire::{LineFault, outcome_text, read_event, undone_line};
use cam6_writing::send;
use std::alloc::Global;
use std::io::{BufRead, Write};

/// Does the event of each line of the reader, and writes its outcome as one line. A line without an
/// event is answered by its fault. Ends if the input ends, if something fails, or if the reads run
/// out. Returns which. Each call of `fill_buf` takes one of `reads_left`.
pub fn replay<R: BufRead, W: Write>(
    alloc: Global,
    reader: &mut R,
    writer: &mut W,
    core: &mut Core,
    reads_left: u64,
) -> End
    ensures served { AnswersReader by_core result
        (R.remaining reader.old) (R.remaining reader.new)
        (W.contents writer.old) (W.contents writer.new) core.old core.new }
    // If the core was new, the replies that the lines give each user are those of their private
    // machine.
    ensures headline { WritesOutcomes result (R.remaining reader.old)
        (W.contents writer.old) (W.contents writer.new) core.old core.new }
    ensures reads_left { SpendsItsReads result reads_left
        (R.remaining reader.old) (R.remaining reader.new) }
{
    answer_lines(alloc, reader, writer, core, reads_left)
}

/// A core answers lines of events.
impl Answerer for Core {
    ghost use Rattle.std.specs.Prelude.{List, ℕ, ⊤};
    ghost use Rattle.cam6_core.specs.State.{State};
    ghost use Rattle.cam6_session.specs.Events.{by_core};
    ghost use Rattle.cam6_session.specs.Held.{Holds};
    ghost use Rattle.cam6_session.specs.Responding.{Responds};

    ghost state = { State };

    ghost asked = { λ core. core };

    // A core is no one user's.
    ghost is_of = { λ _ _. ⊥ };

    // A core may always be given a line.
    ghost may_answer = { λ _. ⊤ };

    ghost answering = { by_core };

    /// Does the event of a whole line, and writes its outcome as a line. If the line has no event,
    /// writes its fault. If an allocation or the write fails, returns why serving stops there.
    fn respond<W: Write>(
        &mut self,
        alloc: Global,
        line: &LineBuf,
        writer: &mut W,
    ) -> Result<(), Stop>
        ensures ready { ⊤ }
        ensures user { ℕ → ⊥ → ⊥ }
        ensures responds { (l : List ℕ) → Holds line.now l → Responds by_core result l
            (W.contents writer.old) (W.contents writer.new) self.old self.new }
    {
        match read_request(alloc, line) {
            Ok(event) => respond_to(alloc, event, writer, self),
            Err(fault) => respond_fault(fault, writer),
        }
    }
}

/// Returns the event that a line is read as. Else returns the line's fault, or `NoMemory` if an
/// allocation fails.
fn read_request(alloc: Global, line: &LineBuf) -> Result<Event, LineFault>
    ensures said { (l : List ℕ) → Holds line.now l → IsSaid result (what_happens l) }
    ensures memory { (l : List ℕ) → Holds line.now l → result ≡ Err NoMemory → TakesMemory l }
{
    let Some(bytes) = line.bytes() else {
        return Err(LineFault::TooLong);
    };
    read_event(alloc, bytes)
}

/// Does the event, and writes its outcome as a line. If an allocation or the write fails, returns
/// why serving stops there.
fn respond_to<W: Write>(
    alloc: Global,
    event: Event,
    writer: &mut W,
    core: &mut Core,
) -> Result<(), Stop>
    ensures { (l : List ℕ) → what_happens l ≡ Ok event → Responds by_core result l
        (W.contents writer.old) (W.contents writer.new) core.old core.new }
{
    let outcome = core.apply(event);
    tell_outcome(alloc, &outcome, writer)
}

/// Writes the outcome of an event as a line. Allocates only for the text of an event that was done.
/// Returns why serving stops if the write fails, or `NoMemory` with `done: true` if an allocation
/// fails.
fn tell_outcome<W: Write>(alloc: Global, outcome: &Outcome, writer: &mut W) -> Result<(), Stop>
    ensures told { TellsText result (outcome_bytes outcome.now)
        (W.contents writer.old) (W.contents writer.new) }
    ensures memory { result ≡ Err (Stop.NoMemory true) → accepted outcome.now ≡ true }
{
    match undone_line(outcome) {
        Some(line) => {
            send(writer, line.as_bytes())?;
            Ok(())
        }
        None => match outcome_text(alloc, outcome) {
            Ok(text) => tell(writer, text),
            Err(_) => Err(Stop::NoMemory { done: true }),
        },
    }
}

/// Writes the fault of a line that has no event, as a line. If the fault is `NoMemory`, writes
/// nothing and returns `Stop` with `done: false`. If the write fails, returns that.
fn respond_fault<W: Write>(fault: LineFault, writer: &mut W) -> Result<(), Stop>
    ensures { (l : List ℕ) (s : State) → IsFaultOf fault (what_happens l) →
        (fault ≡ NoMemory → TakesMemory l) →
        Responds by_core result l (W.contents writer.old) (W.contents writer.new) s s }
{
    tell_fault(fault, writer)
}
