//! What is said on a connection: its first line asks for a seat, and then there is a session.
ghost use Rattle.std.specs.Prelude.{◌≡◌, ◌≢◌, List, ℕ, Ok, Err};
ghost use Rattle.cam6_handoff.specs.Standing.{IsDeskOf, IsResting};
ghost use Rattle.cam6_session.specs.Held.{Holds};
ghost use Rattle.cam6_session.specs.Responding.{TakesMemory};
ghost use Rattle.cam6_wire.specs.Commands.{IsSaid};
ghost use Rattle.cam6_wire.specs.Seats.{seat};
ghost use Rattle.cam6_server.specs.Connections.{AnswersOnly, Converses, ReadsFirst};
ghost use Rattle.cam6_server.specs.Connections.{SitsDown, SitsDownAt, Tells};

use crate::desks::AtGate;
use crate::places::SeatedDesk;
use crate::states::{Handle, HostState};
use crate::streams::Connection;
use crate::waits::Patience;
use cam6_session::{Ask, End, Line, LineBuf, answer_lines, next_line_within};
use cam6_wire::{LineFault, Seating, fault_line, read_seat, seating_line};
use cam6_writing::send;
use std::alloc::Global;
use std::io::{BufRead, Write};

/// How often at most a session looks at its reader. The same bound holds for a first line.
const READS: u64 = 1_099_511_627_776;

/// How a connection went.
#[derive(Clone, Copy, Debug, PartialEq, Eq)]
pub enum Visit {
    /// No first line was answered, for this reason. Nothing was written.
    Silent(End),
    /// Its first line was refused, and the refusal was written.
    Refused,
    /// The answer to its first line, a refusal or that of a seat, could not be written whole.
    Unheard,
    /// Its client had a seat, and the session ended so.
    Served(End),
}

/// Answers the first line. If it asks for a seat that is free, answers the lines after it too, as the
/// user's machine does. The seat is free again when this returns. Reports to the connection when the
/// client has its seat. The connection sends the answers that it holds back before steps are waited
/// for, and before the seat is free. Answers a first line as soon as it is certainly too long.
pub fn converse<H: Handle, R: BufRead, W: Write, C: Connection>(
    host: &HostState<H>,
    reader: &mut R,
    writer: &mut W,
    connection: &C,
) -> Visit
    ensures { Converses result (R.remaining reader.old) (R.remaining reader.new)
        (W.contents writer.old) (W.contents writer.new) }
{
    let user = match first_line(host.rt.alloc(), reader) {
        Ok(Ok(user)) => user,
        Ok(Err(fault)) => return refuse(writer, fault_line(fault)),
        Err(end) => return Visit::Silent(end),
    };
    let waiter = AtGate {
        patience: Patience::new(host.rt),
        gate: &host.gate,
        connection,
    };
    let taken = host.places.lock(&host.rt).take(user, waiter);
    match taken {
        Ok(desk) => serve_at_desk(host, reader, writer, connection, desk),
        Err(seating) => refuse(writer, seating_line(seating)),
    }
}

/// Reads the first line. Returns the number of the user whose seat it asks for, or the line's
/// fault. Returns `Err` with the reason if nothing is to be answered: no line, a failed read, no
/// memory, or too many reads.
fn first_line<R: BufRead>(alloc: Global, reader: &mut R) -> Result<Result<u64, LineFault>, End>
    ensures read { ReadsFirst result (R.remaining reader.old) (R.remaining reader.new) }
    ensures memory { result ≢ Ok (Err LineFault.NoMemory) }
{
    let Ok(mut line) = LineBuf::new(alloc) else {
        return Err(End::NoMemory { done: false });
    };
    let mut reads_left = READS;
    match next_line_within(reader, &mut line, &mut reads_left) {
        Line::Ended | Line::Last => answerable(alloc, &line),
        Line::EndOfInput => Err(End::EndOfInput),
        Line::ReadFault => Err(End::ReadFault),
        Line::TurnBound => Err(End::TurnBound),
        Line::NoMemory => Err(End::NoMemory { done: false }),
    }
}

/// Returns the number of the user whose seat a line asks for, or the line's fault. Returns `Err` if
/// an allocation fails, since nothing is answered then.
fn answerable(alloc: Global, line: &LineBuf) -> Result<Result<u64, LineFault>, End>
    ensures said { (l : List ℕ) → Holds line.now l → Tells result l }
    ensures memory { result ≢ Ok (Err LineFault.NoMemory) }
{
    match read_request(alloc, line) {
        Err(LineFault::NoMemory) => Err(End::NoMemory { done: false }),
        said => Ok(said),
    }
}

/// Returns the number of the user whose seat a line asks for, counted from 1. Else returns the
/// line's fault, or `NoMemory` if an allocation fails.
fn read_request(alloc: Global, line: &LineBuf) -> Result<u64, LineFault>
    ensures said { (l : List ℕ) → Holds line.now l → IsSaid result (seat l) }
    ensures memory { result ≡ Err LineFault.NoMemory →
        (l : List ℕ) → Holds line.now l → TakesMemory l }
{
    let Some(bytes) = line.bytes() else {
        return Err(LineFault::TooLong);
    };
    read_seat(alloc, bytes)
}

/// Writes the answer to a first line that gets no seat. `answer` has its LF. Returns `Refused`, or
/// `Unheard` if the answer can't be written whole.
fn refuse<W: Write>(writer: &mut W, answer: &str) -> Visit
    ensures { AnswersOnly result answer.now (W.contents writer.old) (W.contents writer.new) }
{
    match send(writer, answer.as_bytes()) {
        Ok(()) => Visit::Refused,
        Err(_) => Visit::Unheard,
    }
}

/// Notes that the client has its seat, and serves a session at the user's desk, which waits for no
/// reply. Sends what is held back, and gives the desk back to its place. Whoever takes the desk
/// next finds the machine as it is then.
fn serve_at_desk<H: Handle, R: BufRead, W: Write, C: Connection>(
    host: &HostState<H>,
    reader: &mut R,
    writer: &mut W,
    connection: &C,
    desk: SeatedDesk<AtGate<'_, H, C>>,
) -> Visit
    requires { IsResting desk }
    ensures { (user : ℕ) → IsDeskOf user desk.entry → SitsDownAt user desk.entry result
        (R.remaining reader.old) (R.remaining reader.new)
        (W.contents writer.old) (W.contents writer.new) }
{
    connection.sit();
    let mut desk = desk;
    let visit = sit_down(host.rt.alloc(), reader, writer, &mut desk);
    connection.release();
    host.places.lock(&host.rt).give_back(desk);
    visit
}

/// Writes to the client that it has its seat. Then answers the lines after the first one at the
/// desk, which is ready, and returns how that ended. If the first write fails, answers none and
/// returns `Unheard`.
fn sit_down<R: BufRead, W: Write, D: Ask>(
    alloc: Global,
    reader: &mut R,
    writer: &mut W,
    desk: &mut D,
) -> Visit
    requires { D.is_ready desk.old }
    ensures ready { D.is_ready desk.new }
    ensures user { (u : ℕ) → D.is_of u desk.old → D.is_of u desk.new }
    ensures sits { SitsDown result (R.remaining reader.old) (R.remaining reader.new)
        (W.contents writer.old) (W.contents writer.new)
        (D.stands_at desk.old) (D.stands_at desk.new) }
{
    match send(writer, seating_line(Seating::Seated).as_bytes()) {
        Ok(()) => Visit::Served(answer_lines(alloc, reader, writer, desk, READS)),
        Err(_) => Visit::Unheard,
    }
}
