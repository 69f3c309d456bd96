//! Calls that allocate and that no program makes, or makes for something else, each once with enough
//! memory. No contract can say that such a call doesn't run out of it.

use cam6_board::{Board, FlakyBoard, SoftBoard};
use cam6_commands::{Command, Done, Event, Fault, Outcome, Refusal, Reply};
use cam6_core::{Core, run};
use cam6_machine::{Machine, replies_alone};
use cam6_planes::{NoMemory, Side};
use cam6_table::Table;
use cam6_wire::{LineFault, reply_text};
use std::alloc::{AllocError, Global};
use std::process::Abort;
use std::test::Fail;

/// Returns the command of this number, from 0 to 6, in a list of several kinds. A blank machine of
/// 256 columns is asked all of them.
fn command(number: usize) -> Command {
    match number {
        0 => Command::Clear { plane: 3 },
        1 | 4 => Command::Count { mask: 1 },
        2 => Command::Run { n: 0 },
        3 => Command::Side { side: 128 },
        5 => Command::Map { colours: [0; 16] },
        _ => Command::Clear { plane: 4 },
    }
}

/// Returns whether this is the reply to the command of this number, from 0 to 6. Side 256 has
/// 65,536 cells, and side 128 16,384.
fn is_its_reply(number: usize, reply: &Reply) -> bool {
    match number {
        0 => matches!(reply, Reply::Done(Done::Clear)),
        1 => matches!(reply, Reply::Done(Done::Count { count: 65_536 })),
        2 => matches!(reply, Reply::Refused(Refusal::Fault(Fault::NoCycle))),
        3 => matches!(reply, Reply::Done(Done::Side)),
        4 => matches!(reply, Reply::Done(Done::Count { count: 16_384 })),
        5 => matches!(reply, Reply::Done(Done::Map)),
        _ => matches!(reply, Reply::Refused(Refusal::Fault(Fault::OutOfRange))),
    }
}

/// Returns the list of the seven commands, in the order of their numbers.
fn commands(alloc: Global) -> Result<Vec<Command>, AllocError> {
    let mut commands = Vec::new(alloc);
    for number in 0..7 {
        commands.push(command(number))?;
    }
    Ok(commands)
}

/// Checks that there are seven replies, each to the command of its number.
fn check_replies(rt: &impl Abort, replies: &[Reply]) {
    assert_eq!(rt; replies.len(), 7);
    for (number, reply) in replies.iter().enumerate() {
        assert!(rt; is_its_reply(number, reply));
    }
}

/// A list of commands has their replies.
#[test]
fn lists_are_answered(rt: HostRuntime) -> Result<(), NoMemory> {
    let commands = commands(rt.alloc())?;
    let (replies, _machine) = replies_alone(rt.alloc(), Side::S256, commands)?;
    check_replies(&rt, replies.as_slice());
    Ok(())
}

/// Tables and boards begin empty, and a board that is to fail hasn't failed yet.
#[test]
fn blank_things_are_made(rt: HostRuntime) -> Result<(), Fail> {
    let alloc = rt.alloc();
    assert_eq!(rt; Table::blank(alloc)?.at(4), 0);
    assert_eq!(rt; SoftBoard::new(alloc)?.rows(), None);
    let flaky = FlakyBoard::new(alloc, vec![in alloc; 1]?)?;
    assert_eq!(rt; flaky.faults(), 0);
    // A failed allocation has no reply. A session writes the reply to `set` without this text.
    assert_eq!(rt; LineFault::NoMemory.number(), 0);
    let text = reply_text(alloc, &Reply::Done(Done::Set))?;
    assert_eq!(rt; text.as_str(), r#"{"ok":"set"}"#);
    Ok(())
}

/// Returns the reply that saves a blank machine of side 128.
fn saving_reply(alloc: Global) -> Result<Reply, NoMemory> {
    let mut machine = Machine::new(alloc, Side::S128)?;
    let reply = machine.reply_to(Command::Save);
    drop(machine);
    reply
}

/// Returns the command that loads what a reply saved, or `None` if the reply saved nothing.
fn loading(reply: Reply) -> Option<Command> {
    match reply {
        Reply::Done(Done::Save { machine }) => Some(Command::Load { machine }),
        _ => None,
    }
}

/// Returns four events of user 1: the command is asked and collected, and then a count of the cells
/// of no state, which is 0.
fn asked_for(alloc: Global, command: Command) -> Result<Vec<Event>, AllocError> {
    let mut events = Vec::new(alloc);
    events.push(Event::Ask(1, command))?;
    add_the_rest(&mut events)?;
    Ok(events)
}

/// Adds three events: the first command is collected, and then a count is asked and collected.
fn add_the_rest(events: &mut Vec<Event>) -> Result<(), AllocError> {
    events.push(Event::Collect(1))?;
    events.push(Event::Ask(1, Command::Count { mask: 0 }))?;
    events.push(Event::Collect(1))?;
    Ok(())
}

/// Returns whether this is the outcome of the event of this number, from 0 to 3, in the list of
/// `asked_for` with a load.
fn is_its_outcome(number: usize, outcome: &Outcome) -> bool {
    use Outcome::{Asked, Collected};
    match number {
        0 | 2 => matches!(outcome, Asked(0)),
        1 => matches!(outcome, Collected(Reply::Done(Done::Load))),
        _ => matches!(outcome, Collected(Reply::Done(Done::Count { count: 0 }))),
    }
}

/// Checks that there are four outcomes, each of the event of its number in the list of `asked_for`.
fn check_outcomes(rt: &impl Abort, outcomes: &[Outcome]) {
    assert_eq!(rt; outcomes.len(), 4);
    for (number, outcome) in outcomes.iter().enumerate() {
        assert!(rt; is_its_outcome(number, outcome));
    }
}

/// Does events in a new core of one user, one board and one cached table, and returns their
/// outcomes.
fn outcomes(alloc: Global, events: Vec<Event>) -> Result<Vec<Outcome>, NoMemory> {
    let mut core = Core::new(alloc, 1, 1, 1, [Side::S256].as_slice())?;
    let outcomes = run(alloc, &mut core, events);
    drop(core);
    outcomes
}

/// A list of events with a load has their outcomes. A line of events asks for no load.
#[test]
fn events_run(rt: HostRuntime) -> Result<(), Fail> {
    let command = loading(saving_reply(rt.alloc())?).ok_or("nothing was saved")?;
    let events = asked_for(rt.alloc(), command)?;
    check_outcomes(&rt, outcomes(rt.alloc(), events)?.as_slice());
    Ok(())
}
