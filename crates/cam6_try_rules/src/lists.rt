//! Lists of events, each done as one. A list begins again if an allocation failed.
ghost use Rattle.std.specs.Prelude.{◌≡◌, ◌<◌, ◌≤◌, length, IfOk};
ghost use Rattle.cam6_cache.specs.Limits.{max_capacity};
ghost use Rattle.cam6_commands.specs.Limits.{max_users, max_boards};

use cam6_cache::MAX_CAPACITY;
use cam6_commands::{Event, Outcome};
use cam6_core::{Core, MAX_BOARDS, MAX_USERS, run};
use cam6_planes::{NoMemory, Side};
use cam6_try_examples::{Sent, Unplayable, add_line, no_memory, side_of, size_of};
use cam6_wire::{LineFault, outcome_text, read_event};
use std::alloc::Global;
use std::io;
use std::io::ErrorKind;

/// How often a list is begun at most, and how often the text of an outcome is tried.
const TIMES: u32 = 10;

/// How many users, boards and cached tables, with the limit of each user's machine.
#[derive(Drop)]
pub struct Sizes {
    limits: Vec<Side>,
    boards: usize,
    tables: usize,
    ghost users_fit: { (0 < length limits.items) × (length limits.items ≤ max_users) },
    ghost boards_fit: { (0 < boards) × (boards ≤ max_boards) },
    ghost tables_fit: { (0 < tables) × (tables ≤ max_capacity) },
}

impl Sizes {
    /// Reads `USERS BOARDS TABLES`, or this and `within LIMIT ..`. There is one limit for all
    /// users, or one for each. Without `within` each limit is 256. Any other words are an error,
    /// and so is a number that is 0 or more than a core may have.
    pub fn read(alloc: Global, words: &str) -> Result<Sizes, Unplayable> {
        let (sizes, limits) = words.split_once(" within ").unwrap_or((words, "256"));
        let (users, sizes) = sizes.split_once(' ').ok_or(Unplayable::Unread)?;
        let (boards, tables) = sizes.split_once(' ').ok_or(Unplayable::Unread)?;
        let users = size_of(users, MAX_USERS)?;
        Ok(Sizes {
            limits: limits_of(alloc, users, limits)?,
            boards: size_of(boards, MAX_BOARDS)?,
            tables: size_of(tables, MAX_CAPACITY)?,
        })
    }

    /// Does the events that lines have in a new core of these sizes. Leaves out lines that are no
    /// event. Returns the line of each outcome, with its LF.
    pub fn outcomes(&self, alloc: Global, sent: &[Sent]) -> io::Result<Vec<u8>> {
        let mut core = self.core(alloc).map_err(|_| no_memory())?;
        outcomes_at(alloc, &mut core, sent)
    }

    /// Makes a new core of these sizes.
    fn core(&self, alloc: Global) -> Result<Core, NoMemory> {
        let limits = self.limits.as_slice();
        Core::new(alloc, limits.len(), self.boards, self.tables, limits)
    }
}

/// Returns a limit for each of so many users. A text with one number gives this limit to all.
/// Otherwise it has as many numbers as there are users, with one space between them. Any other text
/// is an error.
fn limits_of(alloc: Global, users: usize, text: &str) -> Result<Vec<Side>, Unplayable>
    ensures { IfOk result (λ limits. length limits.items ≡ users) }
{
    if !text.contains(' ') {
        return Ok(vec![in alloc; side_of(text)?; users]?);
    }
    let mut limits = Vec::new(alloc);
    for limit in text.split(' ') {
        limits.push(side_of(limit)?)?;
    }
    if limits.len() != users {
        return Err(Unplayable::Unread);
    }
    Ok(limits)
}

/// Does the events that lines have in this core. Leaves out lines that are no event. Returns the
/// line of each outcome, with its LF.
fn outcomes_at(alloc: Global, core: &mut Core, sent: &[Sent]) -> io::Result<Vec<u8>> {
    let events = events_of(alloc, sent).map_err(|_| no_memory())?;
    let outcomes = run(alloc, core, events).map_err(|_| no_memory())?;
    let mut answers = Vec::new(alloc);
    for outcome in &outcomes {
        let text = outcome_text(alloc, outcome).map_err(|_| no_memory())?;
        add_line(&mut answers, text.as_str())?;
    }
    Ok(answers)
}

/// Does the events of lines as one list in a new core, and prints the line of each outcome. If an
/// allocation fails for the events, prints `unread`, or `refused` if it fails for the list. Begins
/// again then, up to ten times in all, and then fails.
pub fn do_all<R: Print + AllocGlobal>(rt: &R, sizes: &Sizes, sent: &[Sent]) -> io::Result<()> {
    let alloc = rt.alloc();
    let mut core = sizes.core(alloc).map_err(|_| no_memory())?;
    do_at(rt, &mut core, sent)
}

/// Does the events of lines as one list in this core, and prints the line of each outcome. If an
/// allocation fails for the events, prints `unread`, or `refused` if it fails for the list. Begins
/// again then, up to ten times in all, and then fails.
fn do_at<R: Print + AllocGlobal>(rt: &R, core: &mut Core, sent: &[Sent]) -> io::Result<()> {
    for _ in 0..TIMES {
        match events_of(rt.alloc(), sent) {
            Ok(events) => match run(rt.alloc(), core, events) {
                Ok(outcomes) => return tell(rt, outcomes.as_slice()),
                Err(NoMemory) => println!(rt; "refused")?,
            },
            Err(NoMemory) => println!(rt; "unread")?,
        }
    }
    Err(io::Error::from(ErrorKind::Other))
}

/// Returns the events that lines are read as. Lines that are no event are left out.
fn events_of(alloc: Global, sent: &[Sent]) -> Result<Vec<Event>, NoMemory> {
    let mut events = Vec::new(alloc);
    for line in sent {
        add_event(alloc, &mut events, line.bytes.as_slice())?;
    }
    Ok(events)
}

/// Adds the event that a line is read as, if it is one.
fn add_event(alloc: Global, events: &mut Vec<Event>, line: &[u8]) -> Result<(), NoMemory> {
    match read_event(alloc, line) {
        Ok(event) => events.push(event).map_err(|_| NoMemory),
        Err(LineFault::NoMemory) => Err(NoMemory),
        Err(_) => Ok(()),
    }
}

/// Prints the line of each outcome. Fails if printing does, or if memory runs out ten times for a
/// line.
fn tell<R: Print + AllocGlobal>(rt: &R, outcomes: &[Outcome]) -> io::Result<()> {
    for outcome in outcomes {
        let text = text_of(rt.alloc(), outcome).ok_or(no_memory())?;
        println!(rt; "{text}")?;
    }
    Ok(())
}

/// Returns the line of an outcome, without its LF. Tries again if an allocation fails, and returns
/// `None` after ten times.
fn text_of(alloc: Global, outcome: &Outcome) -> Option<String> {
    for _ in 0..TIMES {
        if let Ok(text) = outcome_text(alloc, outcome) {
            return Some(text);
        }
    }
    None
}
