//! The way in which lines of users and workers are played.
ghost use Rattle.std.specs.Prelude.{◌<◌, ◌≤◌};
ghost use Rattle.cam6_commands.specs.Limits.{max_users, max_boards};

use crate::gates::Once;
use crate::hosts::TestHost;
use crate::threads::Handle;
use cam6_handoff::{MAX_BOARDS, MAX_USERS};
use cam6_pool::Turn;
use cam6_try_examples::{Sent, Unplayable, Way, no_memory, size_of};
use std::alloc::Global;
use std::io;

/// What happens to a worker or its board.
#[derive(Clone, Copy)]
pub enum Event {
    Nothing,
    /// What the gate does at a user's band.
    AtGate(Once),
    /// A board is held inside the first band of all.
    InBand,
    /// Board 0 fails at one of these calls. The lines are played anew for each of them.
    Fails { first: u64, last: u64 },
}

/// `workers USERS BOARDS [EVENT]`: so many users, each with a blank machine of limit 256, and so many
/// boards, each with a worker. An event is `hold USER BAND`, `preempt USER BAND`, `stop USER BAND`,
/// `hold bands` or `fails FIRST LAST`.
#[derive(Drop)]
pub struct WorkerWay {
    pub users: usize,
    pub boards: usize,
    pub event: Event,
    ghost users_fit: { (0 < users) × (users ≤ max_users) },
    ghost boards_fit: { (0 < boards) × (boards ≤ max_boards) },
}

impl Way for WorkerWay {
    /// Reads the words after `as` as `workers USERS BOARDS [EVENT]`. Any other words are an error.
    fn read(alloc: Global, words: &str) -> Result<WorkerWay, Unplayable> {
        let words = words.split(' ').collect::<Vec<&str>>(alloc)?;
        match words.as_slice() {
            ["workers", users, boards, event @ ..] => Ok(WorkerWay {
                users: size_of(users, MAX_USERS)?,
                boards: size_of(boards, MAX_BOARDS)?,
                event: event_of(event)?,
            }),
            _ => Err(Unplayable::Unread),
        }
    }
}

impl WorkerWay {
    /// Plays the lines in this way. Plays them once, or anew for each call at which board 0 is to
    /// fail. Returns what comes back each time.
    pub fn played<R: Handle + Send + Sync + 'static>(
        &self,
        rt: R,
        sent: &[Sent],
    ) -> io::Result<Vec<Vec<u8>>> {
        let (first, last) = match self.event {
            Event::Fails { first, last } => (first, last),
            _ => (1, 1),
        };
        let mut all = Vec::new(rt.alloc());
        for call in first..=last {
            all.push(self.answers(rt, call, sent)?)?;
        }
        Ok(all)
    }

    /// Plays the lines once, at a new host. Returns what comes back. If a board is to fail, board 0
    /// does so at `call`, counted from 1 over its loads, bands and unloads.
    fn answers<R: Handle + Send + Sync + 'static>(
        &self,
        rt: R,
        call: u64,
        sent: &[Sent],
    ) -> io::Result<Vec<u8>> {
        let mut answers = Vec::new(rt.alloc());
        match TestHost::new(rt, self) {
            Ok(mut host) => {
                let played = host.play(self.event, call, sent, &mut answers);
                host.end();
                drop(host);
                played.map(|_| answers)
            }
            Err(_) => Err(no_memory()),
        }
    }
}

/// Returns the event that words name, or `Nothing` for no words. Other words are an error.
fn event_of(words: &[&str]) -> Result<Event, Unplayable> {
    match words {
        [] => Ok(Event::Nothing),
        ["hold", "bands"] => Ok(Event::InBand),
        ["hold", user, band] => gate_event(Turn::Go, user, band),
        ["preempt", user, band] => gate_event(Turn::Preempt, user, band),
        ["stop", user, band] => gate_event(Turn::Stop, user, band),
        ["fails", first, last] => Ok(Event::Fails {
            first: first.parse().map_err(|_| Unplayable::Unread)?,
            last: last.parse().map_err(|_| Unplayable::Unread)?,
        }),
        _ => Err(Unplayable::Unread),
    }
}

/// Returns the event that the gate answers `turn` once, at this band of this user. Users count from
/// 1, and a step's bands from 0. Go holds the board first. Fails if a word is no number from 0 to
/// 255.
fn gate_event(turn: Turn, user: &str, band: &str) -> Result<Event, Unplayable> {
    let user = user.parse().map_err(|_| Unplayable::Unread)?;
    let band = band.parse().map_err(|_| Unplayable::Unread)?;
    Ok(Event::AtGate(Once { turn, user, band }))
}
