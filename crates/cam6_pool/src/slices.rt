//! The gate of a host: commands on a board give way to each other, and idle boards sleep.

use crate::gates::{Gate, Turn};
use cam6_handoff::Queue;
use cam6_planes::NoMemory;
use std::alloc::Global;
use std::sync::atomic::{AtomicBool, Ordering};
use std::sync::{Condvar, Mutex, Wait};
use std::time::{Clock, Duration, Instant};

/// What a command has of its board, in milliseconds, before another one that waits gets it.
const SLICE: u64 = 2;

/// In milliseconds, how long a board sleeps at most if nothing rings.
const POLL: u64 = 100;

/// What a board is at, as its worker asks.
#[derive(Drop)]
struct Slice {
    /// The user of the command on the board, if there is one.
    user: Option<u8>,
    /// When the worker began with it. First its tables are filled.
    began: Option<Instant>,
    /// When the worker asked last.
    asked: Option<Instant>,
    /// How often it had been rung when the board was idle last.
    heard: u64,
}

/// Returns the time from one moment to another, which is zero if that is earlier. Returns `None` if
/// the clock failed at one of them.
fn between(from: Option<Instant>, to: Option<Instant>) -> Option<Duration> {
    match (from, to) {
        (Some(from), Some(to)) => Some(to.saturating_duration_since(from)),
        _ => None,
    }
}

impl Slice {
    /// Makes the slice of a board without a command, whose worker has not asked yet.
    fn new() -> Slice {
        Slice {
            user: None,
            began: None,
            asked: None,
            heard: 0,
        }
    }

    /// Notes that the worker asks for a band, counted from 0 in its step, of this user's command.
    /// Returns whether the command has had its 2 milliseconds, or the clock fails: true only at the
    /// first band of a step. Returns false for another user than before. Their time began when the
    /// worker asked last, since the tables were filled after that.
    fn ask(&mut self, user: u8, band: u8, now: Option<Instant>) -> bool {
        let last = self.asked;
        self.asked = now;
        if self.user != Some(user) {
            self.user = Some(user);
            self.began = last;
            return false;
        }
        let slice = Duration::from_millis(SLICE);
        band == 0 && between(self.began, now).is_none_or(|had| had >= slice)
    }

    /// Notes that the board has no command. The time of the next command begins at `now`.
    fn note_idle(&mut self, now: Option<Instant>) {
        self.user = None;
        self.asked = now;
    }
}

/// Shows that a gate was rung. `SlicingGate::ring` alone makes one.
#[derive(Drop)]
pub struct Rung(());

/// A gate that lets a command have its board for about two milliseconds, its tables and whole steps, if
/// another command waits, and else for as long as it wants. A command whose tables take longer does one
/// step. A board without a command sleeps until `ring` is called, which has to follow each put.
#[derive(Drop)]
pub struct SlicingGate<R> {
    rt: R,
    queue: Queue,
    slices: Vec<Mutex<Slice>>,
    /// How often it was rung.
    bell: Mutex<u64>,
    rung: Condvar,
    stopping: AtomicBool,
}

impl<R: Wait + Clock + Drop> SlicingGate<R> {
    /// Makes a gate for so many boards of a table. Boards are numbered from 0. Fails only if an
    /// allocation fails.
    pub fn new(alloc: Global, rt: R, queue: Queue, boards: u8) -> Result<SlicingGate<R>, NoMemory> {
        let mut slices = Vec::with_capacity(alloc, usize::from(boards))?;
        for _ in 0..boards {
            slices.push(Mutex::new(Slice::new()))?;
        }
        Ok(SlicingGate {
            rt,
            queue,
            slices,
            bell: Mutex::new(0),
            rung: Condvar::new(),
            stopping: AtomicBool::new(false),
        })
    }

    /// Wakes one board that sleeps, since a command was put. A board that is awake doesn't sleep
    /// when it is idle next.
    pub fn ring(&self) -> Rung {
        let mut rings = self.bell.lock(&self.rt);
        *rings = rings.wrapping_add(1);
        self.rung.notify_one();
        Rung(())
    }

    /// Ends the workers: `turn` returns `Stop` and `idle` returns false from now on. Wakes the
    /// boards that sleep. Doesn't wait until the workers have ended.
    pub fn stop(&self) {
        self.stopping.store(true, Ordering::SeqCst);
        let mut rings = self.bell.lock(&self.rt);
        *rings = rings.wrapping_add(1);
        self.rung.notify_all();
    }

    /// Returns the time, or `None` if the clock gives none.
    fn now(&self) -> Option<Instant> {
        Instant::now(&self.rt).ok()
    }

    /// Sleeps until the number of rings differs from `heard`, for 100 milliseconds at most. Returns
    /// the number of rings so far.
    fn sleep_until_rung(&self, heard: u64) -> u64 {
        let poll = Duration::from_millis(POLL);
        let bell = self.bell.lock(&self.rt);
        let (rings, _) = self
            .rung
            .wait_timeout_while(&self.rt, bell, poll, |rings| *rings == heard);
        *rings
    }
}

impl<R: Wait + Clock + Drop> Gate for SlicingGate<R> {
    /// Returns the gate's verdict before a band. It is `Stop` once `stop` was called. It is
    /// `Preempt` for a command that has had its 2 milliseconds, if another command waits that isn't
    /// held back. Else, and if there is no such board, it is `Go`. Rings at a command's first band
    /// if another one waits.
    fn turn(&self, board: u8, user: u8, band: u8) -> Turn {
        if self.stopping.load(Ordering::SeqCst) {
            return Turn::Stop;
        }
        let Some(slice) = self.slices.get(usize::from(board)) else {
            return Turn::Go;
        };
        let mut slice = slice.lock(&self.rt);
        let is_new = slice.user != Some(user);
        let is_over = slice.ask(user, band, self.now());
        if (is_new || is_over) && self.queue.has_other(Some(usize::from(user))) {
            if is_over {
                slice.user = None;
                return Turn::Preempt;
            }
            // It may have waited for this one's tables, and boards may sleep.
            self.ring();
        }
        Turn::Go
    }

    /// Sleeps until the gate is rung, for 100 milliseconds at most, unless a command waits that
    /// isn't held back. Returns false, so that the worker ends, once `stop` was called or if there
    /// is no such board.
    fn idle(&self, board: u8) -> bool {
        let Some(slice) = self.slices.get(usize::from(board)) else {
            return false;
        };
        let mut slice = slice.lock(&self.rt);
        // A command may have been put back at a word that the worker had looked at before.
        if !self.queue.has_other(None) {
            slice.heard = self.sleep_until_rung(slice.heard);
        }
        slice.note_idle(self.now());
        !self.stopping.load(Ordering::SeqCst)
    }
}
