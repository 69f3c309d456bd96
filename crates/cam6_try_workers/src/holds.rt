//! A place at which the first thread that comes by is held, until it is let go.

use crate::threads::{LOOKS, pause};
use std::sync::{Mutex, Wait};
use std::time::Clock;

/// The stage of a hold.
#[derive(Clone, Copy, PartialEq, Eq)]
enum Stage {
    /// No thread has come by.
    Free,
    /// A thread is held.
    Holding,
    /// No thread is held from here on.
    Over,
}

/// Holds the first thread that comes by, and no other.
#[derive(Drop)]
pub struct Hold {
    stage: Mutex<Stage>,
}

impl Hold {
    /// Makes a hold at which no thread is held yet.
    pub fn new() -> Hold {
        Hold {
            stage: Mutex::new(Stage::Free),
        }
    }

    /// Holds the calling thread if it is the first one here and the hold hasn't ended. Otherwise
    /// returns at once. Returns after the thread is released, or after `LOOKS` milliseconds.
    pub fn pass<R: Wait + Clock>(&self, rt: &R) {
        if !self.turn(rt, Stage::Free, Stage::Holding) {
            return;
        }
        for _ in 0..LOOKS {
            pause(rt);
            if *self.stage.lock(rt) == Stage::Over {
                return;
            }
        }
        self.end(rt);
    }

    /// Returns whether a thread is held. Waits until one is, for `LOOKS` milliseconds at most.
    /// Returns false at once if no thread is held any more.
    pub fn is_holding<R: Wait + Clock>(&self, rt: &R) -> bool {
        for _ in 0..LOOKS {
            let stage = *self.stage.lock(rt);
            if stage != Stage::Free {
                return stage == Stage::Holding;
            }
            pause(rt);
        }
        false
    }

    /// Releases the thread that is held, and returns whether there was one. If so, no thread is
    /// held from here on.
    pub fn release<R: Wait>(&self, rt: &R) -> bool {
        self.turn(rt, Stage::Holding, Stage::Over)
    }

    /// Releases the thread that is held, if there is one, and holds no thread from here on.
    pub fn end<R: Wait>(&self, rt: &R) {
        *self.stage.lock(rt) = Stage::Over;
    }

    /// Changes the stage from one to another. Returns false, and changes nothing, if the hold isn't
    /// at the first.
    fn turn<R: Wait>(&self, rt: &R, from: Stage, to: Stage) -> bool {
        let mut stage = self.stage.lock(rt);
        let is_there = *stage == from;
        if is_there {
            *stage = to;
        }
        is_there
    }
}
