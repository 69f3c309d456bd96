//! All that the threads of a part share.

use crate::gates::{Once, Watch};
use crate::holds::Hold;
use crate::threads::{Handle, pause};
use cam6_cache::TableCache;
use cam6_pool::{Gate, Turn};
use std::sync::Mutex;
use std::sync::atomic::{AtomicBool, Ordering};

/// The tables that boards share, the gate, and where a board is held.
#[derive(Drop)]
pub struct Shared<R: Handle> {
    pub rt: R,
    pub cache: Mutex<TableCache>,
    pub watch: Mutex<Watch>,
    pub hold: Hold,
    /// The first band of all is held inside its board.
    pub holds_bands: bool,
    /// Workers that find nothing to do are to end.
    is_ending: AtomicBool,
}

impl<R: Handle> Shared<R> {
    /// Makes the state that all threads share. `once` is what the gate answers once, or `None` for
    /// Go always. `holds_bands` says whether the first band of all is held inside its board.
    pub fn new(rt: R, cache: TableCache, once: Option<Once>, holds_bands: bool) -> Shared<R> {
        Shared {
            rt,
            cache: Mutex::new(cache),
            watch: Mutex::new(Watch::new(rt.alloc(), once)),
            hold: Hold::new(),
            holds_bands,
            is_ending: AtomicBool::new(false),
        }
    }

    /// Sets whether workers that find nothing to do are to end.
    pub fn tell_to_end(&self, is_ending: bool) {
        self.is_ending.store(is_ending, Ordering::SeqCst);
    }
}

impl<R: Handle> Gate for Shared<R> {
    /// Returns the gate's verdict before this band of this user at this board, and notes it. Holds
    /// the board first if the example asks for it. Users count from 1, boards and a step's bands
    /// from 0.
    fn turn(&self, board: u8, user: u8, band: u8) -> Turn {
        let mut watch = self.watch.lock(&self.rt);
        let (turn, holds) = watch.turn(board, user, band);
        drop(watch);
        if holds {
            self.hold.pass(&self.rt);
        }
        turn
    }

    /// Lets a millisecond pass. Returns whether a worker without work goes on: until `tell_to_end`
    /// has told them to end.
    fn idle(&self, _board: u8) -> bool {
        pause(&self.rt);
        !self.is_ending.load(Ordering::SeqCst)
    }
}
