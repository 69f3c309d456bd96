//! Threads, and how long one is waited for.

use std::alloc::{AllocError, Global};
use std::sync::atomic::{AtomicBool, Ordering};
use std::sync::{Arc, Wait};
use std::thread::{JoinHandle, Threads, sleep};
use std::time::{Clock, Duration};

/// The most looks for what is waited for, with a millisecond between them.
pub const LOOKS: u32 = 60_000;

/// Lets a millisecond pass.
pub fn pause<R: Clock>(rt: &R) {
    sleep(rt, Duration::from_millis(1));
}

/// What the threads need of the runtime.
pub trait Handle: Threads + Wait + Clock + AllocGlobal + Copy + Drop {}

impl<R: Threads + Wait + Clock + AllocGlobal + Copy + Drop> Handle for R {}

/// Says that a thread has come to its end.
#[derive(Drop)]
pub struct Flag {
    is_up: Arc<AtomicBool>,
}

impl Flag {
    /// Makes a flag that isn't raised.
    pub fn new(alloc: Global) -> Result<Flag, AllocError> {
        let is_up = Arc::new(alloc, AtomicBool::new(false))?;
        Ok(Flag { is_up })
    }

    /// Returns a handle to the same flag, for another thread.
    pub fn shared(&self) -> Result<Flag, AllocError> {
        let is_up = Arc::try_clone(&self.is_up)?;
        Ok(Flag { is_up })
    }

    /// Raises the flag.
    pub fn raise(&self) {
        self.is_up.store(true, Ordering::SeqCst);
    }
}

/// A thread. It raises its flag as the last thing that it does.
#[derive(Drop)]
pub struct Thread<T: Drop> {
    pub handle: JoinHandle<T>,
    pub flag: Flag,
}

impl<T: Drop> Thread<T> {
    /// Returns whether the thread has raised its flag, as the last thing that it does. Doesn't
    /// wait.
    pub fn is_over(&self) -> bool {
        self.flag.is_up.load(Ordering::SeqCst)
    }

    /// Waits until the thread has raised its flag, for `LOOKS` milliseconds at most. Returns
    /// whether it has.
    pub fn ends<R: Clock>(&self, rt: &R) -> bool {
        for _ in 0..LOOKS {
            if self.is_over() {
                return true;
            }
            pause(rt);
        }
        false
    }
}
