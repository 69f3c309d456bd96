//! Boards that fail at a call, or that are held in their first band.

use crate::shares::Shared;
use crate::threads::Handle;
use cam6_board::{BandEnd, Board, BoardFault, FlakyBoard, Image, Job, Tables};
use cam6_planes::NoMemory;
use std::sync::Arc;

/// A board that fails at one call or never. If the shared state holds bands, the first thread that does a
/// band of such a board is held inside it.
#[derive(Drop)]
pub struct TriedBoard<R: Handle> {
    inner: FlakyBoard,
    shared: Arc<Shared<R>>,
}

impl<R: Handle> TriedBoard<R> {
    ghost use Rattle.std.specs.Prelude.{◌≡◌, IfOk};
    ghost use Rattle.cam6_board.specs.Held.{empty};

    /// Makes an empty board that fails at this call, or never for `None`. Loads, bands and unloads
    /// are counted together, from 1.
    pub fn new(shared: &Arc<Shared<R>>, call: Option<u64>) -> Result<TriedBoard<R>, NoMemory>
        ensures { IfOk result (λ board. board.inner.load ≡ empty) }
    {
        let mut calls = Vec::new(shared.rt.alloc());
        if let Some(call) = call {
            calls.push(call)?;
        }
        let inner = FlakyBoard::new(shared.rt.alloc(), calls)?;
        let shared = Arc::try_clone(shared)?;
        Ok(TriedBoard { inner, shared })
    }
}

impl<R: Handle> Board for TriedBoard<R> {
    ghost held = { λ board. board.inner.load };

    ghost fault_count = { λ board. board.inner.faults };

    /// Returns how often the board has failed.
    fn faults(&self) -> u64 {
        self.inner.faults()
    }

    /// Returns how many rows of the step under way are done: 0 at rest, and `None` on an empty
    /// board.
    fn rows(&self) -> Option<u16> {
        self.inner.rows()
    }

    /// Loads a job, or fails if this is the call at which the board fails, as `new` counts them.
    fn load(&mut self, job: Job, tables: &Tables) -> Result<(), BoardFault> {
        self.inner.load(job, tables)
    }

    /// Does a band of the job, or fails if this is the call at which the board fails. If the shared
    /// state holds bands, the first thread that does a band is held before either.
    fn band(&mut self) -> Result<BandEnd, BoardFault> {
        if self.shared.holds_bands {
            self.shared.hold.pass(&self.shared.rt);
        }
        self.inner.band()
    }

    /// Takes the image from the board, or fails if this is the call at which the board fails.
    fn unload(&mut self) -> Result<Image, BoardFault> {
        self.inner.unload()
    }
}
