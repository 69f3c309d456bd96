//! Boards that never fail.
ghost use Rattle.std.specs.Prelude.{◌≡◌, IsOk, IfOk};

use crate::boards::{BandEnd, Board, BoardFault};
use crate::images::Image;
use crate::jobs::Job;
use crate::tables::Tables;
use cam6_band::Scratch;
use cam6_planes::NoMemory;
use std::alloc::Global;

/// A board that never fails. Its tables, and the scratch for its bands, are made once.
#[derive(Drop)]
pub struct SoftBoard {
    job: Option<Job>,
    tables: Tables,
    /// What each band is lent.
    scratch: Box<Scratch>,
}

impl SoftBoard {
    ghost use Rattle.cam6_board.specs.Held.{empty};
    ghost use Rattle.cam6_board.specs.Soft.{load_in};

    /// Makes an empty board that never fails. Returns `NoMemory` only if an allocation fails.
    pub fn new(alloc: Global) -> Result<SoftBoard, NoMemory>
        ensures { IfOk result (λ board. load_in board ≡ empty) }
    {
        let scratch = Box::new(alloc, Scratch::blank())?;
        Ok(SoftBoard {
            job: None,
            tables: Tables::blank(alloc)?,
            scratch,
        })
    }
}

impl Board for SoftBoard {
    ghost use Rattle.std.specs.Prelude.{◌≡◌, ◌≤◌, ℕ, None, Some, IsOk, IfOk};
    ghost use Rattle.cam6_board.specs.Soft.{load_in};
    ghost use Rattle.cam6_board.specs.Held.{empty, loaded, MovesHeld, GivesBack, rows_held};
    ghost use Rattle.cam6_board.specs.Held.{HasWork, IsLoaded};

    ghost held = { load_in };

    ghost fault_count = { λ board. 0 };

    /// Returns 0: the board never fails.
    fn faults(&self) -> u64 {
        0
    }

    /// Returns how many rows of the step under way are done, which is 0 at rest. Returns `None` if
    /// the board is empty.
    fn rows(&self) -> Option<u16> {
        match &self.job {
            Some(job) => Some(job.image().rows_done()),
            None => None,
        }
    }

    /// Loads an empty board with the job, and copies the tables. Never fails.
    fn load(&mut self, job: Job, tables: &Tables) -> Result<(), BoardFault>
        requires { load_in self.old ≡ empty }
        ensures never { IsOk result }
        ensures ok { load_in self.new ≡ loaded job tables.now }
    {
        self.tables.copy_from(tables);
        self.job.insert(job);
        Ok(())
    }

    /// Does one band of the job, and returns whether a step or the job ends with it. The board must
    /// hold a job with steps to do. Never fails.
    fn band(&mut self) -> Result<BandEnd, BoardFault>
        requires { HasWork (load_in self.old) }
        ensures never { IsOk result }
        ensures ok { IfOk result (λ end. MovesHeld (load_in self.old) end (load_in self.new)) }
    {
        let Some(job) = &mut self.job else {
            unreachable!()
        };
        Ok(job.band(self.tables.as_slice(), &mut self.scratch))
    }

    /// Takes the job's image off the board, which must hold a job, and returns it. The board is
    /// then empty. Never fails.
    fn unload(&mut self) -> Result<Image, BoardFault>
        requires { IsLoaded (load_in self.old) }
        ensures never { IsOk result }
        ensures image { IfOk result (λ image. GivesBack (load_in self.old) image) }
        ensures empty { load_in self.new ≡ empty }
    {
        let job = match self.job.take() {
            Some(job) => job,
            None => unreachable!(),
        };
        Ok(job.into_image())
    }
}
