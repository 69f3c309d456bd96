//! Boards that fail at the calls of a list.
ghost use Rattle.std.specs.Prelude.{◌≡◌, ◌<◌, IfOk, length};
ghost use Rattle.cam6_board.specs.Flaky.{is_due, later};

use crate::boards::{BandEnd, Board, BoardFault};
use crate::images::Image;
use crate::jobs::Job;
use crate::tables::Tables;
use cam6_band::Scratch;
use cam6_planes::NoMemory;
use std::alloc::Global;
use std::marker::Model;

/// A board that fails at the calls of its list, and at no other: loads, bands and unloads are counted
/// together.
#[derive(Drop)]
pub struct FlakyBoard {
    job: Option<Job>,
    tables: Tables,
    /// What each band is lent.
    scratch: Box<Scratch>,
    /// The calls at which it fails: the next one is 1, and one that has been is 0.
    due: Vec<u64>,
    faults: u64,
}

impl Model for FlakyBoard {
    ghost use Rattle.std.specs.Prelude.{◌+◌, ◌≤◌, length, count_by};
    ghost use Rattle.cam6_board.specs.Flaky.{Flaky, is_to_come};
    ghost use Rattle.cam6_board.specs.Soft.{load_of};

    ghost Value = { Flaky };

    ghost view = { λ b.
        record { load = load_of b.job b.tables; due = b.due.items; faults = b.faults } };

    // Each fault was at a call of the list.
    ghost invariant = { λ b. b.faults + count_by is_to_come b.due.items ≤ length b.due.items };
}

impl FlakyBoard {
    ghost use Rattle.cam6_board.specs.Held.{empty};
    ghost use Rattle.cam6_board.specs.Flaky.{is_due, later, faults_after};

    /// Makes an empty board that fails at these calls. Its loads, bands and unloads are counted
    /// together, from 1. Numbers may come in any order, and 0 stands for no call.
    pub fn new(alloc: Global, calls: Vec<u64>) -> Result<FlakyBoard, NoMemory>
        ensures load { IfOk result (λ board. board.load ≡ empty) }
        ensures due { IfOk result (λ board. board.due ≡ calls.items) }
        ensures faults { IfOk result (λ board. board.faults ≡ 0) }
    {
        let scratch = Box::new(alloc, Scratch::blank())?;
        Ok(FlakyBoard {
            job: None,
            tables: Tables::blank(alloc)?,
            scratch,
            due: calls,
            faults: 0,
        })
    }

    /// Counts the call that is being made. If the list has it, also counts a fault. Returns whether
    /// the list has it. Then the list counts from the next call.
    fn fails(&mut self) -> bool
        ensures fails { result ≡ is_due self.old.due }
        ensures due { self.new.due ≡ later self.old.due }
        ensures faults { self.new.faults ≡ faults_after self.old.due self.old.faults }
        ensures load { self.new.load ≡ self.old.load }
    {
        let fails = is_due(&self.due);
        count_call(&mut self.due);
        if fails {
            self.faults += 1;
        }
        fails
    }
}

/// Whether the next call is in the list. The list counts calls from the next one, which is 1.
fn is_due(due: &[u64]) -> bool
    ensures { result ≡ is_due due.now }
{
    due.iter().any(|call| *call == 1)
}

/// Counts one call in the list: each of its numbers falls by one, and 0, which is a call that has
/// been, stays 0.
fn count_call(due: &mut Vec<u64>)
    ensures { due.new.items ≡ later due.old.items }
{
    for index in 0..due.len() {
        due[index] = due[index].saturating_sub(1);
    }
}

impl Board for FlakyBoard {
    ghost use Rattle.std.specs.Prelude.{◌≡◌, ◌≤◌, ◌<◌, ℕ, IfOk, IfErr, OnOk, OnErr, is_err};
    ghost use Rattle.cam6_board.specs.Flaky.{is_due, later, faults_after};
    ghost use Rattle.cam6_board.specs.Held.{empty, loaded, MovesHeld, GivesBack, rows_held};
    ghost use Rattle.cam6_board.specs.Held.{HasWork, IsLoaded, IsOfLimit};
    ghost use Rattle.cam6_board.specs.Images.{planes_in};

    ghost held = { λ board. board.load };

    ghost fault_count = { λ board. board.faults };

    /// Returns how often the board failed.
    fn faults(&self) -> u64 {
        self.faults
    }

    /// Returns how many rows of the step under way are done, which is 0 at rest. Returns `None` if
    /// the board is empty.
    fn rows(&self) -> Option<u16> {
        match &self.job {
            Some(job) => Some(job.image().rows_done()),
            None => None,
        }
    }

    /// Loads the board, which must be empty, and copies the tables. If this call is one of the
    /// list, fails, and returns the job's planes as spare. The board then is still empty.
    fn load(&mut self, job: Job, tables: &Tables) -> Result<(), BoardFault>
        requires { self.old.load ≡ empty }
        // It fails exactly if this call is one of the list.
        ensures fails { is_err result ≡ is_due self.old.due }
        ensures due { self.new.due ≡ later self.old.due }
        ensures faults { self.new.faults ≡ faults_after self.old.due self.old.faults }
        ensures count { self.old.faults ≤ self.new.faults }
        ensures ok { OnOk result (self.new.load ≡ loaded job tables.now) }
        ensures err { OnErr result (self.new.load ≡ empty) }
        ensures counted { OnErr result (self.old.faults < self.new.faults) }
        ensures spare { IfErr result (λ fault.
            fault.spare.planes.limit ≡ (planes_in job.image).limit) }
    {
        if self.fails() {
            let spare = job.into_image().into_spare();
            return Err(BoardFault { spare });
        }
        self.tables.copy_from(tables);
        self.job.insert(job);
        Ok(())
    }

    /// Does one band of the job, and returns whether a step or the job ends with it. The board must
    /// hold a job with steps to do. If this call is one of the list, fails, returns spare planes,
    /// and is then empty.
    fn band(&mut self) -> Result<BandEnd, BoardFault>
        requires { HasWork self.old.load }
        ensures fails { is_err result ≡ is_due self.old.due }
        ensures due { self.new.due ≡ later self.old.due }
        ensures faults { self.new.faults ≡ faults_after self.old.due self.old.faults }
        ensures count { self.old.faults ≤ self.new.faults }
        ensures ok { IfOk result (λ end. MovesHeld self.old.load end self.new.load) }
        ensures err { OnErr result (self.new.load ≡ empty) }
        ensures counted { OnErr result (self.old.faults < self.new.faults) }
        ensures spare { IfErr result (λ fault. IsOfLimit self.old.load fault.spare.planes.limit) }
    {
        let fails = self.fails();
        if fails {
            let job = match self.job.take() {
                Some(job) => job,
                None => unreachable!(),
            };
            let spare = job.into_image().into_spare();
            return Err(BoardFault { spare });
        }
        let Some(job) = &mut self.job else {
            unreachable!()
        };
        Ok(job.band(self.tables.as_slice(), &mut self.scratch))
    }

    /// Takes the job's image off the board, which must hold a job, and returns it. If this call is
    /// one of the list, fails, and the image is lost: its planes come back as spare. The board is
    /// then empty in both cases.
    fn unload(&mut self) -> Result<Image, BoardFault>
        requires { IsLoaded self.old.load }
        ensures fails { is_err result ≡ is_due self.old.due }
        ensures due { self.new.due ≡ later self.old.due }
        ensures faults { self.new.faults ≡ faults_after self.old.due self.old.faults }
        ensures count { self.old.faults ≤ self.new.faults }
        ensures image { IfOk result (λ image. GivesBack self.old.load image) }
        ensures empty { self.new.load ≡ empty }
        ensures counted { OnErr result (self.old.faults < self.new.faults) }
        ensures spare { IfErr result (λ fault. IsOfLimit self.old.load fault.spare.planes.limit) }
    {
        let fails = self.fails();
        let job = match self.job.take() {
            Some(job) => job,
            None => unreachable!(),
        };
        if fails {
            let spare = job.into_image().into_spare();
            return Err(BoardFault { spare });
        }
        Ok(job.into_image())
    }
}
