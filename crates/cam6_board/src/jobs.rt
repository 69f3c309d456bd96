//! A job: steps of an image along a cycle.
ghost use Rattle.std.specs.Prelude.{◌≡◌, ◌<◌, ◌≤◌, length};
ghost use Rattle.cam6_cycle.specs.Limits.{max_tables};
ghost use Rattle.cam6_board.specs.Bands.{end_of};

use crate::boards::BandEnd;
use crate::images::Image;
use crate::worked::Worked;
use cam6_band::{Scratch, tables_of_step};
use cam6_cycle::{Cycle, Direction};
use cam6_entries::Table;
use std::marker::Model;

/// So many steps of an image along a cycle, one way from a position. Within a step the position is
/// the one at which it began.
#[derive(Drop)]
pub struct Job {
    image: Worked,
    cycle: Cycle,
    position: usize,
    direction: Direction,
    steps: u16,
}

impl Model for Job {
    ghost use Rattle.std.specs.Prelude.{◌<◌, length};
    ghost use Rattle.cam6_board.specs.Jobs.{StoredJob, stored_job};

    ghost Value = { StoredJob };

    ghost view = { λ j. stored_job j.image j.cycle j.position j.direction j.steps };

    ghost invariant = { λ j. j.position < length j.cycle };
}

impl Job {
    ghost use Rattle.cam6_board.specs.Bands.{Moves};
    ghost use Rattle.cam6_board.specs.Jobs.{stored_job};

    /// Makes a job of so many steps along a cycle, from a position counted from 0 and below the
    /// number of entries. If the image is in the middle of a step, that step is one of them.
    pub fn new(image: Image, cycle: Cycle, position: usize, direction: Direction, steps: u16) -> Job
        requires { position < length cycle }
        ensures { result ≡ stored_job image cycle position direction steps }
    {
        Job {
            image: Worked::of(image),
            cycle,
            position,
            direction,
            steps,
        }
    }

    /// Lends the image, at rest or in the middle of a step.
    pub fn image(&self) -> &Image
        ensures { result.now ≡ self.now.image }
    {
        self.image.image()
    }

    /// Lends the cycle along which the steps go.
    pub fn cycle(&self) -> &Cycle
        ensures { result.now ≡ self.now.cycle }
    {
        &self.cycle
    }

    /// Returns whether the job does steps (`Forward`) or undoes them (`Backward`).
    pub fn direction(&self) -> Direction
        ensures { result ≡ self.now.direction }
    {
        self.direction
    }

    /// Gives up the job, and returns its image, at rest or in the middle of a step.
    pub fn into_image(self) -> Image
        ensures { result ≡ self.image }
    {
        self.image.into_image()
    }

    /// Returns the position in the cycle, counted from 0. Within a step it is the one at which the
    /// step began.
    pub fn position(&self) -> usize
        ensures position { result ≡ self.now.position }
        // The job's invariant.
        ensures within { result < length self.now.cycle }
    {
        self.position
    }

    /// Returns how many steps are still to be done. A step that is half done is one of them.
    pub fn steps(&self) -> u16
        ensures { result ≡ self.now.steps }
    {
        self.steps
    }

    /// Does one band of the current entry's step, by the 32 tables of the cycle's uses, filled for
    /// its direction. If the band ends a step, moves the position on, and one step less is to be
    /// done. Returns whether a step or the job ends. Steps must be left. The scratch may hold
    /// anything.
    pub fn band(&mut self, tables: &[Table], scratch: &mut Scratch) -> BandEnd
        requires work { 0 < self.old.steps }
        requires room { max_tables ≤ length tables.now }
        ensures { Moves tables.now self.old result self.new }
    {
        let (by, after) = tables_of_step(&self.cycle, self.position, self.direction, tables);
        self.image.band(&by, scratch);
        if !self.image.image().is_rest() {
            return BandEnd::Inside;
        }
        self.position = after;
        self.steps -= 1;
        end_of(self.steps)
    }
}

/// Returns the end of a step's last band, after which `steps` are still to be done: `LastEnd` for
/// 0, else `StepEnd`.
fn end_of(steps: u16) -> BandEnd
    ensures { result ≡ end_of steps }
{
    match steps {
        0 => BandEnd::LastEnd,
        _ => BandEnd::StepEnd,
    }
}
