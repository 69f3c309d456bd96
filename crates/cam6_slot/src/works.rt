//! Steps of a command that are under way.
ghost use Rattle.std.specs.Prelude.{◌≡◌, ◌<◌, ◌≤◌, ◌+◌, length};
ghost use Rattle.cam6_planes.specs.Stored.{Stored, width};
ghost use Rattle.cam6_machine.specs.Stored.{machine_over};
ghost use Rattle.cam6_model.specs.Moves.{CanMove};
ghost use Rattle.cam6_slot.specs.Finished.{reply_at};
ghost use Rattle.cam6_slot.specs.Lefts.{bands_of_step};

use crate::finished::Finished;
use cam6_band::{AtRest, BAND, Spare};
use cam6_board::{Image, Job};
use cam6_commands::{Done, Reply};
use cam6_cycle::{Cycle, Direction};
use cam6_machine::Kept;
use cam6_planes::Side;
use std::marker::Model;
use std::mem;

/// So many whole steps of a command, and the position in the cycle after them.
#[derive(Clone, Copy, Debug, PartialEq, Eq)]
pub struct Milestone {
    pub steps: u16,
    pub position: usize,
}

/// What a machine keeps, the steps that are to be done, and its image at home. Its other image is
/// away.
#[derive(Drop)]
pub(crate) struct Work {
    kept: Kept,
    direction: Direction,
    total: u16,
    home: AtRest,
    /// How far on the image at home is.
    base: Milestone,
    /// How far on the other one is.
    reached: Milestone,
}

impl Model for Work {
    ghost use Rattle.cam6_slot.specs.Works.{StoredWork, IsWork, stored_work};

    ghost Value = { StoredWork };

    ghost view = { λ w.
        stored_work w.kept w.direction w.total w.home.planes w.base w.reached };

    ghost invariant = { λ w.
        IsWork (stored_work w.kept w.direction w.total w.home.planes w.base w.reached) };
}

impl Work {
    ghost use Rattle.cam6_slot.specs.Finished.{finished_with};
    ghost use Rattle.cam6_slot.specs.Lefts.{left_of};
    ghost use Rattle.cam6_cycle.specs.Limits.{max_tables};
    ghost use Rattle.cam6_slot.specs.Needs.{needs_of};
    ghost use Rattle.cam6_slot.specs.Works.{IsWork, begun, one_on, home_at, back_home};

    /// Makes a command of `total` steps, at least one. None is done yet, and `home` is the
    /// machine's image at home. The cycle is set, and can be gone along in this direction.
    pub(crate) fn begin(kept: Kept, direction: Direction, total: u16, home: AtRest) -> Work
        requires some { 0 < total }
        requires within { kept.position < length kept.cycle }
        requires limit { home.planes.limit ≡ kept.limit }
        requires can { (planes : Stored) → CanMove direction (machine_over planes kept) }
        ensures { result ≡ begun kept direction total home.planes }
    {
        // `limit` gives the proof the invariant of what is kept.
        let _limit = kept.limit();
        let beginning = Milestone {
            steps: 0,
            position: kept.position(),
        };
        Work {
            kept,
            direction,
            total,
            home,
            base: beginning,
            reached: beginning,
        }
    }

    /// Returns the image at home. If a board fails, the command goes on from it.
    pub(crate) fn home(&self) -> &AtRest
        ensures planes { result.now.planes ≡ self.now.home }
        // The invariant of steps under way.
        ensures work { IsWork self.now }
    {
        &self.home
    }

    /// Returns what the machine keeps while its images are away.
    pub(crate) fn kept(&self) -> &Kept
        ensures kept { result.now ≡ self.now.kept }
        // The invariant of steps under way.
        ensures work { IsWork self.now }
    {
        &self.kept
    }

    /// Returns the direction along the cycle: forward for `run`, backward for `back`.
    pub(crate) fn direction(&self) -> Direction
        ensures { result ≡ self.now.direction }
    {
        self.direction
    }

    /// Returns the machine's cycle. It is set, since there are steps.
    pub(crate) fn cycle(&self) -> &Cycle
        ensures cycle { result.now ≡ self.now.kept.cycle }
        ensures within { self.now.reached.position < length result.now }
    {
        let _steps = self.total;
        match self.kept.cycle() {
            Some(cycle) => cycle,
            None => unreachable!(),
        }
    }

    /// Returns how many bands of 16 rows are left of all steps, if `rows` rows of the next step are
    /// done. `rows` is below the side, and 0 if no step is left.
    pub(crate) fn left(&self, rows: u16) -> u64
        requires rows { rows < width self.now.home }
        requires step { 0 < rows → self.now.reached.steps < self.now.total }
        ensures { result ≡ left_of self.now rows }
    {
        let bands = bands_of_step(self.home.planes().side());
        let steps = u64::from(self.total - self.reached.steps);
        steps * bands - u64::from(rows) / BAND as u64
    }

    /// Returns how many tables the steps use: one for each use of a rule in the cycle.
    pub(crate) fn needs(&self) -> u8
        ensures needs { result ≡ needs_of self.now }
        ensures few { result ≤ max_tables }
    {
        self.cycle().tables_needed(self.direction).len() as u8
    }

    /// Returns a job that does the rest of the steps on this image, from the position after the
    /// steps that are done.
    pub(crate) fn job(&self, image: Image) -> Job
        ensures image { result.image ≡ image }
        ensures cycle { result.cycle ≡ self.now.kept.cycle }
        ensures direction { result.direction ≡ self.now.direction }
        ensures position { result.position ≡ self.now.reached.position }
        ensures steps { result.steps + self.now.reached.steps ≡ self.now.total }
    {
        let cycle = self.cycle().copy();
        let steps = self.total - self.reached.steps;
        Job::new(image, cycle, self.reached.position, self.direction, steps)
    }

    /// Counts one more whole step as done, and moves the position on in the command's direction. At
    /// least one step is left.
    pub(crate) fn go(&mut self)
        requires { self.old.reached.steps < self.old.total }
        ensures { self.new ≡ one_on self.old }
    {
        let (_, position) = self.cycle().go(self.reached.position, self.direction);
        self.reached = Milestone {
            steps: self.reached.steps + 1,
            position,
        };
    }

    /// Makes this image, which has all steps that are done, the one at home. At least one step is
    /// left. Returns the planes of the old one as spare.
    pub(crate) fn come_home(&mut self, image: AtRest) -> Spare
        requires some { self.old.reached.steps < self.old.total }
        requires limit { image.planes.limit ≡ self.old.home.limit }
        ensures work { self.new ≡ home_at image.planes self.old }
        ensures spare { result.planes.limit ≡ self.old.kept.limit }
    {
        let home = mem::replace(&mut self.home, image);
        self.base = self.reached;
        Spare::of(home.into_planes())
    }

    /// Counts only those steps as done that the image at home has. Sets the position back to the
    /// one after these steps.
    pub(crate) fn go_back(&mut self)
        ensures { self.new ≡ back_home self.old }
    {
        self.reached = self.base;
    }

    /// Finishes the command, all of whose steps are done. Returns the machine with this image at
    /// the position that was reached, and the reply for its user.
    pub(crate) fn finish(self, image: AtRest) -> Finished
        requires { image.planes.limit ≡ self.home.limit }
        ensures { result ≡ finished_with self image.planes }
    {
        let Work {
            kept,
            direction,
            total: _,
            home,
            base: _,
            reached,
        } = self;
        let position = reached.position;
        let spare = Spare::of(home.into_planes());
        let machine = kept.join(image, spare, position);
        Finished::new(machine, reply_at(direction, position))
    }
}

/// Returns the number of bands of one step: a sixteenth of the side.
fn bands_of_step(side: Side) -> u64
    ensures bands { result ≡ bands_of_step side }
{
    (side.number() / BAND) as u64
}

/// Returns the reply after the last step: `Run` for forward steps or `Back` for backward ones, with
/// the position in the cycle.
fn reply_at(direction: Direction, position: usize) -> Reply
    ensures { result ≡ reply_at direction position }
{
    match direction {
        Direction::Forward => Reply::Done(Done::Run { position }),
        Direction::Backward => Reply::Done(Done::Back { position }),
    }
}
