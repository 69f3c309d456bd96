//! A board, with the lease whose job it holds.
ghost use Rattle.std.specs.Prelude.{◌≡◌, ◌<◌, ℕ, true};
ghost use Rattle.cam6_board.specs.Images.{is_rest};
ghost use Rattle.cam6_station.specs.Internal.Posts.{HasLease};

use crate::users::User;
use cam6_band::AtRest;
use cam6_board::{Board, Image, Job, SoftBoard, Tables};
use cam6_slot::{Finished, Lease, Queued};
use std::marker::Model;
use std::mem;

/// What the board of a station is at.
#[derive(Drop)]
enum Post {
    Idle,
    /// The user and the lease whose job the board holds.
    Loaded(User, Lease),
    Dead,
}

/// What a band comes to.
#[derive(Drop)]
pub enum Banded {
    /// So many bands are left.
    More(u64),
    /// The user's command is done, and the board is free.
    Last(User, Finished),
    /// The board failed, and the user's command waits again with what is at its home.
    Lost(User, Queued),
}

/// What it comes to that a command is taken off its board.
#[derive(Drop)]
pub enum Preempted {
    /// The user's command waits again with the bands that are done, and the board is free.
    Back(User, Queued),
    /// The board failed, and the user's command waits again with what is at its home.
    Lost(User, Queued),
}

/// A board that is idle, holds the job of a user's lease, or has failed.
#[derive(Drop)]
pub struct Station<B: Board> {
    board: B,
    post: Post,
}

impl<B: Board> Model for Station<B> {
    ghost use Rattle.cam6_station.specs.Held.{Stationed};
    ghost use Rattle.cam6_station.specs.Internal.Posts.{manned, IsManned};

    ghost Value = { Stationed };

    ghost view = { λ s.
        record { at = manned s.post (B.held s.board); faults = B.fault_count s.board } };

    ghost invariant = { λ s. IsManned s.post (B.held s.board) };
}

/// A station whose board never fails.
impl Station<SoftBoard> {
    ghost use Rattle.std.specs.Prelude.{◌≡◌};

    /// Does nothing. Its clause states that the board of this station has never failed.
    pub fn never_failed(&self)
        ensures { self.now.faults ≡ 0 }
    {
        let _board = &self.board;
    }
}

impl<B: Board> Station<B> {
    ghost use Rattle.std.specs.Prelude.{◌≤◌, IfErr, OnOk, OnErr, is_err, false};
    ghost use Rattle.std.specs.Option.{option_copied};
    ghost use Rattle.cam6_board.specs.Held.{empty};
    ghost use Rattle.cam6_slot.specs.Leases.{JobFits, TablesFit};
    ghost use Rattle.cam6_slot.specs.Lefts.{lease_left};
    ghost use Rattle.cam6_station.specs.Calls.{BandGives, PreemptGives, FailGives, GoesHome};
    ghost use Rattle.cam6_station.specs.Calls.{Rises, is_lost, is_lost_off};
    ghost use Rattle.cam6_station.specs.Held.{idle, loaded, dead, IsFit, IsLoaded, IsAlive};
    ghost use Rattle.cam6_station.specs.Held.{is_idle, is_loaded, is_dead, lease_on, rows_on};

    /// Makes an idle station with this board, which has to hold nothing.
    pub fn of(board: B) -> Station<B>
        requires { B.held board ≡ empty }
        ensures { result ≡ record { at = idle; faults = B.fault_count board } }
    {
        Station {
            board,
            post: Post::Idle,
        }
    }

    /// Returns the station's board. The station has to be idle or dead, so that the board holds
    /// nothing.
    pub fn into_board(self) -> B
        requires { is_loaded self.at ≡ false }
        ensures empty { B.held result ≡ empty }
        ensures faults { B.fault_count result ≡ self.faults }
    {
        self.board
    }

    /// Whether the board holds nothing, and has not failed.
    pub fn is_idle(&self) -> bool
        ensures { result ≡ is_idle self.now.at }
    {
        matches!(self.post, Post::Idle)
    }

    /// Whether the board holds the job of a user's command.
    pub fn is_loaded(&self) -> bool
        ensures { result ≡ is_loaded self.now.at }
    {
        matches!(self.post, Post::Loaded(_, _))
    }

    /// Whether the board has failed, and isn't repaired yet.
    pub fn is_dead(&self) -> bool
        ensures { result ≡ is_dead self.now.at }
    {
        matches!(self.post, Post::Dead)
    }

    /// Returns the lease of the command that the board holds, or `None` if it holds none.
    pub fn lease(&self) -> Option<&Lease>
        ensures lease { option_copied result ≡ lease_on self.now.at }
        // The invariant of a station.
        ensures always { IsFit self.now.at }
    {
        match &self.post {
            Post::Loaded(_, lease) => Some(lease),
            _ => None,
        }
    }

    /// Returns how many rows of the step under way are done, from 0 to below the side. Returns
    /// `None` if the board holds no command.
    pub fn rows(&self) -> Option<u16>
        ensures { result ≡ rows_on self.now.at }
    {
        self.board.rows()
    }

    /// Loads an idle station with a user's lease, its job and its tables. At least one band is
    /// left. If the board fails, the station is dead, and the command comes back as `Err`. It waits
    /// again, from its image at home.
    pub fn load(
        &mut self,
        user: User,
        lease: Lease,
        job: Job,
        tables: &Tables,
    ) -> Result<(), Queued>
        requires idle { self.old.at ≡ idle }
        requires job { JobFits lease job }
        requires left { 0 < lease_left lease }
        requires tables { TablesFit lease.work tables.now }
        ensures ok { OnOk result (self.new.at ≡ loaded user
            (record { lease = lease; job = job; tables = tables.now })) }
        ensures err { OnErr result (self.new.at ≡ dead) }
        ensures back { IfErr result (λ queued. GoesHome
            (record { lease = lease; job = job; tables = tables.now }) queued) }
        ensures faults { Rises (is_err result) self.old.faults self.new.faults }
    {
        // A lease is what it always is.
        let _bands = lease.left();
        match self.board.load(job, tables) {
            Ok(()) => {
                self.post = Post::Loaded(user, lease);
                Ok(())
            }
            Err(fault) => {
                self.post = Post::Dead;
                Err(lease.lost(fault.spare))
            }
        }
    }

    /// Does one band on the board, which has to hold a command, and counts it in the lease. After
    /// the command's last band, returns the finished command, and the board is idle. If the board
    /// fails, the station is dead, and the command that is returned waits again from its image at
    /// home.
    pub fn band(&mut self) -> Banded
        requires { IsLoaded self.old.at }
        ensures gives { BandGives self.old.at result self.new.at }
        ensures faults { Rises (is_lost result) self.old.faults self.new.faults }
    {
        let Post::Loaded(_, lease) = &mut self.post else {
            unreachable!()
        };
        match self.board.band() {
            Ok(end) => lease.advance(end),
            Err(fault) => {
                let (user, lease) = take_lease(&mut self.post, Post::Dead);
                return Banded::Lost(user, lease.lost(fault.spare));
            }
        }
        let left = lease.left();
        if left > 0 {
            return Banded::More(left);
        }
        match self.board.unload() {
            Ok(image) => {
                let (user, lease) = take_lease(&mut self.post, Post::Idle);
                Banded::Last(user, lease.finish(at_rest(image)))
            }
            Err(fault) => {
                let (user, lease) = take_lease(&mut self.post, Post::Dead);
                Banded::Lost(user, lease.lost(fault.spare))
            }
        }
    }

    /// Takes the user's command off the board, which has to hold one, and returns it. The board is
    /// idle then. If the board fails, it is dead, and the command waits again from its image at
    /// home.
    pub fn preempt(&mut self) -> Preempted
        requires { IsLoaded self.old.at }
        ensures gives { PreemptGives self.old.at result self.new.at }
        ensures faults { Rises (is_lost_off result) self.old.faults self.new.faults }
    {
        match self.board.unload() {
            Ok(image) => {
                let (user, lease) = take_lease(&mut self.post, Post::Idle);
                Preempted::Back(user, lease.preempt(image))
            }
            Err(fault) => {
                let (user, lease) = take_lease(&mut self.post, Post::Dead);
                Preempted::Lost(user, lease.lost(fault.spare))
            }
        }
    }

    /// Makes a board fail that hasn't failed: it is dead, and loses what it holds. Returns the user
    /// and the command that it held, to go on from its image at home. Returns `None` if it held none.
    pub fn fail(&mut self) -> Option<(User, Queued)>
        requires { IsAlive self.old.at }
        ensures back { FailGives self.old.at result }
        ensures dead { self.new.at ≡ dead }
        ensures count { self.old.faults ≤ self.new.faults }
    {
        let Post::Loaded(user, lease) = mem::replace(&mut self.post, Post::Dead) else {
            return None;
        };
        let spare = match self.board.unload() {
            Ok(image) => image.into_spare(),
            Err(fault) => fault.spare,
        };
        Some((user, lease.lost(spare)))
    }

    /// Makes a dead station idle again.
    pub fn repair(&mut self)
        requires { self.old.at ≡ dead }
        ensures { self.new ≡ record { at = idle; faults = self.old.faults } }
    {
        self.post = Post::Idle;
    }
}

/// Replaces a post that has a lease, `Loaded`, by `after`. Returns the user and the lease.
fn take_lease(post: &mut Post, after: Post) -> (User, Lease)
    requires { HasLease post.old }
    ensures was { post.old ≡ Post.Loaded result.0 result.1 }
    ensures after { post.new ≡ after }
{
    match mem::replace(post, after) {
        Post::Loaded(user, lease) => (user, lease),
        _ => unreachable!(),
    }
}

/// Returns the image as one at rest. It must not be in the middle of a step.
fn at_rest(image: Image) -> AtRest
    requires { is_rest image ≡ true }
    ensures { image ≡ Image.Rest result }
{
    match image.into_rest() {
        Ok(image) => image,
        Err(step) => {
            drop(step.abandon());
            unreachable!()
        }
    }
}
