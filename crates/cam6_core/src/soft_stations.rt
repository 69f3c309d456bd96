//! A board of the core: it never fails of itself, but the event Fail takes its image away.
ghost use Rattle.std.specs.Prelude.{◌≡◌, ◌<◌, IfOk, false};
ghost use Rattle.cam6_slot.specs.Leases.{JobFits, TablesFit};
ghost use Rattle.cam6_slot.specs.Lefts.{lease_left};
ghost use Rattle.cam6_station.specs.Calls.{BandGives, PreemptGives, FailGives, is_lost};
ghost use Rattle.cam6_station.specs.Held.{idle, loaded, dead, IsLoaded, IsAlive};
ghost use Rattle.cam6_station.specs.Held.{is_idle, is_loaded, is_dead};

use cam6_board::{Job, SoftBoard, Tables};
use cam6_planes::NoMemory;
use cam6_slot::{Lease, Queued};
use cam6_station::{Banded, Preempted, Station, User};
use std::alloc::Global;
use std::marker::Model;

/// A station whose board never fails of itself. Contracts see what the station is at, without the
/// count of faults: that is always 0.
#[derive(Drop)]
pub(crate) struct SoftStation {
    station: Station<SoftBoard>,
}

impl Model for SoftStation {
    ghost use Rattle.cam6_station.specs.Held.{Manned};

    ghost Value = { Manned };

    ghost view = { λ s. s.station.at };
}

impl SoftStation {
    /// Makes an idle station, whose board never fails of itself. Fails only if an allocation fails.
    pub(crate) fn new(alloc: Global) -> Result<SoftStation, NoMemory>
        ensures { IfOk result (λ station. station ≡ idle) }
    {
        let board = SoftBoard::new(alloc)?;
        Ok(SoftStation {
            station: Station::of(board),
        })
    }

    /// Whether the board holds nothing, and has not failed.
    pub(crate) fn is_idle(&self) -> bool
        ensures { result ≡ is_idle self.now }
    {
        self.station.is_idle()
    }

    /// Whether the board holds the job of a user's command.
    pub(crate) fn is_loaded(&self) -> bool
        ensures { result ≡ is_loaded self.now }
    {
        self.station.is_loaded()
    }

    /// Whether the board has failed, and isn't repaired yet.
    pub(crate) fn is_dead(&self) -> bool
        ensures { result ≡ is_dead self.now }
    {
        self.station.is_dead()
    }

    /// Loads an idle station with the lease of a user, its job and its tables. At least one band is
    /// left. Never fails.
    pub(crate) fn load(&mut self, user: User, lease: Lease, job: Job, tables: &Tables)
        requires idle { self.old ≡ idle }
        requires job { JobFits lease job }
        requires left { 0 < lease_left lease }
        requires tables { TablesFit lease.work tables.now }
        ensures { self.new ≡ loaded user
            (record { lease = lease; job = job; tables = tables.now }) }
    {
        self.station.never_failed();
        let loaded = self.station.load(user, lease, job, tables);
        self.station.never_failed();
        match loaded {
            Ok(()) => (),
            _ => unreachable!(),
        }
    }

    /// Does one band on the board, which has to hold a command, and counts it in the lease. After
    /// the command's last band, returns the finished command, and the board is idle. Never returns
    /// `Lost`.
    pub(crate) fn band(&mut self) -> Banded
        requires { IsLoaded self.old }
        ensures gives { BandGives self.old result self.new }
        ensures never { is_lost result ≡ false }
    {
        self.station.never_failed();
        let banded = self.station.band();
        self.station.never_failed();
        banded
    }

    /// Takes the command off the board, which has to hold one, and is idle after that. Returns the
    /// user and the command.
    pub(crate) fn preempt(&mut self) -> (User, Queued)
        requires { IsLoaded self.old }
        ensures back { PreemptGives self.old (Preempted.Back result.0 result.1) idle }
        ensures idle { self.new ≡ idle }
    {
        self.station.never_failed();
        let preempted = self.station.preempt();
        self.station.never_failed();
        match preempted {
            Preempted::Back(user, queued) => (user, queued),
            _ => unreachable!(),
        }
    }

    /// Makes a board fail that hasn't failed: it is dead, and loses what it holds. Returns the user
    /// and the command that it held, to go on from its image at home. Returns `None` if it held none.
    pub(crate) fn fail(&mut self) -> Option<(User, Queued)>
        requires { IsAlive self.old }
        ensures back { FailGives self.old result }
        ensures dead { self.new ≡ dead }
    {
        self.station.fail()
    }

    /// Makes a dead station idle again.
    pub(crate) fn repair(&mut self)
        requires { self.old ≡ dead }
        ensures { self.new ≡ idle }
    {
        self.station.repair();
    }
}
