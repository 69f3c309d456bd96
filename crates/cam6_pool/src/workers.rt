//! A worker: it serves users with its board, one lease after another.
ghost use Rattle.std.specs.Prelude.{◌≡◌, ◌<◌, ◌≤◌, false};
ghost use Rattle.cam6_board.specs.Held.{empty};
ghost use Rattle.cam6_handoff.specs.Holding.{IsIdle, emptied};
ghost use Rattle.cam6_slot.specs.Leases.{TablesFit};
ghost use Rattle.cam6_station.specs.Calls.{Rises};
ghost use Rattle.cam6_station.specs.Held.{idle, IsLoaded, is_loaded, is_dead};
ghost use Rattle.cam6_pool.specs.Ending.{EndsBy};
ghost use Rattle.cam6_pool.specs.Serving.{Serves};
ghost use Rattle.cam6_pool.specs.Internal.Served.{Carries, TakesNext, ServesOn, measure_of};

use crate::gates::{Gate, Turn};
use crate::rounds::Round;
use cam6_band::BAND;
use cam6_board::{Board, Job};
use cam6_cache::TableCache;
use cam6_handoff::BoardSeat;
use cam6_slot::Lease;
use cam6_station::{Banded, Preempted, Station, User};
use std::sync::{Mutex, Wait};

/// How a worker ends.
#[derive(Clone, Copy, Debug, PartialEq, Eq)]
pub enum Ended {
    /// The gate ended it.
    Stopped,
    /// Its board failed.
    Dead,
}

/// Returns the number of the band that the board does next in its step, counted from 0. It is 0 if
/// the board holds no command.
fn next_band<B: Board>(station: &Station<B>) -> u8 {
    let rows = station.rows().unwrap_or(0);
    u8::try_from(rows / BAND as u16).unwrap_or(u8::MAX)
}

/// Takes the command off the board, which has to hold the seat's one. Gives it back to wait for a
/// board again: from its image at home if the board fails.
fn preempt<B: Board>(seat: &mut BoardSeat, station: &mut Station<B>)
    requires loaded { IsLoaded station.old.at }
    requires serves { Serves seat.old.holds station.old.at }
    ensures on { ServesOn seat.old station.old seat.new station.new }
    ensures less { measure_of station.new.at < measure_of station.old.at }
{
    match station.preempt() {
        Preempted::Back(_, queued) => seat.put_back(queued),
        Preempted::Lost(_, queued) => seat.put_back(queued),
    }
}

/// Asks the gate for its verdict, and follows it: does a band, or takes the command off the board,
/// which has to hold one. Gives a finished command to its desk. Gives a command whose image was
/// lost back to wait. Returns true if the verdict is `Stop`.
fn follow_gate<B: Board, G: Gate>(
    seat: &mut BoardSeat,
    station: &mut Station<B>,
    user: User,
    gate: &G,
) -> bool
    requires loaded { IsLoaded station.old.at }
    requires serves { Serves seat.old.holds station.old.at }
    ensures on { ServesOn seat.old station.old seat.new station.new }
    ensures less { measure_of station.new.at < measure_of station.old.at }
{
    match gate.turn(seat.number(), user.number(), next_band(station)) {
        Turn::Go => {
            match station.band() {
                Banded::More(_) => {}
                Banded::Last(_, finished) => seat.put_done(finished),
                Banded::Lost(_, queued) => seat.put_back(queued),
            }
            false
        }
        Turn::Preempt => {
            preempt(seat, station);
            false
        }
        Turn::Stop => {
            preempt(seat, station);
            true
        }
    }
}

/// Loads an idle station with the lease that the seat took, whose tables the seat has filled. Does
/// its bands until the command is finished or given back. Returns whether the gate stopped the
/// worker. If not, the board may have failed.
fn serve_lease<B: Board, G: Gate>(
    seat: &mut BoardSeat,
    station: &mut Station<B>,
    user: User,
    lease: Lease,
    job: Job,
    gate: &G,
) -> bool
    requires seat { Carries seat.old.holds lease job }
    requires tables { TablesFit lease.work seat.old.tables }
    requires station { station.old.at ≡ idle }
    ensures seat { seat.new ≡ emptied seat.old }
    ensures station { is_loaded station.new.at ≡ false }
    ensures faults { Rises (is_dead station.new.at) station.old.faults station.new.faults }
{
    if let Err(queued) = station.load(user, lease, job, seat.tables()) {
        seat.put_back(queued);
        return false;
    }
    let mut stops = false;
    while station.is_loaded() {
        stops = follow_gate(seat, station, user, gate);
    }
    stops
}

/// Gives the command back that the seat took and no board began. It waits for a board again.
fn give_back(seat: &mut BoardSeat, lease: Lease, job: Job)
    requires seat { Carries seat.old.holds lease job }
    ensures seat { seat.new ≡ emptied seat.old }
{
    let queued = lease.preempt(job.into_image());
    seat.put_back(queued);
}

/// Takes the command of the first user in turn who has one that waits and isn't held back. Goes
/// once round all users, from the user after the one whose command it took last. Returns `None` if
/// there is none. The seat has to hold no command.
fn take_next(round: &mut Round) -> Option<(User, Lease, Job)>
    requires { IsIdle round.old.seat }
    ensures { TakesNext round.old result round.new }
{
    round.begin();
    while !round.is_over() {
        if let Some(taken) = round.look() {
            return Some(taken);
        }
    }
    None
}

/// Serves users with an empty board until the gate ends it, or the board fails, and returns which.
/// Users come round robin: each round of looks begins at the user after the one whose command was
/// taken last. Each table is filled under the cache's lock, and no lock is held while bands are
/// done. A lease that it has at its end is put back first. It waits with its half-done step if the
/// gate stopped it, or from its home if the board failed. The seat, which holds no command, can
/// serve again with any empty board.
pub fn serve_board<R: Wait, B: Board, G: Gate>(
    rt: &R,
    seat: BoardSeat,
    board: B,
    cache: &Mutex<TableCache>,
    gate: &G,
) -> (BoardSeat, B, Ended)
    requires seat { IsIdle seat }
    requires board { B.held board ≡ empty }
    ensures seat { IsIdle result.0 }
    ensures number { result.0.number ≡ seat.number }
    ensures users { result.0.users ≡ seat.users }
    ensures board { B.held result.1 ≡ empty }
    ensures faults { EndsBy result.2 (B.fault_count board) (B.fault_count result.1) }
{
    let mut station = Station::of(board);
    let mut round = Round::new(seat);
    for _ in rt.forever() {
        let Some((user, lease, job)) = take_next(&mut round) else {
            if gate.idle(round.seat.number()) {
                continue;
            }
            return (round.seat, station.into_board(), Ended::Stopped);
        };
        if !round.seat.fill_each(rt, &lease, cache) {
            give_back(&mut round.seat, lease, job);
            continue;
        }
        let stops = serve_lease(&mut round.seat, &mut station, user, lease, job, gate);
        if station.is_dead() {
            return (round.seat, station.into_board(), Ended::Dead);
        }
        if stops {
            return (round.seat, station.into_board(), Ended::Stopped);
        }
    }
    unreachable!()
}
