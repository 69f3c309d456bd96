//! A host: users at their desks, boards in threads of their own, and a thread for each connection.
ghost use Rattle.std.specs.Prelude.{◌<◌, length};
ghost use Rattle.cam6_server.specs.Places.{AreOwnDesks};

use crate::boards::{IdleBoard, boards_at};
use crate::guests::Guests;
use crate::places::Places;
use crate::serving::{Fault, Serving};
use crate::sessions::receive;
use crate::states::{Handle, HostState, ServerState};
use cam6_cache::TableCache;
use cam6_handoff::laws::{blank_desks_are_their_users, blank_desks_rest};
use cam6_handoff::{BoardSeat, Desk, boot};
use cam6_planes::NoMemory;
use cam6_pool::SlicingGate;
use std::io::Error;
use std::net::TcpListener;
use std::sync::{Arc, Condvar, Mutex};
use std::thread::{JoinHandle, sleep, spawn};
use std::time::Duration;

/// Milliseconds between a connection that could not be accepted and the next try.
const PAUSE: u64 = 20;

/// How often in a row accepting may fail before any client has had a seat: for a second.
const TRIES: u32 = 50;

/// How many failures are not reported after one that is: those of a minute.
const QUIET: u32 = 3_000;

/// Serves the connections of a listener. Each user has a machine, and each board and each connection
/// has a thread. Closes the listener after the last connection that `serving` allows, waits until all
/// clients are gone, and then ends the boards. Fails if an allocation or a board's thread fails.
///
/// Accepting fails if the system has no file left, for example. The host then tries again without end,
/// and reports that on standard error once a minute, so that users keep their machines. Before any
/// client has had a seat, the host gives up after a second, and fails with `Network`.
pub fn serve_net<R: Handle + Eprint + Send + Sync + 'static>(
    rt: R,
    listener: TcpListener,
    serving: &Serving,
) -> Result<(), Fault> {
    let (server, boards) = new_server(rt, serving)?;
    let mut workers = Vec::new(rt.alloc());
    let served = match start_board_threads(&server, boards, &mut workers) {
        Ok(()) => accept(rt, &server, listener, serving.connections),
        Err(fault) => Err(fault),
    };
    server.host.gate.stop();
    for worker in workers {
        worker.join(&rt);
    }
    served
}

/// Makes what the threads of a host share, and its boards, which are idle. Opens no socket and
/// starts no thread. Fails only if an allocation fails.
fn new_server<R: Handle>(
    rt: R,
    serving: &Serving,
) -> Result<(Arc<ServerState<R>>, Vec<IdleBoard>), NoMemory> {
    let alloc = rt.alloc();
    let limits = vec![in alloc; serving.limit; serving.users]?;
    let (desks, seats) = boot(alloc, serving.users, serving.boards, limits.as_slice())?;
    blank_desks_are_their_users();
    blank_desks_rest();
    let server = ServerState {
        host: host_of(rt, serving, desks, seats.as_slice())?,
        guests: Mutex::new(Guests::new(serving.users)),
        left: Condvar::new(),
        idle: idle_of(serving),
    };
    Ok((Arc::new(alloc, server)?, boards_at(alloc, seats)?))
}

/// Returns how long a client with a seat may be silent, or `None` for no limit.
fn idle_of(serving: &Serving) -> Option<Duration> {
    match serving.idle {
        0 => None,
        seconds => Some(Duration::from_secs(u64::from(seconds))),
    }
}

/// Makes the state that the threads of a host share. The desks, from user 1 on, are put at their
/// places. The gate is for the boards at these seats, of which there is at least one.
fn host_of<R: Handle>(
    rt: R,
    serving: &Serving,
    desks: Vec<Desk>,
    seats: &[BoardSeat],
) -> Result<HostState<R>, NoMemory>
    requires a_seat { 0 < length seats.now }
    requires desks { AreOwnDesks desks.items }
{
    let alloc = rt.alloc();
    let places = Places::new(alloc, desks)?;
    let cache = TableCache::new(alloc, serving.cache)?;
    Ok(HostState {
        rt,
        cache: Mutex::new(cache),
        gate: gate_of(rt, serving, seats)?,
        places: Mutex::new(places),
    })
}

/// Makes the gate of as many boards as `serving` says. It has the queue of the first of these seats, of
/// which there is at least one.
fn gate_of<R: Handle>(
    rt: R,
    serving: &Serving,
    seats: &[BoardSeat],
) -> Result<SlicingGate<R>, NoMemory>
    requires { 0 < length seats.now }
{
    match seats.first() {
        Some(seat) => SlicingGate::new(rt.alloc(), rt, seat.queue()?, serving.boards),
        None => unreachable!(),
    }
}

/// Starts a thread for each board, and adds its handle to `workers`. Fails if there is no thread or
/// no memory for one. The threads before it run, and are in `workers`.
fn start_board_threads<R: Handle + Send + Sync + 'static>(
    server: &Arc<ServerState<R>>,
    boards: Vec<IdleBoard>,
    workers: &mut Vec<JoinHandle<()>>,
) -> Result<(), Fault> {
    if workers.try_reserve(boards.len()).is_err() {
        return Err(Fault::NoMemory);
    }
    for board in boards {
        let worker = start(server, board)?;
        if workers.push(worker).is_err() {
            return Err(Fault::NoMemory);
        }
    }
    Ok(())
}

/// Starts a thread that serves users with a board, and returns its handle. Fails if there is no
/// thread or no memory for it.
fn start<R: Handle + Send + Sync + 'static>(
    server: &Arc<ServerState<R>>,
    board: IdleBoard,
) -> Result<JoinHandle<()>, Fault> {
    let Ok(theirs) = Arc::try_clone(server) else {
        return Err(Fault::NoMemory);
    };
    match spawn(&server.host.rt, move || board.serve(&theirs.host)) {
        Ok(worker) => Ok(worker),
        Err(_) => Err(Fault::NoThread),
    }
}

/// Accepts so many connections, or connections without end if the number is 0, and starts a thread
/// for each. Then closes the listener, and waits until no client is connected. Fails with `Network`
/// if accepting fails for a second, and no client has ever had a seat.
fn accept<R: Handle + Eprint + Send + Sync + 'static>(
    rt: R,
    server: &Arc<ServerState<R>>,
    listener: TcpListener,
    connections: u64,
) -> Result<(), Fault> {
    let mut accepted: u64 = 0;
    let mut failures = Failures { row: 0, quiet: 0 };
    for stream in listener.incoming() {
        match stream {
            Ok(stream) => {
                failures.row = 0;
                receive(server, stream);
                accepted = accepted.wrapping_add(1);
                if accepted == connections {
                    break;
                }
            }
            Err(error) => {
                failures.note_failure(&rt, &error);
                if failures.row > TRIES && !server.was_seated() {
                    return Err(Fault::Network);
                }
                sleep(&rt, Duration::from_millis(PAUSE));
            }
        }
    }
    drop(listener);
    server.wait_for_clients_to_leave();
    Ok(())
}

/// Failures to accept a connection.
#[derive(Drop)]
struct Failures {
    /// How many in a row.
    row: u32,
    /// How many more are not reported.
    quiet: u32,
}

impl Failures {
    /// Counts one more failure in a row to accept a connection. Reports it on standard error,
    /// unless one of the 3,000 failures before it was reported.
    fn note_failure(&mut self, rt: &impl Eprint, error: &Error) {
        self.row = self.row.saturating_add(1);
        if self.quiet > 0 {
            self.quiet -= 1;
            return;
        }
        self.quiet = QUIET;
        // The host goes on if standard error fails.
        let _ = eprintln!(rt; "cam6: cannot accept a connection, trying again: {error}");
    }
}
