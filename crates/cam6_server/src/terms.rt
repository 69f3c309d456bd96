//! The limits of one client: how soon it needs a seat, how much it may send before that, and how long
//! it may be silent after that.

use crate::guests::{Guests, Standing};
use crate::states::{Handle, ServerState};
use cam6_wire::LINE_LIMIT;
use std::cell::Cell;
use std::io;
use std::io::{Error, ErrorKind};
use std::net::TcpStream;
use std::sync::Mutex;
use std::time::{Clock, Duration, Instant};

/// Seconds within which a client needs a seat.
const SEAT_SECONDS: u64 = 10;

/// The limits of one client.
#[derive(Drop)]
pub struct Terms<'a, R: Handle> {
    rt: R,
    guests: &'a Mutex<Guests>,
    idle: Option<Duration>,
    standing: Cell<Standing>,
    /// When the wait for a seat is over.
    deadline: Instant,
    /// How many bytes have been read.
    came: Cell<usize>,
    /// Whether the socket has the timeout of a client with a seat.
    is_told: Cell<bool>,
}

impl<'a, R: Handle> Terms<'a, R> {
    /// Makes the limits of a client that has just connected: ten seconds to take a seat. Fails if
    /// the clock fails.
    pub fn new(server: &'a ServerState<R>) -> io::Result<Terms<'a, R>> {
        let rt = server.host.rt;
        Ok(Terms {
            rt,
            guests: &server.guests,
            idle: server.idle,
            standing: Cell::new(Standing::Waiting),
            deadline: deadline_in(&rt, SEAT_SECONDS)?,
            came: Cell::new(0),
            is_told: Cell::new(false),
        })
    }

    /// Returns whether the client has a seat, waits for one, or waits with a long first line.
    pub fn standing(&self) -> Standing {
        self.standing.get()
    }

    /// Notes that the client has its seat: it no longer counts as waiting, and the limits of a
    /// seated client hold.
    pub fn sit(&self) {
        self.guests.lock(&self.rt).sit();
        self.standing.set(Standing::Seated);
    }

    /// Sets how long the next read of the stream may wait: the idle time of a seated client, and
    /// else what is left of its ten seconds. Fails if these are over, or if the wait can't be set.
    /// Fails too if this client's first line has become long, while 8 other clients hold one.
    pub fn allow(&self, stream: &TcpStream) -> io::Result<()> {
        if self.standing.get() == Standing::Seated {
            return self.allow_seated(stream);
        }
        if self.standing.get() == Standing::Waiting && self.came.get() > LINE_LIMIT {
            self.lengthen()?;
        }
        stream.set_read_timeout(Some(time_left(&self.rt, self.deadline)?))
    }

    /// Sets how long a read may wait for a client with a seat: its idle time. Does so once, since
    /// the timeout stays.
    fn allow_seated(&self, stream: &TcpStream) -> io::Result<()> {
        if self.is_told.replace(true) {
            return Ok(());
        }
        stream.set_read_timeout(self.idle)
    }

    /// Allows a first line of more than 16,384 bytes, as only a load may have. Fails if 8 waiting
    /// clients have one already, because the host holds what each has sent.
    fn lengthen(&self) -> io::Result<()> {
        if !self.guests.lock(&self.rt).lengthen() {
            return Err(Error::from(ErrorKind::OutOfMemory));
        }
        self.standing.set(Standing::Long);
        Ok(())
    }

    /// Adds `count` bytes that were read to those of the client.
    pub fn came(&self, count: usize) {
        self.came.set(self.came.get().saturating_add(count));
    }
}

/// Returns the moment that is so many seconds from now. Fails if the clock fails, or if there is no
/// such moment.
pub fn deadline_in(clock: &impl Clock, seconds: u64) -> io::Result<Instant> {
    match Instant::now(clock)?.checked_add(Duration::from_secs(seconds)) {
        Some(deadline) => Ok(deadline),
        None => Err(Error::from(ErrorKind::TimedOut)),
    }
}

/// Returns the time until `deadline`. Fails with `TimedOut` if none is left, or if the clock fails.
pub fn time_left(clock: &impl Clock, deadline: Instant) -> io::Result<Duration> {
    let left = deadline.saturating_duration_since(Instant::now(clock)?);
    if left.is_zero() {
        return Err(Error::from(ErrorKind::TimedOut));
    }
    Ok(left)
}
