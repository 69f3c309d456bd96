//! The bytes of a connection, and how long each call on it may take.

ghost use Rattle.std.specs.Prelude.{◌≤◌, IfOk, length};

use cam6_web_bridge::{Pace, Paced};
use std::cell::Cell;
use std::io;
use std::io::{Error, ErrorKind, Read, Write};
use std::net::{Shutdown, TcpStream};
use std::thread::sleep;
use std::time::{Clock, Duration, Instant};

/// How often a system call is tried, at most, if signals interrupt it.
const TRIES: u32 = 1_000;

/// How a request for a socket begins.
const SOCKET_BEGIN: &[u8] = b"GET /ws";

/// How often, and how many milliseconds after each other, the first bytes of a request are looked at.
const LOOKS: u32 = 1_000;

const PAUSE: u64 = 10;

/// Seconds after which a read that waits looks whether the host is still there.
const LOOK_SECONDS: u64 = 1;

/// Seconds within which a request has to come and be answered.
const REQUEST_SECONDS: u64 = 10;

/// Seconds after which a page that says nothing is silent.
const SILENT_SECONDS: u64 = 30;

/// Seconds within which a page has to take a message.
const SEND_SECONDS: u64 = 60;

/// Seconds within which a page has to take a close.
const PART_SECONDS: u64 = 5;

/// Seconds for which bytes are read and dropped, at most, after the last answer.
const DRAIN_SECONDS: u64 = 2;

/// Bytes that are read and dropped, at most, after the last answer.
const DRAINED: usize = 4_194_304;

/// A connection, and the host that answers its lines if that is at the other end of a stream. A call
/// fails with `WouldBlock` or `TimedOut` once its time is over. A read fails with `HostUnreachable` once
/// the host is gone.
#[derive(Drop)]
pub struct Link<'a, R: Clock> {
    clock: &'a R,
    stream: &'a TcpStream,
    host: Option<&'a TcpStream>,
    deadline: Cell<Instant>,
}

impl<'a, R: Clock> Link<'a, R> {
    /// Makes the link of a connection, without a host. The client's request has to come, and be
    /// answered, within ten seconds. Fails if the clock does.
    pub fn new(clock: &'a R, stream: &'a TcpStream) -> io::Result<Link<'a, R>> {
        // Answers are sent even if the socket can't be set to send them at once.
        let _ = stream.set_nodelay(true);
        Ok(Link {
            clock,
            stream,
            host: None,
            deadline: Cell::new(deadline_in(clock, REQUEST_SECONDS)?),
        })
    }

    /// Returns whether the client's request begins as one for a socket. Waits until enough of it
    /// has come to tell, and leaves it to be read. Returns false if the time is over before, or if
    /// the connection ends or fails.
    pub fn asks_for_socket(&self) -> bool {
        let mut begin = [0; SOCKET_BEGIN.len()];
        for _ in 0..LOOKS {
            let Ok(count) = self.peek(&mut begin) else {
                return false;
            };
            let shown = &begin[..count];
            if count == 0 || !SOCKET_BEGIN.starts_with(shown) {
                return false;
            }
            if count == SOCKET_BEGIN.len() {
                return true;
            }
            sleep(self.clock, Duration::from_millis(PAUSE));
        }
        false
    }

    /// Copies the next bytes of the client, and leaves them for the next read. Waits for at least
    /// one byte, and returns how many there are. 0 means that the connection has ended. Fails with
    /// `TimedOut` once the time is over.
    fn peek(&self, bytes: &mut [u8]) -> io::Result<usize>
        ensures { IfOk result (λ count. count ≤ length bytes.new) }
    {
        for _ in 0..TRIES {
            let left = time_left(self.clock, self.deadline.get())?;
            self.stream.set_read_timeout(Some(left))?;
            match self.stream.peek(bytes) {
                Err(fault) if is_retried(fault.kind()) => {}
                peeked => return peeked,
            }
        }
        Err(Error::from(ErrorKind::TimedOut))
    }

    /// Returns a link of the same connection that also watches the host's stream. It has the same
    /// time left, which is then its own.
    pub fn with_host<'b>(&'b self, host: &'b TcpStream) -> Link<'b, R> {
        Link {
            clock: self.clock,
            stream: self.stream,
            host: Some(host),
            deadline: Cell::new(self.deadline.get()),
        }
    }

    /// Fails with `HostUnreachable` if there is a host and it is gone. Doesn't wait.
    fn look(&self) -> io::Result<()> {
        match self.host {
            Some(host) if has_ended(host) => Err(Error::from(ErrorKind::HostUnreachable)),
            _ => Ok(()),
        }
    }

    /// Gives all calls from here on together this many seconds, from now. If the clock fails, their
    /// time stays as it was.
    fn allow(&self, seconds: u64) {
        // A clock that fails leaves the time as it was.
        if let Ok(deadline) = deadline_in(self.clock, seconds) {
            self.deadline.set(deadline);
        }
    }

    /// Shuts the sending side, and drops what the client still sends: at most two seconds, and
    /// about 4 MB. A socket that is closed with unread bytes resets the connection, and the client
    /// may lose its last answer. Fails if the connection does, or if the time is over.
    pub fn shut_down(&self) -> io::Result<()> {
        self.stream.shutdown(Shutdown::Write)?;
        self.allow(DRAIN_SECONDS);
        let mut reader = self;
        let mut bytes = [0; 4_096];
        let mut drained = 0;
        while drained < DRAINED {
            match reader.read(&mut bytes)? {
                0 => break,
                count => drained += count,
            }
        }
        Ok(())
    }
}

impl<R: Clock> Paced for &Link<'_, R> {
    /// Gives all calls from here on together the seconds of this pace, from now.
    fn pace(&self, pace: Pace) {
        self.allow(seconds_of(pace));
    }
}

/// Returns how many seconds calls of this pace may take together: 30 to receive, 60 to send, and 5
/// for a close.
fn seconds_of(pace: Pace) -> u64 {
    match pace {
        Pace::Listening => SILENT_SECONDS,
        Pace::Sending => SEND_SECONDS,
        Pace::Parting => PART_SECONDS,
    }
}

impl<R: Clock> Read for &Link<'_, R> {
    /// Reads bytes of the client, and returns how many; 0 means that the connection has ended.
    /// While it waits, checks once a second that the host is still there. Fails with
    /// `HostUnreachable` if it isn't, and with `TimedOut` once the time is over.
    fn read(&mut self, bytes: &mut [u8]) -> io::Result<usize> {
        let mut stream = self.stream;
        for _ in 0..TRIES {
            let left = time_left(self.clock, self.deadline.get())?;
            stream.set_read_timeout(Some(left.min(Duration::from_secs(LOOK_SECONDS))))?;
            match stream.read(bytes) {
                Err(fault) if is_retried(fault.kind()) => self.look()?,
                read => return read,
            }
        }
        Err(Error::from(ErrorKind::TimedOut))
    }
}

impl<R: Clock> Write for &Link<'_, R> {
    /// Writes bytes to the client, and returns how many it took. Writes again if a signal
    /// interrupts it. Fails after 1,000 tries, or once the time is over.
    fn write(&mut self, bytes: &[u8]) -> io::Result<usize> {
        let mut stream = self.stream;
        for _ in 0..TRIES {
            stream.set_write_timeout(Some(time_left(self.clock, self.deadline.get())?))?;
            match stream.write(bytes) {
                Err(fault) if fault.kind() == ErrorKind::Interrupted => {}
                written => return written,
            }
        }
        Err(Error::from(ErrorKind::Interrupted))
    }

    /// Flushes what was written to the client.
    fn flush(&mut self) -> io::Result<()> {
        let mut stream = self.stream;
        stream.flush()
    }
}

/// Returns whether a read that failed so is tried again: for `Interrupted` and `WouldBlock`.
fn is_retried(kind: ErrorKind) -> bool {
    match kind {
        ErrorKind::Interrupted => true,
        ErrorKind::WouldBlock => true,
        _ => false,
    }
}

/// Returns whether the other end of a stream has closed it, or the stream has failed. Doesn't wait,
/// and reads no bytes.
fn has_ended(host: &TcpStream) -> bool {
    if host.set_nonblocking(true).is_err() {
        return true;
    }
    let peeked = host.peek(&mut [0; 1]);
    if host.set_nonblocking(false).is_err() {
        return true;
    }
    match peeked {
        Ok(count) => count == 0,
        Err(fault) => !is_retried(fault.kind()),
    }
}

/// Returns the instant that is this many seconds from now. Fails if the clock does, or with
/// `TimedOut` if there is no such instant.
fn deadline_in(clock: &impl Clock, seconds: u64) -> io::Result<Instant> {
    match Instant::now(clock)?.checked_add(Duration::from_secs(seconds)) {
        Some(deadline) => Ok(deadline),
        None => Err(Error::from(ErrorKind::TimedOut)),
    }
}

/// Returns the time until `deadline`. Fails with `TimedOut` if none is left, or if the clock fails.
fn time_left(clock: &impl Clock, deadline: Instant) -> io::Result<Duration> {
    let left = deadline.saturating_duration_since(Instant::now(clock)?);
    if left.is_zero() {
        return Err(Error::from(ErrorKind::TimedOut));
    }
    Ok(left)
}
