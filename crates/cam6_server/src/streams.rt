//! The bytes of a connection. Answers to lines that came together go out together.

use crate::guests::Standing;
use crate::outboxes::Outbox;
use crate::states::{Handle, ServerState};
use crate::terms::{Terms, deadline_in, time_left};
use std::alloc::Global;
use std::cell::RefCell;
use std::io;
use std::io::{Error, ErrorKind, Read, Write};
use std::net::{Shutdown, TcpStream};
use std::time::{Duration, Instant};

/// How often a system call is tried, at most, if signals interrupt it.
const TRIES: u32 = 1_000;

/// Seconds for which a client may take none of the bytes that it is sent.
const SEND_SECONDS: u64 = 60;

/// Seconds after which a write looks how long it has waited.
const LOOK_SECONDS: u64 = 1;

/// Bytes that are read and dropped, at most, after the last answer.
const DRAINED: usize = 1_048_576;

/// Seconds for which bytes are read and dropped, at most.
const DRAIN_SECONDS: u64 = 2;

/// Shows that a connection was told to send what it held back. A `Connection` alone makes one.
#[derive(Drop)]
pub struct Released(());

/// What `converse` reports to the connection.
pub trait Connection {
    /// Notes that the client has its seat from now on.
    fn sit(&self);

    /// Sends the answers that are held back. It is called before the caller waits for something
    /// that may take a while.
    fn release(&self) -> Released;
}

/// The socket of a connection. A call that is interrupted is made again, and a write that waits fails
/// after a minute.
#[derive(Clone, Copy, Drop)]
struct Socket<'a, R: Handle> {
    clock: &'a R,
    stream: &'a TcpStream,
}

impl<R: Handle> Socket<'_, R> {
    /// Whether a write that failed with this fault is tried again. It is if a signal interrupted
    /// it, or if it waited in vain and `deadline` has not come.
    fn is_retried(&self, fault: &Error, deadline: Instant) -> bool {
        match fault.kind() {
            ErrorKind::Interrupted => true,
            ErrorKind::WouldBlock => time_left(self.clock, deadline).is_ok(),
            _ => false,
        }
    }

    /// Reads and drops bytes until the client has shut its sending side, or has sent 1 MiB. Fails
    /// if a read fails, or if `deadline` comes before that.
    fn drain(mut self, deadline: Instant) -> io::Result<()> {
        let mut bytes = [0; 4_096];
        let mut drained = 0;
        while drained < DRAINED {
            self.stream
                .set_read_timeout(Some(time_left(self.clock, deadline)?))?;
            match self.read(&mut bytes)? {
                0 => break,
                count => drained += count,
            }
        }
        Ok(())
    }
}

impl<R: Handle> Read for Socket<'_, R> {
    /// Reads bytes, and returns how many: 0 at the end of the input. Reads again if a signal
    /// interrupts it. Fails after 1,000 tries.
    fn read(&mut self, bytes: &mut [u8]) -> io::Result<usize> {
        let mut stream = self.stream;
        for _ in 0..TRIES {
            match stream.read(bytes) {
                Err(fault) if fault.kind() == ErrorKind::Interrupted => {}
                read => return read,
            }
        }
        Err(Error::from(ErrorKind::Interrupted))
    }
}

impl<R: Handle> Write for Socket<'_, R> {
    /// Writes bytes, and returns how many were taken. Tries again if a signal interrupts it, or if
    /// the client takes no byte. Fails after a minute, or after 1,000 tries.
    fn write(&mut self, bytes: &[u8]) -> io::Result<usize> {
        let mut stream = self.stream;
        let deadline = deadline_in(self.clock, SEND_SECONDS)?;
        for _ in 0..TRIES {
            match stream.write(bytes) {
                Err(fault) if self.is_retried(&fault, deadline) => {}
                written => return written,
            }
        }
        Err(Error::from(ErrorKind::TimedOut))
    }

    /// Flushes the socket, which holds nothing back.
    fn flush(&mut self) -> io::Result<()> {
        let mut stream = self.stream;
        stream.flush()
    }
}

/// The two sides of a connection: its lines and its answers. Answers are held back until the next
/// bytes are read, so that all of them go out in one write, or until they are released.
#[derive(Drop)]
pub struct Link<'a, R: Handle> {
    terms: Terms<'a, R>,
    socket: Socket<'a, R>,
    outbox: RefCell<Outbox<Socket<'a, R>>>,
}

impl<'a, R: Handle> Link<'a, R> {
    /// Makes the reader and the outbox of a new connection. From here on the client has ten seconds
    /// to take a seat. Sets that a write waits for a second at a time. Fails if that, the clock or
    /// the allocation of the outbox fails.
    pub fn new(
        alloc: Global,
        server: &'a ServerState<R>,
        stream: &'a TcpStream,
    ) -> io::Result<Link<'a, R>> {
        // Answers are sent even if the socket can't be set to send them at once.
        let _ = stream.set_nodelay(true);
        stream.set_write_timeout(Some(Duration::from_secs(LOOK_SECONDS)))?;
        let socket = Socket {
            clock: &server.host.rt,
            stream,
        };
        Ok(Link {
            terms: Terms::new(server)?,
            socket,
            outbox: RefCell::new(Outbox::new(alloc, socket)?),
        })
    }

    /// Returns whether the client has a seat, waits for one, or waits with a long first line.
    pub fn standing(&self) -> Standing {
        self.terms.standing()
    }

    /// Sends the answers that are held back. Fails if the write fails, or if it has failed before.
    fn send(&self) -> io::Result<()> {
        match self.outbox.try_borrow_mut() {
            Ok(mut outbox) => outbox.release(),
            Err(_) => Err(Error::from(ErrorKind::Other)),
        }
    }

    /// Sends the answers that are held back, and shuts the sending side. Then reads and drops what
    /// the client still sends, for 2 seconds or 1 MiB at most. A socket that is closed with unread
    /// bytes resets the connection, and the client may lose its last answer. Fails if one of these
    /// steps fails.
    pub fn shut_down(&self) -> io::Result<()> {
        self.send()?;
        self.socket.stream.shutdown(Shutdown::Write)?;
        let deadline = deadline_in(self.socket.clock, DRAIN_SECONDS)?;
        self.socket.drain(deadline)
    }
}

impl<R: Handle> Connection for Link<'_, R> {
    /// Notes that the client has its seat: the limits of a seated client hold from now on.
    fn sit(&self) {
        self.terms.sit();
    }

    /// Sends the answers that are held back. If that fails, the next write and the next read fail
    /// too.
    fn release(&self) -> Released {
        // The outbox is broken if it fails, so the next write and the next read fail too.
        let _ = self.send();
        Released(())
    }
}

/// Reads the bytes of a connection, after it sends what is held back.
impl<R: Handle> Read for &Link<'_, R> {
    /// Sends the answers that are held back, and then reads bytes, and returns how many. Fails if
    /// either fails, if the client has no time left, or if too many clients hold a long first line.
    fn read(&mut self, bytes: &mut [u8]) -> io::Result<usize> {
        self.send()?;
        let mut socket = self.socket;
        self.terms.allow(socket.stream)?;
        let count = socket.read(bytes)?;
        self.terms.came(count);
        Ok(count)
    }
}

/// Writes answers, which are held back.
impl<R: Handle> Write for &Link<'_, R> {
    /// Holds bytes back, to be sent later, and returns how many it took. Sends what is held back if
    /// there is no room for more. Fails if that fails, or if the outbox is broken.
    fn write(&mut self, bytes: &[u8]) -> io::Result<usize> {
        match self.outbox.try_borrow_mut() {
            Ok(mut outbox) => outbox.write(bytes),
            Err(_) => Err(Error::from(ErrorKind::Other)),
        }
    }

    /// Sends nothing: answers stay held back. Fails if the outbox is broken.
    fn flush(&mut self) -> io::Result<()> {
        match self.outbox.try_borrow_mut() {
            Ok(mut outbox) => outbox.flush(),
            Err(_) => Err(Error::from(ErrorKind::Other)),
        }
    }
}
