//! Connections, each in a thread of its own.

use crate::links::Link;
use crate::states::{Handle, ServerState};
use crate::visitors::ClientState;
use cam6_web_bridge::{Away, HostLines, bridge, turn_away};
use cam6_web_machine::PrivateMachine;
use cam6_web_router::{Opening, Site, Way, greet};
use std::io;
use std::io::{BufReader, ErrorKind};
use std::net::{Net, TcpListener, TcpStream};
use std::sync::Arc;
use std::thread::spawn;
use std::time::Duration;

/// Seconds within which a host has to take a connection.
const CONNECT_SECONDS: u64 = 10;

/// Seconds for which a host may say nothing while its answer is awaited.
const ANSWER_SECONDS: u64 = 600;

/// Seconds for which a host may take none of the bytes that it is sent.
const HAND_SECONDS: u64 = 60;

/// Bytes that one read of a host asks for.
const READ_SIZE: usize = 65_536;

/// Starts a thread that answers a connection. Closes it at once if too many connections wait for an
/// answer, or if there is no thread or no memory for it.
pub fn receive<R: Handle + Net<Listener = TcpListener, Stream = TcpStream> + Send + Sync + 'static>(
    server: &Arc<ServerState<R>>,
    stream: TcpStream,
) {
    if !server.enter() {
        return;
    }
    if start_connection_thread(server, stream).is_none() {
        server.leave(ClientState::Greeted);
    }
}

/// Starts the thread that answers a connection, which nobody joins. Returns `None`, and closes the
/// connection, if there is no thread or no memory for it.
fn start_connection_thread<
    R: Handle + Net<Listener = TcpListener, Stream = TcpStream> + Send + Sync + 'static,
>(server: &Arc<ServerState<R>>, stream: TcpStream) -> Option<()> {
    let theirs = Arc::try_clone(server).ok()?;
    let thread = spawn(&server.rt, move || attend(&theirs, stream)).ok()?;
    // Its memory is freed when it ends.
    drop(thread);
    Some(())
}

/// Answers a connection, closes it, and then removes it from the counts.
fn attend<R: Handle + Net<Listener = TcpListener, Stream = TcpStream>>(
    server: &ServerState<R>,
    stream: TcpStream,
) {
    let standing = visit(server, &stream);
    drop(stream);
    server.leave(standing);
}

/// Answers a connection to its end, and doesn't close it. Returns how it is counted then: as one
/// that waits for an answer, or as one with a socket.
///
/// A request for a socket is counted before it is answered, so that the answer says whether there
/// is room.
fn visit<'a, R: Handle + Net<Listener = TcpListener, Stream = TcpStream>>(
    server: &'a ServerState<R>,
    stream: &'a TcpStream,
) -> ClientState {
    let Ok(link) = Link::new(&server.rt, stream) else {
        return ClientState::Greeted;
    };
    let standing = if link.asks_for_socket() && server.open() {
        ClientState::Bridged
    } else {
        ClientState::Greeted
    };
    match answer_requests(server, &link, standing == ClientState::Bridged) {
        Ok(Some(opening)) => converse(server, &link, opening),
        Ok(None) => {}
        Err(_) => return standing,
    }
    // The connection is closed next, so a failure here changes nothing.
    let _ = link.shut_down();
    standing
}

/// Answers the requests of a connection. Returns where its socket leads, and the bytes read after
/// the handshake, if the last answer opened a socket. Otherwise returns `None`. `has_room` says
/// whether one may be opened. Fails as `greet` does.
fn answer_requests<R: Handle>(
    server: &ServerState<R>,
    link: &Link<'_, R>,
    has_room: bool,
) -> io::Result<Option<Opening>> {
    let alloc = server.rt.alloc();
    let mut site = Site::new(alloc, &server.router, has_room);
    greet(&server.rt, alloc, &mut site, &mut &*link, &mut &*link)
}

/// Carries the messages of a page to its own machine or to a host, as its socket leads, until the
/// bridge ends. If neither can be had, turns the page away.
fn converse<R: Handle + Net<Listener = TcpListener, Stream = TcpStream>>(
    server: &ServerState<R>,
    link: &Link<'_, R>,
    opening: Opening,
) {
    let Opening { way, unread } = opening;
    match way {
        Way::Own => bridge_to_machine(server, link, unread),
        Way::Host(number) => bridge_to_host(server, link, unread, number),
    }
}

/// Carries the messages of a page to a machine of its own, until the bridge ends. If there is no
/// memory for one, turns the page away. `unread` has the bytes that were read after the handshake.
fn bridge_to_machine<R: Handle>(server: &ServerState<R>, link: &Link<'_, R>, unread: Vec<u8>) {
    let alloc = server.rt.alloc();
    match PrivateMachine::new(alloc, server.limit) {
        Ok(mut machine) => {
            bridge(alloc, link, unread, &mut machine);
        }
        Err(_) => turn_away(alloc, link, unread, Away::NoMemory),
    }
}

/// Carries the messages of a page to the host of this number, counted from 1, until the bridge
/// ends. Turns the page away if the host can't be reached, or if memory runs out. `unread` has the
/// bytes that were read after the handshake.
fn bridge_to_host<R: Handle + Net<Listener = TcpListener, Stream = TcpStream>>(
    server: &ServerState<R>,
    link: &Link<'_, R>,
    unread: Vec<u8>,
    number: usize,
) {
    let alloc = server.rt.alloc();
    let Ok(stream) = reach(server, number) else {
        return turn_away(alloc, link, unread, Away::NoHost);
    };
    let Ok(reader) = BufReader::with_capacity(alloc, READ_SIZE, &stream) else {
        return turn_away(alloc, link, unread, Away::NoMemory);
    };
    let mut host = HostLines::new(alloc, reader, &stream);
    bridge(alloc, &link.with_host(&stream), unread, &mut host);
}

/// Connects to the host of this number, counted from 1, within ten seconds. Returns the stream,
/// whose reads and writes have time limits. Fails with `NotFound` if there is no such host.
fn reach<R: Handle + Net<Listener = TcpListener, Stream = TcpStream>>(
    server: &ServerState<R>,
    number: usize,
) -> io::Result<TcpStream> {
    let Some(address) = server.hosts.get(number.wrapping_sub(1)) else {
        return Err(io::Error::from(ErrorKind::NotFound));
    };
    let timeout = Duration::from_secs(CONNECT_SECONDS);
    let stream = TcpStream::connect_timeout(&server.rt, address, timeout)?;
    stream.set_nodelay(true)?;
    stream.set_read_timeout(Some(Duration::from_secs(ANSWER_SECONDS)))?;
    stream.set_write_timeout(Some(Duration::from_secs(HAND_SECONDS)))?;
    Ok(stream)
}
