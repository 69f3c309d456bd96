//! Connections, each in a thread of its own.

use crate::connections::{Visit, converse};
use crate::guests::Standing;
use crate::states::{Handle, HostState, ServerState};
use crate::streams::{Connection, Link};
use cam6_session::End;
use std::io;
use std::io::BufReader;
use std::net::TcpStream;
use std::sync::Arc;
use std::thread::spawn;

/// Starts a thread that serves a connection. Closes the connection at once if too many clients wait
/// for a seat, or if there is no thread or no memory for it.
pub fn receive<R: Handle + Send + Sync + 'static>(server: &Arc<ServerState<R>>, stream: TcpStream) {
    if !server.enter() {
        return;
    }
    if start_connection_thread(server, stream).is_none() {
        server.leave(Standing::Waiting);
    }
}

/// Starts the thread that serves a connection, which nobody joins. If there is no thread or no
/// memory for it, closes the connection and returns `None`.
fn start_connection_thread<R: Handle + Send + Sync + 'static>(
    server: &Arc<ServerState<R>>,
    stream: TcpStream,
) -> Option<()> {
    let theirs = Arc::try_clone(server).ok()?;
    let thread = spawn(&server.host.rt, move || serve_and_close(&theirs, stream)).ok()?;
    // Its memory is freed when it ends.
    drop(thread);
    Some(())
}

/// Serves a connection to its end, closes it, and then counts its client as gone.
fn serve_and_close<R: Handle>(server: &ServerState<R>, stream: TcpStream) {
    let standing = serve_to_end(server, &stream).unwrap_or(Standing::Waiting);
    drop(stream);
    server.leave(standing);
}

/// Serves a connection to its end, and sends what is held back. Returns whether its client then had
/// a seat, waited for one, or waited with a long first line. Fails only before anything is read.
fn serve_to_end<'a, R: Handle>(
    server: &'a ServerState<R>,
    stream: &'a TcpStream,
) -> io::Result<Standing> {
    let link = Link::new(server.host.rt.alloc(), server, stream)?;
    let visit = serve_connection(&server.host, &link)?;
    if needs_drain(visit) {
        // The connection is closed next, so a failure here changes nothing.
        let _ = link.shut_down();
    } else {
        link.release();
    }
    Ok(link.standing())
}

/// Answers the lines of a connection, by `converse`, and returns how it went. Fails if there is no
/// memory to read any.
fn serve_connection<R: Handle>(host: &HostState<R>, link: &Link<'_, R>) -> io::Result<Visit> {
    let mut reader = BufReader::new(host.rt.alloc(), &*link)?;
    Ok(converse(host, &mut reader, &mut &*link, link))
}

/// Whether the socket has to be drained before it is closed, so that unread lines don't cost the
/// client its last answer. True after a refusal, and after a session that ran out of memory or
/// reads.
fn needs_drain(visit: Visit) -> bool {
    match visit {
        Visit::Refused => true,
        Visit::Served(End::NoMemory { .. } | End::TurnBound) => true,
        Visit::Served(End::EndOfInput | End::ReadFault | End::WriteFault) => false,
        Visit::Silent(_) | Visit::Unheard => false,
    }
}
