//! A server of pages: a thread for each connection.

use crate::states::{Handle, ServerState};
use crate::visitors::Visitors;
use crate::visits::receive;
use cam6_web_cli::{Fault, Options};
use cam6_web_router::{Hosts, Names, Router};
use std::alloc::AllocError;
use std::io::Error;
use std::net::{Net, TcpListener, TcpStream};
use std::sync::{Arc, Condvar, Mutex};
use std::thread::sleep;
use std::time::Duration;

/// Milliseconds between a connection that could not be accepted and the next try.
const PAUSE: u64 = 20;

/// How many failures are not reported after one that is: those of a minute.
const QUIET: u32 = 3_000;

/// Answers the connections of a listener. Closes it after as many as `options.requests` says, or
/// never for 0, and waits until all connections are over. Fails only with `NoMemory`, before the
/// first connection is accepted.
///
/// Accepting fails if the system has no file left, for example. The server then tries again without
/// end, and reports that on standard error once a minute.
pub fn serve_pages<
    R: Handle + Net<Listener = TcpListener, Stream = TcpStream> + Eprint + Send + Sync + 'static,
>(rt: R, listener: TcpListener, options: Options) -> Result<(), Fault> {
    let requests = options.requests;
    let Ok(server) = open(rt, options) else {
        return Err(Fault::NoMemory);
    };
    accept(rt, &server, listener, requests);
    server.wait_for_connections();
    Ok(())
}

/// Makes the state that the threads of a server share. Opens no socket, and starts no thread.
fn open<R: Handle>(rt: R, options: Options) -> Result<Arc<ServerState<R>>, AllocError> {
    let alloc = rt.alloc();
    let mut names = Names::new(alloc, options.port)?;
    for name in options.names.as_slice() {
        names.add(name.as_str())?;
    }
    let hosts = Hosts::new(alloc, options.hosts.len())?;
    let server = ServerState {
        rt,
        router: Router { names, hosts },
        hosts: options.hosts,
        limit: options.limit,
        visitors: Mutex::new(Visitors::new(options.connections)),
        left: Condvar::new(),
    };
    Ok(Arc::new(alloc, server)?)
}

/// Accepts `requests` connections, or connections without end if the number is 0. Starts a thread
/// for each. Then closes the listener, and doesn't wait for the threads.
fn accept<
    R: Handle + Net<Listener = TcpListener, Stream = TcpStream> + Eprint + Send + Sync + 'static,
>(rt: R, server: &Arc<ServerState<R>>, listener: TcpListener, requests: u64) {
    let mut accepted: u64 = 0;
    let mut quiet: u32 = 0;
    for stream in listener.incoming() {
        match stream {
            Ok(stream) => {
                receive(server, stream);
                accepted = accepted.wrapping_add(1);
                if accepted == requests {
                    break;
                }
            }
            Err(error) => {
                quiet = report(&rt, &error, quiet);
                sleep(&rt, Duration::from_millis(PAUSE));
            }
        }
    }
}

/// Prints a failure of accepting to standard error if `quiet` is 0. Returns how many of the next
/// failures are not to be printed.
fn report(rt: &impl Eprint, error: &Error, quiet: u32) -> u32 {
    if quiet > 0 {
        return quiet - 1;
    }
    // The server goes on if standard error fails.
    let _ = eprintln!(rt; "cam6_web: cannot accept a connection, trying again: {error}");
    QUIET
}
