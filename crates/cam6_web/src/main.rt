//! The program `cam6_web`: the page of a machine, for browsers on this machine, and a socket for each
//! page.
//!
//! Contract: `report_fault` ends with the exit statuses of `cam6_web_cli`, which says what the arguments
//! ask for, and `refuse` of `cam6_arguments` ends for arguments that ask for nothing. `cam6_web_router`
//! says what each request is answered, and `cam6_web_bridge` what is carried between a page and its
//! host. The host is a machine in this process (`cam6_web_machine`) or is at the other end of a
//! connection. No more connections are open than there is room for (`specs/Visitors.antt`, an
//! invariant of the counts under a lock).
//!
//! No clause says how long anything may wait, that threads are joined, or which bytes a socket has.
//! `links` bounds the time of each call: ten seconds for a request, a minute for a message that is
//! sent, half a minute for silence.
//!
//! Stands on: `cam6_arguments`, `cam6_web_cli`, `cam6_web_router`, `cam6_web_bridge`,
//! `cam6_web_machine`; `cam6_planes`, for what it hands on.
//!
//! Read next: `visitors`, the counts of connections; `states`, what the threads share; `visits`, a
//! connection; `links`, its bytes; `servers`, all of them.
#![tactic(auto)]

mod links;
mod servers;
mod states;
mod visitors;
mod visits;

ghost use Rattle.std.specs.Prelude.{◌≡◌};
ghost use Rattle.std.specs.Process.{exit_status};
ghost use Rattle.cam6_web_cli.specs.Statuses.{fault as fault_told};

use cam6_arguments::{Program, Refused, read_arguments, refuse, report_failure};
use cam6_web_cli::{Fault, Options, fault_of, options_of_web};
use servers::serve_pages;
use states::Handle;
use std::env::Env;
use std::net::{Ipv4Addr, Net, TcpListener, TcpStream};
use std::process::ExitCode;

/// Runs the program on the host, and returns its exit status.
fn main(rt: HostRuntime) -> ExitCode {
    run(rt)
}

/// Reads the arguments, does what they ask for, and returns the exit status.
fn run<
    R: Handle
        + Net<Listener = TcpListener, Stream = TcpStream>
        + Env
        + Print
        + Eprint
        + Send
        + Sync
        + 'static,
>(rt: R) -> ExitCode {
    match options_given(&rt) {
        Ok(options) => serve_over_network(rt, options),
        Err(refused) => refuse(&rt, Program::Web, &refused),
    }
}

/// Reads the program's arguments. Returns its options, or why the arguments are refused.
fn options_given<R: Env + AllocGlobal>(rt: &R) -> Result<Options, Refused> {
    let words = read_arguments(rt, Program::Web)?;
    options_of_web(rt.alloc(), words.as_slice())
}

/// Serves pages at a port of the address 127.0.0.1. Returns the exit status.
fn serve_over_network<
    R: Handle + Net<Listener = TcpListener, Stream = TcpStream> + Eprint + Send + Sync + 'static,
>(rt: R, options: Options) -> ExitCode {
    let port = options.port;
    let Ok(listener) = TcpListener::bind(&rt, (Ipv4Addr::LOCALHOST, port)) else {
        return report_fault(&rt, Fault::Network);
    };
    // Whoever connects from here on is answered. The server goes on if this line can't be written.
    let _ = eprintln!(&rt; "listening on http://127.0.0.1:{port}/");
    match serve_pages(rt, listener, options) {
        Ok(()) => ExitCode::SUCCESS,
        Err(fault) => report_fault(&rt, fault),
    }
}

/// Prints why the server can't go on to standard error, and returns the exit status for that.
fn report_fault(rt: &impl Eprint, fault: Fault) -> ExitCode
    ensures { exit_status result ≡ (fault_told fault).0 }
{
    let (status, text) = fault_of(fault);
    report_failure(rt, status, text)
}
