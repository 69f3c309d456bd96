//! The program `cam6`: command lines on standard input, or lines of events, one line of an answer
//! for each on standard output; or command lines of many users over connections.
//!
//! Contract: `report_fault` and `end_session` end with the exit statuses of `cam6_cli`, for a host
//! that can't go on, and for each end of a session. `refuse` of `cam6_arguments` ends for arguments
//! that ask for nothing. `cam6_cli` says what the arguments ask for, and what is written for what
//! is read. `cam6_server` says what `serve_net` writes to users over connections.
//!
//! Stands on: `cam6_cli` and `cam6_arguments`; `cam6_session`, `cam6_server` and `cam6_planes` for
//! what it hands on.
//!
//! Read next: `cam6_cli`.
#![tactic(auto)]

ghost use Rattle.std.specs.Prelude.{◌≡◌, MatchOption};
ghost use Rattle.std.specs.Process.{exit_status};
ghost use Rattle.cam6_cli.specs.Statuses.{failure, fault as fault_told};

use cam6_arguments::{NO_MEMORY, Program, Refused, read_arguments, refuse, report_failure};
use cam6_cli::{Options, Sharing, failure_of, fault_of, options, replay_streams, serve_streams};
use cam6_planes::Side;
use cam6_server::{Fault, Handle, Serving, serve_net};
use cam6_session::End;
use std::env::Env;
use std::io;
use std::io::{BufReader, IsTerminal};
use std::net::{Ipv4Addr, Net, TcpListener, TcpStream};
use std::process::ExitCode;

/// The greeting if commands are typed.
const COMMANDS_ARE_TYPED: &str = "\
cam6: type one command per line, such as {\"do\":\"rules\"}. Ctrl-D ends. Commands: docs/MANUAL.md. Faults: docs/ERRORS.md.\n";

/// The greeting if events are typed.
const EVENTS_ARE_TYPED: &str = "\
cam6: type one event per line, such as {\"event\":\"evict\"}. Ctrl-D ends. Events: docs/SERVER.md. Faults: docs/ERRORS.md.\n";

/// Runs the program and returns its exit status. The host's runtime has a network for `cam6 serve`.
fn main(rt: HostRuntime) -> ExitCode {
    run(
        &rt,
        &|serving: Serving, port: u16| serve_over_network(rt, serving, port),
    )
}

/// Reads the arguments, and does what they ask for. The closure `served` serves users over a
/// network, with these settings and at this port. Returns the exit status. Prints help, or why the
/// arguments are refused.
fn run<R: Env + Input + Print + Eprint + AllocGlobal, F: Fn(Serving, u16) -> ExitCode>(
    rt: &R,
    served: &F,
) -> ExitCode
where
    R::Reader: IsTerminal,
    requires { F.IsAlwaysCallable served.now }
{
    let options = match options_given(rt) {
        Ok(options) => options,
        Err(refused) => return refuse(rt, Program::Cam6, &refused),
    };
    match options {
        Options::Alone { limit } => serve_one_machine(rt, limit),
        Options::Replay { sharing, limit } => replay_events(rt, sharing, limit),
        Options::Serve { serving, port } => served(serving, port),
    }
}

/// Reads the arguments. Returns what they ask for, or why they are refused: also for help, or if an
/// allocation fails.
fn options_given<R: Env + AllocGlobal>(rt: &R) -> Result<Options, Refused> {
    let words = read_arguments(rt, Program::Cam6)?;
    options(rt.alloc(), words.as_slice())
}

/// Writes `text` on standard error if the input is typed at a terminal.
fn greet(rt: &impl Eprint, input: &impl IsTerminal, text: &str) {
    if input.is_terminal() {
        // The session goes on if the greeting can't be written.
        let _ = rt.eprint(text);
    }
}

/// Does the commands of standard input on one blank machine whose largest side is `limit`, and
/// writes a reply for each to standard output. Returns the exit status, and prints why if it isn't
/// 0.
fn serve_one_machine<R: Input + Print + Eprint + AllocGlobal>(rt: &R, limit: Side) -> ExitCode
where
    R::Reader: IsTerminal,
{
    let input = rt.reader();
    greet(rt, &input, COMMANDS_ARE_TYPED);
    let Ok(mut reader) = BufReader::new(rt.alloc(), input) else {
        return report_failure(rt, NO_MEMORY, Program::Cam6.no_memory());
    };
    let end = serve_streams(rt.alloc(), limit, &mut reader, &mut io::writer(rt));
    end_session(rt, end)
}

/// Does the events of standard input, and writes an outcome for each to standard output. Each user
/// has a blank machine whose largest side is `limit`. Returns the exit status, and prints why if it
/// isn't 0.
fn replay_events<R: Input + Print + Eprint + AllocGlobal>(
    rt: &R,
    sharing: Sharing,
    limit: Side,
) -> ExitCode
where
    R::Reader: IsTerminal,
{
    let input = rt.reader();
    greet(rt, &input, EVENTS_ARE_TYPED);
    let Ok(mut reader) = BufReader::new(rt.alloc(), input) else {
        return report_failure(rt, NO_MEMORY, Program::Cam6.no_memory());
    };
    let end = replay_streams(rt.alloc(), sharing, limit, &mut reader, &mut io::writer(rt));
    end_session(rt, end)
}

/// Serves users over connections to this port of the address 127.0.0.1. Returns the exit status,
/// and prints why if it isn't 0.
fn serve_over_network<
    R: Handle + Net<Listener = TcpListener, Stream = TcpStream> + Eprint + Send + Sync + 'static,
>(rt: R, serving: Serving, port: u16) -> ExitCode {
    let Ok(listener) = TcpListener::bind(&rt, (Ipv4Addr::LOCALHOST, port)) else {
        return report_fault(&rt, Fault::Network);
    };
    // Whoever connects from here on is answered. The host goes on if this line can't be written.
    let _ = eprintln!(&rt; "listening on 127.0.0.1:{port}");
    match serve_net(rt, listener, &serving) {
        Ok(()) => ExitCode::SUCCESS,
        Err(fault) => report_fault(&rt, fault),
    }
}

/// Prints why the host can't go on to standard error, and returns its exit status.
fn report_fault(rt: &impl Eprint, fault: Fault) -> ExitCode
    ensures { exit_status result ≡ (fault_told fault).0 }
{
    let (status, text) = fault_of(fault);
    report_failure(rt, status, text)
}

/// Returns the exit status of a session, which is 0 if all lines were answered. If the session
/// failed, prints why to standard error.
fn end_session(rt: &impl Eprint, end: End) -> ExitCode
    ensures { MatchOption (failure end) (exit_status result ≡ 0)
        (λ told. exit_status result ≡ told.0) }
{
    match failure_of(end) {
        Some((status, text)) => report_failure(rt, status, text),
        None => ExitCode::SUCCESS,
    }
}
