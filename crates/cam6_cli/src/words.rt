//! The words of the command line.
ghost use Rattle.std.specs.Prelude.{◌≡◌, ◌≤◌, [], IfErr, IfOk, IsSome, MatchResult, Some, false};
ghost use Rattle.std.specs.Prelude.{map, string_bytes};
ghost use Rattle.clap.specs.Words.{App, app_of, fault_of, found_of, rows_of, rule_of};
ghost use Rattle.clap.specs.Words.{subcommand_of, subcommand_rows_of};
ghost use Rattle.cam6_arguments.specs.Options.{AreSides, TextsAt};
ghost use Rattle.cam6_arguments.specs.Refusals.{EndsWith, Refuses};
ghost use Rattle.cam6_arguments.specs.Values.{number_at as number_told, side_at as side_told};
ghost use Rattle.cam6_cli.specs.CommandLine.{HasMode, IsProgram, mode_of};
ghost use Rattle.cam6_cli.specs.CommandLine.{replay as replay_of, serve as serve_of, served_at};
ghost use Rattle.cam6_cli.specs.CommandLine.{shared_at};
ghost use Rattle.cam6_cli.specs.CommandLine.{users_option as option_of_users};
ghost use Rattle.cam6_cli.specs.CommandLine.{boards_option as option_of_boards};
ghost use Rattle.cam6_cli.specs.CommandLine.{cache_option as option_of_tables};
ghost use Rattle.cam6_cli.specs.CommandLine.{port_option as option_of_ports};
ghost use Rattle.cam6_cli.specs.CommandLine.{connections_option as option_of_connections};
ghost use Rattle.cam6_cli.specs.CommandLine.{idle_option as option_of_silence};
ghost use Rattle.cam6_cli.specs.Slips.{slip, told_of as what_is_told};

use crate::modes::{Options, Sharing};
use crate::slips::{hint_of, slip_of};
use cam6_arguments::{
    MAX_PORT, Program, Refused, new_command, number_at, number_option, refusal, side_at,
    side_option,
};
use cam6_cache::MAX_CAPACITY;
use cam6_core::{MAX_BOARDS, MAX_USERS};
use cam6_planes::Side;
use cam6_server::Serving;
use clap::{Arg, ArgMatches, Command};
use std::alloc::{AllocError, Global};

/// The most seconds for which a silent client may keep its seat.
const MAX_IDLE: u64 = 4_294_967_295;

/// What `--side` is.
const SIDE_TEXT: &str = "The largest side that a machine may have";

/// What the statuses mean, and where more is said.
const PROGRAM_TEXT: &str = "\
Exit statuses: 0 the input ended, or help or the version was asked for; 2 the arguments are refused;
3 a read failed; 4 a write failed; 5 out of memory; 6 turn bound reached; 7 network failed; 8 no
thread for a board. For each but 0 a line on standard error says why.

A line to try: a blank machine has no rules.
  echo '{\"do\":\"rules\"}' | cam6
docs/MANUAL.md has commands and rules, docs/SERVER.md users and events, docs/ERRORS.md the numbers of
faults, docs/GALLERY.md rules to look at.";

/// What `alone` answers.
const ALONE_TEXT: &str = "\
Each line is a command as JSON, and gets one line as its reply. The machine is blank at first. The
program ends with its input. At a terminal Ctrl-D ends it.

Exit statuses: 0 the input ended; 2 the arguments are refused; 3 a read failed; 4 a write failed; 5 out
of memory; 6 turn bound reached.

A line to try: row 0 of plane 0, at side 128.
  echo '{\"do\":\"row\",\"plane\":0,\"row\":0}' | cam6 alone --side 128";

/// What `replay` answers.
const REPLAY_TEXT: &str = "\
Each line is an event as JSON: a user asks, a board leases the command, does a band of rows, fails. One
line reports its result. Users are numbered from 1, boards from 0.

Exit statuses: 0 the input ended; 2 the arguments are refused; 3 a read failed; 4 a write failed; 5 out
of memory; 6 turn bound reached.

A line to try: user 1 asks for the names of their rules, which needs no board.
  echo '{\"event\":\"ask\",\"user\":1,\"command\":{\"do\":\"rules\"}}' | cam6 replay";

/// What is said on a connection, with a session to try.
const SEATS_TEXT: &str = "\
The first line of a connection takes the seat of a user, within ten seconds. Users are numbered from
1:
  {\"seat\":1}
The reply is {\"ok\":\"seat\"}, or {\"fault\":80} if the user has a connection, or {\"fault\":81} if there is no
such user. Each later line is a command, as for `alone`, and gets one line as its reply.

Exit statuses: 0 all connections were served; 2 the arguments are refused; 5 out of memory; 7 network
failed; 8 no thread for a board.

A session to try, with one command, which lists the rules:
  cam6 serve &
  printf '{\"seat\":1}\\n{\"do\":\"rules\"}\\n' | nc -N 127.0.0.1 6006";

/// Returns what the words of the command line ask for: the mode and its settings. The first word is
/// the program's name. Else returns why they are refused: they ask for help, clap refuses them, or
/// an allocation fails.
pub fn options(alloc: Global, words: &[String]) -> Result<Options, Refused>
    // For a simple command, clap's matches and the kinds of its errors are functions of the words.
    ensures mode { IfOk result (λ options. (app : App) × IsProgram app
        × HasMode options (mode_of (subcommand_of app (map string_bytes words.now)))) }
    ensures refused { (app : App) × IsProgram app × MatchResult result
        (λ _. fault_of app (map string_bytes words.now) ≡ [])
        (Refuses (fault_of app (map string_bytes words.now)) ⊥) }
    // The hint about words that are often meant otherwise stands at the end.
    ensures slip { IfErr result
        (λ refused. EndsWith refused (what_is_told (slip (map string_bytes words.now)))) }
{
    let Ok(command) = program(alloc) else {
        return Err(Refused::NoMemory);
    };
    match command.try_get_matches_from(words) {
        Ok(matches) => Ok(mode_options(&matches)),
        Err(error) => Err(refusal(alloc, error, hint_of(slip_of(words)))),
    }
}

/// Returns what the program is to do, from clap's matches of the whole command line, which clap has
/// accepted. Without a subcommand it is `alone` at side 256.
fn mode_options(matches: &ArgMatches<'_>) -> Options
    requires { IsSome (mode_of (subcommand_rows_of matches.now)) }
    ensures { HasMode result (mode_of (subcommand_rows_of matches.now)) }
{
    if let Some(alone) = matches.subcommand_matches("alone") {
        return Options::Alone {
            limit: side_given(alone),
        };
    }
    if let Some(replay) = matches.subcommand_matches("replay") {
        return replay_options(replay);
    }
    if let Some(serve) = matches.subcommand_matches("serve") {
        return serve_options(serve);
    }
    Options::Alone { limit: Side::S256 }
}

/// Returns what `replay` is to do, from the matches of its options, which clap has accepted.
fn replay_options(matches: &ArgMatches<'_>) -> Options
    requires { IsSome (shared_at (rows_of (found_of matches.now))) }
    ensures { HasMode result (shared_at (rows_of (found_of matches.now))) }
{
    Options::Replay {
        sharing: Sharing {
            users: number_given(matches, "users", 1, MAX_USERS as u64) as usize,
            boards: number_given(matches, "boards", 1, MAX_BOARDS as u64) as usize,
            cache: number_given(matches, "cache", 1, MAX_CAPACITY as u64) as usize,
        },
        limit: side_given(matches),
    }
}

/// Returns what `serve` is to do, from the matches of its options, which clap has accepted.
fn serve_options(matches: &ArgMatches<'_>) -> Options
    requires { IsSome (served_at (rows_of (found_of matches.now))) }
    ensures { HasMode result (served_at (rows_of (found_of matches.now))) }
{
    Options::Serve {
        serving: Serving::new(
            number_given(matches, "users", 1, MAX_USERS as u64) as usize,
            number_given(matches, "boards", 1, MAX_BOARDS as u64) as u8,
            number_given(matches, "cache", 1, MAX_CAPACITY as u64) as usize,
            side_given(matches),
            number_given(matches, "connections", 0, u64::MAX),
            number_given(matches, "idle", 0, MAX_IDLE) as u32,
        ),
        port: number_given(matches, "port", 1, MAX_PORT) as u16,
    }
}

/// Returns the side at `--side`, the largest that a machine may have. The option must be there, and
/// have one of the three sides.
fn side_given(matches: &ArgMatches<'_>) -> Side
    requires { IsSome (side_told (rows_of (found_of matches.now))) }
    ensures { side_told (rows_of (found_of matches.now)) ≡ Some result }
{
    let Some(side) = side_at(matches) else {
        unreachable!()
    };
    side
}

/// Returns the number at the option `--name`. It must be there, and from `least` to `most`, both
/// included.
fn number_given(matches: &ArgMatches<'_>, name: &str, least: u64, most: u64) -> u64
    requires { IsSome (number_told name.now least most (rows_of (found_of matches.now))) }
    ensures number { number_told name.now least most (rows_of (found_of matches.now))
        ≡ Some result }
    ensures within { (least ≤ result) × (result ≤ most) }
{
    let Some(number) = number_at(matches, name, least, most) else {
        unreachable!()
    };
    number
}

/// Makes the program's command line for clap: its subcommands and their options. Fails only if an
/// allocation fails.
pub fn program<'a>(alloc: Global) -> Result<Command<'a>, AllocError>
    ensures { IfOk result (λ command. IsProgram (app_of command)) }
{
    let alone = Command::new(alloc, "alone")
        .about("Answers command lines on standard input")
        .after_help(ALONE_TEXT)
        .arg(side_option(alloc, SIDE_TEXT))?;
    let about = "A CAM-6 cellular automata machine; without a command, as `alone`";
    new_command(alloc, Program::Cam6, about, PROGRAM_TEXT)
        .subcommand(alone)?
        .subcommand(replay(alloc)?)?
        .subcommand(serve(alloc)?)
}

/// Makes the subcommand `replay` with its options.
fn replay<'a>(alloc: Global) -> Result<Command<'a>, AllocError>
    ensures { IfOk result (λ command. (sides : TextsAt) × AreSides sides
        × (app_of command ≡ replay_of sides)) }
{
    Command::new(alloc, "replay")
        .about("Plays events from standard input: users who share boards and tables")
        .after_help(REPLAY_TEXT)
        .arg(users_option(alloc))?
        .arg(boards_option(alloc))?
        .arg(cache_option(alloc))?
        .arg(side_option(alloc, SIDE_TEXT))
}

/// Makes the subcommand `serve` with its options.
fn serve<'a>(alloc: Global) -> Result<Command<'a>, AllocError>
    ensures { IfOk result (λ command. (sides : TextsAt) × AreSides sides
        × (app_of command ≡ serve_of sides)) }
{
    Command::new(alloc, "serve")
        .about(
            "Answers command lines over connections to 127.0.0.1: users who share boards and tables",
        )
        .after_help(SEATS_TEXT)
        .arg(port_option(alloc))?
        .arg(users_option(alloc))?
        .arg(boards_option(alloc))?
        .arg(cache_option(alloc))?
        .arg(connections_option(alloc))?
        .arg(idle_option(alloc))?
        .arg(side_option(alloc, SIDE_TEXT))
}

/// Makes `--users`, the number of users, from 1 to 32. It is 4 by default.
fn users_option<'a>(alloc: Global) -> Arg<'a>
    ensures rule { rule_of result ≡ option_of_users }
    ensures global { result.global ≡ false }
{
    number_option(alloc, "users", 1, MAX_USERS as u64, "4").help("Users, each with a machine")
}

/// Makes `--boards`, the number of boards, from 1 to 8. It is 2 by default.
fn boards_option<'a>(alloc: Global) -> Arg<'a>
    ensures rule { rule_of result ≡ option_of_boards }
    ensures global { result.global ≡ false }
{
    number_option(alloc, "boards", 1, MAX_BOARDS as u64, "2").help("Boards that users share")
}

/// Makes `--cache`, the number of tables that are cached at most, from 1 to 64. It is 16 by
/// default.
fn cache_option<'a>(alloc: Global) -> Arg<'a>
    ensures rule { rule_of result ≡ option_of_tables }
    ensures global { result.global ≡ false }
{
    number_option(alloc, "cache", 1, MAX_CAPACITY as u64, "16").help(
        "Compiled tables that are kept",
    )
}

/// Makes `--port`, the port of 127.0.0.1, from 1 to 65,535. It is 6006 by default.
fn port_option<'a>(alloc: Global) -> Arg<'a>
    ensures rule { rule_of result ≡ option_of_ports }
    ensures global { result.global ≡ false }
{
    number_option(alloc, "port", 1, MAX_PORT, "6006").help("The port of 127.0.0.1")
}

/// Makes `--connections`, the number of connections that are served. It is 0 by default, for no
/// end.
fn connections_option<'a>(alloc: Global) -> Arg<'a>
    ensures rule { rule_of result ≡ option_of_connections }
    ensures global { result.global ≡ false }
{
    number_option(alloc, "connections", 0, u64::MAX, "0").help(
        "Connections that are served before the program ends; 0 for no end",
    )
}

/// Makes `--idle`, the seconds for which a seated client may be silent. It is 0 by default, for no
/// limit.
fn idle_option<'a>(alloc: Global) -> Arg<'a>
    ensures rule { rule_of result ≡ option_of_silence }
    ensures global { result.global ≡ false }
{
    number_option(alloc, "idle", 0, MAX_IDLE, "0").help(
        "Seconds after which a client that sends nothing loses its seat; 0 for never",
    )
}
