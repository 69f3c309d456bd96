//! The arguments of `cam6_web`.
ghost use Rattle.std.specs.Prelude.{◌≡◌, ◌⊎◌, ◌≤◌, [], IfErr, IfOk, codes, map, false};
ghost use Rattle.std.specs.Prelude.{IfSome, Some, option_map, string_bytes};
ghost use Rattle.std.specs.Result.{result_ok};
ghost use Rattle.clap.specs.Walk.{texts};
ghost use Rattle.clap.specs.Words.{app_of, fault_of, found_of, matches_of, rows_of, rule_of};
ghost use Rattle.cam6_arguments.specs.Options.{value_option as option_of};
ghost use Rattle.cam6_arguments.specs.Refusals.{IsRefusal, Refuses};
ghost use Rattle.cam6_web_cli.specs.Words.{HasOptions, SayNothing, all_said, asked as asked_by};
ghost use Rattle.cam6_web_cli.specs.Words.{list_option as option_of_lists, numbers_at};
ghost use Rattle.cam6_web_cli.specs.Words.{program as program_of};
ghost use Rattle.cam6_web_cli.specs.Words.{AreOptions, asked_with};

use crate::options::{Options, Unsaid};
use crate::values::{Unaddressed, addresses_by, copied_by, side_by};
use cam6_arguments::{
    MAX_PORT, Program, Refused, new_command, number_or_default, refusal, refusal_of_text, text_at,
    texts_at, value_option,
};
use cam6_planes::Side;
use clap::{Arg, ArgAction, ArgMatches, Command};
use std::alloc::{AllocError, Global};

/// The most sockets at a time.
const MAX_CONNECTIONS: u64 = 1_000;

/// What help says at its end.
const HELP: &str = "\
A browser shows the page at http://127.0.0.1:6007/. Without --host each page has its own machine,
which ends with the page. With --host each page takes the first free seat of `cam6 serve`.

To try it: ./cam6_web, and open the address that it prints.

Exit status:
  0  all connections of --requests were accepted, or help or the version was asked for
  2  the arguments are refused
  4  a write failed
  5  out of memory
  7  network failed";

/// Reads the arguments of `cam6_web`. Returns its options, or why the arguments are refused. The
/// first word is the program's name.
pub fn options_of_web(alloc: Global, words: &[String]) -> Result<Options, Refused>
    // For a simple command, clap's matches and the kinds of its errors are functions of the words.
    ensures asked { IfOk result (λ options.
        (fault_of program_of (map string_bytes words.now) ≡ [])
        × HasOptions options (asked_by (matches_of program_of (map string_bytes words.now)))) }
    ensures refused { IfErr result (Refuses (fault_of program_of (map string_bytes words.now))
        (SayNothing (asked_by (matches_of program_of (map string_bytes words.now))))) }
{
    let Ok(command) = program(alloc) else {
        return Err(Refused::NoMemory);
    };
    match command.try_get_matches_from(words) {
        Ok(matches) => read_matches(alloc, &matches),
        Err(error) => Err(refusal(alloc, error, "")),
    }
}

/// Returns the options that clap's matches have. If a value is wrong, returns the refusal with a
/// line for the user. Returns `Refused::NoMemory` if an allocation fails.
fn read_matches(alloc: Global, matches: &ArgMatches<'_>) -> Result<Options, Refused>
    ensures asked { IfOk result (λ options.
        HasOptions options (asked_by (rows_of (found_of matches.now)))) }
    ensures refused { IfErr result (λ refused. IsRefusal refused
        × (SayNothing (asked_by (rows_of (found_of matches.now))) ⊎ (refused ≡ Refused.NoMemory))) }
{
    match numbers_asked(matches) {
        Ok(numbers) => with_lists(
            alloc,
            numbers,
            texts_at(matches, "host"),
            texts_at(matches, "name"),
        ),
        Err(unsaid) => Err(refuse_value(alloc, unsaid)),
    }
}

/// Returns the refusal of arguments with a value that is wrong, with a line that names it. It is
/// `Refused::NoMemory` if an allocation for the line fails.
fn refuse_value(alloc: Global, unsaid: Unsaid) -> Refused
    ensures { IsRefusal result }
{
    refusal_of_text(format!(in alloc; "cam6_web: {unsaid}\n"))
}

/// Returns the options with these numbers, and the words at `--host` and at `--name`, or `None`
/// without them. Refuses them if a word at `--host` is no address, or if an allocation fails.
fn with_lists(
    alloc: Global,
    numbers: Numbers,
    hosts: Option<&[&str]>,
    names: Option<&[&str]>,
) -> Result<Options, Refused>
    ensures asked { IfOk result (λ options. AreOptions options
        (asked_with (option_map (λ words. texts words.now) hosts.entry)
        (option_map (λ words. texts words.now) names.entry) numbers)) }
    ensures refused { IfErr result (λ refused. IsRefusal refused
        × (SayNothing (Some (asked_with (option_map (λ words. texts words.now) hosts.entry)
        (option_map (λ words. texts words.now) names.entry) numbers))
        ⊎ (refused ≡ Refused.NoMemory))) }
{
    let hosts = match addresses_by(alloc, hosts) {
        Ok(hosts) => hosts,
        Err(Unaddressed::NoAddress) => return Err(refuse_value(alloc, Unsaid::Host)),
        Err(Unaddressed::NoMemory) => return Err(Refused::NoMemory),
    };
    match copied_by(alloc, names) {
        Ok(names) => Ok(Options {
            port: numbers.port,
            connections: numbers.connections,
            limit: numbers.limit,
            requests: numbers.requests,
            hosts,
            names,
        }),
        Err(_) => Err(Refused::NoMemory),
    }
}

/// The options that are numbers.
#[derive(Clone, Copy, Debug, PartialEq, Eq)]
pub(crate) struct Numbers {
    pub(crate) port: u16,
    pub(crate) connections: usize,
    pub(crate) limit: Side,
    pub(crate) requests: u64,
}

/// Returns the options that are numbers, from clap's matches, or the first one that is wrong. An
/// option that isn't there has its default.
fn numbers_asked(matches: &ArgMatches<'_>) -> Result<Numbers, Unsaid>
    ensures { result_ok result ≡ numbers_at (rows_of (found_of matches.now)) }
{
    collect_numbers(
        number_or_default(text_at(matches, "port"), 1, MAX_PORT, 6_007),
        number_or_default(text_at(matches, "connections"), 1, MAX_CONNECTIONS, 64),
        side_by(text_at(matches, "side")),
        number_or_default(text_at(matches, "requests"), 0, u64::MAX, 0),
    )
}

/// Collects these four numbers, or returns the error for the first that is `None`. The port is from
/// 1 to 65535, and `connections` from 1 to 1000.
fn collect_numbers(
    port: Option<u64>,
    connections: Option<u64>,
    limit: Option<Side>,
    requests: Option<u64>,
) -> Result<Numbers, Unsaid>
    requires port { IfSome port (λ port. (1 ≤ port) × (port ≤ 65535)) }
    requires connections { IfSome connections (λ number. (1 ≤ number) × (number ≤ 1000)) }
    ensures { result_ok result ≡ all_said port connections limit requests }
{
    let Some(port) = port else {
        return Err(Unsaid::Port);
    };
    let Some(connections) = connections else {
        return Err(Unsaid::Connections);
    };
    let Some(limit) = limit else {
        return Err(Unsaid::Side);
    };
    let Some(requests) = requests else {
        return Err(Unsaid::Requests);
    };
    Ok(Numbers {
        port: port as u16,
        connections: connections as usize,
        limit,
        requests,
    })
}

/// Returns clap's description of `cam6_web`: its name, help and options.
fn program<'a>(alloc: Global) -> Result<Command<'a>, AllocError>
    ensures { IfOk result (λ command. app_of command ≡ program_of) }
{
    let about = "Serves the page of a CAM-6 cellular automata machine to browsers on this machine";
    new_command(alloc, Program::Web, about, HELP)
        .arg(port_option(alloc))?
        .arg(host_option(alloc))?
        .arg(name_option(alloc))?
        .arg(connections_option(alloc))?
        .arg(side_option(alloc))?
        .arg(requests_option(alloc))
}

/// Returns clap's description of an option that takes one value, and may occur several times.
fn list_option<'a>(alloc: Global, name: &'a str, value: &'a str, help: &'a str) -> Arg<'a>
    ensures rule { rule_of result ≡ option_of_lists name.now }
    ensures global { result.global ≡ false }
{
    Arg::new(alloc, name)
        .long(name)
        .action(ArgAction::Append)
        .value_name(value)
        .help(help)
}

/// Returns clap's description of `--port`.
fn port_option<'a>(alloc: Global) -> Arg<'a>
    ensures rule { rule_of result ≡ option_of (codes "port") }
    ensures global { result.global ≡ false }
{
    value_option(
        alloc,
        "port",
        "N",
        "The port of 127.0.0.1, 1 to 65535; without it 6007",
    )
}

/// Returns clap's description of `--host`.
fn host_option<'a>(alloc: Global) -> Arg<'a>
    ensures rule { rule_of result ≡ option_of_lists (codes "host") }
    ensures global { result.global ≡ false }
{
    list_option(
        alloc,
        "host",
        "ADDRESS:PORT",
        "Pages take seats at this `cam6 serve`; repeat it for more hosts, tried in this order",
    )
}

/// Returns clap's description of `--name`.
fn name_option<'a>(alloc: Global) -> Arg<'a>
    ensures rule { rule_of result ≡ option_of_lists (codes "name") }
    ensures global { result.global ≡ false }
{
    list_option(
        alloc,
        "name",
        "HOST",
        "A name by which a proxy asks for the page; may be given again",
    )
}

/// Returns clap's description of `--connections`.
fn connections_option<'a>(alloc: Global) -> Arg<'a>
    ensures rule { rule_of result ≡ option_of (codes "connections") }
    ensures global { result.global ≡ false }
{
    value_option(
        alloc,
        "connections",
        "N",
        "Pages that may be open at a time, 1 to 1000; without it 64",
    )
}

/// Returns clap's description of `--side`.
fn side_option<'a>(alloc: Global) -> Arg<'a>
    ensures rule { rule_of result ≡ option_of (codes "side") }
    ensures global { result.global ≡ false }
{
    value_option(
        alloc,
        "side",
        "N",
        "The largest side of a page's own machine, 128, 256 or 512; without it 512",
    )
}

/// Returns clap's description of `--requests`.
fn requests_option<'a>(alloc: Global) -> Arg<'a>
    ensures rule { rule_of result ≡ option_of (codes "requests") }
    ensures global { result.global ≡ false }
{
    value_option(
        alloc,
        "requests",
        "N",
        "Connections to accept before the program ends; without it, or with 0, no end",
    )
}
