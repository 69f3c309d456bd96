//! A program's command, and options of numbers, sides and texts.
ghost use Rattle.std.specs.Prelude.{◌≡◌, false};
ghost use Rattle.clap.specs.Words.{app_of, rule_of};
ghost use Rattle.cam6_arguments.specs.Options.{AreSides, TextsAt, named as named_in};
ghost use Rattle.cam6_arguments.specs.Options.{number_option as option_of_numbers};
ghost use Rattle.cam6_arguments.specs.Options.{side_option as option_of_sides};
ghost use Rattle.cam6_arguments.specs.Options.{value_option as option_of_values};

use crate::programs::Program;
use cam6_planes::Side;
use cam6_version::VERSION;
use clap::builder::ValueParser;
use clap::{Arg, Command};
use std::alloc::Global;

/// The last port.
pub const MAX_PORT: u64 = 65_535;

/// Makes a program's command for clap, with its name and version, and without options. Help begins
/// with `about` and ends with `after_help`.
pub fn new_command<'a>(
    alloc: Global,
    program: Program,
    about: &'a str,
    after_help: &'a str,
) -> Command<'a>
    ensures { app_of result ≡ named_in program }
{
    let name: &'a str = program.name();
    Command::new(alloc, name)
        .about(about)
        .after_help(after_help)
        .version(VERSION)
}

/// Makes the option `--name` whose value is a number from `least` to `most`, both included. The
/// value is `default` if the option isn't given.
pub fn number_option<'a>(
    alloc: Global,
    name: &'a str,
    least: u64,
    most: u64,
    default: &'a str,
) -> Arg<'a>
    ensures rule { rule_of result ≡ option_of_numbers name.now least most default.now }
    ensures global { result.global ≡ false }
{
    Arg::new(alloc, name)
        .long(name)
        .value_parser(ValueParser::Unsigned(least, most))
        .default_value(default)
}

/// Makes the option `--side`, whose value is 128, 256 or 512, and 256 by default. `help` is the
/// option's line in the help text.
pub fn side_option<'a>(alloc: Global, help: &'a str) -> Arg<'a>
    ensures rule { (sides : TextsAt) × AreSides sides × (rule_of result ≡ option_of_sides sides) }
    ensures global { result.global ≡ false }
{
    Arg::new(alloc, "side")
        .long("side")
        .value_parser(ValueParser::Names(Side::texts()))
        .default_value(Side::S256.text())
        .help(help)
}

/// Makes the option `--name` that takes any value and has no default. In the help text its value is
/// called `value`, and `help` is its line.
pub fn value_option<'a>(alloc: Global, name: &'a str, value: &'a str, help: &'a str) -> Arg<'a>
    ensures rule { rule_of result ≡ option_of_values name.now }
    ensures global { result.global ≡ false }
{
    Arg::new(alloc, name)
        .long(name)
        .value_name(value)
        .help(help)
}
