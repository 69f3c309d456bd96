//! The arguments of `cam6_rle`.
ghost use Rattle.std.specs.Prelude.{◌≡◌, ◌⊎◌, ◌-◌, ◌≤◌, IfOk, IfErr, IfSome, None, []};
ghost use Rattle.std.specs.Prelude.{option_map, map, string_bytes, true, false, codes, is_some};
ghost use Rattle.std.specs.List.{list_all};
ghost use Rattle.clap.specs.Words.{App, app_of, found_of, rows_of, rule_of};
ghost use Rattle.clap.specs.Words.{matches_of, first_of, fault_of};
ghost use Rattle.cam6_arguments.specs.Refusals.{IsRefusal, Refuses};
ghost use Rattle.cam6_draw_cli.specs.RleWords.{HasTask, IsProgram, MayHaveTask};
ghost use Rattle.cam6_draw_cli.specs.RleWords.{task_of, place_at, is_one_line};
ghost use Rattle.cam6_draw_cli.specs.RleWords.{placed, move_at, planes_at, planes_said};
ghost use Rattle.cam6_draw_cli.specs.RleWords.{says_planes, is_plane_digit, are_different, gather_at};
ghost use Rattle.cam6_draw_cli.specs.Placing.{last_move};
ghost use Rattle.cam6_draw_cli.specs.RleWords.{move_option as option_of_moves};
ghost use Rattle.cam6_draw_cli.specs.RleWords.{planes_option as option_of_planes};
ghost use Rattle.cam6_draw_cli.specs.RleWords.{replies_option as option_of_replies};
ghost use Rattle.cam6_draw_cli.specs.RleWords.{rule_option as option_of_rules};

use crate::rle_options::{Place, RleOptions};
use cam6_arguments::{
    Program, Refused, new_command, number_at, number_option, refusal, refusal_of_text, side_at,
    side_option, text_at,
};
use cam6_patterns::ChosenPlanes;
use cam6_planes::{COLUMNS, Side};
use clap::{Arg, ArgAction, ArgMatches, Command};
use std::alloc::{AllocError, Global};

/// The last column, or row, by which a pattern is moved.
const LAST_MOVE: u64 = COLUMNS as u64 - 1;

/// What the program reads and writes, its statuses, and lines to try.
const PROGRAM_TEXT: &str = "\
The text of a pattern on standard input becomes command lines that set its planes, for cam6. Its upper
left corner lies at column 0 of row 0, or where a remark in it says. --column and --row move it. With
--replies the replies of cam6 to `plane`, or to `colours` of all rows, become such texts.

Exit statuses: 0 the input ended; 2 the arguments are refused; 3 the text is not a pattern, a line is not
a reply, a frame is incomplete, or a read failed; 4 a write failed; 5 out of memory; 6 too many lines.

Lines to try: a glider, and out again.
  printf 'x = 3, y = 3\\nbo$2bo$3o!\\n' | cam6_rle --column 8 --row 8
  (printf 'x = 3, y = 3\\nbo$2bo$3o!\\n' | cam6_rle; echo '{\"do\":\"plane\",\"plane\":0}') | cam6 | cam6_rle --replies";

/// The line for `--rule` without `--replies`, for a `--rule` that isn't one line, and for
/// `--planes` that are none.
const NO_TASK_TEXT: &str = "\
cam6_rle: --planes takes one to four different digits from 0 to 3; --rule takes one line, and needs
--replies
";

/// Reads the arguments of `cam6_rle`. Returns its task, or why the arguments are refused. The first
/// word is the program's name.
pub fn options_of_rle(alloc: Global, words: &[String]) -> Result<RleOptions, Refused>
    // For the program's command line, wherever the three words of the sides are kept.
    ensures task { IfOk result (λ options. (app : App) × IsProgram app
        × (fault_of app (map string_bytes words.now) ≡ [])
        × HasTask options (task_of (matches_of app (map string_bytes words.now)))) }
    ensures refused { IfErr result (λ refused. (app : App) × IsProgram app
        × Refuses (fault_of app (map string_bytes words.now))
        (task_of (matches_of app (map string_bytes words.now)) ≡ None) refused) }
{
    let Ok(command) = program(alloc) else {
        return Err(Refused::NoMemory);
    };
    match command.try_get_matches_from(words) {
        Ok(matches) => task_given(alloc, &matches),
        Err(error) => Err(refusal(alloc, error, "")),
    }
}

/// Returns the task that clap's matches ask for: writing patterns with `--replies`, or else placing
/// one. Refuses wrong values, and `--rule` without `--replies`. Returns `Refused::NoMemory` if an
/// allocation fails.
fn task_given(alloc: Global, matches: &ArgMatches<'_>) -> Result<RleOptions, Refused>
    ensures task { IfOk result (λ options. HasTask options (task_of (rows_of (found_of matches.now)))) }
    ensures refused { IfErr result (λ refused. IsRefusal refused
        × ((task_of (rows_of (found_of matches.now)) ≡ None) ⊎ (refused ≡ Refused.NoMemory))) }
{
    if matches.get_count("replies") > 0 {
        return gather_given(alloc, matches);
    }
    if names_rule(matches) {
        return Err(no_task(alloc));
    }
    match place_given(matches) {
        Some(options) => Ok(options),
        None => Err(no_task(alloc)),
    }
}

/// Returns whether `--rule` is there.
fn names_rule(matches: &ArgMatches<'_>) -> bool
    ensures { result ≡ is_some (first_of (codes "rule") (rows_of (found_of matches.now))) }
{
    text_at(matches, "rule").is_some()
}

/// Returns the task of placing a pattern where clap's matches say. Returns `None` if the side, the
/// column, the row or the planes are missing or wrong.
fn place_given(matches: &ArgMatches<'_>) -> Option<RleOptions>
    ensures { MayHaveTask result (place_at (rows_of (found_of matches.now))) }
{
    place_task(
        side_at(matches),
        move_given(matches, "column"),
        move_given(matches, "row"),
        planes_given(matches),
    )
}

/// Returns the task of placing a pattern, with these values. The column and the row are at most
/// 511. Returns `None` if one of the four is `None`.
fn place_task(
    side: Option<Side>,
    column: Option<usize>,
    row: Option<usize>,
    planes: Option<ChosenPlanes>,
) -> Option<RleOptions>
    requires column { IfSome column (λ column. column ≤ last_move) }
    requires row { IfSome row (λ row. row ≤ last_move) }
    ensures { MayHaveTask result (placed side column row planes) }
{
    Some(RleOptions::Place(Place {
        side: side?,
        column: column?,
        row: row?,
        planes: planes?,
    }))
}

/// Returns how many columns, or rows, the option of this name moves the pattern by. Returns `None`
/// if it has no value, or if that is no number from 0 to 511.
fn move_given(matches: &ArgMatches<'_>, name: &str) -> Option<usize>
    ensures value { result ≡ move_at name.now (rows_of (found_of matches.now)) }
    ensures within { IfSome result (λ cells. cells ≤ last_move) }
{
    let cells = number_at(matches, name, 0, LAST_MOVE)?;
    Some(cells as usize)
}

/// Returns the planes at `--planes`. Returns `None` if it has no value, or if that isn't one to
/// four different digits from 0 to 3.
fn planes_given(matches: &ArgMatches<'_>) -> Option<ChosenPlanes>
    ensures { result ≡ planes_at (rows_of (found_of matches.now)) }
{
    planes_of_word(text_at(matches, "planes")?)
}

/// Returns the task of writing patterns. `rule` is the name at `--rule`, or empty without it.
/// Refuses a name with an LF. Returns `Refused::NoMemory` if an allocation fails.
fn gather_given(alloc: Global, matches: &ArgMatches<'_>) -> Result<RleOptions, Refused>
    ensures task { IfOk result (λ options. HasTask options (gather_at (rows_of (found_of matches.now)))) }
    ensures refused { IfErr result (λ refused. IsRefusal refused
        × ((gather_at (rows_of (found_of matches.now)) ≡ None) ⊎ (refused ≡ Refused.NoMemory))) }
{
    let name = text_at(matches, "rule").unwrap_or("");
    if !is_one_line(name.as_bytes()) {
        return Err(no_task(alloc));
    }
    match String::from_str(alloc, name) {
        Ok(rule) => Ok(RleOptions::Gather { rule }),
        Err(_) => Err(Refused::NoMemory),
    }
}

/// Returns whether a text has no LF.
fn is_one_line(bytes: &[u8]) -> bool
    ensures { result ≡ is_one_line bytes.now }
{
    let mut rest = bytes;
    while let [first, later @ ..] = rest {
        if *first == b'\n' {
            return false;
        }
        rest = later;
    }
    true
}

/// Returns the refusal of arguments that ask for no task, with its line for the user. It is
/// `Refused::NoMemory` if an allocation for the line fails.
fn no_task(alloc: Global) -> Refused
    ensures { IsRefusal result }
{
    refusal_of_text(String::from_str(alloc, NO_TASK_TEXT))
}

/// Returns the planes whose numbers are a word's digits, in their order. Returns `None` if the word
/// isn't one to four different digits from 0 to 3.
fn planes_of_word(word: &str) -> Option<ChosenPlanes>
    ensures { result ≡ planes_said word.now }
{
    let digits = word.as_bytes();
    if !says_planes(digits) {
        return None;
    }
    Some(planes_of_digits(digits))
}

/// Returns whether bytes are one to four different digits from 0 to 3.
fn says_planes(digits: &[u8]) -> bool
    ensures { result ≡ says_planes digits.now }
{
    if digits.is_empty() || digits.len() > 4 {
        return false;
    }
    if !are_plane_digits(digits) {
        return false;
    }
    are_different(digits)
}

/// Returns whether each byte is a digit from 0 to 3. It is true if there are none.
fn are_plane_digits(bytes: &[u8]) -> bool
    ensures { result ≡ list_all is_plane_digit bytes.now }
{
    let mut rest = bytes;
    while let [first, later @ ..] = rest {
        if !is_plane_digit(*first) {
            return false;
        }
        rest = later;
    }
    true
}

/// Returns whether a byte is a digit from 0 to 3.
fn is_plane_digit(b: u8) -> bool
    ensures { result ≡ is_plane_digit b }
{
    (b'0'..=b'3').contains(&b)
}

/// Returns whether no byte occurs twice. It is true if there are none.
fn are_different(bytes: &[u8]) -> bool
    ensures { result ≡ are_different bytes.now }
{
    let mut rest = bytes;
    while let [first, later @ ..] = rest {
        if later.contains(first) {
            return false;
        }
        rest = later;
    }
    true
}

/// Returns the planes with these numbers, in their order. The bytes are one to four different
/// digits from 0 to 3.
fn planes_of_digits(digits: &[u8]) -> ChosenPlanes
    requires { says_planes digits.now ≡ true }
    ensures { result ≡ map (λ b. b - 48) digits.now }
{
    let (count, planes) = match digits {
        [a] => (1, [*a - b'0', 0, 0, 0]),
        [a, b] => (2, [*a - b'0', *b - b'0', 0, 0]),
        [a, b, c] => (3, [*a - b'0', *b - b'0', *c - b'0', 0]),
        [a, b, c, d] => (4, [*a - b'0', *b - b'0', *c - b'0', *d - b'0']),
        _ => unreachable!(),
    };
    ChosenPlanes::new(count, planes)
}

/// Returns clap's description of `cam6_rle`: its name, help and options.
fn program<'a>(alloc: Global) -> Result<Command<'a>, AllocError>
    ensures { IfOk result (λ command. IsProgram (app_of command)) }
{
    let about =
        "Turns run-length patterns into command lines of cam6, and its replies into patterns";
    new_command(alloc, Program::Rle, about, PROGRAM_TEXT)
        .arg(side_option(alloc, "The side of the torus"))?
        .arg(move_option(alloc, "column"))?
        .arg(move_option(alloc, "row"))?
        .arg(planes_option(alloc))?
        .arg(replies_option(alloc))?
        .arg(rule_option(alloc))
}

/// Returns clap's description of `--column` or `--row`.
fn move_option<'a>(alloc: Global, name: &'a str) -> Arg<'a>
    ensures rule { rule_of result ≡ option_of_moves name.now }
    ensures global { result.global ≡ false }
{
    number_option(alloc, name, 0, LAST_MOVE, "0").help("How far the pattern is moved")
}

/// Returns clap's description of `--planes`.
fn planes_option<'a>(alloc: Global) -> Arg<'a>
    ensures rule { rule_of result ≡ option_of_planes }
    ensures global { result.global ≡ false }
{
    Arg::new(alloc, "planes")
        .long("planes")
        .default_value("0")
        .help("The planes for a state's bits, one digit each, the lowest bit first")
}

/// Returns clap's description of `--replies`.
fn replies_option<'a>(alloc: Global) -> Arg<'a>
    ensures rule { rule_of result ≡ option_of_replies }
    ensures global { result.global ≡ false }
{
    Arg::new(alloc, "replies")
        .long("replies")
        .action(ArgAction::Count)
        .help("Reads replies, and writes a text for each picture")
}

/// Returns clap's description of `--rule`.
fn rule_option<'a>(alloc: Global) -> Arg<'a>
    ensures rule { rule_of result ≡ option_of_rules }
    ensures global { result.global ≡ false }
{
    Arg::new(alloc, "rule")
        .long("rule")
        .help("The name of a rule for the header of a text")
}
