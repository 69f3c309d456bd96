//! The arguments of `cam6_draw`.
ghost use Rattle.std.specs.Prelude.{◌≡◌, ◌≤◌, [], IfErr, IfOk, None, Some, true, false, codes, map};
ghost use Rattle.std.specs.Prelude.{option_map, string_bytes};
ghost use Rattle.std.specs.Result.{result_ok};
ghost use Rattle.clap.specs.Walk.{texts};
ghost use Rattle.clap.specs.Words.{app_of, fault_of, found_of, matches_of, rows_of};
ghost use Rattle.clap.specs.Words.{rule_of};
ghost use Rattle.cam6_draw_cli.specs.DrawWords.{all_said};
ghost use Rattle.cam6_arguments.specs.Options.{value_option as option_of};
ghost use Rattle.cam6_arguments.specs.Refusals.{IsRefusal, Refuses};
ghost use Rattle.cam6_draw_cli.specs.DrawWords.{asked as asked_by, crop_option as option_to_crop};
ghost use Rattle.cam6_draw_cli.specs.DrawWords.{flag as flag_of, is_true as is_true_told};
ghost use Rattle.cam6_draw_cli.specs.DrawWords.{palette_by as palette_told, program as program_of};
ghost use Rattle.cam6_draw_cli.specs.DrawWords.{scale_by as scale_told, way_at, way_said};
ghost use Rattle.cam6_draw_cli.specs.DrawWords.{window_by as window_told, window_asked_for};
ghost use Rattle.cam6_draw_cli.specs.DrawWords.{window_of as window_of_words};

use crate::draw_options::{DrawOptions, Unsaid, Way};
use cam6_arguments::{
    Program, Refused, count_of, new_command, number_or_default, refusal, refusal_of_text, text_at,
    texts_at, value_option,
};
use cam6_planes::COLUMNS;
use cam6_show_pictures::{Light, Look, MOST_SCALE, PALETTE, Window, palette_of};
use clap::{Arg, ArgAction, ArgMatches, Command};
use std::alloc::{AllocError, Global};

/// The most pictures a second.
const MOST_FRAMES: usize = 1000;

/// What help calls the values of `--crop`.
static PART: [&str; 4] = ["X", "Y", "W", "H"];

/// What help says at its end.
const HELP: &str = "\
Each reply to `plane` is one picture. So is each run of replies to `colours`, a row each. Other replies
are ignored.

To try it: ./cam6 < FILE | ./cam6_draw --text --crop 0 0 80 48

Exit status:
  0  all lines were replies, and all pictures were written
  2  the arguments are refused
  3  a line is not a reply, a frame is incomplete, or a read failed
  4  a write failed
  5  out of memory
  6  too many lines";

/// Reads the arguments of `cam6_draw`. Returns its options, or why the arguments are refused. The
/// first word is the program's name.
pub fn options_of_draw(alloc: Global, words: &[String]) -> Result<DrawOptions, Refused>
    // For a simple command, clap's matches and the kinds of its errors are functions of the words.
    ensures asked { IfOk result (λ options.
        (fault_of program_of (map string_bytes words.now) ≡ [])
        × (asked_by (matches_of program_of (map string_bytes words.now)) ≡ Some options)) }
    ensures refused { IfErr result (Refuses (fault_of program_of (map string_bytes words.now))
        (asked_by (matches_of program_of (map string_bytes words.now)) ≡ None)) }
{
    let Ok(command) = program(alloc) else {
        return Err(Refused::NoMemory);
    };
    match command.try_get_matches_from(words) {
        Ok(matches) => read_matches(alloc, &matches),
        Err(error) => Err(refusal(alloc, error, "")),
    }
}

/// Returns the options that clap's matches have, or why the arguments are refused, with a line for
/// the user.
fn read_matches(alloc: Global, matches: &ArgMatches<'_>) -> Result<DrawOptions, Refused>
    ensures asked { IfOk result (λ options.
        asked_by (rows_of (found_of matches.now)) ≡ Some options) }
    ensures refused { IfErr result (λ refused.
        IsRefusal refused × (asked_by (rows_of (found_of matches.now)) ≡ None)) }
{
    match options_of_matches(matches) {
        Ok(options) => Ok(options),
        Err(unsaid) => Err(refusal_of_text(format!(in alloc; "cam6_draw: {unsaid}\n"))),
    }
}

/// Returns the options that clap's matches have, or the first value that is wrong.
fn options_of_matches(matches: &ArgMatches<'_>) -> Result<DrawOptions, Unsaid>
    ensures { result_ok result ≡ asked_by (rows_of (found_of matches.now)) }
{
    collect_options(
        way_asked(matches),
        palette_by(text_at(matches, "palette")),
        window_by(texts_at(matches, "crop")),
        scale_by(text_at(matches, "scale")),
    )
}

/// Collects these four values as options, or returns the first error among them, in the order of
/// the arguments. The scale, if there is one, is from 1 to 16.
fn collect_options(
    way: Result<Way, Unsaid>,
    palette: Result<[Light; 16], Unsaid>,
    window: Result<Option<Window>, Unsaid>,
    scale: Result<usize, Unsaid>,
) -> Result<DrawOptions, Unsaid>
    requires { IfOk scale (λ scale. (1 ≤ scale) × (scale ≤ 16)) }
    ensures { result_ok result ≡ all_said (result_ok way) (result_ok palette) (result_ok window)
        (result_ok scale) }
{
    let way = match way {
        Ok(way) => way,
        Err(unsaid) => return Err(unsaid),
    };
    let palette = match palette {
        Ok(palette) => palette,
        Err(unsaid) => return Err(unsaid),
    };
    let window = match window {
        Ok(window) => window,
        Err(unsaid) => return Err(unsaid),
    };
    let scale = match scale {
        Ok(scale) => scale,
        Err(unsaid) => return Err(unsaid),
    };
    Ok(DrawOptions {
        look: Look {
            palette,
            window,
            scale,
        },
        way,
    })
}

/// Returns how pictures are to be written by clap's matches. Returns an error as `way_of` says.
fn way_asked(matches: &ArgMatches<'_>) -> Result<Way, Unsaid>
    ensures { result_ok result ≡ way_at (rows_of (found_of matches.now)) }
{
    way_of(
        is_true(text_at(matches, "ppm")),
        is_true(text_at(matches, "text")),
        text_at(matches, "frames"),
    )
}

/// Returns how pictures are to be written. `ppm` and `text` say whether `--ppm` and `--text` are
/// there, and `frames` is the word at `--frames`. It is an error unless exactly one of the two is
/// there. So is `--frames` without `--text`, or with a word that isn't a number from 1 to 1000.
fn way_of(ppm: bool, text: bool, frames: Option<&str>) -> Result<Way, Unsaid>
    ensures { result_ok result ≡ way_said ppm text (option_map (λ word. word.now) frames.entry) }
{
    match (ppm, text, frames) {
        (true, false, None) => Ok(Way::Ppm),
        (true, false, Some(_)) => Err(Unsaid::FramesOfFiles),
        (false, true, None) => Ok(Way::Text { rate: None }),
        (false, true, Some(word)) => terminal_at(word),
        (true, true, _) | (false, false, _) => Err(Unsaid::Way),
    }
}

/// Returns the way that draws on a terminal, with at most as many pictures a second as the word at
/// `--frames` says. Returns an error if the word isn't a whole number from 1 to 1000.
fn terminal_at(word: &str) -> Result<Way, Unsaid>
    ensures { result_ok result ≡ way_said false true (Some word.now) }
{
    match count_of(word, 1, MOST_FRAMES) {
        Some(rate) => Ok(Way::Text { rate: Some(rate) }),
        None => Err(Unsaid::Frames),
    }
}

/// Returns whether the word of a flag is `true`. It is false if there is no word.
fn is_true(word: Option<&str>) -> bool
    ensures { result ≡ is_true_told (option_map (λ word. word.now) word.entry) }
{
    match word {
        Some(word) => word == "true",
        None => false,
    }
}

/// Returns the lights of the colours 0 to 15 that the word at `--palette` has, or `PALETTE` for
/// `None`. Returns an error for a word that is no palette.
fn palette_by(word: Option<&str>) -> Result<[Light; 16], Unsaid>
    ensures { result_ok result ≡ palette_told (option_map (λ word. word.now) word.entry) }
{
    let Some(word) = word else {
        return Ok(PALETTE);
    };
    match palette_of(word) {
        Some(palette) => Ok(palette),
        None => Err(Unsaid::Palette),
    }
}

/// Returns the window that the words at `--crop` have, or `None`, the whole torus, if the option
/// isn't there. Returns an error for words that are no window, or not four.
fn window_by(words: Option<&[&str]>) -> Result<Option<Window>, Unsaid>
    ensures { result_ok result ≡ window_told (option_map (λ words. texts words.now) words.entry) }
{
    let Some(words) = words else {
        return Ok(None);
    };
    match window_of(words) {
        Some(window) => Ok(Some(window)),
        None => Err(Unsaid::Crop),
    }
}

/// Returns the window that four words have: its first column, first row, width and height. Returns
/// `None` if one is no number within its bounds, or if they aren't four.
fn window_of(words: &[&str]) -> Option<Window>
    ensures { result ≡ window_of_words (texts words.now) }
{
    if words.len() == 4 {
        window_asked_for(words[0], words[1], words[2], words[3])
    } else {
        None
    }
}

/// Returns the window with these words as its first column, first row, width and height. Returns
/// `None` unless the first two are numbers from 0 to 511, and the others from 1 to 512.
fn window_asked_for(x: &str, y: &str, w: &str, h: &str) -> Option<Window>
    ensures { result ≡ window_asked_for x.now y.now w.now h.now }
{
    let Some(column) = count_of(x, 0, COLUMNS - 1) else {
        return None;
    };
    let Some(row) = count_of(y, 0, COLUMNS - 1) else {
        return None;
    };
    let Some(width) = count_of(w, 1, COLUMNS) else {
        return None;
    };
    let Some(height) = count_of(h, 1, COLUMNS) else {
        return None;
    };
    Some(Window {
        column,
        row,
        width,
        height,
    })
}

/// Returns how many pixels a cell is wide and high: the number at `--scale`, or 1 for `None`.
/// Returns an error for a word that isn't a number from 1 to 16.
fn scale_by(word: Option<&str>) -> Result<usize, Unsaid>
    ensures scale { result_ok result ≡ scale_told (option_map (λ word. word.now) word.entry) }
    ensures within { IfOk result (λ scale. (1 ≤ scale) × (scale ≤ 16)) }
{
    match number_or_default(word, 1, MOST_SCALE as u64, 1) {
        Some(scale) => Ok(scale as usize),
        None => Err(Unsaid::Scale),
    }
}

/// Returns clap's description of `cam6_draw`: its name, help and options.
fn program<'a>(alloc: Global) -> Result<Command<'a>, AllocError>
    ensures { IfOk result (λ command. app_of command ≡ program_of) }
{
    let about = "Reads replies from standard input and writes pictures to standard output";
    new_command(alloc, Program::Draw, about, HELP)
        .arg(ppm_option(alloc))?
        .arg(text_option(alloc))?
        .arg(scale_option(alloc))?
        .arg(crop_option(alloc))?
        .arg(palette_option(alloc))?
        .arg(frames_option(alloc))
}

/// Returns clap's description of an option that takes no value.
fn flag<'a>(alloc: Global, name: &'a str, help: &'a str) -> Arg<'a>
    ensures rule { rule_of result ≡ flag_of name.now }
    ensures global { result.global ≡ false }
{
    Arg::new(alloc, name)
        .long(name)
        .action(ArgAction::SetTrue)
        .help(help)
}

/// Returns clap's description of `--ppm`.
fn ppm_option<'a>(alloc: Global) -> Arg<'a>
    ensures rule { rule_of result ≡ flag_of (codes "ppm") }
    ensures global { result.global ≡ false }
{
    flag(
        alloc,
        "ppm",
        "Pictures as netpbm files, one after the other",
    )
}

/// Returns clap's description of `--text`.
fn text_option<'a>(alloc: Global) -> Arg<'a>
    ensures rule { rule_of result ≡ flag_of (codes "text") }
    ensures global { result.global ≡ false }
{
    flag(
        alloc,
        "text",
        "Pictures on a terminal of 256 colours, each drawn over the one before",
    )
}

/// Returns clap's description of `--scale`.
fn scale_option<'a>(alloc: Global) -> Arg<'a>
    ensures rule { rule_of result ≡ option_of (codes "scale") }
    ensures global { result.global ≡ false }
{
    value_option(
        alloc,
        "scale",
        "N",
        "A cell is N pixels wide and high, 1 to 16; without it 1",
    )
}

/// Returns clap's description of `--crop`.
fn crop_option<'a>(alloc: Global) -> Arg<'a>
    ensures rule { rule_of result ≡ option_to_crop }
    ensures global { result.global ≡ false }
{
    Arg::new(alloc, "crop")
        .long("crop")
        .num_args(4)
        .value_names(PART.as_slice())
        .help("Only W columns and H rows from column X and row Y on; the edges wrap round")
}

/// Returns clap's description of `--palette`.
fn palette_option<'a>(alloc: Global) -> Arg<'a>
    ensures rule { rule_of result ≡ option_of (codes "palette") }
    ensures global { result.global ≡ false }
{
    value_option(
        alloc,
        "palette",
        "P",
        "The lights of the colours 0 to 15: six hexadecimal digits each, with commas between",
    )
}

/// Returns clap's description of `--frames`.
fn frames_option<'a>(alloc: Global) -> Arg<'a>
    ensures rule { rule_of result ≡ option_of (codes "frames") }
    ensures global { result.global ≡ false }
{
    value_option(
        alloc,
        "frames",
        "N",
        "With --text: at most N pictures a second, 1 to 1000",
    )
}
