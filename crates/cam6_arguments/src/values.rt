//! What the option of a name says, and what a word says.
ghost use Rattle.std.specs.Prelude.{◌≡◌, ◌≤◌, ◌&&◌, IfSome, Some, None, if◌then◌else◌, nat_le};
ghost use Rattle.std.specs.Prelude.{option_map};
ghost use Rattle.clap.specs.Walk.{texts};
ghost use Rattle.clap.specs.Words.{all_of, first_of, found_of, rows_of};
ghost use Rattle.cam6_arguments.specs.Values.{number_at, number_by, number_said, side_at};

use cam6_planes::Side;
use clap::ArgMatches;

/// Returns the first text of an option, which may be its default, or `None` if it has none. `name`
/// has no `--`.
pub fn text_at<'a>(matches: &ArgMatches<'a>, name: &str) -> Option<&'a str>
    ensures { option_map (λ text. text.now) result
        ≡ first_of name.now (rows_of (found_of matches.now)) }
{
    matches.get_str(name)
}

/// Returns all texts of an option, in the order of the arguments, or `None` if it has none. `name`
/// has no `--`.
pub fn texts_at<'m, 'a>(matches: &'m ArgMatches<'a>, name: &str) -> Option<&'m [&'a str]>
    ensures { option_map (λ words. texts words.now) result
        ≡ all_of name.now (rows_of (found_of matches.now)) }
{
    matches.get_raw(name)
}

/// Returns the first number of an option, or its default. Returns `None` if it has neither, or if
/// it isn't a number from `least` to `most`, both included. `name` has no `--`.
pub fn number_at(matches: &ArgMatches<'_>, name: &str, least: u64, most: u64) -> Option<u64>
    ensures number { result ≡ number_at name.now least most (rows_of (found_of matches.now)) }
    ensures within { IfSome result (λ number. (least ≤ number) × (number ≤ most)) }
{
    number_of(text_at(matches, name)?, least, most)
}

/// Returns the side of `--side`, or its default. Returns `None` if there is no text, or if it is
/// not one of the three sides.
pub fn side_at(matches: &ArgMatches<'_>) -> Option<Side>
    ensures { result ≡ side_at (rows_of (found_of matches.now)) }
{
    Side::named(text_at(matches, "side")?)
}

/// Returns the number that a word is read as in decimal, or the default if there is no word. The
/// default is from `least` to `most`. Returns `None` if the word isn't a number from `least` to
/// `most`, both included.
pub fn number_or_default(word: Option<&str>, least: u64, most: u64, default: u64) -> Option<u64>
    requires { (least ≤ default) × (default ≤ most) }
    ensures number { result
        ≡ number_by (option_map (λ word. word.now) word.entry) least most default }
    ensures within { IfSome result (λ number. (least ≤ number) × (number ≤ most)) }
{
    match word {
        Some(word) => number_of(word, least, most),
        None => Some(default),
    }
}

/// Returns the number that a word is read as in decimal, as `usize`, to count what is in memory.
/// Returns `None` if it isn't a number from `least` to `most`, both included.
pub fn count_of(word: &str, least: usize, most: usize) -> Option<usize>
    ensures number { result ≡ number_said least most word.now }
    ensures within { IfSome result (λ number. (least ≤ number) × (number ≤ most)) }
{
    match number_of(word, least as u64, most as u64) {
        Some(number) => Some(number as usize),
        None => None,
    }
}

/// Returns the number that a word is read as in decimal. Returns `None` if it isn't a number from
/// `least` to `most`, both included.
pub fn number_of(word: &str, least: u64, most: u64) -> Option<u64>
    ensures number { result ≡ number_said least most word.now }
    ensures within { IfSome result (λ number. (least ≤ number) × (number ≤ most)) }
{
    let Ok(number) = word.parse::<u64>() else {
        return None;
    };
    bounded(number, least, most)
}

/// Returns the number, or `None` if it isn't from `least` to `most`, both included.
fn bounded(number: u64, least: u64, most: u64) -> Option<u64>
    ensures number { result
        ≡ (if nat_le least number && nat_le number most then Some number else None) }
    ensures within { IfSome result (λ number. (least ≤ number) × (number ≤ most)) }
{
    if least <= number && number <= most {
        Some(number)
    } else {
        None
    }
}
