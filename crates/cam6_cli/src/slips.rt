//! Words that are often meant otherwise, and the hints about them.
ghost use Rattle.std.specs.Prelude.{◌≡◌, map, string_bytes};
ghost use Rattle.cam6_cli.specs.Slips.{begins, is_of_sharing, is_of_serving, is_plain, reads_lines};
ghost use Rattle.cam6_cli.specs.Slips.{is_mode, slip, slip_at, slip_at_two, told_of};

/// What refused words were meant to say.
#[derive(Clone, Copy, Debug, PartialEq, Eq)]
pub enum Slip {
    /// The side of a private machine.
    SideByItself,
    /// Users, boards or tables.
    SharingByItself,
    /// A port, connections or idle seconds.
    ServingByItself,
    /// A file of lines.
    FileAsWord,
}

/// Returns the slip that the user made in refused words, such as an option before its subcommand.
/// Returns `None` if there is none that is known. The first word is the program's name, and only
/// the two after it count.
pub fn slip_of(words: &[String]) -> Option<Slip>
    ensures { result ≡ slip (map string_bytes words.now) }
{
    let word = words.get(1)?;
    match words.get(2) {
        None => slip_at(word.as_str()),
        Some(next) => slip_at_two(word.as_str(), next.as_str()),
    }
}

/// Returns the slip in the first two words after the program's name, `word` and `next`, or `None`
/// if there is none.
fn slip_at_two(word: &str, next: &str) -> Option<Slip>
    ensures { result ≡ slip_at_two word.now next.now }
{
    if reads_lines(word) && is_no_option(next) {
        return Some(Slip::FileAsWord);
    }
    slip_at(word)
}

/// Returns the slip in the first word after the program's name, or `None` if there is none.
fn slip_at(word: &str) -> Option<Slip>
    ensures { result ≡ slip_at word.now }
{
    if begins("--side", word) {
        return Some(Slip::SideByItself);
    }
    if is_of_sharing(word) {
        return Some(Slip::SharingByItself);
    }
    if is_of_serving(word) {
        return Some(Slip::ServingByItself);
    }
    if is_no_option(word) && !is_mode(word) {
        return Some(Slip::FileAsWord);
    }
    None
}

/// Whether the word begins with `option`.
fn begins(option: &str, word: &str) -> bool
    ensures { result ≡ begins option.now word.now }
{
    word.as_bytes().starts_with(option.as_bytes())
}

/// Whether the word begins with an option that only `replay` and `serve` have: `--users`,
/// `--boards` or `--cache`.
fn is_of_sharing(word: &str) -> bool
    ensures { result ≡ is_of_sharing word.now }
{
    begins("--users", word) || begins("--boards", word) || begins("--cache", word)
}

/// Whether the word begins with an option that only `serve` has: `--port`, `--connections` or
/// `--idle`.
fn is_of_serving(word: &str) -> bool
    ensures { result ≡ is_of_serving word.now }
{
    begins("--port", word) || begins("--connections", word) || begins("--idle", word)
}

/// Whether the word doesn't begin with `-`.
fn is_no_option(word: &str) -> bool
    ensures { result ≡ is_plain word.now }
{
    !begins("-", word)
}

/// Whether the word is a mode that reads lines: `alone` or `replay`.
fn reads_lines(word: &str) -> bool
    ensures { result ≡ reads_lines word.now }
{
    word == "alone" || word == "replay"
}

/// Whether the word is a mode, that is `alone`, `replay` or `serve`, or is `help`.
fn is_mode(word: &str) -> bool
    ensures { result ≡ is_mode word.now }
{
    reads_lines(word) || word == "serve" || word == "help"
}

/// Returns the hint about a slip, which is printed after the reason why the words are refused. It
/// begins and ends with an LF. It is empty if there is no slip.
pub fn hint_of(slip: Option<Slip>) -> &'static str
    ensures { result.now ≡ told_of slip }
{
    match slip {
        None => "",
        Some(Slip::SideByItself) => {
            "\ncam6: --side goes after alone, replay or serve: cam6 alone --side 128\n"
        }
        Some(Slip::SharingByItself) => {
            "\ncam6: --users, --boards and --cache go after replay or serve: cam6 serve --users 4\n"
        }
        Some(Slip::ServingByItself) => {
            "\ncam6: --port, --connections and --idle go after serve: cam6 serve --port 6006\n"
        }
        Some(Slip::FileAsWord) => {
            "\ncam6: lines are read from standard input: cam6 < FILE, or cam6 replay < FILE\n"
        }
    }
}
