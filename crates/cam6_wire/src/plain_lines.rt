//! Commands whose lines are spelled plainly: without a space, with `do` first, and with the other
//! keys in the order in which the commands are described. Most lines are. They are read without a
//! JSON value.
ghost use Rattle.std.specs.Prelude.{◌≡◌, ◌≤◌, ◌<◌, ◌^◌, ◌++◌, ◌∷◌, [], Ok, IfSome, codes, decimal};
ghost use Rattle.std.specs.Prelude.{length};
ghost use Rattle.cam6_commands.specs.RuleTexts.{HasText};
ghost use Rattle.cam6_wire.specs.Commands.{command as what_is_said};
ghost use Rattle.cam6_wire.specs.Limits.{max_line};

use crate::limits::LINE_LIMIT;
use cam6_commands::Command;
use cam6_planes::bits_of_digits;

/// Returns the command of a line that is spelled plainly: its keys in the usual order, and no
/// spaces. It is `run`, `back`, `plane`, `row` or `set`. Returns `None` for any other line, and for
/// one of more than 16,384 bytes.
pub(crate) fn plain_command(line: &[u8]) -> Option<Command>
    ensures said { IfSome result (λ command. what_is_said line.now ≡ Ok command) }
    ensures texts { IfSome result (λ command. HasText command) }
{
    if line.len() > LINE_LIMIT {
        return None;
    }
    let word = strip_prefix(line, b"{\"do\":\"".as_slice())?;
    match *word.first()? {
        b'b' => plain_back(line),
        b'p' => plain_plane(line),
        b's' => plain_set(line),
        _ => plain_run_or_row(line),
    }
}

/// Returns the command of a plain line that runs steps or shows a row. The line has at most 16,384
/// bytes. Returns `None` for any other line or spelling.
fn plain_run_or_row(line: &[u8]) -> Option<Command>
    requires short { length line.now ≤ max_line }
    ensures said { IfSome result (λ command. what_is_said line.now ≡ Ok command) }
    ensures texts { IfSome result (λ command. HasText command) }
{
    match plain_run(line) {
        Some(command) => Some(command),
        None => plain_row(line),
    }
}

/// Returns the command of a line `{"do":"run","n":N}`. The line has at most 16,384 bytes. Returns
/// `None` for any other line or spelling.
fn plain_run(line: &[u8]) -> Option<Command>
    requires short { length line.now ≤ max_line }
    ensures said { IfSome result (λ command. what_is_said line.now ≡ Ok command) }
    ensures texts { IfSome result (λ command. HasText command) }
{
    let n = number_within(line, b"{\"do\":\"run\",\"n\":".as_slice())?;
    Some(Command::Run { n })
}

/// Returns the command of a line `{"do":"back","n":N}`. The line has at most 16,384 bytes. Returns
/// `None` for any other line or spelling.
fn plain_back(line: &[u8]) -> Option<Command>
    requires short { length line.now ≤ max_line }
    ensures said { IfSome result (λ command. what_is_said line.now ≡ Ok command) }
    ensures texts { IfSome result (λ command. HasText command) }
{
    let n = number_within(line, b"{\"do\":\"back\",\"n\":".as_slice())?;
    Some(Command::Back { n })
}

/// Returns the command of a line `{"do":"plane","plane":N}`. The line has at most 16,384 bytes.
/// Returns `None` for any other line or spelling.
fn plain_plane(line: &[u8]) -> Option<Command>
    requires short { length line.now ≤ max_line }
    ensures said { IfSome result (λ command. what_is_said line.now ≡ Ok command) }
    ensures texts { IfSome result (λ command. HasText command) }
{
    let plane = number_within(line, b"{\"do\":\"plane\",\"plane\":".as_slice())?;
    Some(Command::Plane { plane })
}

/// Returns the command of a line `{"do":"row","plane":N,"row":N}`. The line has at most 16,384
/// bytes. Returns `None` for any other line or spelling.
fn plain_row(line: &[u8]) -> Option<Command>
    requires short { length line.now ≤ max_line }
    ensures said { IfSome result (λ command. what_is_said line.now ≡ Ok command) }
    ensures texts { IfSome result (λ command. HasText command) }
{
    let (plane, rest) = number_before(strip_prefix(
        line,
        b"{\"do\":\"row\",\"plane\":".as_slice(),
    )?)?;
    let row = number_within(rest, b",\"row\":".as_slice())?;
    Some(Command::Row { plane, row })
}

/// Returns the command of a line `{"do":"set","plane":N,"row":N,"bits":".."}`. The line has at most
/// 16,384 bytes. Returns `None` for any other line or spelling.
fn plain_set(line: &[u8]) -> Option<Command>
    requires short { length line.now ≤ max_line }
    ensures said { IfSome result (λ command. what_is_said line.now ≡ Ok command) }
    ensures texts { IfSome result (λ command. HasText command) }
{
    let (plane, rest) = number_before(strip_prefix(
        line,
        b"{\"do\":\"set\",\"plane\":".as_slice(),
    )?)?;
    let (row, rest) = number_before(strip_prefix(rest, b",\"row\":".as_slice())?)?;
    let rest = strip_prefix(rest, b",\"bits\":\"".as_slice())?;
    let digits = before(rest, b"\"}".as_slice())?;
    let bits = bits_of_digits(digits)?;
    Some(Command::Set { plane, row, bits })
}

/// Returns the number of a text that is `front`, a decimal number and `}`. Returns `None` for any
/// other text, or if the number isn't below 2 to the power of 64.
fn number_within(text: &[u8], front: &[u8]) -> Option<u64>
    ensures { IfSome result (λ n. (text.now ≡ front.now ++ decimal n ++ codes "}")
        × (n < 2 ^ 64)) }
{
    let (n, rest) = number_before(strip_prefix(text, front)?)?;
    let end = strip_prefix(rest, b"}".as_slice())?;
    if !end.is_empty() {
        return None;
    }
    Some(n)
}

/// Returns the number at the start of a text, spelled in decimal as JSON has it, and what comes
/// after it. Returns `None` if the text begins with no such number below 2 to the power of 64.
fn number_before(text: &[u8]) -> Option<(u64, &[u8])>
    ensures { IfSome result (λ found. (text.now ≡ decimal found.0 ++ found.1.now)
        × (found.0 < 2 ^ 64)) }
{
    let n = number_of_digits(text);
    let mut buffer = itoa::Buffer::new();
    let rest = strip_prefix(text, buffer.format(n).as_bytes())?;
    Some((n, rest))
}

/// Returns the number of the decimal digits at the start of a text, modulo 2 to the power of 64. It
/// is 0 if there is none.
fn number_of_digits(text: &[u8]) -> u64 {
    let mut n: u64 = 0;
    for byte in text {
        if !byte.is_ascii_digit() {
            break;
        }
        n = n
            .wrapping_mul(10)
            .wrapping_add(u64::from(byte.wrapping_sub(b'0')));
    }
    n
}

/// Returns what comes after `front`, or `None` if the text doesn't begin with it.
fn strip_prefix<'a>(text: &'a [u8], front: &[u8]) -> Option<&'a [u8]>
    ensures { IfSome result (λ rest. text.now ≡ front.now ++ rest.now) }
{
    let rest = text.strip_prefix(front)?;
    Some(rest)
}

/// Returns the text without `end`, or `None` if the text doesn't end with it.
fn before<'a>(text: &'a [u8], end: &[u8]) -> Option<&'a [u8]>
    ensures { IfSome result (λ rest. text.now ≡ rest.now ++ end.now) }
{
    let rest = text.strip_suffix(end)?;
    Some(rest)
}
