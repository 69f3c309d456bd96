//! Pictures on a terminal, one over the other.
ghost use Rattle.std.specs.Prelude.{◌≡◌, ◌+◌, ◌*◌, ◌/◌, ◌<◌, ◌≤◌, ◌++◌, IfOk, codes, decimal};
ghost use Rattle.std.specs.Prelude.{flat_map, nat_lt, if◌then◌else◌};
ghost use Rattle.std.specs.List.{range_with_len};
ghost use Rattle.cam6_show_frames.specs.Front.{WritesFront};
ghost use Rattle.cam6_show_pictures.specs.Look.{light_shown, most_pixels, pixels_high};
ghost use Rattle.cam6_show_pictures.specs.Terminal.{background_in, plain_background, character, draw_in};
ghost use Rattle.cam6_show_pictures.specs.Terminal.{character_line as character_line_of, hue as hue_of};
ghost use Rattle.cam6_show_pictures.specs.Terminal.{step_of as step_told, terminal as terminal_of};

use crate::looks::{Light, Look};
use cam6_show_frames::{Frame, Screen, Unshown, write_bytes};
use std::alloc::{AllocError, Global};
use std::io::Write;
use std::thread::sleep;
use std::time::{Clock, Duration};

/// A character that draws the upper half of its place, in UTF-8.
const UPPER_HALF: &[u8] = b"\xe2\x96\x80";

/// Shows frames on a terminal, or writes what one takes to another writer.
#[derive(Drop)]
pub struct Terminal<C, W> {
    clock: C,
    /// The least time that a picture stays.
    pause: Option<Duration>,
    writer: W,
    look: Look,
    /// A line of characters.
    line: Vec<u8>,
}

impl<C: Clock, W: Write> Terminal<C, W> {
    ghost use Rattle.std.specs.Prelude.{◌≡◌};

    /// Makes a screen that writes frames with this look to a terminal. Each picture stays at least
    /// for the pause, by the clock. If `pause` is `None`, the next one may follow at once.
    pub fn new(
        alloc: Global,
        clock: C,
        pause: Option<Duration>,
        writer: W,
        look: Look,
    ) -> Terminal<C, W>
        ensures clock { result.clock ≡ clock }
        ensures pause { result.pause ≡ pause }
        ensures writer { result.writer ≡ writer }
        ensures look { result.look ≡ look }
    {
        Terminal {
            clock,
            pause,
            writer,
            look,
            line: Vec::new(alloc),
        }
    }
}

impl<C: Clock, W: Write> Screen for Terminal<C, W> {
    ghost use Rattle.std.specs.Prelude.{List, ℕ, Option};
    ghost use Rattle.cam6_show_frames.specs.Front.{WritesFront};
    ghost use Rattle.cam6_show_pictures.specs.Terminal.{terminal};

    ghost picture = { λ s frame. terminal s.look frame };

    ghost contents = { λ s. W.contents s.writer };

    /// Writes the frame over the one before, and then sleeps for the pause, if there is one.
    fn show(&mut self, frame: &Frame) -> Result<(), Unshown> {
        write_picture(&mut self.writer, &mut self.line, &self.look, frame)?;
        if let Some(pause) = self.pause {
            sleep(&self.clock, pause);
        }
        Ok(())
    }
}

/// Writes the terminal picture of a frame, from the terminal's upper left corner, and clears the
/// rest below it. Uses the vector as scratch for each line of characters.
fn write_picture<W: Write>(
    writer: &mut W,
    line: &mut Vec<u8>,
    look: &Look,
    frame: &Frame,
) -> Result<(), Unshown>
    ensures { WritesFront result (W.contents writer.old) (W.contents writer.new)
        (terminal_of look.now frame.now) }
{
    write_bytes(writer, b"\x1b[H")?;
    write_lines(writer, line, look, frame)?;
    write_bytes(writer, b"\x1b[J")
}

/// Writes all lines of characters of a frame's picture, one for every two rows of pixels. Uses the
/// vector as scratch for each of them.
fn write_lines<W: Write>(
    writer: &mut W,
    line: &mut Vec<u8>,
    look: &Look,
    frame: &Frame,
) -> Result<(), Unshown>
    ensures { WritesFront result (W.contents writer.old) (W.contents writer.new)
        (flat_map (character_line_of look.now frame.now)
        (range_with_len 0 ((pixels_high look.now frame.now + 1) / 2))) }
{
    for k in 0..(look.height(frame) + 1) / 2 {
        let Ok(()) = character_line(line, look, frame, k) else {
            return Err(Unshown::NoMemory);
        };
        write_bytes(writer, line.as_slice())?;
    }
    Ok(())
}

/// Makes line `k` of characters, counted from 0, and its LF, in place of what is in the vector. The
/// line shows the pixels of the rows 2k and 2k + 1. `k` is less than 4,096.
fn character_line(
    line: &mut Vec<u8>,
    look: &Look,
    frame: &Frame,
    k: usize,
) -> Result<(), AllocError>
    requires row { 2 * k < most_pixels }
    ensures { IfOk result (λ _. line.new.items ≡ character_line_of look.now frame.now k) }
{
    line.clear();
    for i in 0..look.width(frame) {
        push_character(line, look, frame, k, i)?;
    }
    line.extend_from_slice(b"\x1b[0m\x1b[K\n")
}

/// Pushes a character after the escape sequences for its two colours. They show the pixels at
/// column `i` of the rows 2k and 2k + 1. `i` is less than 8,192, and `k` less than 4,096.
fn push_character(
    line: &mut Vec<u8>,
    look: &Look,
    frame: &Frame,
    k: usize,
    i: usize,
) -> Result<(), AllocError>
    requires row { 2 * k < most_pixels }
    requires column { i < most_pixels }
    ensures { IfOk result (λ _. line.new.items
        ≡ line.old.items ++ character look.now frame.now k i) }
{
    push_order(line, b"\x1b[38;5;", hue(look.light(frame, i, 2 * k)))?;
    push_background(line, look, frame, i, 2 * k + 1)?;
    line.extend_from_slice(UPPER_HALF)
}

/// Pushes the escape sequence for a character's background. That is the colour of the pixel at
/// column `i`, less than 8,192, of row `j`. It is the terminal's own if the picture has no row `j`.
fn push_background(
    line: &mut Vec<u8>,
    look: &Look,
    frame: &Frame,
    i: usize,
    j: usize,
) -> Result<(), AllocError>
    requires column { i < most_pixels }
    ensures { IfOk result (λ _. line.new.items ≡ line.old.items
        ++ (if nat_lt j (pixels_high look.now frame.now)
        then background_in (hue_of (light_shown look.now frame.now i j)) else plain_background)) }
{
    if j < look.height(frame) {
        push_order(line, b"\x1b[48;5;", hue(look.light(frame, i, j)))
    } else {
        line.extend_from_slice(b"\x1b[49m")
    }
}

/// Pushes an escape sequence: the bytes of `order`, the number in decimal, and the `m` at its end.
fn push_order(line: &mut Vec<u8>, order: &[u8], number: u8) -> Result<(), AllocError>
    ensures { IfOk result (λ _. line.new.items
        ≡ line.old.items ++ (order.now ++ decimal number ++ codes "m")) }
{
    line.extend_from_slice(order)?;
    push_decimal(line, number)?;
    line.extend_from_slice(b"m")
}

/// Pushes a number's decimal digits, without leading zeros.
fn push_decimal(line: &mut Vec<u8>, n: u8) -> Result<(), AllocError>
    ensures { IfOk result (λ _. line.new.items ≡ line.old.items ++ decimal n) }
{
    if n < 10 {
        line.extend_from_slice(&[b'0' + n])
    } else if n < 100 {
        line.extend_from_slice(&[b'0' + n / 10, b'0' + n % 10])
    } else {
        line.extend_from_slice(&[b'0' + n / 100, b'0' + n / 10 % 10, b'0' + n % 10])
    }
}

/// Returns the number, from 16 to 231, of the one of the terminal's 256 colours that shows a light.
fn hue(light: Light) -> u8
    ensures { result ≡ hue_of light }
{
    16 + 36 * step_of(light.red) + 6 * step_of(light.green) + step_of(light.blue)
}

/// Returns the level from 0 to 5 of one of a light's amounts: 0 below 48, 1 below 115, and then one
/// more for every 40.
fn step_of(amount: u8) -> u8
    ensures step { result ≡ step_told amount }
    ensures few { result ≤ 5 }
{
    if amount < 48 {
        0
    } else if amount < 115 {
        1
    } else {
        (amount - 35) / 40
    }
}
