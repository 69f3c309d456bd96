//! Frames, written as run-length texts.
ghost use Rattle.std.specs.Prelude.{◌≡◌, ◌<◌, ◌≤◌, ◌+◌, ◌++◌, [], ◌∷◌, OnOk, IfOk, take, length};
ghost use Rattle.std.specs.Prelude.{get_or, nat_lt, codes};
ghost use Rattle.std.specs.List.{AllByRecursion, list_all};
ghost use Rattle.cam6_patterns.specs.Pattern.{most_cells, most_states};
ghost use Rattle.cam6_patterns.specs.Writing.{text_of_frame, header, row_by_row, row_ends, runs};
ghost use Rattle.cam6_patterns.specs.Writing.{filled, counted, letter, trimmed, states_of};
ghost use Rattle.cam6_patterns.specs.Outcome.{Fills, FillsRow};

use arrayvec::ArrayVec;
use cam6_planes::COLUMNS;
use cam6_show_frames::{Frame, Screen, Unshown, write_bytes};
use itoa::Buffer;
use std::alloc::{AllocError, Global};
use std::io::Write;

/// A writer of run-length texts, one after the other.
#[derive(Drop)]
pub struct PatternTexts<W> {
    writer: W,
    /// The name of a rule, or nothing.
    rule: String,
    /// The text that is being made.
    text: Vec<u8>,
}

impl<W: Write> PatternTexts<W> {
    ghost use Rattle.std.specs.Prelude.{◌≡◌, string_bytes};

    /// Makes a screen that writes each frame as the text of a pattern. `rule` is the name of the
    /// rule in their headers, or empty for none.
    pub fn new(alloc: Global, writer: W, rule: String) -> PatternTexts<W>
        ensures writer { result.writer ≡ writer }
        ensures rule { result.rule ≡ rule }
    {
        PatternTexts {
            writer,
            rule,
            text: Vec::new(alloc),
        }
    }
}

impl<W: Write> Screen for PatternTexts<W> {
    ghost use Rattle.std.specs.Prelude.{List, ℕ, Option, string_bytes};
    ghost use Rattle.cam6_show_frames.specs.Front.{WritesFront};
    ghost use Rattle.cam6_patterns.specs.Writing.{text_of_frame};

    ghost picture = { λ s frame. text_of_frame (string_bytes s.rule) frame };

    ghost contents = { λ s. W.contents s.writer };

    /// Makes the text of the frame, and writes it. Uses the memory of the text before again.
    fn show(&mut self, frame: &Frame) -> Result<(), Unshown> {
        match make_text(&mut self.text, self.rule.as_bytes(), frame) {
            Ok(()) => write_bytes(&mut self.writer, &self.text),
            Err(_) => Err(Unshown::NoMemory),
        }
    }
}

/// Makes the text of a frame in the vector, in place of what is there. `rule` is the name in its
/// header, or empty.
fn make_text(text: &mut Vec<u8>, rule: &[u8], frame: &Frame) -> Result<(), AllocError>
    ensures { OnOk result (text.new.items ≡ text_of_frame rule.now frame.now) }
{
    text.clear();
    push_header(text, frame.side().number(), rule)?;
    push_rows(text, states_of(frame), frame)?;
    text.extend_from_slice(b"\n")?;
    Ok(())
}

/// Pushes the header of a pattern of `side` rows and columns, with the rule's name if it isn't
/// empty.
fn push_header(text: &mut Vec<u8>, side: usize, rule: &[u8]) -> Result<(), AllocError>
    ensures { OnOk result
        (text.new.items ≡ text.old.items ++ header side side rule.now) }
{
    let mut buffer = Buffer::new();
    let number = buffer.format(side).as_bytes();
    text.extend_from_slice(b"x = ")?;
    text.extend_from_slice(number)?;
    text.extend_from_slice(b", y = ")?;
    text.extend_from_slice(number)?;
    if !rule.is_empty() {
        text.extend_from_slice(b", rule = ")?;
        text.extend_from_slice(rule)?;
    }
    text.extend_from_slice(b"\n")
}

/// Pushes all rows of a frame, and the `!` at the end, but not the LF after it. `states` is 2 or
/// 16, as `states_of` returns it.
fn push_rows(text: &mut Vec<u8>, states: u8, frame: &Frame) -> Result<(), AllocError>
    ensures { OnOk result (text.old.items ++ filled 0 (row_by_row states 0 frame.now)
        ≡ text.new.items ++ codes "\n") }
{
    let side = frame.side().number();
    let mut used = 0;
    let mut ends = 0;
    for y in 0..side {
        let row = row_cells(frame, y);
        let now = push_row(text, used, states, ends, &row[..side])?;
        used = now.0;
        ends = now.1;
    }
    let _used = push_part(text, used, b"!")?;
    Ok(())
}

/// Pushes the `ends` row ends, at most 512, that aren't written yet, and then a row of states below
/// 16. A row of zeros alone is only counted as a row end. `used` is how many bytes the last line
/// has. Returns this number after it, and how many row ends are then not written yet.
fn push_row(
    text: &mut Vec<u8>,
    used: usize,
    states: u8,
    ends: usize,
    row: &[u8],
) -> Result<(usize, usize), AllocError>
    requires ends { ends ≤ most_cells }
    requires row { AllByRecursion (λ cell. cell < most_states) row.now }
    ensures parts { IfOk result (λ now. FillsRow text.old.items used states ends row.now
        text.new.items now.0 now.1) }
    ensures ends { IfOk result (λ now. now.1 ≤ ends + 1) }
{
    let cells = trimmed(row);
    if cells.is_empty() {
        return Ok((used, ends + 1));
    }
    let used = push_row_ends(text, used, ends)?;
    let used = push_runs(text, used, states, cells)?;
    Ok((used, 1))
}

/// Pushes a `$` with the count `ends`, or nothing for 0. `used` is how many bytes the last line
/// has. Returns this number after it.
fn push_row_ends(text: &mut Vec<u8>, used: usize, ends: usize) -> Result<usize, AllocError>
    ensures { IfOk result (λ after.
        Fills text.old.items used (row_ends ends) text.new.items after) }
{
    if ends == 0 {
        return Ok(used);
    }
    push_part(text, used, counted(ends, b'$').as_slice())
}

/// Pushes the runs of equal cells of a row. Each cell is less than 16. `states` chooses their
/// letters, as `letter` says. `used` is how many bytes the last line has. Returns this number after
/// it.
fn push_runs(text: &mut Vec<u8>, used: usize, states: u8, cells: &[u8]) -> Result<usize, AllocError>
    requires { AllByRecursion (λ cell. cell < most_states) cells.now }
    ensures { IfOk result (λ after.
        Fills text.old.items used (runs states cells.now) text.new.items after) }
{
    let Some((first, later)) = cells.split_first() else {
        return Ok(used);
    };
    let mut rest = later;
    let mut state = *first;
    let mut count = 1;
    let mut used = used;
    while let Some((cell, later)) = rest.split_first() {
        rest = later;
        if *cell == state {
            count += 1;
            continue;
        }
        used = push_part(text, used, counted(count, letter(states, state)).as_slice())?;
        state = *cell;
        count = 1;
    }
    push_part(text, used, counted(count, letter(states, state)).as_slice())
}

/// Pushes a part, such as `3o`, `$` or `!`, on a new line if the last one would have more than 70
/// bytes. `used` is how many bytes the last line has. Returns this number after it.
fn push_part(text: &mut Vec<u8>, used: usize, part: &[u8]) -> Result<usize, AllocError>
    ensures { IfOk result (λ after.
        Fills text.old.items used (part.now ∷ []) text.new.items after) }
{
    if LINE_LENGTH < used || LINE_LENGTH - used < part.len() {
        text.extend_from_slice(b"\n")?;
        text.extend_from_slice(part)?;
        return Ok(part.len());
    }
    text.extend_from_slice(part)?;
    Ok(used + part.len())
}

/// The most bytes of a line.
const LINE_LENGTH: usize = 70;

/// A number and a letter.
type Part = ArrayVec<u8, 48>;

/// Returns a part: the count and the letter, or the letter alone for a count of 1.
fn counted(count: usize, letter: u8) -> Part
    ensures { result.items ≡ counted count letter }
{
    let mut part = Part::new();
    if count != 1 {
        let mut buffer = Buffer::new();
        part.try_extend_from_slice(buffer.format(count).as_bytes())
            .unwrap();
    }
    part.push(letter);
    part
}

/// Returns the letter of a state below 16. If there are at most two states, it is `b` for 0 or else
/// `o`. If there are more, it is `.` for 0 and `A` to `O` for 1 to 15.
fn letter(states: u8, state: u8) -> u8
    requires { state < most_states }
    ensures { result ≡ letter states state }
{
    if states <= 2 {
        return if state == 0 { b'b' } else { b'o' };
    }
    if state == 0 { b'.' } else { 64 + state }
}

/// Returns the row up to its last cell of another state than 0. It is empty if there is none.
fn trimmed(row: &[u8]) -> &[u8]
    ensures { result.now ≡ trimmed row.now }
{
    let mut cells = row;
    while let Some((last, front)) = cells.split_last() {
        if *last != 0 {
            return cells;
        }
        cells = front;
    }
    cells
}

/// Returns how many states a frame's text has: 2 if all cells are 0 or 1, or else 16.
fn states_of(frame: &Frame) -> u8
    ensures { result ≡ states_of frame.now }
{
    let side = frame.side().number();
    for y in 0..side {
        let row = row_cells(frame, y);
        if !are_two_states(&row[..side]) {
            return 16;
        }
    }
    2
}

/// Returns whether each cell is 0 or 1.
fn are_two_states(cells: &[u8]) -> bool
    ensures { result ≡ list_all (λ cell. nat_lt cell 2) cells.now }
{
    let mut rest = cells;
    while let Some((cell, later)) = rest.split_first() {
        if *cell >= 2 {
            return false;
        }
        rest = later;
    }
    true
}

/// Returns the cells of row `y` of a frame, counted from 0, and zeros after them. The frame has
/// this row.
fn row_cells(frame: &Frame, y: usize) -> [u8; COLUMNS]
    requires { y < length frame.now }
    ensures { take (length frame.now) result ≡ get_or frame.now y [] }
{
    let mut cells = [0; COLUMNS];
    for x in 0..frame.side().number() {
        cells[x] = frame.colour(x, y);
    }
    cells
}
