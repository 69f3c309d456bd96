//! Patterns, read from run-length text.
ghost use Rattle.std.specs.Prelude.{◌≡◌, ◌≤◌, ◌+◌, ℕ, length, IfOk, MatchResult, Ok, Err};
ghost use Rattle.cam6_planes.specs.Side.{side_number};
ghost use Rattle.cam6_patterns.specs.Pattern.{most_states};
ghost use Rattle.cam6_show_frames.specs.Lines.{lines};
ghost use Rattle.cam6_patterns.specs.Body.{nothing_read};
ghost use Rattle.cam6_patterns.specs.Reading.{pattern_in, lines_read, within};
ghost use Rattle.cam6_patterns.specs.Outcome.{boxed, bounds_of, RowsOf};
ghost use Rattle.cam6_patterns.specs.declared.faults.PatternFault.{PatternFault as FaultOf};
ghost use Rattle.cam6_patterns.specs.declared.reading.Unread.TheVariants.{Fault};

use crate::bodies::{Bounds, Cells, Going, fault};
use crate::faults::{Cause, PatternFault};
use crate::headers::{Extent, Head, read_head};
use crate::lines::first_line;
use crate::patterns::{Pattern, PatternRow};
use cam6_planes::Side;
use std::alloc::{AllocError, AllocFailed, Global};

/// Why no pattern was read.
#[derive(Clone, Copy, Debug, PartialEq, Eq)]
pub enum Unread {
    /// The text isn't a pattern.
    Fault(PatternFault),
    /// An allocation for its rows failed.
    NoMemory,
}

impl From<AllocError> for Unread {
    ghost use Rattle.cam6_patterns.specs.declared.reading.Unread.TheVariants.{NoMemory};

    ghost from_gives = { λ _ e. e ≡ NoMemory };

    /// Makes `NoMemory`, which is no fault of the text, of a failed allocation.
    fn from(_refused: AllocError) -> Unread {
        Unread::NoMemory
    }
}

impl<T: Drop> From<AllocFailed<T>> for Unread {
    ghost use Rattle.cam6_patterns.specs.declared.reading.Unread.TheVariants.{NoMemory};

    ghost from_gives = { λ _ e. e ≡ NoMemory };

    /// Drops the value that couldn't be stored, and returns `NoMemory`.
    fn from(_refused: AllocFailed<T>) -> Unread {
        Unread::NoMemory
    }
}

/// Reads the text of a pattern for a torus of this side, whose cells have so many states, at most
/// 16. Returns the pattern, the text's first fault, or `NoMemory` if an allocation fails.
pub fn read_pattern(alloc: Global, side: Side, states: u8, text: &[u8]) -> Result<Pattern, Unread>
    requires { states ≤ most_states }
    ensures pattern { IfOk result (λ p. pattern_in (side_number side) states text.now ≡ Ok p) }
    ensures fault { (f : FaultOf) → result ≡ Err (Fault f) →
        pattern_in (side_number side) states text.now ≡ Err f }
{
    match find_box(side, text) {
        Ok(start) => match read_rows(alloc, start.extent, states, start.lines, start.rest) {
            Ok(rows) => Ok(Pattern::new(start.extent, rows)),
            Err(unread) => Err(unread),
        },
        Err(fault) => Err(Unread::Fault(fault)),
    }
}

/// What comes after the header.
#[derive(Drop)]
struct Start<'a> {
    extent: Extent,
    /// How many lines came before it, the header among them.
    lines: usize,
    rest: &'a [u8],
}

/// Reads the lines up to the header. Returns where the pattern lies, how large it is, and the text
/// after the header. Or returns the first fault of these lines.
#[tactic(auto, unfolding(crate::specs::Reading::pattern_in))]
fn find_box(side: Side, text: &[u8]) -> Result<Start<'_>, PatternFault>
    ensures start { (states : ℕ) → MatchResult result
        (λ s. pattern_in (side_number side) states text.now
        ≡ lines_read (side_number side) states (lines s.rest.now) s.lines
        (within (boxed s.extent) (bounds_of s.extent states) nothing_read))
        (λ f. pattern_in (side_number side) states text.now ≡ Err f) }
    ensures counted { IfOk result (λ s. s.lines + length s.rest.now ≤ length text.now) }
{
    let mut rest = text;
    let mut count = 0;
    let mut corner = None;
    while let Some((line, later)) = first_line(rest) {
        count += 1;
        rest = later;
        match read_head(side, count, corner, line)? {
            Head::Before(found) => corner = found,
            Head::Within(extent) => {
                return Ok(Start {
                    extent,
                    lines: count,
                    rest,
                });
            }
        }
    }
    Err(PatternFault {
        line: count,
        column: 1,
        cause: Cause::NoHeader,
    })
}

/// Reads the rows of cells in the text after the header. `before` is how many lines come before
/// this text. Returns the text's first fault if it has one, or `NoMemory` if an allocation fails.
fn read_rows(
    alloc: Global,
    extent: Extent,
    states: u8,
    before: usize,
    text: &[u8],
) -> Result<Vec<PatternRow>, Unread>
    requires lines { before + length text.now ≤ usize.MAX }
    ensures { (side : ℕ) → RowsOf
        (lines_read side states (lines text.now) before
        (within (boxed extent) (bounds_of extent states) nothing_read))
        (boxed extent) result }
{
    let bounds = Bounds {
        width: extent.width,
        height: extent.height,
        states,
    };
    let mut cells = Cells::new(alloc);
    let mut rest = text;
    let mut count = before;
    while let Some((line, later)) = first_line(rest) {
        count += 1;
        rest = later;
        match cells.read_line(&bounds, count, line) {
            Ok(Going::More) => {}
            Ok(Going::Over) => {
                let rows = cells.into_rows()?;
                return Ok(rows);
            }
            Err(unread) => return Err(unread),
        }
    }
    Err(fault(count, 1, Cause::NoEnd))
}
