//! The operations of a step, at all columns of units at once. Each writes the first `words` words,
//! and leaves those past them as they are.
ghost use Rattle.std.specs.Prelude.{◌≡◌, ◌<◌, ◌≤◌, ◌*◌, ℕ, not, ◌&&◌, ◌||◌, if◌then◌else◌};
ghost use Rattle.cam6_planes.specs.Row.{column_bit};
ghost use Rattle.cam6_lines.specs.declared.units.TheConstants.{UNIT};

use cam6_lines::{UNIT, Unit};

/// Writes the bits of `high` where `by` is 1, and those of `low` where it is 0. Only the first
/// `words` words of `out`, at most `UNIT`, are written.
#[inline(always)]
pub(crate) fn put_choice(out: &mut Unit, by: &Unit, low: &Unit, high: &Unit, words: usize)
    requires { words ≤ UNIT }
    ensures { (c : ℕ) → c < 64 * words → column_bit out.new c ≡
        (if column_bit by.now c then column_bit high.now c else column_bit low.now c) }
{
    for k in 0..words {
        out[k] = low[k] ^ (by[k] & (low[k] ^ high[k]));
    }
}

/// Writes the bits of `high` inverted where `by` is 1, and those of `low` where it is 0. Only the
/// first `words` words of `out`, at most `UNIT`, are written.
#[inline(always)]
pub(crate) fn put_choice_not(out: &mut Unit, by: &Unit, low: &Unit, high: &Unit, words: usize)
    requires { words ≤ UNIT }
    ensures { (c : ℕ) → c < 64 * words → column_bit out.new c ≡
        (if column_bit by.now c then not (column_bit high.now c) else column_bit low.now c) }
{
    for k in 0..words {
        out[k] = low[k] ^ (by[k] & (low[k] ^ !high[k]));
    }
}

/// Writes 1 where both units are 1, and else 0, in the first `words` words of `out`, at most
/// `UNIT`.
#[inline(always)]
pub(crate) fn put_and(out: &mut Unit, first: &Unit, second: &Unit, words: usize)
    requires { words ≤ UNIT }
    ensures { (c : ℕ) → c < 64 * words → column_bit out.new c ≡
        (column_bit first.now c && column_bit second.now c) }
{
    for k in 0..words {
        out[k] = first[k] & second[k];
    }
}

/// Writes 1 where the first unit is 1 and the second is 0, and else 0. Only the first `words` words
/// of `out`, at most `UNIT`, are written.
#[inline(always)]
pub(crate) fn put_and_not(out: &mut Unit, first: &Unit, second: &Unit, words: usize)
    requires { words ≤ UNIT }
    ensures { (c : ℕ) → c < 64 * words → column_bit out.new c ≡
        (column_bit first.now c && not (column_bit second.now c)) }
{
    for k in 0..words {
        out[k] = first[k] & !second[k];
    }
}

/// Writes 1 where the first or the second unit is 1, and else 0, in the first `words` words of
/// `out`, at most `UNIT`.
#[inline(always)]
pub(crate) fn put_or(out: &mut Unit, first: &Unit, second: &Unit, words: usize)
    requires { words ≤ UNIT }
    ensures { (c : ℕ) → c < 64 * words → column_bit out.new c ≡
        (column_bit first.now c || column_bit second.now c) }
{
    for k in 0..words {
        out[k] = first[k] | second[k];
    }
}

/// Writes 1 where the first unit is 1 or the second is 0, and else 0. Only the first `words` words
/// of `out`, at most `UNIT`, are written.
#[inline(always)]
pub(crate) fn put_or_not(out: &mut Unit, first: &Unit, second: &Unit, words: usize)
    requires { words ≤ UNIT }
    ensures { (c : ℕ) → c < 64 * words → column_bit out.new c ≡
        (column_bit first.now c || not (column_bit second.now c)) }
{
    for k in 0..words {
        out[k] = first[k] | !second[k];
    }
}

/// Writes 1 where exactly one of both units is 1, and else 0, in the first `words` words of `out`,
/// at most `UNIT`.
#[inline(always)]
pub(crate) fn put_xor(out: &mut Unit, first: &Unit, second: &Unit, words: usize)
    requires { words ≤ UNIT }
    ensures { (c : ℕ) → c < 64 * words → column_bit out.new c ≡
        (if column_bit first.now c then not (column_bit second.now c)
        else column_bit second.now c) }
{
    for k in 0..words {
        out[k] = first[k] ^ second[k];
    }
}
