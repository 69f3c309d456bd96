//! One value for each lane, and what a word makes of two of them in every lane at once.
ghost use Rattle.std.specs.Prelude.{◌≡◌, ◌≢◌, ◌==◌, ◌<◌, ◌∷◌, ◌/◌, ◌%◌, ℕ, List, Ok, IsTrue};
ghost use Rattle.std.specs.Prelude.{slice_index};
ghost use Rattle.cam6_planes.specs.Row.{bit_number};
ghost use Rattle.cam6_wiring.specs.Seen.{shown};
ghost use Rattle.cam6_table.specs.declared.lane_values.TheConstants.{LANES};
ghost use Rattle.cam6_table.specs.Words.{on_stack};
ghost use Rattle.cam6_table.specs.Internal.LaneValues.{Fits, stack_word};
ghost use Rattle.cam6_table.specs.Internal.Sets.{IsIn};

use crate::evaluation::bit_of;
use crate::sets::LaneSet;

/// Addresses at which code runs at once.
pub const LANES: usize = 64;

/// One value for each lane.
pub type LaneValues = [u16; LANES];

/// A stack word that leaves one value of two.
#[derive(Clone, Copy, Debug, PartialEq, Eq)]
pub enum Merge {
    Plus,
    Minus,
    Times,
    And,
    Or,
    Xor,
    Equal,
    Less,
    Greater,
}

impl Merge {
    /// Whether the word's result for `a` below `b` on the stack is from 0 to 65,535. Else the word
    /// stops.
    #[inline(always)]
    fn fits(self, a: u16, b: u16) -> bool
        ensures { IsTrue result → Fits self a b }
    {
        match self {
            Merge::Plus => a <= a.wrapping_add(b),
            Merge::Minus => b <= a,
            Merge::Times => u32::from(a) * u32::from(b) <= 65535,
            Merge::And | Merge::Or | Merge::Xor => true,
            Merge::Equal | Merge::Less | Merge::Greater => true,
        }
    }

    /// Returns the word's result for `a` below `b` on the stack. If the result doesn't fit, returns
    /// a number that means nothing.
    #[inline(always)]
    fn of(self, a: u16, b: u16) -> u16
        ensures { (rest : List ℕ) → Fits self a b →
            on_stack (stack_word self) (b ∷ a ∷ rest) ≡ Ok (result ∷ rest) }
    {
        match self {
            Merge::Plus => a.wrapping_add(b),
            Merge::Minus => a.wrapping_sub(b),
            Merge::Times => a.wrapping_mul(b),
            Merge::And => a & b,
            Merge::Or => a | b,
            Merge::Xor => a ^ b,
            Merge::Equal => u16::from(a == b),
            Merge::Less => u16::from(a < b),
            Merge::Greater => u16::from(a > b),
        }
    }

    /// Whether the word's result fits in each lane of a set, so that it stops in none of them. The
    /// values `a` are below the values `b` on the stacks.
    #[inline(always)]
    pub fn fits_in(self, set: &LaneSet, a: &LaneValues, b: &LaneValues) -> bool
        ensures { IsTrue result → (lane : ℕ) → lane < LANES → IsIn set.now.mask lane →
            Fits self (slice_index a.now lane) (slice_index b.now lane) }
    {
        let mut fits = true;
        for lane in 0..LANES {
            fits &= (set.mask[lane] == 0) | self.fits(a[lane], b[lane]);
        }
        fits
    }

    /// Returns the word's result in each lane in which it fits, and numbers that mean nothing in
    /// the others. The values `a` are below the values `b` on the stacks.
    #[inline(always)]
    pub fn of_all(self, a: &LaneValues, b: &LaneValues) -> LaneValues
        ensures { (lane : ℕ) → lane < LANES → (rest : List ℕ) →
            Fits self (slice_index a.now lane) (slice_index b.now lane) →
            on_stack (stack_word self) (slice_index b.now lane ∷ slice_index a.now lane ∷ rest)
            ≡ Ok (slice_index result lane ∷ rest) }
    {
        let mut values = [0; LANES];
        for lane in 0..LANES {
            values[lane] = self.of(a[lane], b[lane]);
        }
        values
    }
}

/// Returns values that are the same in all lanes.
#[inline(always)]
pub fn in_all(value: u16) -> LaneValues
    ensures { (lane : ℕ) → lane < LANES → slice_index result lane ≡ value }
{
    [value; LANES]
}

/// Sets the value of one lane, from 0 to 63.
#[inline(always)]
pub fn put_value(values: &mut LaneValues, lane: usize, value: u16)
    requires lane { lane < LANES }
    ensures here { slice_index values.new lane ≡ value }
    ensures others { (other : ℕ) → other ≢ lane →
        slice_index values.new other ≡ slice_index values.old other }
{
    values[lane] = value;
}

/// Returns 1 in each lane in which the value is 0, and 0 in the others.
#[inline(always)]
pub fn zeros(values: &LaneValues) -> LaneValues
    ensures { (lane : ℕ) → lane < LANES →
        slice_index result lane ≡ bit_number (slice_index values.now lane == 0) }
{
    let mut zeros = [0; LANES];
    for lane in 0..LANES {
        zeros[lane] = u16::from(values[lane] == 0);
    }
    zeros
}

/// Returns the bit of an address line in each lane's address, 0 or 1. It is 0 for a line above 15.
#[inline(always)]
pub fn bits_of(addresses: &LaneValues, line: u8) -> LaneValues
    ensures { (lane : ℕ) → lane < LANES →
        slice_index result lane ≡ bit_number (shown (slice_index addresses.now lane) line) }
{
    let mut bits = [0; LANES];
    for lane in 0..LANES {
        bits[lane] = bit_of(addresses[lane], line);
    }
    bits
}

/// Returns the lowest bit of each lane's value.
#[inline(always)]
pub fn lowest_bits(values: &LaneValues) -> LaneValues
    ensures { (lane : ℕ) → lane < LANES →
        slice_index result lane ≡ slice_index values.now lane % 2 }
{
    let mut bits = [0; LANES];
    for lane in 0..LANES {
        bits[lane] = values[lane] % 2;
    }
    bits
}

/// Returns half of each lane's value, rounded down.
#[inline(always)]
pub fn halves(values: &LaneValues) -> LaneValues
    ensures { (lane : ℕ) → lane < LANES →
        slice_index result lane ≡ slice_index values.now lane / 2 }
{
    let mut halves = [0; LANES];
    for lane in 0..LANES {
        halves[lane] = values[lane] / 2;
    }
    halves
}
