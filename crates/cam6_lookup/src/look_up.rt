//! Two planes' words of the bits of entries.
ghost use Rattle.std.specs.Prelude.{◌≡◌, ◌≢◌, ◌<◌, ◌≤◌, ◌+◌, ◌-◌, ◌*◌, ◌%◌, ◌^◌, ℕ, length, map};
ghost use Rattle.std.specs.Prelude.{slice_index};
ghost use Rattle.std.specs.Int.{bit_at};
ghost use Rattle.cam6_planes.specs.Row.{column_bit};
ghost use Rattle.cam6_planes.specs.Side.{side_number};
ghost use Rattle.cam6_wiring.specs.declared.wirings.TheConstants.{LINES};
ghost use Rattle.cam6_wiring.specs.Lines.{address_in};
ghost use Rattle.cam6_lookup.specs.Entries.{entry_bit};
ghost use Rattle.cam6_lookup.specs.Transposed.{lane_address, shown_at};

use crate::swap::{Sixteen, shown_addresses};
use cam6_planes::{Row, Side, WORDS};
use cam6_wiring::{LINES, Lines};

/// Writes two rows. At each column, `lower` gets the lowest bit, and `upper` the next, of the entry
/// at the address that the lines show there. Line k is bit k of the address. There have to be 4096
/// entries. Words past the side may hold anything.
pub fn look_up_rows(lower: &mut Row, upper: &mut Row, lines: &Lines, side: Side, entries: &[u8])
    requires { length entries.now ≡ 2 ^ LINES }
    ensures lower { (x : ℕ) → x < side_number side →
        column_bit lower.new x ≡ entry_bit entries.now (address_in lines.now x) 0 }
    ensures upper { (x : ℕ) → x < side_number side →
        column_bit upper.new x ≡ entry_bit entries.now (address_in lines.now x) 1 }
{
    let rows = [
        &lines[0], &lines[1], &lines[2], &lines[3], &lines[4], &lines[5], &lines[6], &lines[7],
        &lines[8], &lines[9], &lines[10], &lines[11],
    ];
    look_up_words::<WORDS>(lower, upper, &rows, side.number() / 64, entries);
}

/// Writes the first `count` words, an even number up to `N`, of two planes. At each column, `lower`
/// gets the lowest bit, and `upper` the next, of the entry at the address that the lines show
/// there. Line k is bit k of the address. There have to be 4096 entries. Words past these may hold
/// anything.
pub fn look_up_words<const N: usize>(
    lower: &mut [u64; N],
    upper: &mut [u64; N],
    lines: &[&[u64; N]; LINES],
    count: usize,
    entries: &[u8],
)
    requires even { count % 2 ≡ 0 }
    requires within { count ≤ N }
    requires entries { length entries.now ≡ 2 ^ LINES }
    ensures lower { (c : ℕ) → c < 64 * count → column_bit lower.new c
        ≡ entry_bit entries.now (address_in (map (λ line. line.now) lines.now) c) 0 }
    ensures upper { (c : ℕ) → c < 64 * count → column_bit upper.new c
        ≡ entry_bit entries.now (address_in (map (λ line. line.now) lines.now) c) 1 }
{
    for chunk in 0..count / 2 {
        let rows = shown_addresses::<N>(lines, 2 * chunk);
        let (first_lower, first_upper) = words(&rows, 0, entries);
        let (second_lower, second_upper) = words(&rows, 1, entries);
        lower[2 * chunk] = first_lower;
        upper[2 * chunk] = first_upper;
        lower[2 * chunk + 1] = second_lower;
        upper[2 * chunk + 1] = second_upper;
    }
}

/// Returns word `i`, 0 or 1, of the lower plane, and of the upper one. Each position has the bit of
/// the entry at the address that `rows` has for it, as `shown_addresses` makes them. There have to
/// be 4096 entries.
fn words(rows: &Sixteen, i: usize, entries: &[u8]) -> (u64, u64)
    requires word { i < 2 }
    requires entries { length entries.now ≡ 2 ^ LINES }
    ensures lower { (p : ℕ) → p < 64 →
        bit_at result.0 p ≡ bit_at (slice_index entries.now (shown_at rows.now i p)) 0 }
    ensures upper { (p : ℕ) → p < 64 →
        bit_at result.1 p ≡ bit_at (slice_index entries.now (shown_at rows.now i p)) 1 }
{
    let mut lower = 0;
    let mut upper = 0;
    for pass in 0..16 {
        let four = four_entries(rows, 15 - pass, i, entries);
        lower = one_more(lower, four);
        upper = one_more(upper, four >> 1);
    }
    (lower, upper)
}

/// The first position of each lane.
const FIRST_POSITIONS: u64 = 0x0001_0001_0001_0001;

/// Moves the bits of each lane of sixteen bits one position up. The lowest bit of each lane becomes
/// that of `four`. The highest bit of each lane has to be 0, or it falls into the next lane.
fn one_more(word: u64, four: u64) -> u64
    ensures first { (p : ℕ) → p < 64 → p % 16 ≡ 0 → (0 < p → bit_at word (p - 1) ≡ 0) →
        bit_at result p ≡ bit_at four p }
    ensures others { (p : ℕ) → p < 64 → p % 16 ≢ 0 → bit_at result p ≡ bit_at word (p - 1) }
{
    word << 1 | four & FIRST_POSITIONS
}

/// Returns four entries, each in a lane of sixteen bits. They are those at the addresses in the
/// four lanes of word `i`, 0 or 1, of row `k`, below 16. The lowest lane comes from the lowest one,
/// and only twelve bits of an address are used. There have to be 4096 entries.
fn four_entries(rows: &Sixteen, k: usize, i: usize, entries: &[u8]) -> u64
    requires row { k < 16 }
    requires word { i < 2 }
    requires entries { length entries.now ≡ 2 ^ LINES }
    ensures { (l r : ℕ) → l < 4 → r < 16 → bit_at result (16 * l + r)
        ≡ bit_at (slice_index entries.now (lane_address rows.now k i l)) r }
{
    let word = rows[k][i];
    in_lanes(
        entries[(word & 4095) as usize],
        entries[(word >> 16 & 4095) as usize],
        entries[(word >> 32 & 4095) as usize],
        entries[(word >> 48 & 4095) as usize],
    )
}

/// Returns a word with these four bytes, each at the low end of a lane of sixteen bits whose other
/// bits are 0. `a` has the lowest lane.
fn in_lanes(a: u8, b: u8, c: u8, d: u8) -> u64
    ensures first { (r : ℕ) → r < 16 → bit_at result r ≡ bit_at a r }
    ensures second { (r : ℕ) → r < 16 → bit_at result (16 + r) ≡ bit_at b r }
    ensures third { (r : ℕ) → r < 16 → bit_at result (32 + r) ≡ bit_at c r }
    ensures fourth { (r : ℕ) → r < 16 → bit_at result (48 + r) ≡ bit_at d r }
{
    u64::from(a) | u64::from(b) << 16 | u64::from(c) << 32 | u64::from(d) << 48
}
