//! What each corner of a block sees in it, and the address that the corner shows.
ghost use Rattle.std.specs.Prelude.{◌≡◌, ◌<◌, ◌+◌, [], ◌∷◌, drop, map, true};
ghost use Rattle.cam6_wiring.specs.Seen.{number_of, line_shows};
ghost use Rattle.cam6_wiring.specs.declared.names.Level.TheVariants.{Lower, Upper};
ghost use Rattle.cam6_wiring.specs.Wiring.{hood_names, minor_names, is_margolus};
ghost use Rattle.cam6_entries.specs.Limits.{addresses};
ghost use Rattle.cam6_block.specs.Blocks.{corner_bit, corner_bits, corner_sees, corner_address};
ghost use Rattle.cam6_block.specs.Blocks.{is_right, is_low};

use cam6_wiring::{Hood, Level, Minor, Phase};

/// Corners of a block.
pub(crate) const CORNERS: u8 = 4;

/// States of a block.
pub(crate) const STATES: u16 = 256;

/// Returns the address, of 12 bits, that a corner of a block with this state sees. It sees its
/// block on lines 0 to 7. The other lines don't depend on the state. Corners 0 to 3 go clockwise
/// from the upper left one. The hood must be a Margolus one.
#[tactic(auto, unfolding(crate::specs::Blocks::corner_address))]
pub(crate) fn corner_address(hood: Hood, minor: Minor, phase: Phase, state: u8, corner: u8) -> u16
    requires margolus { is_margolus hood ≡ true }
    requires corner { corner < CORNERS }
    ensures address { result ≡ corner_address hood minor phase state corner }
    ensures within { result < addresses }
{
    let first_eight = u16::from(block_lines(state, corner));
    let next_two = u16::from(hood_lines(hood, phase, corner));
    let last_two = u16::from(minor_lines(minor, phase, corner));
    first_eight + 256 * next_two + 1024 * last_two
}

/// Returns a corner's two bits in a block's state, as an entry has them. Bit 0 is the lower
/// plane's, and bit 1 the upper one's. Corner 4 is corner 0 again.
#[tactic(auto, unfolding(crate::specs::Blocks::corner_bits))]
pub(crate) fn corner_bits(state: u8, corner: u8) -> u8
    ensures bits { result ≡ corner_bits state corner }
    ensures within { result < 4 }
{
    bit_at(state, Level::Lower, corner) + 2 * bit_at(state, Level::Upper, corner)
}

/// Returns what a corner, 0 to 3, sees on lines 0 to 7, as a number with line 0 as bit 0. First
/// come the corner's own two bits, then the others' lower bits, and then their upper ones. The
/// others are in the order of `bits_beside`.
fn block_lines(state: u8, corner: u8) -> u8
    requires corner { corner < CORNERS }
    ensures { result ≡ number_of
        (corner_bit state Lower corner ∷ corner_bit state Upper corner
        ∷ corner_bit state Lower (corner + 1) ∷ corner_bit state Lower (corner + 3)
        ∷ corner_bit state Lower (corner + 2)
        ∷ corner_bit state Upper (corner + 1) ∷ corner_bit state Upper (corner + 3)
        ∷ corner_bit state Upper (corner + 2) ∷ []) }
{
    let lower = bits_beside(state, Level::Lower, corner);
    let upper = bits_beside(state, Level::Upper, corner);
    corner_bits(state, corner) + 4 * lower + 32 * upper
}

/// Returns the bits that a corner, 0 to 3, sees in one plane, as a number. Bit 0 is of the next
/// corner clockwise, bit 1 of the next counter-clockwise, and bit 2 of the opposite one.
fn bits_beside(state: u8, level: Level, corner: u8) -> u8
    requires corner { corner < CORNERS }
    ensures bits { result ≡ number_of
        (corner_bit state level (corner + 1) ∷ corner_bit state level (corner + 3)
        ∷ corner_bit state level (corner + 2) ∷ []) }
    ensures within { result < 8 }
{
    let clockwise = bit_at(state, level, corner + 1);
    let opposite = bit_at(state, level, corner + 2);
    let counter_clockwise = bit_at(state, level, corner + 3);
    clockwise + 2 * counter_clockwise + 4 * opposite
}

/// Returns the bit that a block's state has at a corner in one plane, 0 or 1. Bits 0 to 3 of the
/// state are the lower plane's, by corner, and bits 4 to 7 the upper one's. Corner 4 is corner 0
/// again.
#[tactic(auto, unfolding(crate::specs::Blocks::corner_bit))]
fn bit_at(state: u8, level: Level, corner: u8) -> u8
    ensures bit { result ≡ number_of (corner_bit state level corner ∷ []) }
    ensures within { result < 2 }
{
    let first = match level {
        Level::Lower => 0,
        Level::Upper => 4,
    };
    state >> (corner % CORNERS + first) & 1
}

/// Returns what a corner sees on lines 8 and 9, as a number from 0 to 3: the phase, or its column
/// plus twice its row in the block. It is 0 for hoods with neither of them there. Line 8 is bit 0.
fn hood_lines(hood: Hood, phase: Phase, corner: u8) -> u8
    ensures lines { result ≡ number_of (map (line_shows (corner_sees phase 0 corner))
        (drop 8 (hood_names hood))) }
    ensures within { result < 4 }
{
    match hood {
        Hood::Moore | Hood::VonNeumann | Hood::Margolus => 0,
        Hood::MargolusPhase => phase.number(),
        Hood::MargolusHorzVert => column_and_row(corner),
    }
}

/// Returns what a corner sees on lines 10 and 11, as a number from 0 to 3: the phase, or its column
/// plus twice its row in the block. Line 10 is bit 0. It is 0 for the other half's centres, of
/// which a block sees nothing.
fn minor_lines(minor: Minor, phase: Phase, corner: u8) -> u8
    ensures lines { result ≡ number_of (map (line_shows (corner_sees phase 0 corner))
        (minor_names minor)) }
    ensures within { result < 4 }
{
    match minor {
        Minor::Centers => 0,
        Minor::Phases => phase.number(),
        Minor::HorzVert => column_and_row(corner),
    }
}

/// Returns where a corner is in its block: 1 in the right column or 0 in the left one, plus 2 in
/// the lower row. Corner 4 is corner 0 again.
fn column_and_row(corner: u8) -> u8
    ensures sides { result ≡ number_of (is_right corner ∷ is_low corner ∷ []) }
    ensures within { result < 4 }
{
    match corner % CORNERS {
        0 => 0,
        1 => 1,
        2 => 3,
        _ => 2,
    }
}
