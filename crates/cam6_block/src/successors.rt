//! What a table makes of a block.
ghost use Rattle.std.specs.Prelude.{◌≡◌, ◌<◌, [], ◌∷◌, true};
ghost use Rattle.cam6_wiring.specs.Seen.{number_of};
ghost use Rattle.cam6_wiring.specs.declared.names.Level.TheVariants.{Lower, Upper};
ghost use Rattle.cam6_wiring.specs.Wiring.{is_margolus};
ghost use Rattle.cam6_entries.specs.NewBits.{bit_for};
ghost use Rattle.cam6_block.specs.Blocks.{corner_sees};
ghost use Rattle.cam6_block.specs.BlockMaps.{by_table, block_map};
ghost use Rattle.cam6_block.specs.declared.corners.TheConstants.{CORNERS};

use crate::corners::{CORNERS, corner_address};
use cam6_table::Table;
use cam6_wiring::{Hood, Minor, Phase};

/// Returns the state that a block with this state gets by the table, at this phase. Bits 0 to 3 are
/// of the lower plane, clockwise from the upper left corner, and bits 4 to 7 of the upper one. The
/// hood must be a Margolus one.
#[tactic(auto, unfolding(crate::specs::BlockMaps::block_map, crate::specs::Blocks::state_of))]
pub(crate) fn successor(table: &Table, hood: Hood, minor: Minor, phase: Phase, state: u8) -> u8
    requires margolus { is_margolus hood ≡ true }
    ensures { result ≡ block_map (by_table hood minor table.now) phase state }
{
    let upper_left = new_bits(table, hood, minor, phase, state, 0);
    let upper_right = new_bits(table, hood, minor, phase, state, 1);
    let lower_right = new_bits(table, hood, minor, phase, state, 2);
    let lower_left = new_bits(table, hood, minor, phase, state, 3);
    let lower_plane = lower_bit(upper_left)
        + 2 * lower_bit(upper_right)
        + 4 * lower_bit(lower_right)
        + 8 * lower_bit(lower_left);
    let upper_plane = upper_bit(upper_left)
        + 2 * upper_bit(upper_right)
        + 4 * upper_bit(lower_right)
        + 8 * upper_bit(lower_left);
    lower_plane + 16 * upper_plane
}

/// Returns the table's entry for a corner, 0 to 3, of a block with this state. Bit 0 is the
/// corner's new lower bit, bit 1 the upper one. The hood must be a Margolus one.
#[tactic(auto, unfolding(crate::specs::Blocks::corner_address))]
fn new_bits(table: &Table, hood: Hood, minor: Minor, phase: Phase, state: u8, corner: u8) -> u8
    requires margolus { is_margolus hood ≡ true }
    requires corner { corner < CORNERS }
    ensures { result ≡ by_table hood minor table.now (corner_sees phase state corner) }
{
    table.at(corner_address(hood, minor, phase, state, corner))
}

/// Returns bit 0 of an entry, the new bit of the lower plane, as 0 or 1.
fn lower_bit(bits: u8) -> u8
    ensures bit { result ≡ number_of (bit_for Lower bits ∷ []) }
    ensures within { result < 2 }
{
    bits % 2
}

/// Returns bit 1 of an entry, the new bit of the upper plane, as 0 or 1.
fn upper_bit(bits: u8) -> u8
    ensures bit { result ≡ number_of (bit_for Upper bits ∷ []) }
    ensures within { result < 2 }
{
    bits / 2 % 2
}
