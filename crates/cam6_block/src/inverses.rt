//! The table that undoes what a table makes of blocks.
ghost use Rattle.std.specs.Prelude.{◌≡◌, ◌<◌, ◌%◌, ℕ, true, IfOk, IfErr, OnErr, length};
ghost use Rattle.std.specs.Prelude.{slice_index};
ghost use Rattle.cam6_wiring.specs.declared.names.Phase.{Phase};
ghost use Rattle.cam6_wiring.specs.Wiring.{is_margolus};
ghost use Rattle.cam6_entries.specs.Limits.{addresses};
ghost use Rattle.cam6_block.specs.BlockMaps.{by_table, block_map};
ghost use Rattle.cam6_block.specs.BlockMaps.{IsOneToOne, IsReversible};
ghost use Rattle.cam6_block.specs.Inverted.{IsInverted};
ghost use Rattle.cam6_block.specs.Refusals.{IsRefused};

use crate::corners::{CORNERS, STATES, corner_address, corner_bits};
use crate::refusals::{NotReversible, Pair, find_meeting};
use crate::successors::successor;
use cam6_table::Table;
use cam6_wiring::{Hood, Minor, Phase};

/// The phases, each at its number.
const PHASES: [Phase; 4] = [Phase::P0, Phase::P1, Phase::P2, Phase::P3];

/// Writes to `out` the table that undoes what `table` does to blocks. If `table` is not reversible,
/// returns the first reason and leaves `out` unchanged: no Margolus hood, the other half's centres
/// as minor, or two block states with one successor. Does not allocate.
pub fn invert(table: &Table, hood: Hood, minor: Minor, out: &mut Table) -> Result<(), NotReversible>
    ensures inverted { IfOk result (λ _.
        IsInverted (by_table hood minor table.now) hood minor out.new) }
    ensures reversible { IfOk result (λ _.
        IsReversible (by_table hood minor table.now) hood minor) }
    ensures refused { IfErr result (λ cause.
        IsRefused (by_table hood minor table.now) hood minor cause) }
    ensures unchanged { OnErr result (out.new ≡ out.old) }
{
    if !hood.is_margolus() {
        return Err(NotReversible::Hood);
    }
    if let Minor::Centers = minor {
        return Err(NotReversible::Centres);
    }
    for phase in PHASES {
        if let Some(Pair { a, b }) = find_meeting(table, hood, minor, phase) {
            return Err(NotReversible::Meeting { phase, a, b });
        }
    }
    keep_hidden_centres(out);
    fill_shown(table, hood, minor, out);
    out.quicken(hood, minor);
    Ok(())
}

/// Writes to each address of `out` its own two lowest bits, which are the centre. So a cell keeps
/// its bits at an address that no corner sees.
fn keep_hidden_centres(out: &mut Table)
    ensures whole { length out.new ≡ addresses }
    ensures entries { (address : ℕ) → address < addresses →
        slice_index out.new address ≡ address % 4 }
{
    for address in 0..out.len() {
        out.put(address, (address % 4) as u8);
    }
}

/// Writes to `out`, at each address that a corner sees, the bits that the corner had before the
/// step by `table`. `table` must be reversible, and `out` be as `keep_hidden_centres` leaves it.
fn fill_shown(table: &Table, hood: Hood, minor: Minor, out: &mut Table)
    requires margolus { is_margolus hood ≡ true }
    requires one_to_one { (phase : Phase) →
        IsOneToOne (block_map (by_table hood minor table.now) phase) }
    requires whole { length out.old ≡ addresses }
    requires hidden { (address : ℕ) → address < addresses →
        slice_index out.old address ≡ address % 4 }
    ensures { IsInverted (by_table hood minor table.now) hood minor out.new }
{
    for phase in PHASES {
        for state in 0..STATES {
            let state = state as u8;
            let successor = successor(table, hood, minor, phase, state);
            for corner in 0..CORNERS {
                let address = corner_address(hood, minor, phase, successor, corner);
                out.put(address, corner_bits(state, corner));
            }
        }
    }
}
