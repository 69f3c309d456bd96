//! The program of entries under a neighbourhood.
//!
//! Under N/MARG no cell shows 1 on lines 8 and 9, which have no name. So the program need not tell
//! apart the addresses that differ there. A table that undoes blocks has entries at them that have
//! nothing to do with its blocks, and would have longer programs for them.
ghost use Rattle.std.specs.Prelude.{◌≡◌, ◌<◌, ℕ, IfSome, length, slice_index};
ghost use Rattle.cam6_wiring.specs.declared.wirings.Minor.{Minor};
ghost use Rattle.cam6_entries.specs.Limits.{addresses};
ghost use Rattle.cam6_entries.specs.Programs.{ComputesUnder, without_lines_8_and_9};

use cam6_program::Program;
use cam6_wiring::Hood;

/// Returns a program that makes the lowest two bits of the entry at each address that a cell can
/// have under this neighbourhood. There have to be 4096 entries. Returns `None` if it finds none
/// that is short enough. Does not allocate.
pub(crate) fn program_under(entries: &[u8], hood: Hood) -> Option<Program>
    requires { length entries.now ≡ addresses }
    ensures { IfSome result (λ program. (minor : Minor) →
        ComputesUnder hood minor entries.now program) }
{
    match hood {
        Hood::Margolus => Program::of(&without_lines_8_and_9(entries)),
        Hood::Moore | Hood::VonNeumann | Hood::MargolusPhase | Hood::MargolusHorzVert => {
            Program::of(entries)
        }
    }
}

/// Returns entries that don't depend on lines 8 and 9. Each is the given entry at its address with
/// 0 on these lines. There have to be 4096 given entries.
fn without_lines_8_and_9(entries: &[u8]) -> [u8; 4096]
    requires { length entries.now ≡ addresses }
    ensures { (address : ℕ) → address < addresses →
        slice_index result address ≡ slice_index entries.now (without_lines_8_and_9 address) }
{
    let mut shown = [0; 4096];
    for address in 0..4096 {
        shown[address] = entries[1024 * (address / 1024) + address % 256];
    }
    shown
}
