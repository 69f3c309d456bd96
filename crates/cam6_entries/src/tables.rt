//! A rule's table: its entry at each address.
ghost use Rattle.std.specs.Prelude.{◌≡◌, ◌<◌, ℕ, IfOk, length};
ghost use Rattle.std.specs.Prelude.{slice_index, replicate};
ghost use Rattle.cam6_entries.specs.declared.tables.TheConstants.{ENTRIES};

use crate::bands::asked_by;
use crate::programs::program_under;
use cam6_lines::Plan;
use cam6_lookup::look_up_rows;
use cam6_planes::{NoMemory, Row, Side};
use cam6_program::Program;
use cam6_wiring::{Hood, Lines, Minor};
use std::alloc::Global;
use std::marker::Model;

/// Entries of a table, one for each address.
pub const ENTRIES: u16 = 4096;

/// Two new bits for each address: bit 0 the lower plane's, bit 1 the upper plane's. Contracts see a
/// table as the list of its entries.
#[derive(Drop)]
pub struct Table {
    pub(crate) entries: Vec<u8>,
    /// A program that makes the entries' bits under the plan's wiring, if the table was given one.
    pub(crate) program: Option<Program>,
    /// How the lines are seen under the wiring for which the table was quickened: those for which
    /// the program asks, or all of them without a program.
    pub(crate) plan: Option<Plan>,
}

impl Model for Table {
    ghost use Rattle.std.specs.Prelude.{◌≡◌, List, ℕ, IfSome, vec_len};
    ghost use Rattle.cam6_entries.specs.Limits.{addresses};
    ghost use Rattle.cam6_entries.specs.Programs.{ComputesUnder};

    ghost Value = { List ℕ };

    ghost view = { λ t. t.entries.items };

    ghost invariant = { λ t. (vec_len t.entries ≡ addresses)
        × IfSome t.program (λ program. IfSome t.plan (λ plan.
        ComputesUnder plan.hood plan.minor t.entries.items program)) };
}

impl Table {
    ghost use Rattle.std.specs.Prelude.{◌<◌, ℕ, length, slice_set};
    ghost use Rattle.cam6_planes.specs.Row.{column_bit};
    ghost use Rattle.cam6_planes.specs.Side.{side_number};
    ghost use Rattle.cam6_wiring.specs.Lines.{address_in};
    ghost use Rattle.cam6_wiring.specs.declared.names.Level.TheVariants.{Lower, Upper};
    ghost use Rattle.cam6_entries.specs.NewBits.{bit_for};

    /// Allocates a table with every entry 0 and without a program. Returns `NoMemory` if the
    /// allocation fails.
    pub fn blank(alloc: Global) -> Result<Table, NoMemory>
        ensures { IfOk result (λ table. table ≡ replicate ENTRIES 0) }
    {
        let entries = vec![in alloc; 0; usize::from(ENTRIES)]?;
        Ok(Table {
            entries,
            program: None,
            plan: None,
        })
    }

    /// The number of entries: 4,096 in every table.
    pub fn len(&self) -> u16
        ensures entries { result ≡ length self.now }
        ensures whole { result ≡ ENTRIES }
    {
        prove!(self.entries.len() == usize::from(ENTRIES));
        ENTRIES
    }

    /// Returns the entry at an address, from 0 to 4095.
    pub fn at(&self, address: u16) -> u8
        requires { address < ENTRIES }
        ensures { result ≡ slice_index self.now address }
    {
        self.entries[usize::from(address)]
    }

    /// Writes the entry at an address, from 0 to 4095, and removes the table's program if there is
    /// one. A cell gets only the entry's two lowest bits.
    pub fn put(&mut self, address: u16, entry: u8)
        requires { address < ENTRIES }
        ensures { self.new ≡ slice_set self.old address entry }
    {
        let position = usize::from(address);
        self.entries[position] = entry;
        // Emptying the program's place costs more than the entry, and there is seldom one.
        if self.program.is_some() {
            self.program = None;
        }
    }

    /// Writes both planes' new rows. At each column, `lower` gets bit 0, the lowest, and `upper`
    /// bit 1 of the entry at the address that the lines show there. Line k is bit k of the address.
    /// Words past the side may hold anything.
    pub fn look_up(&self, lower: &mut Row, upper: &mut Row, lines: &Lines, side: Side)
        ensures lower { (x : ℕ) → x < side_number side → column_bit lower.new x
            ≡ bit_for Lower (slice_index self.now (address_in lines.now x)) }
        ensures upper { (x : ℕ) → x < side_number side → column_bit upper.new x
            ≡ bit_for Upper (slice_index self.now (address_in lines.now x)) }
    {
        look_up_rows(lower, upper, lines, side, &self.entries);
    }

    /// Gives the table a program, if its entries have a short one, and a plan of the lines for this
    /// neighbourhood and minor assignment. They replace those that it had. Both make bands faster
    /// under this wiring, and change no bits under any. Copies of the table get them too. Writing
    /// an entry removes the program. Does not allocate.
    pub fn quicken(&mut self, hood: Hood, minor: Minor)
        ensures { self.new ≡ self.old }
    {
        self.program = program_under(&self.entries, hood);
        self.plan = Some(Plan::of(asked_by(&self.program), hood, minor));
    }

    /// Makes the table a copy of another one, with its program and plan. Does not allocate.
    pub fn copy_from(&mut self, other: &Table)
        ensures { self.new ≡ other.now }
    {
        self.entries.copy_from_slice(&other.entries);
        self.program = match &other.program {
            Some(program) => Some(program.copy()),
            None => None,
        };
        self.plan = match &other.plan {
            Some(plan) => Some(plan.copy()),
            None => None,
        };
    }
}
