//! Tables that remember for which way along a cycle they are filled, in memory that they have from
//! the beginning. They lie as the cycle needs them: a table for each use of a rule.
ghost use Rattle.std.specs.Prelude.{◌≡◌, ◌≢◌, ℕ, false, length, None, Some, Err, IfOk, OnOk};
ghost use Rattle.std.specs.Result.{result_err};
ghost use Rattle.cam6_cycle.specs.Limits.{max_tables};
ghost use Rattle.cam6_forth.specs.Reading.{keeps};
ghost use Rattle.cam6_table.specs.RuleTexts.{IsCodeFor};
ghost use Rattle.cam6_table.specs.Compiling.{fault_in, IsRefusedFor};

use crate::filling::fill_entries;
use crate::rules::Rules;
use cam6_commands::Refusal;
use cam6_cycle::{Cycle, Direction, MAX_TABLES};
use cam6_planes::NoMemory;
use cam6_table::{Code, NotCompiled, Table, compile};
use cam6_wiring::Wiring;
use std::alloc::Global;
use std::marker::Model;

/// Memory for the tables of a cycle's rules, and scratch to try a rule. Contracts see what the
/// tables have, and for which way they are filled.
#[derive(Drop)]
pub struct Tables {
    /// A table for each use of a rule.
    by_use: Vec<Table>,
    /// Scratch to try a rule, and for a table that is inverted. It lies apart, so that tables are
    /// moved without it.
    trial: Box<Table>,
    /// The way along the cycle for which they are filled.
    filled: Option<Direction>,
}

impl Model for Tables {
    ghost use Rattle.std.specs.Prelude.{◌≡◌, vec_len};
    ghost use Rattle.cam6_cycle.specs.Limits.{max_tables};
    ghost use Rattle.cam6_rules.specs.Filled.{StoredTables};

    ghost Value = { StoredTables };

    ghost view = { λ t. record { entries = t.by_use.items; filled = t.filled } };

    ghost invariant = { λ t. vec_len t.by_use ≡ max_tables };
}

impl Tables {
    ghost use Rattle.cam6_rules.specs.Numbers.{named_entries};
    ghost use Rattle.cam6_rules.specs.Filled.{AreTrue, AreTablesOf, way_refusal};

    /// Allocates the tables of the longest cycle, 32, and one to try rules. None of them is filled.
    pub fn blank(alloc: Global) -> Result<Tables, NoMemory>
        ensures filled { IfOk result (λ tables. tables.filled ≡ None) }
    {
        let mut by_use = Vec::with_capacity(alloc, MAX_TABLES)?;
        for _use in 0..MAX_TABLES {
            by_use.push(Table::blank(alloc)?)?;
        }
        let trial = Box::new(alloc, Table::blank(alloc)?)?;
        Ok(Tables {
            by_use,
            trial,
            filled: None,
        })
    }

    /// Lends all tables, 32 as the longest cycle needs, in the order of `tables_needed`. Those that
    /// aren't filled may hold anything.
    pub fn by_use(&self) -> &[Table]
        ensures entries { result.now ≡ self.now.entries }
        ensures room { length result.now ≡ max_tables }
    {
        self.by_use.as_slice()
    }

    /// Marks all tables as not filled. Call it whenever another cycle is set, before the next
    /// `fill`.
    pub fn invalidate(&mut self)
        ensures entries { self.new.entries ≡ self.old.entries }
        ensures filled { self.new.filled ≡ None }
    {
        self.filled = None;
    }

    /// Fills the tables that a cycle needs for steps in a direction, unless they are marked as
    /// filled for it. Marks must be of this cycle and these rules: see `invalidate`. If a rule
    /// can't be undone backward, returns which and why, and marks the tables as not filled. Does
    /// not allocate.
    pub fn fill(
        &mut self,
        rules: &Rules,
        cycle: &Cycle,
        direction: Direction,
    ) -> Result<(), Refusal>
        // If they are marked as filled, they are this cycle's tables.
        requires { AreTrue self.old rules.now cycle.now }
        ensures refusal { result_err result
            ≡ way_refusal direction rules.now (named_entries rules.now cycle.now) }
        ensures filled { OnOk result (self.new.filled ≡ Some direction) }
        ensures tables { AreTrue self.new rules.now cycle.now }
    {
        // `len` gives the proof that rules have names of their own.
        let _number = rules.len();
        if self.filled == Some(direction) {
            return Ok(());
        }
        self.filled = None;
        fill_entries(rules, cycle, direction, &mut self.trial, &mut self.by_use)?;
        self.filled = Some(direction);
        Ok(())
    }

    /// Compiles a rule's text, and tries the code at every address. Returns the code. Otherwise
    /// returns the text's first fault, the least address at which the rule stops, or `NoMemory`.
    /// The tables and their marks stay.
    pub(crate) fn compile(
        &mut self,
        alloc: Global,
        wiring: Wiring,
        text: &str,
    ) -> Result<Code, NotCompiled>
        ensures code { IfOk result (λ code. IsCodeFor wiring text.now code) }
        ensures refused { IsRefusedFor (fault_in wiring text.now) result }
        ensures unkept { keeps wiring text.now ≡ false → result ≢ Err NotCompiled.NoMemory }
        ensures tables { self.new ≡ self.old }
    {
        compile(alloc, wiring, text, &mut self.trial)
    }
}
