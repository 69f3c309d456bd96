//! Rules by name: a type that keeps what rules always are.
ghost use Rattle.std.specs.Prelude.{◌≡◌, ◌≢◌, ◌↔◌, ℕ, [], false, map, length, Err};
ghost use Rattle.std.specs.Prelude.{IfOk, IsOk, OnOk, OnErr, IsTrue};
ghost use Rattle.std.specs.List.{slice_get};
ghost use Rattle.std.specs.Option.{option_copied};
ghost use Rattle.std.specs.Result.{result_err};
ghost use Rattle.std.specs.Str.{IsUtf8};

use crate::compiled::{CompiledRule, compile_rule};
use crate::cycles::{entries_of, numbered_cycle, renumbered_cycle};
use crate::named::{names_of, put, remove, wiring_of};
use crate::refusals::{accept_cycle, accept_drop, accept_rule};
use crate::saving::{saved_entries, saved_rules};
use crate::tables::Tables;
use cam6_commands::{Fault, NamedEntries, NamedRule, NamedRules, Refusal, Text};
use cam6_cycle::{Cycle, Entry};
use cam6_planes::NoMemory;
use cam6_table::NotCompiled;
use cam6_wiring::Wiring;
use indexmap::IndexMap;
use std::alloc::Global;
use std::marker::Model;

/// Why a rule isn't defined.
#[derive(Debug, Drop)]
pub enum NotDefined {
    /// Its name, its text or an address at which it stops is refused.
    Refused(Refusal),
    /// Memory was asked for and refused.
    NoMemory,
}

impl From<NoMemory> for NotDefined {
    ghost use Rattle.cam6_rules.specs.declared.rules.NotDefined.TheVariants.{NoMemory};

    ghost from_gives = { λ _ e. e ≡ NoMemory };

    /// A failed allocation becomes `NoMemory`, which is no refusal.
    fn from(_refused: NoMemory) -> NotDefined {
        NotDefined::NoMemory
    }
}

/// At most sixteen rules with names of their own, in the order in which the names came first, each
/// kept as it was defined. Contracts see them as the rules of the model, and hold the code of none.
#[derive(Drop)]
pub struct Rules {
    alloc: Global,
    by_name: IndexMap<String, CompiledRule>,
}

impl Model for Rules {
    ghost use Rattle.std.specs.Prelude.{List};
    ghost use Rattle.cam6_model.specs.Rules.{Rule};
    ghost use Rattle.cam6_model.specs.Always.{AreRules};
    ghost use Rattle.cam6_rules.specs.Internal.Numbered.{rules_of};

    ghost Value = { List Rule };

    ghost view = { λ r. rules_of r.by_name.entries };

    ghost invariant = { λ r. AreRules (rules_of r.by_name.entries) };
}

impl Rules {
    ghost use Rattle.cam6_model.specs.Effects.{with_rule, without_rule};
    ghost use Rattle.cam6_model.specs.Refusals.{definition_refusal, drop_refusal, cycle_refusal};
    ghost use Rattle.cam6_model.specs.Always.{AreRules};
    ghost use Rattle.cam6_rules.specs.Compiled.{IsKeptAs};
    ghost use Rattle.std.specs.Prelude.{is_some};
    ghost use Rattle.cam6_model.specs.Rules.{rule_named};
    ghost use Rattle.cam6_rules.specs.Defining.{IsDefinedUnless, IsAdded, AreDefined};
    ghost use Rattle.cam6_model.specs.Memory.{keeps_definition};
    ghost use Rattle.cam6_rules.specs.Filled.{StoredTables, AreTrue};
    ghost use Rattle.cam6_rules.specs.Numbers.{entries_of, named_entries, AreNumbered};

    /// Makes an empty list of rules. Does not allocate.
    pub fn new(alloc: Global) -> Rules
        ensures { result ≡ [] }
    {
        Rules {
            alloc,
            by_name: IndexMap::new(alloc),
        }
    }

    /// Defines saved rules one after another, and returns them. Returns `Ok(None)` if one of them
    /// can't be defined, or has the name of one before. `Err` is only for a failed allocation.
    /// `scratch` lends memory to try their texts, and its tables and marks stay.
    pub fn of(
        alloc: Global,
        rules: NamedRules,
        scratch: &mut Tables,
    ) -> Result<Option<Rules>, NoMemory>
        ensures rules { IfOk result (λ found. AreDefined rules found) }
        ensures scratch { scratch.new ≡ scratch.old }
        // An empty list of rules needs no memory.
        ensures memory { rules ≡ [] → IsOk result }
    {
        let mut kept = Rules::new(alloc);
        for rule in rules.into_vec() {
            if !kept.add(rule, scratch)? {
                return Ok(None);
            }
        }
        Ok(Some(kept))
    }

    /// Defines a rule after the others, and returns true. Returns false, and defines none, if a
    /// rule has its name or it is refused. `Err` is only for a failed allocation. `scratch` lends
    /// memory to try the text.
    fn add(&mut self, rule: NamedRule, scratch: &mut Tables) -> Result<bool, NoMemory>
        ensures rules { IfOk result (λ is. IsAdded is self.old self.new rule) }
        ensures scratch { scratch.new ≡ scratch.old }
    {
        let NamedRule { name, wiring, text } = rule;
        if self.has_name(&name) {
            return Ok(false);
        }
        match self.define(&[], name, wiring, text, scratch) {
            Ok(()) => Ok(true),
            Err(NotDefined::Refused(_)) => Ok(false),
            Err(NotDefined::NoMemory) => Err(NoMemory),
        }
    }

    /// Whether a rule has the name.
    fn has_name(&self, name: &Text) -> bool
        ensures { result ≡ is_some (rule_named name.now self.now) }
    {
        wiring_of(&self.by_name, name).is_some()
    }

    /// Returns how many rules there are, at most 16.
    pub fn len(&self) -> usize
        ensures number { result ≡ length self.now }
        // The invariant of the rules.
        ensures rules { AreRules self.now }
    {
        self.by_name.len()
    }

    /// Whether there are no rules.
    pub fn is_empty(&self) -> bool
        ensures { IsTrue result ↔ (self.now ≡ []) }
    {
        self.by_name.is_empty()
    }

    /// Lends the rule at a number, counted from 0, or returns `None` if there is no such rule.
    pub fn at(&self, number: usize) -> Option<&CompiledRule>
        ensures { IsKeptAs (slice_get self.now number) (option_copied result) }
    {
        let (_, rule) = self.by_name.get_index(number)?;
        Some(rule)
    }

    /// Returns copies of the rules' names, in the order of the rules.
    pub fn names(&self) -> Result<Vec<Text>, NoMemory>
        ensures names { IfOk result (λ names. names.items ≡ map (λ rule. rule.name) self.now) }
        // Listing no rules needs no memory.
        ensures none { self.now ≡ [] → IsOk result }
    {
        names_of(self.alloc, &self.by_name)
    }

    /// Returns copies of the rules as a saved machine has them, in their order.
    pub fn saved(&self) -> Result<NamedRules, NoMemory>
        ensures { IfOk result (λ saved. saved ≡ self.now) }
    {
        saved_rules(self.alloc, &self.by_name)
    }

    /// Returns the entries of a cycle as a saved machine has them, with the names of their rules
    /// instead of their numbers. A half without a rule, or with a number that no rule has, has no
    /// name.
    pub fn saved_entries(&self, cycle: &[Entry]) -> Result<NamedEntries, NoMemory>
        ensures { IfOk result (λ saved. saved ≡ named_entries self.now cycle.now) }
    {
        saved_entries(self.alloc, &self.by_name, cycle)
    }

    /// Compiles a rule's text, and stores the rule under a name, in the place of the one that has
    /// it. Refuses a name that can't be a rule's, one that the cycle uses, and a new one beside 16
    /// rules. Also refuses a text with a fault, or one that stops. After any error nothing changes.
    /// `scratch` lends memory to try the text.
    pub fn define(
        &mut self,
        cycle: &[Entry],
        name: Text,
        wiring: Wiring,
        text: Text,
        scratch: &mut Tables,
    ) -> Result<(), NotDefined>
        ensures refusal { IsDefinedUnless
            (definition_refusal self.old (named_entries self.old cycle.now) name wiring text)
            result }
        ensures rules { OnOk result (self.new
            ≡ with_rule (record { name = name; wiring = wiring; text = text }) self.old) }
        ensures text { OnOk result (IsUtf8 text) }

        // The entries of the cycle have the rules that they had, and so true tables stay true.
        ensures named { AreNumbered self.old cycle.now →
            named_entries self.new cycle.now ≡ named_entries self.old cycle.now }
        ensures numbered { AreNumbered self.old cycle.now → AreNumbered self.new cycle.now }
        ensures tables { AreNumbered self.old cycle.now → AreTrue scratch.old self.old cycle.now →
            AreTrue scratch.new self.new cycle.now }

        ensures err { OnErr result (self.new ≡ self.old) }
        ensures scratch { scratch.new ≡ scratch.old }
        // If nothing of the text is kept, no memory is needed.
        ensures memory { keeps_definition self.old (named_entries self.old cycle.now) name wiring
            text ≡ false → result ≢ Err NotDefined.NoMemory }
    {
        if let Err(fault) = accept_rule(&self.by_name, cycle, &name) {
            return Err(NotDefined::Refused(Refusal::Fault(fault)));
        }
        match compile_rule(self.alloc, wiring, text, scratch) {
            Ok(rule) => {
                put(&mut self.by_name, name, rule)?;
                Ok(())
            }
            Err(NotCompiled::Text(fault)) => Err(NotDefined::Refused(Refusal::Text(fault))),
            Err(NotCompiled::Stops { address, fault }) => {
                Err(NotDefined::Refused(Refusal::Stops { address, fault }))
            }
            Err(NotCompiled::NoMemory) => Err(NotDefined::NoMemory),
        }
    }

    /// Drops the rule that has the name. Each later rule's number becomes less by one, also in the
    /// cycle. Returns `NoRule` if there is no such rule, and `RuleInUse` if the cycle uses it. Then
    /// nothing changes.
    pub fn remove(&mut self, cycle: &mut Option<Cycle>, name: &Text) -> Result<(), Fault>
        ensures refusal { result_err result
            ≡ drop_refusal self.old (named_entries self.old (entries_of cycle.old)) name.now }
        ensures rules { OnOk result (self.new ≡ without_rule name.now self.old) }

        // The entries of the cycle have the rules that they had, and so true tables stay true.
        ensures named { OnOk result (named_entries self.new (entries_of cycle.new)
            ≡ named_entries self.old (entries_of cycle.old)) }
        ensures numbered { OnOk result (AreNumbered self.old (entries_of cycle.old) →
            AreNumbered self.new (entries_of cycle.new)) }
        ensures tables { OnOk result ((tables : StoredTables) →
            AreTrue tables self.old (entries_of cycle.old) →
            AreTrue tables self.new (entries_of cycle.new)) }

        ensures err { OnErr result (self.new ≡ self.old) }
        ensures cycle { OnErr result (cycle.new ≡ cycle.old) }
    {
        let number = accept_drop(&self.by_name, entries_of(cycle), name)?;
        *cycle = renumbered_cycle(entries_of(cycle), number);
        remove(&mut self.by_name, name);
        Ok(())
    }

    /// Returns the cycle of these entries, with the numbers of the rules that they name. Returns
    /// `OutOfRange` if there isn't 1 to 16 of them, or a phase is above 3. Returns `NoRule` if no
    /// rule has a name, and `WrongHalf` if one of the other half has it.
    pub fn cycle_of(&self, entries: &NamedEntries) -> Result<Cycle, Fault>
        ensures refusal { result_err result ≡ cycle_refusal self.now entries.now }
        ensures named { IfOk result (λ cycle. named_entries self.now cycle ≡ entries.now) }
        ensures numbered { IfOk result (λ cycle. AreNumbered self.now cycle) }
    {
        accept_cycle(&self.by_name, entries)?;
        Ok(numbered_cycle(&self.by_name, entries.as_slice()))
    }
}
