//! What a machine keeps beside its planes, and what commands do to it.
ghost use Rattle.std.specs.Prelude.{◌≡◌, ◌≤◌, ℕ, [], length, false, None, IsOk, IfOk, OnErr};
ghost use Rattle.std.specs.Result.{result_err};
ghost use Rattle.std.specs.List.{AllByRecursion};
ghost use Rattle.cam6_model.specs.Always.{IsPosition};
ghost use Rattle.std.specs.Option.{option_copied};
ghost use Rattle.cam6_planes.specs.Cells.{cells, torus};
ghost use Rattle.cam6_planes.specs.Side.{side_number};
ghost use Rattle.cam6_planes.specs.Stored.{Stored, AreAlike};
ghost use Rattle.cam6_commands.specs.Limits.{max_colour};
ghost use Rattle.cam6_model.specs.Alone.{reply, after, work_of, command_of};
ghost use Rattle.cam6_model.specs.Memory.{keeps_text, has_rows};
ghost use Rattle.cam6_model.specs.Moves.{moved};
ghost use Rattle.cam6_model.specs.Refusals.{refusal, load_refusal};
ghost use Rattle.cam6_model.specs.Saved.{saved_of, saved_bit};
ghost use Rattle.cam6_machine.specs.Internal.Loading.{ArePlanesOf};
ghost use Rattle.cam6_rules.specs.Numbers.{entries_of, named_entries};

use crate::answers::work_or_reply;
use crate::loading::{LoadedPlanes, check_saved_machine};
use crate::refusals::{accept_colours, accept_run};
use crate::replies::Now;
use crate::runs::go_along;
use crate::saving::{saved_colours, saved_planes};
use cam6_band::{AtRest, Scratch};
use cam6_commands::{
    Command, Done, Fault, NamedEntries, Names, Refusal, Reply, SavedMachine, Text,
};
use cam6_cycle::{Cycle, Direction};
use cam6_planes::{NoMemory, Planes, Side};
use cam6_rules::{NotDefined, Rules, Tables, entries_of};
use cam6_wiring::Wiring;
use std::alloc::Global;
use std::marker::Model;

/// All of a machine but its images: rules, cycle, position, colours and the limit of the side. The
/// tables of the cycle's rules are with it, and stay filled from one command to the next. So is the
/// scratch for the bands of its steps.
#[derive(Drop)]
pub struct Kept {
    alloc: Global,
    limit: Side,
    rules: Rules,
    cycle: Option<Cycle>,
    position: usize,
    colours: [u8; 16],
    tables: Tables,
    /// What each band is lent.
    scratch: Box<Scratch>,
}

impl Model for Kept {
    ghost use Rattle.cam6_rules.specs.Filled.{AreTrue};
    ghost use Rattle.cam6_rules.specs.Numbers.{entries_of};
    ghost use Rattle.cam6_machine.specs.Stored.{StoredKept, IsKept};
    ghost use Rattle.cam6_machine.specs.Internal.Images.{kept_as};

    ghost Value = { StoredKept };

    ghost view = { λ k. kept_as k.limit k.rules (entries_of k.cycle) k.position k.colours };

    ghost invariant = { λ k.
        IsKept (kept_as k.limit k.rules (entries_of k.cycle) k.position k.colours)
        × AreTrue k.tables k.rules (entries_of k.cycle) };
}

impl Kept {
    ghost use Rattle.cam6_machine.specs.Stored.{machine_over, nothing_kept, IsKept};
    ghost use Rattle.cam6_machine.specs.AtOnce.{work_in, IsReplyTo, machine_then, CanWork};

    /// Makes what a blank machine of this limit keeps beside its image: no rules, no cycle,
    /// position 0, and each state as its own colour.
    pub(crate) fn new(alloc: Global, limit: Side) -> Result<Kept, NoMemory>
        ensures { IfOk result (λ kept. kept ≡ nothing_kept limit) }
    {
        let scratch = Box::new(alloc, Scratch::blank())?;
        Ok(Kept {
            alloc,
            limit,
            rules: Rules::new(alloc),
            cycle: None,
            position: 0,
            colours: [0, 1, 2, 3, 4, 5, 6, 7, 8, 9, 10, 11, 12, 13, 14, 15],
            tables: Tables::blank(alloc)?,
            scratch,
        })
    }

    /// Returns the largest side that the machine's planes may have.
    pub fn limit(&self) -> Side
        ensures limit { result ≡ self.now.limit }
        // The invariant of what a machine keeps.
        ensures kept { IsKept self.now }
    {
        self.limit
    }

    /// Lends the rules, in the order in which their names were first defined.
    pub fn rules(&self) -> &Rules
        ensures { result.now ≡ self.now.rules }
    {
        &self.rules
    }

    /// Lends the cycle, with its rules by their numbers. Returns `None` if none is set.
    pub fn cycle(&self) -> Option<&Cycle>
        ensures { entries_of (option_copied result) ≡ self.now.cycle }
    {
        self.cycle.as_ref()
    }

    /// Returns the position in the cycle, counted from 0. It is 0 if no cycle is set.
    pub fn position(&self) -> usize
        ensures { result ≡ self.now.position }
    {
        self.position
    }

    /// Returns the allocator of all that the machine keeps.
    pub(crate) fn alloc(&self) -> Global {
        self.alloc
    }

    /// Lends the colours, from 0 to 15, one for each of the 16 states of a cell.
    pub(crate) fn colours(&self) -> &[u8; 16]
        ensures colours { result.now ≡ self.now.colours }
        ensures within { AllByRecursion (λ colour. colour ≤ max_colour) result.now }
    {
        &self.colours
    }

    /// Sets the position to 0.
    pub(crate) fn reset_position(&mut self)
        ensures { self.new ≡ record self.old { position = 0 } }
    {
        self.position = 0;
    }

    /// Sets the position in the cycle to this one, counted from 0. It must be below the number of
    /// entries, or 0 if no cycle is set.
    pub(crate) fn set_position(&mut self, position: usize)
        requires { IsPosition (named_entries self.old.rules self.old.cycle) position }
        ensures { self.new ≡ record self.old { position = position } }
    {
        self.position = position;
    }

    /// Defines a rule, in place of the one that has its name, and returns the reply. A refusal is a
    /// reply too, and `Err` is only for a failed allocation. If it is refused or an allocation
    /// fails, all rules stay as they were.
    pub(crate) fn define(
        &mut self,
        name: Text,
        wiring: Wiring,
        text: Text,
    ) -> Result<Reply, NoMemory>
        // Over whatever planes.
        ensures reply { (planes : Stored) → IfOk result (λ r.
            r ≡ reply (machine_over planes self.old) (Command.Rule name wiring text)) }
        ensures machine { (planes : Stored) → IfOk result (λ r. machine_over planes self.new
            ≡ after (machine_over planes self.old) (Command.Rule name wiring text)) }
        ensures limit { self.new.limit ≡ self.old.limit }
        ensures err { OnErr result (self.new ≡ self.old) }
        ensures memory { (planes : Stored) →
            keeps_text (machine_over planes self.old) (Command.Rule name wiring text) ≡ false
            → IsOk result }
    {
        let cycle = entries_of(&self.cycle);
        match self
            .rules
            .define(cycle, name, wiring, text, &mut self.tables)
        {
            Ok(()) => {}
            Err(NotDefined::Refused(refusal)) => return Ok(Reply::Refused(refusal)),
            Err(NotDefined::NoMemory) => return Err(NoMemory),
        }
        Ok(Reply::Done(Done::Rule))
    }

    /// Drops the rule that has the name, and returns the reply. If no rule has the name or the
    /// cycle uses it, the reply is the refusal, and nothing changes.
    pub(crate) fn drop_rule(&mut self, name: &Text) -> Reply
        ensures reply { (planes : Stored) →
            result ≡ reply (machine_over planes self.old) (Command.Drop name.now) }
        ensures machine { (planes : Stored) → machine_over planes self.new
            ≡ after (machine_over planes self.old) (Command.Drop name.now) }
        ensures limit { self.new.limit ≡ self.old.limit }
    {
        match self.rules.remove(&mut self.cycle, name) {
            Ok(()) => {}
            Err(fault) => return Reply::Refused(Refusal::Fault(fault)),
        }
        Reply::Done(Done::Drop)
    }

    /// Returns the reply with the names of all rules, in their order. `Err` is only for a failed
    /// allocation. No rules need no memory.
    pub(crate) fn list_rules(&self) -> Result<Reply, NoMemory>
        ensures reply { (planes : Stored) → IfOk result (λ r.
            r ≡ reply (machine_over planes self.now) Command.Rules) }
        ensures memory { (planes : Stored) →
            has_rows (reply (machine_over planes self.now) Command.Rules) ≡ false
            → IsOk result }
    {
        let names = Names::new(self.rules.names()?);
        Ok(Reply::Done(Done::Rules { names }))
    }

    /// Sets the colours of all 16 states, in the order of the states, and returns the reply. If one
    /// of them is above 15, the reply is the refusal, and nothing changes.
    pub(crate) fn set_colours(&mut self, colours: &[u64; 16]) -> Reply
        ensures reply { (planes : Stored) →
            result ≡ reply (machine_over planes self.old) (Command.Map colours.now) }
        ensures machine { (planes : Stored) → machine_over planes self.new
            ≡ after (machine_over planes self.old) (Command.Map colours.now) }
        ensures limit { self.new.limit ≡ self.old.limit }
    {
        match accept_colours(colours) {
            Ok(kept) => {
                self.colours = kept;
                Reply::Done(Done::Map)
            }
            Err(fault) => Reply::Refused(Refusal::Fault(fault)),
        }
    }

    /// Sets the cycle, and the position to 0, and returns the reply. If the entries are refused,
    /// the reply is the refusal, and nothing changes.
    pub(crate) fn set_cycle(&mut self, entries: &NamedEntries) -> Reply
        ensures reply { (planes : Stored) →
            result ≡ reply (machine_over planes self.old) (Command.Cycle entries.now) }
        ensures machine { (planes : Stored) → machine_over planes self.new
            ≡ after (machine_over planes self.old) (Command.Cycle entries.now) }
        ensures limit { self.new.limit ≡ self.old.limit }
    {
        match self.rules.cycle_of(entries) {
            Ok(cycle) => {
                self.cycle = Some(cycle);
                self.position = 0;
                self.tables.invalidate();
                Reply::Done(Done::Cycle)
            }
            Err(fault) => Reply::Refused(Refusal::Fault(fault)),
        }
    }

    /// Returns the `n` steps that a run has to do, as work. Returns the refusal if `n` is above
    /// 65,535 or no cycle is set. Otherwise returns the reply if `n` is 0. Changes nothing.
    pub(crate) fn work_of_run(&self, n: u64) -> Now
        ensures work { (planes : Stored) →
            work_in result ≡ work_of (machine_over planes self.now) (Command.Run n) }
        ensures reply { (planes : Stored) →
            IsReplyTo result (machine_over planes self.now) (Command.Run n) }
        ensures machine { (planes : Stored) → machine_over planes self.now
            ≡ machine_then result (machine_over planes self.now) (Command.Run n) }
        ensures ready { (planes : Stored) → CanWork result (machine_over planes self.now) }
    {
        match accept_run(&self.cycle, n) {
            Ok((_, steps)) => work_or_reply(steps, Direction::Forward, self.position),
            Err(fault) => Now::Reply(Reply::Refused(Refusal::Fault(fault))),
        }
    }

    /// Returns the `n` steps that a `back` has to undo, as work. Returns the refusal if `n` is
    /// above 65,535, no cycle is set, or a rule can't be undone. Otherwise returns the reply if `n`
    /// is 0. Fills the tables for these steps, to see whether they can be undone. Nothing else
    /// changes.
    pub(crate) fn work_of_back(&mut self, n: u64) -> Now
        ensures work { (planes : Stored) →
            work_in result ≡ work_of (machine_over planes self.old) (Command.Back n) }
        ensures reply { (planes : Stored) →
            IsReplyTo result (machine_over planes self.old) (Command.Back n) }
        ensures machine { (planes : Stored) → machine_over planes self.new
            ≡ machine_then result (machine_over planes self.old) (Command.Back n) }
        ensures ready { (planes : Stored) → CanWork result (machine_over planes self.new) }
        ensures kept { self.new ≡ self.old }
    {
        let (cycle, steps) = match accept_run(&self.cycle, n) {
            Ok(accepted) => accepted,
            Err(fault) => return Now::Reply(Reply::Refused(Refusal::Fault(fault))),
        };
        match self.tables.fill(&self.rules, cycle, Direction::Backward) {
            Ok(()) => work_or_reply(steps, Direction::Backward, self.position),
            Err(refusal) => Now::Reply(Reply::Refused(refusal)),
        }
    }

    /// Returns what a save of the machine with these planes returns: a copy of all of it but its
    /// limit.
    pub(crate) fn saved(&self, planes: &Planes) -> Result<SavedMachine, NoMemory>
        ensures { IfOk result (λ saved. saved ≡ saved_of (machine_over planes.now self.now)) }
    {
        let cycle = self.rules.saved_entries(entries_of(&self.cycle))?;
        let rules = self.rules.saved()?;
        Ok(SavedMachine {
            colours: saved_colours(&self.colours),
            cycle,
            planes: saved_planes(self.alloc, planes)?,
            position: self.position as u64,
            rules,
            side: planes.side().number() as u64,
        })
    }

    /// Loads all of a saved machine but its planes, and returns its side and its planes. If it is
    /// refused, returns `Ok(Err(fault))`: see `check_saved_machine`. If it is refused or an
    /// allocation fails, nothing changes. The limit stays in any case.
    pub(crate) fn load(
        &mut self,
        saved: SavedMachine,
    ) -> Result<Result<LoadedPlanes, Fault>, NoMemory>
        ensures refusal { IfOk result (λ found.
            result_err found ≡ load_refusal self.old.limit saved) }
        ensures planes { IfOk result (λ found. IfOk found (λ taken.
            ArePlanesOf self.old.limit saved taken)) }
        // Over whatever planes that are the machine's.
        ensures machine { (before planes : Stored) → IfOk result (λ found. IfOk found (λ taken.
            planes.side ≡ taken.side →
            cells planes ≡ torus (side_number taken.side) (saved_bit taken.rows) →
            machine_over planes self.new ≡ after (machine_over before self.old) (Command.Load saved))) }
        ensures limit { self.new.limit ≡ self.old.limit }
        ensures refused { IfOk result (λ found. OnErr found (self.new ≡ self.old)) }
        ensures err { OnErr result (self.new ≡ self.old) }
        ensures memory { saved.rules ≡ [] → IsOk result }
    {
        match check_saved_machine(self.alloc, self.limit, saved, &mut self.tables)? {
            Ok(found) => {
                self.rules = found.rules;
                self.cycle = found.cycle;
                self.position = found.position;
                let colours = found.colours;
                self.colours = colours;
                self.tables.invalidate();
                Ok(Ok(found.planes))
            }
            Err(fault) => Ok(Err(fault)),
        }
    }

    /// Does `n` steps of an image along the cycle (backward, undoes them), and returns the image.
    /// Sets the position to that after them. First fills the tables, unless they are filled for
    /// this direction. A cycle must be set, and backward each of its rules be one that can be
    /// undone.
    pub(crate) fn go(&mut self, image: AtRest, n: u16, direction: Direction) -> AtRest
        requires accepted { refusal (machine_over image.planes self.old) (command_of n direction)
            ≡ None }
        ensures machine { machine_over result.planes self.new
            ≡ moved direction n (machine_over image.planes self.old) }
        ensures alike { AreAlike image.planes result.planes }
        ensures limit { self.new.limit ≡ self.old.limit }
    {
        let Some(cycle) = &self.cycle else {
            unreachable!()
        };
        match self.tables.fill(&self.rules, cycle, direction) {
            Ok(()) => {}
            Err(_) => unreachable!(),
        }
        let tables = self.tables.by_use();
        let scratch = &mut self.scratch;
        let (image, position) = go_along(
            image,
            cycle,
            direction,
            tables,
            scratch,
            self.position,
            n,
        );
        self.position = position;
        image
    }
}
