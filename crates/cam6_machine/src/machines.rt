//! A user's machine, and what each command does to it.
ghost use Rattle.std.specs.Prelude.{◌≡◌, ◌≤◌, IfOk};
ghost use Rattle.cam6_planes.specs.Cells.{cells, no_cells};
ghost use Rattle.cam6_planes.specs.Side.{side_number};
ghost use Rattle.cam6_model.specs.Machine.{first_side};

use crate::answers::reply_at;
use crate::images::Held;
use crate::kept::Kept;
use crate::refusals::{accept_row, accept_set, accept_side};
use crate::replies::Now;
use crate::rows::{plane_rows, row_colours};
use cam6_band::{AtRest, Spare};
use cam6_commands::{
    Command, Done, Mask, PlaneNumber, Refusal, Reply, RowNumber, RowText, SavedMachine,
};
use cam6_cycle::Direction;
use cam6_planes::{Bits, NoMemory, Planes, Side};
use cam6_view::count;
use std::alloc::Global;
use std::marker::Model;

/// One user's machine. Making it allocates all memory of a run, and a second image, so that a step
/// may go on elsewhere.
#[derive(Drop)]
pub struct Machine {
    kept: Kept,
    image: Held,
    spare: Spare,
}

impl Model for Machine {
    ghost use Rattle.std.specs.Prelude.{◌≡◌};
    ghost use Rattle.cam6_machine.specs.Stored.{StoredMachine};

    ghost Value = { StoredMachine };

    ghost view = { λ m. record { kept = m.kept; planes = m.image } };

    ghost invariant = { λ m.
        (m.image.limit ≡ m.kept.limit) × (m.spare.planes.limit ≡ m.kept.limit) };
}

impl Machine {
    ghost use Rattle.std.specs.Prelude.{false, None, IsOk, OnErr};
    ghost use Rattle.cam6_model.specs.Machine.{blank};
    ghost use Rattle.cam6_machine.specs.Stored.{machine_of};
    ghost use Rattle.cam6_model.specs.Refusals.{refusal};
    ghost use Rattle.cam6_model.specs.Alone.{reply, after, work_of, command_of};
    ghost use Rattle.cam6_machine.specs.AtOnce.{work_in, IsReplyTo, machine_then, CanWork};
    ghost use Rattle.cam6_model.specs.Memory.{keeps_text, has_rows, may_want_memory};
    ghost use Rattle.cam6_model.specs.Always.{IsMachine};

    /// Makes a machine with blank planes, no rules and no cycle. Its side is the lesser of 256 and
    /// the limit.
    pub fn new(alloc: Global, limit: Side) -> Result<Machine, NoMemory>
        ensures machine { IfOk result (λ m. machine_of m ≡ blank limit) }
    {
        Ok(Machine {
            kept: Kept::new(alloc, limit)?,
            image: Held::of(AtRest::of(first_planes(alloc, limit)?)),
            spare: Spare::of(Planes::blank(alloc, limit)?),
        })
    }

    /// Returns the largest side that the machine may have.
    pub fn limit(&self) -> Side
        ensures limit { result ≡ self.now.kept.limit }
        // The machine's invariant.
        ensures machine { IsMachine (machine_of self.now) }
    {
        // Planes have a side within their limit.
        let _side = self.image.planes().side();
        self.kept.limit()
    }

    /// Gives up the machine, and returns what it keeps, its image and the spare one. `Kept::join`
    /// makes a machine of them again.
    pub fn into_parts(self) -> (Kept, AtRest, Spare)
        ensures kept { result.0 ≡ self.kept }
        ensures image { result.1.planes ≡ self.planes }
        ensures limit { result.1.planes.limit ≡ self.kept.limit }
        ensures spare { result.2.planes.limit ≡ self.kept.limit }
    {
        (self.kept, self.image.into_image(), self.spare)
    }

    /// Does a command without its steps. Returns the reply, or the steps that the command has to
    /// do, which `work` then does. A refusal is a reply too. Allocates all memory of the command.
    /// `Err` is only for a failed allocation, and then nothing changes.
    pub fn now(&mut self, command: Command) -> Result<Now, NoMemory>
        // Steps are left exactly if the command does some.
        ensures work { IfOk result (λ now. work_in now ≡ work_of (machine_of self.old) command) }
        ensures reply { IfOk result (λ now. IsReplyTo now (machine_of self.old) command) }
        ensures machine { IfOk result (λ now.
            machine_of self.new ≡ machine_then now (machine_of self.old) command) }
        ensures ready { IfOk result (λ now. CanWork now (machine_of self.new)) }
        ensures err { OnErr result (self.new ≡ self.old) }
        // It may run out of memory only if a text is kept, or the reply has rows. A load keeps the
        // rules before it knows whether it is refused.
        ensures memory { may_want_memory (machine_of self.old) command ≡ false → IsOk result }
    {
        match command {
            Command::Set { plane, row, bits } => Ok(Now::Reply(self.set(plane, row, &bits))),
            Command::Clear { plane } => Ok(Now::Reply(self.clear(plane))),
            Command::Rule { name, wiring, text } => {
                Ok(Now::Reply(self.kept.define(name, wiring, text)?))
            }
            Command::Drop { name } => Ok(Now::Reply(self.kept.drop_rule(&name))),
            Command::Rules => Ok(Now::Reply(self.kept.list_rules()?)),
            Command::Cycle { entries } => Ok(Now::Reply(self.kept.set_cycle(&entries))),
            Command::Run { n } => Ok(self.kept.work_of_run(n)),
            Command::Back { n } => Ok(self.kept.work_of_back(n)),
            Command::Row { plane, row } => Ok(Now::Reply(self.show_row(plane, row))),
            Command::Plane { plane } => Ok(Now::Reply(self.show(plane)?)),
            Command::Side { side } => Ok(Now::Reply(self.set_side(side))),
            Command::Map { colours } => Ok(Now::Reply(self.kept.set_colours(&colours))),
            Command::Colours { row } => Ok(Now::Reply(self.show_colours(row))),
            Command::Count { mask } => Ok(Now::Reply(self.count_cells(mask))),
            Command::Save => Ok(Now::Reply(self.save()?)),
            Command::Load { machine } => Ok(Now::Reply(self.load(machine)?)),
        }
    }

    /// Writes a row of a plane, and returns the reply. Refuses a plane above 3, a row that isn't
    /// below the side, and bits that aren't one for each column. Then nothing changes.
    fn set(&mut self, plane: u64, row: u64, bits: &Bits) -> Reply
        ensures reply { result ≡ reply (machine_of self.old) (Command.Set plane row bits.now) }
        ensures machine { machine_of self.new
            ≡ after (machine_of self.old) (Command.Set plane row bits.now) }
    {
        let bits = bits.as_slice();
        let (plane, row) = match accept_set(self.image.planes().side(), plane, row, bits) {
            Ok(at) => at,
            Err(fault) => return Reply::Refused(Refusal::Fault(fault)),
        };
        self.image.put_row(plane.number(), row.number(), bits);
        Reply::Done(Done::Set)
    }

    /// Sets every bit of a plane to 0, and returns the reply. If there is no such plane, it is a
    /// refusal, and nothing changes.
    fn clear(&mut self, plane: u64) -> Reply
        ensures reply { result ≡ reply (machine_of self.old) (Command.Clear plane) }
        ensures machine { machine_of self.new
            ≡ after (machine_of self.old) (Command.Clear plane) }
    {
        let plane = match PlaneNumber::of(plane) {
            Ok(plane) => plane,
            Err(fault) => return Reply::Refused(Refusal::Fault(fault)),
        };
        self.image.clear_plane(plane.number());
        Reply::Done(Done::Clear)
    }

    /// Changes the side, sets every bit and the position to 0, even if the side is the same, and
    /// returns the reply. Refuses a number that isn't a side, or is above the limit. Then nothing
    /// changes.
    fn set_side(&mut self, number: u64) -> Reply
        ensures reply { result ≡ reply (machine_of self.old) (Command.Side number) }
        ensures machine { machine_of self.new
            ≡ after (machine_of self.old) (Command.Side number) }
    {
        match accept_side(self.kept.limit(), number) {
            Ok(side) => {
                self.image.set_side(side);
                self.kept.reset_position();
                Reply::Done(Done::Side)
            }
            Err(fault) => Reply::Refused(Refusal::Fault(fault)),
        }
    }

    /// Returns the reply with the digits of a row of a plane. Refuses a plane above 3, and a row
    /// that isn't below the side.
    fn show_row(&self, plane: u64, row: u64) -> Reply
        ensures reply { result ≡ reply (machine_of self.now) (Command.Row plane row) }
        ensures machine { machine_of self.now
            ≡ after (machine_of self.now) (Command.Row plane row) }
    {
        let planes = self.image.planes();
        match accept_row(planes.side(), plane, row) {
            Ok((plane, row)) => {
                let bits = RowText::of(planes, plane.number(), row.number());
                Reply::Done(Done::Row { bits })
            }
            Err(fault) => Reply::Refused(Refusal::Fault(fault)),
        }
    }

    /// Returns the reply with the digits of all rows of a plane. Refuses a plane above 3. `Err` is
    /// only for a failed allocation.
    fn show(&self, plane: u64) -> Result<Reply, NoMemory>
        ensures reply { IfOk result (λ r.
            r ≡ reply (machine_of self.now) (Command.Plane plane)) }
        ensures machine { machine_of self.now ≡ after (machine_of self.now) (Command.Plane plane) }
        ensures memory { has_rows (reply (machine_of self.now) (Command.Plane plane)) ≡ false
            → IsOk result }
    {
        match PlaneNumber::of(plane) {
            Ok(plane) => {
                let rows = plane_rows(self.kept.alloc(), self.image.planes(), plane.number())?;
                Ok(Reply::Done(Done::Plane { rows }))
            }
            Err(fault) => Ok(Reply::Refused(Refusal::Fault(fault))),
        }
    }

    /// Returns the reply with the colour of each cell of a row. Refuses a row that isn't below the
    /// side.
    fn show_colours(&self, row: u64) -> Reply
        ensures reply { result ≡ reply (machine_of self.now) (Command.Colours row) }
        ensures machine { machine_of self.now ≡ after (machine_of self.now) (Command.Colours row) }
    {
        match RowNumber::of(self.image.planes().side(), row) {
            Ok(row) => {
                let image = self.image.image();
                let colours = row_colours(image, self.kept.colours(), row.number());
                Reply::Done(Done::Colours { colours })
            }
            Err(fault) => Reply::Refused(Refusal::Fault(fault)),
        }
    }

    /// Returns the reply with the number of cells whose state is in the mask, with bit 0 for state
    /// 0. Refuses a mask above 65,535.
    fn count_cells(&self, mask: u64) -> Reply
        ensures reply { result ≡ reply (machine_of self.now) (Command.Count mask) }
        ensures machine { machine_of self.now ≡ after (machine_of self.now) (Command.Count mask) }
    {
        match Mask::of(mask) {
            Ok(mask) => {
                let count = count(self.image.image(), mask.bits());
                Reply::Done(Done::Count { count })
            }
            Err(fault) => Reply::Refused(Refusal::Fault(fault)),
        }
    }

    /// Returns the reply with a copy of all of the machine but its limit. `Err` is only for a
    /// failed allocation.
    fn save(&self) -> Result<Reply, NoMemory>
        ensures reply { IfOk result (λ r. r ≡ reply (machine_of self.now) Command.Save) }
        ensures machine { machine_of self.now ≡ after (machine_of self.now) Command.Save }
    {
        let machine = self.kept.saved(self.image.planes())?;
        Ok(Reply::Done(Done::Save { machine }))
    }

    /// Makes this machine the saved one, but keeps its limit, and returns the reply. A refusal is a
    /// reply too: see `check_saved_machine`. If it is refused or an allocation fails, nothing
    /// changes.
    fn load(&mut self, saved: SavedMachine) -> Result<Reply, NoMemory>
        ensures reply { IfOk result (λ r. r ≡ reply (machine_of self.old) (Command.Load saved)) }
        ensures machine { IfOk result (λ r.
            machine_of self.new ≡ after (machine_of self.old) (Command.Load saved)) }
        ensures err { OnErr result (self.new ≡ self.old) }
        ensures memory { keeps_text (machine_of self.old) (Command.Load saved) ≡ false
            → IsOk result }
    {
        match self.kept.load(saved)? {
            Ok(planes) => {
                self.image.put_planes(planes.side, &planes.rows);
                Ok(Reply::Done(Done::Load))
            }
            Err(fault) => Ok(Reply::Refused(Refusal::Fault(fault))),
        }
    }

    /// Does `n` steps along the cycle (backward, undoes them), and returns the reply of `run`
    /// (backward, of `back`). A cycle must be set, and backward each of its rules be one that can
    /// be undone. This is so for the work that `now` returned. Does not allocate.
    pub fn work(&mut self, n: u16, direction: Direction) -> Reply
        requires accepted { refusal (machine_of self.old) (command_of n direction) ≡ None }
        ensures reply { result ≡ reply (machine_of self.old) (command_of n direction) }
        ensures machine { machine_of self.new
            ≡ after (machine_of self.old) (command_of n direction) }
    {
        self.image.go(&mut self.kept, n, direction);
        reply_at(direction, self.kept.position())
    }

    /// Does a command with its steps, and returns its reply. A refusal is a reply too. `Err` is
    /// only for a failed allocation, and then nothing changes.
    pub fn reply_to(&mut self, command: Command) -> Result<Reply, NoMemory>
        ensures reply { IfOk result (λ r. r ≡ reply (machine_of self.old) command) }
        ensures machine { IfOk result (λ r.
            machine_of self.new ≡ after (machine_of self.old) command) }
        ensures err { OnErr result (self.new ≡ self.old) }
        // It may run out of memory only if `now` may.
        ensures memory { may_want_memory (machine_of self.old) command ≡ false → IsOk result }
    {
        match self.now(command)? {
            Now::Reply(reply) => Ok(reply),
            Now::Work(n, direction) => Ok(self.work(n, direction)),
        }
    }
}

impl Kept {
    ghost use Rattle.cam6_model.specs.Always.{IsPosition};
    ghost use Rattle.cam6_rules.specs.Numbers.{named_entries};
    ghost use Rattle.cam6_machine.specs.Stored.{machine_of, machine_over};

    /// Makes a machine of what another one kept, an image, a spare one, and a position counted from
    /// 0. Both images must have the kept limit. The position must be below the number of entries,
    /// or 0 without a cycle. Does not allocate.
    pub fn join(self, image: AtRest, spare: Spare, position: usize) -> Machine
        requires image { image.planes.limit ≡ self.limit }
        requires spare { spare.planes.limit ≡ self.limit }
        requires position { IsPosition (named_entries self.rules self.cycle) position }
        ensures kept { result.kept ≡ record self { position = position } }
        ensures planes { result.planes ≡ image.planes }
        ensures machine { machine_of result
            ≡ machine_over image.planes (record self { position = position }) }
    {
        let mut kept = self;
        kept.set_position(position);
        Machine {
            kept,
            image: Held::of(image),
            spare,
        }
    }
}

/// Makes the planes of a blank machine of this limit: every bit is 0, and the side is the lesser of
/// 256 and the limit.
fn first_planes(alloc: Global, limit: Side) -> Result<Planes, NoMemory>
    ensures cells { IfOk result (λ planes. cells planes ≡ no_cells) }
    ensures side { IfOk result (λ planes. planes.side ≡ first_side limit) }
    ensures limit { IfOk result (λ planes. planes.limit ≡ limit) }
{
    let mut planes = Planes::blank(alloc, limit)?;
    planes.set_side(first_side(limit));
    Ok(planes)
}

/// Returns the side of a blank machine: the lesser of 256 and the limit.
fn first_side(limit: Side) -> Side
    ensures side { result ≡ first_side limit }
    ensures within { side_number result ≤ side_number limit }
{
    match limit {
        Side::S128 => Side::S128,
        Side::S256 | Side::S512 => Side::S256,
    }
}
