//! Fills a table. The code runs at the addresses at which the lines that it reads differ, many at
//! once. All other entries are copies of theirs.
//!
//! Groups of addresses come first, in an order in which their lanes part seldom. What they left
//! follows in the order of the addresses, so that the first fault is the least.
ghost use Rattle.std.specs.Prelude.{◌≡◌, ◌<◌, ◌≤◌, ℕ, Ok, Err, IfOk, IfErr, OnOk, length};
ghost use Rattle.std.specs.Prelude.{slice_index, bit_and};
ghost use Rattle.cam6_table.specs.declared.lane_values.TheConstants.{LANES};
ghost use Rattle.cam6_entries.specs.declared.tables.TheConstants.{ENTRIES};
ghost use Rattle.cam6_table.specs.Tables.{AreEntries, IsLeastStop};
ghost use Rattle.cam6_entries.specs.Limits.{addresses};
ghost use Rattle.cam6_table.specs.Codes.{result_at};
ghost use Rattle.cam6_table.specs.Internal.Lanes.{IsLeft, AreLeft};
ghost use Rattle.cam6_table.specs.Internal.LinesRead.{IsMaskFor};
ghost use Rattle.cam6_table.specs.Internal.Filling.{IsRight, AreRightIfFilled, AreNext};
ghost use Rattle.cam6_table.specs.Internal.Filling.{IsFirstStop, unfilled};

use crate::codes::Code;
use crate::evaluation::{MAX_EVAL_STEPS, Place, run};
use crate::faults::RuleFault;
use crate::flows::{Places, all_at_start};
use crate::lane_values::{LANES, LaneValues};
use crate::lanes::{Lanes, all_untouched, clear, entry_at_end, state_of};
use crate::least_read::least_read_lines;
use crate::lines_read::lines_read;
use crate::outputs::entry_of;
use crate::together::run_together;
use cam6_entries::{ENTRIES, Table};

/// What stands at an address whose entry is not filled. An entry has two bits.
const UNFILLED: u8 = 4;

/// Fills the table with the entries of a rule. If the rule stops at any address, returns the least
/// such address with the fault there, even if no cell shows that address. Then the table's entries
/// may be anything. Does not allocate. The code runs only where the lines that it reads differ: its
/// result depends on no other.
pub fn fill(code: &Code, table: &mut Table) -> Result<(), (u16, RuleFault)>
    ensures whole { length table.new ≡ addresses }
    ensures filled { IfOk result (λ _. AreEntries (result_at code.now) table.new) }
    ensures fault { IfErr result (λ refused. IsLeastStop (result_at code.now) refused.0 refused.1) }
{
    let entries = table.len();
    let mask = lines_read(code);
    fill_where_lines_differ(code, mask, table)?;
    for address in 0..entries {
        let entry = table.at(address & mask);
        table.put(address, entry);
    }
    Ok(())
}

/// Fills the entries at the addresses that have no bit outside the mask. If the rule stops at one
/// of them, returns the least one and the fault. The mask must have the lines that the code reads
/// and those of the centre. So at any other address the rule does what it does at a lower one of
/// these.
fn fill_where_lines_differ(
    code: &Code,
    mask: u16,
    table: &mut Table,
) -> Result<(), (u16, RuleFault)>
    requires mask { IsMaskFor mask code.now }
    requires whole { length table.old ≡ addresses }
    ensures whole { length table.new ≡ addresses }
    ensures filled { IfOk result (λ _. (a : ℕ) → a < ENTRIES → bit_and a mask ≡ a →
        IsRight (result_at code.now) table.new a) }
    ensures fault { IfErr result (λ refused. IsLeastStop (result_at code.now) refused.0 refused.1) }
{
    let mut scratch = new_scratch(code);
    mark_unfilled(table);
    fill_in_groups(code, mask, &mut scratch, table);
    fill_the_rest(code, mask, &mut scratch, table)
}

/// Marks the entry at each address as not filled.
fn mark_unfilled(table: &mut Table)
    requires whole { length table.old ≡ addresses }
    ensures whole { length table.new ≡ addresses }
    ensures unfilled { (a : ℕ) → a < ENTRIES → slice_index table.new a ≡ unfilled }
{
    for address in 0..ENTRIES {
        table.put(address, UNFILLED);
    }
}

/// Fills entries at addresses within the mask, group by group. A group's addresses differ on the
/// six lines that the code reads least, so that lanes seldom part. At the first fault it stops, and
/// leaves the other entries unfilled. Entries that are filled before must be right.
fn fill_in_groups(code: &Code, mask: u16, scratch: &mut Scratch, table: &mut Table)
    requires whole { length table.old ≡ addresses }
    requires before { AreRightIfFilled (result_at code.now) table.old }
    ensures whole { length table.new ≡ addresses }
    ensures after { AreRightIfFilled (result_at code.now) table.new }
{
    let own = least_read_lines(code, mask).min(ENTRIES - 1);
    if own == mask {
        return;
    }
    let lanes = next_batch(own, 0, own, table);
    for group in 0..ENTRIES {
        if group & mask & !own == group {
            let at = group_addresses(group, &lanes.addresses);
            if fill_lanes(code, &at, lanes.count, scratch, table).is_err() {
                return;
            }
        }
    }
}

/// Returns the addresses of a group, one for each lane. Each has the bits of `group`, which all of
/// them share, and the lane's bits in `own`.
fn group_addresses(group: u16, own: &LaneValues) -> LaneValues
    ensures { (lane : ℕ) → lane < LANES → slice_index result lane < ENTRIES }
{
    let mut at = [0; LANES];
    for lane in 0..LANES {
        at[lane] = (group | own[lane]) % ENTRIES;
    }
    at
}

/// Fills the entries at addresses within the mask that are not filled yet, in the order of the
/// addresses. If the rule stops at one of them, returns the least one and the fault. Entries that
/// are filled before must be right, and the mask is as in `fill_where_lines_differ`.
fn fill_the_rest(
    code: &Code,
    mask: u16,
    scratch: &mut Scratch,
    table: &mut Table,
) -> Result<(), (u16, RuleFault)>
    requires mask { IsMaskFor mask code.now }
    requires whole { length table.old ≡ addresses }
    requires before { AreRightIfFilled (result_at code.now) table.old }
    ensures whole { length table.new ≡ addresses }
    ensures filled { IfOk result (λ _. (a : ℕ) → a < ENTRIES → bit_and a mask ≡ a →
        IsRight (result_at code.now) table.new a) }
    ensures fault { IfErr result (λ refused. IsLeastStop (result_at code.now) refused.0 refused.1) }
{
    let last = mask.min(ENTRIES - 1);
    let mut from = 0;
    while from <= last {
        let batch = next_batch(mask, from, last, table);
        if let Err(stop) = fill_lanes(code, &batch.addresses, batch.count, scratch, table) {
            return Err(stop);
        }
        from = batch.end;
    }
    Ok(())
}

/// Addresses for the lanes, from `from` on. The first `count` of them are used, and the search for
/// further ones goes on at `end`.
#[derive(Drop)]
struct Batch {
    from: u16,
    addresses: LaneValues,
    count: usize,
    end: u16,
}

/// Finds the next unfilled addresses from `from` to `last`, both included, that have no bit outside
/// the mask. Finds at most one for each lane. `from` is at most `last`, which is an address.
fn next_batch(mask: u16, from: u16, last: u16, table: &Table) -> Batch
    requires whole { length table.now ≡ addresses }
    requires from { from ≤ last }
    requires last { last < ENTRIES }
    ensures from { result.from ≡ from }
    ensures next { AreNext mask result.from table.now result.addresses result.count result.end }
    ensures lanes { result.count ≤ LANES }
    ensures goes_on { from < result.end }
    ensures within { result.end ≤ ENTRIES }
{
    let mut addresses = [from; LANES];
    let mut count = 0;
    let mut end = from;
    while end <= last && count < LANES {
        if end & mask == end && table.at(end) == UNFILLED {
            addresses[count] = end;
            count += 1;
        }
        end += 1;
    }
    Batch {
        from,
        addresses,
        count,
        end,
    }
}

/// Scratch for a batch: where each lane is, and its state.
#[derive(Drop)]
struct Scratch {
    places: Places,
    lanes: Lanes,
}

/// Makes scratch in which each lane is at the start of the code, with an empty stack.
fn new_scratch(code: &Code) -> Scratch {
    Scratch {
        places: all_at_start(code.instructions()),
        lanes: all_untouched(),
    }
}

/// Runs the code at the addresses of the first `count` lanes, and fills their entries. At the first
/// lane whose address stops the rule, returns that address with the fault, and fills no further
/// entry. Entries that are filled before must be right, and stay so.
fn fill_lanes(
    code: &Code,
    at: &LaneValues,
    count: usize,
    scratch: &mut Scratch,
    table: &mut Table,
) -> Result<(), (u16, RuleFault)>
    requires lanes { count ≤ LANES }
    requires within { (lane : ℕ) → lane < count → slice_index at.now lane < ENTRIES }
    requires whole { length table.old ≡ addresses }
    requires before { AreRightIfFilled (result_at code.now) table.old }
    ensures whole { length table.new ≡ addresses }
    ensures after { AreRightIfFilled (result_at code.now) table.new }
    ensures kept { (a : ℕ) → a < ENTRIES → IsRight (result_at code.now) table.old a →
        IsRight (result_at code.now) table.new a }
    ensures filled { OnOk result ((lane : ℕ) → lane < count →
        IsRight (result_at code.now) table.new (slice_index at.now lane)) }
    ensures fault { IfErr result (λ refused.
        IsFirstStop at.now count (result_at code.now) refused.0 refused.1) }
{
    run_all(code, at, scratch);
    for lane in 0..count {
        match entry_in(code, scratch, lane, at[lane]) {
            Ok(entry) => table.put(at[lane], entry),
            Err(fault) => return Err((at[lane], fault)),
        }
    }
    Ok(())
}

/// Runs the code from its start in all lanes, as far as they go together. The scratch then has
/// where each lane is, and its state.
fn run_all(code: &Code, addresses: &LaneValues, scratch: &mut Scratch)
    ensures left { AreLeft addresses.now code.now scratch.new.places scratch.new.lanes }
{
    let instructions = code.instructions();
    scratch.places = all_at_start(instructions);
    clear(&mut scratch.lanes);
    run_together(
        instructions,
        addresses,
        &mut scratch.places,
        &mut scratch.lanes,
    );
}

/// Returns the code's entry at the address of a lane, or its fault there. If the lane isn't at the
/// end of the code, runs the code on from its place. `run_all` must have run that address in the
/// lane.
fn entry_in(code: &Code, scratch: &Scratch, lane: usize, address: u16) -> Result<u8, RuleFault>
    requires lane { lane < LANES }
    requires left { IsLeft address code.now (slice_index scratch.now.places.remaining_by_lane lane)
        (slice_index scratch.now.places.tops lane) scratch.now.lanes lane }
    ensures { result ≡ result_at code.now address }
{
    let remaining = usize::from(scratch.places.remaining_by_lane[lane]);
    if remaining == 0 {
        return Ok(entry_at_end(&scratch.lanes, lane, address));
    }
    let mut state = state_of(&scratch.lanes, lane, usize::from(scratch.places.tops[lane]));
    let mut steps = MAX_EVAL_STEPS;
    let place = Place {
        remaining,
        word: None,
    };
    run(code.instructions(), place, address, &mut state, &mut steps)?;
    Ok(entry_of(&state, address))
}
