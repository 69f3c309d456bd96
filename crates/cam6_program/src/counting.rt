//! Counting: entries that ask only how many of the eight lines 2 to 9 show 1, beside what the other
//! lines show. Under the Moore neighbourhood these are the neighbours, as in Life.
//!
//! A diagram of choices by eight lines is long. Adding the eight bits takes 18 operations, and what
//! is left is a choice by the four bits of their sum.
ghost use Rattle.std.specs.Prelude.{◌≡◌, ◌<◌, ◌≤◌, ◌^◌, length, IfOk};
ghost use Rattle.cam6_wiring.specs.declared.wirings.TheConstants.{LINES};
ghost use Rattle.cam6_program.specs.declared.nodes.TheConstants.{PLACES};
ghost use Rattle.cam6_program.specs.declared.building.TheConstants.{ENTRIES};

use crate::building::{Diagram, ENTRIES, TooLong};
use crate::nodes::{Node, ZERO};
use crate::steps::{Operation, Source};
use cam6_wiring::LINES;

/// Operations that add the bits of the eight lines.
pub(crate) const COUNTERS: usize = 18;

/// What the entries are chosen by, if the eight lines are counted: four lines, and the sum's bits.
const COUNTED: usize = 1 << 8;

/// Returns operation `place`, from 0 to 17, of those that add the bits of lines 2 to 9. Each of
/// four full adders is two exclusive ors and a choice, for the sum and the carry. Operations 9, 14,
/// 16 and 17 make the bits of the whole sum, the lowest first.
pub(crate) fn counter(place: usize) -> Operation {
    match place {
        0 => xor(line(2), line(3)),
        1 => xor(slot(0), line(4)),
        2 => choice(slot(0), line(2), line(4)),
        3 => xor(line(5), line(6)),
        4 => xor(slot(3), line(7)),
        5 => choice(slot(3), line(5), line(7)),
        6 => xor(slot(1), slot(4)),
        7 => xor(slot(6), line(8)),
        8 => choice(slot(6), slot(1), line(8)),
        9 => xor(slot(7), line(9)),
        10 => Operation::And(slot(7), line(9)),
        11 => xor(slot(2), slot(5)),
        12 => xor(slot(11), slot(8)),
        13 => choice(slot(11), slot(2), slot(8)),
        14 => xor(slot(12), slot(10)),
        15 => Operation::And(slot(12), slot(10)),
        16 => xor(slot(13), slot(15)),
        _ => Operation::And(slot(13), slot(15)),
    }
}

/// Returns the source that reads a line, numbered from 0.
fn line(line: u8) -> Source {
    Source::Line(line)
}

/// Returns the source that reads what operation `place` of `counter`, from 0 to 17, makes.
fn slot(place: usize) -> Source
    requires { place < COUNTERS }
{
    node_of_operation(place).source()
}

/// Returns the node of operation `place` of `counter`, from 0 to 17. In the diagram the operations
/// stand after the lines.
pub(crate) fn node_of_operation(place: usize) -> Node
    requires { place < COUNTERS }
{
    Node::at(LINES + place)
}

/// Returns the operation that makes 1 where exactly one of two sources is 1.
fn xor(first: Source, second: Source) -> Operation {
    Operation::Xor(first, second)
}

/// Returns the operation that makes `high` where `by` is 1, and `low` where it is 0.
fn choice(by: Source, low: Source, high: Source) -> Operation {
    Operation::Choice { by, low, high }
}

/// Whether the 4096 entries depend on lines 2 to 9 only by how many of these lines show 1.
pub(crate) fn counts(entries: &[u8]) -> bool
    requires { length entries.now ≡ 2 ^ LINES }
{
    for line in 2..9u32 {
        if !are_alike(entries, 1 << line) {
            return false;
        }
    }
    true
}

/// Whether the 4096 entries stay the same if two neighbouring lines are exchanged. `bit` is the
/// value of the lower line in an address: 2 to the power of its number.
fn are_alike(entries: &[u8], bit: usize) -> bool
    requires { length entries.now ≡ 2 ^ LINES }
{
    let both = bit | bit << 1;
    for address in 0..ENTRIES {
        // Where the lower line alone shows 1, inverting both bits exchanges the lines.
        if address & both == bit && entries[address] != entries[(address ^ both) % ENTRIES] {
            return false;
        }
    }
    true
}

/// Returns the diagram of 4096 entries that depend on lines 2 to 9 only by how many of these lines
/// show 1, as `counts` says. Returns `TooLong` if it needs more choices than places.
pub(crate) fn counting_diagram(entries: &[u8]) -> Result<Diagram, TooLong>
    requires { length entries.now ≡ 2 ^ LINES }
    ensures { IfOk result (λ diagram. diagram.count ≤ PLACES) }
{
    let mut nodes = [ZERO; 2 * COUNTED];
    for k in 0..COUNTED {
        let entry = entries[counted_address(k)];
        nodes[k] = Node::lowest_bit(entry);
        nodes[COUNTED + k] = Node::lowest_bit(entry >> 1);
    }
    let mut diagram = Diagram::with_counters(COUNTERS);
    for level in 0..8 {
        diagram.join_pairs(chosen_by(level), &mut nodes[..2 * COUNTED >> level])?;
    }
    diagram.end(nodes[0], nodes[1]);
    Ok(diagram)
}

/// Returns the node by which round `k`, from 0 to 7, joins the entries. Rounds 0 to 3 use lines 0,
/// 1, 10 and 11. Rounds 4 to 7 use the bits of the sum, the lowest first.
fn chosen_by(k: usize) -> Node {
    match k {
        0 => Node::line(0),
        1 => Node::line(1),
        2 => Node::line(10),
        3 => Node::line(11),
        4 => node_of_operation(9),
        5 => node_of_operation(14),
        6 => node_of_operation(16),
        _ => node_of_operation(17),
    }
}

/// Returns an address for the number `k`. The four lowest bits of `k` are those of lines 0, 1, 10
/// and 11. The next four say how many of lines 2 to 9 show 1. More than 8 never comes. It is taken
/// for 8 less, so that the highest bit seldom matters.
fn counted_address(k: usize) -> usize
    ensures { result < ENTRIES }
{
    let sum = k / 16 % 16;
    let below = if sum > 8 { sum - 8 } else { sum };
    (k % 4 + k / 4 % 4 * 1024 + with_ones(below)) % ENTRIES
}

/// Returns an address with this many ones, from 0 to 8, on lines 2 to 9, the lowest lines first.
/// All other lines have 0.
fn with_ones(ones: usize) -> usize
    ensures { result ≤ 1020 }
{
    match ones {
        0 => 0,
        1 => 4,
        2 => 12,
        3 => 28,
        4 => 60,
        5 => 124,
        6 => 252,
        7 => 508,
        _ => 1020,
    }
}
