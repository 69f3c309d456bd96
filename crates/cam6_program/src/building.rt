//! Building: entries as a diagram of choices by the bits of their address.
//!
//! At first there is a node for each bit of each entry: the bit itself. Two that lie side by side
//! differ in one line alone, so that their choice by that line stands for both. Then there are half
//! as many, and the next line follows. After the last line two nodes are left, one for each level.
//!
//! A choice and its inverse have one place. The one whose `low` is no inverse stands there.
ghost use Rattle.std.specs.Prelude.{◌<◌, ◌≤◌, ◌+◌, ◌≡◌, ◌^◌, length, IfOk};
ghost use Rattle.cam6_wiring.specs.declared.wirings.TheConstants.{LINES};
ghost use Rattle.cam6_program.specs.declared.nodes.TheConstants.{PLACES};

use crate::nodes::{Choice, Node, ONE, PLACES, ZERO};
use crate::orders::Order;
use cam6_wiring::LINES;

pub(crate) const ENTRIES: usize = 1 << LINES;

/// There are more choices than places.
#[derive(Drop)]
pub(crate) struct TooLong;

/// Choices, each after those among which it chooses, and the nodes of both levels. The choices of the
/// first places stand for the lines.
#[derive(Drop)]
pub(crate) struct Diagram {
    pub(crate) choices: [Choice; PLACES],
    pub(crate) count: usize,
    /// How many of the choices after the lines stand for operations that count lines.
    pub(crate) counters: usize,
    /// The first choice by the line that is being joined.
    first: usize,
    pub(crate) lower: Node,
    pub(crate) upper: Node,
}

impl Diagram {
    /// Returns the diagram that makes the two lowest bits of the 4096 entries from the lines,
    /// joined in this order. Returns `TooLong` if it needs more choices than places.
    pub(crate) fn of(entries: &[u8], order: Order) -> Result<Diagram, TooLong>
        requires { length entries.now ≡ 2 ^ LINES }
        ensures { IfOk result (λ diagram. diagram.count ≤ PLACES) }
    {
        let mut nodes = [ZERO; 2 * ENTRIES];
        for k in 0..ENTRIES {
            let entry = entries[order.address(k)];
            nodes[k] = Node::lowest_bit(entry);
            nodes[ENTRIES + k] = Node::lowest_bit(entry >> 1);
        }
        let mut diagram = Diagram::with_counters(0);
        for level in 0..LINES {
            let by = Node::line(order.line(level));
            diagram.join_pairs(by, &mut nodes[..2 * ENTRIES >> level])?;
        }
        diagram.end(nodes[0], nodes[1]);
        Ok(diagram)
    }

    /// Returns a diagram with the twelve lines alone, and with `counters` places after them for the
    /// operations that count lines. All of these have to be at most `PLACES`.
    pub(crate) fn with_counters(counters: usize) -> Diagram
        requires { LINES + counters ≤ PLACES }
        ensures { result.count ≤ PLACES }
    {
        let mut choices = [Choice {
            by: ZERO,
            low: ZERO,
            high: ZERO,
        }; PLACES];
        for line in 0..LINES {
            choices[line] = Choice {
                by: Node::line(line),
                low: ZERO,
                high: ONE,
            };
        }
        Diagram {
            choices,
            count: LINES + counters,
            counters,
            first: LINES + counters,
            lower: ZERO,
            upper: ZERO,
        }
    }

    /// Sets the nodes from which the lower and the upper level are read.
    pub(crate) fn end(&mut self, lower: Node, upper: Node)
        ensures { self.new.count ≡ self.old.count }
    {
        self.lower = lower;
        self.upper = upper;
    }

    /// Replaces each two neighbouring nodes by the node of the choice among them by `by`, which
    /// selects the second where it is 1. Writes these nodes to the first half of `nodes`. Returns
    /// `TooLong` if there are more choices than places.
    pub(crate) fn join_pairs(&mut self, by: Node, nodes: &mut [Node]) -> Result<(), TooLong>
        requires { self.old.count ≤ PLACES }
        ensures { self.new.count ≤ PLACES }
    {
        self.first = self.count;
        // Equal pairs often follow each other.
        let mut last = Choice {
            by,
            low: ZERO,
            high: ZERO,
        };
        let mut joined = ZERO;
        for k in 0..nodes.len() / 2 {
            let choice = Choice {
                by,
                low: nodes[2 * k],
                high: nodes[2 * k + 1],
            };
            if choice != last {
                last = choice;
                joined = self.node(choice)?;
            }
            nodes[k] = joined;
        }
        Ok(())
    }

    /// Returns the node of a choice by the line that is being joined. Adds the choice, or its
    /// inverse, if it is needed and new. Returns `TooLong` if there is no place left for it.
    fn node(&mut self, choice: Choice) -> Result<Node, TooLong>
        requires { self.old.count ≤ PLACES }
        ensures { self.new.count ≤ PLACES }
    {
        if choice.low == choice.high {
            return Ok(choice.low);
        }
        if choice.low.is_inverse() {
            return Ok(self.place_choice(choice.inverse())?.inverse());
        }
        self.place_choice(choice)
    }

    /// Returns the node of a choice by the line that is being joined, whose `low` is no inverse. It
    /// is the line's own node if the choice is that line. Adds the choice if it is new. Returns
    /// `TooLong` if there is no place left for it.
    fn place_choice(&mut self, choice: Choice) -> Result<Node, TooLong>
        requires { self.old.count ≤ PLACES }
        ensures { self.new.count ≤ PLACES }
    {
        if choice.low == ZERO && choice.high == ONE {
            return Ok(choice.by);
        }
        for place in self.first..self.count {
            if self.choices[place] == choice {
                return Ok(Node::at(place));
            }
        }
        if self.count == PLACES {
            return Err(TooLong);
        }
        self.choices[self.count] = choice;
        self.count += 1;
        Ok(Node::at(self.count - 1))
    }
}
