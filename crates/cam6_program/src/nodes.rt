//! The bits that a diagram makes of an address, and its choices among them.
ghost use Rattle.std.specs.Prelude.{◌<◌};
ghost use Rattle.cam6_wiring.specs.declared.wirings.TheConstants.{LINES};

use crate::steps::Source;
use cam6_wiring::LINES;

/// A bit that is made of an address: a constant, what a line shows, what a choice selects, or the
/// inverse of one of these. The number of a node fits into a byte, so an array of `NODES` has room
/// for each. A node and its inverse differ in the lowest bit of their numbers.
#[derive(Clone, Copy, PartialEq, Eq)]
pub(crate) struct Node(u8);

/// The number of nodes that a byte can tell apart.
pub(crate) const NODES: usize = 256;

/// Places of a diagram. The lines stand first, then the choices.
pub(crate) const PLACES: usize = 127;

pub(crate) const ZERO: Node = Node(0);

pub(crate) const ONE: Node = Node(1);

/// The node at the first place. The constants stand before it.
const FIRST: u8 = 2;

/// The node at the first place that has no line.
const FIRST_CHOICE: u8 = 26;

impl Node {
    /// Returns the constant node with the lowest bit of a byte.
    pub(crate) fn lowest_bit(byte: u8) -> Node {
        Node(byte & 1)
    }

    /// Returns the node of a line, from 0 to 11.
    pub(crate) fn line(line: usize) -> Node
        requires { line < LINES }
    {
        Node::at(line)
    }

    /// Returns the node at a place of the diagram, counted from 0 and below `PLACES`.
    pub(crate) fn at(place: usize) -> Node
        requires { place < PLACES }
    {
        Node(FIRST + 2 * place as u8)
    }

    /// The node's number, below `NODES`.
    pub(crate) fn number(self) -> usize
        ensures { result < NODES }
    {
        usize::from(self.0)
    }

    /// Returns the node that is 1 exactly where this one is 0.
    pub(crate) fn inverse(self) -> Node {
        Node(self.0 ^ 1)
    }

    /// Whether this node is the inverse of the node at a place, or the constant 1. Its number is
    /// odd then.
    pub(crate) fn is_inverse(self) -> bool {
        self.0 & 1 == 1
    }

    /// Returns the source by which a step reads the node: a constant, a line, or else a slot. Each
    /// node is taken to have the slot of its own number, and so is a line's inverse.
    pub(crate) fn source(self) -> Source {
        if self.0 < FIRST {
            Source::Constant(self == ONE)
        } else if self.0 < FIRST_CHOICE && !self.is_inverse() {
            Source::Line((self.0 - FIRST) / 2)
        } else {
            Source::Slot(self.0)
        }
    }
}

/// `high` if the node `by` is 1, and `low` if it is 0.
#[derive(Clone, Copy, PartialEq, Eq)]
pub(crate) struct Choice {
    pub(crate) by: Node,
    pub(crate) low: Node,
    pub(crate) high: Node,
}

impl Choice {
    /// Returns the choice that selects 1 exactly where this one selects 0.
    pub(crate) fn inverse(self) -> Choice {
        Choice {
            by: self.by,
            low: self.low.inverse(),
            high: self.high.inverse(),
        }
    }
}
