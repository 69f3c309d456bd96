//! Which nodes of a diagram the steps make, and by which operations.
//!
//! A step reads some nodes as they are. Of others it can read the node or its inverse. Then it takes
//! the one that another step needs, so that both are seldom made.
ghost use Rattle.std.specs.Prelude.{◌≤◌};
ghost use Rattle.cam6_program.specs.declared.nodes.TheConstants.{PLACES};

use crate::building::Diagram;
use crate::nodes::{Choice, NODES, Node, ONE, ZERO};
use crate::steps::{Operation, Source};
use cam6_wiring::LINES;

/// The nodes of a diagram that can be read, since steps make them or lines show them.
#[derive(Drop)]
pub(crate) struct Wanted {
    made: [bool; NODES],
    /// Nodes that some step reads, itself or the inverse.
    either: [bool; NODES],
}

impl Wanted {
    /// Returns which nodes have to be made, so that both levels of a diagram can be read. The
    /// lines' nodes are among them.
    pub(crate) fn of(diagram: &Diagram) -> Wanted
        requires { diagram.now.count ≤ PLACES }
    {
        let mut wanted = Wanted {
            made: [false; NODES],
            either: [false; NODES],
        };
        for line in 0..LINES {
            wanted.want(Node::line(line));
        }
        wanted.want(diagram.lower);
        wanted.want(diagram.upper);
        for back in 0..diagram.count {
            let place = diagram.count - 1 - back;
            wanted.note_place(Node::at(place), diagram.choices[place]);
        }
        wanted
    }

    /// Notes that a step or a level reads this node, and not its inverse.
    fn want(&mut self, node: Node) {
        self.made[node.number()] = true;
    }

    /// Notes that a step can read this node or its inverse.
    fn want_either(&mut self, node: Node) {
        self.either[node.number()] = true;
    }

    /// Notes what is read to make the node of a choice, or its inverse, or both, as far as they are
    /// wanted. What reads these two must have been noted before. If either will do, the node itself
    /// is made unless its inverse is.
    fn note_place(&mut self, node: Node, choice: Choice) {
        let own = node.number();
        let other = node.inverse().number();
        if (self.either[own] || self.either[other]) && !self.made[other] {
            self.made[own] = true;
        }
        if self.made[own] {
            self.note_reads(choice);
        }
        if self.made[other] {
            self.note_reads(choice.inverse());
        }
    }

    /// Notes what the operation of a choice reads besides its `by`, which is made anyway.
    fn note_reads(&mut self, choice: Choice) {
        let Choice { low, high, .. } = choice;
        if low == high.inverse() || high == ZERO {
            self.want(low);
        } else if low == ONE {
            self.want(high);
        } else if low == ZERO {
            self.want_either(high);
        } else if high == ONE {
            self.want_either(low);
        } else {
            self.want(low);
            self.want_either(high);
        }
    }

    /// Returns the operation of the least work that makes a choice, as if each node had the slot of
    /// its own number.
    pub(crate) fn operation(&self, choice: Choice) -> Operation {
        let Choice { low, high, .. } = choice;
        let by = choice.by.source();
        if low == high.inverse() {
            Operation::Xor(by, low.source())
        } else if high == ZERO {
            Operation::AndNot(low.source(), by)
        } else if low == ONE {
            Operation::OrNot(high.source(), by)
        } else if high == ONE {
            self.or(by, low)
        } else if low == ZERO {
            self.and(by, high)
        } else {
            self.choice(by, low.source(), high)
        }
    }

    /// Returns the operation that makes 1 where the source or the node is 1. If the node isn't
    /// made, it reads its inverse.
    fn or(&self, by: Source, node: Node) -> Operation {
        if self.made[node.number()] {
            Operation::Or(by, node.source())
        } else {
            Operation::OrNot(by, node.inverse().source())
        }
    }

    /// Returns the operation that makes 1 where the source and the node are 1. If the node isn't
    /// made, it reads its inverse.
    fn and(&self, by: Source, node: Node) -> Operation {
        if self.made[node.number()] {
            Operation::And(by, node.source())
        } else {
            Operation::AndNot(by, node.inverse().source())
        }
    }

    /// Returns the operation that makes the node where `by` is 1, and `low` where it is 0. If the
    /// node isn't made, it reads its inverse.
    fn choice(&self, by: Source, low: Source, node: Node) -> Operation {
        if self.made[node.number()] {
            let high = node.source();
            Operation::Choice { by, low, high }
        } else {
            let high = node.inverse().source();
            Operation::ChoiceNot { by, low, high }
        }
    }
}
