//! Writing: the nodes of a diagram that are needed as steps, each after those that it reads, with few
//! slots.
ghost use Rattle.std.specs.Prelude.{◌≡◌, ◌<◌, ◌≤◌};
ghost use Rattle.cam6_program.specs.declared.nodes.TheConstants.{NODES, PLACES};
ghost use Rattle.cam6_program.specs.declared.programs.TheConstants.{MAX_STEPS};

use crate::building::Diagram;
use crate::counting::{COUNTERS, counter, node_of_operation};
use crate::nodes::{NODES, Node};
use crate::programs::{MAX_SLOTS, MAX_STEPS, Program};
use crate::steps::{Operation, Source, Step};
use crate::wanted::Wanted;

/// A step that nobody needs.
const NO_STEP: Step = Step {
    into: 0,
    operation: Operation::And(Source::Constant(false), Source::Constant(false)),
};

/// A program that is being written. A byte has the number of any node, and any slot.
#[derive(Drop)]
struct Writer {
    /// What makes each node. A slot that is read is the number of another node.
    operations: [Operation; NODES],
    /// How often each node is still to be read.
    reads: [u8; NODES],
    /// The slot of each node, once it is written.
    slot_of: [Option<u8>; NODES],
    is_free: [bool; NODES],
    steps: [Step; MAX_STEPS],
    count: usize,
    slots: usize,
}

/// Returns the program of a diagram, or `None` if it needs more than `MAX_SLOTS` slots.
pub(crate) fn write_program(diagram: &Diagram) -> Option<Program>
    requires { diagram.now.count ≤ PLACES }
{
    let lower = source_of_level(diagram.lower, Source::Line(0));
    let upper = source_of_level(diagram.upper, Source::Line(1));
    let mut writer = Writer::of(diagram);
    writer.expect_level(lower);
    writer.expect_level(upper);
    writer.expect_reads();
    writer.write_counters(diagram.counters);
    let lower = writer.write_level(lower);
    let upper = writer.write_level(upper);
    writer.program(lower, upper)
}

/// Returns the source from which a level is read, by node and not yet by slot. Returns `None` if it
/// is `own`, the source of the cells' own bits: then the level is kept.
fn source_of_level(node: Node, own: Source) -> Option<Source> {
    let source = node.source();
    if source == own { None } else { Some(source) }
}

/// Returns the operation that makes each node of a diagram, by the node's number. It reads other
/// nodes as slots of their numbers. A number that is no node of the diagram has an operation
/// without use.
fn operations(diagram: &Diagram) -> [Operation; NODES]
    requires { diagram.now.count ≤ PLACES }
{
    let wanted = Wanted::of(diagram);
    let mut operations = [NO_STEP.operation; NODES];
    for place in 0..diagram.count {
        let node = Node::at(place);
        let choice = diagram.choices[place];
        operations[node.number()] = wanted.operation(choice);
        operations[node.inverse().number()] = wanted.operation(choice.inverse());
    }
    for place in 0..COUNTERS {
        if place < diagram.counters {
            operations[node_of_operation(place).number()] = counter(place);
        }
    }
    operations
}

impl Writer {
    /// Makes a writer that has written no step, and expects no source to be read.
    fn of(diagram: &Diagram) -> Writer
        requires { diagram.now.count ≤ PLACES }
        ensures { result.count ≤ MAX_STEPS }
    {
        Writer {
            operations: operations(diagram),
            reads: [0; NODES],
            slot_of: [None; NODES],
            is_free: [true; NODES],
            steps: [NO_STEP; MAX_STEPS],
            count: 0,
            slots: 0,
        }
    }

    /// Notes that a level's source, by node, will be read at the end. Without a source there is
    /// nothing to note.
    fn expect_level(&mut self, level: Option<Source>)
        ensures { self.new.count ≡ self.old.count }
    {
        if let Some(source) = level {
            self.expect(source);
        }
    }

    /// Notes every source that the nodes' operations will read, from the last node to the first.
    /// Only nodes that are read themselves count. Each node stands after those that it reads.
    fn expect_reads(&mut self)
        ensures { self.new.count ≡ self.old.count }
    {
        for back in 0..NODES {
            let number = NODES - 1 - back;
            if self.reads[number] > 0 {
                for source in sources(self.operations[number]) {
                    self.expect(source);
                }
            }
        }
    }

    /// Notes that a source will be read once more. Only a source that is a node counts: constants
    /// and lines need no slot.
    fn expect(&mut self, source: Source)
        ensures { self.new.count ≡ self.old.count }
    {
        if let Source::Slot(number) = source {
            let number = usize::from(number);
            self.reads[number] = self.reads[number].saturating_add(1);
        }
    }

    /// Writes the steps of the first `counters` operations that count lines, in their order, which
    /// needs the fewest slots. Leaves out those that nothing reads, and those past `MAX_STEPS`
    /// steps.
    fn write_counters(&mut self, counters: usize)
        requires { self.old.count ≤ MAX_STEPS }
        ensures { self.new.count ≤ MAX_STEPS }
    {
        for place in 0..COUNTERS {
            let number = node_of_operation(place).number();
            if place < counters && self.reads[number] > 0 && self.count < MAX_STEPS {
                self.put_step(number, self.operations[number]);
            }
        }
    }

    /// Writes the steps of the node that a level is read from. Returns the level's source, with the
    /// node replaced by its slot. Returns `None` without a source.
    fn write_level(&mut self, level: Option<Source>) -> Option<Source>
        requires { self.old.count ≤ MAX_STEPS }
        ensures { self.new.count ≤ MAX_STEPS }
    {
        let source = level?;
        if let Source::Slot(number) = source {
            self.write_node(usize::from(number));
        }
        Some(self.in_slot(source))
    }

    /// Writes the step of node `number`, after those of all nodes that it reads. Writes nothing if
    /// the step is written already, or if there are `MAX_STEPS` steps.
    fn write_node(&mut self, number: usize)
        requires number { number < NODES }
        requires count { self.old.count ≤ MAX_STEPS }
        ensures { self.new.count ≤ MAX_STEPS }
    {
        if self.slot_of[number].is_some() {
            return;
        }
        let operation = self.operations[number];
        for source in sources(operation) {
            if let Source::Slot(below) = source {
                if usize::from(below) < number {
                    self.write_node(usize::from(below));
                }
            }
        }
        if self.count < MAX_STEPS {
            self.put_step(number, operation);
        }
    }

    /// Adds the step of node `number` to the program, which has to have fewer than `MAX_STEPS`.
    /// Picks a slot for it while those that it reads are not yet free. Then frees those that
    /// nothing will read any more.
    fn put_step(&mut self, number: usize, operation: Operation)
        requires number { number < NODES }
        requires count { self.old.count < MAX_STEPS }
        ensures { self.new.count ≤ MAX_STEPS }
    {
        let into = self.free_slot();
        self.is_free[usize::from(into)] = false;
        self.slots = self.slots.max(usize::from(into) + 1);
        self.steps[self.count] = Step {
            into,
            operation: self.in_slots(operation),
        };
        self.count += 1;
        self.slot_of[number] = Some(into);
        for source in sources(operation) {
            self.note_read(source);
        }
    }

    /// Returns the first slot that no later step reads, or 255 if there is none.
    fn free_slot(&self) -> u8 {
        for slot in 0..u8::MAX {
            if self.is_free[usize::from(slot)] {
                return slot;
            }
        }
        u8::MAX
    }

    /// Notes that a source has been read once. Frees a slot that nothing will read any more.
    fn note_read(&mut self, source: Source)
        ensures { self.new.count ≡ self.old.count }
    {
        if let Source::Slot(number) = source {
            let number = usize::from(number);
            self.reads[number] = self.reads[number].saturating_sub(1);
            if self.reads[number] == 0 {
                if let Some(slot) = self.slot_of[number] {
                    self.is_free[usize::from(slot)] = true;
                }
            }
        }
    }

    /// Returns the operation with each node that it reads replaced by the node's slot, or by slot
    /// 255 if it has none yet.
    fn in_slots(&self, operation: Operation) -> Operation {
        match operation {
            Operation::Choice { by, low, high } => Operation::Choice {
                by: self.in_slot(by),
                low: self.in_slot(low),
                high: self.in_slot(high),
            },
            Operation::ChoiceNot { by, low, high } => Operation::ChoiceNot {
                by: self.in_slot(by),
                low: self.in_slot(low),
                high: self.in_slot(high),
            },
            Operation::And(first, second) => {
                Operation::And(self.in_slot(first), self.in_slot(second))
            }
            Operation::AndNot(first, second) => {
                Operation::AndNot(self.in_slot(first), self.in_slot(second))
            }
            Operation::Or(first, second) => {
                Operation::Or(self.in_slot(first), self.in_slot(second))
            }
            Operation::OrNot(first, second) => {
                Operation::OrNot(self.in_slot(first), self.in_slot(second))
            }
            Operation::Xor(first, second) => {
                Operation::Xor(self.in_slot(first), self.in_slot(second))
            }
        }
    }

    /// Returns the source with a node replaced by its slot, or by slot 255 if it has none yet.
    fn in_slot(&self, source: Source) -> Source {
        match source {
            Source::Slot(number) => {
                Source::Slot(self.slot_of[usize::from(number)].unwrap_or(u8::MAX))
            }
            Source::Constant(_) | Source::Line(_) => source,
        }
    }

    /// Returns the program whose levels are read from these sources, by slot. Returns `None` if it
    /// needs more than `MAX_SLOTS` slots. A level without a source is kept.
    fn program(self, lower: Option<Source>, upper: Option<Source>) -> Option<Program>
        requires { self.count ≤ MAX_STEPS }
    {
        if self.slots > MAX_SLOTS {
            return None;
        }
        let mut asked = asked_by(lower) | asked_by(upper);
        for step in self.steps[..self.count].iter() {
            for source in sources(step.operation) {
                asked |= asked_by(Some(source));
            }
        }
        let Writer { steps, count, .. } = self;
        Some(Program::new(steps, count, asked, lower, upper))
    }
}

/// Returns the mask with the bit of the line that a source reads, or 0 if it reads no line. Line 0
/// is the lowest bit.
fn asked_by(source: Option<Source>) -> u16 {
    match source {
        Some(Source::Line(line)) => 1 << (line & 15),
        _ => 0,
    }
}

/// Returns the sources that an operation reads. If it reads two, the third is the constant 0.
fn sources(operation: Operation) -> [Source; 3] {
    match operation {
        Operation::Choice { by, low, high } | Operation::ChoiceNot { by, low, high } => {
            [by, low, high]
        }
        Operation::And(first, second)
        | Operation::AndNot(first, second)
        | Operation::Or(first, second)
        | Operation::OrNot(first, second)
        | Operation::Xor(first, second) => [first, second, Source::Constant(false)],
    }
}
