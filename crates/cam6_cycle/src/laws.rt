//! What follows of cycles. Each law is the contract of a function that does nothing.
ghost use Rattle.cam6_cycle.specs.Laws.{UndoEachOther, AreFew, HaveTheirTables};

/// From any position of a cycle, a step in one direction and then one in the other lead back to
/// that position. Both use the same entry.
pub fn forward_and_backward_undo_each_other()
    ensures law { UndoEachOther }
{}

/// A cycle of at most sixteen entries needs at most 32 tables, in either direction.
pub fn tables_are_few()
    ensures law { AreFew }
{}

/// Each rule of an entry has its table, for this half, rule and direction, among those that the
/// cycle needs. An entry's tables come right after those of the entries before it, half A's first.
pub fn each_use_has_its_table()
    ensures law { HaveTheirTables }
{}
