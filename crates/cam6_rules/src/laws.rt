//! Laws of rules by their numbers. Each law is the contract of a function that does nothing.
ghost use Rattle.cam6_rules.specs.Laws.{TablesByUse, NumbersAndNames, TrueTablesMove};

/// If tables are filled in the order in which a cycle needs them, those used at a position are the
/// tables of its entry's rules.
pub fn the_tables_of_a_position_are_its_entrys()
    ensures law { TablesByUse }
{}

/// An entry has the same rules by their numbers as by their names.
pub fn numbers_and_names_of_rules_agree()
    ensures law { NumbersAndNames }
{}

/// If the tables of a machine's cycle are true, a step by them is the machine's step, forward or
/// backward.
pub fn true_tables_move_a_machine()
    ensures law { TrueTablesMove }
{}
