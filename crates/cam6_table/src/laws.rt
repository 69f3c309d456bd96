//! Laws that tie trees, what they mean, and tables. Each is the contract of a function that does
//! nothing.
ghost use Rattle.cam6_table.specs.Laws.{TrueTableIsRule, TreesMeanTheSame, LeastIsFound};
ghost use Rattle.cam6_table.specs.Laws.{NoneIsFound, WantsValues, RunsEverywhere};
ghost use Rattle.cam6_table.specs.Laws.{FilledIsOfTheText};

/// The entry of a true table at the address of what a cell sees is the rule's result for what it
/// sees.
pub fn a_true_table_is_the_rule()
    ensures law { TrueTableIsRule }
{}

/// Two trees of one rule have the same result, whatever a cell sees.
pub fn trees_of_one_rule_mean_the_same()
    ensures law { TreesMeanTheSame }
{}

/// The least address at which a rule stops is the first that a search over all addresses finds.
pub fn the_least_stop_is_found()
    ensures law { LeastIsFound }
{}

/// A search over all addresses finds no stop if the rule stops at none of them.
pub fn no_stop_is_found()
    ensures law { NoneIsFound }
{}

/// A stack word stops with `MissingValue` exactly if the stack has fewer values than the word
/// needs.
pub fn a_word_wants_so_many_values()
    ensures law { WantsValues }
{}

/// A rule that stops at no address stops nowhere, whatever a cell sees.
pub fn a_rule_that_stops_at_no_address_runs()
    ensures law { RunsEverywhere }
{}

/// If code fills a table, and it is code of the rule that a text was accepted as, it is the text's
/// code. The table is then the text's table.
pub fn code_that_filled_a_table_is_its_texts()
    ensures law { FilledIsOfTheText }
{}
