//! Laws of blocks and of the tables that undo them. Each is the contract of a function that does
//! nothing.
ghost use Rattle.cam6_block.specs.Laws.{TrueTableHasTheBlockMap, TakesEach, CornersAgree};
ghost use Rattle.cam6_block.specs.Laws.{IsTheOnlyOne, InvertedTakesPreimages, InvertedUndoes};
ghost use Rattle.cam6_block.specs.Laws.{CauseIsFound};

/// A block gets the same state by the true table of a rule as by the rule's words.
pub fn a_true_table_has_the_block_map()
    ensures law { TrueTableHasTheBlockMap }
{}

/// A one-to-one map from block states to block states has each block state as a value.
pub fn one_to_one_takes_each_state()
    ensures law { TakesEach }
{}

/// If a table is reversible, two corners that see the same address had the same bits before the
/// step, whatever their blocks and phases.
pub fn corners_that_show_one_address_agree()
    ensures law { CornersAgree }
{}

/// A table has at most one inverse.
pub fn there_is_one_inverse()
    ensures law { IsTheOnlyOne }
{}

/// By the inverse of a reversible table, each block state becomes the least one with this
/// successor.
pub fn the_inverse_takes_preimages()
    ensures law { InvertedTakesPreimages }
{}

/// A block that is changed by a reversible table, and then by its inverse, has its state again.
pub fn the_inverse_gives_blocks_back()
    ensures law { InvertedUndoes }
{}

/// A table is refused for the cause that a search finds. A table is reversible exactly if the
/// search finds no cause.
pub fn a_refusal_has_its_cause()
    ensures law { CauseIsFound }
{}
