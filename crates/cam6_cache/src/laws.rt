//! Laws of keys and their tables. Each is the contract of a function that does nothing.
ghost use Rattle.cam6_cache.specs.Laws.{KeysAreThemselves, IsTheOnlyTable, TableMakesReversible};

/// Two keys compare as equal exactly if they are the same: half, hood, minor, text and direction.
pub fn keys_are_themselves()
    ensures law { KeysAreThemselves }
{}

/// Two true tables of one key have the same entries.
pub fn a_key_has_one_true_table()
    ensures law { IsTheOnlyTable }
{}

/// If the table of a key's rule can be inverted, the rule of the key is one that can be undone.
pub fn a_table_that_can_be_inverted_makes_its_key_reversible()
    ensures law { TableMakesReversible }
{}
