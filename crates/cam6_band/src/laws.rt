//! What follows of the tables that the steps of a cycle use. The law is the contract of a function
//! that only calls another law.
ghost use Rattle.cam6_band.specs.Laws.{GoesByItsUse};

use cam6_cycle::laws::each_use_has_its_table;

/// At each position and in either direction, a half uses the table that the cycle needs for this
/// use of its rule.
pub fn each_half_goes_by_its_use()
    ensures law { GoesByItsUse }
{
    each_use_has_its_table();
}
