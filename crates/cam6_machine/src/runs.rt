//! Steps along a cycle, forward and backward.
ghost use Rattle.std.specs.Prelude.{◌≡◌, ◌<◌, ℕ, List, length};
ghost use Rattle.cam6_planes.specs.Stored.{AreAlike};
ghost use Rattle.cam6_planes.specs.declared.sides.Side.{Side};
ghost use Rattle.cam6_cycle.specs.Limits.{max_tables};
ghost use Rattle.cam6_model.specs.Rules.{Rule};
ghost use Rattle.cam6_rules.specs.Numbers.{AreNumbered};
ghost use Rattle.cam6_rules.specs.Filled.{AreTablesOf};
ghost use Rattle.cam6_machine.specs.Internal.Images.{stored_as};
ghost use Rattle.cam6_model.specs.Moves.{moved, CanMove};
ghost use Rattle.cam6_model.specs.Always.{HaveOwnNames};

use crate::steps::step;
use cam6_band::{AtRest, Scratch, tables_of_step};
use cam6_cycle::{Cycle, Direction};
use cam6_entries::Table;

/// Does `n` steps of an image along the cycle (backward, undoes them), from a position counted from
/// 0. Returns the image and the position after them. `tables` are the 32 of `Tables::by_use`,
/// filled for this cycle and direction. The scratch may hold anything.
pub(crate) fn go_along(
    image: AtRest,
    cycle: &Cycle,
    direction: Direction,
    tables: &[Table],
    scratch: &mut Scratch,
    position: usize,
    n: u16,
) -> (AtRest, usize)
    requires position { position < length cycle.now }
    requires room { length tables.now ≡ max_tables }
    ensures position { result.1 < length cycle.now }
    ensures alike { AreAlike image.planes result.0.planes }
    // By whatever rules these are the tables of.
    ensures steps { (limit : Side) (rules : List Rule) (colours : List ℕ) → HaveOwnNames rules →
        AreNumbered rules cycle.now → AreTablesOf direction rules cycle.now tables.now →
        let m = stored_as image.planes limit rules cycle.now position colours in
        CanMove direction m →
        stored_as result.0.planes limit rules cycle.now result.1 colours
        ≡ moved direction n m }
{
    let mut image = image;
    let mut position = position;
    for _step in 0..n {
        let (by, after) = tables_of_step(cycle, position, direction, tables);
        image = step(image, &by, scratch);
        position = after;
    }
    (image, position)
}
