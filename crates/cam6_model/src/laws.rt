//! What follows of the definition of steps, and what a machine always is. Each law is the contract
//! of a function that does nothing.
ghost use Rattle.cam6_model.specs.Laws.{TrueTablesStep, KeepsItsPlanes, StepsAddUp};
ghost use Rattle.cam6_model.specs.Laws.{OnlyPlanesAndPosition, PositionGoesRound, BlankIsMachine};
ghost use Rattle.cam6_model.specs.Laws.{StaysMachine, RulesRun, LimitStays, StepChangesBlocks};
ghost use Rattle.cam6_model.specs.Laws.{InvertedTablesUndo, UndoingUndoes, DoingRedoes};
ghost use Rattle.cam6_model.specs.Laws.{BackGivesTheMachineBack, BackNeedsReversibleRules};
ghost use Rattle.cam6_model.specs.Laws.{LoadGivesBack, LoadTakesSaved, SavedOfOne};
ghost use Rattle.cam6_model.specs.Laws.{LoadedAnswersAlike, RecoveryIsExact, RecoveriesAreExact};

/// A step of an entry by the true tables of its rules, on a torus of any side, is the step by the
/// rules' words.
pub fn true_tables_step_as_words_do()
    ensures law { TrueTablesStep }
{}

/// A half without a rule keeps its planes, in a step done and in a step undone.
pub fn a_half_without_a_rule_keeps_its_planes()
    ensures law { KeepsItsPlanes }
{}

/// Steps of a first number in a direction, and then steps of a second number, are the steps of both
/// numbers together.
pub fn steps_add_up()
    ensures law { StepsAddUp }
{}

/// Steps in either direction change a machine's planes and its position, and nothing else.
pub fn steps_change_planes_and_position_alone()
    ensures law { OnlyPlanesAndPosition }
{}

/// Each step moves the position by one, round the cycle: up if it is done, and down if it is
/// undone. The position must be one of the cycle's before.
pub fn the_position_goes_round()
    ensures law { PositionGoesRound }
{}

/// A blank machine of any limit is a machine: it has the invariant of `specs/Always.antt`.
pub fn the_blank_machine_is_one()
    ensures law { BlankIsMachine }
{}

/// A machine still has its invariant after any command whose rule texts are UTF-8, accepted or not.
pub fn a_machine_stays_one()
    ensures law { StaysMachine }
{}

/// Each rule that a machine's cycle names is defined, and stops nowhere, whatever a cell sees.
pub fn the_rules_of_a_cycle_run()
    ensures law { RulesRun }
{}

/// No command changes a machine's limit.
pub fn the_limit_stays()
    ensures law { LimitStays }
{}

/// A step by rules that see only their blocks changes each block of the entry's grid as a whole.
/// The side must be even, and the rules stop nowhere.
pub fn a_step_changes_blocks()
    ensures law { StepChangesBlocks }
{}

/// On a torus of even side, a step by the tables that undo an entry's rules is the entry's step
/// undone. Each of its rules must be one that can be undone.
pub fn inverted_tables_undo_a_step()
    ensures law { InvertedTablesUndo }
{}

/// If every rule of the cycle can be undone, steps that are done and then undone give the machine
/// back.
pub fn undoing_gives_the_machine_back()
    ensures law { UndoingUndoes }
{}

/// If every rule of the cycle can be undone, steps that are undone and then done again give the
/// machine back.
pub fn doing_again_gives_the_machine_back()
    ensures law { DoingRedoes }
{}

/// If a machine accepts to go back so many steps, running as many and then going back gives the
/// machine back. So does going back and then running.
pub fn a_back_that_is_accepted_undoes_a_run()
    ensures law { BackGivesTheMachineBack }
{}

/// A machine accepts to go back so many steps exactly if two things hold. It accepts to run as
/// many, and every rule of its cycle can be undone.
pub fn a_back_needs_rules_that_can_be_undone()
    ensures law { BackNeedsReversibleRules }
{}

/// Every machine whose limit allows the side of a saved machine accepts to load it. It then is the
/// saved machine, but keeps its own limit.
pub fn a_load_gives_the_saved_machine_back()
    ensures law { LoadGivesBack }
{}

/// A machine loads nothing but what a save returns: what is loaded without a refusal is what the
/// loaded machine saves. Its bits must be bytes, and its rule texts UTF-8.
pub fn a_load_takes_nothing_else()
    ensures law { LoadTakesSaved }
{}

/// If two machines save the same, they differ at most in their limits.
pub fn what_is_saved_is_of_one_machine()
    ensures law { SavedOfOne }
{}

/// A machine that loads what another one of its limit saved gives the replies of the other one to
/// all further commands.
pub fn a_loaded_machine_answers_alike()
    ensures law { LoadedAnswersAlike }
{}

/// If a machine is lost, another one of its limit can load what was saved of it, and do the
/// commands since. Then the machine and all replies are those of one machine that did all commands.
pub fn recovery_is_exact()
    ensures law { RecoveryIsExact }
{}

/// Machines of one limit are lost again and again, and each time another one loads what was saved.
/// All replies are still those of one machine that did all commands.
pub fn recoveries_are_exact()
    ensures law { RecoveriesAreExact }
{}
