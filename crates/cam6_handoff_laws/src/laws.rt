//! Each step of the hand-off table is one event of the core. Each law is the contract of a function
//! that does nothing.
ghost use Rattle.cam6_handoff_laws.specs.Laws.{WordIsStatus, RowIsSaid, PutIsAsk, TakeIsLease};
ghost use Rattle.cam6_handoff_laws.specs.Laws.{BackIsPreempt, BackFromHomeIsFail, DoneIsLastBand};
ghost use Rattle.cam6_handoff_laws.specs.Laws.{CollectIsCollect, LookIsNoEvent, FirstTakeIsNoEvent};
ghost use Rattle.cam6_handoff_laws.specs.Threads.{ActionIsEvents, BeginsAtFresh, ExecutionIsEvents};
ghost use Rattle.cam6_handoff_laws.specs.Threads.{DesksGiveTheReplies, CollectedIsGiven, TakenPlaceStands};

/// If a row's word and slot are right for the stage of its user's command, the word stands for the
/// status of this stage.
pub fn a_word_is_a_status()
    ensures law { WordIsStatus }
{}

/// If the table keeps its rule, each row's word and slot are right for the stage of the row's user.
pub fn a_row_is_said()
    ensures law { RowIsSaid }
{}

/// If a desk puts a command with bands, that is the event `ask` of the core's model. Its outcome is
/// the number of these bands.
pub fn a_put_is_an_ask()
    ensures law { PutIsAsk }
{}

/// If the seat of an idle board takes a waiting command, that is the event `lease`. Its outcome is
/// the number of bands that are left.
pub fn a_take_is_a_lease()
    ensures law { TakeIsLease }
{}

/// If a seat puts a command back as it was taken off its board, that is the event `preempt`. The
/// bands that are done are kept, and the board is idle then.
pub fn a_place_put_back_is_a_preempt()
    ensures law { BackIsPreempt }
{}

/// If a seat puts a command back from its image at home, that is the event `fail` of its board,
/// which is dead then.
pub fn a_place_put_back_from_its_home_is_a_fail()
    ensures law { BackFromHomeIsFail }
{}

/// If a seat puts a command as done, that is the event `band` of its last band. Its outcome is 0
/// bands left, and the board is idle then.
pub fn what_is_put_as_done_is_the_last_band()
    ensures law { DoneIsLastBand }
{}

/// If a desk collects a finished command, that is the event `collect`. The machine that the desk
/// gets is then the user's private machine.
pub fn a_collect_is_a_collect()
    ensures law { CollectIsCollect }
{}

/// A take that finds no waiting command, or a collect that finds no finished one, changes nothing,
/// and is no event.
pub fn a_look_is_no_event()
    ensures law { LookIsNoEvent }
{}

/// If a desk takes its slot for the first time, that is no event: the user rests as before.
pub fn a_first_take_is_no_event()
    ensures law { FirstTakeIsNoEvent }
{}

/// If the threads are where a model of the core is, an action of a thread has the effect of the
/// action's events on the model.
pub fn an_action_is_its_events()
    ensures law { ActionIsEvents }
{}

/// After `boot` the threads are where the model of a new core is.
pub fn threads_begin_at_a_new_core()
    ensures law { BeginsAtFresh }
{}

/// All actions of the threads, from the beginning on, have the effect of one list of events on the
/// model of a new core.
pub fn an_execution_is_a_list_of_events()
    ensures law { ExecutionIsEvents }
{}

/// Each desk gives a private machine's replies to the commands that were put at the desk, in order.
/// Only the reply to the last one is missing while its user waits.
pub fn desks_give_the_replies()
    ensures law { DesksGiveTheReplies }
{}

/// The reply that a desk collects is the private machine's reply to the command that was put there.
pub fn what_is_collected_is_the_reply()
    ensures law { CollectedIsGiven }
{}

/// The command that a board's seat took stands for the command that its user put.
pub fn a_taken_place_stands()
    ensures law { TakenPlaceStands }
{}
