//! The steps, each one exchange on one word, or one load. A row is the word and the slot of a user.
//! Rows are counted from 0.
ghost use Rattle.std.specs.Prelude.{◌≡◌, ◌≢◌, ℕ, ◌<◌, [], ◌∷◌, MatchOption};
ghost use Rattle.cam6_commands.specs.declared.commands.Command.{Command};
ghost use Rattle.cam6_model.specs.Machine.{Machine};
ghost use Rattle.cam6_slot.specs.Finished.{IsDone};
ghost use Rattle.cam6_slot.specs.Parking.{StoredQueued};
ghost use Rattle.cam6_slot.specs.Stands.{Stands};
ghost use Rattle.cam6_handoff.specs.Rule.{StandsForAsked, IsAskedDone};
ghost use Rattle.cam6_handoff.specs.Steps.{PutTells, TakeTells, BackTells, DoneTells};
ghost use Rattle.cam6_handoff.specs.Steps.{CollectTells, SitTells, IsAt};
ghost use Rattle.cam6_handoff.specs.declared.rule.View.TheVariants.{Unseated, Rests, Waits, Idle, Holds};

use crate::rule::{Counts, Handing, View};
use atomic_table::{Play, Seat, Shared};
use cam6_slot::{Finished, Place, Queued};

/// The desk has the machine.
pub(crate) const MINE: u64 = 0;

/// The command waits for a board.
pub(crate) const READY: u64 = 1;

/// The command is finished.
pub(crate) const DONE: u64 = 2;

/// Board 0 has the command. The word of board b is b more.
pub(crate) const OUT: u64 = 3;

pub(crate) type SharedTable = Shared<Option<Place>, View, Counts, Handing>;

pub(crate) type Token = Seat<Option<Place>, View>;

struct Putting;

impl Play<Option<Place>, View> for Putting {
    ghost then = { PutTells };
}

struct Taking;

impl Play<Option<Place>, View> for Taking {
    ghost then = { TakeTells };
}

struct GivingBack;

impl Play<Option<Place>, View> for GivingBack {
    ghost then = { BackTells };
}

struct GivingDone;

impl Play<Option<Place>, View> for GivingDone {
    ghost then = { DoneTells };
}

struct Collecting;

impl Play<Option<Place>, View> for Collecting {
    ghost then = { CollectTells };
}

struct Sitting;

impl Play<Option<Place>, View> for Sitting {
    ghost then = { SitTells };
}

/// A desk takes the slot of its row, counted from 0, for the first time.
pub(crate) fn sit(table: &SharedTable, token: &mut Token, row: usize)
    requires at { IsAt table.now.table_id table.now.key.users token.old.table_id row }
    requires unseated { token.old.me ≡ (Unseated row, []) }
    ensures at { IsAt table.now.table_id table.now.key.users token.new.table_id row }
    ensures rests { token.new.me ≡ (Rests row, (row, None) ∷ []) }
{
    table.load::<Sitting>(token, row);
}

/// A desk puts the user's command into its slot, and sets the word so that it waits for a board.
/// The desk has had its slot, and waits for nothing.
pub(crate) fn put(table: &SharedTable, token: &mut Token, row: usize, queued: Queued)
    requires at { IsAt table.now.table_id table.now.key.users token.old.table_id row }
    requires rests { token.old.me ≡ (Rests row, (row, None) ∷ []) }
    requires asked { StandsForAsked queued queued }
    ensures at { IsAt table.now.table_id table.now.key.users token.new.table_id row }
    ensures waits { token.new.me ≡ (Waits row queued, []) }
{
    drop(table.exchange(token, row, Some(Place::Queued(queued))));
    let found = table.swap::<Putting>(token, row, READY);
    prove!(found == MINE);
}

/// A desk that waits takes the finished command and the machine from its slot. Returns `None` and
/// changes nothing if the command isn't finished.
pub(crate) fn collect(table: &SharedTable, token: &mut Token, row: usize) -> Option<Finished>
    requires at { IsAt table.now.table_id table.now.key.users token.old.table_id row }
    requires waits { (asked : StoredQueued) × (token.old.me ≡ (Waits row asked, [])) }
    ensures at { IsAt table.now.table_id table.now.key.users token.new.table_id row }
    ensures found { MatchOption result (token.new.me ≡ token.old.me)
        (λ f. (token.new.me ≡ (Rests row, (row, None) ∷ []))
        × ((asked : StoredQueued) → token.old.me ≡ (Waits row asked, []) → IsAskedDone asked f)) }
{
    if table.compare_exchange::<Collecting>(token, row, DONE, MINE) != DONE {
        return None;
    }
    let place = match table.exchange(token, row, None) {
        Some(place) => place,
        None => unreachable!(),
    };
    match place {
        Place::Finished(finished) => Some(finished),
        Place::Queued(_queued) => unreachable!(),
    }
}

/// A board that holds nothing takes the command from the slot of this row's user. Rows and boards
/// are counted from 0. Returns `None` and changes nothing if no command waits there.
pub(crate) fn take(table: &SharedTable, token: &mut Token, row: usize, board: u8) -> Option<Queued>
    requires at { IsAt table.now.table_id table.now.key.users token.old.table_id row }
    requires idle { token.old.me ≡ (Idle board, []) }
    ensures at { IsAt table.now.table_id table.now.key.users token.new.table_id row }
    ensures found { MatchOption result (token.new.me ≡ token.old.me)
        (λ q. token.new.me ≡ (Holds board row q, (row, None) ∷ [])) }
{
    if table.compare_exchange::<Taking>(token, row, READY, OUT + board as u64) != READY {
        return None;
    }
    let place = match table.exchange(token, row, None) {
        Some(place) => place,
        None => unreachable!(),
    };
    match place {
        Place::Queued(queued) => Some(queued),
        Place::Finished(_finished) => unreachable!(),
    }
}

/// A board gives the command that it took back to the slot of this row's user. It waits for a board
/// again.
pub(crate) fn give_back(table: &SharedTable, token: &mut Token, row: usize, queued: Queued)
    requires at { IsAt table.now.table_id table.now.key.users token.old.table_id row }
    requires holds { (b : ℕ) × (q : StoredQueued)
        × (token.old.me ≡ (Holds b row q, (row, None) ∷ [])) }
    requires stands { (b : ℕ) (q : StoredQueued) →
        token.old.me ≡ (Holds b row q, (row, None) ∷ []) →
        (m : Machine) (c : Command) → Stands q m c → Stands queued m c }
    ensures at { IsAt table.now.table_id table.now.key.users token.new.table_id row }
    ensures idle { (b : ℕ) (q : StoredQueued) →
        token.old.me ≡ (Holds b row q, (row, None) ∷ []) → token.new.me ≡ (Idle b, []) }
{
    drop(table.exchange(token, row, Some(Place::Queued(queued))));
    table.swap::<GivingBack>(token, row, READY);
}

/// A board gives the command that it took, which is finished, to the slot of this row's user. Wakes
/// the user's desk.
pub(crate) fn give_done(table: &SharedTable, token: &mut Token, row: usize, finished: Finished)
    requires at { IsAt table.now.table_id table.now.key.users token.old.table_id row }
    requires holds { (b : ℕ) × (q : StoredQueued)
        × (token.old.me ≡ (Holds b row q, (row, None) ∷ [])) }
    requires is_done { (b : ℕ) (q : StoredQueued) →
        token.old.me ≡ (Holds b row q, (row, None) ∷ []) →
        (m : Machine) (c : Command) → Stands q m c → IsDone finished m c }
    ensures at { IsAt table.now.table_id table.now.key.users token.new.table_id row }
    ensures idle { (b : ℕ) (q : StoredQueued) →
        token.old.me ≡ (Holds b row q, (row, None) ∷ []) → token.new.me ≡ (Idle b, []) }
{
    drop(table.exchange(token, row, Some(Place::Finished(finished))));
    table.swap::<GivingDone>(token, row, DONE);
    table.wake_one(row);
}
