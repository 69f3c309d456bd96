//! The table at the beginning, and its seats.
ghost use Rattle.std.specs.Prelude.{◌≡◌, ◌+◌, ◌<◌, ◌≤◌, [], IfOk, IsOk, OnOk, length};
ghost use Rattle.std.specs.Arc.{arc_value};
ghost use Rattle.cam6_handoff.specs.Standing.{standing};
ghost use Rattle.cam6_commands.specs.Limits.{max_users, max_boards};
ghost use Rattle.cam6_commands.specs.declared.limits.TheConstants.{MAX_USERS, MAX_BOARDS};
ghost use Rattle.cam6_handoff.specs.Desks.{IsBlankDesk};
ghost use Rattle.cam6_handoff.specs.Boot.{AreBlankDesks, AreIdleSeats, IsSeatOf};
ghost use Rattle.cam6_handoff.specs.Internal.Cutting.{IsFirstOf, after_desk, new_desk};
ghost use Rattle.cam6_handoff.specs.Internal.Cutting.{after_board, new_board};
ghost use Rattle.cam6_handoff.specs.declared.rule.View.TheVariants.{First};

use crate::desks::{Desk, HandTable, desk_of};
use crate::permits::FillPermit;
use crate::rule::{Counts, View};
use crate::seats::{BoardSeat, seat_of};
use crate::steps;
use crate::steps::Token;
use atomic_table::{Split, Table};
use cam6_commands::MAX_USERS;
use cam6_machine::Machine;
use cam6_planes::{NoMemory, Side};
use cam6_slot::Resting;
use cam6_station::Filling;
use std::alloc::Global;
use std::sync::Arc;

struct DeskCut;

impl Split<View> for DeskCut {
    ghost left = { after_desk };

    ghost right = { new_desk };
}

struct BoardCut;

impl Split<View> for BoardCut {
    ghost left = { after_board };

    ghost right = { new_board };
}

/// Splits the token of a row's desk off `first`, and takes the row's slot with it. Rows are counted
/// from 0, and this one is the next. Returns the desk with this machine.
fn cut_desk(table: Arc<HandTable>, first: &mut Token, row: usize, resting: Resting) -> Desk
    requires of { IsFirstOf (arc_value table).shared.table_id
        (arc_value table).shared.key.users first.old.table_id }
    requires row { row < (arc_value table).shared.key.users }
    requires next { first.old.me ≡ (First row 0, []) }
    ensures of { first.new.table_id ≡ first.old.table_id }
    ensures next { first.new.me ≡ (First (row + 1) 0, []) }
    ensures desk { result ≡ standing (row + 1) resting }
{
    let mut seat = table.shared.split_seat::<DeskCut>(first);
    steps::sit(&table.shared, &mut seat, row);
    desk_of(table, seat, row, resting)
}

/// Splits the token of a board off `first`. Boards are counted from 0, and this one is the next.
/// Returns the board's seat, which holds no command.
fn cut_board(
    table: Arc<HandTable>,
    first: &mut Token,
    users: usize,
    board: u8,
    filling: Filling,
    permit: Arc<FillPermit>,
) -> BoardSeat
    requires of { IsFirstOf (arc_value table).shared.table_id users first.old.table_id }
    requires users { (arc_value table).shared.key.users ≡ users }
    requires a_user { 0 < users }
    requires few { users ≤ max_users }
    requires next { first.old.me ≡ (First users board, []) }
    ensures of { first.new.table_id ≡ first.old.table_id }
    ensures next { first.new.me ≡ (First users (board + 1), []) }
    ensures seat { IsSeatOf board users result }
{
    let seat = table.shared.split_seat::<BoardCut>(first);
    seat_of(table, seat, board, users, filling, permit)
}

/// Splits a token off `first` for each user. Returns their desks, from user 1 on, each with a blank
/// machine. The largest side that it may have is at the user's row of `limits`.
fn cut_desks(
    alloc: Global,
    table: &Arc<HandTable>,
    first: &mut Token,
    limits: &[Side],
) -> Result<Vec<Desk>, NoMemory>
    requires of { IsFirstOf (arc_value table.now).shared.table_id
        (arc_value table.now).shared.key.users first.old.table_id }
    requires users { (arc_value table.now).shared.key.users ≡ length limits.now }
    requires next { first.old.me ≡ (First 0 0, []) }
    ensures of { IsOk result → first.new.table_id ≡ first.old.table_id }
    ensures next { IsOk result → first.new.me ≡ (First (length limits.now) 0, []) }
    ensures desks { IfOk result (λ desks. AreBlankDesks limits.now desks.items) }
{
    let mut desks = Vec::with_capacity(alloc, limits.len())?;
    add_desks(alloc, table, first, limits, &mut desks)?;
    Ok(desks)
}

/// Adds a desk for each user, from user 1 on, to `desks`, which is empty. Each has a blank machine.
/// The largest side that it may have is at the user's row of `limits`. Splits the tokens off
/// `first`.
fn add_desks(
    alloc: Global,
    table: &Arc<HandTable>,
    first: &mut Token,
    limits: &[Side],
    desks: &mut Vec<Desk>,
) -> Result<(), NoMemory>
    requires of { IsFirstOf (arc_value table.now).shared.table_id
        (arc_value table.now).shared.key.users first.old.table_id }
    requires users { (arc_value table.now).shared.key.users ≡ length limits.now }
    requires next { first.old.me ≡ (First 0 0, []) }
    requires none { desks.old.items ≡ [] }
    ensures of { OnOk result (first.new.table_id ≡ first.old.table_id) }
    ensures next { OnOk result (first.new.me ≡ (First (length limits.now) 0, [])) }
    ensures desks { OnOk result (AreBlankDesks limits.now desks.new.items) }
{
    for row in 0..limits.len() {
        let desk = new_desk(alloc, table, first, row, limits[row])?;
        desks.push(desk)?;
    }
    Ok(())
}

/// Makes the desk of the next row, counted from 0, with a blank machine. `limit` is the largest
/// side that it may have. Splits the desk's token off `first`.
fn new_desk(
    alloc: Global,
    table: &Arc<HandTable>,
    first: &mut Token,
    row: usize,
    limit: Side,
) -> Result<Desk, NoMemory>
    requires of { IsFirstOf (arc_value table.now).shared.table_id
        (arc_value table.now).shared.key.users first.old.table_id }
    requires row { row < (arc_value table.now).shared.key.users }
    requires next { first.old.me ≡ (First row 0, []) }
    ensures of { OnOk result (first.new.table_id ≡ first.old.table_id) }
    ensures next { OnOk result (first.new.me ≡ (First (row + 1) 0, [])) }
    ensures desk { IfOk result (λ desk. IsBlankDesk (row + 1) limit desk) }
{
    let table = Arc::clone(table)?;
    let resting = Resting::new(Machine::new(alloc, limit)?);
    Ok(cut_desk(table, first, row, resting))
}

/// Splits a token off `first` for each board. Returns their seats, from board 0 on, which hold no
/// command.
fn cut_seats(
    alloc: Global,
    table: &Arc<HandTable>,
    first: &mut Token,
    users: usize,
    boards: u8,
) -> Result<Vec<BoardSeat>, NoMemory>
    requires of { IsFirstOf (arc_value table.now).shared.table_id users first.old.table_id }
    requires users { (arc_value table.now).shared.key.users ≡ users }
    requires a_user { 0 < users }
    requires few { users ≤ max_users }
    requires next { first.old.me ≡ (First users 0, []) }
    ensures { IfOk result (λ seats. AreIdleSeats boards users seats.items) }
{
    let mut seats = Vec::with_capacity(alloc, usize::from(boards))?;
    let permit = Arc::new(alloc, FillPermit::new())?;
    add_seats(alloc, table, first, users, boards, &permit, &mut seats)?;
    Ok(seats)
}

/// Adds a seat for each board, from board 0 on, to `seats`, which is empty. Splits their tokens off
/// `first`.
fn add_seats(
    alloc: Global,
    table: &Arc<HandTable>,
    first: &mut Token,
    users: usize,
    boards: u8,
    permit: &Arc<FillPermit>,
    seats: &mut Vec<BoardSeat>,
) -> Result<(), NoMemory>
    requires of { IsFirstOf (arc_value table.now).shared.table_id users first.old.table_id }
    requires users { (arc_value table.now).shared.key.users ≡ users }
    requires a_user { 0 < users }
    requires few { users ≤ max_users }
    requires next { first.old.me ≡ (First users 0, []) }
    requires none { seats.old.items ≡ [] }
    ensures { OnOk result (AreIdleSeats boards users seats.new.items) }
{
    for board in 0..boards {
        let seat = new_seat(alloc, table, first, users, board, permit)?;
        seats.push(seat)?;
    }
    Ok(())
}

/// Makes the seat of the next board, counted from 0, and allocates its tables. Splits its token off
/// `first`.
fn new_seat(
    alloc: Global,
    table: &Arc<HandTable>,
    first: &mut Token,
    users: usize,
    board: u8,
    permit: &Arc<FillPermit>,
) -> Result<BoardSeat, NoMemory>
    requires of { IsFirstOf (arc_value table.now).shared.table_id users first.old.table_id }
    requires users { (arc_value table.now).shared.key.users ≡ users }
    requires a_user { 0 < users }
    requires few { users ≤ max_users }
    requires next { first.old.me ≡ (First users board, []) }
    ensures of { OnOk result (first.new.table_id ≡ first.old.table_id) }
    ensures next { OnOk result (first.new.me ≡ (First users (board + 1), [])) }
    ensures seat { IfOk result (λ seat. IsSeatOf board users seat) }
{
    let (table, permit) = (Arc::clone(table)?, Arc::clone(permit)?);
    let filling = Filling::new(alloc)?;
    Ok(cut_board(table, first, users, board, filling, permit))
}

/// Splits the tokens of all desks and seats off `first`. Returns a desk for each user, from user 1
/// on, and a seat for each board, from board 0 on. Each desk has a blank machine. The largest side
/// that it may have is at the user's row of `limits`.
fn cut(
    alloc: Global,
    table: &Arc<HandTable>,
    first: &mut Token,
    users: usize,
    boards: u8,
    limits: &[Side],
) -> Result<(Vec<Desk>, Vec<BoardSeat>), NoMemory>
    requires of { IsFirstOf (arc_value table.now).shared.table_id users first.old.table_id }
    requires users { (arc_value table.now).shared.key.users ≡ users }
    requires a_user { 0 < users }
    requires few { users ≤ max_users }
    requires limits { length limits.now ≡ users }
    requires next { first.old.me ≡ (First 0 0, []) }
    ensures desks { IfOk result (λ made. AreBlankDesks limits.now made.0.items) }
    ensures seats { IfOk result (λ made. AreIdleSeats boards users made.1.items) }
{
    let desks = cut_desks(alloc, table, first, limits)?;
    let seats = cut_seats(alloc, table, first, users, boards)?;
    Ok((desks, seats))
}

/// Makes a table for 1 to 32 users and 1 to 8 boards. Returns a desk for each user, from user 1 on,
/// and an idle seat for each board, from board 0 on. Each desk has a blank machine. The largest
/// side that it may have is at the user's row of `limits`, one for each user. Allocates all memory
/// of the hand-off.
pub fn boot(
    alloc: Global,
    users: usize,
    boards: u8,
    limits: &[Side],
) -> Result<(Vec<Desk>, Vec<BoardSeat>), NoMemory>
    requires a_user { 0 < users }
    requires users { users ≤ max_users }
    requires a_board { 0 < boards }
    requires boards { boards ≤ max_boards }
    requires limits { length limits.now ≡ users }
    ensures desks { IfOk result (λ made. AreBlankDesks limits.now made.0.items) }
    ensures seats { IfOk result (λ made. AreIdleSeats boards users made.1.items) }
    // The constants are the limits that contracts speak of.
    ensures most_users { MAX_USERS ≡ max_users }
    ensures most_boards { MAX_BOARDS ≡ max_boards }
{
    let words = [0; MAX_USERS];
    let counts = Counts {
        users: users as u64,
    };
    let (table, mut first) = HandTable::vacant(alloc, &words[..users], users, &counts)?;
    let table = Arc::new(alloc, table)?;
    let made = cut(alloc, &table, &mut first, users, boards, limits);
    drop(first);
    drop(table);
    made
}
