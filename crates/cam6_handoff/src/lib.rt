//! The hand-off table: users' commands go between threads, from a desk to whichever board takes
//! them and back, with one word and one slot for each user.
//!
//! Contract: each user has a desk (`specs/Boot.antt`). It has the user's machine, or waits for what
//! a command makes of it (`specs/Standing.antt`). A command that is put at a desk is answered at
//! once, as a private machine answers it, or it waits for a board. Whatever other threads do, the
//! desk collects the private machine's reply, and then has the machine after the command
//! (`specs/Desks.antt`). A board's seat holds nothing, or the place that it took
//! (`specs/Seats.antt`). What it puts back stands for whatever that place stood for. What it puts
//! as done is that machine after that command. Between any two steps the table keeps its rule
//! (`specs/Rule.antt`), one row for each user. Users are counted from 1, and rows from 0. The type
//! of a step says which words it finds and leaves (`specs/Steps.antt`). Only `Desk::ask`,
//! `Desk::wait` and `BoardSeat::fill_each` may wait. `boot` allocates all memory but that of
//! commands.
//!
//! By reading, since no clause counts exchanges: each step is one exchange on one word, in one
//! function of `steps`. The first take of a slot is one load. Only `Desk::ask` and `Desk::wait` try
//! a step again.
//!
//! Boards take and desks collect by one compare-and-exchange on the user's word, in the field's words
//! a compare-and-swap. Whoever succeeds has the slot, and gives it on by one swap (Herlihy,
//! "Wait-Free Synchronization", ACM Transactions on Programming Languages and Systems 13(1), 1991).
//!
//! So, with two desks and two boards: desk 1 puts a run of one step and waits. Board 0 takes it,
//! and board 1 finds nothing of user 1. After three bands board 0 puts it back. Board 1 takes it,
//! and puts it as done after the rest. Desk 1 collects the reply that a private machine would give.
//!
//! Stands on: `cam6_slot`, `cam6_station`, `cam6_board`, `cam6_cache`, `cam6_machine`,
//! `cam6_commands`, `cam6_model` and `cam6_planes`, and `atomic_table`.
//!
//! Read next: `rule`; `steps`, one function for each kind; `start`, with the cutting of seats;
//! `desks`; `seats`, with `permits`; then `queues`; and `laws`.
#![tactic(auto)]

mod desks;
pub mod laws;
mod permits;
mod queues;
mod rule;
mod seats;
mod start;
mod steps;

pub use cam6_commands::{MAX_BOARDS, MAX_USERS};
pub use desks::{Desk, Put};
pub use queues::Queue;
pub use rule::{Counts, Handing, View};
pub use seats::BoardSeat;
pub use start::boot;
