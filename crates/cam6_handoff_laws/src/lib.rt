//! The hand-off table and the core: what threads do with a shared table is what events do to a
//! core. This crate has definitions and laws about them, and no code.
//!
//! A configuration is the table with all that desks, slots and boards hold
//! (`specs/Configurations.antt`). An action is a call of one thread with its step of the table, if
//! it takes one (`specs/Actions.antt`). The laws over all threads (`laws`, `specs/Threads.antt`): from
//! wherever a configuration is at a model of the core, an action is its events. So all actions of
//! all threads are one list of events, and each desk tells the replies of a private machine. A put
//! is an ask, a take is a lease, and a collect is a collect. A place put back is a preempt, or a
//! fail if it comes from its home. What is put as done is the last band. A look and the first take
//! of a slot are no event.
//!
//! The laws of single steps (`specs/Laws.antt`) say the same of one word, from what the step's type
//! tells.
//!
//! So, for a user with the word 4: board 1 has the user's command. It is put back half done, and
//! the word is then 1. The event is a preempt of board 1, with as many bands left as the place has.
//!
//! Stands on: `cam6_handoff`, for words, rows, steps and the clauses of its calls; `cam6_core`, for its
//! model, events and refusals; `cam6_station`, for what boards do; `cam6_slot`, `cam6_cache`,
//! `cam6_machine`, `cam6_model`, `cam6_commands` and `cam6_planes`; `atomic_table`.
//!
//! Read next: `specs/Configurations.antt`, `specs/Actions.antt`, `specs/Executions.antt` and
//! `specs/Threads.antt`; then `laws`.
#![tactic(auto)]

pub mod laws;
