//! One user's machine: four planes, rules by name, a cycle with a position, and what each command
//! does to them.
//!
//! Contract: `Machine::now` and `Machine::work` together return the `reply` to a command, and leave
//! the machine `after` it. `cam6_model` says what these are: by the words of the rules at each
//! cell, and back block by block. A command that is refused or runs out of memory leaves the
//! machine as it was. `replies_alone` does a whole list of commands.
//!
//! So, for a blank machine: it refuses `Run { n: 1 }` with `Fault::NoCycle`, and nothing changes.
//! Then come a rule R of half A, `: R NORTH >PLN0 ;`, a cycle of the one entry R, and a cell set at
//! row 5. Now `now(Run { n: 1 })` returns `Work(1, Forward)`, and `work(1, Forward)` replies
//! `Run { position: 0 }`. The cell stands at row 6: each cell took what its northern neighbour was.
//!
//! Steps can be undone if every rule of the cycle is one of blocks, and no two states of a block
//! become one. Then `Back { n }` restores any configuration from before n steps. If a rule can't be
//! undone, the reply is `NotReversible`, with the entry, the half and the cause.
//!
//! `Machine::now` leaves steps to do exactly for a run or a back that is accepted and has at least
//! one step. It may need memory only if a text is kept or the reply has rows (`may_want_memory`).
//! `Machine::work` does not allocate. The tables of the cycle's rules stay filled from one command
//! to the next. They are filled when they are first needed, and again if another cycle is set or
//! steps go the other way. `Machine::limit` gives the invariant of any machine.
//!
//! `Save` replies with all of a machine but its limit. `Load` loads such a machine, after it has
//! compiled the rules as `Rule` does. If it is refused or runs out of memory, nothing changes.
//!
//! `Machine::part` takes a machine apart into what it keeps beside its planes, its image and a
//! spare one. `Kept::join` makes a machine of such parts, at any position of the cycle. The law:
//! that is the machine that was parted, but for the side, the cells and the position.
//!
//! Stands on: `cam6_planes`, `cam6_wiring`, `cam6_entries`, `cam6_band`, `cam6_view`, `cam6_cycle`,
//! `cam6_commands`, `cam6_model` and `cam6_rules`.
//!
//! Read next: `replies`, `answers` and `rows`, what is said at once; `refusals`, when a number of a
//! command is refused; `kept`, what a machine keeps beside its planes and what commands do to it;
//! `saving` and `loading`, a machine as it is saved and on its way back; `steps`, one step, and
//! `runs`, steps along a cycle, forward and backward; `images`; then `machines` and `alone`; and
//! `laws`.
#![tactic(auto)]

mod alone;
mod answers;
mod images;
mod kept;
pub mod laws;
mod loading;
mod machines;
mod refusals;
mod replies;
mod rows;
mod runs;
mod saving;
mod steps;

pub use alone::replies_alone;
pub use cam6_commands::{
    BitRows, Command, Done, Fault, MAX_COLOUR, MAX_MASK, MAX_NAME, MAX_RULES, MAX_STEPS,
    NamedEntries, NamedEntry, NamedRule, NamedRules, Names, PlaneRows, Refusal, Reply, RowColours,
    RowText, SavedMachine, Text,
};
pub use cam6_cycle::Direction;
pub use kept::Kept;
pub use machines::Machine;
pub use replies::Now;
