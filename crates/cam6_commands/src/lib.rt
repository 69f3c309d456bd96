//! Commands and their replies, events of users and boards and their outcomes: the values, their
//! numbers and their limits. Nothing here says what a command or an event does.
//!
//! Contract: a reply is what was done or why it was refused (`Reply`), and each refusal has one
//! number, 20 to 68 (`Refusal::number`, `specs/Numbers.antt`). A checked number has a type of its
//! own: the number of a plane, of a row of a side, a set of states and a number of steps. It is
//! made of the number that a user gave, or refused for it (`specs/Checks.antt`). The rows of a
//! reply are data: digits of a row, colours of a row, the digits of all rows of a plane. A machine
//! that is saved, or is to be loaded, is data too: planes as bits, rules and entries by their
//! names, numbers (`SavedMachine`). An event is refused for one of nine reasons, each with its
//! number, 101 to 109 (`Refused::number`).
//!
//! So `PlaneNumber::of(4)` is refused with `Fault::OutOfRange`, which has the number 65.
//!
//! Stands on: `cam6_planes`, `cam6_wiring`, `cam6_forth`, `cam6_table` and `cam6_block`.
//!
//! Read next: `commands`, with `texts`, `items`, `saved` and `limits`; `faults` and `refusals`;
//! `checks`; then `replies` with `rows`; and `events` with `outcomes` and `refused`.
#![tactic(auto)]

mod checks;
mod commands;
mod events;
mod faults;
mod items;
mod limits;
mod outcomes;
mod refusals;
mod refused;
mod replies;
mod rows;
mod saved;
mod texts;

pub use checks::{Mask, PlaneNumber, RowNumber, StepCount};
pub use commands::{Command, NamedEntries, NamedEntry};
pub use events::Event;
pub use faults::Fault;
pub use items::Items;
pub use limits::{MAX_BOARDS, MAX_COLOUR, MAX_MASK, MAX_NAME, MAX_RULES, MAX_STEPS, MAX_USERS};
pub use outcomes::Outcome;
pub use refusals::Refusal;
pub use refused::Refused;
pub use replies::{Done, Reply};
pub use rows::{PlaneRows, RowColours, RowText};
pub use saved::{BitRows, NamedRule, NamedRules, SavedMachine};
pub use texts::{Names, Text};
