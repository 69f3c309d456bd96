//! The wire: command lines, event lines and the first lines of connections as JSON, and replies,
//! outcomes and answers as JSON texts.
//!
//! Contract: `read_command` returns exactly the command that a line says, or fault 1, 2, 3 or 4
//! (`specs/Commands.antt`). It reads JSON as `serde_json` does. An empty line and one that is too
//! long take no memory. A line may have 16,384 bytes, and one that begins with `{"do":"load",`
//! 2,097,152 (`specs/Limits.antt`). A line that loads a machine has one spelling in each of two
//! versions (`specs/Saved.antt`, `specs/Loads.antt`). Any other spelling is fault 4.
//! `command_shown` returns the command that a JSON value shows, unless it loads a machine. It
//! allocates only for a rule, a name and entries, never for a value that shows no command. The
//! texts of rules that either returns are UTF-8. `reply_text` returns exactly the compact JSON text
//! of a reply (`specs/Replies.antt`), which reads back as the reply's value. `fault_text` returns
//! that of a line's fault, and `fault_line` the same with its LF. Neither allocates. `read_event`
//! reads what a line says of users and boards in the same way (`specs/Events.antt`), and a command
//! within an ask as `command_shown` does. `outcome_text` returns the compact JSON text of what
//! comes of an event (`specs/Outcomes.antt`). `undone_line` returns the same text with its LF for
//! an event that is refused or out of memory, and does not allocate. `read_seat` returns the user
//! that a connection's first line asks for, again in the same way. `seating_line` returns the
//! answer to that line, with its LF (`specs/Seats.antt`).
//!
//! The laws: a line says a command, an event or a seat exactly if it is within its limit and its
//! JSON value shows it, with its keys and no others. A load needs its spelling too. In each version
//! one line loads a saved machine, if it is within its limit, and no other line does. Two saved
//! machines that are written as one text are equal. The text of a rule that a line defines is
//! UTF-8. The text of a reply, of an outcome, of a line's fault and of the answer to a first line
//! is one line.
//!
//! Stands on: `cam6_planes`, `cam6_wiring`, `cam6_table`, `cam6_block`, `cam6_commands`;
//! `serde_json` with its grammar in `json`, `hex`, and `itoa`.
//!
//! Read next: `faults`, `limits`, `commands` and `replies`; `plain_lines`, of which no JSON value
//! is made; what the others read, `fields`, `wirings`, `rules` and `entries`, and how they write,
//! `objects`; `saved`, a machine as it is written, and `loads`, as it is read; `events`, `outcomes`
//! and `seats`; then `laws`.
#![tactic(auto)]

mod commands;
mod entries;
mod events;
mod faults;
mod fields;
pub mod laws;
mod limits;
mod loads;
mod objects;
mod outcomes;
mod plain_lines;
mod replies;
mod rules;
mod saved;
mod seats;
mod wirings;

pub use commands::{command_shown, read_command};
pub use events::{event_shown, read_event};
pub use faults::LineFault;
pub use limits::{LINE_LIMIT, LOAD_LINE_LIMIT, begins_load_in, line_limit};
pub use outcomes::{outcome_text, undone_line};
pub use replies::{fault_line, fault_text, fixed_line, fixed_text, reply_text};
pub use saved::{Version, machine_value};
pub use seats::{Seating, read_seat, seating_line};
