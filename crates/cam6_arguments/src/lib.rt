//! What the command lines of the four programs share: their names, options of numbers and of sides,
//! what an error of `clap` means, and how a program ends.
//!
//! Contract: `refusal_of_kind` and `refusal` make a refusal of an error of `clap`, and
//! `refusal_of_text` one of arguments that `clap` takes but that ask for nothing. `read_arguments`
//! reads the arguments. `refusal_of` returns the exit status and the text of a refusal, and
//! `refuse` ends with them (`specs/Refusals.antt`). `text_at`, `texts_at`, `number_at` and
//! `side_at` return what the option of a name says. `number_or_default`, `number_of` and `count_of`
//! return what a word says (`specs/Values.antt`). `new_command`, `number_option`, `side_option` and
//! `value_option` make a program's command and its options (`specs/Options.antt`).
//!
//! Stands on: `cam6_planes`, for the sides; `cam6_version`; `clap`, `thiserror`.
//!
//! Read next: `programs`, the names; `refusals`, with `statuses`; `values` and `options`; `endings`.
#![tactic(auto)]

mod endings;
mod options;
mod programs;
mod refusals;
mod statuses;
mod values;

pub use endings::{read_arguments, refuse, report_failure};
pub use options::{MAX_PORT, new_command, number_option, side_option, value_option};
pub use programs::{Program, message_of};
pub use refusals::{
    Refused, refusal, refusal_of, refusal_of_kind, refusal_of_read, refusal_of_text,
};
pub use statuses::{NETWORK_FAILED, NO_MEMORY, REFUSED_WORDS, WRITE_FAILED};
pub use values::{count_of, number_at, number_of, number_or_default, side_at, text_at, texts_at};
