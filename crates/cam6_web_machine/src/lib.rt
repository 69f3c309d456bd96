//! A private machine as the host of a page.
//!
//! Contract: a `PrivateMachine` answers each line by the text of its machine's reply, or of the
//! line's fault, and the machine then stands where the command leaves it (`specs/Answers.antt`).
//! These are the answers and the machines of `by_machine` in `cam6_session`, without the LF. An
//! allocation fails only for a line that is neither empty nor too long. The machine then stays as it
//! was, or the command was done and its reply is lost. A reply that only says what was done is never
//! lost, since its text is always the same.
//!
//! Stands on: `cam6_web_bridge`, for what a host is; `cam6_wire`, lines and replies; `cam6_machine`,
//! `cam6_commands` and `cam6_planes`; `cam6_session` and `cam6_model`, for the definitions.
//!
//! Read next: `machines`, which is all of it.
#![tactic(auto)]

mod machines;

pub use machines::PrivateMachine;
