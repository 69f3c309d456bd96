//! Bytes, written whole by whatever takes a part of them at a time.
//!
//! Contract: if `write_bytes` or `send` succeeds, all bytes were written, and nothing else. If it
//! fails, a prefix of them was (`specs/Front.antt`). The premise is that the bytes of the writer are
//! known, as those of memory are.
//!
//! So, for a writer that takes two bytes and then fails, of `{"ok":"set"}` and its LF the two bytes
//! `{"` are written.
//!
//! Stands on: nothing.
//!
//! Read next: `writers`, this is all.
#![tactic(auto)]

mod writers;

pub use writers::{WriteFault, send, write_bytes};
