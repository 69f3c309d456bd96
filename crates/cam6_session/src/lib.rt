//! Sessions: streams of command lines, or of event lines, each answered by one line.
//!
//! Contract: `serve_alone` writes the texts of a blank machine's replies to the commands among its
//! input's lines, and of the faults of the others, in their order (`specs/Headline.antt`). `serve`
//! does this for anything that stands at a machine and answers as it does (`Ask`). That is a
//! private machine, or a user's desk with boards that other threads serve (`AtDesk`,
//! `specs/Desks.antt`), which stays that user's. `replay` reads events of a core, and writes their
//! outcomes one after another. From a new core, each user is given the replies of their private
//! machine (`specs/Replays.antt`).
//!
//! All use `answer_lines`, which serves whatever answers lines in a way of its own (`Answerer`,
//! `specs/Answering.antt`). Each of its five ends says exactly which lines were taken, what was
//! written, and where the one that was asked then stands (`specs/Sessions.antt`). So a session can
//! go on where it ended. It runs out of memory only before the first line, at a line that takes
//! memory, or within one for which the buffer grows. A replay doesn't end so after a refused event, or
//! after an ask that ran out of memory. A session runs out of reads only after as many bytes of the
//! reader as it had reads (`specs/Spending.antt`). A read is a call of `fill_buf`. `next_line` takes
//! exactly one line, or returns why it stopped, and counts its reads. The buffer grows only for a line
//! that begins as a load, once it is longer than any other may be. It shrinks after the line
//! (`LineBuf`). The premise is that the bytes of the reader and of the writer are known, as those of
//! memory are.
//!
//! So, for the two lines `{"do":"run","n":1}` and `{"do":"fly"}`, a private machine writes the two
//! lines `{"fault":63}` and `{"fault":3}`: no cycle is set, and the second says no command.
//!
//! The laws: a text has the lines that it was joined from. A machine's answers to lines are its
//! replies to the commands among them, and the faults of the others, in the order of the lines. A
//! core's answers are the outcomes of the events among them, likewise. Whatever answers lines goes
//! on from where the lines before left it.
//!
//! Stands on: `cam6_planes`, `cam6_commands`, `cam6_model`, `cam6_machine`, `cam6_core`,
//! `cam6_handoff`, `cam6_wire`, `cam6_writing`.
//!
//! Read next: `sessions` and `alone`, with `replays`; then their parts, `line_buffer`, `lines`,
//! `answerers` and `desks`; and `laws`.
#![tactic(auto)]

mod alone;
mod answerers;
mod desks;
pub mod laws;
mod line_buffer;
mod lines;
mod replays;
mod sessions;

pub use alone::serve_alone;
pub use answerers::Answerer;
pub use desks::{Ask, AtDesk, Unaided, Waiter};
pub use line_buffer::LineBuf;
pub use lines::{Line, next_line, next_line_within};
pub use replays::replay;
pub use sessions::{End, Stop, answer_lines, serve};
