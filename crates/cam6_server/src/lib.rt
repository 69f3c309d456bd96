//! A host on the network. Each user has a machine and a connection. Boards in threads of their own
//! do the steps.
//!
//! Contract: the clause of `converse` says what is written on a connection for what is read of it
//! (`specs/Connections.antt`). If no first line is answered, nothing is written. If the first line
//! is refused, only the refusal is written. Otherwise `{"ok":"seat"}` is written, and then the
//! answers to the lines after it of the machine at which the user's desk stands, as `serve` of
//! `cam6_session` answers them. A desk at which nobody sits is at its user's place and doesn't wait.
//! So no desk is put back before its reply is collected. A user's desk is taken from its place. If
//! somebody has it, or there is no such user, nothing changes. A desk that was taken can't be dropped
//! (`SeatedDesk`), only given back, and is then at its user's place (`specs/Places.antt`). A session
//! waits for boards only after it rang for one and sent what was held back (`waits`). What is written
//! to an `Outbox` goes to its writer in order, each byte once, when it is released. After bytes couldn't
//! be sent, it takes none and sends none (`specs/Outboxes.antt`). All of this holds if the call
//! returns: it may wait for its client, for a board, and for a lock. No more clients wait for a
//! seat than there is room for (`specs/Guests.antt`, an invariant of the counts under a lock).
//!
//! No clause says that boards are stopped and threads joined, how many connections are accepted, how
//! long anything may wait, or which bytes a socket has. `converse` and the outbox are proved over
//! readers and writers with known bytes, and `streams` joins them to a socket.
//!
//! So, with four users: a connection begins with the line `{"seat":1}`. The host replies
//! `{"ok":"seat"}`, and then answers lines as `cam6_session` answers a machine's lines. If a second
//! connection begins with that line, the host replies `{"fault":80}`. To `{"seat":9}` it replies
//! `{"fault":81}`. It closes both.
//!
//! Stands on: `cam6_session`, what is done for a line, `cam6_wire`, the first line and its answers,
//! and `cam6_writing`; `cam6_pool`, the workers and their gate; `cam6_handoff`, desks and seats; `cam6_board`,
//! `cam6_cache`, `cam6_commands`, `cam6_model` and `cam6_planes`.
//!
//! Read next: `serving`, how much a host has; `hosts`, all of it; `states`, what its threads share;
//! `boards`; `guests`, the counts of clients; `sessions`, a thread for each connection;
//! `connections`, what is said there; `places`, `desks` and `waits`; `outboxes`, `terms` and
//! `streams`, the bytes and their limits.
#![tactic(auto)]

mod boards;
mod connections;
mod desks;
mod guests;
mod hosts;
mod outboxes;
mod places;
mod serving;
mod sessions;
mod states;
mod streams;
mod terms;
mod waits;

pub use connections::{Visit, converse};
pub use hosts::serve_net;
pub use outboxes::Outbox;
pub use places::{Places, SeatedDesk};
pub use serving::{Fault, Serving};
pub use states::{Handle, HostState};
pub use streams::Connection;
