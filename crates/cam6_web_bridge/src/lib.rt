//! Messages of a page as lines of a host, and the host's answers as messages.
//!
//! Contract: `carry` hears the messages of a page one after another. It hands each text to the host
//! as a line, and sends the host's answer to that line as a text, before it hears the next message
//! (`specs/Bridges.antt`). A text with an LF, a text above 2,097,152 bytes and a message of bytes are
//! handed over in no part. Each end says what was heard last, whether the host had it, and how much
//! of the answer was sent. All of this is proved for whatever page and host. A page is a WebSocket
//! on a stream (`SocketPage`, `specs/Sockets.antt`). A host is at the other end of a stream of lines
//! (`HostLines`, `specs/HostLines.antt`), or whatever else answers lines (`Host`).
//!
//! So, for the two texts `{"do":"rules"}` and `{"do":"fly"}`: the host is told the first with an LF
//! after it. Its line is sent as a text. Then the host is told the second.
//!
//! `carry` sends a ping each time the page was silent for a while. It ends after the third silence
//! in a row. How long a silence is, the stream knows (`Paced`). No clause speaks of time.
//!
//! Stands on: `cam6_writing`, `tungstenite`, `websocket` and `bytes`.
//!
//! Read next: `hosts` and `host_lines`; `pages` and `sockets`; `carrying`, the loop of a bridge;
//! `partings`, how a page's socket is closed; `bridging`, a whole bridge; and `laws`.
#![tactic(auto)]

mod bridging;
mod carrying;
mod host_lines;
mod hosts;
pub mod laws;
mod pages;
mod partings;
mod sockets;

pub use bridging::{bridge, turn_away};
pub use carrying::{End, carry};
pub use host_lines::HostLines;
pub use hosts::{Answer, Host, MESSAGE_LIMIT, Silence};
pub use pages::{Page, PageInput, Unheard, Unsent};
pub use partings::{Away, farewell, farewell_away};
pub use sockets::{Pace, Paced, SocketPage};
