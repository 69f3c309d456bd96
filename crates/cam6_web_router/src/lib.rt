//! What a browser may ask of the page's server: the page's files, how many hosts there are, and a
//! socket for the page itself.
//!
//! Contract: `answer_to` returns the answer to a request, for any router and any request
//! (`specs/Answers.antt`). A site puts that answer into the response, with the answer's status, its
//! fields and its text (`specs/Sites.antt`). `greet` serves a connection with a site. If it returns
//! an opening, the site opened a socket that leads where the opening says, and the opening has the
//! bytes that were read after the request (`specs/Greetings.antt`).
//!
//! So, at port 6007 with one host: `/` is the page if `Host` is `127.0.0.1:6007` or
//! `localhost:6007`, and 421 if it is any other. `/ws` opens a socket to the host if `Origin` is
//! `http://` and that name, and else it is 403. `/ws/1` does the same, and `/ws/2` is 404.
//!
//! A file is sent compressed by gzip, which every browser takes. No clause asks whether the client
//! does.
//!
//! No clause says how long a request may take. The caller's reader and writer bound that. Heads of
//! more than 16,384 bytes are refused with 431, and bodies with 413.
//!
//! Stands on: `cam6_web_page`, the files; `http`, `http_header`, `http_uri`, `http_server`, `http1`,
//! `websocket` and `bytes`, of the kit.
//!
//! Read next: `names`, by which the server is asked; `ways`, where a socket leads; `routers`, both;
//! `answers`; `refusals`, their texts; `sites`, the responses; `greetings`, a connection.
#![tactic(auto)]

mod answers;
mod greetings;
mod names;
mod refusals;
mod routers;
mod sites;
mod ways;

pub use answers::{Answer, answer_to};
pub use greetings::{Opening, greet};
pub use names::Names;
pub use routers::Router;
pub use sites::Site;
pub use ways::{Hosts, Way};
