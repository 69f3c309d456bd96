//! How a page is told that a bridge has ended.
ghost use Rattle.std.specs.Prelude.{◌≡◌, Some, OnOk};
ghost use Rattle.tungstenite.specs.Connection.{close_step};
ghost use Rattle.tungstenite.specs.Socket.{Writes};
ghost use Rattle.cam6_web_bridge.specs.Partings.{farewell as farewell_told};
ghost use Rattle.cam6_web_bridge.specs.Partings.{farewell_away as farewell_of_the_away};
ghost use Rattle.cam6_web_bridge.specs.Partings.{farewell_unheard as farewell_of_the_unheard};
ghost use Rattle.cam6_web_bridge.specs.Partings.{farewell_unsent as farewell_of_the_unsent};

use crate::carrying::End;
use crate::hosts::Silence;
use crate::pages::{Unheard, Unsent};
use crate::sockets::{Pace, Paced, SocketPage};
use std::io::{Read, Write};
use tungstenite::{CloseCode, CloseFrame, Error, MaskKeys, Utf8Bytes};

/// Returns the close code and the reason, a text for the page, that are sent if its bridge ends so.
pub fn farewell(end: End) -> (CloseCode, &'static str)
    ensures { (result.0, result.1.now) ≡ farewell_told end }
{
    match end {
        End::Unheard(why) => farewell_unheard(why),
        End::NotALine => (CloseCode::Policy, "a message is one line"),
        End::TooLong => (CloseCode::Size, "a message has 2097152 bytes at most"),
        End::Unanswered(Silence::NoMemory) => (CloseCode::Error, "no memory"),
        End::Unanswered(_) => (CloseCode::Away, "the host is gone"),
        End::NoText => (CloseCode::Away, "the host is gone"),
        End::Unsent(why) => farewell_unsent(why),
        End::Unpinged(why) => farewell_unsent(why),
        End::Silent => (CloseCode::Policy, "no answer to pings"),
        End::TurnBound => (CloseCode::Policy, "turn bound reached"),
    }
}

/// Returns the close code and the reason for a page from which nothing can be received any more.
fn farewell_unheard(why: Unheard) -> (CloseCode, &'static str)
    ensures { (result.0, result.1.now) ≡ farewell_of_the_unheard why }
{
    match why {
        Unheard::Closed => (CloseCode::Normal, "the page closed"),
        Unheard::Lost => (CloseCode::Protocol, "the connection failed"),
        Unheard::Protocol => (CloseCode::Protocol, "the protocol was broken"),
        Unheard::NotUtf8 => (CloseCode::Invalid, "a text is UTF-8"),
        Unheard::NotText => (CloseCode::Unsupported, "a message is a text"),
        Unheard::TooLong => (CloseCode::Size, "a message has 2097152 bytes at most"),
        Unheard::HostGone => (CloseCode::Away, "the host is gone"),
        Unheard::NoMemory => (CloseCode::Error, "no memory"),
    }
}

/// Returns the close code and the reason for a page to which a message could not be sent.
fn farewell_unsent(why: Unsent) -> (CloseCode, &'static str)
    ensures { (result.0, result.1.now) ≡ farewell_of_the_unsent why }
{
    match why {
        Unsent::Lost => (CloseCode::Protocol, "the connection failed"),
        Unsent::Closed => (CloseCode::Protocol, "the connection failed"),
        Unsent::NoMemory => (CloseCode::Error, "no memory"),
    }
}

/// Why a page whose handshake is done is turned away.
#[derive(Clone, Copy, Debug, PartialEq, Eq)]
pub enum Away {
    /// The host can't be reached.
    NoHost,
    /// An allocation failed.
    NoMemory,
}

/// Returns the close code and the reason for a page that is turned away.
pub fn farewell_away(why: Away) -> (CloseCode, &'static str)
    ensures { (result.0, result.1.now) ≡ farewell_of_the_away why }
{
    match why {
        Away::NoHost => (CloseCode::Away, "the host is gone"),
        Away::NoMemory => (CloseCode::Error, "no memory"),
    }
}

impl<S: Read + Write + Paced + Drop, K: MaskKeys + Drop> SocketPage<S, K> {
    /// Sends the page a WebSocket close with this code and reason. The socket takes no messages
    /// afterwards.
    pub fn send_close(&mut self, code: CloseCode, reason: &'static str) -> Result<(), Error>
        ensures { OnOk result (Writes S.contents self.old.socket self.new.socket
            (close_step self.old.socket.conn (Some (code, reason.now)))) }
    {
        let frame = CloseFrame {
            code,
            reason: Utf8Bytes::from_static(reason),
        };
        self.socket.get_ref().pace(Pace::Parting);
        self.socket.close(Some(frame))
    }
}
