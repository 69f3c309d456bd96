//! Whatever speaks in messages.

use tungstenite::Utf8Bytes;

/// What was heard of a page.
#[derive(Debug, Drop)]
pub enum PageInput {
    /// A text.
    Text(Utf8Bytes),
    /// A ping or a pong: the page is there.
    Life,
    /// Nothing, for as long as one may wait for the page.
    Nothing,
}

/// Why a page can't be heard any more.
#[derive(Clone, Copy, Debug, PartialEq, Eq)]
pub enum Unheard {
    /// The page closed the socket.
    Closed,
    /// The connection failed, or ended without a close.
    Lost,
    /// The page broke the protocol.
    Protocol,
    /// A text isn't UTF-8.
    NotUtf8,
    /// A message is no text.
    NotText,
    /// A message is longer than any line may be.
    TooLong,
    /// The host is gone, so that no message can be answered.
    HostGone,
    /// An allocation failed.
    NoMemory,
}

/// Why a message could not be sent.
#[derive(Clone, Copy, Debug, PartialEq, Eq)]
pub enum Unsent {
    /// The connection failed. A part of the message may have been sent.
    Lost,
    /// The socket takes no more messages. Nothing of it was sent.
    Closed,
    /// An allocation failed. Nothing of it was sent.
    NoMemory,
}

/// A page, which speaks in messages and is sent messages.
pub trait Page {
    ghost use Rattle.std.specs.Prelude.{IfOk, IfErr, OnOk, string_bytes};
    ghost use Rattle.cam6_web_bridge.specs.Pages.{PageWays};

    /// The type of what it stands at.
    ghost state: { Type 0 };

    /// Where it stands.
    ghost stands: { Self → state };

    /// How it is heard and is sent messages, and how that fails.
    ghost speaking: { PageWays state };

    /// Receives what the page sends next: a text, a ping or a pong, or nothing for too long. An
    /// error says why nothing can be received any more.
    fn hear(&mut self) -> Result<PageInput, Unheard>
        ensures heard { IfOk result (λ said.
            speaking.hears (stands self.old) said (stands self.new)) }
        ensures unheard { IfErr result (λ why.
            speaking.unheard (stands self.old) why (stands self.new)) };

    /// Sends the page a text. An error says why it wasn't sent.
    fn send(&mut self, text: String) -> Result<(), Unsent>
        ensures sent { OnOk result
            (speaking.sends (stands self.old) (string_bytes text) (stands self.new)) }
        ensures unsent { IfErr result (λ why.
            speaking.unsent (stands self.old) (string_bytes text) why (stands self.new)) };

    /// Sends the page a constant text. The text is not copied. An error says why it wasn't sent.
    fn send_fixed(&mut self, text: &'static str) -> Result<(), Unsent>
        ensures sent { OnOk result (speaking.sends (stands self.old) text.now (stands self.new)) }
        ensures unsent { IfErr result (λ why.
            speaking.unsent (stands self.old) text.now why (stands self.new)) };

    /// Sends the page a ping. An error says why it wasn't sent.
    fn ping(&mut self) -> Result<(), Unsent>
        ensures sent { OnOk result (speaking.pings (stands self.old) (stands self.new)) }
        ensures unsent { IfErr result (λ why.
            speaking.unpinged (stands self.old) why (stands self.new)) };
}
