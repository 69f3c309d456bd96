//! A page on a WebSocket.
ghost use Rattle.std.specs.Prelude.{◌≡◌, [], IfErr, OnOk, string_bytes};
ghost use Rattle.tungstenite.specs.Content.{text as text_content};
ghost use Rattle.tungstenite.specs.Socket.{Flushed, content_of};
ghost use Rattle.cam6_web_bridge.specs.Sockets.{Hearing, IsNew, IsSendable, IsUnsent, Listens, Sends};
ghost use Rattle.cam6_web_bridge.specs.Sockets.{meaning_of as what_is_meant};
ghost use Rattle.cam6_web_bridge.specs.Sockets.{meaning_of_error as what_an_error_means};
ghost use Rattle.cam6_web_bridge.specs.Sockets.{meaning_of_kind as what_a_kind_means};
ghost use Rattle.cam6_web_bridge.specs.Sockets.{reason_unsent as reason_of};

use crate::hosts::MESSAGE_LIMIT;
use crate::pages::{Page, PageInput, Unheard, Unsent};
use bytes::Bytes;
use std::alloc::Global;
use std::io::{ErrorKind, Read, Write};
use tungstenite::{Error, MaskKeys, Message, NoMask, Role, Utf8Bytes, WebSocket, WebSocketConfig};
use websocket::error::ProtocolError;

/// How many bytes one read of the stream asks for.
const READ_SIZE: usize = 16_384;

/// What the next calls of a stream are for.
#[derive(Clone, Copy, Debug, PartialEq, Eq)]
pub enum Pace {
    /// A message is awaited.
    Listening,
    /// A message is sent.
    Sending,
    /// The close of a socket is sent.
    Parting,
}

/// A stream that bounds how long its calls may take, by what they are for.
///
/// A read fails with `WouldBlock` or `TimedOut` if nothing came in time, and with `HostUnreachable` if
/// the host is gone meanwhile.
pub trait Paced {
    /// Sets what the next calls are for, and so how long they may take together. This time begins
    /// now.
    fn pace(&self, pace: Pace);
}

/// A page on a WebSocket, whose handshake is done.
#[derive(Drop)]
pub struct SocketPage<S, K> {
    pub(crate) socket: WebSocket<S, K>,
}

impl<S: Drop> SocketPage<S, NoMask> {
    /// Makes the page at the other end of a stream. The stream's handshake is done, and `unread`
    /// has the bytes that were read after it.
    pub fn new(alloc: Global, stream: S, unread: Vec<u8>) -> SocketPage<S, NoMask>
        ensures { IsNew stream unread.items result.socket }
    {
        let config = WebSocketConfig::default()
            .max_message_size(Some(MESSAGE_LIMIT))
            .max_frame_size(Some(MESSAGE_LIMIT))
            .read_buffer_size(READ_SIZE);
        SocketPage {
            socket: WebSocket::from_partially_read(
                alloc,
                stream,
                NoMask,
                unread,
                Role::Server,
                Some(config),
            ),
        }
    }
}

impl<S: Read + Write + Paced + Drop, K: MaskKeys + Drop> Page for SocketPage<S, K> {
    ghost use Rattle.tungstenite.specs.Socket.{Socket};
    ghost use Rattle.cam6_web_bridge.specs.Sockets.{by_socket};

    ghost state = { Socket S };

    ghost stands = { λ page. page.socket };

    ghost speaking = { by_socket S.remaining S.contents };

    /// Sends the bytes that still wait, and receives what the page sends next.
    fn hear(&mut self) -> Result<PageInput, Unheard> {
        hear(&mut self.socket)
    }

    /// Sends the page a text.
    fn send(&mut self, text: String) -> Result<(), Unsent> {
        send_text(&mut self.socket, text)
    }

    /// Sends the page a constant text. The text is not copied.
    fn send_fixed(&mut self, text: &'static str) -> Result<(), Unsent> {
        send_message(
            &mut self.socket,
            Message::Text(Utf8Bytes::from_static(text)),
        )
    }

    /// Sends the page a ping.
    fn ping(&mut self) -> Result<(), Unsent> {
        send_message(&mut self.socket, Message::Ping(Bytes::new()))
    }
}

/// Sends what still waits to be sent, and receives what the page sends next. If sending fails, the
/// error is `Lost`.
fn hear<S: Read + Write + Paced + Drop, K: MaskKeys + Drop>(
    socket: &mut WebSocket<S, K>,
) -> Result<PageInput, Unheard>
    ensures { Hearing S.remaining S.contents result socket.old socket.new }
{
    match send_rest(socket) {
        Ok(()) => {
            socket.get_ref().pace(Pace::Listening);
            receive_message(socket)
        }
        Err(why) => Err(why),
    }
}

/// Sends the bytes that still wait to be sent. The error is `Lost` if that fails.
fn send_rest<S: Read + Write + Paced + Drop, K: MaskKeys + Drop>(
    socket: &mut WebSocket<S, K>,
) -> Result<(), Unheard>
    ensures sent { Flushed S.contents socket.old socket.new }
    ensures empty { OnOk result (socket.new.output ≡ []) }
    ensures lost { IfErr result (λ why. why ≡ Unheard.Lost) }
{
    socket.get_ref().pace(Pace::Sending);
    match socket.flush() {
        Ok(()) => Ok(()),
        Err(_) => Err(Unheard::Lost),
    }
}

/// Receives the next message of the page, and returns it as the page's input. An error says why
/// nothing can be received any more.
fn receive_message<S: Read + Write + Drop, K: MaskKeys + Drop>(
    socket: &mut WebSocket<S, K>,
) -> Result<PageInput, Unheard>
    ensures { Listens S.remaining result socket.old socket.new }
{
    let read = socket.read();
    meaning_of(read)
}

/// Returns what a read of the socket means: a text, life for a ping or a pong, or nothing if
/// nothing came in time. All else is an error: why nothing can be received any more.
fn meaning_of(read: Result<Message, Error>) -> Result<PageInput, Unheard>
    ensures { result ≡ what_is_meant read }
{
    match read {
        Ok(Message::Text(text)) => Ok(PageInput::Text(text)),
        Ok(Message::Ping(_)) => Ok(PageInput::Life),
        Ok(Message::Pong(_)) => Ok(PageInput::Life),
        Ok(Message::Binary(_)) => Err(Unheard::NotText),
        Ok(Message::Close(_)) => Err(Unheard::Closed),
        Err(error) => meaning_of_error(&error),
    }
}

/// Returns what a read's error means: `Nothing` if nothing came in time, or else why nothing can be
/// received any more.
fn meaning_of_error(error: &Error) -> Result<PageInput, Unheard>
    ensures { result ≡ what_an_error_means error.now }
{
    match error {
        Error::Io(cause) => meaning_of_kind(cause.kind()),
        Error::ConnectionClosed => Err(Unheard::Closed),
        Error::Protocol(ProtocolError::ResetWithoutClosingHandshake) => Err(Unheard::Lost),
        Error::Utf8 => Err(Unheard::NotUtf8),
        Error::Capacity(_) => Err(Unheard::TooLong),
        Error::OutOfMemory => Err(Unheard::NoMemory),
        _ => Err(Unheard::Protocol),
    }
}

/// Returns what a stream's error of this kind means: `Nothing` for `WouldBlock` and `TimedOut`. Any
/// other kind is an error: `HostGone` for `HostUnreachable`, and else `Lost`.
fn meaning_of_kind(kind: ErrorKind) -> Result<PageInput, Unheard>
    ensures { result ≡ what_a_kind_means kind }
{
    match kind {
        ErrorKind::WouldBlock => Ok(PageInput::Nothing),
        ErrorKind::TimedOut => Ok(PageInput::Nothing),
        ErrorKind::HostUnreachable => Err(Unheard::HostGone),
        _ => Err(Unheard::Lost),
    }
}

/// Sends the page a text, which is not copied. An error says why it wasn't sent. It is `NoMemory`
/// if an allocation fails.
fn send_text<S: Read + Write + Paced + Drop, K: MaskKeys + Drop>(
    socket: &mut WebSocket<S, K>,
    text: String,
) -> Result<(), Unsent>
    ensures sent { OnOk result
        (Sends S.contents (text_content (string_bytes text)) socket.old socket.new) }
    ensures unsent { IfErr result (λ why.
        IsUnsent S.contents (text_content (string_bytes text)) why socket.old socket.new) }
{
    let Ok(text) = Utf8Bytes::from_string(text) else {
        return Err(Unsent::NoMemory);
    };
    send_message(socket, Message::Text(text))
}

/// Sends the page a message. Returns `Closed`, and sends nothing, if the socket takes no more.
fn send_message<S: Read + Write + Paced + Drop, K: MaskKeys + Drop>(
    socket: &mut WebSocket<S, K>,
    message: Message,
) -> Result<(), Unsent>
    requires { IsSendable (content_of message) }
    ensures sent { OnOk result (Sends S.contents (content_of message) socket.old socket.new) }
    ensures unsent { IfErr result (λ why.
        IsUnsent S.contents (content_of message) why socket.old socket.new) }
{
    if !socket.can_write() {
        return Err(Unsent::Closed);
    }
    socket.get_ref().pace(Pace::Sending);
    match socket.send(message) {
        Ok(()) => Ok(()),
        Err(error) => Err(reason_unsent(&error)),
    }
}

/// Returns why a message wasn't sent: `NoMemory` if memory ran out, or else `Lost`.
fn reason_unsent(error: &Error) -> Unsent
    ensures { result ≡ reason_of error.now }
{
    match error {
        Error::OutOfMemory => Unsent::NoMemory,
        _ => Unsent::Lost,
    }
}
