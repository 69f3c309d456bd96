//! A bridge from the handshake on.
ghost use Rattle.cam6_web_bridge.specs.Bridging.{BridgesOn};

use crate::carrying::{End, carry};
use crate::hosts::Host;
use crate::partings::{Away, farewell, farewell_away};
use crate::sockets::{Paced, SocketPage};
use std::alloc::Global;
use std::io::{Read, Write};

/// Carries the messages of a page to a host, and the host's answers back, until the bridge ends.
/// Then sends the page a close with the reason, and returns how the bridge ended. The stream's
/// handshake is done, and `unread` has the bytes that were read after it.
pub fn bridge<S: Read + Write + Paced + Drop, H: Host>(
    alloc: Global,
    stream: S,
    unread: Vec<u8>,
    host: &mut H,
) -> End
    ensures { BridgesOn S.remaining S.contents H.answering stream unread.items result
        (H.stands host.old) (H.stands host.new) }
{
    let mut page = SocketPage::new(alloc, stream, unread);
    let end = carry(&mut page, host);
    let (code, reason) = farewell(end);
    // The page is gone if it can't be told.
    let _ = page.send_close(code, reason);
    end
}

/// Sends a page a close with the reason why it is turned away. The stream's handshake is done, and
/// `unread` has the bytes that were read after it. A failure to send is ignored.
pub fn turn_away<S: Read + Write + Paced + Drop>(
    alloc: Global,
    stream: S,
    unread: Vec<u8>,
    why: Away,
) {
    let mut page = SocketPage::new(alloc, stream, unread);
    let (code, reason) = farewell_away(why);
    let _ = page.send_close(code, reason);
}
