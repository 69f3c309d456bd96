//! Messages carried to a host, and its answers carried back.
ghost use Rattle.std.specs.Prelude.{◌≡◌, ◌↔◌, ◌<◌, IsTrue, IfOk, IfErr};
ghost use Rattle.cam6_web_bridge.specs.Lines.{HasNoLf};
ghost use Rattle.cam6_web_bridge.specs.Hosts.{answer_bytes};
ghost use Rattle.cam6_web_bridge.specs.Bridges.{Exchanges, IsCarried, IsSentOn, IsWaitedOn, BridgesUntil};
ghost use Rattle.cam6_web_bridge.specs.Bridges.{max_silences};

use crate::hosts::{Answer, Host, MESSAGE_LIMIT, Silence};
use crate::pages::{Page, PageInput, Unheard, Unsent};

/// How often in a row a page may be silent before the bridge ends.
const SILENCES: u8 = 3;

/// How many messages and silences a bridge has at most.
const ROUNDS: u64 = 1_099_511_627_776;

/// How a bridge ended.
#[derive(Clone, Copy, Debug, PartialEq, Eq)]
pub enum End {
    /// The page could not be heard, for this reason.
    Unheard(Unheard),
    /// A text has an LF in it, so that it is no line.
    NotALine,
    /// A text is longer than any line may be.
    TooLong,
    /// The host gave no answer, for this reason.
    Unanswered(Silence),
    /// The host's answer isn't UTF-8.
    NoText,
    /// The host's answer could not be sent, for this reason.
    Unsent(Unsent),
    /// A ping could not be sent, for this reason.
    Unpinged(Unsent),
    /// The page was silent, and was silent again after each of two pings.
    Silent,
    /// There were as many messages and silences as there may be.
    TurnBound,
}

/// Hands each text of the page to the host as a line, and sends the host's answer to it as a text.
/// Sends a ping after each silence. Returns how the bridge ends.
pub fn carry<P: Page, H: Host>(page: &mut P, host: &mut H) -> End
    ensures { BridgesUntil P.speaking H.answering result
        (P.stands page.old) (H.stands host.old) (P.stands page.new) (H.stands host.new) }
{
    let mut silences = 0;
    let mut rounds = ROUNDS;
    while rounds > 0 {
        rounds -= 1;
        match exchange(page, host, silences) {
            Ok(count) => silences = count,
            Err(end) => return end,
        }
    }
    End::TurnBound
}

/// Receives the next message of the page, hands a text to the host, and sends its answer. If the
/// page is silent, sends a ping. `silences` is how often in a row the page was silent before, at
/// most 2. Returns this number after it, 0 for a message, or how the bridge ends.
fn exchange<P: Page, H: Host>(page: &mut P, host: &mut H, silences: u8) -> Result<u8, End>
    requires { silences < max_silences }
    ensures { Exchanges P.speaking H.answering result silences
        (P.stands page.old) (H.stands host.old) (P.stands page.new) (H.stands host.new) }
{
    match page.hear() {
        Ok(PageInput::Text(text)) => match carry_line(page, host, text.as_str().as_bytes()) {
            Ok(()) => Ok(0),
            Err(end) => Err(end),
        },
        Ok(PageInput::Life) => Ok(0),
        Ok(PageInput::Nothing) => ping_silent_page(page, silences),
        Err(why) => Err(End::Unheard(why)),
    }
}

/// Sends a ping to a page that was silent once more, after `silences` silences in a row, at most 2.
/// Returns how many silences there are now. At the third the bridge ends without a ping.
fn ping_silent_page<P: Page>(page: &mut P, silences: u8) -> Result<u8, End>
    requires { silences < max_silences }
    ensures { IsWaitedOn P.speaking result silences (P.stands page.old) (P.stands page.new) }
{
    if silences + 1 == SILENCES {
        return Err(End::Silent);
    }
    match page.ping() {
        Ok(()) => Ok(silences + 1),
        Err(why) => Err(End::Unpinged(why)),
    }
}

/// Hands a text of the page to the host, and sends the page the answer. Returns how the bridge ends
/// if the text has an LF, if it is too long, or if the host or the page fails.
fn carry_line<P: Page, H: Host>(page: &mut P, host: &mut H, line: &[u8]) -> Result<(), End>
    ensures { IsCarried P.speaking H.answering result line.now
        (P.stands page.old) (H.stands host.old) (P.stands page.new) (H.stands host.new) }
{
    if !has_no_lf(line) {
        return Err(End::NotALine);
    }
    if line.len() > MESSAGE_LIMIT {
        return Err(End::TooLong);
    }
    match host.ask(line) {
        Ok(answer) => send_answer(page, answer),
        Err(silence) => Err(End::Unanswered(silence)),
    }
}

/// Sends the page a host's answer as a text. Returns how the bridge ends if the answer isn't UTF-8,
/// or can't be sent.
fn send_answer<P: Page>(page: &mut P, answer: Answer) -> Result<(), End>
    ensures { IsSentOn P.speaking result (answer_bytes answer)
        (P.stands page.old) (P.stands page.new) }
{
    let sent = match answer {
        Answer::Fixed(text) => page.send_fixed(text),
        Answer::Made(bytes) => match String::from_utf8(bytes) {
            Ok(text) => page.send(text),
            Err(_) => return Err(End::NoText),
        },
    };
    match sent {
        Ok(()) => Ok(()),
        Err(why) => Err(End::Unsent(why)),
    }
}

/// Returns whether no byte of a text is an LF. It is true for an empty text.
fn has_no_lf(text: &[u8]) -> bool
    ensures { IsTrue result ↔ HasNoLf text.now }
{
    text.iter().all(|byte| *byte != b'\n')
}
