//! Whatever answers lines.

/// The most bytes of a message, which are those of the longest line.
pub const MESSAGE_LIMIT: usize = 2_097_152;

/// Why a host gave no answer to a line.
#[derive(Clone, Copy, Debug, PartialEq, Eq)]
pub enum Silence {
    /// The line could not be written whole.
    Unwritten,
    /// The line was written, and its answer could not be read.
    Unread,
    /// The line was written, and the host ended before its answer was whole.
    Ended,
    /// An allocation failed.
    NoMemory,
}

/// A host's answer to a line, without an LF.
#[derive(Debug, Drop)]
pub enum Answer {
    /// A text that is always the same, so that no memory is taken for it.
    Fixed(&'static str),
    /// Bytes made for this answer. The caller checks that they are UTF-8.
    Made(Vec<u8>),
}

/// Something that answers lines, one after another.
pub trait Host {
    ghost use Rattle.std.specs.Prelude.{List, ℕ, IfOk, IfErr};
    ghost use Rattle.cam6_web_bridge.specs.Lines.{IsLine};
    ghost use Rattle.cam6_web_bridge.specs.Hosts.{HostWays, answer_bytes};

    /// The type of what it stands at.
    ghost state: { Type 0 };

    /// Where it stands.
    ghost stands: { Self → state };

    /// How it answers lines, and how it fails to.
    ghost answering: { HostWays state };

    /// Does a line without its LF, and returns its answer, also without an LF. The line has no LF,
    /// and isn't too long. An error says why there is no answer.
    fn ask(&mut self, line: &[u8]) -> Result<Answer, Silence>
        requires { IsLine line.now }
        ensures answer { IfOk result (λ answer.
            answering.answers (stands self.old) line.now (answer_bytes answer) (stands self.new)) }
        ensures silence { IfErr result (λ silence.
            answering.fails (stands self.old) line.now silence (stands self.new)) };
}
