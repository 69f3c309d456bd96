//! The four programs, and lines that begin with their names.
ghost use Rattle.std.specs.Prelude.{◌≡◌, IfOk, codes, string_bytes};
ghost use Rattle.cam6_arguments.specs.Program.{name_of, message_of};

use std::alloc::{AllocError, Global};

/// A program. What goes wrong is reported in its name.
#[derive(Clone, Copy, Debug)]
pub enum Program {
    /// `cam6`.
    Cam6,
    /// `cam6_draw`.
    Draw,
    /// `cam6_rle`.
    Rle,
    /// `cam6_web`.
    Web,
}

impl Program {
    /// Returns the program's name.
    pub fn name(self) -> &'static str
        ensures { result.now ≡ name_of self }
    {
        match self {
            Program::Cam6 => "cam6",
            Program::Draw => "cam6_draw",
            Program::Rle => "cam6_rle",
            Program::Web => "cam6_web",
        }
    }

    /// Returns the line that reports a failed allocation, with its LF.
    pub fn no_memory(self) -> &'static str
        ensures { result.now ≡ message_of self (codes "no memory\n") }
    {
        match self {
            Program::Cam6 => "cam6: no memory\n",
            Program::Draw => "cam6_draw: no memory\n",
            Program::Rle => "cam6_rle: no memory\n",
            Program::Web => "cam6_web: no memory\n",
        }
    }

    /// Returns the line that reports a failed write, with its LF.
    pub fn write_failed(self) -> &'static str
        ensures { result.now ≡ message_of self (codes "write failed\n") }
    {
        match self {
            Program::Cam6 => "cam6: write failed\n",
            Program::Draw => "cam6_draw: write failed\n",
            Program::Rle => "cam6_rle: write failed\n",
            Program::Web => "cam6_web: write failed\n",
        }
    }

    /// Returns the line, with its LF, to print if the line with the reason can't be allocated.
    pub fn no_memory_to_say_why(self) -> &'static str
        ensures { result.now ≡ message_of self (codes "no memory to say why\n") }
    {
        match self {
            Program::Cam6 => "cam6: no memory to say why\n",
            Program::Draw => "cam6_draw: no memory to say why\n",
            Program::Rle => "cam6_rle: no memory to say why\n",
            Program::Web => "cam6_web: no memory to say why\n",
        }
    }
}

/// Returns the program's name, a colon, a space and the text, as a new string. Fails only if the
/// allocation fails.
pub fn message_of(alloc: Global, program: Program, text: &str) -> Result<String, AllocError>
    ensures { IfOk result (λ line. string_bytes line ≡ message_of program text.now) }
{
    let name = program.name();
    format!(in alloc; "{name}: {text}")
}
