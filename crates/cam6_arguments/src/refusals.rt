//! Arguments that are refused.
ghost use Rattle.std.specs.Prelude.{◌≡◌, ◌⊎◌, ◌<◌, IfOk, IsErr, MatchResult, length, string_bytes};
ghost use Rattle.clap.specs.Words.{kind_of};
ghost use Rattle.cam6_arguments.specs.Refusals.{EndsWith, HasText, IsOfKind, IsRefusal, IsTold};
ghost use Rattle.cam6_arguments.specs.Refusals.{IsUnreadable, refusal as refusal_told};

use crate::programs::{Program, message_of};
use crate::statuses::{NO_MEMORY, REFUSED_WORDS};
use clap::error::ErrorKind;
use std::alloc::{AllocError, Global};
use std::io;
use thiserror::Error;

/// Why the arguments of a program give it no task.
#[derive(Debug, Drop, Error)]
pub enum Refused {
    /// They ask for the help text, or for the version.
    #[error("{0}")]
    Help(String),
    /// They aren't arguments of the program. The text says why.
    #[error("{0}")]
    Words(String),
    /// An allocation failed.
    #[error("no memory")]
    NoMemory,
}

/// Returns the exit status of refused arguments, and the text to print. Help or the version has
/// status 0, for standard output. Refused arguments have 2 and a failed allocation 5, for standard
/// error.
pub fn refusal_of(program: Program, refused: &Refused) -> (u8, &str)
    ensures { (result.0, result.1.now) ≡ refusal_told program refused.now }
{
    match refused {
        Refused::Help(text) => (0, text.as_str()),
        Refused::Words(text) => (REFUSED_WORDS, text.as_str()),
        Refused::NoMemory => (NO_MEMORY, program.no_memory()),
    }
}

/// Returns the refusal for an error of clap's: help or the version, refused arguments, or
/// `NoMemory`. It is `NoMemory` if clap's, the text's or the hint's allocation failed. The hint
/// stands after the text of refused arguments.
pub fn refusal(alloc: Global, error: clap::Error, hint: &str) -> Refused
    ensures kind { IsOfKind result (kind_of error) }
    ensures hint { EndsWith result hint.now }
{
    let kind = error.kind();
    refusal_of_kind(kind, error.to_string(alloc), hint)
}

/// Returns the refusal for an error of clap's of this kind. `text` is its text, or an error if that
/// couldn't be allocated: then returns `NoMemory`. The hint stands after the text of refused
/// arguments. If it can't be allocated, returns `NoMemory` too.
pub fn refusal_of_kind(kind: ErrorKind, text: Result<String, AllocError>, hint: &str) -> Refused
    ensures kind { IsOfKind result kind }
    ensures text { IfOk text (λ text. HasText result (string_bytes text) hint.now) }
    ensures hint { EndsWith result hint.now }
    // `NoMemory` is returned only if an allocation failed or may have failed.
    ensures memory { result ≡ Refused.NoMemory →
        (kind ≡ ErrorKind.OutOfMemory) ⊎ (IsErr text ⊎ (0 < length hint.now)) }
{
    let Ok(text) = text else {
        return Refused::NoMemory;
    };
    match kind {
        ErrorKind::OutOfMemory => Refused::NoMemory,
        ErrorKind::DisplayHelp | ErrorKind::DisplayVersion => Refused::Help(text),
        _ => with_hint(text, hint),
    }
}

/// Returns the refusal of arguments with this text and the hint after it. If there is no memory for
/// the hint, returns `NoMemory`.
fn with_hint(text: String, hint: &str) -> Refused
    ensures words { IsTold result (string_bytes text) hint.now }
{
    let mut text = text;
    match text.push_str(hint) {
        Ok(()) => Refused::Words(text),
        Err(_) => Refused::NoMemory,
    }
}

/// Returns the refusal with this text, for arguments that clap takes: they ask for nothing, or a
/// word isn't UTF-8. `text` is a whole line with the program's name and LF. If it is an error,
/// since it couldn't be allocated, returns `NoMemory`.
pub fn refusal_of_text(text: Result<String, AllocError>) -> Refused
    ensures refusal { IsRefusal result }
    ensures text { MatchResult text (λ text. result ≡ Refused.Words text)
        (λ _. result ≡ Refused.NoMemory) }
{
    match text {
        Ok(text) => Refused::Words(text),
        Err(_) => Refused::NoMemory,
    }
}

/// Returns the refusal of arguments that could not be read with an error of this kind.
/// `OutOfMemory` gives `NoMemory`, and any other kind reports that a word isn't UTF-8. Returns
/// `NoMemory` also if that report can't be allocated.
pub fn refusal_of_read(alloc: Global, program: Program, kind: io::ErrorKind) -> Refused
    ensures { IsUnreadable program result kind }
{
    match kind {
        io::ErrorKind::OutOfMemory => Refused::NoMemory,
        _ => refusal_of_text(message_of(alloc, program, "an argument is not UTF-8\n")),
    }
}
