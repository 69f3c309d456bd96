//! Reads a text token by token: what was read so far, and one more token.
ghost use Rattle.std.specs.Prelude.{◌≡◌, ◌≢◌, ◌||◌, Ok, Err, MatchResult, true};
ghost use Rattle.cam6_forth.specs.Limits.{fault_number};
ghost use Rattle.cam6_forth.specs.SingleWords.{definition_at};

use crate::faults::{AdvanceFault, TokenFault};
use crate::kinds::{Kind, ends_comment, kind_of};
use crate::limits::{MAX_DEFINITIONS, MAX_OPEN_IFS, MAX_SIZE};
use crate::open_ifs::OpenIfs;
use crate::rules::Definition;
use crate::words::{SingleWord, Word};
use cam6_wiring::{Wiring, line_of};
use std::alloc::Global;
use std::marker::Model;
use std::mem;

/// Where the next token stands, unless a comment is open.
#[derive(Clone, Copy, Debug, PartialEq, Eq)]
pub(crate) enum Context {
    Outside,
    /// Right after `:`.
    Naming,
    /// In a body.
    Inside,
    /// Between a body's braces.
    Braces,
}

/// What was read so far.
#[derive(Drop)]
pub(crate) struct Reader {
    alloc: Global,
    definitions: Vec<Definition>,
    context: Context,
    comment: bool,
    name: Vec<u8>,
    words: Vec<Word>,
    size: u16,
    open_ifs: OpenIfs,
}

impl Model for Reader {
    ghost use Rattle.cam6_forth.specs.Reading.{State};

    ghost Value = { State };

    ghost view = { λ r. record {
      done = r.definitions.items;
      context = r.context;
      comment = r.comment;
      name = r.name.items;
      words = r.words.items;
      size = r.size;
      open_ifs = r.open_ifs;
    } };
}

impl Reader {
    ghost use Rattle.cam6_forth.specs.SingleWords.{word_of};
    ghost use Rattle.cam6_forth.specs.Reading.{beginning, advance, grown, outside, naming, with_if};
    ghost use Rattle.cam6_forth.specs.Reading.{with_else, with_then, with_definition, inside};
    ghost use Rattle.cam6_forth.specs.Reading.{braces, finish, is_in_body, then_so};
    ghost use Rattle.cam6_forth.specs.declared.faults.AdvanceFault.TheVariants.{NoMemory};
    ghost use Rattle.cam6_forth.specs.Outcome.{Steps, Finishes};

    /// Makes a reader that has read nothing. Does not allocate.
    pub(crate) fn new(alloc: Global) -> Self
        ensures { result ≡ beginning }
    {
        Reader {
            alloc,
            definitions: Vec::new(alloc),
            context: Context::Outside,
            comment: false,
            name: Vec::new(alloc),
            words: Vec::new(alloc),
            size: 0,
            open_ifs: OpenIfs::new(),
        }
    }

    /// Reads one more token. Returns the token's fault, or `NoMemory` if an allocation fails. A
    /// token of a comment has no fault.
    pub(crate) fn advance(&mut self, wiring: Wiring, token: &[u8]) -> Result<(), AdvanceFault>
        ensures state { Steps (advance wiring self.old token.now) self.new result }
        // Memory can run out only at a definition's name and in a body.
        ensures memory { result ≡ Err NoMemory →
            (is_in_body self.old.context
            || then_so (advance wiring self.old token.now) (λ next. is_in_body next.context))
            ≡ true }
    {
        if self.comment {
            self.comment = !ends_comment(token);
            return Ok(());
        }
        let kind = kind_of(token);
        match self.context {
            Context::Outside => self.read_outside(kind),
            Context::Naming => self.read_name(kind, token),
            Context::Inside => self.read_in_body(wiring, kind, token),
            Context::Braces => self.read_in_braces(wiring, kind, token),
        }
    }

    /// Ends the text. Returns its definitions in their order. Returns `OutOfPlace` if a comment or
    /// a definition is still open, or `NoDefinition` if there is none.
    pub(crate) fn finish(self) -> Result<Vec<Definition>, TokenFault>
        ensures { Finishes (finish self) result }
    {
        if self.comment || self.context != Context::Outside {
            Err(TokenFault::OutOfPlace)
        } else if self.definitions.is_empty() {
            Err(TokenFault::NoDefinition)
        } else {
            Ok(self.definitions)
        }
    }

    /// Reads a token outside definitions: `:` begins a definition, and `(` a comment. Any other
    /// token is `OutOfPlace`. After `MAX_DEFINITIONS` definitions a `:` is `TooLong`. Never returns
    /// `NoMemory`.
    fn read_outside(&mut self, kind: Kind) -> Result<(), AdvanceFault>
        ensures state { Steps (outside self.old kind) self.new result }
        ensures memory { result ≢ Err NoMemory }
    {
        match kind {
            Kind::Colon => {
                if self.definitions.len() >= MAX_DEFINITIONS {
                    return Err(AdvanceFault::Token(TokenFault::TooLong));
                }
                self.context = Context::Naming;
                Ok(())
            }
            Kind::Open => {
                self.comment = true;
                Ok(())
            }
            _ => Err(AdvanceFault::Token(TokenFault::OutOfPlace)),
        }
    }

    /// Reads the name of a definition, and begins its body. A reserved token or a name that is
    /// already defined is `NotDefinable`. Digits alone are reserved too. Returns `NoMemory` if an
    /// allocation fails.
    fn read_name(&mut self, kind: Kind, token: &[u8]) -> Result<(), AdvanceFault>
        ensures state { Steps (naming self.old kind token.now) self.new result }
        ensures memory { result ≡ Err NoMemory →
            then_so (naming self.old kind token.now) (λ next. is_in_body next.context) ≡ true }
    {
        if kind != Kind::Other || definition_at(token, &self.definitions).is_some() {
            return Err(AdvanceFault::Token(TokenFault::NotDefinable));
        }
        self.name = token.to_vec(self.alloc)?;
        self.words = Vec::new(self.alloc);
        self.size = 0;
        self.open_ifs = OpenIfs::new();
        self.context = Context::Inside;
        Ok(())
    }

    /// Reads a token of a body, outside braces. It may be `;`, `(`, `{`, IF, ELSE, THEN or a single
    /// word. Returns the token's fault, or `NoMemory` if an allocation fails.
    fn read_in_body(&mut self, wiring: Wiring, kind: Kind, token: &[u8]) -> Result<(), AdvanceFault>
        ensures { Steps (inside wiring self.old kind token.now) self.new result }
    {
        match kind {
            Kind::Semicolon => self.end_definition(),
            Kind::Open => {
                self.comment = true;
                Ok(())
            }
            Kind::If => self.open_if(),
            Kind::Else => self.read_else(),
            Kind::Then => self.close_if(),
            Kind::OpenBrace => {
                self.context = Context::Braces;
                self.grow(1, Word::Cases)
            }
            _ => match self.single_word_of(wiring, kind, token) {
                Ok((word, size)) => self.grow(size.into(), Word::Single(word)),
                Err(fault) => Err(AdvanceFault::Token(fault)),
            },
        }
    }

    /// Reads a token between a body's braces. `(` opens a comment, `}` ends the cases, and any
    /// other token has to be a single word. Each of these words counts one more than its size.
    /// Returns the token's fault, or `NoMemory` if an allocation fails.
    fn read_in_braces(
        &mut self,
        wiring: Wiring,
        kind: Kind,
        token: &[u8],
    ) -> Result<(), AdvanceFault>
        ensures { Steps (braces wiring self.old kind token.now) self.new result }
    {
        match kind {
            Kind::Open => {
                self.comment = true;
                Ok(())
            }
            Kind::CloseBrace => {
                self.context = Context::Inside;
                self.words.push(Word::EndCases)?;
                Ok(())
            }
            _ => match self.single_word_of(wiring, kind, token) {
                Ok((word, size)) => self.grow(u32::from(size) + 1, Word::Single(word)),
                Err(fault) => Err(AdvanceFault::Token(fault)),
            },
        }
    }

    /// Opens an IF inside those that are open. Returns `TooManyIfs` if `MAX_OPEN_IFS` are open,
    /// `TooLarge` if the definition gets too large, or `NoMemory` if an allocation fails.
    fn open_if(&mut self) -> Result<(), AdvanceFault>
        ensures { Steps (with_if self.old) self.new result }
    {
        if self.open_ifs.len() >= MAX_OPEN_IFS {
            return Err(AdvanceFault::Token(TokenFault::TooManyIfs));
        }
        self.open_ifs.push(false);
        self.grow(1, Word::If)
    }

    /// Reads the ELSE of the innermost open IF. The ELSE is `OutOfPlace` if no IF is open, or if
    /// this one has an ELSE already. It is `TooLarge` if the definition gets too large. Returns
    /// `NoMemory` if an allocation fails.
    fn read_else(&mut self) -> Result<(), AdvanceFault>
        ensures { Steps (with_else self.old.open_ifs self.old) self.new result }
    {
        if self.open_ifs.len() == 0 || self.open_ifs.pop() {
            return Err(AdvanceFault::Token(TokenFault::OutOfPlace));
        }
        self.open_ifs.push(true);
        self.grow(1, Word::Else)
    }

    /// Reads a THEN, which closes the innermost open IF and adds nothing to the size. The THEN is
    /// `OutOfPlace` if no IF is open. Returns `NoMemory` if an allocation fails.
    fn close_if(&mut self) -> Result<(), AdvanceFault>
        ensures { Steps (with_then self.old.open_ifs self.old) self.new result }
    {
        if self.open_ifs.len() == 0 {
            return Err(AdvanceFault::Token(TokenFault::OutOfPlace));
        }
        let _ = self.open_ifs.pop();
        self.words.push(Word::Then)?;
        Ok(())
    }

    /// Reads a `;`, which ends the definition and adds it to the others. The `;` is `OutOfPlace` if
    /// an IF is open. Returns `NoMemory` if an allocation fails.
    fn end_definition(&mut self) -> Result<(), AdvanceFault>
        ensures { Steps (with_definition self.old.open_ifs self.old) self.new result }
    {
        if self.open_ifs.len() != 0 {
            return Err(AdvanceFault::Token(TokenFault::OutOfPlace));
        }
        let name = mem::replace(&mut self.name, Vec::new(self.alloc));
        let words = mem::replace(&mut self.words, Vec::new(self.alloc));
        let size = mem::replace(&mut self.size, 0);
        self.definitions.push(Definition { name, words, size })?;
        self.context = Context::Outside;
        Ok(())
    }

    /// Adds a word to the body, and this size to the definition's size. If that gets above
    /// `MAX_SIZE`, returns `TooLarge` and adds nothing. Returns `NoMemory` if an allocation fails.
    fn grow(&mut self, size: u32, word: Word) -> Result<(), AdvanceFault>
        ensures { Steps (grown size word self.old) self.new result }
    {
        let total = u64::from(self.size) + u64::from(size);
        if total > u64::from(MAX_SIZE) {
            return Err(AdvanceFault::Token(TokenFault::TooLarge));
        }
        self.words.push(word)?;
        self.size = total as u16;
        Ok(())
    }

    /// Returns the single word that a token of this kind is, and how much it adds to a definition's
    /// size outside braces. Returns `LiteralRange` for digits above 65,535, and `OtherHalf` for the
    /// other half's output word. A name that is not defined before, or not in the wiring, is
    /// `UnknownWord`. Any other token is `OutOfPlace`.
    fn single_word_of(
        &self,
        wiring: Wiring,
        kind: Kind,
        token: &[u8],
    ) -> Result<(SingleWord, u16), TokenFault>
        ensures { MatchResult result
            (λ said. word_of wiring self.now.done kind token.now ≡ Ok said)
            (λ fault. word_of wiring self.now.done kind token.now ≡ Err (fault_number fault)) }
    {
        match kind {
            Kind::Digits(Some(value)) => Ok((SingleWord::Literal(value), 1)),
            Kind::Digits(None) => Err(TokenFault::LiteralRange),
            Kind::Stack(word) => Ok((SingleWord::Stack(word), 1)),
            Kind::Output(output) => {
                if output.half == wiring.half {
                    Ok((SingleWord::Output(output.target), 1))
                } else {
                    Err(TokenFault::OtherHalf)
                }
            }
            Kind::Name(name) => {
                if line_of(wiring.hood, wiring.minor, name).is_some() {
                    Ok((SingleWord::Name(name), 1))
                } else {
                    Err(TokenFault::UnknownWord)
                }
            }
            Kind::Other => match definition_at(token, &self.definitions) {
                Some((position, size)) => Ok((SingleWord::Defined(position), size.max(1))),
                None => Err(TokenFault::UnknownWord),
            },
            _ => Err(TokenFault::OutOfPlace),
        }
    }
}

/// Returns the index, from 0, of the first definition whose name is this token, and its size.
/// Returns `None` if there is none.
fn definition_at(token: &[u8], definitions: &[Definition]) -> Option<(usize, u16)>
    ensures { result ≡ definition_at token.now definitions.now }
{
    for (i, definition) in definitions.iter().enumerate() {
        if definition.name.as_slice() == token {
            return Some((i, definition.size));
        }
    }
    None
}
