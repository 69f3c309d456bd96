//! Reads a rule's text as a rule, or as its first fault.
ghost use Rattle.std.specs.Prelude.{◌≡◌, ℕ, List, Err, true};
ghost use Rattle.cam6_forth.specs.declared.faults.ParseFault.TheVariants.{NoMemory, Text};
ghost use Rattle.cam6_wiring.specs.Wiring.{wired};
ghost use Rattle.cam6_forth.specs.Limits.{fault_number};
ghost use Rattle.cam6_forth.specs.Reading.{read_text, keeps};
ghost use Rattle.cam6_forth.specs.Tree.{Part, rule_of};
ghost use Rattle.cam6_forth.specs.Texts.{IsTextOf};
ghost use Rattle.cam6_forth.specs.Faults.{HasFault};
ghost use Rattle.cam6_forth.specs.Outcome.{IsReadAs, IsAccepted, IsRefused, IsThisRule};
ghost use Rattle.cam6_forth.specs.Outcome.{IsThisFault};

use crate::faults::{AdvanceFault, ParseFault, TextFault, TokenFault};
use crate::limits::MAX_TEXT;
use crate::reader::Reader;
use crate::rules::Rule;
use crate::tokens::first_token;
use cam6_wiring::{Half, Hood, Minor, Wiring};
use std::alloc::Global;

/// Reads a text as a rule for this half, neighbourhood and minor assignment. Returns the rule, the
/// text's first fault as `Text`, or `NoMemory` if an allocation fails. Tokens are numbered from 1,
/// and the end counts as one more. A text of more than 8192 bytes has its fault at token 0.
pub fn parse(
    alloc: Global,
    text: &str,
    half: Half,
    hood: Hood,
    minor: Minor,
) -> Result<Rule, ParseFault>
    // An accepted text is the tree of the rule, and a refused one has the fault.
    ensures accepted { IsAccepted (wired half hood minor) text.now result }
    ensures refused { IsRefused (wired half hood minor) text.now result }
    // A text that is a rule is accepted, and one that has a fault is refused with it, unless
    // memory runs out.
    ensures rule { (parts : List Part) → IsTextOf (wired half hood minor) parts text.now →
        IsThisRule (rule_of (wired half hood minor) parts) result }
    ensures fault { (number token_number : ℕ) →
        HasFault (wired half hood minor) text.now number token_number →
        IsThisFault number token_number result }
    // The same as a function of the text.
    ensures exact { IsReadAs
        (read_text (wired half hood minor) text.now) (wired half hood minor) result }
    // Memory can run out only if something of the text is kept.
    ensures memory { result ≡ Err NoMemory → keeps (wired half hood minor) text.now ≡ true }
{
    parse_under(alloc, text, Wiring { half, hood, minor })
}

/// Reads a text as a rule for this wiring. Returns the rule, the text's first fault as `Text`, or
/// `NoMemory` if an allocation fails. Tokens are numbered from 1, and the end counts as one more. A
/// text of more than 8192 bytes has its fault at token 0.
pub fn parse_under(alloc: Global, text: &str, wiring: Wiring) -> Result<Rule, ParseFault>
    // An accepted text is the tree of the rule, and a refused one has the fault.
    ensures accepted { IsAccepted wiring text.now result }
    ensures refused { IsRefused wiring text.now result }
    // A text that is a rule is accepted, and one that has a fault is refused with it, unless
    // memory runs out.
    ensures rule { (parts : List Part) → IsTextOf wiring parts text.now →
        IsThisRule (rule_of wiring parts) result }
    ensures fault { (number token_number : ℕ) → HasFault wiring text.now number token_number →
        IsThisFault number token_number result }
    // The same as a function of the text.
    ensures exact { IsReadAs (read_text wiring text.now) wiring result }
    // Memory can run out only if something of the text is kept.
    ensures memory { result ≡ Err NoMemory → keeps wiring text.now ≡ true }
{
    read_text(alloc, text, wiring)
}

/// Reads a text as a rule for this wiring. Returns the rule, the text's first fault, or `NoMemory`
/// if an allocation fails. A text of more than `MAX_TEXT` bytes has its fault at token 0, and
/// nothing of it is read. A fault of the end has the number after the last token's.
#[tactic(auto, unfolding(crate::specs::Reading::read_text))]
fn read_text(alloc: Global, text: &str, wiring: Wiring) -> Result<Rule, ParseFault>
    ensures exact { IsReadAs (read_text wiring text.now) wiring result }
    ensures memory { result ≡ Err NoMemory → keeps wiring text.now ≡ true }
{
    if text.len() > MAX_TEXT {
        return Err(text_fault(TokenFault::TooLong, 0));
    }
    let mut reader = Reader::new(alloc);
    let mut rest = text.as_bytes();
    let mut token_number = 1;
    while let Some((token, after)) = first_token(rest) {
        match reader.advance(wiring, token) {
            Ok(()) => {}
            Err(AdvanceFault::NoMemory) => return Err(ParseFault::NoMemory),
            Err(AdvanceFault::Token(fault)) => return Err(text_fault(fault, token_number)),
        }
        rest = after;
        token_number += 1;
    }
    match reader.finish() {
        Ok(definitions) => Ok(Rule::new(wiring, definitions)),
        Err(fault) => Err(text_fault(fault, token_number)),
    }
}

/// Returns the fault of a text at a token. Tokens are numbered from 1, and the end of the text
/// counts as one more. Token 0 stands for a text that is too long.
fn text_fault(fault: TokenFault, token: u32) -> ParseFault
    ensures { result ≡ Text (record { number = fault_number fault; token = token }) }
{
    ParseFault::Text(TextFault {
        number: fault.number(),
        token,
    })
}
