//! CAM Forth: a rule's text, and the rule or the first fault that it is read as.
//!
//! Contract: `parse` accepts a text exactly if its tokens, comments left out, spell a well-formed
//! tree (`specs/Texts.antt`), and returns that tree's rule. It refuses any other text with the
//! number and the token of its first fault (`specs/Faults.antt`). It may run out of memory instead,
//! but only if something of the text is kept.
//!
//! So `: P CENTER NORTH XOR >PLN0 ;` is a rule of half A under N/VONN, of one definition with four
//! words. `: P CENTER FOO ;` has fault 20 at token 4, as no earlier definition is called FOO.
//! `: P CENTER` has fault 22 at token 4, its end, as the definition is open.
//!
//! The laws: trees that are spelled alike are one, and a plain function reads the tree of a text
//! from it. A text is a rule or has exactly one fault. Something is kept of a text that is a rule.
//! Tokens without a fault begin a rule. A fault stays whatever follows its token. That token is the
//! first with which the tokens begin no rule. A token has the first of its faults, 21 before 22 and
//! 23 after all others. A token that is known in a body says a single word, the one that the tables
//! of spellings say.
//!
//! Stands on: `cam6_wiring`.
//!
//! Read next: `words`, the words of a body, with `spellings`, their texts, and `rules`; `tokens` and
//! `kinds`, how a text is cut and what a token is; `faults` and `limits`, why a text is refused;
//! `reader`, what was read so far, with `open_ifs`; then `parser`; `laws`, what holds of trees, texts
//! and faults by themselves.
#![tactic(auto)]

mod faults;
mod kinds;
pub mod laws;
mod limits;
mod open_ifs;
mod parser;
mod reader;
mod rules;
mod spellings;
mod tokens;
mod words;

pub use faults::{ParseFault, TextFault};
pub use parser::{parse, parse_under};
pub use rules::{Definition, Rule};
pub use words::{Output, SingleWord, StackWord, Target, Word};
