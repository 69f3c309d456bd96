//! Texts of commands and replies, and which of them are names of rules.
ghost use Rattle.std.specs.Prelude.{◌≡◌};
ghost use Rattle.std.specs.List.{list_all};
ghost use Rattle.cam6_commands.specs.Names.{is_name_byte};

use crate::items::Items;
use crate::limits::MAX_NAME;
use std::marker::Model;

/// A text, which contracts see as its bytes.
#[derive(Debug, Drop)]
pub struct Text {
    text: String,
}

impl Model for Text {
    ghost use Rattle.std.specs.Prelude.{List, ℕ, string_bytes};

    ghost Value = { List ℕ };

    ghost view = { λ t. string_bytes t.text };
}

impl Text {
    ghost use Rattle.std.specs.Prelude.{◌≡◌, string_bytes};
    ghost use Rattle.std.specs.Str.{IsUtf8};
    ghost use Rattle.cam6_commands.specs.Names.{is_rule_name};

    /// Returns a text of any string. It may or may not be a rule's name: see `is_rule_name`.
    pub fn new(text: String) -> Text
        ensures { result ≡ string_bytes text }
    {
        Text { text }
    }

    /// Lends the string unchanged.
    pub fn as_str(&self) -> &str
        ensures text { result.now ≡ self.now }
        ensures utf8 { IsUtf8 self.now }
    {
        self.text.as_str()
    }

    /// Gives up the text, and returns its string without a copy.
    pub fn into_string(self) -> String
        ensures { string_bytes result ≡ self }
    {
        self.text
    }

    /// Whether the text can be a rule's name: 1 to 24 bytes from `!` to `~`, without `"` and `\`,
    /// and not `-`. A space can't be in it.
    pub fn is_rule_name(&self) -> bool
        ensures { result ≡ is_rule_name self.now }
    {
        let bytes = self.as_str().as_bytes();
        !bytes.is_empty()
            && bytes.len() <= MAX_NAME
            && bytes != b"-".as_slice()
            && are_name_bytes(bytes)
    }
}

/// Whether each of the bytes can be in a rule's name. Their number doesn't matter.
fn are_name_bytes(bytes: &[u8]) -> bool
    ensures { result ≡ list_all is_name_byte bytes.now }
{
    bytes.iter().all(|byte| is_name_byte(*byte))
}

/// Whether a byte can be in a rule's name: `!` to `~`, without `"` and `\`.
fn is_name_byte(byte: u8) -> bool
    ensures { result ≡ is_name_byte byte }
{
    matches!(byte, 0x21..=0x7E) && byte != b'"' && byte != b'\\'
}

/// Names of rules, in order.
pub type Names = Items<Text>;
