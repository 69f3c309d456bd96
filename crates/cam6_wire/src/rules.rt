//! A rule, as an object says it.
ghost use Rattle.std.specs.Prelude.{◌≡◌, IfOk};
ghost use Rattle.std.specs.Str.{IsUtf8};
ghost use Rattle.serde_json.specs.View.{view};
ghost use Rattle.cam6_wire.specs.Rules.{rule_fields};

use crate::fields::text_at;
use crate::wirings::wiring_in;
use cam6_commands::{NamedRule, Text};
use cam6_wiring::Wiring;
use serde_json::Value;
use std::alloc::{AllocError, Global};
use std::marker::Model;

/// A rule whose texts are in the value that shows it. Contracts see it as the rule.
#[derive(Drop)]
pub(crate) struct BorrowedRule<'a> {
    name: &'a str,
    wiring: Wiring,
    text: &'a str,
}

impl<'a> Model for BorrowedRule<'a> {
    ghost use Rattle.cam6_commands.specs.declared.saved.NamedRule.{NamedRule};

    ghost Value = { NamedRule };

    ghost view = { λ r. record { name = r.name.now; wiring = r.wiring; text = r.text.now } };
}

impl<'a> BorrowedRule<'a> {
    /// Returns the rule with copies of its texts.
    pub(crate) fn copied(&self, alloc: Global) -> Result<NamedRule, AllocError>
        ensures rule { IfOk result (λ rule. rule ≡ self.now) }
        ensures utf8 { IfOk result (λ rule. IsUtf8 rule.text) }
    {
        let name = Text::new(String::from_str(alloc, self.name)?);
        let text = Text::new(String::from_str(alloc, self.text)?);
        Ok(NamedRule {
            name,
            wiring: self.wiring,
            text,
        })
    }
}

/// Returns the rule of the members `half`, `hood`, `minor`, `name` and `text`, with texts borrowed
/// from the value. Returns `None` if one is missing or wrong. Doesn't look at other members. Does
/// not allocate.
pub(crate) fn rule_fields(value: &Value) -> Option<BorrowedRule<'_>>
    ensures { result ≡ rule_fields (view value.now) }
{
    let name = text_at(value, "name")?;
    let wiring = wiring_in(value)?;
    let text = text_at(value, "text")?;
    Some(BorrowedRule { name, wiring, text })
}
