//! A rule as it was read: its definitions. The last one is the rule.
ghost use Rattle.std.specs.Prelude.{◌≡◌};

use crate::words::Word;
use cam6_wiring::Wiring;
use std::marker::Model;

/// A definition: its name, its words in a row, and its size.
#[derive(Debug, Drop)]
pub struct Definition {
    pub name: Vec<u8>,
    pub words: Vec<Word>,
    pub size: u16,
}

impl Model for Definition {
    ghost use Rattle.cam6_forth.specs.Defined.{Defined};

    ghost Value = { Defined };

    ghost view = { λ d. record { name = d.name.items; words = d.words.items; size = d.size } };
}

/// A rule that `parse` accepted: the words of a tree.
#[derive(Debug, Drop)]
pub struct Rule {
    wiring: Wiring,
    definitions: Vec<Definition>,
}

impl Model for Rule {
    ghost use Rattle.cam6_forth.specs.Defined.{RuleWords};
    ghost use Rattle.cam6_forth.specs.Tree.{IsOfTree};

    ghost Value = { RuleWords };

    ghost view = { λ r. record { wiring = r.wiring; definitions = r.definitions.items } };

    ghost invariant = { λ r.
        IsOfTree (record { wiring = r.wiring; definitions = r.definitions.items }) };
}

impl Rule {
    ghost use Rattle.cam6_forth.specs.Tree.{IsOfTree};

    /// Makes the rule of these definitions, the last of which is the rule itself. They must be
    /// those of a well-formed tree for this wiring.
    pub(crate) fn new(wiring: Wiring, definitions: Vec<Definition>) -> Rule
        requires definitions { IsOfTree
            (record { wiring = wiring; definitions = definitions.items }) }
        ensures { result ≡ record { wiring = wiring; definitions = definitions.items } }
    {
        Rule {
            wiring,
            definitions,
        }
    }

    /// The half, neighbourhood and minor assignment that the rule is written for.
    pub fn wiring(&self) -> Wiring
        ensures { result ≡ self.now.wiring }
    {
        self.wiring
    }

    /// The definitions in their order, at least one. The last one is the rule itself.
    pub fn definitions(&self) -> &[Definition]
        ensures definitions { result.now ≡ self.now.definitions }
        ensures tree { IsOfTree self.now }
    {
        self.definitions.as_slice()
    }
}
