//! Laws that tie texts, trees and faults. Each is the contract of a function that does nothing.
ghost use Rattle.cam6_forth.specs.Laws.{HasOneTree, TreeIsRead, HasRuleOrFault, HasOneFault};
ghost use Rattle.cam6_forth.specs.Laws.{CanBeCompleted, FaultStays, FaultIsFirst, EndIsTooEarly};
ghost use Rattle.cam6_forth.specs.Laws.{FaultsInOrder, OneBetween, KnownIsSingle};
ghost use Rattle.cam6_forth.specs.Laws.{AcceptedIsKept};

/// Two rules' trees that are spelled by the same tokens are equal.
pub fn trees_spelled_alike_are_one()
    ensures law { HasOneTree }
{}

/// A rule's text has one tree, and `tree_of` the text is that tree.
pub fn a_text_has_one_tree()
    ensures law { TreeIsRead }
{}

/// Each text is a rule or has a fault.
pub fn a_text_is_a_rule_or_has_a_fault()
    ensures law { HasRuleOrFault }
{}

/// A text has at most one fault, and none if it is a rule.
pub fn a_text_has_one_fault()
    ensures law { HasOneFault }
{}

/// Tokens that have no fault so far can be completed to the tokens of a rule. The limit of bytes is
/// on the whole text, and not on its tokens.
pub fn tokens_without_a_fault_begin_a_rule()
    ensures law { CanBeCompleted }
{}

/// A token's fault doesn't depend on the tokens after it.
pub fn a_fault_stays()
    ensures law { FaultStays }
{}

/// The tokens before a token that has a fault begin a rule. With that token they begin no rule.
pub fn a_fault_is_the_first()
    ensures law { FaultIsFirst }
{}

/// If a text has a fault at its end, its tokens begin a rule but are not a rule.
pub fn an_end_with_a_fault_is_too_early()
    ensures law { EndIsTooEarly }
{}

/// A token with several faults has the first one of their order: 21 is tried before 22, and 23
/// after all others.
pub fn faults_come_in_order()
    ensures law { FaultsInOrder }
{}

/// A token has at most one of the faults that are tried between 22 and 23.
pub fn at_most_one_fault_comes_between()
    ensures law { OneBetween }
{}

/// A token that is known in a body stands for a single word. The word has size 1, or the size of
/// its definition if that is larger.
pub fn a_known_token_is_a_single_word()
    ensures law { KnownIsSingle }
{}

/// If a text is read as a rule, its reading kept some of the text in memory.
pub fn something_of_a_rule_is_kept()
    ensures law { AcceptedIsKept }
{}
