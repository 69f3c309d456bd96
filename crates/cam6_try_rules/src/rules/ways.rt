//! The ways in which texts of rules are played, and what is asked of a cache.

use crate::rules::inverses::{Times, inverses};
use crate::rules::texts::Shown;
use crate::rules::{caches, stacks, texts};
use cam6_cache::MAX_CAPACITY;
use cam6_try_examples::{Played, Sent, Unplayable, Way, wiring_of};
use cam6_wiring::Wiring;
use std::alloc::Global;
use std::io;

/// What is made of texts.
#[derive(Drop)]
pub enum RuleWay {
    /// Texts of rules under a wiring: the first fault of each, if it has one.
    Texts(Wiring),
    /// What is kept of each rule's text.
    Rules(Wiring),
    /// The entry of each rule at these addresses.
    Entries(Wiring, Vec<u16>),
    /// Each rule's whole table, or the least address at which it stops.
    Tables(Wiring),
    /// The inverse of each rule's table, or why it has none.
    Inverses(Wiring),
    /// The inverse of the inverse of each rule's table.
    InversesTwice(Wiring),
    /// Loads from a cache of so many tables.
    Cache(usize),
    /// Words of a body: what they leave on the stack, the top value last.
    Stacks,
}

impl Way for RuleWay {
    /// Reads the words after `as` as a way to play texts of rules. Any other words are an error.
    fn read(alloc: Global, words: &str) -> Result<RuleWay, Unplayable> {
        match words.split_once(' ').unwrap_or((words, "")) {
            ("stacks", "") => Ok(RuleWay::Stacks),
            ("cache", capacity) => capacity_of(capacity).map(RuleWay::Cache),
            ("texts", wiring) => wiring_of(wiring).map(RuleWay::Texts),
            ("rules", wiring) => wiring_of(wiring).map(RuleWay::Rules),
            ("tables", wiring) => wiring_of(wiring).map(RuleWay::Tables),
            ("inverses", rest) => match rest.strip_prefix("twice ") {
                Some(wiring) => wiring_of(wiring).map(RuleWay::InversesTwice),
                None => wiring_of(rest).map(RuleWay::Inverses),
            },
            ("entries", rest) => entries_way(alloc, rest),
            _ => Err(Unplayable::Unread),
        }
    }
}

impl Played for RuleWay {
    /// Plays texts of rules in this way. Returns a list of one text, what comes back.
    fn played(&self, alloc: Global, sent: &[Sent]) -> io::Result<Vec<Vec<u8>>> {
        let answers = match self {
            RuleWay::Texts(wiring) => texts::answered(alloc, *wiring, Shown::Nothing, sent),
            RuleWay::Rules(wiring) => texts::answered(alloc, *wiring, Shown::Definitions, sent),
            RuleWay::Entries(wiring, addresses) => {
                texts::answered(alloc, *wiring, Shown::Entries(addresses.as_slice()), sent)
            }
            RuleWay::Tables(wiring) => texts::tables(alloc, *wiring, sent),
            RuleWay::Inverses(wiring) => inverses(alloc, *wiring, Times::Once, sent),
            RuleWay::InversesTwice(wiring) => inverses(alloc, *wiring, Times::Twice, sent),
            RuleWay::Cache(capacity) => caches::loads(alloc, *capacity, sent),
            RuleWay::Stacks => stacks::stacks(alloc, sent),
        };
        Ok(vec![in alloc; answers?]?)
    }
}

/// Reads `WIRING at ADDRESS ..` as the way that shows entries at these addresses. Any other text is
/// an error.
fn entries_way(alloc: Global, text: &str) -> Result<RuleWay, Unplayable> {
    let (wiring, addresses) = text.split_once(" at ").ok_or(Unplayable::Unread)?;
    let wiring = wiring_of(wiring)?;
    Ok(RuleWay::Entries(wiring, addresses_of(alloc, addresses)?))
}

/// Returns how many tables a cache holds, from a text with a number from 1 to 64. Any other text is
/// an error.
fn capacity_of(text: &str) -> Result<usize, Unplayable> {
    let capacity = text.parse().map_err(|_| Unplayable::Unread)?;
    if (1..=MAX_CAPACITY).contains(&capacity) {
        Ok(capacity)
    } else {
        Err(Unplayable::Unread)
    }
}

/// Returns the addresses in a text, decimal numbers up to 65535 with one space between them. Any
/// other text is an error.
fn addresses_of(alloc: Global, text: &str) -> Result<Vec<u16>, Unplayable> {
    let mut addresses = Vec::new(alloc);
    for address in text.split(' ') {
        addresses.push(address.parse().map_err(|_| Unplayable::Unread)?)?;
    }
    Ok(addresses)
}
