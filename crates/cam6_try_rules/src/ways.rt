//! The ways in which lines are played, texts of rules among them.

use crate::lists::Sizes;
use crate::readings::readings;
use crate::rules::RuleWay;
use cam6_try_examples::{Played, Sent, Unplayable, Way};
use std::alloc::Global;
use std::io;

/// What is made of lines.
#[derive(Drop)]
pub enum LineWay {
    /// What each line says, or its fault.
    Readings,
    /// Lines of events, done as one list.
    List(Sizes),
    /// Texts of rules, and what is asked of a cache.
    Rules(RuleWay),
}

impl Way for LineWay {
    /// Reads the words after `as` as a way to play lines: `readings`, `list SIZES`, or a way of
    /// `RuleWay`. Any other words are an error.
    fn read(alloc: Global, words: &str) -> Result<LineWay, Unplayable> {
        match words.split_once(' ').unwrap_or((words, "")) {
            ("readings", "") => Ok(LineWay::Readings),
            ("list", sizes) => Sizes::read(alloc, sizes).map(LineWay::List),
            _ => RuleWay::read(alloc, words).map(LineWay::Rules),
        }
    }
}

impl Played for LineWay {
    /// Plays lines in this way. Returns a list of one text, what comes back.
    fn played(&self, alloc: Global, sent: &[Sent]) -> io::Result<Vec<Vec<u8>>> {
        match self {
            LineWay::Readings => Ok(vec![in alloc; readings(alloc, sent)?]?),
            LineWay::List(sizes) => Ok(vec![in alloc; sizes.outcomes(alloc, sent)?]?),
            LineWay::Rules(way) => way.played(alloc, sent),
        }
    }
}
