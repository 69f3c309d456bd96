//! A cache of tables, asked line by line.
//!
//! ```text
//! load HALF HOOD MINOR TEXT     whether the table of the rule's text was kept
//! undo HALF HOOD MINOR TEXT     the same for the inverse of that table, or why there is none
//! table                         the table of the last load, 64 entries in a line
//! evict                         drops the oldest table: whether there was one
//! ```
ghost use Rattle.std.specs.Prelude.{◌≡◌, ◌<◌, ◌≤◌, IfOk, None, true};
ghost use Rattle.cam6_cache.specs.Keys.{IsReversibleKey};
ghost use Rattle.cam6_cache.specs.declared.caches.TheConstants.{MAX_CAPACITY};
ghost use Rattle.cam6_table.specs.RuleTexts.{IsTableOf};

use crate::rules::inverses::cause_text;
use crate::rules::texts::{add_table, code_of, text_of};
use cam6_block::{NotReversible, invert};
use cam6_cache::laws::a_table_that_can_be_inverted_makes_its_key_reversible;
use cam6_cache::{Key, MAX_CAPACITY, TableCache};
use cam6_table::Table;
use cam6_try_examples::{Sent, add_line, no_memory, wiring_before};
use cam6_wiring::Wiring;
use std::alloc::Global;
use std::io;

/// A cache with the key that it is asked by, and room for the tables by which a rule is tried
/// first.
#[derive(Drop)]
struct TestedCache {
    cache: TableCache,
    key: Key,
    /// The table of the last load.
    out: Table,
    table: Table,
    inverse: Table,
}

impl TestedCache {
    /// Makes an empty cache of so many tables. A number below 1 counts as 1, and one above 64 as
    /// 64. Returns `None` if memory runs out.
    fn new(alloc: Global, capacity: usize) -> Option<TestedCache> {
        let capacity = capacity.clamp(1, MAX_CAPACITY);
        Some(TestedCache {
            cache: TableCache::new(alloc, capacity).ok()?,
            key: Key::scratch(alloc).ok()?,
            out: Table::blank(alloc).ok()?,
            table: Table::blank(alloc).ok()?,
            inverse: Table::blank(alloc).ok()?,
        })
    }
}

/// Does what each line says, at a new cache of so many tables, from 1 to 64. Returns what comes
/// back for each line. Fails if a line isn't UTF-8, or if memory runs out.
pub fn loads(alloc: Global, capacity: usize, sent: &[Sent]) -> io::Result<Vec<u8>> {
    let mut asked = TestedCache::new(alloc, capacity).ok_or(no_memory())?;
    let mut answers = Vec::new(alloc);
    for line in sent {
        answer_line(alloc, &mut answers, &mut asked, line.bytes.as_slice())?;
    }
    Ok(answers)
}

/// Does what a line says, and adds its answer. `load` and `undo` load a table or its inverse,
/// `table` shows the last one, and `evict` evicts the oldest. The answer to any other line is
/// `unread`. Fails if the line isn't UTF-8.
fn answer_line(
    alloc: Global,
    answers: &mut Vec<u8>,
    asked: &mut TestedCache,
    line: &[u8],
) -> io::Result<()> {
    let line = text_of(line)?;
    match line.split_once(' ').unwrap_or((line, "")) {
        ("load", rest) => add_load(alloc, answers, asked, rest, false),
        ("undo", rest) => add_load(alloc, answers, asked, rest, true),
        ("table", "") => add_table(answers, &asked.out),
        ("evict", "") => add_truth(answers, asked.cache.evict_oldest()),
        _ => add_line(answers, "unread"),
    }
}

/// Adds the line `true` or `false`.
fn add_truth(answers: &mut Vec<u8>, is_so: bool) -> io::Result<()> {
    add_line(answers, if is_so { "true" } else { "false" })
}

/// Loads the table that a line `HALF HOOD MINOR TEXT` asks for, or its inverse if `inverted`. Adds
/// the line `true` if the cache had it and else `false`, or why there is none. Adds `unread` if the
/// line doesn't begin so.
fn add_load(
    alloc: Global,
    answers: &mut Vec<u8>,
    asked: &mut TestedCache,
    rest: &str,
    inverted: bool,
) -> io::Result<()> {
    let Some((wiring, text)) = wiring_before(rest) else {
        return add_line(answers, "unread");
    };
    match load(alloc, asked, wiring, text, inverted)? {
        Ok(is_hit) => add_truth(answers, is_hit),
        Err(cause) => add_line(answers, cause.as_str()),
    }
}

/// Loads the table of a rule's text from the cache into `asked.out`, or its inverse if `inverted`.
/// Returns whether the cache had it, or the text for why there is none. Fails if memory runs out.
fn load(
    alloc: Global,
    asked: &mut TestedCache,
    wiring: Wiring,
    text: &str,
    inverted: bool,
) -> io::Result<Result<bool, String>> {
    let code = match code_of(alloc, wiring, text, &mut asked.table)? {
        Ok(code) => code,
        Err(fault) => return Ok(Err(fault)),
    };
    if let Some(cause) = why_refused(wiring, text, inverted, &asked.table, &mut asked.inverse) {
        return Ok(Err(cause_text(alloc, cause)?));
    }
    let key = &mut asked.key;
    key.set(wiring.half, wiring.hood, wiring.minor, text, inverted);
    Ok(Ok(asked.cache.load(key, &code, &mut asked.out)))
}

/// Returns why the inverse of a rule's table can't be loaded. Returns `None` if it can be, or if no
/// inverse is asked for. `table` is the table of `text`, which is for the contract only. Uses
/// `scratch` for the inverse.
fn why_refused(
    wiring: Wiring,
    text: &str,
    inverted: bool,
    table: &Table,
    scratch: &mut Table,
) -> Option<NotReversible>
    requires { IsTableOf wiring text.now table.now }
    ensures { result ≡ None → inverted ≡ true →
        IsReversibleKey (record { wiring = wiring; text = text.now; inverted = inverted }) }
{
    if !inverted {
        return None;
    }
    match invert(table, wiring.hood, wiring.minor, scratch) {
        Ok(()) => {
            a_table_that_can_be_inverted_makes_its_key_reversible();
            None
        }
        Err(cause) => Some(cause),
    }
}
