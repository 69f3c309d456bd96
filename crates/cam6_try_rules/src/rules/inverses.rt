//! Inverses of the tables of rules.

use crate::rules::texts::{add_table, fill_by_text};
use cam6_block::{NotReversible, invert};
use cam6_table::Table;
use cam6_try_examples::{Sent, add_line, no_memory};
use cam6_wiring::Wiring;
use std::alloc::Global;
use std::io;

/// How often a rule's table is inverted.
#[derive(Clone, Copy)]
pub enum Times {
    Once,
    Twice,
}

/// Scratch for a table, and for its inverse.
#[derive(Drop)]
struct Scratch {
    table: Table,
    inverse: Table,
}

/// Inverts the table of each rule's text, once or twice. Returns the entries of each result in
/// lines of 64 digits, or a line for why there is none. Fails if a text isn't UTF-8, or if memory
/// runs out.
pub fn inverses(alloc: Global, wiring: Wiring, times: Times, sent: &[Sent]) -> io::Result<Vec<u8>> {
    let table = Table::blank(alloc).map_err(|_| no_memory())?;
    let inverse = Table::blank(alloc).map_err(|_| no_memory())?;
    let mut scratch = Scratch { table, inverse };
    let mut answers = Vec::new(alloc);
    for text in sent {
        match filled(alloc, wiring, times, text, &mut scratch)? {
            Ok(()) => add_table(&mut answers, &scratch.inverse)?,
            Err(cause) => add_line(&mut answers, cause.as_str())?,
        }
    }
    Ok(answers)
}

/// Inverts the table of a rule's text, once or twice, into `scratch.inverse`. Or returns the text
/// for the fault, for where the rule stops, or for why there is no inverse.
fn filled(
    alloc: Global,
    wiring: Wiring,
    times: Times,
    text: &Sent,
    scratch: &mut Scratch,
) -> io::Result<Result<(), String>> {
    let first = inverse_of_text(
        alloc,
        wiring,
        text,
        &mut scratch.table,
        &mut scratch.inverse,
    )?;
    match (first, times) {
        (Ok(()), Times::Twice) => {
            std::mem::swap(&mut scratch.table, &mut scratch.inverse);
            inverse_of(alloc, wiring, &scratch.table, &mut scratch.inverse)
        }
        (first, _) => Ok(first),
    }
}

/// Fills `table` by a rule's text, and `inverse` with its inverse. Or returns the text for the
/// fault, for the least address at which the rule stops, or for why there is no inverse.
fn inverse_of_text(
    alloc: Global,
    wiring: Wiring,
    text: &Sent,
    table: &mut Table,
    inverse: &mut Table,
) -> io::Result<Result<(), String>> {
    match fill_by_text(alloc, wiring, text, table)? {
        Ok(()) => inverse_of(alloc, wiring, table, inverse),
        Err(fault) => Ok(Err(fault)),
    }
}

/// Fills `inverse` with the inverse of a table, or returns the text for why the table has none.
fn inverse_of(
    alloc: Global,
    wiring: Wiring,
    table: &Table,
    inverse: &mut Table,
) -> io::Result<Result<(), String>> {
    match invert(table, wiring.hood, wiring.minor, inverse) {
        Ok(()) => Ok(Ok(())),
        Err(cause) => Ok(Err(cause_text(alloc, cause)?)),
    }
}

/// Returns the text for why a table has no inverse: `hood`, `centres`, or `meeting` with the phase
/// and the two addresses. It has no LF.
pub fn cause_text(alloc: Global, cause: NotReversible) -> io::Result<String> {
    match cause {
        NotReversible::Hood => Ok(String::from_str(alloc, "hood")?),
        NotReversible::Centres => Ok(String::from_str(alloc, "centres")?),
        NotReversible::Meeting { phase, a, b } => {
            let number = phase.number();
            Ok(format!(in alloc; "meeting at phase {number} of {a} and {b}")?)
        }
    }
}
