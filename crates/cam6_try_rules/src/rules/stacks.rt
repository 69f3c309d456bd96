//! What words leave on the stack, as far as rules can find out by what they write.

use crate::rules::texts::{read_rule, rule_fault};
use cam6_table::{Code, MAX_EVAL_STEPS, RuleFault, eval};
use cam6_try_examples::{Sent, add_line, no_memory};
use cam6_wiring::{Half, Hood, Minor, Wiring};
use std::alloc::Global;
use std::io;

/// The most values that a stack holds.
const VALUES: u32 = 32;

/// Returns a line for each text's words: the values that they leave on the stack, the top value
/// last, or the fault at which they stop. A full stack, of 32 values, can't be read, since that
/// takes room for one value. Fails if words aren't a rule's body.
pub fn stacks(alloc: Global, sent: &[Sent]) -> io::Result<Vec<u8>> {
    let mut answers = Vec::new(alloc);
    for text in sent {
        let words = str::from_utf8(text.bytes.as_slice()).unwrap_or("");
        match written_by(alloc, words)? {
            Ok(_) => add_values(alloc, &mut answers, words)?,
            Err(fault) => add_line(&mut answers, rule_fault(alloc, fault)?.as_str())?,
        }
    }
    Ok(answers)
}

/// Returns the entry that a definition with this body writes at address 0, or the fault at which it
/// stops. Fails if the body isn't one of a rule, or if memory runs out.
fn written_by(alloc: Global, body: &str) -> io::Result<Result<u8, RuleFault>> {
    let text = format!(in alloc; ": R {body} ;")?;
    let wiring = Wiring {
        half: Half::A,
        hood: Hood::VonNeumann,
        minor: Minor::Centers,
    };
    let rule = read_rule(alloc, wiring, text.as_bytes())?.map_err(|_| io::Error::from(
        io::ErrorKind::InvalidData,
    ))?;
    let code = Code::of(alloc, &rule).map_err(|_| no_memory())?;
    let mut steps = MAX_EVAL_STEPS;
    Ok(eval(&code, 0, &mut steps))
}

/// Returns the text of the words, and then of ` DROP` as often as `values` says.
fn dropping(alloc: Global, words: &str, values: u32) -> io::Result<String> {
    let mut body = String::from_str(alloc, words)?;
    for _ in 0..values {
        body.push_str(" DROP")?;
    }
    Ok(body)
}

/// Adds a line with the values that words leave on the stack, in decimal, the top value last. The
/// words stop at no fault.
fn add_values(alloc: Global, answers: &mut Vec<u8>, words: &str) -> io::Result<()> {
    let mut left = 0;
    for values in 1..=VALUES {
        let body = dropping(alloc, words, values)?;
        if written_by(alloc, body.as_str())?.is_ok() {
            left = values;
        }
    }
    let mut line = String::new(alloc);
    for above in (0..left).rev() {
        let body = dropping(alloc, words, above)?;
        let value = top_value(alloc, body.as_str())?;
        let space = if line.is_empty() { "" } else { " " };
        line.push_str(&format!(in alloc; "{space}{value}")?)?;
    }
    add_line(answers, line.as_str())
}

/// Returns the top value that a body leaves, which is found bit by bit from the lowest.
fn top_value(alloc: Global, body: &str) -> io::Result<u16> {
    let mut value = 0;
    let mut bit: u16 = 1;
    for _ in 0..16 {
        let test = format!(in alloc; "{body} {bit} AND 0= >PLN0")?;
        if written_by(alloc, test.as_str())? == Ok(0) {
            value |= bit;
        }
        bit = bit.wrapping_mul(2);
    }
    Ok(value)
}
