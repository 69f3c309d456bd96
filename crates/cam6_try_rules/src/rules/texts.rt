//! Texts of rules: their first faults, what is kept of them, their entries and tables.
ghost use Rattle.std.specs.Prelude.{IfOk, OnOk};
ghost use Rattle.cam6_table.specs.RuleTexts.{IsCodeFor, IsTableOf};

use cam6_forth::{Definition, ParseFault, Rule, TextFault, Word, parse_under};
use cam6_table::{Code, ENTRIES, MAX_EVAL_STEPS, NotCompiled, RuleFault, Table, compile, eval};
use cam6_try_examples::{Sent, add_line, no_memory};
use cam6_wiring::Wiring;
use std::alloc::Global;
use std::io;

/// Entries in a line of a table.
const LINE: u16 = 64;

/// Returns the rule of a text under this wiring, or the text's first fault. Fails if the text isn't
/// UTF-8, or if memory runs out.
pub fn read_rule(
    alloc: Global,
    wiring: Wiring,
    text: &[u8],
) -> io::Result<Result<Rule, TextFault>> {
    match parse_under(alloc, text_of(text)?, wiring) {
        Ok(rule) => Ok(Ok(rule)),
        Err(ParseFault::Text(fault)) => Ok(Err(fault)),
        Err(ParseFault::NoMemory) => Err(no_memory()),
    }
}

/// Returns these bytes as a text. Fails with `InvalidData` if they aren't UTF-8.
pub fn text_of(bytes: &[u8]) -> io::Result<&str> {
    str::from_utf8(bytes).map_err(|_| io::Error::from(io::ErrorKind::InvalidData))
}

/// Returns the line of a fault in a rule's text, with the numbers of the fault and of its token. It
/// has no LF.
fn text_fault(alloc: Global, fault: TextFault) -> io::Result<String> {
    let (number, token) = (fault.number, fault.token);
    Ok(format!(in alloc; r#"{{"fault":{number},"token":{token}}}"#)?)
}

/// Returns the line of a fault at which a rule stops, with its number and without its LF.
pub fn rule_fault(alloc: Global, fault: RuleFault) -> io::Result<String> {
    let number = fault.number();
    Ok(format!(in alloc; r#"{{"fault":{number}}}"#)?)
}

/// What is shown of a rule.
#[derive(Clone, Copy)]
pub enum Shown<'a> {
    /// That its text has no fault.
    Nothing,
    /// Its wiring, and each definition's name, size and words.
    Definitions,
    /// The entries at these addresses, in one line. A fault stands where the rule stops.
    Entries(&'a [u16]),
}

/// Reads each text as a rule. Returns what is to be shown of each, or the line of the text's first
/// fault. Fails if a text isn't UTF-8, or if memory runs out.
pub fn answered(
    alloc: Global,
    wiring: Wiring,
    shown: Shown<'_>,
    sent: &[Sent],
) -> io::Result<Vec<u8>> {
    let mut answers = Vec::new(alloc);
    for text in sent {
        match read_rule(alloc, wiring, text.bytes.as_slice())? {
            Ok(rule) => add_shown(alloc, &mut answers, &rule, shown)?,
            Err(fault) => add_line(&mut answers, text_fault(alloc, fault)?.as_str())?,
        }
    }
    Ok(answers)
}

/// Adds a line with what is to be shown of a rule to `answers`: `ok`, its definitions, or some of
/// its entries.
fn add_shown(
    alloc: Global,
    answers: &mut Vec<u8>,
    rule: &Rule,
    shown: Shown<'_>,
) -> io::Result<()> {
    match shown {
        Shown::Nothing => add_line(answers, r#"{"ok":"rule"}"#),
        Shown::Definitions => add_rule(alloc, answers, rule),
        Shown::Entries(addresses) => add_entries(alloc, answers, rule, addresses),
    }
}

/// Adds a line with a rule's wiring, and the name, size and words of each definition.
fn add_rule(alloc: Global, answers: &mut Vec<u8>, rule: &Rule) -> io::Result<()> {
    let wiring = rule.wiring();
    let (half, hood) = (wiring.half.text(), wiring.hood.text());
    let minor = wiring.minor.text();
    let head = format!(in alloc; "{half} {hood} {minor}")?;
    answers.extend_from_slice(head.as_bytes())?;
    for definition in rule.definitions() {
        add_definition(alloc, answers, definition)?;
    }
    answers.push(b'\n')?;
    Ok(())
}

/// Adds the name, size and words of a definition, within a line.
fn add_definition(alloc: Global, answers: &mut Vec<u8>, definition: &Definition) -> io::Result<()> {
    answers.extend_from_slice(b" | ")?;
    answers.extend_from_slice(definition.name.as_slice())?;
    let size = format!(in alloc; " {}", definition.size)?;
    answers.extend_from_slice(size.as_bytes())?;
    for word in &definition.words {
        let word = word_text(alloc, *word)?;
        answers.extend_from_slice(word.as_bytes())?;
    }
    Ok(())
}

/// Returns a space and the name of a word.
fn word_text(alloc: Global, word: Word) -> io::Result<String> {
    match word {
        Word::Single(said) => Ok(format!(in alloc; " {said:?}")?),
        mark => Ok(format!(in alloc; " {mark:?}")?),
    }
}

/// Adds a line with a rule's entries at these addresses, in decimal, with spaces between them.
/// Where the rule stops, it has the fault.
fn add_entries(
    alloc: Global,
    answers: &mut Vec<u8>,
    rule: &Rule,
    addresses: &[u16],
) -> io::Result<()> {
    let code = Code::of(alloc, rule).map_err(|_| no_memory())?;
    for (i, address) in addresses.iter().enumerate() {
        if i > 0 {
            answers.push(b' ')?;
        }
        let mut steps = MAX_EVAL_STEPS;
        let entry = match eval(&code, *address, &mut steps) {
            Ok(entry) => format!(in alloc; "{entry}")?,
            Err(fault) => rule_fault(alloc, fault)?,
        };
        answers.extend_from_slice(entry.as_bytes())?;
    }
    answers.push(b'\n')?;
    Ok(())
}

/// Returns the table of each rule's text, in lines of 64 digits. If a text has none, returns its
/// fault, or the least address at which the rule stops. Fails if a text isn't UTF-8, or if memory
/// runs out.
pub fn tables(alloc: Global, wiring: Wiring, sent: &[Sent]) -> io::Result<Vec<u8>> {
    let mut answers = Vec::new(alloc);
    let mut table = Table::blank(alloc).map_err(|_| no_memory())?;
    add_tables(alloc, &mut answers, wiring, sent, &mut table)?;
    Ok(answers)
}

/// Adds the table of each rule's text to `answers`, in lines of 64 entries. If a text has none,
/// adds its fault, or the least address at which the rule stops. Uses `table` as scratch.
fn add_tables(
    alloc: Global,
    answers: &mut Vec<u8>,
    wiring: Wiring,
    sent: &[Sent],
    table: &mut Table,
) -> io::Result<()> {
    for text in sent {
        match fill_by_text(alloc, wiring, text, table)? {
            Ok(()) => add_table(answers, table)?,
            Err(fault) => add_line(answers, fault.as_str())?,
        }
    }
    Ok(())
}

/// Fills `table` by a rule's text. Or returns the line of the text's fault, or of the least address
/// at which the rule stops. Fails if the text isn't UTF-8, or if memory runs out.
pub fn fill_by_text(
    alloc: Global,
    wiring: Wiring,
    text: &Sent,
    table: &mut Table,
) -> io::Result<Result<(), String>> {
    match code_of(alloc, wiring, text_of(text.bytes.as_slice())?, table)? {
        Ok(_) => Ok(Ok(())),
        Err(fault) => Ok(Err(fault)),
    }
}

/// Compiles a rule's text, and fills `table` by it. Returns the code. Or returns the line of the
/// text's fault, or of the least address at which the rule stops. Fails if memory runs out.
pub fn code_of(
    alloc: Global,
    wiring: Wiring,
    text: &str,
    table: &mut Table,
) -> io::Result<Result<Code, String>>
    ensures code { IfOk result (λ read. IfOk read (λ code. IsCodeFor wiring text.now code)) }
    ensures table { IfOk result (λ read. OnOk read (IsTableOf wiring text.now table.new)) }
{
    match compile(alloc, wiring, text, table) {
        Ok(code) => Ok(Ok(code)),
        Err(NotCompiled::Text(fault)) => Ok(Err(text_fault(alloc, fault)?)),
        Err(NotCompiled::Stops { address, fault }) => {
            let number = fault.number();
            let stop = format!(in alloc; r#"{{"address":{address},"fault":{number}}}"#)?;
            Ok(Err(stop))
        }
        Err(NotCompiled::NoMemory) => Err(no_memory()),
    }
}

/// Adds a table's entries to `output`, in the order of their addresses. Each is a digit from 0 to
/// 3. An LF comes after every 64.
pub fn add_table(output: &mut Vec<u8>, table: &Table) -> io::Result<()> {
    for address in 0..ENTRIES {
        output.push(b"0123"[usize::from(table.at(address) & 3)])?;
        if address % LINE == LINE - 1 {
            output.push(b'\n')?;
        }
    }
    Ok(())
}
