//! Replies and the faults of lines as lines of JSON.
ghost use Rattle.std.specs.Prelude.{◌≡◌, ◌≢◌, ◌≤◌, [], ◌∷◌, ◌++◌, None, Some, IfOk, IfSome, false, string_bytes};
ghost use Rattle.std.specs.Prelude.{length};
ghost use Rattle.std.specs.Prelude.{map, take};
ghost use Rattle.std.specs.Prelude.{◌<◌, ◌^◌, codes, decimal};
ghost use Rattle.std.specs.List.{AllByRecursion};
ghost use Rattle.std.specs.Str.{IsAscii};
ghost use Rattle.serde_json.specs.Data.{array, object, string, no_members, member};
ghost use Rattle.serde_json.specs.Data.{put as put_member};
ghost use Rattle.serde_json.specs.Read.{read};
ghost use Rattle.serde_json.specs.View.{view, members_view};
ghost use Rattle.cam6_wiring.specs.Name.{phase_number};
ghost use Rattle.cam6_wire.specs.Replies.{colour_digit, done, reply_data, reply_bytes};
ghost use Rattle.cam6_wire.specs.Numbers.{texts};
ghost use Rattle.cam6_wire.specs.Replies.{fault_bytes, cause_data, is_fixed};
ghost use Rattle.cam6_wire.specs.Numbers.{natural, naturals};
ghost use Rattle.cam6_wire.specs.Replies.{done_data, refusal_data};
ghost use Rattle.cam6_commands.specs.Limits.{max_colour};
ghost use Rattle.cam6_planes.specs.declared.row.TheConstants.{COLUMNS};

use crate::faults::LineFault;
use crate::objects::{with_member, with_text};
use crate::saved::{Version, machine_value};
use cam6_block::NotReversible;
use cam6_commands::{Done, Names, PlaneRows, Refusal, Reply, RowColours, RowText, SavedMachine};
use cam6_planes::{COLUMNS, NoMemory};
use cam6_wiring::{Half, Phase};
use json::Writer;
use serde_json::{Map, Value, json};
use std::alloc::{AllocError, Global};

const HEX_DIGITS: [u8; 16] = *b"0123456789abcdef";

/// The bytes of the longest reply that shows a row, with its LF, and a few more.
const SHORT_LINE: usize = 160;

/// Returns the line that reports a reply, without its LF. Its keys are in byte order.
pub fn reply_text(alloc: Global, reply: &Reply) -> Result<String, NoMemory>
    ensures text { IfOk result (λ text. string_bytes text ≡ reply_bytes reply.now) }
    ensures value { IfOk result (λ text. read (string_bytes text) ≡ Some (reply_data reply.now)) }
{
    let Reply::Done(done) = reply else {
        return value_text(alloc, reply);
    };
    match done {
        // These are sent most, so their texts are made without a JSON value in between.
        Done::Run { position } => {
            Ok(number_text(alloc, "{\"ok\":\"run\",\"position\":", *position)?)
        }
        Done::Back { position } => {
            Ok(number_text(alloc, "{\"ok\":\"back\",\"position\":", *position)?)
        }
        Done::Row { bits } => Ok(row_text(alloc, bits)?),
        _ => value_text(alloc, reply),
    }
}

/// Returns the line of a reply, without its LF, written from its JSON value.
fn value_text(alloc: Global, reply: &Reply) -> Result<String, NoMemory>
    ensures text { IfOk result (λ text. string_bytes text ≡ reply_bytes reply.now) }
    ensures value { IfOk result (λ text. read (string_bytes text) ≡ Some (reply_data reply.now)) }
{
    Ok(reply_value(alloc, reply)?.to_string(alloc)?)
}

/// Returns the text that is `front`, a decimal number and `}`.
fn number_text(alloc: Global, front: &str, n: usize) -> Result<String, AllocError>
    ensures text { IfOk result (λ text. string_bytes text ≡ front.now ++ decimal n ++ codes "}") }
    ensures fits { n < 2 ^ 64 }
{
    let mut text = String::with_capacity(alloc, SHORT_LINE)?;
    text.push_str(front)?;
    text.push_str(itoa::Buffer::new().format(n))?;
    text.push_str("}")?;
    Ok(text)
}

/// Returns the line of the reply to a command that shows a row, without its LF. Its keys are in
/// byte order.
fn row_text(alloc: Global, bits: &RowText) -> Result<String, AllocError>
    ensures { IfOk result (λ text. string_bytes text
        ≡ reply_bytes (Reply.Done (Done.Row bits.now))) }
{
    let mut writer = Writer::new(Vec::with_capacity(alloc, SHORT_LINE)?);
    writer.begin_object()?;
    writer.key("bits")?;
    writer.string(digits(bits.as_slice()))?;
    writer.key("ok")?;
    writer.string("row")?;
    writer.end_object()?;
    Ok(String::from_utf8(writer.into_inner()).unwrap())
}

/// Returns the line, with its LF, of a reply that only says what was done, such as `{"ok":"set"}`.
/// Returns `None` for any other reply. Does not allocate.
pub fn fixed_line(reply: &Reply) -> Option<&'static str>
    ensures { IfSome result (λ line. line.now ≡ reply_bytes reply.now ++ 10 ∷ []) }
{
    let Reply::Done(done) = reply else {
        return None;
    };
    match done {
        Done::Set => Some("{\"ok\":\"set\"}\n"),
        Done::Clear => Some("{\"ok\":\"clear\"}\n"),
        Done::Rule => Some("{\"ok\":\"rule\"}\n"),
        Done::Drop => Some("{\"ok\":\"drop\"}\n"),
        Done::Cycle => Some("{\"ok\":\"cycle\"}\n"),
        Done::Side => Some("{\"ok\":\"side\"}\n"),
        Done::Map => Some("{\"ok\":\"map\"}\n"),
        Done::Load => Some("{\"ok\":\"load\"}\n"),
        _ => None,
    }
}

/// Returns the line, without its LF, of a reply that only says what was done, such as
/// `{"ok":"set"}`. Returns `None` for any other reply. Does not allocate.
pub fn fixed_text(reply: &Reply) -> Option<&'static str>
    ensures text { IfSome result (λ text. text.now ≡ reply_bytes reply.now) }
    ensures others { result ≡ None → is_fixed reply.now ≡ false }
{
    let Reply::Done(done) = reply else {
        return None;
    };
    match done {
        Done::Set => Some("{\"ok\":\"set\"}"),
        Done::Clear => Some("{\"ok\":\"clear\"}"),
        Done::Rule => Some("{\"ok\":\"rule\"}"),
        Done::Drop => Some("{\"ok\":\"drop\"}"),
        Done::Cycle => Some("{\"ok\":\"cycle\"}"),
        Done::Side => Some("{\"ok\":\"side\"}"),
        Done::Map => Some("{\"ok\":\"map\"}"),
        Done::Load => Some("{\"ok\":\"load\"}"),
        _ => None,
    }
}

/// Returns the line that reports a line's fault other than `NoMemory`, which has none. It has no
/// LF. Does not allocate.
pub fn fault_text(fault: LineFault) -> &'static str
    requires fault { fault ≢ LineFault.NoMemory }
    ensures { result.now ≡ fault_bytes fault }
{
    match fault {
        LineFault::NoMemory => unreachable!(),
        LineFault::TooLong => "{\"fault\":1}",
        LineFault::NoJson => "{\"fault\":2}",
        LineFault::NoCommand => "{\"fault\":3}",
        LineFault::OtherSpelling => "{\"fault\":4}",
    }
}

/// Returns the line that reports a line's fault other than `NoMemory`, which has none. It has its
/// LF. Does not allocate.
pub fn fault_line(fault: LineFault) -> &'static str
    requires fault { fault ≢ LineFault.NoMemory }
    ensures { result.now ≡ fault_bytes fault ++ 10 ∷ [] }
{
    match fault {
        LineFault::NoMemory => unreachable!(),
        LineFault::TooLong => "{\"fault\":1}\n",
        LineFault::NoJson => "{\"fault\":2}\n",
        LineFault::NoCommand => "{\"fault\":3}\n",
        LineFault::OtherSpelling => "{\"fault\":4}\n",
    }
}

/// Returns the JSON value of a reply: an object with `ok` or with `fault`.
pub(crate) fn reply_value(alloc: Global, reply: &Reply) -> Result<Value, AllocError>
    ensures { IfOk result (λ value. view value ≡ reply_data reply.now) }
{
    match reply {
        Reply::Done(done) => done_value(alloc, done),
        Reply::Refused(refusal) => refusal_value(alloc, *refusal),
    }
}

/// Returns the JSON value of what a command did: `ok` with the command's word, and what the command
/// shows.
fn done_value(alloc: Global, done: &Done) -> Result<Value, AllocError>
    ensures { IfOk result (λ value. view value ≡ done_data done.now) }
{
    match done {
        Done::Set => ok_value(alloc, "set"),
        Done::Clear => ok_value(alloc, "clear"),
        Done::Rule => ok_value(alloc, "rule"),
        Done::Drop => ok_value(alloc, "drop"),
        Done::Rules { names } => rules_value(alloc, names),
        Done::Cycle => ok_value(alloc, "cycle"),
        Done::Side => ok_value(alloc, "side"),
        Done::Map => ok_value(alloc, "map"),
        Done::Run { position } => moved_value(alloc, "run", *position),
        Done::Back { position } => moved_value(alloc, "back", *position),
        Done::Row { bits } => row_value(alloc, bits),
        Done::Plane { rows } => plane_value(alloc, rows),
        Done::Colours { colours } => coloured_value(alloc, colours),
        Done::Count { count } => ok_value_with(alloc, "count", "count", Value::from(*count)),
        Done::Save { machine } => save_value(alloc, machine),
        Done::Load => ok_value(alloc, "load"),
    }
}

/// Returns the JSON value of the reply to a command that shows a row.
fn row_value(alloc: Global, bits: &RowText) -> Result<Value, AllocError>
    ensures { IfOk result (λ value. view value ≡ done_data (Done.Row bits.now)) }
{
    let bits = Value::try_from_str(alloc, digits(bits.as_slice()))?;
    ok_value_with(alloc, "row", "bits", bits)
}

/// Returns the JSON value of the reply to a command that lists the rules: `ok` with `rules`, and
/// `names` with an array of the names.
fn rules_value(alloc: Global, names: &Names) -> Result<Value, AllocError>
    ensures { IfOk result (λ value. view value ≡ done_data (Done.Rules names.now)) }
{
    let names = names_value(alloc, names)?;
    ok_value_with(alloc, "rules", "names", names)
}

/// Returns the JSON value of the reply to a command that shows all rows of a plane.
fn plane_value(alloc: Global, rows: &PlaneRows) -> Result<Value, AllocError>
    ensures { IfOk result (λ value. view value ≡ done_data (Done.Plane rows.now)) }
{
    let rows = rows_value(alloc, rows)?;
    ok_value_with(alloc, "plane", "rows", rows)
}

/// Returns the JSON value of the reply to a command that shows a row in colours.
fn coloured_value(alloc: Global, colours: &RowColours) -> Result<Value, AllocError>
    ensures { IfOk result (λ value. view value ≡ done_data (Done.Colours colours.now)) }
{
    let colours = colours_value(alloc, colours)?;
    ok_value_with(alloc, "colours", "colours", colours)
}

/// Returns the JSON value of the reply to a command that saves the machine.
fn save_value(alloc: Global, machine: &SavedMachine) -> Result<Value, AllocError>
    ensures { IfOk result (λ value. view value ≡ done_data (Done.Save machine.now)) }
{
    let machine = machine_value(alloc, Version::Second, machine)?;
    ok_value_with(alloc, "save", "machine", machine)
}

/// Returns the JSON value of a refusal: `fault` with its number. It also has where the fault lies,
/// as `token`, `address` or `entry` and `half`, if it lies somewhere.
fn refusal_value(alloc: Global, refusal: Refusal) -> Result<Value, AllocError>
    ensures { IfOk result (λ value. view value ≡ refusal_data refusal) }
{
    match refusal {
        Refusal::Fault(fault) => json!(in alloc; {"fault": fault.number()}),
        Refusal::Text(fault) => fault_value(alloc, fault.number, "token", Value::from(fault.token)),
        Refusal::Stops { address, fault } => {
            fault_value(alloc, fault.number(), "address", Value::from(address))
        }
        Refusal::NotReversible { entry, half, cause } => cause_value(alloc, entry, half, cause),
    }
}

/// Returns the JSON value of a fault: `fault` with its number, and one more member, the value
/// `told` at this key.
fn fault_value(alloc: Global, fault: u8, key: &str, told: Value) -> Result<Value, AllocError>
    ensures { IfOk result (λ value. view value ≡ object
        (put_member (codes "fault") (natural fault) (put_member key.now (view told) no_members))) }
{
    json!(in alloc; {key: told, "fault": fault})
}

/// Returns the JSON value of the reply to `run` or `back`: `ok` with this word, and the position in
/// the cycle after the steps.
fn moved_value(alloc: Global, word: &str, position: usize) -> Result<Value, AllocError>
    ensures { IfOk result (λ value.
        view value ≡ done word.now (member (codes "position") (natural position) no_members)) }
{
    ok_value_with(alloc, word, "position", Value::from(position))
}

/// Returns the JSON value of the refusal to undo a step of an entry, with the cause why the half's
/// rule can't be undone. Entries are numbered from 0.
fn cause_value(
    alloc: Global,
    entry: usize,
    half: Half,
    cause: NotReversible,
) -> Result<Value, AllocError>
    ensures { IfOk result (λ value. view value ≡ cause_data entry half cause) }
{
    let half = half.text();
    let fault = cause.number();
    match cause {
        NotReversible::Hood => plain_cause(alloc, "hood", entry, fault, half),
        NotReversible::Centres => plain_cause(alloc, "centres", entry, fault, half),
        NotReversible::Meeting { phase, a, b } => {
            let members = cause_members(alloc, "meeting", entry, fault, half)?;
            meeting_value(alloc, members, phase, a, b)
        }
    }
}

/// Returns the JSON value of a cause of this word that has no members of its own: `cause`, `entry`,
/// `fault` and `half`.
fn plain_cause(
    alloc: Global,
    word: &str,
    entry: usize,
    fault: u8,
    half: &str,
) -> Result<Value, AllocError>
    ensures { IfOk result (λ value. view value ≡ object
        (member (codes "cause") (string word.now)
        (member (codes "entry") (natural entry)
        (member (codes "fault") (natural fault)
        (member (codes "half") (string half.now) no_members))))) }
{
    let members = cause_members(alloc, word, entry, fault, half)?;
    Ok(Value::Object(members))
}

/// Returns the members that every cause has: `cause` with this word, `entry`, `fault` and `half`.
fn cause_members(
    alloc: Global,
    word: &str,
    entry: usize,
    fault: u8,
    half: &str,
) -> Result<Map<String, Value>, AllocError>
    ensures { IfOk result (λ members. members_view members.entries
        ≡ member (codes "cause") (string word.now)
        (member (codes "entry") (natural entry)
        (member (codes "fault") (natural fault)
        (member (codes "half") (string half.now) no_members)))) }
{
    let members = with_text(alloc, Map::new(alloc), "cause", word)?;
    let members = with_member(alloc, members, "entry", Value::from(entry))?;
    let members = with_member(alloc, members, "fault", Value::from(fault))?;
    with_text(alloc, members, "half", half)
}

/// Returns the JSON value of a cause by which two states, `a` and `b`, become one: these members,
/// `phase` and `states`.
fn meeting_value(
    alloc: Global,
    members: Map<String, Value>,
    phase: Phase,
    a: u8,
    b: u8,
) -> Result<Value, AllocError>
    ensures { IfOk result (λ value. view value ≡ object
        (put_member (codes "states") (array (naturals (a ∷ b ∷ [])))
        (put_member (codes "phase") (natural (phase_number phase))
        (members_view members.entries)))) }
{
    let members = with_member(alloc, members, "phase", Value::from(phase.number()))?;
    let states = json!(in alloc; [a, b])?;
    let members = with_member(alloc, members, "states", states)?;
    Ok(Value::Object(members))
}

/// Returns the JSON value of a command or an event that is done: `ok` with its word, and no other
/// member.
pub(crate) fn ok_value(alloc: Global, word: &str) -> Result<Value, AllocError>
    ensures { IfOk result (λ value. view value ≡ done word.now no_members) }
{
    json!(in alloc; {"ok": word})
}

/// Returns the JSON value of a command or an event that is done: `ok` with its word, and `told` at
/// this key.
pub(crate) fn ok_value_with(
    alloc: Global,
    word: &str,
    key: &str,
    told: Value,
) -> Result<Value, AllocError>
    ensures { IfOk result (λ value. view value ≡ object
        (put_member (codes "ok") (string word.now)
        (put_member key.now (view told) no_members))) }
{
    json!(in alloc; {key: told, "ok": word})
}

/// Returns a JSON array with a text of the digits of each row.
fn rows_value(alloc: Global, rows: &PlaneRows) -> Result<Value, AllocError>
    ensures { IfOk result (λ value. view value ≡ array (texts rows.now)) }
{
    let mut values = Vec::new(alloc);
    for row in rows.as_slice() {
        values.push(Value::try_from_str(alloc, digits(row.as_slice()))?)?;
    }
    Ok(Value::Array(values))
}

/// Returns a JSON array of the text of each name.
fn names_value(alloc: Global, names: &Names) -> Result<Value, AllocError>
    ensures { IfOk result (λ value. view value ≡ array (texts names.now)) }
{
    let mut values = Vec::new(alloc);
    for name in names.as_slice() {
        values.push(Value::try_from_str(alloc, name.as_str())?)?;
    }
    Ok(Value::Array(values))
}

/// Returns a JSON text of a hexadecimal digit for each colour of the row.
fn colours_value(alloc: Global, colours: &RowColours) -> Result<Value, AllocError>
    ensures { IfOk result (λ value. view value ≡ string (map colour_digit colours.now)) }
{
    let colours = colours.as_slice();
    let text = colour_digits(colours);
    Value::try_from_str(alloc, digits(&text[..colours.len()]))
}

/// Returns an array that begins with the hexadecimal digit of each colour, in lower case. There are
/// at most 512 colours, each below 16. The rest of the array is 0.
fn colour_digits(colours: &[u8]) -> [u8; COLUMNS]
    requires few { length colours.now ≤ COLUMNS }
    requires small { AllByRecursion (λ colour. colour ≤ max_colour) colours.now }
    ensures digits { take (length colours.now) result ≡ map colour_digit colours.now }
    ensures ascii { IsAscii (take (length colours.now) result) }
{
    let mut text = [0; COLUMNS];
    for x in 0..colours.len() {
        text[x] = HEX_DIGITS[usize::from(colours[x])];
    }
    text
}

/// Returns these bytes, which have to be ASCII, as text.
fn digits(row: &[u8]) -> &str
    requires row { IsAscii row.now }
    ensures { result.now ≡ row.now }
{
    std::str::from_utf8(row).unwrap()
}
