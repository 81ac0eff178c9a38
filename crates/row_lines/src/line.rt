//! A row as a line, and back.

ghost use Rattle.std.specs.Prelude.{◌≡◌, ◌<◌, ◌^◌, IfOk, IfSome, OnOk, Ok, true, Some, codes};
ghost use Rattle.hex.specs.Hex.{decode_of, encode_lower};
ghost use Rattle.serde_json.specs.Data.{object, string, no_members, put};
ghost use Rattle.serde_json.specs.View.{view, members_view};
ghost use Rattle.row_lines.specs.Lines.{row_in, framed, due_data};

use crate::fields::members_of;
use crate::layout::layout;
use crate::reading::row_of;
use crate::word::kind_word;
use api_json::Tree;
use broker_types::{TextBuf, is_same};
use records::{Due, Entry, Row};
use serde_json::{Map, Value, put};
use std::alloc::{AllocError, Global};

/// The row that a line is, without its line feed; none if it is that of no row. The only error is running out of
/// memory.
pub fn row_in(alloc: Global, line: &str) -> Result<Option<Entry>, AllocError>
    ensures { IfOk result (λ row. row ≡ row_in line.now) }
{
    let Some(tree) = Tree::read(alloc, line.as_bytes())? else {
        return Ok(None);
    };
    let compact = tree.to_text(alloc)?;
    if !is_same(compact.as_str(), line) {
        return Ok(None);
    }
    match tree.value().as_object() {
        Some(members) => row_of(alloc, members),
        None => Ok(None),
    }
}

/// The line of a row, without a line feed, of which `row_in` answers the row: with its fields if its body is in its
/// format, or else with the body in digits. The only error is running out of memory.
pub fn line_of(alloc: Global, entry: &Entry) -> Result<TextBuf, AllocError>
    ensures { IfOk result (λ line. row_in line ≡ Some entry.now) }
{
    if let Some(line) = fields_line(alloc, entry)? {
        if reads_as(alloc, line.as_str(), entry)? {
            return Ok(line);
        }
    }
    damaged_line(alloc, entry)
}

/// Whether a line is read as a row.
fn reads_as(alloc: Global, line: &str, entry: &Entry) -> Result<bool, AllocError>
    ensures { IfOk result (λ holds. holds ≡ true → row_in line.now ≡ Some entry.now) }
{
    match row_in(alloc, line)? {
        Some(read) => Ok(is_equal(&read, entry)),
        None => Ok(false),
    }
}

/// Whether two rows are one, with their kinds and keys.
fn is_equal(a: &Entry, b: &Entry) -> bool
    ensures { result ≡ true → a.now ≡ b.now }
{
    a.kind == b.kind
        && is_equal_text(a.key.as_str(), b.key.as_str())
        && is_equal_row(&a.row, &b.row)
}

fn is_equal_row(a: &Row, b: &Row) -> bool
    ensures { result ≡ true → a.now ≡ b.now }
{
    is_equal_text(a.owner.as_str(), b.owner.as_str())
        && is_equal_due(a.due, b.due)
        && is_equal_bytes(a.body.as_slice(), b.body.as_slice())
}

fn is_equal_text(a: &str, b: &str) -> bool
    ensures { result ≡ true → a.now ≡ b.now }
{
    a == b
}

fn is_equal_bytes(a: &[u8], b: &[u8]) -> bool
    ensures { result ≡ true → a.now ≡ b.now }
{
    a == b
}

fn is_equal_due(a: Option<Due>, b: Option<Due>) -> bool
    ensures { result ≡ true → a ≡ b }
{
    match (a, b) {
        (None, None) => true,
        (Some(a), Some(b)) => a.seconds() == b.seconds(),
        _ => false,
    }
}

/// The line of a row with its fields, if its body has them.
fn fields_line(alloc: Global, entry: &Entry) -> Result<Option<TextBuf>, AllocError> {
    let Some((format, bytes)) = entry.row.body.as_slice().split_first() else {
        return Ok(None);
    };
    let format = u64::from(*format);
    let Some(layout) = layout(entry.kind, format) else {
        return Ok(None);
    };
    let Some(fields) = members_of(alloc, layout, bytes)? else {
        return Ok(None);
    };
    let mut members = Map::new(alloc);
    put(&mut members, alloc, "fields", Value::Object(fields))?;
    put(&mut members, alloc, "format", Value::from(format))?;
    let line = framed(alloc, members, entry)?;
    Ok(Some(TextBuf::new(line.to_string(alloc)?)))
}

/// The line of a row with its body in digits.
fn damaged_line(alloc: Global, entry: &Entry) -> Result<TextBuf, AllocError>
    ensures { IfOk result (λ line. row_in line ≡ Some entry.now) }
{
    let members = damaged_members(alloc, entry.row.body.as_slice())?;
    let line = framed(alloc, members, entry)?;
    Ok(TextBuf::new(line.to_string(alloc)?))
}

/// The member of a body in lower-case digits.
fn damaged_members(alloc: Global, bytes: &[u8]) -> Result<Map<String, Value>, AllocError>
    ensures members { IfOk result (λ members. members_view members.entries
        ≡ put (codes "damaged") (string (encode_lower bytes.now)) no_members) }
    ensures decodes { OnOk result (decode_of (encode_lower bytes.now) ≡ Ok bytes.now) }
{
    let digits = hex::encode(alloc, bytes)?;
    let mut members = Map::new(alloc);
    put(
        &mut members,
        alloc,
        "damaged",
        Value::try_from_str(alloc, digits.as_str())?,
    )?;
    Ok(members)
}

fn due_value(due: Option<Due>) -> Value
    ensures data { view result ≡ due_data due }
    ensures within { IfSome due (λ seconds. seconds < 2 ^ 63) }
{
    match due {
        None => Value::Null,
        Some(due) => Value::from(due.seconds()),
    }
}

/// The object of a line, with the members of the body and those that each line has.
fn framed(alloc: Global, members: Map<String, Value>, entry: &Entry) -> Result<Value, AllocError>
    ensures data { IfOk result (λ line. view line ≡ object (framed entry.now (members_view members.entries))) }
    ensures within { OnOk result (IfSome entry.now.1.due (λ seconds. seconds < 2 ^ 63)) }
{
    let mut members = members;
    put(&mut members, alloc, "due", due_value(entry.row.due))?;
    put(
        &mut members,
        alloc,
        "key",
        Value::try_from_str(alloc, entry.key.as_str())?,
    )?;
    put(
        &mut members,
        alloc,
        "kind",
        Value::try_from_str(alloc, kind_word(entry.kind))?,
    )?;
    put(
        &mut members,
        alloc,
        "owner",
        Value::try_from_str(alloc, entry.row.owner.as_str())?,
    )?;
    Ok(Value::Object(members))
}
