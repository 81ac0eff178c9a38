//! The row that the members of a line stand for.

ghost use Rattle.std.specs.Prelude.{◌≡◌, IfOk, codes, option_map, option_and_then};
ghost use Rattle.serde_json.specs.Find.{get_member, as_object};
ghost use Rattle.serde_json.specs.View.{view, members_view};
ghost use Rattle.hex.specs.Hex.{decode_of};
ghost use Rattle.row_lines.specs.KindWords.{kind_of};
ghost use Rattle.row_lines.specs.Lines.{text_at, due_of, fields_body, exactly, damaged_body, body_of, row_of};
ghost use Rattle.row_lines.specs.Spelled.{as_whole};

use crate::layout::layout;
use crate::member::{count_members, member_at};
use crate::spelling::push_body;
use crate::word::kind_of;
use broker_types::{Bytes, TextBuf, is_same};
use hex::FromHexError;
use records::{Due, Entry, Kind, Row};
use serde_json::{Map, Value};
use std::alloc::{AllocError, Global};

/// The text at a name.
fn text_at<'m>(members: &'m Map<String, Value>, name: &str) -> Option<&'m str>
    ensures { option_map (λ t. t.now) result ≡ text_at name.now (members_view members.now.entries) }
{
    match member_at(members, name) {
        Some(value) => value.as_str(),
        None => None,
    }
}

fn kind_at(members: &Map<String, Value>) -> Option<Kind>
    ensures { result ≡ option_and_then kind_of (text_at (codes "kind") (members_view members.now.entries)) }
{
    match text_at(members, "kind") {
        Some(word) => kind_of(word),
        None => None,
    }
}

/// When a row is due, if it is.
fn due_of(value: &Value) -> Option<Option<Due>>
    ensures { result ≡ due_of (view value.now) }
{
    match value {
        Value::Null => Some(None),
        Value::Number(n) => match n.as_u64() {
            Some(seconds) => match Due::new(seconds) {
                Some(due) => Some(Some(due)),
                None => None,
            },
            None => None,
        },
        Value::Bool(_) | Value::String(_) | Value::Array(_) | Value::Object(_) => None,
    }
}

fn due_at(members: &Map<String, Value>) -> Option<Option<Due>>
    ensures { result ≡ option_and_then due_of (get_member (codes "due") (members_view members.now.entries)) }
{
    match member_at(members, "due") {
        Some(value) => due_of(value),
        None => None,
    }
}

fn format_at(members: &Map<String, Value>) -> Option<u64>
    ensures { result ≡ option_and_then as_whole (get_member (codes "format") (members_view members.now.entries)) }
{
    match member_at(members, "format") {
        Some(value) => value.as_u64(),
        None => None,
    }
}

fn fields_at(members: &Map<String, Value>) -> Option<&Map<String, Value>>
    ensures { option_map (λ m. members_view m.now.entries) result
        ≡ option_and_then as_object (get_member (codes "fields") (members_view members.now.entries)) }
{
    match member_at(members, "fields") {
        Some(value) => value.as_object(),
        None => None,
    }
}

/// The body whose fields are there.
fn fields_body(
    alloc: Global,
    kind: Kind,
    members: &Map<String, Value>,
) -> Result<Option<Bytes>, AllocError>
    ensures { IfOk result (λ body. body ≡ fields_body kind (members_view members.now.entries)) }
{
    let Some(format) = format_at(members) else {
        return Ok(None);
    };
    let Some(fields) = fields_at(members) else {
        return Ok(None);
    };
    let Some(layout) = layout(kind, format) else {
        return Ok(None);
    };
    let mut body = Vec::new(alloc);
    body.push(format as u8)?;
    push_body(Bytes::new(body), layout, fields)
}

/// The bytes whose lower-case digits the text has.
fn exactly(alloc: Global, digits: &str) -> Result<Option<Bytes>, AllocError>
    ensures { IfOk result (λ body. body ≡ exactly digits.now (decode_of digits.now)) }
{
    match hex::decode(alloc, digits) {
        Ok(bytes) => {
            let spelled = hex::encode(alloc, &bytes)?;
            if is_same(spelled.as_str(), digits) {
                Ok(Some(Bytes::new(bytes)))
            } else {
                Ok(None)
            }
        }
        Err(FromHexError::OutOfMemory) => Err(AllocError),
        Err(_) => Ok(None),
    }
}

/// The body that is there in digits.
fn damaged_body(alloc: Global, members: &Map<String, Value>) -> Result<Option<Bytes>, AllocError>
    ensures { IfOk result (λ body. body ≡ damaged_body (members_view members.now.entries)) }
{
    match text_at(members, "damaged") {
        Some(digits) => exactly(alloc, digits),
        None => Ok(None),
    }
}

fn body_at(
    alloc: Global,
    kind: Kind,
    members: &Map<String, Value>,
) -> Result<Option<Bytes>, AllocError>
    ensures { IfOk result (λ body. body ≡ body_of kind (members_view members.now.entries)) }
{
    if count_members(members) == 6 {
        fields_body(alloc, kind, members)
    } else if count_members(members) == 5 {
        damaged_body(alloc, members)
    } else {
        Ok(None)
    }
}

/// The row of the members of a line, if they are those of one.
pub(crate) fn row_of(
    alloc: Global,
    members: &Map<String, Value>,
) -> Result<Option<Entry>, AllocError>
    ensures { IfOk result (λ row. row ≡ row_of (members_view members.now.entries)) }
{
    let Some(kind) = kind_at(members) else {
        return Ok(None);
    };
    let Some(key) = text_at(members, "key") else {
        return Ok(None);
    };
    let Some(owner) = text_at(members, "owner") else {
        return Ok(None);
    };
    let Some(due) = due_at(members) else {
        return Ok(None);
    };
    let Some(body) = body_at(alloc, kind, members)? else {
        return Ok(None);
    };
    Ok(Some(Entry {
        kind,
        key: TextBuf::copied(alloc, key)?,
        row: Row {
            owner: TextBuf::copied(alloc, owner)?,
            due,
            body,
        },
    }))
}
