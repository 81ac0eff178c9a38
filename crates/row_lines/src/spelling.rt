//! The members of a line as the bytes of a body.

ghost use Rattle.std.specs.Prelude.{◌≡◌, ◌<◌, ◌^◌, length, Some, option_and_then, IfOk};
ghost use Rattle.serde_json.specs.Find.{get_member};
ghost use Rattle.serde_json.specs.View.{view, items_view, members_view};
ghost use Rattle.records.specs.Spelling.{number, count, text, long_text, flag};
ghost use Rattle.row_lines.specs.Layouts.{fields_in};
ghost use Rattle.row_lines.specs.Spelled.{onto, both, short_text, short_count};
ghost use Rattle.row_lines.specs.Spelled.{spelled_number, spelled_optional, spelled_flag};
ghost use Rattle.row_lines.specs.Spelled.{spelled_text, spelled_long, spelled_texts, spelled_pairs, spelled_items};
ghost use Rattle.row_lines.specs.Spelled.{spelled_members, spelled_field, spelled_fields, spelled_body};

use crate::layout::{Field, Form};
use crate::member::{count_items, count_members, member_at};
use broker_types::Bytes;
use serde_json::{Map, Value};
use std::alloc::AllocError;

/// Bytes after those that are there.
fn push_bytes(body: Bytes, more: &[u8]) -> Result<Option<Bytes>, AllocError>
    ensures { IfOk result (λ longer. longer ≡ onto body (Some more.now)) }
{
    let mut bytes = body.into_vec();
    bytes.extend_from_slice(more)?;
    Ok(Some(Bytes::new(bytes)))
}

/// A number in eight bytes, greatest first.
#[tactic(auto, unfolding(records::specs::Spelling::number))]
fn push_whole(body: Bytes, n: u64) -> Result<Option<Bytes>, AllocError>
    ensures { IfOk result (λ longer. longer ≡ onto body (Some (number n))) }
{
    push_bytes(body, &n.to_be_bytes())
}

/// A count in four bytes, greatest first, if they hold it.
#[tactic(auto, unfolding(records::specs::Spelling::count))]
fn push_count(body: Bytes, n: usize) -> Result<Option<Bytes>, AllocError>
    ensures { IfOk result (λ longer. longer ≡ onto body (short_count n)) }
{
    if n < 0x1_0000_0000 {
        push_bytes(body, &(n as u32).to_be_bytes())
    } else {
        Ok(None)
    }
}

/// A text after its length of four bytes, if they hold it.
fn push_short(body: Bytes, t: &str) -> Result<Option<Bytes>, AllocError>
    ensures { IfOk result (λ longer. longer ≡ onto body (short_text t.now)) }
{
    match push_count(body, t.len())? {
        Some(longer) => push_bytes(longer, t.as_bytes()),
        None => Ok(None),
    }
}

fn push_number(body: Bytes, value: &Value) -> Result<Option<Bytes>, AllocError>
    ensures { IfOk result (λ longer. longer ≡ onto body (spelled_number (view value.now))) }
{
    match value.as_u64() {
        Some(n) => push_whole(body, n),
        None => Ok(None),
    }
}

fn push_optional(body: Bytes, value: &Value) -> Result<Option<Bytes>, AllocError>
    ensures { IfOk result (λ longer. longer ≡ onto body (spelled_optional (view value.now))) }
{
    match value {
        Value::Null => push_bytes(body, &[0]),
        Value::Number(n) => match n.as_u64() {
            Some(n) => match push_bytes(body, &[1])? {
                Some(longer) => push_whole(longer, n),
                None => Ok(None),
            },
            None => Ok(None),
        },
        Value::Bool(_) | Value::String(_) | Value::Array(_) | Value::Object(_) => Ok(None),
    }
}

fn push_flag(body: Bytes, value: &Value) -> Result<Option<Bytes>, AllocError>
    ensures { IfOk result (λ longer. longer ≡ onto body (spelled_flag (view value.now))) }
{
    match value {
        Value::Bool(holds) => push_bytes(body, &[u8::from(*holds)]),
        Value::Null | Value::Number(_) | Value::String(_) | Value::Array(_) | Value::Object(_) =>
            Ok(None),
    }
}

fn push_text(body: Bytes, value: &Value) -> Result<Option<Bytes>, AllocError>
    ensures { IfOk result (λ longer. longer ≡ onto body (spelled_text (view value.now))) }
{
    match value {
        Value::String(t) => push_short(body, t.as_str()),
        Value::Null | Value::Bool(_) | Value::Number(_) | Value::Array(_) | Value::Object(_) => Ok(
            None,
        ),
    }
}

fn push_long(body: Bytes, value: &Value) -> Result<Option<Bytes>, AllocError>
    ensures { IfOk result (λ longer. longer ≡ onto body (spelled_long (view value.now))) }
{
    match value {
        Value::String(t) => match push_whole(body, t.len() as u64)? {
            Some(longer) => push_bytes(longer, t.as_str().as_bytes()),
            None => Ok(None),
        },
        Value::Null | Value::Bool(_) | Value::Number(_) | Value::Array(_) | Value::Object(_) => Ok(
            None,
        ),
    }
}

fn push_items(body: Bytes, items: &Vec<Value>) -> Result<Option<Bytes>, AllocError>
    ensures { IfOk result (λ longer. longer ≡ onto body (spelled_items (items_view items.now.items))) }
{
    let mut body = body;
    for item in items {
        match push_text(body, item)? {
            Some(longer) => body = longer,
            None => return Ok(None),
        }
    }
    Ok(Some(body))
}

fn push_texts(body: Bytes, value: &Value) -> Result<Option<Bytes>, AllocError>
    ensures { IfOk result (λ longer. longer ≡ onto body (spelled_texts (view value.now))) }
{
    match value {
        Value::Array(items) => match push_count(body, count_items(items))? {
            Some(longer) => push_items(longer, items),
            None => Ok(None),
        },
        Value::Null | Value::Bool(_) | Value::Number(_) | Value::String(_) | Value::Object(_) => Ok(
            None,
        ),
    }
}

/// A name and a text.
fn push_pair(body: Bytes, name: &str, value: &Value) -> Result<Option<Bytes>, AllocError>
    ensures { IfOk result (λ longer. longer ≡ onto body (both (short_text name.now) (spelled_text (view value.now)))) }
{
    match push_short(body, name)? {
        Some(longer) => push_text(longer, value),
        None => Ok(None),
    }
}

#[tactic(auto, using(crate::proofs::Onto::one_more))]
fn push_members(body: Bytes, members: &Map<String, Value>) -> Result<Option<Bytes>, AllocError>
    ensures { IfOk result (λ longer. longer ≡ onto body (spelled_members (members_view members.now.entries))) }
{
    let mut body = body;
    for (name, value) in members.iter() {
        match push_pair(body, name.as_str(), value)? {
            Some(longer) => body = longer,
            None => return Ok(None),
        }
    }
    Ok(Some(body))
}

fn push_pairs(body: Bytes, value: &Value) -> Result<Option<Bytes>, AllocError>
    ensures { IfOk result (λ longer. longer ≡ onto body (spelled_pairs (view value.now))) }
{
    match value {
        Value::Object(members) => match push_count(body, count_members(members))? {
            Some(longer) => push_members(longer, members),
            None => Ok(None),
        },
        Value::Null | Value::Bool(_) | Value::Number(_) | Value::String(_) | Value::Array(_) => Ok(
            None,
        ),
    }
}

/// A field of a form.
fn push_field(body: Bytes, form: Form, value: &Value) -> Result<Option<Bytes>, AllocError>
    ensures { IfOk result (λ longer. longer ≡ onto body (spelled_field form (view value.now))) }
{
    match form {
        Form::Number => push_number(body, value),
        Form::OptionalNumber => push_optional(body, value),
        Form::Flag => push_flag(body, value),
        Form::Text => push_text(body, value),
        Form::LongText => push_long(body, value),
        Form::Texts => push_texts(body, value),
        Form::Pairs => push_pairs(body, value),
    }
}

/// The member of a field, if it is there and of its form.
fn push_member(
    body: Bytes,
    field: &Field,
    members: &Map<String, Value>,
) -> Result<Option<Bytes>, AllocError>
    ensures { IfOk result (λ longer. longer ≡ onto body
        (option_and_then (spelled_field field.now.1)
        (get_member field.now.0.now (members_view members.now.entries)))) }
{
    match member_at(members, field.0) {
        Some(value) => push_field(body, field.1, value),
        None => Ok(None),
    }
}

#[tactic(auto, using(crate::proofs::Onto::one_more))]
fn push_fields(
    body: Bytes,
    fields: &[Field],
    members: &Map<String, Value>,
) -> Result<Option<Bytes>, AllocError>
    ensures { IfOk result (λ longer. longer ≡ onto body
        (spelled_fields (fields_in fields.now) (members_view members.now.entries))) }
{
    let mut body = body;
    for field in fields {
        match push_member(body, field, members)? {
            Some(longer) => body = longer,
            None => return Ok(None),
        }
    }
    Ok(Some(body))
}

/// The fields of a layout, after the bytes that are there, if the members are these and no other.
pub(crate) fn push_body(
    body: Bytes,
    fields: &[Field],
    members: &Map<String, Value>,
) -> Result<Option<Bytes>, AllocError>
    ensures { IfOk result (λ longer. longer ≡ onto body
        (spelled_body (members_view members.now.entries) (fields_in fields.now))) }
{
    if count_members(members) == fields.len() {
        push_fields(body, fields, members)
    } else {
        Ok(None)
    }
}
