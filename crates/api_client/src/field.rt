//! The member of a reply that is asked for, as it is printed.

ghost use Rattle.std.specs.Prelude.{◌≡◌, IfOk, option_map, string_bytes};
ghost use Rattle.std.specs.List.{list_any};
ghost use Rattle.serde_json.specs.View.{view};
ghost use Rattle.api_client.specs.Fields.{at_path, first_in, is_dot, member_in, places, value_of};
ghost use Rattle.api_client.specs.Fields.{IsField, IsLine, IsPrinted};

use crate::json_values::parsed;
use broker_types::TextBuf;
use serde_json::Value;
use std::alloc::{AllocError, Global};

/// What is found of a name in the body of a reply.
#[derive(Drop)]
pub enum Field {
    /// The text of its value as it is printed, with LF.
    Found(TextBuf),
    /// No member has the name.
    Missing,
    /// The body is not JSON of at most 127 levels.
    NoJson,
}

/// The member of a reply that a name with dots leads to as a path; if there is none, the member of this name in
/// `data.data`, `data`, `auth`, `wrap_info` or the reply itself, the first that has it. A text is printed as it is,
/// and any other value as compact JSON. The only error is running out of memory.
pub fn field_of(alloc: Global, body: &[u8], name: &str) -> Result<Field, AllocError>
    ensures { IfOk result (IsField body.now name.now) }
{
    let Ok(text) = str::from_utf8(body) else {
        return Ok(Field::NoJson);
    };
    let Some(reply) = parsed(alloc, text)? else {
        return Ok(Field::NoJson);
    };
    match value_of(&reply, name) {
        Some(value) => Ok(Field::Found(line_of(alloc, value)?)),
        None => Ok(Field::Missing),
    }
}

/// The value of a name in a reply.
#[tactic(auto, unfolding(crate::specs::Fields::value_of))]
fn value_of<'v>(reply: &'v Value, name: &str) -> Option<&'v Value>
    ensures { option_map (λ v. view v.now) result ≡ value_of name.now (view reply.now) }
{
    if has_dot(name) {
        at_path(reply, name).or(in_places(reply, name))
    } else {
        in_places(reply, name)
    }
}

fn has_dot(name: &str) -> bool
    ensures { result ≡ list_any is_dot name.now }
{
    name.as_bytes().contains(&b'.')
}

/// What a path leads to, whose parts have dots between them.
fn at_path<'v>(reply: &'v Value, path: &str) -> Option<&'v Value>
    ensures { option_map (λ v. view v.now) result ≡ at_path path.now (view reply.now) }
{
    let mut value = Some(reply);
    for part in path.split('.') {
        value = member(value, part);
    }
    value
}

/// The member of this name in the first place that has it.
fn in_places<'v>(reply: &'v Value, name: &str) -> Option<&'v Value>
    ensures { option_map (λ v. view v.now) result ≡ first_in name.now (places (view reply.now)) }
{
    let data = reply.get("data");
    member(member(data, "data"), name)
        .or(member(data, name))
        .or(member(reply.get("auth"), name))
        .or(member(reply.get("wrap_info"), name))
        .or(reply.get(name))
}

/// The member of a value, if it is there and has it.
fn member<'v>(value: Option<&'v Value>, name: &str) -> Option<&'v Value>
    ensures { option_map (λ v. view v.now) result ≡ member_in (option_map (λ v. view v.now) value.entry) name.now }
{
    value?.get(name)
}

/// The text of a value as it is printed, with LF.
fn line_of(alloc: Global, value: &Value) -> Result<TextBuf, AllocError>
    ensures { IfOk result (IsLine (view value.now)) }
{
    let mut line = printed(alloc, value)?;
    line.push_str("\n")?;
    Ok(TextBuf::new(line))
}

fn printed(alloc: Global, value: &Value) -> Result<String, AllocError>
    ensures { IfOk result (λ text. IsPrinted (view value.now) (string_bytes text)) }
{
    match value.as_str() {
        Some(text) => String::from_str(alloc, text),
        None => value.to_string(alloc),
    }
}
