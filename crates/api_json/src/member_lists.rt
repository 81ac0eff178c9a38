//! Lists that a member of a body may hold: arrays, texts with commas, and objects of texts.
ghost use Rattle.std.specs.Prelude.{◌≡◌, IfOk, map, option_map};
ghost use Rattle.serde_json.specs.View.{view, items_view, members_view};
ghost use Rattle.api_json.specs.Kinds as kind;
ghost use Rattle.api_json.specs.Kinds.{without_spaces, comma_parts, each_item, each_count, each_text};

use crate::from_member::{FromMember, count_text};
use crate::lists::{Counts, Listed, Pairs, Texts};
use broker_types::TextBuf;
use serde_json::{Map, Value};
use std::alloc::{AllocError, Global};

/// Texts, or one text with commas between them.
impl FromMember for Texts {
    ghost kind = { kind.as_texts };

    fn from_member(alloc: Global, member: &Value) -> Result<Option<Texts>, AllocError> {
        match member {
            Value::String(list) => Ok(Some(comma_parts(alloc, list.as_str())?)),
            Value::Array(items) => each_item(alloc, items),
            Value::Null | Value::Bool(_) | Value::Number(_) | Value::Object(_) => Ok(None),
        }
    }
}

/// Whole numbers, or one text with commas between them.
impl FromMember for Counts {
    ghost kind = { kind.as_counts };

    fn from_member(alloc: Global, member: &Value) -> Result<Option<Counts>, AllocError> {
        match member {
            Value::String(list) => {
                let parts = comma_parts(alloc, list.as_str())?;
                part_counts(alloc, parts.as_slice())
            }
            Value::Array(items) => each_item(alloc, items),
            Value::Null | Value::Bool(_) | Value::Number(_) | Value::Object(_) => Ok(None),
        }
    }
}

/// Names and values, each value a text.
impl FromMember for Pairs {
    ghost kind = { kind.as_pairs };

    fn from_member(alloc: Global, member: &Value) -> Result<Option<Pairs>, AllocError> {
        match member {
            Value::Object(members) => member_texts(alloc, members),
            Value::Null | Value::Bool(_) | Value::Number(_) | Value::String(_) | Value::Array(_) =>
                Ok(None),
        }
    }
}

/// What is between commas, without the spaces around it and without empty parts.
fn comma_parts(alloc: Global, list: &str) -> Result<Texts, AllocError>
    ensures { IfOk result (λ t. t ≡ comma_parts list.now) }
{
    let mut parts = Vec::new(alloc);
    for part in list.split(',') {
        let part = without_spaces(part);
        if !part.is_empty() {
            parts.push(TextBuf::copied(alloc, part)?)?;
        }
    }
    Ok(Texts::new(parts))
}

fn without_spaces(text: &str) -> &str
    ensures { result.now ≡ without_spaces text.now }
{
    text.trim_start_matches(' ').trim_end_matches(' ')
}

/// The items, if each is of the kind.
fn each_item<X: FromMember>(
    alloc: Global,
    items: &Vec<Value>,
) -> Result<Option<Listed<X>>, AllocError>
    ensures { IfOk result (λ o. o ≡ each_item X.kind (items_view items.now.items)) }
{
    let mut list = Vec::new(alloc);
    for item in items {
        match X::from_member(alloc, item)? {
            Some(value) => list.push(value)?,
            None => return Ok(None),
        }
    }
    Ok(Some(Listed::new(list)))
}

fn part_counts(alloc: Global, parts: &[TextBuf]) -> Result<Option<Counts>, AllocError>
    ensures { IfOk result (λ t. t ≡ each_count parts.now) }
{
    let mut list = Vec::new(alloc);
    for part in parts {
        match count_text(part.as_str().as_bytes()) {
            Some(count) => list.push(count)?,
            None => return Ok(None),
        }
    }
    Ok(Some(Counts::new(list)))
}

#[tactic(auto, using(crate::proofs::Gathering::onto_push))]
fn member_texts(alloc: Global, members: &Map<String, Value>) -> Result<Option<Pairs>, AllocError>
    ensures { IfOk result (λ t. t ≡ each_text (members_view members.now.entries)) }
{
    let mut list = Vec::new(alloc);
    for (name, value) in members.iter() {
        match TextBuf::from_member(alloc, value)? {
            Some(text) => list.push((TextBuf::copied(alloc, name.as_str())?, text))?,
            None => return Ok(None),
        }
    }
    Ok(Some(Pairs::new(list)))
}
