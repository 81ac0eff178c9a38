//! Bodies of requests read.
ghost use Rattle.std.specs.Prelude.{◌≡◌, ◌≤◌, ◌∷◌, ℕ, List, false, IfOk, Ok, length, option_map};
ghost use Rattle.broker_types.specs.Limits.{longest_body};
ghost use Rattle.broker_types.specs.Refuse.{some_or};
ghost use Rattle.serde_json.specs.Data.{object, no_members, depth};
ghost use Rattle.serde_json.specs.Read.{read, max_depth};
ghost use Rattle.serde_json.specs.View.{view, items_view, members_view};
ghost use Rattle.serde_json.specs.Written.{compact_text, has_float, items_have_float, members_have_float};
ghost use Rattle.api_json.specs.Json.{json_value, tree, without_floats, members_in, no_object, body_members};
ghost use Rattle.api_json.specs.Json.{has_members};
ghost use Rattle.api_json.specs.KeptBodies.{IsKept};
ghost use Rattle.api_json.specs.Parsed.{data_of, members_of};
ghost use Rattle.api_json.specs.Reads.{IsReadAs};

use crate::parsed::{Body, Tree};
use broker_types::{Reason, Refusal, RequestError, TextBuf};
use serde_json::{Map, Value};
use std::alloc::{AllocError, Global};

/// Reads a request's body, which must be an object (RFC 8259). No bytes and `null` are an empty object. It is refused
/// with 400 `failed to parse JSON input` if the bytes are not UTF-8 or not a JSON object, have more than 127 levels, or
/// have a number that is a float: one with a fraction or an exponent, `-0`, or a whole number below -2^63 or above
/// 2^64-1. The only fault is running out of memory.
pub fn read_body(alloc: Global, bytes: &[u8]) -> Result<Body, RequestError>
    ensures { IsReadAs members_of (body_members bytes.now) result }
{
    if bytes.is_empty() {
        return Ok(no_members(alloc));
    }
    match Tree::read(alloc, bytes)? {
        None => Err(NO_OBJECT),
        Some(tree) => object(alloc, tree),
    }
}

const NO_OBJECT: RequestError = RequestError::Refused(Refusal::BadRequest(Reason::InvalidJson));

fn no_members(alloc: Global) -> Body
    ensures { members_of result ≡ no_members }
{
    Body {
        members: Map::new(alloc),
    }
}

/// The object that a value is; `null` is an empty one.
fn object(alloc: Global, tree: Tree) -> Result<Body, RequestError>
    ensures { IsReadAs members_of (some_or no_object (members_in (data_of tree))) result }
{
    let Tree { value } = tree;
    match value {
        Value::Null => Ok(no_members(alloc)),
        Value::Object(members) => Ok(Body { members }),
        Value::Bool(_flag) => Err(NO_OBJECT),
        Value::Number(_number) => Err(NO_OBJECT),
        Value::String(_text) => Err(NO_OBJECT),
        Value::Array(_items) => Err(NO_OBJECT),
    }
}

impl Body {
    /// The members of the object by name, in the order of the bytes of their names.
    pub fn members(&self) -> &Map<String, Value>
        ensures members { members_view result.now.entries ≡ members_of self.now }
        ensures whole { members_have_float (members_view result.now.entries) ≡ false }
    {
        &self.members
    }

    /// Whether the object has a member.
    pub fn has_members(&self) -> bool
        ensures { result ≡ has_members (members_of self.now) }
    {
        !self.members.is_empty()
    }

    /// The compact text of the object. The only error is running out of memory.
    pub fn into_text(self, alloc: Global) -> Result<TextBuf, AllocError>
        ensures text { IfOk result (λ t. t ≡ compact_text (object (members_of self))) }
        ensures storable { (bytes : List ℕ) → length bytes ≤ longest_body → body_members bytes ≡ Ok (members_of self)
            → IfOk result IsKept }
    {
        let Body { members } = self;
        Ok(TextBuf::new(Value::Object(members).to_string(alloc)?))
    }
}

impl Tree {
    /// Reads bytes as a JSON value (RFC 8259): none if they are not UTF-8 or not JSON, or have more than 127 levels or
    /// a float. The only error is running out of memory.
    pub fn read(alloc: Global, bytes: &[u8]) -> Result<Option<Tree>, AllocError>
        ensures { IfOk result (λ t. option_map data_of t ≡ tree bytes.now) }
    {
        match parsed(alloc, bytes)? {
            Some(value) => Ok(without_floats(value)),
            None => Ok(None),
        }
    }

    /// The value.
    pub fn value(&self) -> &Value
        ensures value { view result.now ≡ data_of self.now }
        ensures whole { has_float (view result.now) ≡ false }
    {
        &self.value
    }

    /// The compact text of the value, which is read as this value again. The only error is running out of memory.
    pub fn to_text(&self, alloc: Global) -> Result<TextBuf, AllocError>
        ensures text { IfOk result (λ t. t ≡ compact_text (data_of self.now)) }
        ensures reads_back { IfOk result (λ t. read t ≡ Some (data_of self.now)) }
    {
        Ok(TextBuf::new(self.value.to_string(alloc)?))
    }
}

/// The value that the bytes are, if they are JSON.
fn parsed(alloc: Global, bytes: &[u8]) -> Result<Option<Value>, AllocError>
    ensures { IfOk result (λ o. option_map view o ≡ json_value bytes.now) }
{
    match Value::from_slice(alloc, bytes) {
        Ok(value) => Ok(Some(value)),
        Err(e) => {
            if e.is_memory() {
                Err(AllocError)
            } else {
                Ok(None)
            }
        }
    }
}

fn without_floats(value: Value) -> Option<Tree>
    requires { depth (view value) ≤ max_depth }
    ensures { option_map data_of result ≡ without_floats (view value) }
{
    if holds_float(&value) {
        None
    } else {
        Some(Tree { value })
    }
}

/// Whether a number in the value is a float.
#[cycle(floats)]
fn holds_float(value: &Value) -> bool
    ensures { result ≡ has_float (view value.now) }
{
    match value {
        Value::Null => false,
        Value::Bool(_) => false,
        Value::String(_) => false,
        Value::Number(n) => n.is_f64(),
        Value::Array(items) => items_hold_float(items),
        Value::Object(members) => members_hold_float(members),
    }
}

#[cycle(floats)]
fn items_hold_float(items: &Vec<Value>) -> bool
    ensures { result ≡ items_have_float (items_view items.now.items) }
{
    for item in items {
        if holds_float(item) {
            return true;
        }
    }
    false
}

#[cycle(floats)]
fn members_hold_float(members: &Map<String, Value>) -> bool
    ensures { result ≡ members_have_float (members_view members.now.entries) }
{
    for (_, member) in members.iter() {
        if holds_float(member) {
            return true;
        }
    }
    false
}
