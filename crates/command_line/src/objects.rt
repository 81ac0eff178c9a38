//! Objects built member by member, as bodies of requests.

ghost use Rattle.std.specs.Prelude.{◌≡◌, ◌++◌, false, IfOk, OnOk, map, option_map};
ghost use Rattle.serde_json.specs.Data.{number, object, string, unsigned};
ghost use Rattle.serde_json.specs.View.{members_view, view};
ghost use Rattle.serde_json.specs.Written.{members_have_float};
ghost use Rattle.command_line.specs.Meaning.{Agrees, object_body};
ghost use Rattle.command_line.specs.Objects.{KeepsWhole, strings, with_value};

use crate::mistake::Mistake;
use crate::no_request::NoRequest;
use broker_types::BodyBytes;
use serde_json::{Map, Value, put};
use std::alloc::{AllocError, Global};
use std::borrow::CowSlice;

/// The body that is the text of an object without floats.
pub(crate) fn object_body<'a>(
    alloc: Global,
    object: Map<String, Value>,
) -> Result<BodyBytes<'a>, NoRequest>
    requires { members_have_float (members_view object.entries) ≡ false }
    ensures { Agrees (object_body (members_view object.entries)) result }
{
    let text = Value::Object(object).to_string(alloc)?;
    match BodyBytes::new(CowSlice::Owned(text.into_bytes())) {
        Some(body) => Ok(body),
        None => Err(Mistake::Body.into()),
    }
}

/// Sets the member of this name, if there is a text.
pub(crate) fn put_text(
    object: &mut Map<String, Value>,
    alloc: Global,
    name: &str,
    text: Option<&str>,
) -> Result<(), AllocError>
    ensures value { OnOk result (members_view object.new.entries
        ≡ with_value name.now (option_map (λ t. string t.now) text.entry) (members_view object.old.entries)) }
    ensures whole { OnOk result (KeepsWhole (members_view object.old.entries) (members_view object.new.entries)) }
{
    match text {
        Some(text) => {
            put(object, alloc, name, Value::try_from_str(alloc, text)?)?;
            Ok(())
        }
        None => Ok(()),
    }
}

/// Sets the member of this name, if there is a number.
pub(crate) fn put_number(
    object: &mut Map<String, Value>,
    alloc: Global,
    name: &str,
    value: Option<u64>,
) -> Result<(), AllocError>
    ensures value { OnOk result (members_view object.new.entries
        ≡ with_value name.now (option_map (λ n. number (unsigned n)) value) (members_view object.old.entries)) }
    ensures whole { OnOk result (KeepsWhole (members_view object.old.entries) (members_view object.new.entries)) }
{
    match value {
        Some(value) => {
            put(object, alloc, name, Value::from(value))?;
            Ok(())
        }
        None => Ok(()),
    }
}

/// Sets the member of this name to an array of texts, if there are texts.
pub(crate) fn put_texts(
    object: &mut Map<String, Value>,
    alloc: Global,
    name: &str,
    texts: Option<&[&str]>,
) -> Result<(), AllocError>
    ensures value { OnOk result (members_view object.new.entries
        ≡ with_value name.now (option_map (λ ts. strings (map (λ t. t.now) ts.now)) texts.entry)
        (members_view object.old.entries)) }
    ensures whole { OnOk result (KeepsWhole (members_view object.old.entries) (members_view object.new.entries)) }
{
    match texts {
        Some(texts) => {
            put(object, alloc, name, Value::from(values(alloc, texts)?))?;
            Ok(())
        }
        None => Ok(()),
    }
}

fn values(alloc: Global, texts: &[&str]) -> Result<Vec<Value>, AllocError>
    ensures { IfOk result (λ vs. map view vs.items ≡ map string (map (λ t. t.now) texts.now)) }
{
    let mut values = Vec::new(alloc);
    push_texts(&mut values, alloc, texts)?;
    Ok(values)
}

/// Adds texts at the end.
fn push_texts(values: &mut Vec<Value>, alloc: Global, texts: &[&str]) -> Result<(), AllocError>
    ensures { OnOk result (map view values.new.items
        ≡ map view values.old.items ++ map string (map (λ t. t.now) texts.now)) }
{
    for text in texts {
        values.push(Value::try_from_str(alloc, text)?)?;
    }
    Ok(())
}
