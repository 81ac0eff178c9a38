//! What a member of a body may hold, and the other forms that are accepted for it.
ghost use Rattle.std.specs.Prelude.{◌≡◌, Option, IfOk};
ghost use Rattle.serde_json.specs.Data.{Data};
ghost use Rattle.serde_json.specs.View.{view};
ghost use Rattle.broker_types.specs.Duration.{at_most};
ghost use Rattle.api_json.specs.Kinds as kind;
ghost use Rattle.api_json.specs.Kinds.{count_text, flag_text};

use broker_types::{Seconds, TextBuf, read_duration};
use serde_json::Value;
use std::alloc::{AllocError, Global};

/// A value that is read from a member of a body.
pub(crate) trait FromMember: Drop {
    ghost kind: { Data → Option Self };

    /// The value that a member holds, if it is of this kind. The only error is running out of memory.
    fn from_member(alloc: Global, member: &Value) -> Result<Option<Self>, AllocError>
        ensures { IfOk result (λ o. o ≡ kind (view member.now)) };
}

/// A whole number from 0 to 2^64-1, or 1 to 18 digits.
impl FromMember for u64 {
    ghost kind = { kind.as_count };

    fn from_member(_: Global, member: &Value) -> Result<Option<u64>, AllocError> {
        match member {
            Value::Number(number) => Ok(number.as_u64()),
            Value::String(digits) => Ok(count_text(digits.as_str().as_bytes())),
            Value::Null | Value::Bool(_) | Value::Array(_) | Value::Object(_) => Ok(None),
        }
    }
}

/// The number of 1 to 18 digits.
pub(crate) fn count_text(text: &[u8]) -> Option<u64>
    ensures { result ≡ count_text text.now }
{
    if text.is_empty() || text.len() > 18 {
        return None;
    }
    let mut count = 0u64;
    for digit in text {
        if !digit.is_ascii_digit() {
            return None;
        }
        count = count * 10 + u64::from(*digit - b'0');
    }
    Some(count)
}

/// A truth value, or its name.
impl FromMember for bool {
    ghost kind = { kind.as_flag };

    fn from_member(_: Global, member: &Value) -> Result<Option<bool>, AllocError> {
        match member {
            Value::Bool(flag) => Ok(Some(*flag)),
            Value::String(name) => Ok(flag_text(name.as_str())),
            Value::Null | Value::Number(_) | Value::Array(_) | Value::Object(_) => Ok(None),
        }
    }
}

fn flag_text(name: &str) -> Option<bool>
    ensures { result ≡ flag_text name.now }
{
    if name == "true" {
        Some(true)
    } else if name == "false" {
        Some(false)
    } else {
        None
    }
}

/// A text.
impl FromMember for TextBuf {
    ghost kind = { kind.as_text };

    fn from_member(alloc: Global, member: &Value) -> Result<Option<TextBuf>, AllocError> {
        match member {
            Value::String(text) => Ok(Some(TextBuf::copied(alloc, text.as_str())?)),
            Value::Null | Value::Bool(_) | Value::Number(_) | Value::Array(_) | Value::Object(_) =>
                Ok(None),
        }
    }
}

/// A number of seconds, or the text of a duration.
impl FromMember for Seconds {
    ghost kind = { kind.as_duration };

    fn from_member(_: Global, member: &Value) -> Result<Option<Seconds>, AllocError> {
        match member {
            Value::Number(number) => Ok(seconds(number.as_u64())),
            Value::String(text) => Ok(read_duration(text.as_str()).ok()),
            Value::Null | Value::Bool(_) | Value::Array(_) | Value::Object(_) => Ok(None),
        }
    }
}

/// The seconds of a number, if it is at most 4,294,967,295.
fn seconds(count: Option<u64>) -> Option<Seconds>
    ensures { result ≡ at_most count }
{
    match count {
        Some(count) if count <= 4_294_967_295 => Some(Seconds::new(count as u32)),
        _ => None,
    }
}

/// After which time versions are deleted: only the text `0s`, which is never, is accepted.
#[derive(Clone, Copy, Debug, PartialEq, Eq)]
pub(crate) enum DeletionTime {
    Never,
}

impl FromMember for DeletionTime {
    ghost kind = { kind.as_deletion_time };

    fn from_member(_: Global, member: &Value) -> Result<Option<DeletionTime>, AllocError> {
        match member {
            Value::String(text) => Ok(deletion_time(text.as_str())),
            Value::Null | Value::Bool(_) | Value::Number(_) | Value::Array(_) | Value::Object(_) =>
                Ok(None),
        }
    }
}

fn deletion_time(text: &str) -> Option<DeletionTime>
    ensures { result ≡ kind.deletion_time_text text.now }
{
    if text == "0s" {
        Some(DeletionTime::Never)
    } else {
        None
    }
}
