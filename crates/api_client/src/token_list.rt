//! All tokens, a line each. Nothing is claimed of these functions but that they are safe and end.

use crate::json_values::parsed;
use serde_json::Value;
use std::alloc::{AllocError, Global};
use std::str;

/// The accessors in the body of a reply to `LIST auth/token/accessors`; none if they are not there. The only error is
/// running out of memory.
pub fn accessors_in(alloc: Global, body: &[u8]) -> Result<Option<Vec<String>>, AllocError> {
    let Some(reply) = json_in(alloc, body)? else {
        return Ok(None);
    };
    let Some(keys) = reply.pointer("/data/keys").and_then(Value::as_array) else {
        return Ok(None);
    };
    let mut accessors = Vec::new(alloc);
    for key in keys {
        if let Some(accessor) = key.as_str() {
            accessors.push(String::from_str(alloc, accessor)?)?;
        }
    }
    Ok(Some(accessors))
}

/// The line of a token, by the body of the reply to its look-up: its accessor, its policies with commas between, and
/// when it expires, or `never`. None if the body does not say. The only error is running out of memory.
pub fn token_line(
    alloc: Global,
    accessor: &str,
    body: &[u8],
) -> Result<Option<String>, AllocError> {
    let Some(reply) = json_in(alloc, body)? else {
        return Ok(None);
    };
    let Some(policies) = reply.pointer("/data/policies").and_then(Value::as_array) else {
        return Ok(None);
    };
    let mut line = String::from_str(alloc, accessor)?;
    let mut separator = "  ";
    for policy in policies {
        line.push_str(separator)?;
        line.push_str(policy.as_str().unwrap_or("?"))?;
        separator = ",";
    }
    line.push_str("  ")?;
    line.push_str(
        reply
            .pointer("/data/expire_time")
            .and_then(Value::as_str)
            .unwrap_or("never"),
    )?;
    line.push_str("\n")?;
    Ok(Some(line))
}

fn json_in(alloc: Global, body: &[u8]) -> Result<Option<Value>, AllocError> {
    match str::from_utf8(body) {
        Ok(text) => parsed(alloc, text),
        Err(_) => Ok(None),
    }
}
