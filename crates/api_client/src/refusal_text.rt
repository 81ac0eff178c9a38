//! Why a server refuses, as its reply tells it. Nothing is claimed of these functions but that they are safe and end.

use crate::json_values::parsed;
use crate::reply::Reply;
use http::StatusCode;
use serde_json::Value;
use std::alloc::{AllocError, Global};
use std::str;

/// The texts of the reply's `errors` (Vault's documentation, "HTTP API", error response) after a space, with semicolons
/// between; without one the reason phrase of the status (RFC 9110, section 15). A control character becomes `?`, so
/// that a line stays one.
pub(crate) fn reason_of(alloc: Global, reply: &Reply) -> Result<Vec<u8>, AllocError> {
    let mut reason = Vec::new(alloc);
    if let Ok(text) = str::from_utf8(reply.body.as_slice())
        && let Some(value) = parsed(alloc, text)?
    {
        push_errors(&mut reason, &value)?;
    }
    if reason.is_empty()
        && let Ok(status) = StatusCode::from_u16(reply.status)
        && let Some(phrase) = status.canonical_reason()
    {
        reason.push(b' ')?;
        reason.extend_from_slice(phrase.as_bytes())?;
    }
    Ok(reason)
}

/// Adds the texts of the errors.
fn push_errors(reason: &mut Vec<u8>, reply: &Value) -> Result<(), AllocError> {
    let Some(errors) = reply.get("errors").and_then(Value::as_array) else {
        return Ok(());
    };
    let mut separator = " ";
    for error in errors {
        if let Some(text) = error.as_str() {
            reason.extend_from_slice(separator.as_bytes())?;
            push_printable(reason, text)?;
            separator = "; ";
        }
    }
    Ok(())
}

/// Adds a text, in which a control character becomes `?`.
fn push_printable(reason: &mut Vec<u8>, text: &str) -> Result<(), AllocError> {
    for byte in text.as_bytes() {
        reason.push(if byte.is_ascii_control() { b'?' } else { *byte })?;
    }
    Ok(())
}
