//! The bytes of a body as the members of a line. No clause says which: what they stand for is read again.

use crate::layout::{Field, Form};
use serde_json::{Map, Value, put};
use std::alloc::{AllocError, Global};

/// A value, and the bytes after it.
type Cut<'b, X> = Option<(X, &'b [u8])>;

fn cut_number(bytes: &[u8]) -> Cut<'_, u64> {
    let (front, left) = bytes.split_first_chunk::<8>()?;
    Some((u64::from_be_bytes(*front), left))
}

fn cut_count(bytes: &[u8]) -> Cut<'_, u64> {
    let (front, left) = bytes.split_first_chunk::<4>()?;
    Some((u64::from(u32::from_be_bytes(*front)), left))
}

/// A text of so many bytes.
fn cut_sized(bytes: &[u8], len: u64) -> Cut<'_, &str> {
    if (bytes.len() as u64) < len {
        return None;
    }
    let (front, left) = bytes.split_at(len as usize);
    let text = str::from_utf8(front).ok()?;
    Some((text, left))
}

/// A text after its length of four bytes.
fn cut_text(bytes: &[u8]) -> Cut<'_, &str> {
    let (len, left) = cut_count(bytes)?;
    cut_sized(left, len)
}

fn text_value<'b>(alloc: Global, cut: Cut<'b, &str>) -> Result<Cut<'b, Value>, AllocError> {
    match cut {
        Some((text, left)) => Ok(Some((Value::try_from_str(alloc, text)?, left))),
        None => Ok(None),
    }
}

fn number_value(bytes: &[u8]) -> Cut<'_, Value> {
    let (n, left) = cut_number(bytes)?;
    Some((Value::from(n), left))
}

fn optional_value(bytes: &[u8]) -> Cut<'_, Value> {
    match bytes {
        [0, left @ ..] => Some((Value::Null, left)),
        [1, left @ ..] => number_value(left),
        _ => None,
    }
}

fn flag_value(bytes: &[u8]) -> Cut<'_, Value> {
    match bytes {
        [0, left @ ..] => Some((Value::Bool(false), left)),
        [1, left @ ..] => Some((Value::Bool(true), left)),
        _ => None,
    }
}

fn long_value(alloc: Global, bytes: &[u8]) -> Result<Cut<'_, Value>, AllocError> {
    match cut_number(bytes) {
        Some((len, left)) => text_value(alloc, cut_sized(left, len)),
        None => Ok(None),
    }
}

fn texts_value(alloc: Global, bytes: &[u8]) -> Result<Cut<'_, Value>, AllocError> {
    let Some((count, left)) = cut_count(bytes) else {
        return Ok(None);
    };
    let mut left = left;
    let mut items = Vec::new(alloc);
    for _ in 0..count {
        match text_value(alloc, cut_text(left))? {
            Some((item, after)) => {
                items.push(item)?;
                left = after;
            }
            None => return Ok(None),
        }
    }
    Ok(Some((Value::Array(items), left)))
}

fn pairs_value(alloc: Global, bytes: &[u8]) -> Result<Cut<'_, Value>, AllocError> {
    let Some((count, left)) = cut_count(bytes) else {
        return Ok(None);
    };
    let mut left = left;
    let mut members = Map::new(alloc);
    for _ in 0..count {
        let Some((name, after)) = cut_text(left) else {
            return Ok(None);
        };
        match text_value(alloc, cut_text(after))? {
            Some((value, after)) => {
                put(&mut members, alloc, name, value)?;
                left = after;
            }
            None => return Ok(None),
        }
    }
    Ok(Some((Value::Object(members), left)))
}

fn field_value(alloc: Global, form: Form, bytes: &[u8]) -> Result<Cut<'_, Value>, AllocError> {
    match form {
        Form::Number => Ok(number_value(bytes)),
        Form::OptionalNumber => Ok(optional_value(bytes)),
        Form::Flag => Ok(flag_value(bytes)),
        Form::Text => text_value(alloc, cut_text(bytes)),
        Form::LongText => long_value(alloc, bytes),
        Form::Texts => texts_value(alloc, bytes),
        Form::Pairs => pairs_value(alloc, bytes),
    }
}

/// The fields of a layout, if the bytes are these and no more.
pub(crate) fn members_of(
    alloc: Global,
    fields: &[Field],
    bytes: &[u8],
) -> Result<Option<Map<String, Value>>, AllocError> {
    let mut left = bytes;
    let mut members = Map::new(alloc);
    for field in fields {
        match field_value(alloc, field.1, left)? {
            Some((value, after)) => {
                put(&mut members, alloc, field.0, value)?;
                left = after;
            }
            None => return Ok(None),
        }
    }
    if left.is_empty() {
        Ok(Some(members))
    } else {
        Ok(None)
    }
}
