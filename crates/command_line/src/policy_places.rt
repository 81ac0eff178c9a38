//! Places in policies, and where they stand in a text.

use json::{Invalid, MAX_DEPTH, Reader, Scratch, Token};
use std::alloc::{AllocError, Global};

/// A place in a policy.
#[derive(Clone, Copy)]
pub(crate) enum Place<'v> {
    Start,
    /// A member of the policy.
    Member(&'v str),
    /// A rule, by its pattern.
    Pattern(&'v str),
    /// A member of a rule, by the pattern and the name.
    RuleMember(&'v str, &'v str),
    /// A capability, by the pattern and the index.
    Capability(&'v str, usize),
}

/// How many bytes stand before a place in the text of a policy; before its first byte that is no white space, if the
/// place is not there. The only error is running out of memory.
pub(crate) fn offset_of(alloc: Global, text: &str, place: Place<'_>) -> Result<usize, AllocError> {
    let mut scratch = Scratch::new(alloc);
    let mut reader = Reader::new(text, &mut scratch)?;
    let begin = match place {
        Place::Start => Err(Invalid),
        Place::Member(name) => member(&mut reader, name),
        Place::Pattern(pattern) => nested(&mut reader, &["path", pattern]),
        Place::RuleMember(pattern, name) => nested(&mut reader, &["path", pattern, name]),
        Place::Capability(pattern, index) => item(&mut reader, pattern, index),
    };
    Ok(after_marks(text.as_bytes(), begin.unwrap_or(0)))
}

/// Goes to the value of a member of a member, and so on, and answers where the last one begins.
fn nested(reader: &mut Reader<'_>, names: &[&str]) -> Result<usize, Invalid> {
    let mut begin = 0;
    for name in names {
        begin = member(reader, name)?;
    }
    Ok(begin)
}

/// Goes into an object to the value of the first member of this name, and answers where the member begins.
fn member(reader: &mut Reader<'_>, name: &str) -> Result<usize, Invalid> {
    let Some(Token::BeginObject) = reader.next() else {
        return Err(Invalid);
    };
    let mut begin = reader.offset();
    while let Some(key) = reader.next_key()? {
        if key == name {
            return Ok(begin);
        }
        reader.skip_value(MAX_DEPTH)?;
        begin = reader.offset();
    }
    Err(Invalid)
}

/// Goes to a capability of a rule, and answers where it begins.
fn item(reader: &mut Reader<'_>, pattern: &str, index: usize) -> Result<usize, Invalid> {
    nested(reader, &["path", pattern, "capabilities"])?;
    let Some(Token::BeginArray) = reader.next() else {
        return Err(Invalid);
    };
    for _ in 0..index {
        reader.skip_value(MAX_DEPTH)?;
    }
    Ok(reader.offset())
}

/// The place from here on of the first byte that is neither white space nor a mark between members and items.
fn after_marks(text: &[u8], begin: usize) -> usize {
    for (offset, byte) in text.iter().enumerate().skip(begin) {
        if !is_mark(*byte) {
            return offset;
        }
    }
    begin
}

fn is_mark(byte: u8) -> bool {
    matches!(byte, b' ' | b'\t' | b'\r' | b'\n' | b',' | b':')
}

/// The line and the place in it after so many bytes, both from 1.
pub(crate) fn position_of(text: &str, offset: usize) -> (usize, usize) {
    let before = &text.as_bytes()[..offset.min(text.len())];
    let mut line = 1usize;
    let mut column = 1usize;
    for byte in before {
        if *byte == b'\n' {
            line = line.saturating_add(1);
            column = 1;
        } else {
            column = column.saturating_add(1);
        }
    }
    (line, column)
}
