//! Lines without tokens.

ghost use Rattle.std.specs.Prelude.{◌≡◌, ◌++◌, [], false, IfOk, OnOk};
ghost use Rattle.server.specs.Hiding.{HidesTokens, hidden, hidden_segment, is_boundary};

use std::alloc::{AllocError, Global};

/// A line, without its end, in which no segment begins as a token does: such a segment is shown as `hvs.*`. A segment
/// is what stands between two of a space, `"`, `/`, `=`, `?` and the ends of the line.
#[derive(Drop)]
pub(crate) struct Line {
    bytes: Vec<u8>,
    ghost hides: { HidesTokens bytes.items },
}

impl Line {
    ghost use Rattle.std.specs.Prelude.{◌≡◌, [], IfOk};
    ghost use Rattle.server.specs.Hiding.{HidesTokens, hidden};
    ghost use Rattle.server.specs.Lines.{bytes_of};

    /// The line of these bytes.
    pub(crate) fn new(alloc: Global, bytes: Vec<u8>) -> Result<Line, AllocError>
        ensures { IfOk result (λ line. bytes_of line ≡ hidden [] bytes.items) }
    {
        Ok(Line {
            bytes: hide_tokens(alloc, bytes)?,
        })
    }

    /// The bytes.
    pub(crate) fn as_slice(&self) -> &[u8]
        ensures bytes { result.now ≡ bytes_of self.now }
        ensures hides { HidesTokens result.now }
    {
        &self.bytes
    }
}

/// The bytes, with each segment as it is shown. Hardly any line has something to hide: it stays as it is.
fn hide_tokens(alloc: Global, line: Vec<u8>) -> Result<Vec<u8>, AllocError>
    ensures exact { IfOk result (λ shown. shown.items ≡ hidden [] line.items) }
    ensures hides { IfOk result (λ shown. HidesTokens shown.items) }
{
    if may_have_token(&line) {
        hide_segments(alloc, &line)
    } else {
        Ok(line)
    }
}

/// Whether a token may begin somewhere in the line.
fn may_have_token(line: &[u8]) -> bool
    ensures { result ≡ false → hidden [] line.now ≡ line.now }
{
    for (i, byte) in line.iter().enumerate() {
        if *byte == b'h' && line[i..].starts_with(b"hvs.") {
            return true;
        }
    }
    false
}

/// The bytes, with each segment as it is shown.
fn hide_segments(alloc: Global, line: &[u8]) -> Result<Vec<u8>, AllocError>
    ensures exact { IfOk result (λ shown. shown.items ≡ hidden [] line.now) }
    ensures hides { IfOk result (λ shown. HidesTokens shown.items) }
{
    let mut shown = Vec::new(alloc);
    shown.reserve(line.len())?;
    let mut start = 0;
    for (i, byte) in line.iter().enumerate() {
        if is_boundary(*byte) {
            push_hidden(&mut shown, &line[start..i])?;
            shown.push(*byte)?;
            start = i + 1;
        }
    }
    push_hidden(&mut shown, &line[start..])?;
    Ok(shown)
}

/// Adds a segment, as it is shown.
fn push_hidden(shown: &mut Vec<u8>, segment: &[u8]) -> Result<(), AllocError>
    ensures { OnOk result (shown.new.items ≡ shown.old.items ++ hidden_segment segment.now) }
{
    if segment.starts_with(b"hvs.") {
        shown.extend_from_slice(b"hvs.*")
    } else {
        shown.extend_from_slice(segment)
    }
}

/// Whether a segment ends before this byte, and another begins after it.
fn is_boundary(byte: u8) -> bool
    ensures { result ≡ is_boundary byte }
{
    byte == b' ' || byte == b'"' || byte == b'/' || byte == b'=' || byte == b'?'
}
