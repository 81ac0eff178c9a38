//! Heads of replies read: the status, and how long a body follows.

ghost use Rattle.std.specs.Prelude.{◌≡◌, All, codes, length, map, option_map, slice_get};
ghost use Rattle.httparse.specs.Spans.{IsHeaderWithin, header_bytes};
ghost use Rattle.http_layer.specs.HeadParts.{values_named};
ghost use Rattle.api_client.specs.Replies.{length_told, reply_length};
ghost use Rattle.api_client.specs.ReplyHeads.{IsHeadRead};

use crate::numbers::is_number;
use httparse::spans::{EMPTY_HEADER_SPAN, HeaderSpan, parse_response};
use std::str;

/// The longest body of a reply, in bytes.
const BODY_LIMIT: u32 = 16_777_216;

/// What the head of a reply says.
#[derive(Clone, Copy)]
pub(crate) struct ReplyHead {
    /// The length of the head in bytes, with the empty lines before and after it.
    pub(crate) len: usize,
    pub(crate) status: u16,
    /// The length of the body in bytes; none if the head tells none within the limit.
    pub(crate) body_len: Option<usize>,
}

/// What some bytes show of the head of a reply.
#[derive(Clone, Copy)]
pub(crate) enum HeadRead {
    Whole(ReplyHead),
    /// It may end later.
    Unended,
    /// There is none, whatever follows.
    Refused,
}

/// The head that the bytes begin with (RFC 9112, sections 4 and 5).
pub(crate) fn read_head(bytes: &[u8]) -> HeadRead
    ensures { IsHeadRead bytes.now result }
{
    let mut headers = [EMPTY_HEADER_SPAN; 64];
    match parse_response(bytes, &mut headers) {
        Ok(httparse::Status::Complete(spans)) => HeadRead::Whole(ReplyHead {
            len: spans.len,
            status: spans.code,
            body_len: body_len_of(bytes, &headers[..spans.headers]),
        }),
        Ok(httparse::Status::Partial) => HeadRead::Unended,
        Err(_) => HeadRead::Refused,
    }
}

/// The length of the body by the fields.
fn body_len_of(bytes: &[u8], headers: &[HeaderSpan]) -> Option<usize>
    requires { All (IsHeaderWithin (length bytes.now)) headers.now }
    ensures { result ≡ reply_length (map (header_bytes bytes.now) headers.now) }
{
    match first_length(bytes, headers) {
        Some(value) => length_of(value),
        None => Some(0),
    }
}

/// The value of the first Content-Length field.
fn first_length<'b>(bytes: &'b [u8], headers: &[HeaderSpan]) -> Option<&'b [u8]>
    requires { All (IsHeaderWithin (length bytes.now)) headers.now }
    ensures { option_map (λ v. v.now) result
        ≡ slice_get (values_named (codes "content-length") (map (header_bytes bytes.now) headers.now)) 0 }
{
    for header in headers {
        if header
            .name
            .of(bytes)
            .eq_ignore_ascii_case(b"content-length")
        {
            return Some(header.value.of(bytes));
        }
    }
    None
}

/// The length that a value tells.
fn length_of(value: &[u8]) -> Option<usize>
    ensures { result ≡ length_told value.now }
{
    if !is_number(value) {
        return None;
    }
    match str::from_utf8(value).unwrap().parse::<u32>() {
        Ok(len) if len <= BODY_LIMIT => Some(len as usize),
        _ => None,
    }
}
