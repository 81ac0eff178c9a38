//! Heads of requests, with what they say of the body and of the connection.

ghost use Rattle.std.specs.Prelude.{◌≡◌, ◌<◌, ◌≤◌, length, codes, IfSome, IfNone, IfOk};
ghost use Rattle.broker_types.specs.Limits.{longest_body};
ghost use Rattle.http_layer.specs.HeadParts.{HeadParts, IsHead, values_named};
ghost use Rattle.http_layer.specs.Closing.{closes};
ghost use Rattle.http_layer.specs.Front.{body_length, may_have_hosts};
ghost use Rattle.http_layer.specs.Named.{AreNamed};

use crate::closing::asks_to_close;
use crate::fields::{Named, find_named};
use crate::length::body_len_of;
use broker_types::Status;
use httparse::spans::{EMPTY_HEADER_SPAN, HeaderSpan, RequestSpans, parse_request};
use std::marker::Model;
use std::str;

/// A request head, borrowed from the bytes of its connection (RFC 9112, sections 3 and 5).
#[derive(Drop)]
pub struct Head<'b> {
    text: &'b [u8],
    spans: RequestSpans,
    headers: [HeaderSpan; 64],
}

impl<'b> Model for Head<'b> {
    ghost use Rattle.std.specs.Prelude.{map, take};
    ghost use Rattle.http_layer.specs.HeadParts.{HeadParts, HeadInvariant};
    ghost use Rattle.httparse.specs.Spans.{span_bytes, header_bytes};

    ghost Value = { HeadParts };

    ghost view = { λ h. record {
      method = span_bytes h.text.now h.spans.method;
      target = span_bytes h.text.now h.spans.path;
      minor = h.spans.version;
      size = h.spans.len;
      fields = map (header_bytes h.text.now) (take h.spans.headers h.headers);
    } };

    ghost invariant = { λ h. HeadInvariant h.text.now h.headers h.spans };
}

impl<'b> Head<'b> {
    /// The head that these bytes are; none if they are not exactly one head of at most 64 fields.
    pub(crate) fn read(text: &'b [u8]) -> Option<Head<'b>>
        ensures read { IfSome result (IsHead text.now) }
        ensures size { IfSome result (λ h. h.size ≡ length text.now) }
        ensures none { IfNone result ((p : HeadParts) → ¬ (IsHead text.now p)) }
    {
        let mut headers = [EMPTY_HEADER_SPAN; 64];
        match parse_request(text, &mut headers) {
            Ok(httparse::Status::Complete(spans)) if spans.len == text.len() => Some(Head {
                text,
                spans,
                headers,
            }),
            _ => None,
        }
    }

    /// The method, in its own case (RFC 9110, section 9.1).
    pub fn method(&self) -> &'b [u8]
        ensures { result.now ≡ self.now.method }
    {
        self.spans.method.of(self.text)
    }

    /// The target, not decoded (RFC 9112, section 3.2).
    pub fn target(&self) -> &'b str
        ensures value { result.now ≡ self.now.target }
        ensures nonempty { 0 < length result.now }
    {
        str::from_utf8(self.spans.path.of(self.text)).unwrap()
    }

    /// Whether the connection closes after the reply: the request is HTTP/1.0, or a Connection field
    /// has the element `close` in any case (RFC 9112, sections 9.3 and 9.6).
    pub fn closes(&self) -> bool
        ensures { result ≡ closes self.now }
    {
        self.spans.version == 0 || asks_to_close(self.text, &self.headers[..self.spans.headers])
    }

    /// The fields with the name, in any case.
    pub(crate) fn named(&self, name: &[u8]) -> Named<'b>
        ensures { AreNamed (values_named name.now self.now.fields) result }
    {
        find_named(self.text, &self.headers[..self.spans.headers], name)
    }

    /// The length of the body in bytes, or the status of the refusal.
    pub(crate) fn body_len(&self) -> Result<usize, Status>
        ensures length { result ≡ body_length self.now }
        ensures short { IfOk result (λ len. len ≤ longest_body) }
    {
        if !matches!(self.named(b"transfer-encoding"), Named::Absent) {
            return Err(Status::NotImplemented);
        }
        if !self.may_have_its_hosts() {
            return Err(Status::BadRequest);
        }
        match self.named(b"content-length") {
            Named::Absent => Ok(0),
            Named::Once(value) => body_len_of(value),
            Named::Several => Err(Status::BadRequest),
        }
    }

    /// Whether there is one Host field, or none in HTTP/1.0.
    fn may_have_its_hosts(&self) -> bool
        ensures { result ≡ may_have_hosts self.now.minor (length (values_named (codes "host") self.now.fields)) }
    {
        match self.named(b"host") {
            Named::Absent => self.spans.version == 0,
            Named::Once(_) => true,
            Named::Several => false,
        }
    }
}
