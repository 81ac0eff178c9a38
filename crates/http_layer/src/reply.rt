//! Answers as bytes of HTTP/1.1: the status line, the fields and the body.

ghost use Rattle.std.specs.Prelude.{◌≡◌, ◌+◌, ◌≤◌, ◌++◌, length, IsOk, OnOk, OnErr, vec_capacity, vec_len};
ghost use Rattle.broker_types.specs.Answer.{response_of};
ghost use Rattle.broker_types.specs.Status.{status_code};
ghost use Rattle.http_layer.specs.Reply.{IsReply, status_line, date_line, allow_line, connection_line, body_lines};
ghost use Rattle.http_layer.specs.Reply.{reply_body, comma_joined, method_names, phrase_of};
ghost use Rattle.httpdate.specs.Date.{unix_secs, date_text};
ghost use Rattle.httpdate.specs.declared.date.HttpDate.{HttpDate as Date};

use crate::lines::Lines;
use broker_types::{Answer, Methods, Moment, Status};
use http::StatusCode;
use httpdate::HttpDate;
use itoa::Buffer;
use std::alloc::AllocError;
use std::marker::Model;

/// The bytes of a reply (RFC 9112, sections 2.1 and 4): its head, and the text of the answer if the
/// reply has a body. Contracts see the list of the bytes.
#[derive(Drop)]
pub struct ReplyBytes<'a> {
    head: Lines,
    body: &'a [u8],
}

impl<'a> Model for ReplyBytes<'a> {
    ghost use Rattle.std.specs.Prelude.{ℕ, List, ◌++◌, ◌≤◌, length};

    ghost Value = { List ℕ };

    ghost view = { λ r. r.head ++ r.body.now };

    ghost invariant = { λ r. length r.head ≤ 512 };
}

impl<'a> ReplyBytes<'a> {
    /// Adds the bytes at the end of the room. The only error is running out of memory, which does not
    /// happen if the room suffices; the room then holds what it held before.
    pub fn append_to(&self, room: &mut Vec<u8>) -> Result<(), AllocError>
        ensures ok { OnOk result (room.new.items ≡ room.old.items ++ self.now) }
        ensures err { OnErr result (room.new.items ≡ room.old.items) }
        ensures succeeds { vec_len room.old + length self.now ≤ vec_capacity room.old → IsOk result }
    {
        let head = self.head.as_slice();
        room.reserve(head.len() + self.body.len())?;
        room.extend_from_slice(head)?;
        room.extend_from_slice(self.body)
    }
}

/// The bytes of the reply to an answer, with the date of the moment (RFC 9110, section 6.6.1), and with
/// `Connection: close` if the connection closes. It allocates nothing.
pub fn reply_bytes<'a>(answer: &'a Answer, moment: Moment, close: bool) -> ReplyBytes<'a>
    ensures reply { IsReply (response_of answer.now) moment close result }
    ensures fits { length result ≤ length answer.now.text + 1024 }
{
    let text = answer.text.as_str().as_bytes();
    let mut head = Lines::new();
    add_status_line(&mut head, answer.status);
    add_date_line(&mut head, date_of(moment));
    add_allow_line(&mut head, answer.status, answer.methods);
    head.add(b"Cache-Control: no-store\r\n");
    add_connection_line(&mut head, close);
    add_body_lines(&mut head, answer.status, text.len());
    head.add(b"\r\n");
    ReplyBytes {
        head,
        body: reply_body(answer.status, text),
    }
}

fn add_status_line(head: &mut Lines, status: Status)
    requires { length head.old ≤ 64 }
    ensures line { head.new ≡ head.old ++ status_line status }
    ensures short { length head.new ≤ length head.old + 64 }
{
    let code = code_of(status);
    head.add(b"HTTP/1.1 ");
    head.add(code.as_str().as_bytes());
    head.add(b" ");
    head.add(phrase(status));
    head.add(b"\r\n");
}

/// The status code, as a value of `http`.
fn code_of(status: Status) -> StatusCode
    ensures { result ≡ status_code status }
{
    match status {
        Status::Success => StatusCode::OK,
        Status::NoContent => StatusCode::NO_CONTENT,
        Status::BadRequest => StatusCode::BAD_REQUEST,
        Status::Forbidden => StatusCode::FORBIDDEN,
        Status::NotFound => StatusCode::NOT_FOUND,
        Status::MethodNotAllowed => StatusCode::METHOD_NOT_ALLOWED,
        Status::PayloadTooLarge => StatusCode::PAYLOAD_TOO_LARGE,
        Status::HeaderFieldsTooLarge => StatusCode::REQUEST_HEADER_FIELDS_TOO_LARGE,
        Status::InternalServerError => StatusCode::INTERNAL_SERVER_ERROR,
        Status::NotImplemented => StatusCode::NOT_IMPLEMENTED,
    }
}

fn phrase(status: Status) -> &'static [u8]
    ensures text { result.now ≡ phrase_of status }
    ensures short { length result.now ≤ 31 }
{
    match code_of(status).canonical_reason() {
        Some(phrase) => phrase.as_bytes(),
        None => b"",
    }
}

fn add_date_line(head: &mut Lines, date: HttpDate)
    requires { length head.old ≤ 128 }
    ensures line { head.new ≡ head.old ++ date_line (date_text date) }
    ensures short { length head.new ≤ length head.old + 64 }
{
    head.add(b"Date: ");
    head.add(&date.to_bytes());
    head.add(b"\r\n");
}

fn date_of(moment: Moment) -> HttpDate
    ensures { unix_secs result ≡ moment }
{
    HttpDate::from_unix_secs(moment.seconds()).unwrap()
}

fn add_allow_line(head: &mut Lines, status: Status, methods: Methods)
    requires { length head.old ≤ 256 }
    ensures line { head.new ≡ head.old ++ allow_line status methods }
    ensures short { length head.new ≤ length head.old + 64 }
{
    if let Status::MethodNotAllowed = status {
        head.add(b"Allow: ");
        head.add(methods_text(methods));
        head.add(b"\r\n");
    }
}

/// The names of the methods, with a comma and a space between them.
fn methods_text(methods: Methods) -> &'static [u8]
    ensures text { result.now ≡ comma_joined (method_names methods) }
    ensures short { length result.now ≤ 30 }
{
    match (methods.get, methods.list, methods.write, methods.delete) {
        (false, false, false, false) => b"",
        (false, false, false, true) => b"DELETE",
        (false, false, true, false) => b"POST, PUT",
        (false, false, true, true) => b"POST, PUT, DELETE",
        (false, true, false, false) => b"LIST",
        (false, true, false, true) => b"LIST, DELETE",
        (false, true, true, false) => b"LIST, POST, PUT",
        (false, true, true, true) => b"LIST, POST, PUT, DELETE",
        (true, false, false, false) => b"GET",
        (true, false, false, true) => b"GET, DELETE",
        (true, false, true, false) => b"GET, POST, PUT",
        (true, false, true, true) => b"GET, POST, PUT, DELETE",
        (true, true, false, false) => b"GET, LIST",
        (true, true, false, true) => b"GET, LIST, DELETE",
        (true, true, true, false) => b"GET, LIST, POST, PUT",
        (true, true, true, true) => b"GET, LIST, POST, PUT, DELETE",
    }
}

fn add_connection_line(head: &mut Lines, close: bool)
    requires { length head.old ≤ 320 }
    ensures line { head.new ≡ head.old ++ connection_line close }
    ensures short { length head.new ≤ length head.old + 64 }
{
    if close {
        head.add(b"Connection: close\r\n");
    }
}

fn add_body_lines(head: &mut Lines, status: Status, len: usize)
    requires { length head.old ≤ 384 }
    ensures line { head.new ≡ head.old ++ body_lines status len }
    ensures short { length head.new ≤ length head.old + 100 }
{
    match status {
        Status::NoContent => {}
        Status::NotImplemented => head.add(b"Content-Length: 0\r\n"),
        _ => {
            let mut digits = Buffer::new();
            head.add(b"Content-Type: application/json\r\nContent-Length: ");
            head.add(digits.format(len).as_bytes());
            head.add(b"\r\n");
        }
    }
}

fn reply_body<'a>(status: Status, text: &'a [u8]) -> &'a [u8]
    ensures { result.now ≡ reply_body status text.now }
{
    match status {
        Status::NoContent | Status::NotImplemented => b"",
        _ => text,
    }
}
