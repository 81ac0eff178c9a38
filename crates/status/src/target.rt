//! What a head asks for.

ghost use Rattle.std.specs.Prelude.{◌≡◌};
ghost use Rattle.http_layer.specs.Query.{target_path};
ghost use Rattle.http_layer.specs.Front.{need};
ghost use Rattle.status.specs.Replies.{asked_by, asked_for, asked_of, asked_within, code_of, IsAsked, shown_at};

use broker_types::Status;
use http_layer::{Cut, Head, cut};

/// How many bytes a head has at most.
const LONGEST_HEAD: usize = 2_048;

/// What a path shows.
#[derive(Clone, Copy, Debug, PartialEq, Eq)]
pub(crate) enum Shown {
    Health,
    Metrics,
    Page,
}

/// The status of a reply (RFC 9110, section 15; 431 is of RFC 6585).
#[derive(Clone, Copy, Debug, PartialEq, Eq)]
pub(crate) enum Code {
    Success,
    BadRequest,
    NotFound,
    MethodNotAllowed,
    ContentTooLarge,
    HeaderFieldsTooLarge,
    NotImplemented,
    ServiceUnavailable,
}

/// What a head asks for.
#[derive(Clone, Copy, Debug, PartialEq, Eq)]
pub(crate) enum Asked {
    /// It has not ended.
    Unended,
    /// Nothing that is shown: it is refused.
    Nothing(Code),
    /// What a path shows, with the body or without it.
    Shown(Shown, bool),
}

/// What the bytes ask for (RFC 9112, sections 2 to 6).
pub(crate) fn read_asked(bytes: &[u8]) -> Asked
    ensures { IsAsked bytes.now result }
{
    match cut(bytes) {
        Cut::Need => unended(bytes.len()),
        Cut::Refused { status } => Asked::Nothing(code_of(status)),
        Cut::Whole {
            len,
            head,
            body: _body,
        } => asked_within(len, &head),
    }
}

/// What so many bytes ask for whose request has not ended.
fn unended(len: usize) -> Asked
    ensures { result ≡ asked_of len need }
{
    if len < LONGEST_HEAD {
        Asked::Unended
    } else {
        Asked::Nothing(Code::HeaderFieldsTooLarge)
    }
}

/// What a request asks for that has so many bytes.
fn asked_within(len: usize, head: &Head<'_>) -> Asked
    ensures { result ≡ asked_within len head.now }
{
    if len <= LONGEST_HEAD {
        asked_by(head)
    } else {
        Asked::Nothing(Code::HeaderFieldsTooLarge)
    }
}

/// The status of a refusal of the bytes.
fn code_of(status: Status) -> Code
    ensures { result ≡ code_of status }
{
    match status {
        Status::PayloadTooLarge => Code::ContentTooLarge,
        Status::HeaderFieldsTooLarge => Code::HeaderFieldsTooLarge,
        Status::NotImplemented => Code::NotImplemented,
        Status::Success
        | Status::NoContent
        | Status::BadRequest
        | Status::Forbidden
        | Status::NotFound
        | Status::MethodNotAllowed
        | Status::InternalServerError => Code::BadRequest,
    }
}

/// What a whole head asks for.
fn asked_by(head: &Head<'_>) -> Asked
    ensures { result ≡ asked_by head.now }
{
    match shown_at(path_of(head.target())) {
        Some(shown) => asked_for(shown, head.method()),
        None => Asked::Nothing(Code::NotFound),
    }
}

/// What a method asks for at a path that shows something.
fn asked_for(shown: Shown, method: &[u8]) -> Asked
    ensures { result ≡ asked_for shown method.now }
{
    if method == b"GET".as_slice() {
        return Asked::Shown(shown, true);
    }
    if method == b"HEAD".as_slice() {
        return Asked::Shown(shown, false);
    }
    Asked::Nothing(Code::MethodNotAllowed)
}

/// The path of a target: what comes before its first `?` (RFC 3986, section 3.4).
fn path_of<'b>(target: &'b str) -> &'b str
    ensures { result.now ≡ target_path target.now }
{
    match target.split_once('?') {
        Some((path, _)) => path,
        None => target,
    }
}

/// What is shown at a path.
fn shown_at(path: &str) -> Option<Shown>
    ensures { result ≡ shown_at path.now }
{
    if path == "/health" || path == "/v1/sys/health" {
        return Some(Shown::Health);
    }
    if path == "/metrics" {
        return Some(Shown::Metrics);
    }
    if path == "/" {
        return Some(Shown::Page);
    }
    None
}
