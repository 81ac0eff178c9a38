//! What is printed of a reply.

ghost use Rattle.std.specs.Prelude.{◌≡◌, ◌==◌, IfOk, IsOk, [], true};
ghost use Rattle.api_client.specs.Shows.{IsFieldShown, IsMemberShown, IsRefusalShown, IsShown, is_success};
ghost use Rattle.api_client.specs.Shows.{missing_line, refusal_status, show, status_after};

use crate::field::{Field, field_of};
use crate::manner::Manner;
use crate::refusal_text::reason_of;
use crate::reply::Reply;
use broker_types::{Bytes, CowBytes};
use std::alloc::{AllocError, Global};
use std::borrow::CowSlice;

/// What is printed of a reply, and the exit status.
#[derive(Drop)]
pub(crate) struct Shown<'r> {
    /// On standard output.
    pub(crate) out: CowBytes<'r>,
    /// On standard error.
    pub(crate) err: Bytes,
    pub(crate) status: u8,
}

/// What is printed of a reply in this manner. The only error is running out of memory.
pub(crate) fn shown_of<'r>(
    alloc: Global,
    manner: &Manner<'_>,
    reply: &'r Reply,
) -> Result<Shown<'r>, AllocError>
    ensures shown { IfOk result (IsShown manner.now reply.now) }
    ensures plain { manner.now.plain ≡ true → IsOk result }
{
    if manner.plain {
        return Ok(whole(alloc, reply, status_after(reply.status)));
    }
    if !is_success(reply.status) {
        return refused(alloc, manner, reply);
    }
    match &manner.field {
        Some(name) => member(alloc, reply, name.as_str()),
        None if manner.silent => Ok(nothing(alloc)),
        None => Ok(whole(alloc, reply, 0)),
    }
}

/// The exit status after a reply that is printed whatever its status.
fn status_after(code: u16) -> u8
    ensures { result ≡ status_after code }
{
    if is_success(code) { 0 } else { 1 }
}

/// Whether a status is 200 (OK) or 204 (No Content).
fn is_success(code: u16) -> bool
    ensures { result ≡ is_success code }
{
    code == 200 || code == 204
}

/// The body as it is.
fn whole<'r>(alloc: Global, reply: &'r Reply, status: u8) -> Shown<'r>
    ensures { result ≡ show reply.now.body [] status }
{
    Shown {
        out: CowBytes::new(CowSlice::Borrowed(reply.body.as_slice())),
        err: Bytes::new(Vec::new(alloc)),
        status,
    }
}

fn nothing<'r>(alloc: Global) -> Shown<'r>
    ensures { result ≡ show [] [] 0 }
{
    Shown {
        out: CowBytes::new(CowSlice::Borrowed(b"")),
        err: Bytes::new(Vec::new(alloc)),
        status: 0,
    }
}

/// A line on standard error, and nothing on standard output.
fn told<'r>(line: Vec<u8>, status: u8) -> Shown<'r>
    ensures { result ≡ show [] line.items status }
{
    Shown {
        out: CowBytes::new(CowSlice::Borrowed(b"")),
        err: Bytes::new(line),
        status,
    }
}

/// The member of this name, which a reply without content does not have.
fn member<'r>(alloc: Global, reply: &Reply, name: &str) -> Result<Shown<'r>, AllocError>
    ensures { IfOk result (IsMemberShown (reply.now.status == 204) reply.now.body name.now) }
{
    if reply.status == 204 {
        return Ok(told(missing(alloc, name)?, 1));
    }
    field(alloc, reply, name)
}

/// The member of this name in the body.
fn field<'r>(alloc: Global, reply: &Reply, name: &str) -> Result<Shown<'r>, AllocError>
    ensures { IfOk result (IsFieldShown reply.now.body name.now) }
{
    match field_of(alloc, reply.body.as_slice(), name)? {
        Field::Found(line) => Ok(Shown {
            out: CowBytes::new(CowSlice::Owned(line.into_string().into_bytes())),
            err: Bytes::new(Vec::new(alloc)),
            status: 0,
        }),
        Field::Missing => Ok(told(missing(alloc, name)?, 1)),
        Field::NoJson => Ok(told(Vec::from_slice(alloc, b"bad reply\n")?, 1)),
    }
}

/// The line that tells a missing member.
fn missing(alloc: Global, name: &str) -> Result<Vec<u8>, AllocError>
    ensures { IfOk result (λ line. line.items ≡ missing_line name.now) }
{
    let mut line = Vec::from_slice(alloc, b"client: no field ")?;
    line.extend_from_slice(name.as_bytes())?;
    line.push(b'\n')?;
    Ok(line)
}

/// The line that tells a refusal.
fn refused<'r>(alloc: Global, manner: &Manner<'_>, reply: &Reply) -> Result<Shown<'r>, AllocError>
    ensures { IfOk result (IsRefusalShown manner.now.exit_codes reply.now) }
{
    let mut line = Vec::from_slice(alloc, b"client: ")?;
    line.extend_from_slice(reply.status.to_string(alloc)?.as_bytes())?;
    line.extend_from_slice(reason_of(alloc, reply)?.as_slice())?;
    line.push(b'\n')?;
    Ok(told(line, refusal_status(manner.exit_codes, reply.status)))
}

/// The exit status after a refusal.
fn refusal_status(exit_codes: bool, code: u16) -> u8
    ensures { result ≡ refusal_status exit_codes code }
{
    match code {
        403 if exit_codes => 4,
        404 if exit_codes => 5,
        _ => 1,
    }
}
