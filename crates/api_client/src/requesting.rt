//! The bytes of requests: the request line, the fields and the body.

ghost use Rattle.std.specs.Prelude.{◌≡◌, ◌++◌, IfErr, IfOk, OnOk, Some, length, option_map, string_bytes};
ghost use Rattle.serde_json.specs.View.{view};
ghost use Rattle.serde_json.specs.Written.{compact_text};
ghost use Rattle.api_client.specs.Asking.{Asks};
ghost use Rattle.api_client.specs.Requests.{body_of, field_line, head_lines, length_line, method_of, optional_line};
ghost use Rattle.api_client.specs.Requests.{path_of, query_line, request_line, sent, unwrap_object};
ghost use Rattle.api_client.specs.Requests.{version_of, IsReadBack, NamesToken};

use crate::argument::{FieldText, ShortText};
use crate::asking::is_read_as_meant;
use crate::command::{Command, Request};
use crate::escaping::push_escaped;
use broker_types::{CowBytes, Fault};
use serde_json::{Value, json};
use std::alloc::{AllocError, Global};
use std::borrow::CowSlice;

/// The bytes of the request that a command sends (RFC 9112). They are one whole request with nothing
/// after it, and a server reads it as the command means it, or refuses it for a wrap TTL that is no
/// duration. The only fault is running out of memory.
pub fn request_of(alloc: Global, command: &Command<'_>) -> Result<Vec<u8>, Fault>
    ensures ok { IfOk result (λ bytes. bytes.items ≡ sent command.now) }
    ensures asks { IfOk result (λ bytes. Asks bytes.items command.now) }
    ensures named { OnOk result (NamesToken command.now.request) }
    ensures err { IfErr result (λ fault. fault ≡ Fault.Memory) }
{
    is_read_as_meant(command);
    bytes_of(alloc, command)
}

/// The bytes of the request.
#[tactic(auto, unfolding(crate::specs::Requests::sent))]
fn bytes_of(alloc: Global, command: &Command<'_>) -> Result<Vec<u8>, Fault>
    ensures ok { IfOk result (λ bytes. bytes.items ≡ sent command.now) }
    ensures named { OnOk result (NamesToken command.now.request) }
    ensures err { IfErr result (λ fault. fault ≡ Fault.Memory) }
{
    match body_of(alloc, &command.request)? {
        Some(body) => {
            let body = body.as_slice();
            let mut bytes = head_of(alloc, command, Some(body.len()))?.into_bytes();
            bytes.extend_from_slice(body)?;
            Ok(bytes)
        }
        None => Ok(head_of(alloc, command, None)?.into_bytes()),
    }
}

/// The head, before a body of so many bytes or none.
fn head_of(
    alloc: Global,
    command: &Command<'_>,
    body_len: Option<usize>,
) -> Result<String, AllocError>
    ensures { IfOk result (λ head. string_bytes head ≡ head_lines command.now body_len) }
{
    let mut head = String::new(alloc);
    push_request_line(alloc, &mut head, &command.request)?;
    push_field(&mut head, "Host", command.address.as_str())?;
    push_optional_field(&mut head, "X-Vault-Token", &command.token)?;
    push_optional_field(&mut head, "X-Vault-Wrap-TTL", &command.wrap_ttl)?;
    push_field(&mut head, "Connection", "close")?;
    push_length(alloc, &mut head, body_len)?;
    head.push_str("\r\n")?;
    Ok(head)
}

fn push_request_line(
    alloc: Global,
    text: &mut String,
    request: &Request<'_>,
) -> Result<(), AllocError>
    ensures { OnOk result (string_bytes text.new ≡ string_bytes text.old ++ request_line request.now) }
{
    text.push_str(method_of(request))?;
    text.push_str(" /v1/")?;
    push_escaped(text, path_of(request))?;
    push_query(alloc, text, version_of(request))?;
    text.push_str(" HTTP/1.1")?;
    text.push_str("\r\n")
}

/// Adds the query that asks for a version, if one is asked for.
fn push_query(alloc: Global, text: &mut String, version: Option<u64>) -> Result<(), AllocError>
    ensures { OnOk result (string_bytes text.new ≡ string_bytes text.old ++ query_line version) }
{
    match version {
        Some(version) => {
            text.push_str("?version=")?;
            text.push_str(version.to_string(alloc)?.as_str())
        }
        None => Ok(()),
    }
}

fn version_of(request: &Request<'_>) -> Option<u64>
    ensures { result ≡ version_of request.now }
{
    match request {
        Request::Read(_, version) => *version,
        _ => None,
    }
}

fn method_of(request: &Request<'_>) -> &'static str
    ensures { result.now ≡ method_of request.now }
{
    match request {
        Request::Read(_, _) => "GET",
        Request::Write(_, _) | Request::Unwrap(_) => "POST",
        Request::List(_) => "LIST",
        Request::Delete(_) => "DELETE",
    }
}

fn path_of<'c>(request: &'c Request<'_>) -> &'c str
    ensures { result.now ≡ path_of request.now }
{
    match request {
        Request::Read(path, _) | Request::Write(path, _) => path.as_str(),
        Request::List(path) | Request::Delete(path) => path.as_str(),
        Request::Unwrap(_) => "sys/wrapping/unwrap",
    }
}

fn push_field(text: &mut String, name: &str, value: &str) -> Result<(), AllocError>
    ensures { OnOk result (string_bytes text.new ≡ string_bytes text.old ++ field_line name.now value.now) }
{
    text.push_str(name)?;
    text.push_str(": ")?;
    text.push_str(value)?;
    text.push_str("\r\n")
}

fn push_optional_field(
    text: &mut String,
    name: &str,
    value: &Option<FieldText<'_>>,
) -> Result<(), AllocError>
    ensures { OnOk result (string_bytes text.new ≡ string_bytes text.old ++ optional_line name.now value.now) }
{
    match value {
        Some(value) => push_field(text, name, value.as_str()),
        None => Ok(()),
    }
}

fn push_length(alloc: Global, text: &mut String, body_len: Option<usize>) -> Result<(), AllocError>
    ensures { OnOk result (string_bytes text.new ≡ string_bytes text.old ++ length_line body_len) }
{
    match body_len {
        Some(len) => push_field(text, "Content-Length", len.to_string(alloc)?.as_str()),
        None => Ok(()),
    }
}

/// The body of a request, if it has one.
fn body_of<'c>(alloc: Global, request: &'c Request<'_>) -> Result<Option<CowBytes<'c>>, AllocError>
    ensures body { IfOk result (λ body. body ≡ body_of request.now) }
    ensures named { OnOk result (NamesToken request.now) }
{
    match request {
        Request::Write(_, body) => Ok(Some(CowBytes::new(CowSlice::Borrowed(body.as_slice())))),
        Request::Unwrap(token) => {
            let text = unwrap_text(alloc, token)?;
            Ok(Some(CowBytes::new(CowSlice::Owned(text.into_bytes()))))
        }
        _ => Ok(None),
    }
}

/// The JSON text of the object that names a wrapping token.
fn unwrap_text(alloc: Global, token: &Option<ShortText<'_>>) -> Result<String, AllocError>
    ensures text { IfOk result (λ text. string_bytes text ≡ compact_text (unwrap_object token.now)) }
    ensures named { OnOk result (IsReadBack (unwrap_object token.now)) }
{
    unwrap_object(alloc, token)?.to_string(alloc)
}

/// The object that names a wrapping token.
fn unwrap_object(alloc: Global, token: &Option<ShortText<'_>>) -> Result<Value, AllocError>
    ensures { IfOk result (λ value. view value ≡ unwrap_object token.now) }
{
    match token {
        Some(token) => json!(in alloc; {"token": token.as_str()}),
        None => json!(in alloc; {}),
    }
}
