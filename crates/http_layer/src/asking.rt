//! From the head and the body of a request to what it asks of the broker, or to its refusal.

ghost use Rattle.std.specs.Prelude.{◌≡◌, ◌≢◌, MatchResult, Ok, Err, codes, option_map};
ghost use Rattle.http_layer.specs.HeadParts.{values_named};
ghost use Rattle.http_layer.specs.Query.{target_path};
ghost use Rattle.http_layer.specs.Asked.{asked, verb_asked, value_asked, not_empty, without_spaces, bearer_token};
ghost use Rattle.http_layer.specs.Asked.{client_token, token_asked, wrap_ttl_read, HasNoEscape, path_read, path_asked};
ghost use Rattle.http_layer.specs.Refusing.{Agrees, parts_of_refusal};
ghost use Rattle.percent_encoding.specs.Percent.{percent_decode};

use crate::fields::Named;
use crate::head::Head;
use crate::query::{lists, split_target, version_asked};
use crate::refusal::{AskError, HttpRefusal};
use broker_types::{
    Ask, BodyBytes, CowBytes, CowText, Fault, Path, Reason, Seconds, Verb, WrapTtl, read_duration,
};
use percent_encoding::{DecodeError, percent_decode};
use std::alloc::Global;
use std::borrow::{CowSlice, CowStr};
use std::str;

/// What a whole request asks (RFC 9110, section 9; Vault's documentation, "HTTP API"), or the first
/// refusal, in this order: 501 for a method that is not GET, LIST, POST, PUT or DELETE; 400 for more
/// than one X-Vault-Token, Authorization or X-Vault-Wrap-TTL field, or one that is not UTF-8; 404 for a
/// target that does not begin with `/v1/`; 400 for a target whose rest up to its first `?`,
/// percent-decoded (RFC 3986, section 2.1), is not a valid path; 400 for an X-Vault-Wrap-TTL that is no
/// duration (Vault's documentation, "Response wrapping"), while a longer one is cut to 32 days. The
/// client token is X-Vault-Token unless it is empty, else the Bearer token of Authorization (RFC 6750,
/// section 2.1). Of the query, which is not decoded, `list=true` makes a GET a LIST, and the first
/// `version=` is the version asked for. Other parts of the query and other fields are ignored. The only
/// fault is running out of memory, where the path has an encoded byte: without one the ask borrows all
/// its texts.
#[tactic(auto, unfolding(crate::specs::Asked::asked))]
pub fn ask_of<'b>(alloc: Global, head: &Head<'b>, body: BodyBytes<'b>) -> Result<Ask<'b>, AskError>
    ensures ask { Agrees (asked head.now body.entry) result }
    ensures no_memory { HasNoEscape (target_path head.now.target) → result ≢ Err (AskError.Fault Fault.Memory) }
{
    let (_, query) = split_target(head.target());
    let verb = verb_of(head.method(), query)?;
    let token = token_of(head)?;
    let ttl = value_of(head, b"x-vault-wrap-ttl")?;
    let path = path_of(alloc, head.target())?;
    let wrap_ttl = match wrap_ttl_of(ttl) {
        Ok(wrap_ttl) => wrap_ttl,
        Err(refusal) => return Err(refusal.into()),
    };
    Ok(Ask {
        verb,
        path,
        version: CowBytes::new(CowSlice::Borrowed(version_asked(query))),
        token,
        wrap_ttl,
        body,
    })
}

/// What a method asks for, with the query of its target.
fn verb_of(method: &[u8], query: &[u8]) -> Result<Verb, HttpRefusal>
    ensures { MatchResult result
        (λ verb. verb_asked method.now query.now ≡ Ok verb)
        (λ refusal. verb_asked method.now query.now ≡ Err (parts_of_refusal refusal)) }
{
    if method == b"GET".as_slice() {
        return Ok(if lists(query) { Verb::List } else { Verb::Get });
    }
    if method == b"LIST".as_slice() {
        return Ok(Verb::List);
    }
    if method == b"POST".as_slice() || method == b"PUT".as_slice() {
        return Ok(Verb::Write);
    }
    if method == b"DELETE".as_slice() {
        return Ok(Verb::Delete);
    }
    Err(HttpRefusal::unknown_method())
}

/// The client token, from X-Vault-Token and Authorization.
fn token_of<'b>(head: &Head<'b>) -> Result<Option<CowText<'b>>, HttpRefusal>
    ensures { MatchResult result
        (λ token. token_asked head.now.fields ≡ Ok token)
        (λ refusal. token_asked head.now.fields ≡ Err (parts_of_refusal refusal)) }
{
    let vault = value_of(head, b"x-vault-token")?;
    let authorization = value_of(head, b"authorization")?;
    match client_token(vault, authorization) {
        Some(token) => Ok(Some(CowText::new(CowStr::Borrowed(token)))),
        None => Ok(None),
    }
}

/// The only value of a field, if the field is there.
fn value_of<'b>(head: &Head<'b>, name: &[u8]) -> Result<Option<&'b str>, HttpRefusal>
    ensures { MatchResult result
        (λ value. value_asked (values_named name.now head.now.fields) ≡ Ok (option_map (λ text. text.now) value))
        (λ refusal. value_asked (values_named name.now head.now.fields) ≡ Err (parts_of_refusal refusal)) }
{
    let value = match head.named(name) {
        Named::Absent => return Ok(None),
        Named::Once(value) => value,
        Named::Several => return Err(HttpRefusal::bad_request(Reason::MalformedRequest)),
    };
    match str::from_utf8(value) {
        Ok(text) => Ok(Some(text)),
        Err(_) => Err(HttpRefusal::bad_request(Reason::MalformedRequest)),
    }
}

/// The client token, from the values of X-Vault-Token and Authorization.
fn client_token<'b>(vault: Option<&'b str>, authorization: Option<&'b str>) -> Option<&'b str>
    ensures { option_map (λ text. text.now) result
        ≡ client_token (option_map (λ text. text.now) vault.entry)
        (option_map (λ text. text.now) authorization.entry) }
{
    match vault {
        Some(token) if !token.is_empty() => Some(token),
        _ => bearer_token(authorization?),
    }
}

/// The token of credentials of the scheme Bearer.
fn bearer_token<'b>(credentials: &'b str) -> Option<&'b str>
    ensures { option_map (λ text. text.now) result ≡ bearer_token credentials.now }
{
    let (scheme, rest) = credentials.split_once(' ')?;
    let token = without_spaces(rest);
    if !scheme.eq_ignore_ascii_case("bearer") || token.is_empty() {
        return None;
    }
    Some(token)
}

/// The text without the spaces at its beginning.
fn without_spaces<'b>(mut text: &'b str) -> &'b str
    ensures { result.now ≡ without_spaces text.now }
{
    while text.starts_with(' ') {
        text = &text[1..];
    }
    text
}

/// The wrap TTL, from the value of X-Vault-Wrap-TTL, cut to 32 days; 0 if there is none. A value that is no
/// duration is refused: 400.
fn wrap_ttl_of(value: Option<&str>) -> Result<WrapTtl, HttpRefusal>
    ensures { MatchResult result
        (λ ttl. wrap_ttl_read (option_map (λ text. text.now) value.entry) ≡ Ok ttl)
        (λ refusal. wrap_ttl_read (option_map (λ text. text.now) value.entry) ≡ Err (parts_of_refusal refusal)) }
{
    let Some(text) = value else {
        return Ok(WrapTtl::cut(Seconds::new(0)));
    };
    match read_duration(text) {
        Ok(asked) => Ok(WrapTtl::cut(asked)),
        Err(_) => Err(HttpRefusal::bad_request(Reason::InvalidDuration)),
    }
}

/// The path that a target names.
fn path_of<'b>(alloc: Global, target: &'b str) -> Result<Path<'b>, AskError>
    ensures path { Agrees (path_asked target.now) result }
    ensures no_memory { HasNoEscape (target_path target.now) → result ≢ Err (AskError.Fault Fault.Memory) }
{
    if !target.starts_with("/v1/") {
        return Err(HttpRefusal::unknown_target().into());
    }
    let (path, _) = split_target(target);
    read_path(alloc, &path[4..])
}

/// The path, from what follows `/v1/`, percent-decoded. It takes no memory where no byte is encoded.
fn read_path<'b>(alloc: Global, encoded: &'b str) -> Result<Path<'b>, AskError>
    ensures path { Agrees (path_read (percent_decode encoded.now)) result }
    ensures no_memory { HasNoEscape encoded.now → result ≢ Err (AskError.Fault Fault.Memory) }
{
    let text = match percent_decode(encoded.as_bytes()).decode_utf8(alloc) {
        Ok(text) => text,
        Err(DecodeError::OutOfMemory) => return Err(AskError::Fault(Fault::Memory)),
        Err(DecodeError::Utf8(_)) => {
            return Err(HttpRefusal::bad_request(Reason::InvalidPath).into());
        }
    };
    match Path::read(text) {
        Ok(path) => Ok(path),
        Err(_) => Err(HttpRefusal::bad_request(Reason::InvalidPath).into()),
    }
}
