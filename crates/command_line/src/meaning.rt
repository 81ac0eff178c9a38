//! Commands read: which request each means.

ghost use Rattle.std.specs.Prelude.{◌≡◌, false, IfOk, None, OnOk, codes, map, option_map, string_bytes};
ghost use Rattle.clap.specs.Words.{all_of, first_of, found_of, rows_of};
ghost use Rattle.broker_types.specs.Words.{after_first, before_first};
ghost use Rattle.command_line.specs.Meaning.{Agrees, below_mount, create_token, creation, folder_in, is_slash};
ghost use Rattle.command_line.specs.Meaning.{lease_request, list_at, look_up_token, path_in, policy_in, renew_lease};
ghost use Rattle.command_line.specs.Meaning.{policy_request, policy_text, put_secret, read_at, request_in};
ghost use Rattle.command_line.specs.Meaning.{revoke_token, secret_in, secret_path, secret_request, token_request};
ghost use Rattle.command_line.specs.Meaning.{text_member, token_members, token_text, with_token_members, write_at};
ghost use Rattle.command_line.specs.Meaning.{write_in, write_policy};
ghost use Rattle.command_line.specs.Objects.{KeepsWhole};
ghost use Rattle.command_line.specs.Settings.{body_text, optional};
ghost use Rattle.serde_json.specs.View.{members_view};
ghost use Rattle.serde_json.specs.Written.{members_have_float};

use crate::bodies::{body_of_words, put_body};
use crate::body_words::BodyWord;
use crate::mistake::Mistake;
use crate::no_request::NoRequest;
use crate::objects::{object_body, put_number, put_text, put_texts};
use crate::values::{is_given, number, path_text, short_text, value};
use api_client::{Request, ShortText};
use broker_types::{BodyBytes, Path, TextBuf};
use clap::ArgMatches;
use serde_json::{Map, Value};
use std::alloc::{AllocError, Global};
use std::borrow::{CowSlice, CowStr};

/// The request of a command, by its name. The words are those that give its body, if it has one.
pub(crate) fn request_in<'a>(
    alloc: Global,
    name: &str,
    matches: &ArgMatches<'a>,
    words: &[BodyWord<'_>],
) -> Result<Request<'a>, NoRequest>
    ensures { Agrees (request_in name.now (rows_of (found_of matches.now)) words.now) result }
{
    if name == "read" {
        return Ok(Request::Read(path(matches)?, None));
    }
    if name == "write" {
        return write(alloc, matches, words);
    }
    if name == "list" {
        return Ok(Request::List(path(matches)?));
    }
    if name == "delete" {
        return Ok(Request::Delete(path(matches)?));
    }
    if name == "unwrap" {
        return Ok(Request::Unwrap(wrapping_token(matches)?));
    }
    secret_request(alloc, name, matches, words)
}

/// The same, of the other commands than requests to a path as they are.
fn secret_request<'a>(
    alloc: Global,
    name: &str,
    matches: &ArgMatches<'a>,
    words: &[BodyWord<'_>],
) -> Result<Request<'a>, NoRequest>
    ensures { Agrees (secret_request name.now (rows_of (found_of matches.now)) words.now) result }
{
    if name == "kv get" {
        let path = secret(alloc, matches, "data")?;
        return Ok(Request::Read(path, number(matches, "version")?));
    }
    if name == "kv put" {
        return put_secret(alloc, matches, words);
    }
    if name == "kv list" {
        return Ok(Request::List(folder(alloc, matches, "metadata")?));
    }
    if name == "kv delete" {
        return Ok(Request::Delete(secret(alloc, matches, "data")?));
    }
    token_request(alloc, name, matches, words)
}

/// The same, of the other commands than those for secrets.
fn token_request<'a>(
    alloc: Global,
    name: &str,
    matches: &ArgMatches<'a>,
    words: &[BodyWord<'_>],
) -> Result<Request<'a>, NoRequest>
    ensures { Agrees (token_request name.now (rows_of (found_of matches.now)) words.now) result }
{
    if name == "token create" {
        return create_token(alloc, matches);
    }
    if name == "token lookup" {
        return look_up_token(alloc, value(matches, "accessor"));
    }
    if name == "token renew" {
        return write_at(alloc, "auth/token/renew-self", Map::new(alloc));
    }
    if name == "token revoke" {
        return revoke_token(alloc, value(matches, "accessor"));
    }
    if name == "token list" {
        return list_at("auth/token/accessors");
    }
    policy_request(alloc, name, matches, words)
}

/// The same, of commands for policies and leases.
fn policy_request<'a>(
    alloc: Global,
    name: &str,
    matches: &ArgMatches<'a>,
    words: &[BodyWord<'_>],
) -> Result<Request<'a>, NoRequest>
    ensures { Agrees (policy_request name.now (rows_of (found_of matches.now)) words.now) result }
{
    if name == "policy write" {
        return write_policy(alloc, matches, words);
    }
    if name == "policy read" {
        return Ok(Request::Read(policy(alloc, matches)?, None));
    }
    if name == "policy delete" {
        return Ok(Request::Delete(policy(alloc, matches)?));
    }
    if name == "policy list" {
        return list_at("sys/policies/acl");
    }
    lease_request(alloc, name, matches)
}

/// The same, of commands for leases.
fn lease_request<'a>(
    alloc: Global,
    name: &str,
    matches: &ArgMatches<'a>,
) -> Result<Request<'a>, NoRequest>
    ensures { Agrees (lease_request name.now (rows_of (found_of matches.now))) result }
{
    if name == "lease renew" {
        return renew_lease(alloc, matches);
    }
    if name == "lease revoke" {
        let object = text_member(alloc, "lease_id", value(matches, "id"))?;
        return write_at(alloc, "sys/leases/revoke", object);
    }
    Err(Mistake::Request.into())
}

// ---- paths

fn path<'a>(matches: &ArgMatches<'a>) -> Result<Path<'a>, Mistake>
    ensures { result ≡ path_in (rows_of (found_of matches.now)) }
{
    match value(matches, "path") {
        Some(text) => path_text(CowStr::Borrowed(text)),
        None => Err(Mistake::Path),
    }
}

/// The path of a secret in a folder of its mount.
fn secret<'a>(alloc: Global, matches: &ArgMatches<'a>, folder: &str) -> Result<Path<'a>, NoRequest>
    ensures { Agrees (secret_in folder.now (rows_of (found_of matches.now))) result }
{
    match value(matches, "path") {
        Some(text) => below_mount(alloc, text, folder),
        None => Err(Mistake::Path.into()),
    }
}

fn below_mount<'a>(alloc: Global, text: &str, folder: &str) -> Result<Path<'a>, NoRequest>
    ensures { Agrees (below_mount folder.now text.now) result }
{
    let (_, rest) = at_mount(text);
    if rest.is_empty() {
        return Err(Mistake::Secret.into());
    }
    Ok(path_text(CowStr::Owned(secret_path(alloc, text, folder)?))?)
}

/// The same, of a path that may be the mount alone.
fn folder<'a>(alloc: Global, matches: &ArgMatches<'a>, folder: &str) -> Result<Path<'a>, NoRequest>
    ensures { Agrees (folder_in folder.now (rows_of (found_of matches.now))) result }
{
    match value(matches, "path") {
        Some(text) => Ok(path_text(CowStr::Owned(secret_path(alloc, text, folder)?))?),
        None => Err(Mistake::Path.into()),
    }
}

fn secret_path(alloc: Global, text: &str, folder: &str) -> Result<String, AllocError>
    ensures { IfOk result (λ path. string_bytes path ≡ secret_path folder.now text.now) }
{
    let (mount, rest) = at_mount(text);
    let mut path = String::from_str(alloc, mount)?;
    path.push_str("/")?;
    path.push_str(folder)?;
    path.push_str("/")?;
    path.push_str(rest)?;
    Ok(path)
}

/// The mount, and what follows its slash.
fn at_mount<'a>(text: &'a str) -> (&'a str, &'a str)
    ensures mount { result.0.now ≡ before_first is_slash text.now }
    ensures rest { result.1.now ≡ after_first is_slash text.now }
{
    match text.split_once('/') {
        Some(parts) => parts,
        None => (text, ""),
    }
}

fn policy<'a>(alloc: Global, matches: &ArgMatches<'a>) -> Result<Path<'a>, NoRequest>
    ensures { Agrees (policy_in (rows_of (found_of matches.now))) result }
{
    let Some(name) = value(matches, "name") else {
        return Err(Mistake::Path.into());
    };
    let mut path = String::from_str(alloc, "sys/policies/acl/")?;
    path.push_str(name)?;
    Ok(path_text(CowStr::Owned(path))?)
}

// ---- requests

fn list_at<'a>(path: &'a str) -> Result<Request<'a>, NoRequest>
    ensures { Agrees (list_at path.now) result }
{
    Ok(Request::List(path_text(CowStr::Borrowed(path))?))
}

fn read_at<'a>(path: &'a str) -> Result<Request<'a>, NoRequest>
    ensures { Agrees (read_at path.now None) result }
{
    Ok(Request::Read(path_text(CowStr::Borrowed(path))?, None))
}

/// A write of an object to a path that is given.
fn write_at<'a>(
    alloc: Global,
    path: &'a str,
    object: Map<String, Value>,
) -> Result<Request<'a>, NoRequest>
    requires { members_have_float (members_view object.entries) ≡ false }
    ensures { Agrees (write_at path.now (members_view object.entries)) result }
{
    let path = path_text(CowStr::Borrowed(path))?;
    Ok(Request::Write(path, object_body(alloc, object)?))
}

/// The object of one member, if there is its text.
fn text_member(
    alloc: Global,
    name: &str,
    text: Option<&str>,
) -> Result<Map<String, Value>, AllocError>
    ensures members { IfOk result (λ m. members_view m.entries
        ≡ text_member name.now (option_map (λ t. t.now) text.entry)) }
    ensures whole { IfOk result (λ m. members_have_float (members_view m.entries) ≡ false) }
{
    let mut object = Map::new(alloc);
    put_text(&mut object, alloc, name, text)?;
    Ok(object)
}

fn write<'a>(
    alloc: Global,
    matches: &ArgMatches<'a>,
    words: &[BodyWord<'_>],
) -> Result<Request<'a>, NoRequest>
    ensures { Agrees (write_in (rows_of (found_of matches.now)) words.now) result }
{
    let path = path(matches)?;
    let text = body_of_words(alloc, words)?;
    Ok(Request::Write(path, body_bytes(text)?))
}

fn put_secret<'a>(
    alloc: Global,
    matches: &ArgMatches<'a>,
    words: &[BodyWord<'_>],
) -> Result<Request<'a>, NoRequest>
    ensures { Agrees (put_secret (rows_of (found_of matches.now)) words.now) result }
{
    let path = secret(alloc, matches, "data")?;
    let cas = number(matches, "cas")?;
    let text = put_body(alloc, words, cas)?;
    Ok(Request::Write(path, body_bytes(text)?))
}

fn body_bytes<'a>(text: TextBuf) -> Result<BodyBytes<'a>, Mistake>
    ensures { result ≡ body_text text }
{
    match BodyBytes::new(CowSlice::Owned(text.into_string().into_bytes())) {
        Some(body) => Ok(body),
        None => Err(Mistake::Body),
    }
}

fn wrapping_token<'a>(matches: &ArgMatches<'a>) -> Result<Option<ShortText<'a>>, Mistake>
    ensures { result ≡ optional token_text (first_of (codes "token") (rows_of (found_of matches.now))) }
{
    match value(matches, "token") {
        Some(text) => Ok(Some(short_text(text, Mistake::WrappingToken)?)),
        None => Ok(None),
    }
}

fn create_token<'a>(alloc: Global, matches: &ArgMatches<'a>) -> Result<Request<'a>, NoRequest>
    ensures { Agrees (create_token (rows_of (found_of matches.now))) result }
{
    let uses = number(matches, "use-limit")?;
    let object = token_members(alloc, matches, uses)?;
    write_at(alloc, creation(is_given(matches, "orphan")), object)
}

fn token_members(
    alloc: Global,
    matches: &ArgMatches<'_>,
    uses: Option<u64>,
) -> Result<Map<String, Value>, AllocError>
    ensures members { IfOk result (λ m. members_view m.entries
        ≡ token_members (rows_of (found_of matches.now)) uses) }
    ensures whole { IfOk result (λ m. members_have_float (members_view m.entries) ≡ false) }
{
    let mut object = Map::new(alloc);
    put_token_members(&mut object, alloc, matches, uses)?;
    Ok(object)
}

/// Sets the members of a request for a token.
fn put_token_members(
    object: &mut Map<String, Value>,
    alloc: Global,
    matches: &ArgMatches<'_>,
    uses: Option<u64>,
) -> Result<(), AllocError>
    ensures members { OnOk result (members_view object.new.entries
        ≡ with_token_members (rows_of (found_of matches.now)) uses (members_view object.old.entries)) }
    ensures whole { OnOk result (KeepsWhole (members_view object.old.entries) (members_view object.new.entries)) }
{
    put_number(object, alloc, "num_uses", uses)?;
    put_text(object, alloc, "period", value(matches, "period"))?;
    put_texts(object, alloc, "policies", all_values(matches, "policy"))?;
    put_text(object, alloc, "ttl", value(matches, "ttl"))
}

fn creation<'a>(is_orphan: bool) -> &'a str
    ensures { result.now ≡ creation is_orphan }
{
    if is_orphan {
        "auth/token/create-orphan"
    } else {
        "auth/token/create"
    }
}

fn as_text<'a>(text: &'a Option<TextBuf>) -> Option<&'a str>
    ensures { option_map (λ t. t.now) result ≡ text.now }
{
    match text {
        Some(text) => Some(text.as_str()),
        None => None,
    }
}

fn look_up_token<'a>(alloc: Global, accessor: Option<&str>) -> Result<Request<'a>, NoRequest>
    ensures { Agrees (look_up_token (option_map (λ t. t.now) accessor.entry)) result }
{
    match accessor {
        Some(_) => {
            let object = text_member(alloc, "accessor", accessor)?;
            write_at(alloc, "auth/token/lookup-accessor", object)
        }
        None => read_at("auth/token/lookup-self"),
    }
}

/// The look-up of the token of an accessor. The only error is running out of memory, for an accessor that is shorter
/// than a body may be.
pub fn look_up<'a>(alloc: Global, accessor: &str) -> Result<Request<'a>, AllocError> {
    match look_up_token(alloc, Some(accessor)) {
        Ok(request) => Ok(request),
        Err(NoRequest::Mistaken(_)) | Err(NoRequest::Fault(_)) => Err(AllocError),
    }
}

fn revoke_token<'a>(alloc: Global, accessor: Option<&str>) -> Result<Request<'a>, NoRequest>
    ensures { Agrees (revoke_token (option_map (λ t. t.now) accessor.entry)) result }
{
    match accessor {
        Some(_) => {
            let object = text_member(alloc, "accessor", accessor)?;
            write_at(alloc, "auth/token/revoke-accessor", object)
        }
        None => write_at(alloc, "auth/token/revoke-self", Map::new(alloc)),
    }
}

fn write_policy<'a>(
    alloc: Global,
    matches: &ArgMatches<'a>,
    words: &[BodyWord<'_>],
) -> Result<Request<'a>, NoRequest>
    ensures { Agrees (write_policy (rows_of (found_of matches.now)) words.now) result }
{
    let path = policy(alloc, matches)?;
    let object = text_member(alloc, "policy", policy_text(words))?;
    Ok(Request::Write(path, object_body(alloc, object)?))
}

fn renew_lease<'a>(alloc: Global, matches: &ArgMatches<'a>) -> Result<Request<'a>, NoRequest>
    ensures { Agrees (renew_lease (rows_of (found_of matches.now))) result }
{
    let mut object = text_member(alloc, "increment", value(matches, "increment"))?;
    put_text(&mut object, alloc, "lease_id", value(matches, "id"))?;
    write_at(alloc, "sys/leases/renew", object)
}

/// The text of a policy, which was read for the only word.
fn policy_text<'w>(words: &'w [BodyWord<'_>]) -> Option<&'w str>
    ensures { option_map (λ t. t.now) result ≡ policy_text words.now }
{
    match words.first() {
        Some(word) => as_text(&word.text),
        None => None,
    }
}

/// All values of an argument.
pub(crate) fn all_values<'m, 'a>(matches: &'m ArgMatches<'a>, name: &str) -> Option<&'m [&'a str]>
    ensures { option_map (λ s. map (λ v. v.now) s.now) result ≡ all_of name.now (rows_of (found_of matches.now)) }
{
    matches.get_strs(name)
}
