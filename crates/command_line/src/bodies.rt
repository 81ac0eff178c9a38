//! Bodies made of the words that were typed for them.

ghost use Rattle.std.specs.Prelude.{◌≡◌, false, IfErr, IfOk, Ok, OnOk, option_map};
ghost use Rattle.serde_json.specs.Find.{as_object};
ghost use Rattle.serde_json.specs.View.{view, members_view};
ghost use Rattle.serde_json.specs.Written.{compact_text, has_float};
ghost use Rattle.command_line.specs.Bodies.{body_given, data_given, json_given, member_given, members_given};
ghost use Rattle.command_line.specs.Bodies.{members_of, members_with, put_given, text_of, version_object, whole_given};
ghost use Rattle.command_line.specs.Bodies.{IsNoBody, IsReadAsGiven, IsReadAsVersion, IsTextOf};

use crate::body_words::{BodyWord, json_name, parts_of};
use crate::floats::holds_float;
use crate::no_body::{BodyMistake, NoBody};
use api_client::parsed;
use broker_types::TextBuf;
use serde_json::{Map, Value, json, put};
use std::alloc::{AllocError, Global};

/// The body of a request. Without words it is an empty object. One word that is not NAME=VALUE is the whole body, as
/// it stands or as it was read. Otherwise each word is NAME=VALUE or NAME:=JSON, and the body is the compact text of
/// the object of these members; of several with one name the last counts. The only fault is running out of memory.
pub fn body_of_words(alloc: Global, words: &[BodyWord<'_>]) -> Result<TextBuf, NoBody>
    ensures ok { IfOk result (λ body. body_given words.now ≡ Ok body) }
    ensures err { IfErr result (IsNoBody (body_given words.now)) }
    ensures reads_back { IfOk result (IsReadAsGiven words.now) }
{
    if let Some(text) = whole_given(words) {
        return Ok(TextBuf::copied(alloc, text)?);
    }
    let members = members_given(alloc, words)?;
    Ok(text_of_object(alloc, Value::Object(members))?)
}

/// The body of a request that writes a version with the members that the words say, or with those of the one word that
/// is not NAME=VALUE, which has to be a JSON object; with `cas`, if the version before it is this one. The only fault
/// is running out of memory.
pub fn put_body(alloc: Global, words: &[BodyWord<'_>], cas: Option<u64>) -> Result<TextBuf, NoBody>
    ensures ok { IfOk result (λ body. put_given words.now cas ≡ Ok body) }
    ensures err { IfErr result (IsNoBody (put_given words.now cas)) }
    ensures reads_back { IfOk result (IsReadAsVersion words.now cas) }
{
    let members = data_given(alloc, words)?;
    let version = version_object(alloc, members, cas)?;
    Ok(text_of_object(alloc, version)?)
}

/// The text of the word alone that is the whole body, if it is not NAME=VALUE.
#[tactic(auto, unfolding(crate::specs::Bodies::whole_given))]
fn whole_given<'w>(words: &'w [BodyWord<'_>]) -> Option<&'w str>
    ensures { option_map (λ t. t.now) result ≡ whole_given words.now }
{
    let [word] = words else {
        return None;
    };
    if parts_of(word.word).is_some() {
        return None;
    }
    Some(text_of(word, word.word))
}

/// The text that was read for the word, else that of the value.
fn text_of<'w>(word: &'w BodyWord<'_>, value: &'w str) -> &'w str
    ensures { result.now ≡ text_of word.now value.now }
{
    match &word.text {
        Some(text) => text.as_str(),
        None => value,
    }
}

/// The members of the data of a version.
#[tactic(auto, unfolding(crate::specs::Bodies::data_given))]
fn data_given(alloc: Global, words: &[BodyWord<'_>]) -> Result<Map<String, Value>, NoBody>
    ensures ok { IfOk result (λ m. data_given words.now ≡ Ok (members_view m.entries)) }
    ensures err { IfErr result (IsNoBody (data_given words.now)) }
{
    match whole_given(words) {
        Some(text) => members_of(json_given(alloc, text, BodyMistake::NoObject)?),
        None => members_given(alloc, words),
    }
}

/// The members of the object that a value is.
fn members_of(value: Value) -> Result<Map<String, Value>, NoBody>
    ensures ok { IfOk result (λ m. members_of (as_object (view value)) ≡ Ok (members_view m.entries)) }
    ensures err { IfErr result (IsNoBody (members_of (as_object (view value)))) }
{
    match value {
        Value::Object(members) => Ok(members),
        _ => Err(NoBody::Mistake(BodyMistake::NoObject)),
    }
}

/// The members that the words say.
#[tactic(auto, unfolding(crate::specs::Bodies::members_given))]
fn members_given(alloc: Global, words: &[BodyWord<'_>]) -> Result<Map<String, Value>, NoBody>
    ensures ok { IfOk result (λ m. members_given words.now ≡ Ok (members_view m.entries)) }
    ensures err { IfErr result (IsNoBody (members_given words.now)) }
{
    let mut members = Map::new(alloc);
    put_all(&mut members, alloc, words)?;
    Ok(members)
}

/// Puts the members that the words say among those that are there.
fn put_all(
    members: &mut Map<String, Value>,
    alloc: Global,
    words: &[BodyWord<'_>],
) -> Result<(), NoBody>
    ensures ok { OnOk result (members_with (members_view members.old.entries) words.now
        ≡ Ok (members_view members.new.entries)) }
    ensures err { IfErr result (IsNoBody (members_with (members_view members.old.entries) words.now)) }
{
    for word in words {
        let (name, value) = member_given(alloc, word)?;
        put(members, alloc, name, value)?;
    }
    Ok(())
}

/// Name and value of the member that a word says.
#[tactic(auto, unfolding(crate::specs::Bodies::member_given))]
fn member_given<'w>(alloc: Global, word: &BodyWord<'w>) -> Result<(&'w str, Value), NoBody>
    ensures ok { IfOk result (λ m. member_given word.now ≡ Ok (m.0.now, view m.1)) }
    ensures err { IfErr result (IsNoBody (member_given word.now)) }
{
    let Some((name, value)) = parts_of(word.word) else {
        return Err(NoBody::Mistake(BodyMistake::NoMember));
    };
    match json_name(name) {
        Some(name) => Ok((name, json_given(alloc, value, BodyMistake::NoJson)?)),
        None => Ok((name, Value::try_from_str(alloc, text_of(word, value))?)),
    }
}

/// The value without floats that a text is; the mistake, if the text is not JSON.
#[tactic(auto, unfolding(crate::specs::Bodies::json_given))]
fn json_given(alloc: Global, text: &str, otherwise: BodyMistake) -> Result<Value, NoBody>
    ensures ok { IfOk result (λ value. json_given otherwise text.now ≡ Ok (view value)) }
    ensures err { IfErr result (IsNoBody (json_given otherwise text.now)) }
{
    let Some(value) = parsed(alloc, text)? else {
        return Err(NoBody::Mistake(otherwise));
    };
    if holds_float(&value) {
        return Err(NoBody::Mistake(BodyMistake::Float));
    }
    Ok(value)
}

/// The object that asks for a version of these members.
fn version_object(
    alloc: Global,
    members: Map<String, Value>,
    cas: Option<u64>,
) -> Result<Value, AllocError>
    ensures { IfOk result (λ v. view v ≡ version_object (members_view members.entries) cas) }
{
    match cas {
        Some(before) => json!(in alloc; {"data": members, "options": {"cas": before}}),
        None => json!(in alloc; {"data": members}),
    }
}

/// The compact text of a value without floats. The only error is running out of memory.
fn text_of_object(alloc: Global, value: Value) -> Result<TextBuf, AllocError>
    requires { has_float (view value) ≡ false }
    ensures text { IfOk result (λ t. t ≡ compact_text (view value)) }
    ensures reads_back { IfOk result (IsTextOf (view value)) }
{
    Ok(TextBuf::new(value.to_string(alloc)?))
}
