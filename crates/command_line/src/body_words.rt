//! Words of a body taken apart: NAME=VALUE, NAME:=JSON, and where a text comes from.

ghost use Rattle.std.specs.Prelude.{◌≡◌, ◌∷◌, Some, None, codes, option_map, option_and_then, unwrap_or};
ghost use Rattle.command_line.specs.BodyWords.{after_at, begins_json, before_colon, is_name, json_name, parts_of};
ghost use Rattle.command_line.specs.BodyWords.{source, source_named, source_of, split_at_equals};

use broker_types::TextBuf;

/// A word of a body as it was typed, and the text that was read for it if it names a file or standard input.
#[derive(Drop)]
pub struct BodyWord<'a> {
    pub word: &'a str,
    pub text: Option<TextBuf>,
}

/// Where the text of a word is read from.
#[derive(Clone, Copy)]
pub enum Origin<'a> {
    /// The file of this name.
    File(&'a str),
    /// Standard input.
    Input,
}

/// Where the text of a word comes from, if it is not the word itself: of `NAME=@FILE` and `@FILE` a file, and of
/// `NAME=-` and `-` standard input. What follows `NAME:=` is JSON, and comes from nowhere else.
pub fn origin_of<'w>(word: &'w str) -> Option<Origin<'w>>
    ensures { option_map source_of result ≡ source word.now }
{
    match parts_of(word) {
        Some((name, value)) => match json_name(name) {
            Some(_) => None,
            None => origin_named(value),
        },
        None => origin_named(word),
    }
}

/// The source that a text names.
#[tactic(auto, unfolding(crate::specs::BodyWords::source_named))]
fn origin_named<'t>(text: &'t str) -> Option<Origin<'t>>
    ensures { option_map source_of result ≡ source_named text.now }
{
    if text == "-" {
        return Some(Origin::Input);
    }
    match after_at(text) {
        Some(name) => Some(Origin::File(name)),
        None => None,
    }
}

/// What is after an `@` at the beginning.
fn after_at(text: &str) -> Option<&str>
    ensures { option_map (λ t. t.now) result ≡ after_at text.now }
{
    text.strip_prefix('@')
}

/// NAME and VALUE of a word of the form NAME=VALUE.
#[tactic(auto, unfolding(crate::specs::BodyWords::parts_of))]
pub(crate) fn parts_of<'w>(word: &'w str) -> Option<(&'w str, &'w str)>
    ensures { option_map (λ p. (p.0.now, p.1.now)) result ≡ parts_of word.now }
{
    let (name, value) = split_at_equals(word)?;
    if !is_name(name) {
        return None;
    }
    Some((name, value))
}

/// What is before the first `=` and what is after it.
fn split_at_equals(word: &str) -> Option<(&str, &str)>
    ensures { option_map (λ p. (p.0.now, p.1.now)) result ≡ split_at_equals word.now }
{
    word.split_once('=')
}

/// Whether a text may be a name: it is not empty, and does not begin as a JSON text of an object, an array or a string.
fn is_name(text: &str) -> bool
    ensures { result ≡ is_name text.now }
{
    match text.as_bytes() {
        [] => false,
        [first, ..] => !begins_json(*first),
    }
}

fn begins_json(byte: u8) -> bool
    ensures { result ≡ begins_json byte }
{
    matches!(byte, b'{' | b'[' | b'"' | b' ' | b'\t' | b'\r' | b'\n')
}

/// The name of a member whose value is JSON, by what is before the `=`: it ends in a colon, which is not part of it.
#[tactic(auto, unfolding(crate::specs::BodyWords::json_name))]
pub(crate) fn json_name(name: &str) -> Option<&str>
    ensures { option_map (λ t. t.now) result ≡ json_name name.now }
{
    let name = before_colon(name)?;
    if name.is_empty() {
        return None;
    }
    Some(name)
}

/// What is before a colon at the end.
fn before_colon(text: &str) -> Option<&str>
    ensures { option_map (λ t. t.now) result ≡ before_colon text.now }
{
    text.strip_suffix(':')
}
