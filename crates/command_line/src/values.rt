//! Arguments of a command line read: values tested, and the options of the client.

ghost use Rattle.std.specs.Prelude.{◌≡◌, ◌^◌, ◌<◌, option_map, codes};
ghost use Rattle.std.specs.List.{list_all};
ghost use Rattle.std.specs.Char.{is_ascii_digit};
ghost use Rattle.std.specs.Cow.{cow_str_bytes};
ghost use Rattle.clap.specs.Words.{first_of, found_of, rows_of};
ghost use Rattle.http_layer.specs.Front.{is_number};
ghost use Rattle.command_line.specs.Settings.{address_in, client_token_in, field_text, is_given, number_in};
ghost use Rattle.command_line.specs.Settings.{number_text, optional, path_text, seconds_in, seconds_of, seconds_text};
ghost use Rattle.command_line.specs.Settings.{settings_in, short_in, short_text, wrap_ttl_in};

use crate::mistake::Mistake;
use crate::settings::Settings;
use api_client::{FieldText, ShortText, number_of};
use broker_types::Path;
use clap::ArgMatches;
use std::borrow::CowStr;

/// The options of the client.
pub(crate) fn settings_in<'a>(matches: &ArgMatches<'a>) -> Result<Settings<'a>, Mistake>
    ensures { result ≡ settings_in (rows_of (found_of matches.now)) }
{
    Ok(Settings {
        address: address(matches)?,
        token: client_token(matches)?,
        wrap_ttl: wrap_ttl(matches)?,
        field: short(matches, "field")?,
        token_file: short(matches, "token-file")?,
        wait: seconds(matches, "wait")?,
        timeout: seconds(matches, "timeout")?,
        exit_codes: is_given(matches, "exit-codes"),
    })
}

fn address<'a>(matches: &ArgMatches<'a>) -> Result<FieldText<'a>, Mistake>
    ensures { result ≡ address_in (rows_of (found_of matches.now)) }
{
    match value(matches, "addr") {
        Some(text) => field_text(text, Mistake::Address),
        None => Err(Mistake::Address),
    }
}

fn client_token<'a>(matches: &ArgMatches<'a>) -> Result<Option<FieldText<'a>>, Mistake>
    ensures { result ≡ client_token_in (rows_of (found_of matches.now)) }
{
    optional_text(value(matches, "token"), Mistake::Token)
}

fn wrap_ttl<'a>(matches: &ArgMatches<'a>) -> Result<Option<FieldText<'a>>, Mistake>
    ensures { result ≡ wrap_ttl_in (rows_of (found_of matches.now)) }
{
    optional_text(value(matches, "wrap-ttl"), Mistake::WrapTtl)
}

fn optional_text<'a>(
    text: Option<&'a str>,
    mistake: Mistake,
) -> Result<Option<FieldText<'a>>, Mistake>
    ensures { result ≡ optional (field_text mistake) (option_map (λ s. s.now) text.entry) }
{
    match text {
        Some(text) => Ok(Some(field_text(text, mistake)?)),
        None => Ok(None),
    }
}

fn field_text<'a>(text: &'a str, mistake: Mistake) -> Result<FieldText<'a>, Mistake>
    ensures { result ≡ field_text mistake text.now }
{
    match FieldText::read(text) {
        Some(text) => Ok(text),
        None => Err(mistake),
    }
}

/// A text that may be left out.
fn short<'a>(matches: &ArgMatches<'a>, name: &str) -> Result<Option<ShortText<'a>>, Mistake>
    ensures { result ≡ short_in name.now (rows_of (found_of matches.now)) }
{
    match value(matches, name) {
        Some(text) => Ok(Some(short_text(text, Mistake::Long)?)),
        None => Ok(None),
    }
}

/// The text, unless it is too long.
pub(crate) fn short_text<'a>(text: &'a str, mistake: Mistake) -> Result<ShortText<'a>, Mistake>
    ensures { result ≡ short_text mistake text.now }
{
    match ShortText::read(text) {
        Some(text) => Ok(text),
        None => Err(mistake),
    }
}

/// A number that may be left out.
pub(crate) fn number(matches: &ArgMatches<'_>, name: &str) -> Result<Option<u64>, Mistake>
    ensures { result ≡ number_in name.now (rows_of (found_of matches.now)) }
{
    match value(matches, name) {
        Some(text) => Ok(Some(number_text(text)?)),
        None => Ok(None),
    }
}

fn number_text(text: &str) -> Result<u64, Mistake>
    ensures { result ≡ number_text text.now }
{
    match number_of(text) {
        Some(number) => Ok(number),
        None => Err(Mistake::Number),
    }
}

fn seconds(matches: &ArgMatches<'_>, name: &str) -> Result<Option<u64>, Mistake>
    ensures { result ≡ seconds_in name.now (rows_of (found_of matches.now)) }
{
    match value(matches, name) {
        Some(text) => Ok(Some(seconds_text(text)?)),
        None => Ok(None),
    }
}

fn seconds_text(text: &str) -> Result<u64, Mistake>
    ensures { result ≡ seconds_text text.now }
{
    match number_of(text) {
        Some(seconds) if 1 <= seconds && seconds <= 86_400 => Ok(seconds),
        _ => Err(Mistake::Seconds),
    }
}

/// The path that a text is read as.
pub(crate) fn path_text<'a>(text: CowStr<'a>) -> Result<Path<'a>, Mistake>
    ensures { result ≡ path_text (cow_str_bytes text.entry) }
{
    match Path::read(text) {
        Ok(path) => Ok(path),
        Err(_) => Err(Mistake::Path),
    }
}

/// Whether an option without a value is given.
pub(crate) fn is_given(matches: &ArgMatches<'_>, name: &str) -> bool
    ensures { result ≡ is_given name.now (rows_of (found_of matches.now)) }
{
    match value(matches, name) {
        Some(text) => text == "true",
        None => false,
    }
}

/// The value that was given for the argument of this name.
pub(crate) fn value<'a>(matches: &ArgMatches<'a>, name: &str) -> Option<&'a str>
    ensures { option_map (λ s. s.now) result ≡ first_of name.now (rows_of (found_of matches.now)) }
{
    matches.get_str(name)
}
