//! What the environment adds to the command line: the server and the client token.

use crate::inputs::token_in_file;
use crate::stopped::Stopped;
use api_client::{Failure, FieldText};
use command_line::{TokenPlace, line_of, token_place};
use std::alloc::Global;
use std::env::{self, VarError};
use std::fs;
use std::rt::HostRuntime;

/// The options that are followed by their value.
const OPTIONS: [&str; 7] = [
    "--addr",
    "--token",
    "--wrap-ttl",
    "--field",
    "--token-file",
    "--wait",
    "--timeout",
];

const WRONG_ADDRESS: &str = "VAULT_ADDR is not http://HOST:PORT, as http://127.0.0.1:8200";

const WRONG_TOKEN: &str =
    "the token of VAULT_TOKEN or of the file is not 1 to 1,024 visible ASCII characters";

/// Completes the words, in which the options of the client come first (Vault's documentation, "Vault commands",
/// "Environment variables"): the server is that of `VAULT_ADDR`, and the client token that of `VAULT_TOKEN` or of a
/// file, where the options for them are absent. It fails if `VAULT_ADDR` is not `http://HOST:PORT`, or if the file
/// cannot be read.
pub(crate) fn complete(rt: &HostRuntime, words: &mut Vec<String>) -> Result<(), Stopped> {
    if !is_given(words.as_slice(), "--addr")
        && let Some(url) = variable(rt, "VAULT_ADDR")?
    {
        match address_of(url.as_str()) {
            Ok(address) => put_option(rt.alloc(), words, "--addr=", address)?,
            Err(text) => return mistake(rt.alloc(), text),
        }
    }
    if !is_given(words.as_slice(), "--token")
        && let Some(token) = client_token(rt, words.as_slice())?
    {
        if FieldText::read(token.as_str()).is_none() {
            return mistake(rt.alloc(), WRONG_TOKEN);
        }
        put_option(rt.alloc(), words, "--token=", token.as_str())?;
    }
    Ok(())
}

/// The client token of `VAULT_TOKEN` or of a file, if there is one.
fn client_token(rt: &HostRuntime, words: &[String]) -> Result<Option<String>, Stopped> {
    let file = token_file(rt.alloc(), words)?;
    let token = variable(rt, "VAULT_TOKEN")?;
    let named = variable(rt, "VAULT_TOKEN_FILE")?;
    let home_file = home_file(rt)?;
    match token_place(text(&token), text(&file), text(&named), text(&home_file)) {
        Some(TokenPlace::Variable(token)) => Ok(Some(String::from_str(rt.alloc(), token)?)),
        Some(TokenPlace::File(name)) => Ok(Some(token_in_file(rt, name)?)),
        None => Ok(None),
    }
}

/// The file of `--token-file`, if it is given.
fn token_file(alloc: Global, words: &[String]) -> Result<Option<String>, Stopped> {
    let line = line_of(alloc, words)?;
    let Ok(settings) = line.settings() else {
        return Ok(None);
    };
    match &settings.token_file {
        Some(name) => Ok(Some(String::from_str(alloc, name.as_str())?)),
        None => Ok(None),
    }
}

fn text<'a>(text: &'a Option<String>) -> Option<&'a str> {
    match text {
        Some(text) => Some(text.as_str()),
        None => None,
    }
}

/// The file `.vault-token` in the home folder, if it is there.
fn home_file(rt: &HostRuntime) -> Result<Option<String>, Stopped> {
    let Some(mut name) = variable(rt, "HOME")? else {
        return Ok(None);
    };
    name.push_str("/.vault-token")?;
    if fs::metadata(rt, name.as_str()).is_ok() {
        Ok(Some(name))
    } else {
        Ok(None)
    }
}

/// Whether the words name a server.
pub(crate) fn has_server(words: &[String]) -> bool {
    match words.last() {
        Some(word) => is_given(words, "--addr") && word.as_str() != "--addr",
        None => false,
    }
}

/// Whether an option is among those before the command.
fn is_given(words: &[String], option: &str) -> bool {
    let mut is_value = false;
    for word in words.iter().skip(1) {
        let word = word.as_str();
        if is_value {
            is_value = false;
        } else if is_option(word, option) {
            return true;
        } else if !word.starts_with('-') {
            return false;
        } else {
            is_value = OPTIONS.iter().any(|other| *other == word);
        }
    }
    false
}

/// Whether a word is the option, alone or with its value after `=`.
fn is_option(word: &str, option: &str) -> bool {
    match word.strip_prefix(option) {
        Some(rest) => rest.is_empty() || rest.starts_with('='),
        None => false,
    }
}

/// The text of a variable of the environment; none if it is not set, or empty.
fn variable(rt: &HostRuntime, name: &str) -> Result<Option<String>, Stopped> {
    match env::var(rt, name) {
        Ok(text) if text.is_empty() => Ok(None),
        Ok(text) => Ok(Some(text)),
        Err(VarError::NotPresent) => Ok(None),
        Err(VarError::NotUnicode) => {
            let mut text = String::from_str(rt.alloc(), name)?;
            text.push_str(" is not UTF-8")?;
            Err(Stopped::Mistake(text))
        }
        Err(VarError::OutOfMemory) => Err(Stopped::Failure(Failure::Memory)),
    }
}

/// Puts an option with its value before all others, in one word, so that the value is not read as an option.
fn put_option(
    alloc: Global,
    words: &mut Vec<String>,
    option: &str,
    value: &str,
) -> Result<(), Stopped> {
    let mut word = String::from_str(alloc, option)?;
    word.push_str(value)?;
    if !words.is_empty() && words.insert(1, word).is_err() {
        return Err(Stopped::Failure(Failure::Memory));
    }
    Ok(())
}

/// The host and the port of a URL `http://HOST:PORT`, which may end with a slash; or what the user is told.
fn address_of(url: &str) -> Result<&str, &'static str> {
    if url.starts_with("https://") {
        return Err(
            "VAULT_ADDR begins with https://, and this client has no TLS: docs/TLS.md has a proxy for this machine, \
             with which VAULT_ADDR is http://127.0.0.1:8200",
        );
    }
    let Some(rest) = url.strip_prefix("http://") else {
        return Err(WRONG_ADDRESS);
    };
    let address = rest.strip_suffix('/').unwrap_or(rest);
    match address.rsplit_once(':') {
        Some((host, port)) if !host.is_empty() && port.parse::<u16>().is_ok() => Ok(address),
        _ => Err(WRONG_ADDRESS),
    }
}

/// A mistake with a text for the user.
pub(crate) fn mistake<T>(alloc: Global, text: &str) -> Result<T, Stopped> {
    Err(Stopped::Mistake(String::from_str(alloc, text)?))
}
