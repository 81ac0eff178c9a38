//! The example of each command, as its help has it, and for a command line that is wrong.

ghost use Rattle.std.specs.Prelude.{◌≡◌, IfOk, codes, map, string_bytes};
ghost use Rattle.broker_types.specs.Words.{after_first, before_first};
ghost use Rattle.command_line.specs.Examples.{example_named, example_of, first_word, from_server, group_of, is_space};
ghost use Rattle.command_line.specs.Examples.{lease_example, path_example, policy_example, secret_example};
ghost use Rattle.command_line.specs.Examples.{token_example};

use crate::arranging::command_words;
use std::alloc::{AllocError, Global};

const GET: &str = "Example: client kv get --field password secret/app";

/// The example of the command that the words of a command line name, the first of which is the name of the program,
/// wherever options stand. If they name none of the client's, it is one of the same first word, or that of `kv get`.
/// Where no server is known, the example says which. The only error is running out of memory.
pub fn example_of(alloc: Global, words: &[String], has_server: bool) -> Result<String, AllocError>
    ensures { IfOk result (λ text. string_bytes text ≡ example_of (map string_bytes words.now) has_server) }
{
    let command = command_words(alloc, words)?;
    let example = example_named(first_word(command.as_slice()));
    if has_server {
        return String::from_str(alloc, example);
    }
    from_server(alloc, example)
}

/// The example, with the variable of the environment that names the server.
fn from_server(alloc: Global, example: &str) -> Result<String, AllocError>
    ensures { IfOk result (λ text. string_bytes text ≡ from_server example.now) }
{
    let mut text = String::from_str(alloc, "Example: VAULT_ADDR=http://127.0.0.1:8200 ")?;
    text.push_str(after_space(example))?;
    Ok(text)
}

/// The first word that does not begin with a dash.
fn first_word<'w>(words: &'w [String]) -> &'w str
    ensures { result.now ≡ first_word (map string_bytes words.now) }
{
    for word in words {
        if !word.starts_with('-') {
            return word.as_str();
        }
    }
    ""
}

/// What is after the first space.
fn after_space<'t>(text: &'t str) -> &'t str
    ensures { result.now ≡ after_first is_space text.now }
{
    match text.split_once(' ') {
        Some((_, rest)) => rest,
        None => "",
    }
}

/// The first word of a command of two words.
fn group_of<'t>(name: &'t str) -> &'t str
    ensures { result.now ≡ group_of name.now }
{
    match name.split_once(' ') {
        Some((group, _)) => group,
        None => name,
    }
}

/// The example of the command of this name.
pub(crate) fn example_named(name: &str) -> &'static str
    ensures { result.now ≡ example_named name.now }
{
    let group = group_of(name);
    if group == "kv" {
        return secret_example(name);
    }
    if group == "token" {
        return token_example(name);
    }
    if group == "policy" {
        return policy_example(name);
    }
    if group == "lease" {
        return lease_example(name);
    }
    path_example(name)
}

fn secret_example(name: &str) -> &'static str
    ensures { result.now ≡ secret_example name.now }
{
    if name == "kv put" {
        return "Example: client kv put --cas 3 secret/app user=app password=@password";
    }
    if name == "kv list" {
        return "Example: client kv list secret";
    }
    if name == "kv delete" {
        return "Example: client kv delete secret/app";
    }
    GET
}

fn token_example(name: &str) -> &'static str
    ensures { result.now ≡ token_example name.now }
{
    if name == "token create" {
        return "Example: client token create --policy app --period 24h --field client_token";
    }
    if name == "token renew" {
        return "Example: client token renew --keep";
    }
    if name == "token revoke" {
        return "Example: client token revoke --accessor 083138d6-2df2-16c0-6e4c-ef963681c07b";
    }
    if name == "token list" {
        return "Example: client token list";
    }
    "Example: client token lookup --field ttl"
}

fn policy_example(name: &str) -> &'static str
    ensures { result.now ≡ policy_example name.now }
{
    if name == "policy write" {
        return "Example: client policy write app app.json  # {\"path\":{\"secret/*\":{\"capabilities\":[\"read\"]}}}";
    }
    if name == "policy delete" {
        return "Example: client policy delete app";
    }
    if name == "policy list" {
        return "Example: client policy list";
    }
    "Example: client policy read app --field policy"
}

fn lease_example(name: &str) -> &'static str
    ensures { result.now ≡ lease_example name.now }
{
    if name == "lease revoke" {
        return "Example: client lease revoke db/creds/app/5a1dd4b5-60b6-4de5-a1ba-ef67e2a86a9e";
    }
    "Example: client lease renew db/creds/app/5a1dd4b5-60b6-4de5-a1ba-ef67e2a86a9e"
}

fn path_example(name: &str) -> &'static str
    ensures { result.now ≡ path_example name.now }
{
    if name == "read" {
        return "Example: client read secret/data/app";
    }
    if name == "write" {
        return "Example: client write cubbyhole/a k=v password=@password";
    }
    if name == "list" {
        return "Example: client list secret/metadata";
    }
    if name == "delete" {
        return "Example: client delete cubbyhole/a";
    }
    if name == "unwrap" {
        return "Example: client --token-file wrapping-token unwrap";
    }
    GET
}
