//! The commands of the client, as `clap` takes them: each is one request, but for `token list`.

ghost use Rattle.std.specs.Prelude.{◌≡◌, IfOk, codes, false};
ghost use Rattle.clap.specs.Words.{App, app_of, new_app, rule_of};
ghost use Rattle.command_line.specs.CommandLine.{path_app, write_app, unwrap_app, get_app, put_app, create_app};
ghost use Rattle.command_line.specs.CommandLine.{lasting_app};
ghost use Rattle.command_line.specs.CommandLine.{accessor_app, renew_app, policy_app, write_policy_app, lease_app};
ghost use Rattle.command_line.specs.CommandLine.{renew_lease_app, with_subcommands, path_apps, secret_apps, token_apps};
ghost use Rattle.command_line.specs.CommandLine.{policy_apps, lease_apps, value_rule, wanted};

use crate::arguments::{flag, option, repeated_option, value, values, wanted_value, wanted_values};
use crate::building::{extended, taking};
use crate::examples::example_named;
use clap::{Arg, Command};
use std::alloc::{AllocError, Global};

/// Adds the requests to a path, as they are.
pub(crate) fn with_paths<'a>(
    alloc: Global,
    client: Result<Command<'a>, AllocError>,
) -> Result<Command<'a>, AllocError>
    ensures { (a : App) → IfOk client.entry (λ c. app_of c ≡ a)
        → IfOk result (λ c. app_of c ≡ with_subcommands a path_apps) }
{
    let client = extended(client, on_path(alloc, "read", "Reads what is at a path"));
    let client = extended(client, write(alloc));
    let client = extended(
        client,
        on_path(alloc, "list", "Lists the names under a path"),
    );
    let client = extended(
        client,
        on_path(alloc, "delete", "Deletes what is at a path"),
    );
    extended(client, unwrap(alloc))
}

/// Adds the commands for versioned secrets.
pub(crate) fn with_secrets<'a>(
    alloc: Global,
    client: Result<Command<'a>, AllocError>,
) -> Result<Command<'a>, AllocError>
    ensures { (a : App) → IfOk client.entry (λ c. app_of c ≡ a)
        → IfOk result (λ c. app_of c ≡ with_subcommands a secret_apps) }
{
    let client = extended(client, get_secret(alloc));
    let client = extended(client, put_secret(alloc));
    let client = extended(
        client,
        on_path(
            alloc,
            "kv list",
            "Lists the secrets of a mount, or under a path",
        ),
    );
    extended(
        client,
        on_path(
            alloc,
            "kv delete",
            "Deletes the current version of a secret",
        ),
    )
}

/// Adds the commands for tokens.
pub(crate) fn with_tokens<'a>(
    alloc: Global,
    client: Result<Command<'a>, AllocError>,
) -> Result<Command<'a>, AllocError>
    ensures { (a : App) → IfOk client.entry (λ c. app_of c ≡ a)
        → IfOk result (λ c. app_of c ≡ with_subcommands a token_apps) }
{
    let client = extended(client, create_token(alloc));
    let client = extended(
        client,
        by_accessor(
            alloc,
            "token lookup",
            "Shows the client token, or the token of an accessor",
        ),
    );
    let client = extended(client, renew_token(alloc));
    let client = extended(
        client,
        by_accessor(
            alloc,
            "token revoke",
            "Revokes the client token, or the token of an accessor, with all that it created",
        ),
    );
    extended(
        client,
        alone(
            alloc,
            "token list",
            "Lists all tokens: accessor, policies, end",
        ),
    )
}

/// Adds the commands for policies.
pub(crate) fn with_policies<'a>(
    alloc: Global,
    client: Result<Command<'a>, AllocError>,
) -> Result<Command<'a>, AllocError>
    ensures { (a : App) → IfOk client.entry (λ c. app_of c ≡ a)
        → IfOk result (λ c. app_of c ≡ with_subcommands a policy_apps) }
{
    let client = extended(client, write_policy(alloc));
    let client = extended(client, on_policy(alloc, "policy read", "Reads a policy"));
    let client = extended(
        client,
        on_policy(alloc, "policy delete", "Deletes a policy"),
    );
    extended(
        client,
        alone(alloc, "policy list", "Lists the names of all policies"),
    )
}

/// Adds the commands for leases.
pub(crate) fn with_leases<'a>(
    alloc: Global,
    client: Result<Command<'a>, AllocError>,
) -> Result<Command<'a>, AllocError>
    ensures { (a : App) → IfOk client.entry (λ c. app_of c ≡ a)
        → IfOk result (λ c. app_of c ≡ with_subcommands a lease_apps) }
{
    let client = extended(client, renew_lease(alloc));
    extended(client, revoke_lease(alloc))
}

/// A command of this name without arguments, whose help has its example.
fn alone<'a>(alloc: Global, name: &'a str, about: &'a str) -> Result<Command<'a>, AllocError>
    ensures { IfOk result (λ c. app_of c ≡ new_app name.now) }
{
    Ok(
        Command::new(alloc, name)
            .about(about)
            .after_help(example_named(name)),
    )
}

/// A request to a path.
fn on_path<'a>(alloc: Global, name: &'a str, about: &'a str) -> Result<Command<'a>, AllocError>
    ensures { IfOk result (λ c. app_of c ≡ path_app name.now) }
{
    taking(alone(alloc, name, about), path(alloc))
}

fn write<'a>(alloc: Global) -> Result<Command<'a>, AllocError>
    ensures { IfOk result (λ c. app_of c ≡ write_app) }
{
    taking(
        on_path(alloc, "write", "Writes an object to a path"),
        values(
            alloc,
            "body",
            "BODY|NAME=VALUE",
            "The object: as JSON, {} if it is left out; or its members, each a text, NAME=@FILE, \
            NAME=- (standard input) or NAME:=JSON; @FILE and - read the whole",
        ),
    )
}

fn unwrap<'a>(alloc: Global) -> Result<Command<'a>, AllocError>
    ensures { IfOk result (λ c. app_of c ≡ unwrap_app) }
{
    taking(
        alone(
            alloc,
            "unwrap",
            "Takes the reply that waits for a wrapping token",
        ),
        value(
            alloc,
            "token",
            "TOKEN",
            "The wrapping token; the client token if it is left out",
        ),
    )
}

fn get_secret<'a>(alloc: Global) -> Result<Command<'a>, AllocError>
    ensures { IfOk result (λ c. app_of c ≡ get_app) }
{
    taking(
        on_path(alloc, "kv get", "Reads a secret"),
        option(
            alloc,
            "version",
            "N",
            "The version; the current one if it is left out",
        ),
    )
}

fn put_secret<'a>(alloc: Global) -> Result<Command<'a>, AllocError>
    ensures { IfOk result (λ c. app_of c ≡ put_app) }
{
    let command = taking(
        on_path(alloc, "kv put", "Writes a version of a secret"),
        wanted_values(
            alloc,
            "body",
            "BODY|NAME=VALUE",
            "The secret's object, as of the command write",
        ),
    );
    taking(
        command,
        option(
            alloc,
            "cas",
            "N",
            "Write only if N is the current version; 0 if there is none",
        ),
    )
}

fn create_token<'a>(alloc: Global) -> Result<Command<'a>, AllocError>
    ensures { IfOk result (λ c. app_of c ≡ create_app) }
{
    let command = taking(
        lasting_token(alloc),
        option(alloc, "use-limit", "N", "How many requests it can make"),
    );
    taking(
        command,
        flag(alloc, "orphan", "It outlives the client token"),
    )
}

/// The creation of a token, with its policies and how long it lasts.
fn lasting_token<'a>(alloc: Global) -> Result<Command<'a>, AllocError>
    ensures { IfOk result (λ c. app_of c ≡ lasting_app) }
{
    let command = taking(
        alone(alloc, "token create", "Creates a token"),
        repeated_option(
            alloc,
            "policy",
            "P",
            "A policy; those of the client token if none is given",
        ),
    );
    let command = taking(
        command,
        option(
            alloc,
            "ttl",
            "D",
            "How long it lasts, as 60 or 1h30m; 32 days if it is left out",
        ),
    );
    taking(
        command,
        option(alloc, "period", "D", "How long each renewal lets it last"),
    )
}

/// A command for the client token, or for the token of an accessor.
fn by_accessor<'a>(alloc: Global, name: &'a str, about: &'a str) -> Result<Command<'a>, AllocError>
    ensures { IfOk result (λ c. app_of c ≡ accessor_app name.now) }
{
    taking(
        alone(alloc, name, about),
        option(
            alloc,
            "accessor",
            "A",
            "The token of this accessor, in place of the client token",
        ),
    )
}

fn renew_token<'a>(alloc: Global) -> Result<Command<'a>, AllocError>
    ensures { IfOk result (λ c. app_of c ≡ renew_app) }
{
    taking(
        alone(
            alloc,
            "token renew",
            "Renews the client token, and prints nothing",
        ),
        flag(
            alloc,
            "keep",
            "Renew at two thirds of what is left, until it ends",
        ),
    )
}

fn write_policy<'a>(alloc: Global) -> Result<Command<'a>, AllocError>
    ensures { IfOk result (λ c. app_of c ≡ write_policy_app) }
{
    taking(
        on_policy(alloc, "policy write", "Writes a policy"),
        wanted_value(
            alloc,
            "body",
            "FILE",
            "The file with its JSON text; - is standard input",
        ),
    )
}

/// A request to a policy.
fn on_policy<'a>(alloc: Global, name: &'a str, about: &'a str) -> Result<Command<'a>, AllocError>
    ensures { IfOk result (λ c. app_of c ≡ policy_app name.now) }
{
    taking(
        alone(alloc, name, about),
        wanted_value(alloc, "name", "NAME", "The name of the policy"),
    )
}

fn renew_lease<'a>(alloc: Global) -> Result<Command<'a>, AllocError>
    ensures { IfOk result (λ c. app_of c ≡ renew_lease_app) }
{
    let command = taking(alone(alloc, "lease renew", "Renews a lease"), lease(alloc));
    taking(
        command,
        option(
            alloc,
            "increment",
            "D",
            "How long from now, as 60 or 1h30m; its first ttl if it is left out",
        ),
    )
}

fn revoke_lease<'a>(alloc: Global) -> Result<Command<'a>, AllocError>
    ensures { IfOk result (λ c. app_of c ≡ lease_app (codes "lease revoke")) }
{
    taking(
        alone(alloc, "lease revoke", "Revokes a lease"),
        lease(alloc),
    )
}

fn path<'a>(alloc: Global) -> Arg<'a>
    ensures rule { rule_of result ≡ wanted (value_rule (codes "path")) }
    ensures local { result.global ≡ false }
{
    wanted_value(alloc, "path", "PATH", "The path, without /v1/ before it")
}

fn lease<'a>(alloc: Global) -> Arg<'a>
    ensures rule { rule_of result ≡ wanted (value_rule (codes "id")) }
    ensures local { result.global ≡ false }
{
    wanted_value(
        alloc,
        "id",
        "ID",
        "The lease_id of the reply that issued it",
    )
}
