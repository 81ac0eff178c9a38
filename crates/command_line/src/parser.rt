//! The command line of the client, with its help.

ghost use Rattle.std.specs.Prelude.{◌≡◌, IfOk};
ghost use Rattle.clap.specs.Words.{App, app_of};
ghost use Rattle.command_line.specs.CommandLine.{client_app, named_app, options_app, request_app, with_time_rules};

use crate::arguments::{flag, option, wanted_option};
use crate::building::taking;
use crate::subcommands::{with_leases, with_paths, with_policies, with_secrets, with_tokens};
use endpoints::VERSION;
use std::alloc::{AllocError, Global};

const AFTER_HELP: &str =
    "Options may stand before or after the command, and be written with one dash.\n\
    VAULT_ADDR=http://HOST:PORT takes the place of --addr. The token is that of --token,\n\
    VAULT_TOKEN, the file of --token-file, that of VAULT_TOKEN_FILE, or ~/.vault-token.\n\n\
    Examples:\n  \
    export VAULT_ADDR=http://127.0.0.1:8200 VAULT_TOKEN_FILE=/run/app/token\n  \
    client kv put secret/app user=app password=@password\n  \
    password=$(client kv get --field password secret/app) || exit\n  \
    client kv list secret\n  \
    client kv delete secret/app\n  \
    client token create --policy app --period 24h --field client_token > token\n  \
    client token lookup --field ttl\n  \
    client token renew --keep\n  \
    client token revoke --accessor 083138d6-2df2-16c0-6e4c-ef963681c07b\n  \
    client token list\n  \
    client policy write app app.json\n  \
    client policy read app --field policy\n  \
    client policy delete app\n  \
    client policy list\n  \
    client lease renew db/creds/app/5a1dd4b5-60b6-4de5-a1ba-ef67e2a86a9e --increment 1h\n  \
    client lease revoke db/creds/app/5a1dd4b5-60b6-4de5-a1ba-ef67e2a86a9e\n  \
    client --wrap-ttl 5m --field wrap_info.token kv get secret/app > wrapping-token\n  \
    client unwrap --token-file wrapping-token --field password\n  \
    client write cubbyhole/a '{\"k\":\"v\"}'\n  \
    client read cubbyhole/a\n  \
    client list cubbyhole\n  \
    client delete cubbyhole/a\n\n\
    The exit status is 0 after a reply with the status 200 or 204; 1 after any other reply,\n\
    or if there is none, which standard error explains (--exit-codes tells more); 2 if the\n\
    command line is wrong.";

/// The parser of the command line.
pub(crate) fn client<'a>(alloc: Global) -> Result<clap::Command<'a>, AllocError>
    ensures { IfOk result (λ c. app_of c ≡ client_app) }
{
    let client = with_paths(alloc, options(alloc));
    let client = with_secrets(alloc, client);
    let client = with_tokens(alloc, client);
    let client = with_policies(alloc, client);
    with_leases(alloc, client)
}

/// The client without its commands.
fn options<'a>(alloc: Global) -> Result<clap::Command<'a>, AllocError>
    ensures { IfOk result (λ c. app_of c ≡ options_app) }
{
    let client = taking(
        request_options(alloc),
        option(
            alloc,
            "field",
            "NAME",
            "Print this member of the reply alone, as data.data.password or password",
        ),
    );
    let client = taking(
        client,
        option(
            alloc,
            "token-file",
            "FILE",
            "The file whose first line is the client token",
        ),
    );
    time_options(alloc, client)
}

/// The client with the options of its request.
fn request_options<'a>(alloc: Global) -> Result<clap::Command<'a>, AllocError>
    ensures { IfOk result (λ c. app_of c ≡ request_app) }
{
    let client = taking(
        named(alloc),
        wanted_option(
            alloc,
            "addr",
            "ADDR",
            "The server: a host and a port, as 127.0.0.1:8200",
        ),
    );
    let client = taking(
        client,
        option(
            alloc,
            "token",
            "T",
            "The client token, which other users see in the list of processes",
        ),
    );
    taking(
        client,
        option(
            alloc,
            "wrap-ttl",
            "D",
            "Wrap the reply: keep it so long, as 60 or 1h30m, for a token",
        ),
    )
}

/// The client with its name and its help alone.
fn named<'a>(alloc: Global) -> Result<clap::Command<'a>, AllocError>
    ensures { IfOk result (λ c. app_of c ≡ named_app) }
{
    Ok(
        clap::Command::new(alloc, "client")
            .about("Asks a Vault server, and prints its reply")
            .after_help(AFTER_HELP)
            .version(VERSION)
            .subcommand_required(true),
    )
}

/// Adds how long the client waits, and how it exits.
fn time_options<'a>(
    alloc: Global,
    client: Result<clap::Command<'a>, AllocError>,
) -> Result<clap::Command<'a>, AllocError>
    ensures { (a : App) → IfOk client.entry (λ c. app_of c ≡ a)
        → IfOk result (λ c. app_of c ≡ with_time_rules a) }
{
    let client = taking(
        client,
        option(alloc, "wait", "SECONDS", "Try so long to reach the server"),
    );
    let client = taking(
        client,
        option(
            alloc,
            "timeout",
            "SECONDS",
            "How long to wait for the server's reply; 30 if it is left out",
        ),
    );
    taking(
        client,
        flag(
            alloc,
            "exit-codes",
            "Exit with 3 if there is no server, 4 if it refuses (403), 5 if nothing is there (404)",
        ),
    )
}
