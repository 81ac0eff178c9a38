//! Commands built in steps: where memory runs out in one, the later ones do nothing.

ghost use Rattle.std.specs.Prelude.{IfOk};
ghost use Rattle.std.specs.Result.{IsOkAnd};
ghost use Rattle.clap.specs.Words.{AddsArg, AddsSubcommand};

use clap::{Arg, Command};
use std::alloc::AllocError;

/// The command, with one more argument.
pub(crate) fn taking<'a>(
    command: Result<Command<'a>, AllocError>,
    arg: Arg<'a>,
) -> Result<Command<'a>, AllocError>
    ensures { IfOk result (λ c. IsOkAnd command.entry (λ o. AddsArg o arg.entry c)) }
{
    match command {
        Ok(command) => command.arg(arg),
        Err(error) => Err(error),
    }
}

/// The client, with one more command.
pub(crate) fn extended<'a>(
    client: Result<Command<'a>, AllocError>,
    command: Result<Command<'a>, AllocError>,
) -> Result<Command<'a>, AllocError>
    ensures { IfOk result (λ c. IsOkAnd client.entry (λ o. IsOkAnd command.entry (λ s. AddsSubcommand o s c))) }
{
    match client {
        Ok(client) => with_command(client, command),
        Err(error) => Err(error),
    }
}

fn with_command<'a>(
    client: Command<'a>,
    command: Result<Command<'a>, AllocError>,
) -> Result<Command<'a>, AllocError>
    ensures { IfOk result (λ c. IsOkAnd command.entry (λ s. AddsSubcommand client.entry s c)) }
{
    match command {
        Ok(command) => client.subcommand(command),
        Err(error) => Err(error),
    }
}
