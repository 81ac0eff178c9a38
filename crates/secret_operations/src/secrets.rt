//! Requests on the secrets of a mount (Vault's documentation, "KV secrets engine - version 2 (API)").

ghost use Rattle.std.specs.Prelude.{◌≡◌, [], Option, true, ◌≤◌, false, IfOk, length};
ghost use Rattle.broker_types.specs.Fault.{IsNotBadStart};
ghost use Rattle.broker_types.specs.Name.{is_mount_name};
ghost use Rattle.broker_types.specs.Names.{names_of};
ghost use Rattle.broker_types.specs.Path.{is_path};
ghost use Rattle.broker_types.specs.Text.{Text};
ghost use Rattle.records.specs.Calls.{IsRequestCall};
ghost use Rattle.broker_model.specs.parts.Secrets as part;
ghost use Rattle.broker_model.specs.parts.Secrets.{secret_command};
ghost use Rattle.broker_rows.specs.Operating.{Performs};
ghost use Rattle.secret_operations.specs.InRange.{IsSecretCommandInRange};
ghost use Rattle.secret_operations.specs.Paths.{needs_path};
ghost use Rattle.broker_types.specs.Limits.{longest_body};
ghost use Rattle.api_json.specs.Readers as reader;
ghost use Rattle.api_json.specs.Reads.{IsRead};
ghost use Rattle.mounts.specs.RouteTable.{takes_path};
ghost use Rattle.broker_model.specs.declared.commands.SecretCommand.TheVariants as commands;
ghost use Rattle.broker_model.specs.parts.Bodies.{read_as};
ghost use Rattle.secret_operations.specs.Bodies.{found_in};

mod changes;
mod metadata;
mod settings;
mod shown;
mod versions;

use crate::place::Place;
use api_json::{
    Counts, key_settings, mount_settings, read_body, secret_write, version_number, versions,
};
use broker_model::SecretCommand;
use broker_rows::{Answered, Context};
use broker_types::RequestError;
use changes::Change;
use mounts::SecretOperation;
use records::RecordsTx;
use std::alloc::Global;

/// Reads what an operation on secrets asks for, by the version that the query asks for and the body. Only a read looks
/// at the version, and only what is posted at the body. It is refused if what it looks at cannot be read. The only
/// fault is running out of memory.
pub fn read_secret_command(
    alloc: Global,
    operation: SecretOperation,
    version: &[u8],
    body: &[u8],
) -> Result<SecretCommand, RequestError>
    requires { length body.now ≤ longest_body }
    ensures reads { IsRead (secret_command operation version.now body.now) result }
    ensures in_range { IfOk result IsSecretCommandInRange }

    // it is at the path of a secret just if the operation's route has one
    ensures path { IfOk result (λ c. needs_path c ≡ takes_path operation) }
{
    match operation {
        SecretOperation::ShowSettings => Ok(SecretCommand::ShowSettings),
        SecretOperation::SetSettings => read_settings(alloc, body),
        SecretOperation::Read => Ok(SecretCommand::Read(version_number(version)?)),
        SecretOperation::Write => read_write(alloc, body),
        SecretOperation::DeleteCurrent => Ok(SecretCommand::DeleteCurrent),
        SecretOperation::Delete => Ok(SecretCommand::Delete(read_versions(alloc, body)?)),
        SecretOperation::Undelete => Ok(SecretCommand::Undelete(read_versions(alloc, body)?)),
        SecretOperation::Destroy => Ok(SecretCommand::Destroy(read_versions(alloc, body)?)),
        SecretOperation::ShowMetadata => Ok(SecretCommand::ShowMetadata),
        SecretOperation::SetMetadata => read_metadata(alloc, body),
        SecretOperation::Remove => Ok(SecretCommand::Remove),
        SecretOperation::List => Ok(SecretCommand::List),
    }
}

/// Reads the settings of the mount that are given.
fn read_settings(alloc: Global, body: &[u8]) -> Result<SecretCommand, RequestError>
    ensures reads { IsRead (read_as reader.mount_settings commands.SetSettings body.now) result }
    ensures in_range { IfOk result IsSecretCommandInRange }
    ensures path { IfOk result (λ c. needs_path c ≡ false) }
{
    let members = read_body(alloc, body)?;
    let asked = mount_settings(alloc, &members)?;
    Ok(SecretCommand::SetSettings(asked))
}

/// Reads the version that is written.
fn read_write(alloc: Global, body: &[u8]) -> Result<SecretCommand, RequestError>
    requires { length body.now ≤ longest_body }
    ensures reads { IsRead (read_as reader.secret_write commands.Write body.now) result }
    ensures in_range { IfOk result IsSecretCommandInRange }
    ensures path { IfOk result (λ c. needs_path c ≡ true) }
{
    let members = read_body(alloc, body)?;
    let asked = secret_write(alloc, &members)?;
    Ok(SecretCommand::Write(asked))
}

/// Reads the settings of the secret that are given.
fn read_metadata(alloc: Global, body: &[u8]) -> Result<SecretCommand, RequestError>
    requires { length body.now ≤ longest_body }
    ensures reads { IsRead (read_as reader.key_settings commands.SetMetadata body.now) result }
    ensures in_range { IfOk result IsSecretCommandInRange }
    ensures path { IfOk result (λ c. needs_path c ≡ true) }
{
    let members = read_body(alloc, body)?;
    let asked = key_settings(alloc, &members)?;
    Ok(SecretCommand::SetMetadata(asked))
}

/// Reads the versions that are named.
fn read_versions(alloc: Global, body: &[u8]) -> Result<Counts, RequestError>
    ensures { IsRead (found_in reader.versions body.now) result }
{
    let members = read_body(alloc, body)?;
    versions(alloc, &members)
}

/// Carries out a command on a place of secrets. It may be refused. It fails with `Memory` if memory runs out, with
/// `Storage` if the transaction's storage failed, and with `Damaged` if a row that it asks for cannot be read.
pub fn act_on_secrets<T: RecordsTx>(
    tx: &mut T,
    context: &Context<'_>,
    place: &Place<'_>,
    command: SecretCommand,
) -> Result<Answered, RequestError>
    requires { IsSecretCommandInRange command }
    ensures told { is_mount_name place.now.mount ≡ true → (needs_path command ≡ true → is_path place.now.path ≡ true)
        → (who : Option Text) → Performs who context.now [] (T.seen tx.old) (T.seen tx.new)
        (λ b. part.act_on_secrets b (names_of context.now.words) place.now command) result }
    ensures call { IsRequestCall (T.seen tx.old) (T.seen tx.new) result IsNotBadStart }
{
    let alloc = context.alloc;
    let mount = place.mount;
    let path = place.path;
    match command {
        SecretCommand::ShowSettings => settings::show(tx, context, mount),
        SecretCommand::SetSettings(asked) => settings::set(alloc, tx, mount, asked),
        SecretCommand::Read(number) => versions::read(tx, context, mount, path, number),
        SecretCommand::Write(asked) => versions::write(tx, context, mount, path, asked),
        SecretCommand::DeleteCurrent => changes::delete_current(tx, context, mount, path),
        SecretCommand::Delete(numbers) => {
            let deleted = Change::Delete(context.clock);
            changes::change_versions(alloc, tx, mount, path, numbers.as_slice(), deleted)
        }
        SecretCommand::Undelete(numbers) => {
            changes::change_versions(alloc, tx, mount, path, numbers.as_slice(), Change::Undelete)
        }
        SecretCommand::Destroy(numbers) => {
            changes::change_versions(alloc, tx, mount, path, numbers.as_slice(), Change::Destroy)
        }
        SecretCommand::ShowMetadata => metadata::show(tx, context, mount, path),
        SecretCommand::SetMetadata(asked) => metadata::set(tx, context, mount, path, asked),
        SecretCommand::Remove => changes::remove(alloc, tx, mount, path),
        SecretCommand::List => metadata::list(tx, context, mount, path),
    }
}
