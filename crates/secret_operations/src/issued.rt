//! Requests to a mount that issues credentials: its roles, and the credentials (this project's engine).

ghost use Rattle.std.specs.Prelude.{◌≡◌, ◌≤◌, true, IfOk, length};
ghost use Rattle.broker_types.specs.Fault.{IsNotBadStart};
ghost use Rattle.broker_types.specs.Limits.{longest_body};
ghost use Rattle.broker_types.specs.Name.{is_mount_name};
ghost use Rattle.broker_types.specs.Names.{names_of};
ghost use Rattle.records.specs.Calls.{IsRequestCall};
ghost use Rattle.api_json.specs.Readers as reader;
ghost use Rattle.api_json.specs.Reads.{IsRead};
ghost use Rattle.broker_model.specs.Traits.{names_needed};
ghost use Rattle.broker_model.specs.declared.commands.IssuedCommand.TheVariants as commands;
ghost use Rattle.broker_model.specs.parts.Bodies.{read_as};
ghost use Rattle.broker_model.specs.parts.Issued as part;
ghost use Rattle.broker_model.specs.parts.Issued.{issued_command, issued_needs};
ghost use Rattle.broker_rows.specs.Operating.{ArePrinted, PerformsBy};
ghost use Rattle.secret_operations.specs.InRange.{IsIssuedCommandInRange};

mod credentials;
mod roles;

use crate::place::Place;
use api_json::{credential, read_body, role_settings};
use broker_model::IssuedCommand;
use broker_rows::{Answered, Caller, Context};
use broker_types::{RequestError, TextBuf};
use mounts::IssuedOperation;
use records::RecordsTx;
use std::alloc::Global;

/// Reads what an operation on roles and credentials asks for. Only a role that is set and a credential that is verified
/// are in the body: it is refused if it cannot be read. The only fault is running out of memory.
pub fn read_issued_command(
    alloc: Global,
    operation: IssuedOperation,
    body: &[u8],
) -> Result<IssuedCommand, RequestError>
    requires { length body.now ≤ longest_body }
    ensures reads { IsRead (issued_command operation body.now) result }
    ensures in_range { IfOk result IsIssuedCommandInRange }
{
    match operation {
        IssuedOperation::ShowRole => Ok(IssuedCommand::ShowRole),
        IssuedOperation::SetRole => read_role(alloc, body),
        IssuedOperation::RemoveRole => Ok(IssuedCommand::RemoveRole),
        IssuedOperation::Issue => Ok(IssuedCommand::Issue),
        IssuedOperation::Verify => read_credential(alloc, body),
    }
}

/// Reads the role that is set.
fn read_role(alloc: Global, body: &[u8]) -> Result<IssuedCommand, RequestError>
    ensures reads { IsRead (read_as reader.role_settings commands.SetRole body.now) result }
    ensures in_range { IfOk result IsIssuedCommandInRange }
{
    let members = read_body(alloc, body)?;
    let asked = role_settings(alloc, &members)?;
    Ok(IssuedCommand::SetRole(asked))
}

/// Reads the credential that is verified.
fn read_credential(alloc: Global, body: &[u8]) -> Result<IssuedCommand, RequestError>
    ensures reads { IsRead (read_as reader.credential commands.Verify body.now) result }
    ensures in_range { IfOk result IsIssuedCommandInRange }
{
    let members = read_body(alloc, body)?;
    let text = credential(alloc, &members)?;
    Ok(IssuedCommand::Verify(text))
}

/// Carries out a command of the caller at the place of a role. The identifiers that it needs have been printed. It may
/// be refused. It fails with `Memory` if memory runs out, with `Storage` if the transaction's storage failed, and with
/// `Damaged` if a row that it asks for cannot be read.
pub fn act_on_issued<T: RecordsTx>(
    tx: &mut T,
    context: &Context<'_>,
    caller: &Caller<'_>,
    own: &[TextBuf],
    place: &Place<'_>,
    command: IssuedCommand,
) -> Result<Answered, RequestError>
    requires in_range { IsIssuedCommandInRange command }
    requires own { ArePrinted own.now (names_needed (issued_needs command) (names_of context.now.words)) }
    ensures told { is_mount_name place.now.mount ≡ true
        → PerformsBy caller.now context.now (names_needed (issued_needs command) (names_of context.now.words))
        (T.seen tx.old) (T.seen tx.new)
        (λ b. part.act_on_issued b caller.now.token (names_of context.now.words) place.now command) result }
    ensures call { IsRequestCall (T.seen tx.old) (T.seen tx.new) result IsNotBadStart }
{
    let mount = place.mount;
    let name = place.path;
    match command {
        IssuedCommand::ShowRole => roles::show(tx, context, mount, name),
        IssuedCommand::SetRole(asked) => roles::set(context.alloc, tx, mount, name, asked),
        IssuedCommand::RemoveRole => roles::remove(context.alloc, tx, mount, name),
        IssuedCommand::Issue => credentials::issue(tx, context, caller, own, mount, name),
        IssuedCommand::Verify(text) => credentials::verify(tx, context, text.as_str()),
    }
}
