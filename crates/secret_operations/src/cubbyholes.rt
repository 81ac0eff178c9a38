//! Requests to the caller's cubbyhole (Vault's documentation, "Cubbyhole secrets engine (API)").

ghost use Rattle.std.specs.Prelude.{◌≡◌, ◌≤◌, [], true, Some, Ok, IfOk, length};
ghost use Rattle.broker_types.specs.Fault.{IsNotBadStart};
ghost use Rattle.broker_types.specs.Limits.{longest_body};
ghost use Rattle.broker_types.specs.Names.{names_of};
ghost use Rattle.broker_types.specs.Operation.{nothing, plainly};
ghost use Rattle.broker_types.specs.Path.{is_path};
ghost use Rattle.records.specs.Calls.{IsRequestCall, IsRequestReading};
ghost use Rattle.api_json.specs.KeptBodies.{IsKept};
ghost use Rattle.api_json.specs.Reads.{IsRead};
ghost use Rattle.cubbyhole.specs.Cubbyhole as cubbyhole;
ghost use Rattle.mounts.specs.declared.operation.CubbyholeOperation.TheVariants as operations;
ghost use Rattle.broker_model.specs.declared.commands.CubbyholeCommand.TheVariants as commands;
ghost use Rattle.broker_model.specs.parts.Cubbyholes as part;
ghost use Rattle.broker_rows.specs.Context as known;
ghost use Rattle.broker_rows.specs.Operating.{Performs};
ghost use Rattle.secret_operations.specs.InRange.{IsCubbyholeCommandInRange};
ghost use Rattle.secret_operations.specs.Paths.{needs_object_path};

use api_json::{keys_object, read_body};
use broker_model::CubbyholeCommand;
use broker_rows::{Answered, Context};
use broker_types::{Reason, Refusal, RequestError};
use mounts::CubbyholeOperation;
use records::RecordsTx;
use std::alloc::Global;

/// Reads what an operation on a cubbyhole asks for. It is refused if something is written and the body is no object.
/// The only fault is running out of memory.
pub fn read_cubbyhole_command(
    alloc: Global,
    operation: CubbyholeOperation,
    body: &[u8],
) -> Result<CubbyholeCommand, RequestError>
    requires { length body.now ≤ longest_body }
    ensures reads { IsRead (part.cubbyhole_command operation body.now) result }
    ensures in_range { IfOk result IsCubbyholeCommandInRange }
{
    match operation {
        CubbyholeOperation::Read => Ok(CubbyholeCommand::Read),
        CubbyholeOperation::List => Ok(CubbyholeCommand::List),
        CubbyholeOperation::Write => read_write(alloc, body),
        CubbyholeOperation::Delete => Ok(CubbyholeCommand::Delete),
    }
}

/// Reads the object that is written.
fn read_write(alloc: Global, body: &[u8]) -> Result<CubbyholeCommand, RequestError>
    requires { length body.now ≤ longest_body }
    ensures reads { IsRead (part.cubbyhole_command operations.Write body.now) result }
    ensures in_range { IfOk result IsCubbyholeCommandInRange }
{
    let members = read_body(alloc, body)?;
    if !members.has_members() {
        return Ok(CubbyholeCommand::Write(None));
    }
    let text = members.into_text(alloc)?;
    Ok(CubbyholeCommand::Write(Some(text)))
}

/// Carries out a command on a path of the caller's cubbyhole. It may be refused. It fails with `Memory` if memory runs
/// out, with `Storage` if the transaction's storage failed, and with `Damaged` if a row that it asks for cannot be
/// read.
pub fn act_on_cubbyholes<T: RecordsTx>(
    tx: &mut T,
    context: &Context<'_>,
    caller: &str,
    path: &str,
    command: CubbyholeCommand,
) -> Result<Answered, RequestError>
    requires { IsCubbyholeCommandInRange command }
    ensures told { (needs_object_path command ≡ true → is_path path.now ≡ true)
        → Performs (Some caller.now) context.now [] (T.seen tx.old) (T.seen tx.new)
        (λ b. part.act_on_cubbyhole b caller.now (names_of context.now.words) path.now command) result }
    ensures call { IsRequestCall (T.seen tx.old) (T.seen tx.new) result IsNotBadStart }
{
    match command {
        CubbyholeCommand::Read => read(tx, context, caller, path),
        CubbyholeCommand::List => list(tx, context, caller, path),
        CubbyholeCommand::Write(None) => {
            Err(RequestError::Refused(Refusal::BadRequest(Reason::MissingData)))
        }
        CubbyholeCommand::Write(Some(text)) => write(
            context.alloc,
            tx,
            caller,
            path,
            text.as_str(),
        ),
        CubbyholeCommand::Delete => delete(context.alloc, tx, caller, path),
    }
}

/// Reads a path of the caller's cubbyhole.
fn read<T: RecordsTx>(
    tx: &mut T,
    context: &Context<'_>,
    caller: &str,
    path: &str,
) -> Result<Answered, RequestError>
    ensures told { Performs (Some caller.now) context.now [] (T.seen tx.old) (T.seen tx.new)
        (λ b. part.act_on_cubbyhole b caller.now (names_of context.now.words) path.now commands.Read) result }
    ensures call { IsRequestReading (T.seen tx.old) (T.seen tx.new) result IsNotBadStart }
{
    let Some(object) = cubbyhole::read(context.alloc, tx, caller, path)? else {
        return Err(RequestError::Refused(Refusal::NotFound));
    };
    Ok(Answered::shown(context, object)?)
}

/// Lists the objects and folders of a folder of the caller's cubbyhole, or of the whole cubbyhole at the empty path.
fn list<T: RecordsTx>(
    tx: &mut T,
    context: &Context<'_>,
    caller: &str,
    path: &str,
) -> Result<Answered, RequestError>
    ensures told { Performs (Some caller.now) context.now [] (T.seen tx.old) (T.seen tx.new)
        (λ b. part.act_on_cubbyhole b caller.now (names_of context.now.words) path.now commands.List) result }
    ensures call { IsRequestReading (T.seen tx.old) (T.seen tx.new) result IsNotBadStart }
{
    let names = cubbyhole::list(context.alloc, tx, caller, path)?;
    if names.is_empty() {
        return Err(RequestError::Refused(Refusal::NotFound));
    }
    let object = keys_object(context.alloc, &names)?;
    Ok(Answered::shown(context, object)?)
}

/// Writes the text of an object to a path of the caller's cubbyhole.
fn write<T: RecordsTx>(
    alloc: Global,
    tx: &mut T,
    caller: &str,
    path: &str,
    text: &str,
) -> Result<Answered, RequestError>
    requires { IsKept text.now }
    ensures told { is_path path.now ≡ true → (x : known.Context)
        → Performs (Some caller.now) x [] (T.seen tx.old) (T.seen tx.new)
        (λ b. Ok (plainly nothing (cubbyhole.write b caller.now path.now text.now))) result }
    ensures call { IsRequestCall (T.seen tx.old) (T.seen tx.new) result IsNotBadStart }
{
    cubbyhole::write(alloc, tx, caller, path, text)?;
    Ok(Answered::Nothing)
}

/// Removes the object at a path of the caller's cubbyhole, if there is one.
fn delete<T: RecordsTx>(
    alloc: Global,
    tx: &mut T,
    caller: &str,
    path: &str,
) -> Result<Answered, RequestError>
    ensures told { (x : known.Context) → Performs (Some caller.now) x [] (T.seen tx.old) (T.seen tx.new)
        (λ b. Ok (plainly nothing (cubbyhole.delete b caller.now path.now))) result }
    ensures call { IsRequestCall (T.seen tx.old) (T.seen tx.new) result IsNotBadStart }
{
    cubbyhole::delete(alloc, tx, caller, path)?;
    Ok(Answered::Nothing)
}
