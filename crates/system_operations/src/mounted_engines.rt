//! Requests on mounts (Vault's documentation, "/sys/mounts").

ghost use Rattle.std.specs.Prelude.{◌≡◌, [], true, Option, Ok, IfOk, IfErr, OnOk, map};
ghost use Rattle.broker_types.specs.Broker.{Broker};
ghost use Rattle.broker_types.specs.Fault.{IsMemoryOrStorage, IsNotBadStart};
ghost use Rattle.broker_types.specs.Name.{is_mount_name};
ghost use Rattle.broker_types.specs.Names.{names_of};
ghost use Rattle.broker_types.specs.Text.{Text};
ghost use Rattle.records.specs.Calls.{IsCall, IsRequestCall, IsRequestReading};
ghost use Rattle.records.specs.Transaction.{IsHonest};
ghost use Rattle.api_json.specs.Readers as reader;
ghost use Rattle.api_json.specs.Reads.{IsRead};
ghost use Rattle.broker_model.specs.declared.commands.MountCommand.TheVariants as commands;
ghost use Rattle.broker_model.specs.parts.Bodies.{read_as};
ghost use Rattle.broker_model.specs.parts.Mounts as part;
ghost use Rattle.broker_model.specs.parts.Mounts.{mount_command};
ghost use Rattle.broker_rows.specs.Context as known;
ghost use Rattle.broker_rows.specs.Operating.{Performs};
ghost use Rattle.broker_rows.specs.Representing.{Represents};

use api_json::{MountCreation, MountObject, mount_creation, mounts_object, read_body};
use broker_model::MountCommand;
use broker_rows::{Answered, Context};
use broker_types::{Fault, RequestError, TextBuf};
use mounts::{MountOperation, MountType, NamedMount};
use records::RecordsTx;
use std::alloc::{AllocError, Global};

/// Reads what an operation on mounts asks for. It is refused if a mount is enabled and the body is no object, or does
/// not say the type of the mount. The only fault is running out of memory.
pub fn read_mount_command(
    alloc: Global,
    operation: MountOperation,
    body: &[u8],
) -> Result<MountCommand, RequestError>
    ensures reads { IsRead (mount_command operation body.now) result }
{
    match operation {
        MountOperation::List => Ok(MountCommand::List),
        MountOperation::Enable => read_enable(alloc, body),
        MountOperation::Disable => Ok(MountCommand::Disable),
    }
}

/// Reads what is asked of a new mount.
fn read_enable(alloc: Global, body: &[u8]) -> Result<MountCommand, RequestError>
    ensures { IsRead (read_as reader.mount_creation commands.Enable body.now) result }
{
    let members = read_body(alloc, body)?;
    let asked = mount_creation(alloc, &members)?;
    Ok(MountCommand::Enable(asked))
}

/// Carries out a command on mounts, at the name of one. It may be refused. It fails with `Memory` if memory runs out,
/// with `Storage` if the transaction's storage failed, and with `Damaged` if a row that it asks for cannot be read.
pub fn act_on_mounts<T: RecordsTx>(
    tx: &mut T,
    context: &Context<'_>,
    name: &str,
    command: MountCommand,
) -> Result<Answered, RequestError>
    ensures told { (who : Option Text) → Performs who context.now [] (T.seen tx.old) (T.seen tx.new)
        (λ b. part.act_on_mounts b (names_of context.now.words) name.now command) result }
    ensures call { IsRequestCall (T.seen tx.old) (T.seen tx.new) result IsNotBadStart }
{
    match command {
        MountCommand::List => list(tx, context),
        MountCommand::Enable(asked) => enable(context.alloc, tx, name, asked),
        MountCommand::Disable => disable(context.alloc, tx, name),
    }
}

/// Lists all mounts.
fn list<T: RecordsTx>(tx: &mut T, context: &Context<'_>) -> Result<Answered, RequestError>
    ensures told { (who : Option Text) → Performs who context.now [] (T.seen tx.old) (T.seen tx.new)
        (λ b. Ok (part.list b (names_of context.now.words))) result }
    ensures call { IsRequestReading (T.seen tx.old) (T.seen tx.new) result IsNotBadStart }
{
    let alloc = context.alloc;
    let mounts = mounts::list(alloc, tx)?;
    let objects = all_shown(alloc, &mounts)?;
    let object = mounts_object(alloc, &objects)?;
    Ok(Answered::shown(context, object)?)
}

/// Mounts as a reply prints them.
fn all_shown(alloc: Global, mounts: &[NamedMount]) -> Result<Vec<MountObject>, AllocError>
    ensures { IfOk result (λ shown. shown.items ≡ map part.shown_mount mounts.now) }
{
    let mut shown = Vec::new(alloc);
    for mount in mounts {
        let object = mount_shown(alloc, mount)?;
        shown.push(object)?;
    }
    Ok(shown)
}

/// A mount as a reply prints it.
fn mount_shown(alloc: Global, mount: &NamedMount) -> Result<MountObject, AllocError>
    ensures { IfOk result (λ shown. shown ≡ part.shown_mount mount.now) }
{
    let name = TextBuf::copied(alloc, mount.name.as_str())?;
    let type_name = TextBuf::copied(alloc, type_name(mount.mount_type))?;
    let version = type_version(alloc, mount.mount_type)?;
    Ok(MountObject {
        name,
        type_name,
        version,
    })
}

/// The type of a mount as a reply prints it.
fn type_name(mount_type: MountType) -> &'static str
    ensures { result.now ≡ part.type_name mount_type }
{
    match mount_type {
        MountType::Token => "token",
        MountType::System => "system",
        MountType::Cubbyhole => "cubbyhole",
        MountType::Kv => "kv",
        MountType::Issued => "issued",
    }
}

/// The version of a type of mounts, if it has one.
fn type_version(alloc: Global, mount_type: MountType) -> Result<Option<TextBuf>, AllocError>
    ensures { IfOk result (λ version. version ≡ part.type_version mount_type) }
{
    match mount_type {
        MountType::Kv => Ok(Some(TextBuf::copied(alloc, "2")?)),
        MountType::Token | MountType::System | MountType::Cubbyhole | MountType::Issued => Ok(None),
    }
}

/// Enables a mount.
fn enable<T: RecordsTx>(
    alloc: Global,
    tx: &mut T,
    name: &str,
    asked: MountCreation,
) -> Result<Answered, RequestError>
    ensures told { (who : Option Text) (x : known.Context) → Performs who x [] (T.seen tx.old) (T.seen tx.new)
        (λ b. part.enable b name.now asked) result }
    ensures call { IsRequestCall (T.seen tx.old) (T.seen tx.new) result IsNotBadStart }
{
    mounts::enable(alloc, tx, name, asked.type_name.as_str(), asked.version)?;
    Ok(Answered::Nothing)
}

/// Disables a mount, with all that is kept there. Where none is, nothing happens.
fn disable<T: RecordsTx>(alloc: Global, tx: &mut T, name: &str) -> Result<Answered, RequestError>
    ensures told { (who : Option Text) (x : known.Context) → Performs who x [] (T.seen tx.old) (T.seen tx.new)
        (λ b. part.disable b name.now) result }
    ensures call { IsRequestCall (T.seen tx.old) (T.seen tx.new) result IsNotBadStart }
{
    let was_there = mounts::disable(tx, name)?;
    if !was_there {
        return Ok(Answered::Nothing);
    }
    drop_kept(alloc, tx, name)?;
    Ok(Answered::Nothing)
}

/// Drops what is kept under the name of a mount: secrets, roles, and the leases of any token. It fails with `Memory` if
/// memory runs out, with `Storage` if the transaction's storage failed, and with `Damaged` if the row of one of the
/// leases is not one of a lease.
fn drop_kept<T: RecordsTx>(alloc: Global, tx: &mut T, name: &str) -> Result<(), Fault>
    ensures told { IsHonest (T.seen tx.new) → (who : Option Text) (b : Broker)
        → Represents who (T.seen tx.old).rows b → is_mount_name name.now ≡ true
        → OnOk result (Represents who (T.seen tx.new).rows (part.without_kept b name.now)) }
    ensures wants { IsHonest (T.seen tx.new) → (who : Option Text) (b : Broker)
        → Represents who (T.seen tx.old).rows b → is_mount_name name.now ≡ true → IfErr result IsMemoryOrStorage }
    ensures call { IsCall (T.seen tx.old) (T.seen tx.new) result IsNotBadStart }
{
    kv2::drop_mount(alloc, tx, name)?;
    leases::drop_roles(alloc, tx, name)?;
    leases::revoke_under(alloc, tx, name)
}
