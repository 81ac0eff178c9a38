//! Mounts, enabled and disabled.

ghost use Rattle.std.specs.Prelude.{◌≡◌, is_some, option_map};
ghost use Rattle.broker_types.specs.Map.{Map, get};
ghost use Rattle.broker_types.specs.Broker.{Mount};
ghost use Rattle.broker_types.specs.Fault.{IsMemoryOrStorage};
ghost use Rattle.broker_types.specs.RequestError.{Ends};
ghost use Rattle.records.specs.declared.kind.Kind.TheVariants as kind;
ghost use Rattle.records.specs.Calls.{IsRequestChange};
ghost use Rattle.records.specs.Engines.{engine_of};
ghost use Rattle.records.specs.Parts.{of_mounts, KeepsOthers};
ghost use Rattle.records.specs.Table.{table};
ghost use Rattle.records.specs.Transaction.{IsHonest};
ghost use Rattle.mounts.specs.MountRows as rows;
ghost use Rattle.mounts.specs.MountRows.{AreMounts};
ghost use Rattle.mounts.specs.Mounts as spec;

use crate::naming::is_fixed;
use broker_types::{Reason, Refusal, RequestError, is_name, is_reserved};
use records::{Engine, Kind, MountRecord, RecordsTx, write_mount};
use std::alloc::Global;

/// Enables a mount of a type at a name. It is refused, in this order, for a text that is no name, for a name
/// that is reserved or in use, and for a type that is not supported. It fails only if memory runs out or the
/// storage fails (Vault's documentation, "/sys/mounts", enable secrets engine).
pub fn enable<T: RecordsTx>(
    alloc: Global,
    tx: &mut T,
    name: &str,
    type_name: &str,
    version: Option<u64>,
) -> Result<(), RequestError>
    ensures rows { IsHonest (T.seen tx.new)
        → Ends (λ _ next. table (T.seen tx.new) ≡ next) ((T.seen tx.new).rows ≡ (T.seen tx.old).rows) result
        (rows.enabled (table (T.seen tx.old)) name.now type_name.now version) }
    ensures told { IsHonest (T.seen tx.new) → (mounts : Map Mount) → AreMounts (table (T.seen tx.old)) mounts
        → Ends (λ _ next. AreMounts (table (T.seen tx.new)) next)
        ((T.seen tx.new).rows ≡ (T.seen tx.old).rows) result
        (spec.enabled mounts name.now type_name.now version) }
    ensures call { IsRequestChange (KeepsOthers of_mounts) (T.seen tx.old) (T.seen tx.new) result IsMemoryOrStorage }
{
    let is_there = tx.get(Kind::Mount, name)?.is_some();
    let mount = new_mount(is_there, name, type_name, version)?;
    let row = write_mount(alloc, &mount)?;
    tx.put(Kind::Mount, name, row)?;
    Ok(())
}

/// The mount of a type at a name, which has a mount already or not.
fn new_mount(
    is_there: bool,
    name: &str,
    type_name: &str,
    version: Option<u64>,
) -> Result<MountRecord, Refusal>
    ensures { result ≡ spec.new_mount is_there name.now type_name.now version }
{
    if !is_name(name) {
        return Err(Refusal::BadRequest(Reason::InvalidName));
    }
    if is_there || is_reserved(name) {
        return Err(Refusal::BadRequest(Reason::PathInUse));
    }
    match engine_asked(type_name, version) {
        Some(engine) => Ok(MountRecord {
            engine,
            cas_required: false,
            max_versions: 0,
        }),
        None => Err(Refusal::BadRequest(Reason::UnsupportedMount)),
    }
}

/// What is at a mount of a type: `issued`, `kv-v2`, or `kv` in version 2.
fn engine_asked(type_name: &str, version: Option<u64>) -> Option<Engine>
    ensures { option_map engine_of result ≡ spec.engine_asked type_name.now version }
{
    if type_name == "issued" {
        return Some(Engine::Issued);
    }
    if type_name == "kv-v2" {
        return Some(Engine::Kv);
    }
    if type_name == "kv" && version == Some(2) {
        return Some(Engine::Kv);
    }
    None
}

/// Disables a mount, and answers whether there was one of the name; if not, nothing happens. It is refused for the
/// mounts that are always there. What is kept at the mount is removed by the parts that keep it. It fails only if
/// memory runs out or the storage fails (Vault's documentation, "/sys/mounts", disable secrets engine).
pub fn disable<T: RecordsTx>(tx: &mut T, name: &str) -> Result<bool, RequestError>
    ensures rows { IsHonest (T.seen tx.new)
        → Ends (λ was next. (was ≡ is_some (table (T.seen tx.old) kind.Mount name.now))
        × (table (T.seen tx.new) ≡ next)) ((T.seen tx.new).rows ≡ (T.seen tx.old).rows) result
        (rows.disabled (table (T.seen tx.old)) name.now) }
    ensures told { IsHonest (T.seen tx.new) → (mounts : Map Mount) → AreMounts (table (T.seen tx.old)) mounts
        → Ends (λ was next. (was ≡ is_some (get mounts name.now)) × AreMounts (table (T.seen tx.new)) next)
        ((T.seen tx.new).rows ≡ (T.seen tx.old).rows) result (spec.disabled mounts name.now) }
    ensures call { IsRequestChange (KeepsOthers of_mounts) (T.seen tx.old) (T.seen tx.new) result IsMemoryOrStorage }
{
    if is_fixed(name) {
        return Err(RequestError::Refused(Refusal::BadRequest(Reason::MountFixed)));
    }
    let was_there = tx.get(Kind::Mount, name)?.is_some();
    tx.remove(Kind::Mount, name)?;
    Ok(was_there)
}
