//! Settings of mounts.

ghost use Rattle.std.specs.Prelude.{◌≡◌, ◌<◌, ◌^◌, Option, option_map, unwrap_or, IfOk, IfErr, OnOk};
ghost use Rattle.broker_types.specs.Broker.{Broker, Mount};
ghost use Rattle.broker_types.specs.Fault.{IsMemoryOrStorage, IsNotBadStart};
ghost use Rattle.broker_types.specs.Sound.{SoundMounts};
ghost use Rattle.records.specs.Calls.{IsReading, IsChange};
ghost use Rattle.records.specs.Parts.{of_mounts, Tells};
ghost use Rattle.records.specs.RowReaders.{IsSomeIn, IsWide};
ghost use Rattle.records.specs.Table.{table};
ghost use Rattle.records.specs.Transaction.{IsHonest};
ghost use Rattle.kv2.specs.SecretRows as rows;
ghost use Rattle.kv2.specs.SecretRows.{HasMount, IsReadableMount, KeepsOtherMounts};
ghost use Rattle.kv2.specs.Secrets as secrets;

use broker_types::Fault;
use records::{Kind, MountRecord, RecordsTx, read_mount, write_mount};
use std::alloc::Global;

/// The settings of a mount, if it is there. It fails as `Damaged` if the row is not one of a mount, and also if
/// memory runs out or the storage fails (Vault's documentation, "KV secrets engine - version 2 (API)", read KV
/// engine configuration).
pub fn config<T: RecordsTx>(tx: &mut T, mount: &str) -> Result<Option<MountRecord>, Fault>
    ensures found { IsHonest (T.seen tx.new) → (m : Option Mount)
        → HasMount (table (T.seen tx.old)) mount.now m → IfOk result (λ o. o ≡ m) }
    ensures exact { IsHonest (T.seen tx.new) → IfOk result (HasMount (table (T.seen tx.old)) mount.now) }
    ensures told { IsHonest (T.seen tx.new) → (b : Broker) → SoundMounts b.mounts
        → Tells of_mounts (table (T.seen tx.old)) b → IfOk result (λ o. o ≡ secrets.config b mount.now) }
    ensures faults { IsHonest (T.seen tx.new) → (m : Option Mount)
        → HasMount (table (T.seen tx.old)) mount.now m → IfErr result IsMemoryOrStorage }
    ensures wants { IsHonest (T.seen tx.new) → (b : Broker) → SoundMounts b.mounts
        → Tells of_mounts (table (T.seen tx.old)) b → IfErr result IsMemoryOrStorage }
    ensures call { IsReading (T.seen tx.old) (T.seen tx.new) result IsNotBadStart }
{
    let Some(kept) = tx.get(Kind::Mount, mount)? else {
        return Ok(None);
    };
    Ok(Some(read_mount(&kept)?))
}

/// The number that is given, or else the one that is kept.
pub(crate) fn count_or(given: Option<u64>, kept: u64) -> u64
    ensures value { result ≡ unwrap_or given kept }
    ensures wide { result < 2 ^ 64 }
{
    match given {
        None => kept,
        Some(given) => given,
    }
}

/// Sets those settings of a mount that are given; the others stay. Nothing happens if the mount is not there.
/// It fails as `Damaged` if the row is not one of a mount, and also if memory runs out or the storage fails
/// (Vault's documentation, "KV secrets engine - version 2 (API)", configure the KV engine).
pub fn set_config<T: RecordsTx>(
    alloc: Global,
    tx: &mut T,
    mount: &str,
    cas_required: Option<bool>,
    max_versions: Option<u64>,
) -> Result<(), Fault>
    ensures rows { IsHonest (T.seen tx.new) → (m : Option Mount)
        → HasMount (table (T.seen tx.old)) mount.now m → OnOk result (table (T.seen tx.new)
        ≡ rows.rows_with_settings (table (T.seen tx.old)) mount.now
        (option_map (secrets.with_settings cas_required max_versions) m)) }
    ensures told { IsHonest (T.seen tx.new) → (b : Broker) → SoundMounts b.mounts
        → Tells of_mounts (table (T.seen tx.old)) b → OnOk result
        (Tells of_mounts (table (T.seen tx.new)) (secrets.set_config b mount.now cas_required max_versions)) }
    // Whatever the rows are: with a damaged row there is no answer.
    ensures readable { IsHonest (T.seen tx.new)
        → OnOk result (IsReadableMount (table (T.seen tx.old)) mount.now) }
    ensures faults { IsHonest (T.seen tx.new) → (m : Option Mount)
        → HasMount (table (T.seen tx.old)) mount.now m → IfErr result IsMemoryOrStorage }
    ensures wants { IsHonest (T.seen tx.new) → (b : Broker) → SoundMounts b.mounts
        → Tells of_mounts (table (T.seen tx.old)) b → IfErr result IsMemoryOrStorage }
    ensures wide { IsSomeIn IsWide max_versions }
    ensures call { IsChange (KeepsOtherMounts mount.now) (T.seen tx.old) (T.seen tx.new) result IsNotBadStart }
{
    let Some(found) = config(tx, mount)? else {
        return Ok(());
    };
    let settings = MountRecord {
        engine: found.engine,
        cas_required: cas_required.unwrap_or(found.cas_required),
        max_versions: count_or(max_versions, found.max_versions),
    };
    let row = write_mount(alloc, &settings)?;
    tx.put(Kind::Mount, mount, row)
}
