//! Secrets, removed.

ghost use Rattle.std.specs.Prelude.{◌≡◌, true, [], OnOk};
ghost use Rattle.broker_types.specs.Broker.{Broker};
ghost use Rattle.broker_types.specs.Fault.{IsMemoryOrStorage};
ghost use Rattle.broker_types.specs.Name.{is_mount_name};
ghost use Rattle.broker_types.specs.Sound.{IsSecretName};
ghost use Rattle.records.specs.Calls.{IsChange};
ghost use Rattle.records.specs.Parts.{of_secrets, Tells, KeepsOthers};
ghost use Rattle.records.specs.Table.{table};
ghost use Rattle.records.specs.Transaction.{IsHonest};
ghost use Rattle.kv2.specs.SecretRows as rows;
ghost use Rattle.kv2.specs.SecretRows.{KeepsOtherNames};
ghost use Rattle.kv2.specs.Secrets as secrets;

use crate::keys::{secret_name, versions_prefix};
use broker_types::Fault;
use records::{Kind, RecordsTx, remove_under, versions_have_keys};
use std::alloc::Global;

/// Removes the secret at a path of a mount with all its versions, if it is there. It fails only if memory runs
/// out or the storage fails (Vault's documentation, "KV secrets engine - version 2 (API)", delete metadata and
/// all versions).
pub fn remove_key<T: RecordsTx>(
    alloc: Global,
    tx: &mut T,
    mount: &str,
    path: &str,
) -> Result<(), Fault>
    ensures rows { IsHonest (T.seen tx.new) → OnOk result (table (T.seen tx.new)
        ≡ rows.without_key (table (T.seen tx.old)) (secrets.secret_name mount.now path.now)) }
    ensures told { IsHonest (T.seen tx.new) → (b : Broker) → Tells of_secrets (table (T.seen tx.old)) b
        → IsSecretName (secrets.secret_name mount.now path.now)
        → OnOk result (Tells of_secrets (table (T.seen tx.new)) (secrets.remove_key b mount.now path.now)) }
    ensures call { IsChange (KeepsOtherNames (secrets.secret_name mount.now path.now))
        (T.seen tx.old) (T.seen tx.new) result IsMemoryOrStorage }
{
    versions_have_keys();
    let name = secret_name(alloc, mount, path)?;
    let prefix = versions_prefix(alloc, name.as_str())?;
    tx.remove(Kind::KvKey, name.as_str())?;
    remove_under(tx, Kind::KvVersion, prefix.as_str())
}

/// Removes all secrets of a mount with their versions. It fails only if memory runs out or the storage fails
/// (Vault's documentation, "/sys/mounts", disable secrets engine: its data goes with it).
pub fn drop_mount<T: RecordsTx>(alloc: Global, tx: &mut T, mount: &str) -> Result<(), Fault>
    ensures rows { IsHonest (T.seen tx.new) → OnOk result (table (T.seen tx.new)
        ≡ rows.without_names (table (T.seen tx.old)) (secrets.secret_name mount.now [])) }
    ensures told { IsHonest (T.seen tx.new) → (b : Broker) → Tells of_secrets (table (T.seen tx.old)) b
        → is_mount_name mount.now ≡ true
        → OnOk result (Tells of_secrets (table (T.seen tx.new)) (secrets.drop_mount b mount.now)) }
    ensures call { IsChange (KeepsOthers of_secrets) (T.seen tx.old) (T.seen tx.new) result IsMemoryOrStorage }
{
    versions_have_keys();
    let prefix = secret_name(alloc, mount, "")?;
    remove_under(tx, Kind::KvKey, prefix.as_str())?;
    remove_under(tx, Kind::KvVersion, prefix.as_str())
}
