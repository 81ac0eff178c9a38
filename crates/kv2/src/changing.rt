//! Versions deleted, restored and destroyed.

ghost use Rattle.std.specs.Prelude.{◌≡◌, ◌∷◌, [], Option, OnOk, IfErr};
ghost use Rattle.broker_types.specs.Broker.{Broker};
ghost use Rattle.broker_types.specs.Fault.{IsMemoryOrStorage, IsNotBadStart};
ghost use Rattle.broker_types.specs.Secret.{Version};
ghost use Rattle.broker_types.specs.Sound.{Forms, SoundSecrets, IsSecretName};
ghost use Rattle.records.specs.Calls.{IsCall, IsChange};
ghost use Rattle.records.specs.KeyEntry.{KeyEntry};
ghost use Rattle.records.specs.Parts.{of_secrets, Tells};
ghost use Rattle.records.specs.Table.{table};
ghost use Rattle.records.specs.Transaction.{IsHonest};
ghost use Rattle.kv2.specs.Changes.{change_of, IsTimely, ChangesVersions};
ghost use Rattle.kv2.specs.SecretRows.{HasKey, HasVersion, AreChanged, KeepsOtherNames, current_of};
ghost use Rattle.kv2.specs.SecretRows.{IsReadableKey, AreReadableVersions};
ghost use Rattle.kv2.specs.Secrets as secrets;
ghost use Rattle.kv2.specs.Versions as versions;

use crate::finding::find_key;
use crate::keys::{secret_name, version_key};
use broker_types::{Fault, Moment};
use records::{Kind, RecordsTx, VersionRecord, read_version, versions_have_keys, write_version};
use std::alloc::Global;

/// What is done to versions.
#[derive(Clone, Copy, Debug, PartialEq, Eq)]
pub(crate) enum Change {
    /// They are deleted at a moment, in seconds since 1970-01-01T00:00:00Z.
    Delete(u64),
    /// Their deletion is taken back, unless they are destroyed.
    Restore,
    /// Their secrets go for good.
    Destroy,
}

/// A version changed.
fn changed(version: VersionRecord<'_>, change: Change) -> VersionRecord<'_>
    ensures { result ≡ change_of change version.entry }
{
    match change {
        Change::Delete(now) => {
            if version.deleted.is_some() {
                return version;
            }
            VersionRecord {
                created: version.created,
                deleted: Some(now),
                secret: version.secret,
            }
        }
        Change::Restore => {
            if version.secret.is_none() {
                return version;
            }
            VersionRecord {
                created: version.created,
                deleted: None,
                secret: version.secret,
            }
        }
        Change::Destroy => VersionRecord {
            created: version.created,
            deleted: version.deleted,
            secret: None,
        },
    }
}

/// Changes a version of a name; if it is not there nothing happens. It fails as `Damaged` if the row is not one
/// of a version, and also if memory runs out or the storage fails.
fn change_version<T: RecordsTx>(
    alloc: Global,
    tx: &mut T,
    name: &str,
    number: u64,
    change: Change,
) -> Result<(), Fault>
    ensures rows { IsHonest (T.seen tx.new) → IsTimely change → OnOk result (AreChanged (change_of change)
        (number ∷ []) name.now (table (T.seen tx.old)) (table (T.seen tx.new))) }
    ensures faults { IsHonest (T.seen tx.new) → (v : Option Version)
        → HasVersion (table (T.seen tx.old)) name.now number v → IfErr result IsMemoryOrStorage }
    ensures call { IsCall (T.seen tx.old) (T.seen tx.new) result IsNotBadStart }
{
    let key = version_key(alloc, name, number)?;
    let Some(kept) = tx.get(Kind::KvVersion, key.as_str())? else {
        return Ok(());
    };
    let version = changed(read_version(&kept)?, change);
    let row = write_version(alloc, &version)?;
    tx.put(Kind::KvVersion, key.as_str(), row)
}

/// Changes versions of a name; those that are not there are passed over. It fails as `Damaged` if a row that it
/// reads is not one of a version, and also if memory runs out or the storage fails.
fn change_versions<T: RecordsTx>(
    alloc: Global,
    tx: &mut T,
    name: &str,
    numbers: &[u64],
    change: Change,
) -> Result<(), Fault>
    ensures rows { IsHonest (T.seen tx.new) → IsTimely change → OnOk result (AreChanged (change_of change)
        numbers.now name.now (table (T.seen tx.old)) (table (T.seen tx.new))) }
    ensures faults { IsHonest (T.seen tx.new) → IsTimely change
        → AreReadableVersions (table (T.seen tx.old)) name.now numbers.now
        → IfErr result IsMemoryOrStorage }
    ensures call { IsCall (T.seen tx.old) (T.seen tx.new) result IsNotBadStart }
{
    for number in numbers {
        change_version(alloc, tx, name, *number, change)?;
    }
    Ok(())
}

/// Changes the current version of a name, if the key and the version are there. It fails as `Damaged` if a row
/// that it reads is not one of a key or of a version, and also if memory runs out or the storage fails.
fn change_current<T: RecordsTx>(
    alloc: Global,
    tx: &mut T,
    name: &str,
    change: Change,
) -> Result<(), Fault>
    ensures rows { IsHonest (T.seen tx.new) → IsTimely change → (k : Option KeyEntry)
        → HasKey (table (T.seen tx.old)) name.now k → OnOk result (AreChanged (change_of change)
        (current_of k) name.now (table (T.seen tx.old)) (table (T.seen tx.new))) }
    ensures readable { IsHonest (T.seen tx.new)
        → OnOk result (IsReadableKey (table (T.seen tx.old)) name.now) }
    ensures others { IsHonest (T.seen tx.new) → IsTimely change → OnOk result
        (KeepsOtherNames name.now (table (T.seen tx.old)) (table (T.seen tx.new))) }
    ensures faults { IsHonest (T.seen tx.new) → (k : Option KeyEntry)
        → HasKey (table (T.seen tx.old)) name.now k
        → AreReadableVersions (table (T.seen tx.old)) name.now (current_of k)
        → IfErr result IsMemoryOrStorage }
    ensures call { IsCall (T.seen tx.old) (T.seen tx.new) result IsNotBadStart }
{
    let Some(key) = find_key(alloc, tx, name)? else {
        return Ok(());
    };
    change_version(alloc, tx, name, key.current, change)
}

/// Deletes the current version of the secret at a path of a mount. Nothing happens if it is deleted already, or
/// if the secret is not there. It fails as `Damaged` if a row that it reads is not one of a key or of a version,
/// and also if memory runs out or the storage fails (Vault's documentation, "KV secrets engine - version 2
/// (API)", delete latest version of secret).
pub fn delete<T: RecordsTx>(
    alloc: Global,
    tx: &mut T,
    now: Moment,
    mount: &str,
    path: &str,
) -> Result<(), Fault>
    ensures rows { IsHonest (T.seen tx.new) → (k : Option KeyEntry)
        → HasKey (table (T.seen tx.old)) (secrets.secret_name mount.now path.now) k
        → OnOk result (AreChanged (versions.soft_deleted now) (current_of k)
        (secrets.secret_name mount.now path.now) (table (T.seen tx.old)) (table (T.seen tx.new))) }
    // Whatever the rows are: with a damaged row there is no answer. Of the version's row `rows` says so.
    ensures readable { IsHonest (T.seen tx.new) → OnOk result
        (IsReadableKey (table (T.seen tx.old)) (secrets.secret_name mount.now path.now)) }
    ensures told { IsHonest (T.seen tx.new) → (forms : Forms) (b : Broker) → SoundSecrets forms b.secrets
        → Tells of_secrets (table (T.seen tx.old)) b → now ≡ b.clock
        → IsSecretName (secrets.secret_name mount.now path.now)
        → OnOk result (Tells of_secrets (table (T.seen tx.new)) (secrets.delete b mount.now path.now)) }
    ensures faults { IsHonest (T.seen tx.new) → (k : Option KeyEntry)
        → HasKey (table (T.seen tx.old)) (secrets.secret_name mount.now path.now) k
        → AreReadableVersions (table (T.seen tx.old)) (secrets.secret_name mount.now path.now) (current_of k)
        → IfErr result IsMemoryOrStorage }
    ensures wants { IsHonest (T.seen tx.new) → (forms : Forms) (b : Broker) → SoundSecrets forms b.secrets
        → Tells of_secrets (table (T.seen tx.old)) b
        → IsSecretName (secrets.secret_name mount.now path.now) → IfErr result IsMemoryOrStorage }
    ensures call { IsChange (KeepsOtherNames (secrets.secret_name mount.now path.now))
        (T.seen tx.old) (T.seen tx.new) result IsNotBadStart }
{
    versions_have_keys();
    let now = now.seconds();
    let name = secret_name(alloc, mount, path)?;
    change_current(alloc, tx, name.as_str(), Change::Delete(now))
}

/// Changes versions of the secret at a path of a mount; those that are not there are passed over. It fails as
/// `Damaged` if a row that it reads is not one of a version, and also if memory runs out or the storage fails.
fn change_secret<T: RecordsTx>(
    alloc: Global,
    tx: &mut T,
    mount: &str,
    path: &str,
    numbers: &[u64],
    change: Change,
) -> Result<(), Fault>
    ensures { IsTimely change → ChangesVersions (change_of change) numbers.now mount.now path.now
        (T.seen tx.old) (T.seen tx.new) result }
{
    versions_have_keys();
    let name = secret_name(alloc, mount, path)?;
    change_versions(alloc, tx, name.as_str(), numbers, change)
}

/// Deletes versions of the secret at a path of a mount at this moment, which is the clock's. Those that are deleted
/// already or not there are passed over; one that is destroyed and not deleted gets a time of deletion. It fails as
/// `Damaged` if a row that it reads is not one of a version, and also if memory runs out or the storage fails
/// (Vault's documentation, "KV secrets engine - version 2 (API)", delete secret versions).
pub fn delete_versions<T: RecordsTx>(
    alloc: Global,
    tx: &mut T,
    now: Moment,
    mount: &str,
    path: &str,
    numbers: &[u64],
) -> Result<(), Fault>
    ensures { ChangesVersions (versions.soft_deleted now) numbers.now mount.now path.now
        (T.seen tx.old) (T.seen tx.new) result }
{
    let now = now.seconds();
    change_secret(alloc, tx, mount, path, numbers, Change::Delete(now))
}

/// Takes back the deletion of versions of the secret at a path of a mount. Those that are destroyed, not deleted
/// or not there are passed over. It fails as `Damaged` if a row that it reads is not one of a version, and also if
/// memory runs out or the storage fails (Vault's documentation, "KV secrets engine - version 2 (API)", undelete
/// secret versions).
pub fn undelete<T: RecordsTx>(
    alloc: Global,
    tx: &mut T,
    mount: &str,
    path: &str,
    numbers: &[u64],
) -> Result<(), Fault>
    ensures { ChangesVersions versions.restored numbers.now mount.now path.now
        (T.seen tx.old) (T.seen tx.new) result }
{
    change_secret(alloc, tx, mount, path, numbers, Change::Restore)
}

/// Destroys versions of the secret at a path of a mount: their secrets go for good, and the times of their deletion
/// stay. Those that are not there are passed over. It fails as `Damaged` if a row that it reads is not one of a
/// version, and also if memory runs out or the storage fails (Vault's documentation, "KV secrets engine - version 2
/// (API)", destroy secret versions).
pub fn destroy<T: RecordsTx>(
    alloc: Global,
    tx: &mut T,
    mount: &str,
    path: &str,
    numbers: &[u64],
) -> Result<(), Fault>
    ensures { ChangesVersions versions.destroyed numbers.now mount.now path.now
        (T.seen tx.old) (T.seen tx.new) result }
{
    change_secret(alloc, tx, mount, path, numbers, Change::Destroy)
}
