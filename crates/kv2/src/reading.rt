//! Versions of secrets, read.

ghost use Rattle.std.specs.Prelude.{◌≡◌, Option, option_map, is_some, IfOk, IfErr};
ghost use Rattle.broker_types.specs.Broker.{Broker};
ghost use Rattle.broker_types.specs.Fault.{IsMemoryOrStorage, IsNotBadStart};
ghost use Rattle.broker_types.specs.Secret.{Version};
ghost use Rattle.broker_types.specs.Sound.{Forms, SoundSecrets};
ghost use Rattle.records.specs.declared.kind.Kind.TheVariants as kind;
ghost use Rattle.records.specs.Calls.{IsReading};
ghost use Rattle.records.specs.Parts.{of_secrets, Tells};
ghost use Rattle.records.specs.Ranges.{IsVersionInRange};
ghost use Rattle.records.specs.RowReaders.{IsSomeIn};
ghost use Rattle.records.specs.Table.{table};
ghost use Rattle.records.specs.Transaction.{IsHonest};
ghost use Rattle.kv2.specs.SecretRows.{HasVersion, IsRead};
ghost use Rattle.kv2.specs.Secrets as secrets;
ghost use Rattle.kv2.specs.Versions as versions;
ghost use Rattle.kv2.specs.Versions.{Found};

use crate::finding::find_key;
use crate::keys::{secret_name, version_key};
use crate::secret_version::{FoundVersion, SecretVersion};
use broker_types::{Fault, TextBuf};
use records::{Kind, RecordsTx, read_version, versions_have_keys};
use std::alloc::Global;

/// What is kept of a version of the secret of a name, if there is one. It fails as `Damaged` if the row is not one of a
/// version, and also if memory runs out or the storage fails.
fn find_version<T: RecordsTx>(
    alloc: Global,
    tx: &mut T,
    name: &str,
    number: u64,
) -> Result<Option<SecretVersion>, Fault>
    ensures found { IsHonest (T.seen tx.new) → (v : Option Version)
        → HasVersion (table (T.seen tx.old)) name.now number v → IfOk result (λ o. o ≡ v) }
    ensures exact { IsHonest (T.seen tx.new)
        → IfOk result (HasVersion (table (T.seen tx.old)) name.now number) }
    ensures in_range { IfOk result (IsSomeIn IsVersionInRange) }
    ensures faults { IsHonest (T.seen tx.new) → (v : Option Version)
        → HasVersion (table (T.seen tx.old)) name.now number v → IfErr result IsMemoryOrStorage }
    ensures call { IsReading (T.seen tx.old) (T.seen tx.new) result IsNotBadStart }
{
    let key = version_key(alloc, name, number)?;
    let Some(kept) = tx.get(Kind::KvVersion, key.as_str())? else {
        return Ok(None);
    };
    let found = read_version(&kept)?;
    let version = SecretVersion::copied(alloc, &found)?;
    Ok(Some(version))
}

/// The version of a secret with this custom metadata, with its number, if there is one.
fn numbered(
    custom_metadata: Vec<(TextBuf, TextBuf)>,
    number: u64,
    found: Option<SecretVersion>,
) -> Option<FoundVersion>
    ensures value { result ≡ option_map (versions.numbered custom_metadata.items number) found }
    ensures in_range { IsSomeIn IsVersionInRange found → IsSomeIn (λ v. IsVersionInRange v.version) result }
{
    match found {
        None => None,
        Some(version) => Some(FoundVersion {
            number,
            version,
            custom_metadata,
        }),
    }
}

/// The number that is asked for; 0 is the current one.
fn asked_number(current: u64, number: u64) -> u64
    ensures { result ≡ versions.asked_number current number }
{
    if number == 0 { current } else { number }
}

/// A version of the secret at a path of a mount with its number, also if it is deleted or destroyed, and with the
/// secret's custom metadata; 0 asks for the current one. There is none if the secret or the version is not there. It
/// fails as `Damaged` if a row that it reads is not one of a key or of a version, and also if memory runs out or the
/// storage fails (Vault's documentation, "KV secrets engine - version 2 (API)", read secret version).
pub fn read<T: RecordsTx>(
    alloc: Global,
    tx: &mut T,
    mount: &str,
    path: &str,
    number: u64,
) -> Result<Option<FoundVersion>, Fault>
    ensures found { IsHonest (T.seen tx.new) → IfOk result
        (IsRead (table (T.seen tx.old)) (secrets.secret_name mount.now path.now) number) }
    ensures told { IsHonest (T.seen tx.new) → (forms : Forms) (b : Broker) → SoundSecrets forms b.secrets
        → Tells of_secrets (table (T.seen tx.old)) b
        → IfOk result (λ o. o ≡ secrets.read b mount.now path.now number) }
    ensures in_range { IfOk result (IsSomeIn (λ v. IsVersionInRange v.version)) }
    ensures faults { IsHonest (T.seen tx.new) → (o : Option Found)
        → IsRead (table (T.seen tx.old)) (secrets.secret_name mount.now path.now) number o
        → IfErr result IsMemoryOrStorage }
    ensures wants { IsHonest (T.seen tx.new) → (forms : Forms) (b : Broker) → SoundSecrets forms b.secrets
        → Tells of_secrets (table (T.seen tx.old)) b → IfErr result IsMemoryOrStorage }
    ensures call { IsReading (T.seen tx.old) (T.seen tx.new) result IsNotBadStart }
{
    versions_have_keys();
    let name = secret_name(alloc, mount, path)?;
    let Some(key) = find_key(alloc, tx, name.as_str())? else {
        return Ok(None);
    };
    let asked = asked_number(key.current, number);
    let found = find_version(alloc, tx, name.as_str(), asked)?;
    Ok(numbered(key.custom_metadata, asked, found))
}

/// Whether a secret is at a path of a mount, also if its versions are deleted or destroyed. The row of its key tells
/// it by being there: it is not read, so a damaged one counts too. It fails only if memory runs out or the storage
/// fails (Vault's documentation, "Policies", capabilities: a write to a path where nothing is needs `create`, and any
/// other `update`).
pub fn is_there<T: RecordsTx>(
    alloc: Global,
    tx: &mut T,
    mount: &str,
    path: &str,
) -> Result<bool, Fault>
    ensures found { IsHonest (T.seen tx.new) → IfOk result (λ v. v
        ≡ is_some (table (T.seen tx.old) kind.KvKey (secrets.secret_name mount.now path.now))) }
    ensures told { IsHonest (T.seen tx.new) → (b : Broker) → Tells of_secrets (table (T.seen tx.old)) b
        → IfOk result (λ v. v ≡ is_some (secrets.key_at b mount.now path.now)) }
    ensures call { IsReading (T.seen tx.old) (T.seen tx.new) result IsMemoryOrStorage }
{
    let name = secret_name(alloc, mount, path)?;
    Ok(tx.get(Kind::KvKey, name.as_str())?.is_some())
}
