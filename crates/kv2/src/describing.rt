//! Secrets without their texts, told.

ghost use Rattle.std.specs.Prelude.{◌≡◌, ◌≤◌, ◌<◌, ◌^◌, ℕ, List, Option, Some, map, false};
ghost use Rattle.std.specs.Prelude.{IfOk, IfErr, MatchResult, ⊤};
ghost use Rattle.broker_types.specs.Broker.{Broker};
ghost use Rattle.broker_types.specs.Fault.{IsMemoryOrStorage, IsNotBadStart};
ghost use Rattle.broker_types.specs.Limits.{greatest_version};
ghost use Rattle.broker_types.specs.Secret.{Version};
ghost use Rattle.broker_types.specs.Sound.{Forms, SoundSecrets};
ghost use Rattle.records.specs.Calls.{IsReading, IsDecodeFault};
ghost use Rattle.records.specs.Parts.{of_secrets, Tells};
ghost use Rattle.records.specs.Ranges.{IsKeyInRange};
ghost use Rattle.records.specs.RowReaders.{IsSomeIn};
ghost use Rattle.records.specs.Rows as rows;
ghost use Rattle.records.specs.Table.{table};
ghost use Rattle.records.specs.Transaction.{IsHonest};
ghost use Rattle.kv2.specs.InRange.{AreToldInRange, IsMetadataInRange};
ghost use Rattle.kv2.specs.Metadata as spec;
ghost use Rattle.kv2.specs.Metadata.{Metadata};
ghost use Rattle.kv2.specs.SecretRows.{IsNumbered, IsEntryOf, AreEntriesOf, AreVersions, IsMetadata, versions_prefix};
ghost use Rattle.kv2.specs.Secrets as secrets;

use crate::finding::find_key;
use crate::keys::{secret_name, version_key, versions_prefix};
use crate::limits::GREATEST_VERSION;
use crate::secret_metadata::{SecretMetadata, VersionMetadata};
use broker_types::Fault;
use records::{Entry, KeyRecord, Kind, RecordsTx, read_version, versions_have_keys};
use std::alloc::Global;

/// The number of digits, if it has 64 bits.
fn number_of_digits(digits: &str) -> Option<u64>
    ensures { (n : ℕ) → n < 2 ^ 64 → digits.now ≡ rows.padded n → result ≡ Some n }
{
    match digits.parse::<u64>() {
        Ok(number) => Some(number),
        Err(_) => None,
    }
}

/// The number in the key of a version of a name, which begins with the name's prefix. It fails as `Damaged` if
/// the key is that of no version, and also if memory runs out.
fn number_in(alloc: Global, name: &str, prefix: &str, key: &str) -> Result<u64, Fault>
    ensures told { prefix.now ≡ versions_prefix name.now → (n : ℕ) → n ≤ greatest_version
        → key.now ≡ rows.version_key name.now n → MatchResult result (λ m. m ≡ n) IsMemoryOrStorage }
    ensures exact { IfOk result (λ n. (n ≤ greatest_version) × (key.now ≡ rows.version_key name.now n)) }
    ensures faults { IfErr result (IsDecodeFault ⊤) }
{
    let Some(digits) = key.strip_prefix(prefix) else {
        return Err(Fault::Damaged);
    };
    let Some(number) = number_of_digits(digits) else {
        return Err(Fault::Damaged);
    };
    let expected = version_key(alloc, name, number)?;
    if number > GREATEST_VERSION || expected.as_str() != key {
        return Err(Fault::Damaged);
    }
    Ok(number)
}

/// The version of a name that an entry keeps, without its text. It fails as `Damaged` if the entry is not one
/// of a version, and also if memory runs out.
fn version_in(
    alloc: Global,
    name: &str,
    prefix: &str,
    entry: &Entry,
) -> Result<VersionMetadata, Fault>
    ensures told { prefix.now ≡ versions_prefix name.now → (v : ℕ × Version) → IsNumbered v
        → IsEntryOf name.now entry.now v → MatchResult result (λ m. m ≡ spec.version_metadata v) IsMemoryOrStorage }
    ensures exact { IfOk result (λ m. (v : ℕ × Version) × IsNumbered v × IsEntryOf name.now entry.now v
        × (m ≡ spec.version_metadata v)) }
    ensures faults { IfErr result (IsDecodeFault ⊤) }
{
    let number = number_in(alloc, name, prefix, entry.key.as_str())?;
    let version = read_version(&entry.row)?;
    Ok(VersionMetadata {
        number,
        created: version.created,
        deleted: version.deleted,
        destroyed: version.secret.is_none(),
    })
}

/// The versions of a name that entries keep, without their texts. It fails as `Damaged` if an entry is not one of
/// a version, and also if memory runs out.
fn versions_in(alloc: Global, name: &str, listed: &[Entry]) -> Result<Vec<VersionMetadata>, Fault>
    ensures told { (vs : List (ℕ × Version)) → AreEntriesOf name.now listed.now vs
        → MatchResult result (λ list. list.items ≡ map spec.version_metadata vs) IsMemoryOrStorage }
    ensures exact { IfOk result (λ list. (vs : List (ℕ × Version)) × AreEntriesOf name.now listed.now vs
        × (list.items ≡ map spec.version_metadata vs)) }
    ensures faults { IfErr result (IsDecodeFault ⊤) }
{
    let prefix = versions_prefix(alloc, name)?;
    let mut list = Vec::new(alloc);
    for entry in listed {
        let version = version_in(alloc, name, prefix.as_str(), entry)?;
        list.push(version)?;
    }
    Ok(list)
}

/// The versions of a name without their texts, in the order of their numbers. It fails as `Damaged` if a row
/// whose key begins as those of the name's versions is not one of a version, and also if memory runs out or the
/// storage fails.
fn find_versions<T: RecordsTx>(
    alloc: Global,
    tx: &mut T,
    name: &str,
) -> Result<Vec<VersionMetadata>, Fault>
    ensures told { IsHonest (T.seen tx.new) → (vs : List (ℕ × Version))
        → AreVersions (T.seen tx.old).rows name.now vs
        → MatchResult result (λ list. list.items ≡ map spec.version_metadata vs) IsMemoryOrStorage }
    ensures exact { IsHonest (T.seen tx.new) → IfOk result (λ list. (vs : List (ℕ × Version))
        × AreVersions (T.seen tx.old).rows name.now vs × (list.items ≡ map spec.version_metadata vs)) }
    ensures in_range { IfOk result (λ list. AreToldInRange list.items) }
    ensures call { IsReading (T.seen tx.old) (T.seen tx.new) result IsNotBadStart }
{
    let prefix = versions_prefix(alloc, name)?;
    let listed = tx.under(Kind::KvVersion, prefix.as_str())?;
    versions_in(alloc, name, &listed)
}

/// The oldest of versions in the order of their numbers, if it is above 1; else 0.
fn oldest_of(versions: &[VersionMetadata]) -> u64
    ensures { result ≡ spec.oldest_of versions.now }
{
    match versions.first() {
        None => 0,
        Some(version) => {
            if version.number > 1 {
                version.number
            } else {
                0
            }
        }
    }
}

/// A key with its versions.
fn with_versions(key: KeyRecord, versions: Vec<VersionMetadata>) -> SecretMetadata
    ensures told { (vs : List (ℕ × Version)) → versions.items ≡ map spec.version_metadata vs
        → result ≡ spec.metadata_with key vs }
    ensures in_range { IsKeyInRange key → AreToldInRange versions.items → IsMetadataInRange result }
{
    SecretMetadata {
        cas_required: key.cas_required,
        created: key.created,
        current: key.current,
        custom_metadata: key.custom_metadata,
        max_versions: key.max_versions,
        oldest: oldest_of(&versions),
        updated: key.updated,
        versions,
    }
}

/// The secret at a path of a mount without its texts, if it is there: its own settings, its times and its versions
/// in the order of their numbers. It fails as `Damaged` if a row that it reads is not one of a key or of a version,
/// and also if memory runs out or the storage fails (Vault's documentation, "KV secrets engine - version 2 (API)",
/// read secret metadata).
pub fn metadata<T: RecordsTx>(
    alloc: Global,
    tx: &mut T,
    mount: &str,
    path: &str,
) -> Result<Option<SecretMetadata>, Fault>
    ensures found { IsHonest (T.seen tx.new) → IfOk result
        (IsMetadata (T.seen tx.old).rows (secrets.secret_name mount.now path.now)) }
    ensures told { IsHonest (T.seen tx.new) → (forms : Forms) (b : Broker) → SoundSecrets forms b.secrets
        → Tells of_secrets (table (T.seen tx.old)) b
        → IfOk result (λ o. o ≡ secrets.metadata b mount.now path.now) }
    ensures in_range { IfOk result (IsSomeIn IsMetadataInRange) }
    ensures faults { IsHonest (T.seen tx.new) → (o : Option Metadata)
        → IsMetadata (T.seen tx.old).rows (secrets.secret_name mount.now path.now) o → IfErr result IsMemoryOrStorage }
    ensures wants { IsHonest (T.seen tx.new) → (forms : Forms) (b : Broker) → SoundSecrets forms b.secrets
        → Tells of_secrets (table (T.seen tx.old)) b → IfErr result IsMemoryOrStorage }
    ensures call { IsReading (T.seen tx.old) (T.seen tx.new) result IsNotBadStart }
{
    versions_have_keys();
    let name = secret_name(alloc, mount, path)?;
    let Some(key) = find_key(alloc, tx, name.as_str())? else {
        return Ok(None);
    };
    let versions = find_versions(alloc, tx, name.as_str())?;
    Ok(Some(with_versions(key, versions)))
}
