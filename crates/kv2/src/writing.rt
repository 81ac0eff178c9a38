//! Secrets, written.

ghost use Rattle.std.specs.Prelude.{◌≡◌, ◌≢◌, ◌<◌, ◌^◌, ◌||◌, Option, None, unwrap_or, length, IfOk, OnOk};
ghost use Rattle.std.specs.Prelude.{⊤};
ghost use Rattle.broker_types.specs.Broker.{Broker, Mount};
ghost use Rattle.broker_types.specs.Fault.{IsMemoryOrStorage, IsNotBadStart};
ghost use Rattle.broker_types.specs.Limits.{greatest_version};
ghost use Rattle.broker_types.specs.RequestError.{Ends};
ghost use Rattle.broker_types.specs.Sound.{Forms, SoundSecrets, SoundMounts, IsPathText, IsMoment};
ghost use Rattle.records.specs.Calls.{OnAnswer, OnRefused, IsCall, IsRequestChange};
ghost use Rattle.records.specs.KeyEntry.{KeyEntry};
ghost use Rattle.records.specs.Parts.{of_secrets, of_mounts, Tells};
ghost use Rattle.records.specs.Ranges.{IsKeyInRange};
ghost use Rattle.records.specs.RowReaders.{IsSomeIn};
ghost use Rattle.records.specs.Table.{table};
ghost use Rattle.records.specs.Transaction.{IsHonest};
ghost use Rattle.kv2.specs.SecretRows as rows;
ghost use Rattle.kv2.specs.SecretRows.{HasKey, HasMount, KeepsOtherNames, AreReadableToWrite};
ghost use Rattle.kv2.specs.Secrets as secrets;
ghost use Rattle.kv2.specs.Versions as versions;

use crate::finding::find_key;
use crate::keys::{secret_name, version_key};
use crate::limits::GREATEST_VERSION;
use crate::pruning::prune;
use crate::secret_version::WrittenVersion;
use crate::settings::config;
use broker_types::{Fault, Field, Moment, Reason, Refusal, RequestError};
use records::{
    KeyRecord, Kind, MountRecord, RecordsTx, VersionRecord, versions_have_keys, write_key,
    write_version,
};
use std::alloc::Global;

/// How many versions of a secret are kept if no setting says it.
const VERSIONS_KEPT: u64 = 10;

/// An object that is written as the next version of a secret.
#[derive(Clone, Copy)]
pub struct NewVersion<'o> {
    /// The version that it follows, 0 for a secret without versions; none if it may follow any.
    pub cas: Option<u64>,
    /// Its compact text.
    pub object: &'o str,
}

/// The key, or a new one without versions and settings. No memory is taken.
pub(crate) fn key_or_new(alloc: Global, found: Option<KeyRecord>, now: u64) -> KeyRecord
    ensures key { result ≡ unwrap_or found (rows.new_entry now) }
    ensures in_range { IsMoment now → IsSomeIn IsKeyInRange found → IsKeyInRange result }
{
    match found {
        Some(key) => key,
        None => KeyRecord {
            current: 0,
            created: now,
            updated: now,
            cas_required: false,
            max_versions: 0,
            custom_metadata: Vec::new(alloc),
        },
    }
}

/// Check-and-set, and then whether there is a number for one more version (Vault's documentation, "KV secrets
/// engine - version 2 (API)", create/update secret).
fn check(required: bool, current: u64, cas: Option<u64>) -> Result<(), Refusal>
    ensures checked { result ≡ versions.checked required current cas }
    ensures room { OnOk result (current < greatest_version) }
{
    match cas {
        None => {
            if required {
                return Err(Refusal::BadRequest(Reason::CheckAndSetRequired));
            }
        }
        Some(version) => {
            if version != current {
                return Err(Refusal::BadRequest(Reason::CheckAndSetFailed));
            }
        }
    }
    if current >= GREATEST_VERSION {
        return Err(Refusal::BadRequest(Reason::InvalidField(Field::Version)));
    }
    Ok(())
}

/// Whether a write must say which version it follows, as the secret or its mount says.
fn is_required(mount: &MountRecord, key: &KeyRecord) -> bool
    ensures { result ≡ (key.now.cas_required || mount.now.cas_required) }
{
    key.cas_required || mount.cas_required
}

/// How many versions are kept of a secret: as it says itself, else as its mount says.
fn versions_kept(mount: &MountRecord, key: &KeyRecord) -> u64
    ensures { result ≡ versions.or_if_zero key.now.max_versions (versions.or_if_zero mount.now.max_versions 10) }
{
    if key.max_versions != 0 {
        key.max_versions
    } else if mount.max_versions == 0 {
        VERSIONS_KEPT
    } else {
        mount.max_versions
    }
}

/// The key of a secret after one more version at a moment.
fn next_key(key: KeyRecord, now: u64) -> KeyRecord
    requires room { key.current < greatest_version }
    requires storable { IsKeyInRange key }
    requires moment { IsMoment now }
    ensures key { result ≡ rows.next_entry now key }
    ensures in_range { IsKeyInRange result }
{
    KeyRecord {
        current: key.current + 1,
        created: key.created,
        updated: now,
        cas_required: key.cas_required,
        max_versions: key.max_versions,
        custom_metadata: key.custom_metadata,
    }
}

/// Puts a key and its current version, which was made when the key was updated, and removes the versions that the
/// limit does not leave.
fn put_version<T: RecordsTx>(
    alloc: Global,
    tx: &mut T,
    name: &str,
    key: &KeyRecord,
    limit: u64,
    object: &str,
) -> Result<(), Fault>
    requires storable { IsKeyInRange key.now }
    requires short { length object.now < 2 ^ 32 }
    ensures rows { IsHonest (T.seen tx.new) → OnOk result (table (T.seen tx.new)
        ≡ rows.with_current (table (T.seen tx.old)) name.now key.now limit object.now) }
    ensures call { IsCall (T.seen tx.old) (T.seen tx.new) result IsMemoryOrStorage }
{
    let version = VersionRecord {
        created: key.updated,
        deleted: None,
        secret: Some(object),
    };
    let place = version_key(alloc, name, key.current)?;
    let version_row = write_version(alloc, &version)?;
    let key_row = write_key(alloc, key)?;
    tx.put(Kind::KvVersion, place.as_str(), version_row)?;
    tx.put(Kind::KvKey, name, key_row)?;
    prune(alloc, tx, name, key.current, limit)
}

/// The write of an object at a moment, in seconds since 1970-01-01T00:00:00Z, over the rows of a mount and of a
/// name.
fn write_named<T: RecordsTx>(
    alloc: Global,
    tx: &mut T,
    now: u64,
    mount: &str,
    name: &str,
    version: NewVersion<'_>,
) -> Result<WrittenVersion, RequestError>
    requires moment { IsMoment now }
    requires short { length version.object.now < 2 ^ 32 }
    ensures rows { IsHonest (T.seen tx.new) → (m : Option Mount) (k : Option KeyEntry)
        → HasMount (table (T.seen tx.old)) mount.now m
        → (m ≢ None → HasKey (table (T.seen tx.old)) name.now k)
        → Ends (λ v w. (v.number ≡ w.number) × (v.custom_metadata ≡ w.custom_metadata)
        × (table (T.seen tx.new) ≡ w.rows)) ⊤ result
        (rows.write (table (T.seen tx.old)) m k name.now now version.entry.cas version.entry.object.now) }
    ensures refused { IsHonest (T.seen tx.new) → OnRefused result ((T.seen tx.new).rows ≡ (T.seen tx.old).rows) }
    ensures readable { IsHonest (T.seen tx.new)
        → OnAnswer result (AreReadableToWrite (table (T.seen tx.old)) mount.now name.now) }
    ensures call { IsRequestChange (KeepsOtherNames name.now) (T.seen tx.old) (T.seen tx.new) result IsNotBadStart }
{
    let Some(settings) = config(tx, mount)? else {
        return Err(RequestError::Refused(Refusal::NotFound));
    };
    let found = find_key(alloc, tx, name)?;
    let key = key_or_new(alloc, found, now);
    let required = is_required(&settings, &key);
    check(required, key.current, version.cas)?;
    let limit = versions_kept(&settings, &key);
    let next = next_key(key, now);
    put_version(alloc, tx, name, &next, limit, version.object)?;
    Ok(WrittenVersion {
        number: next.current,
        custom_metadata: next.custom_metadata,
    })
}

/// Writes the compact text of an object as the next version of the secret at a path of a mount, and answers that
/// version, with the secret's custom metadata. It is refused, in this order, if the mount is not there, if `cas` is
/// missing though the secret or the mount requires it, if it is not the current version, and if there is no number
/// for one more version. It fails as `Damaged` if a row that it reads is not one of a mount or of a key, and also if
/// memory runs out or the storage fails (Vault's documentation, "KV secrets engine - version 2 (API)", create/update
/// secret).
pub fn write<T: RecordsTx>(
    alloc: Global,
    tx: &mut T,
    now: Moment,
    mount: &str,
    path: &str,
    version: NewVersion<'_>,
) -> Result<WrittenVersion, RequestError>
    requires { length version.object.now < 2 ^ 32 }
    ensures rows { IsHonest (T.seen tx.new) → (m : Option Mount) (k : Option KeyEntry)
        → HasMount (table (T.seen tx.old)) mount.now m
        → (m ≢ None → HasKey (table (T.seen tx.old)) (secrets.secret_name mount.now path.now) k)
        → Ends (λ v w. (v.number ≡ w.number) × (v.custom_metadata ≡ w.custom_metadata)
        × (table (T.seen tx.new) ≡ w.rows)) ⊤ result
        (rows.write (table (T.seen tx.old)) m k (secrets.secret_name mount.now path.now) now version.entry.cas
        version.entry.object.now) }
    ensures told { IsHonest (T.seen tx.new) → (forms : Forms) (b : Broker) → SoundSecrets forms b.secrets
        → SoundMounts b.mounts → Tells of_secrets (table (T.seen tx.old)) b
        → Tells of_mounts (table (T.seen tx.old)) b → now ≡ b.clock → IsPathText path.now
        → Ends (λ v w. (v.number ≡ w.number) × (v.custom_metadata ≡ w.custom_metadata)
        × Tells of_secrets (table (T.seen tx.new)) w.next) ⊤ result
        (secrets.write b mount.now path.now version.entry.cas version.entry.object.now) }
    ensures refused { IsHonest (T.seen tx.new) → OnRefused result ((T.seen tx.new).rows ≡ (T.seen tx.old).rows) }
    // Whatever the rows are: with a damaged row there is no answer, and no refusal.
    ensures readable { IsHonest (T.seen tx.new) → OnAnswer result (AreReadableToWrite
        (table (T.seen tx.old)) mount.now (secrets.secret_name mount.now path.now)) }
    ensures call { IsRequestChange (KeepsOtherNames (secrets.secret_name mount.now path.now))
        (T.seen tx.old) (T.seen tx.new) result IsNotBadStart }
{
    versions_have_keys();
    let now = now.seconds();
    let name = secret_name(alloc, mount, path)?;
    write_named(alloc, tx, now, mount, name.as_str(), version)
}
