//! Settings of single secrets.

ghost use Rattle.std.specs.Prelude.{◌≡◌, Option, option_map, unwrap_or, OnOk, IfErr};
ghost use Rattle.broker_types.specs.Broker.{Broker};
ghost use Rattle.broker_types.specs.Fault.{IsMemoryOrStorage, IsNotBadStart};
ghost use Rattle.broker_types.specs.Sound.{Forms, SoundSecrets, IsMoment};
ghost use Rattle.records.specs.Calls.{IsChange};
ghost use Rattle.records.specs.KeyEntry.{KeyEntry};
ghost use Rattle.records.specs.Parts.{of_secrets, Tells};
ghost use Rattle.records.specs.Ranges.{IsKeyInRange};
ghost use Rattle.records.specs.RowReaders.{IsSomeIn, IsWide};
ghost use Rattle.records.specs.Table.{table};
ghost use Rattle.records.specs.TokenEntry.{IsMeta};
ghost use Rattle.records.specs.Transaction.{IsHonest};
ghost use Rattle.kv2.specs.SecretRows as rows;
ghost use Rattle.kv2.specs.SecretRows.{HasKey, IsReadableKey, KeepsOtherNames};
ghost use Rattle.kv2.specs.Secrets as secrets;

use crate::finding::find_key;
use crate::keys::secret_name;
use crate::secret_settings::SecretSettings;
use crate::settings::count_or;
use crate::writing::key_or_new;
use broker_types::{Fault, Moment, TextBuf};
use records::{KeyRecord, Kind, RecordsTx, write_key};
use std::alloc::Global;

/// The metadata that are given, or else those that are kept.
fn metadata_or(
    given: Option<Vec<(TextBuf, TextBuf)>>,
    kept: Vec<(TextBuf, TextBuf)>,
) -> Vec<(TextBuf, TextBuf)>
    ensures { result.items ≡ unwrap_or (option_map (λ es. es.items) given) kept.items }
{
    match given {
        None => kept,
        Some(given) => given,
    }
}

/// A key with the settings that are given, at a moment, in seconds since 1970-01-01T00:00:00Z.
fn described(key: KeyRecord, given: SecretSettings, now: u64) -> KeyRecord
    requires { IsSomeIn IsMeta given.custom_metadata }
    ensures key { result ≡ rows.described_entry now given key }
    ensures in_range { IsMoment now → IsKeyInRange key → IsKeyInRange result }
    ensures wide { IsSomeIn IsWide given.max_versions }
{
    KeyRecord {
        current: key.current,
        created: key.created,
        updated: now,
        cas_required: given.cas_required.unwrap_or(key.cas_required),
        max_versions: count_or(given.max_versions, key.max_versions),
        custom_metadata: metadata_or(given.custom_metadata, key.custom_metadata),
    }
}

/// Sets those settings of the secret at a path of a mount that are given; the others stay, and so do its versions. A
/// secret that is not there is made, without a version. It fails as `Damaged` if the row is not one of a key, and also
/// if memory runs out or the storage fails (Vault's documentation, "KV secrets engine - version 2 (API)", create/update
/// metadata).
pub fn set_metadata<T: RecordsTx>(
    alloc: Global,
    tx: &mut T,
    now: Moment,
    mount: &str,
    path: &str,
    given: SecretSettings,
) -> Result<(), Fault>
    requires { IsSomeIn IsMeta given.custom_metadata }
    ensures rows { IsHonest (T.seen tx.new) → (k : Option KeyEntry)
        → HasKey (table (T.seen tx.old)) (secrets.secret_name mount.now path.now) k
        → OnOk result (table (T.seen tx.new) ≡ rows.with_description (table (T.seen tx.old))
        (secrets.secret_name mount.now path.now) now given k) }
    // Whatever the rows are: with a damaged row there is no answer.
    ensures readable { IsHonest (T.seen tx.new) → OnOk result
        (IsReadableKey (table (T.seen tx.old)) (secrets.secret_name mount.now path.now)) }
    ensures told { IsHonest (T.seen tx.new) → (forms : Forms) (b : Broker) → SoundSecrets forms b.secrets
        → Tells of_secrets (table (T.seen tx.old)) b → now ≡ b.clock
        → OnOk result (Tells of_secrets (table (T.seen tx.new)) (secrets.set_metadata b mount.now path.now given)) }
    ensures faults { IsHonest (T.seen tx.new) → (k : Option KeyEntry)
        → HasKey (table (T.seen tx.old)) (secrets.secret_name mount.now path.now) k
        → IfErr result IsMemoryOrStorage }
    ensures wants { IsHonest (T.seen tx.new) → (forms : Forms) (b : Broker) → SoundSecrets forms b.secrets
        → Tells of_secrets (table (T.seen tx.old)) b → IfErr result IsMemoryOrStorage }
    ensures wide { OnOk result (IsSomeIn IsWide given.max_versions) }
    ensures call { IsChange (KeepsOtherNames (secrets.secret_name mount.now path.now))
        (T.seen tx.old) (T.seen tx.new) result IsNotBadStart }
{
    let now = now.seconds();
    let name = secret_name(alloc, mount, path)?;
    let found = find_key(alloc, tx, name.as_str())?;
    let key = described(key_or_new(alloc, found, now), given, now);
    let row = write_key(alloc, &key)?;
    tx.put(Kind::KvKey, name.as_str(), row)
}
