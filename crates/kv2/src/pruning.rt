//! Old versions of a secret, removed.

ghost use Rattle.std.specs.Prelude.{◌≡◌, OnOk};
ghost use Rattle.broker_types.specs.Fault.{IsMemoryOrStorage};
ghost use Rattle.records.specs.Calls.{IsCall};
ghost use Rattle.records.specs.Table.{table};
ghost use Rattle.records.specs.Transaction.{IsHonest};
ghost use Rattle.kv2.specs.SecretRows as rows;

use crate::keys::{version_key, versions_prefix};
use broker_types::Fault;
use records::{Kind, RecordsTx};
use std::alloc::Global;

/// Removes the rows of a kind whose keys begin with the prefix and are not above the last. It fails only if
/// memory runs out or the storage fails.
fn remove_upto<T: RecordsTx>(tx: &mut T, kind: Kind, prefix: &str, last: &str) -> Result<(), Fault>
    ensures rows { IsHonest (T.seen tx.new) → OnOk result (table (T.seen tx.new)
        ≡ rows.without_upto (table (T.seen tx.old)) kind prefix.now last.now) }
    ensures call { IsCall (T.seen tx.old) (T.seen tx.new) result IsMemoryOrStorage }
{
    let list = tx.under_upto(kind, prefix, last)?;
    for entry in &list {
        tx.remove(entry.kind, entry.key.as_str())?;
    }
    Ok(())
}

/// Removes the versions of a name that the limit does not leave under a version. It lists them only if there
/// can be one. It fails only if memory runs out or the storage fails (Vault's documentation, "KV secrets
/// engine - version 2", `max_versions`).
pub(crate) fn prune<T: RecordsTx>(
    alloc: Global,
    tx: &mut T,
    name: &str,
    number: u64,
    limit: u64,
) -> Result<(), Fault>
    ensures rows { IsHonest (T.seen tx.new) → OnOk result (table (T.seen tx.new)
        ≡ rows.pruned (table (T.seen tx.old)) name.now number limit) }
    ensures call { IsCall (T.seen tx.old) (T.seen tx.new) result IsMemoryOrStorage }
{
    if number <= limit {
        return Ok(());
    }
    let prefix = versions_prefix(alloc, name)?;
    let last = version_key(alloc, name, number - limit)?;
    remove_upto(tx, Kind::KvVersion, prefix.as_str(), last.as_str())
}
