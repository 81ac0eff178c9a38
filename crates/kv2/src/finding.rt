//! Rows of keys, read.

ghost use Rattle.std.specs.Prelude.{◌≡◌, Option, IfOk, IfErr};
ghost use Rattle.broker_types.specs.Fault.{IsMemoryOrStorage, IsNotBadStart};
ghost use Rattle.records.specs.Calls.{IsReading};
ghost use Rattle.records.specs.KeyEntry.{KeyEntry};
ghost use Rattle.records.specs.Ranges.{IsKeyInRange};
ghost use Rattle.records.specs.RowReaders.{IsSomeIn};
ghost use Rattle.records.specs.Table.{table};
ghost use Rattle.records.specs.Transaction.{IsHonest};
ghost use Rattle.kv2.specs.SecretRows.{HasKey};

use broker_types::Fault;
use records::{KeyRecord, Kind, RecordsTx, read_key};
use std::alloc::Global;

/// The key of a name without its versions, if there is one. It fails as `Damaged` if the row is not one of a
/// key, and also if memory runs out or the storage fails.
pub(crate) fn find_key<T: RecordsTx>(
    alloc: Global,
    tx: &mut T,
    name: &str,
) -> Result<Option<KeyRecord>, Fault>
    ensures found { IsHonest (T.seen tx.new) → (k : Option KeyEntry)
        → HasKey (table (T.seen tx.old)) name.now k → IfOk result (λ o. o ≡ k) }
    ensures exact { IsHonest (T.seen tx.new) → IfOk result (HasKey (table (T.seen tx.old)) name.now) }
    ensures in_range { IfOk result (IsSomeIn IsKeyInRange) }
    ensures faults { IsHonest (T.seen tx.new) → (k : Option KeyEntry)
        → HasKey (table (T.seen tx.old)) name.now k → IfErr result IsMemoryOrStorage }
    ensures call { IsReading (T.seen tx.old) (T.seen tx.new) result IsNotBadStart }
{
    let Some(kept) = tx.get(Kind::KvKey, name)? else {
        return Ok(None);
    };
    Ok(Some(read_key(alloc, &kept)?))
}
