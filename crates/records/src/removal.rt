//! Rows removed together.

ghost use Rattle.std.specs.Prelude.{◌≡◌, OnOk};
ghost use Rattle.broker_types.specs.Fault.{IsMemoryOrStorage};
ghost use Rattle.records.specs.Calls.{IsCall};
ghost use Rattle.records.specs.Table.{table, without_under};
ghost use Rattle.records.specs.Transaction.{IsHonest};

use crate::kind::Kind;
use crate::tx::RecordsTx;
use broker_types::Fault;

/// Removes the rows of a kind whose keys begin with the prefix. It fails only if memory runs out or the
/// storage fails.
pub fn remove_under<T: RecordsTx>(tx: &mut T, kind: Kind, prefix: &str) -> Result<(), Fault>
    ensures rows { IsHonest (T.seen tx.new) → OnOk result
        (table (T.seen tx.new) ≡ without_under (table (T.seen tx.old)) kind prefix.now) }
    ensures call { IsCall (T.seen tx.old) (T.seen tx.new) result IsMemoryOrStorage }
{
    let list = tx.under(kind, prefix)?;
    for entry in &list {
        tx.remove(entry.kind, entry.key.as_str())?;
    }
    Ok(())
}
