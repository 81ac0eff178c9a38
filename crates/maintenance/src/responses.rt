//! All responses that wait, dropped.

ghost use Rattle.std.specs.Prelude.{◌≡◌, ⊤, None, map, length, IfOk, IfErr, OnOk};
ghost use Rattle.broker_types.specs.Broker.{Broker};
ghost use Rattle.broker_types.specs.Fault.{IsMemoryOrStorage};
ghost use Rattle.records.specs.Calls.{IsCall};
ghost use Rattle.records.specs.Transaction.{IsHonest};
ghost use Rattle.broker_rows.specs.Representing.{Represents};
ghost use Rattle.maintenance.specs.Maintained.{dropped_each, responses_of, without_responses};

use broker_types::Fault;
use records::{Entry, Kind, RecordsTx};
use std::alloc::Global;
use wrapping::drop_token;

/// Drops all responses that wait, with their wrapping tokens and the accessors of these, and answers how many there
/// were (Vault's documentation, "Response wrapping"). It fails with `Memory` if memory runs out, with `Storage` if the
/// transaction's storage failed, and with `Damaged` if the row of a response cannot be read.
pub fn drop_responses<T: RecordsTx>(alloc: Global, tx: &mut T) -> Result<usize, Fault>
    ensures told { IsHonest (T.seen tx.new) → (b : Broker) → Represents None (T.seen tx.old).rows b
        → OnOk result (Represents None (T.seen tx.new).rows (without_responses b)) }
    ensures counted { IsHonest (T.seen tx.new) → (b : Broker) → Represents None (T.seen tx.old).rows b
        → IfOk result (λ number. number ≡ length (responses_of b)) }
    ensures wants { IsHonest (T.seen tx.new) → (b : Broker) → Represents None (T.seen tx.old).rows b
        → IfErr result IsMemoryOrStorage }
    ensures call { IsCall (T.seen tx.old) (T.seen tx.new) result (λ _. ⊤) }
{
    let listed = tx.under(Kind::Waiting, "")?;
    drop_each(alloc, tx, &listed)?;
    Ok(listed.len())
}

/// Drops the responses that wait under the keys of the rows, one after another.
fn drop_each<T: RecordsTx>(alloc: Global, tx: &mut T, entries: &[Entry]) -> Result<(), Fault>
    ensures told { IsHonest (T.seen tx.new) → (b : Broker) → Represents None (T.seen tx.old).rows b
        → OnOk result (Represents None (T.seen tx.new).rows (dropped_each (map (λ e. e.0.1) entries.now) b)) }
    ensures wants { IsHonest (T.seen tx.new) → (b : Broker) → Represents None (T.seen tx.old).rows b
        → IfErr result IsMemoryOrStorage }
    ensures call { IsCall (T.seen tx.old) (T.seen tx.new) result (λ _. ⊤) }
{
    for entry in entries {
        drop_token(alloc, tx, entry.key.as_str())?;
    }
    Ok(())
}
