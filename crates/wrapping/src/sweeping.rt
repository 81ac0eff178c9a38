//! Expiry: responses that have come to their end are dropped.

ghost use Rattle.std.specs.Prelude.{◌≡◌, ℕ, IfErr, OnOk};
ghost use Rattle.broker_types.specs.Broker.{Broker};
ghost use Rattle.broker_types.specs.Fault.{IsMemoryOrStorage};
ghost use Rattle.records.specs.Calls.{IsCall, IsChange, IsReadFault};
ghost use Rattle.records.specs.Parts.{of_waiting, Tells, KeepsOthers};
ghost use Rattle.records.specs.Table.{table};
ghost use Rattle.records.specs.Transaction.{IsHonest};
ghost use Rattle.wrapping.specs.DueResponses as due_rows;
ghost use Rattle.wrapping.specs.DueResponses.{AreStillDue, AreReadable, IsWaitingRow, Sweeps, IsDamagedDue};
ghost use Rattle.wrapping.specs.DueResponses.{without_told, without_each};
ghost use Rattle.wrapping.specs.WaitingRows.{RepresentsWaiting};
ghost use Rattle.wrapping.specs.Wrapping.{without_ended};

use crate::dropping::remove;
use broker_types::{Fault, Moment};
use records::{Entry, Kind, RecordsTx, read_waiting};

/// Whether it is the row of a wrapping token.
fn is_waiting(entry: &Entry) -> bool
    ensures { result ≡ due_rows.is_waiting entry.now }
{
    entry.kind.number() == Kind::Waiting.number()
}

/// Removes the row of a wrapping token, and that of the accessor that it tells.
fn remove_entry<T: RecordsTx>(tx: &mut T, entry: &Entry) -> Result<(), Fault>
    ensures rows { IsHonest (T.seen tx.new)
        → OnOk result (table (T.seen tx.new) ≡ without_told (table (T.seen tx.old)) entry.now) }
    ensures readable { OnOk result (IsWaitingRow entry.now.1) }
    ensures call { IsCall (T.seen tx.old) (T.seen tx.new) result (IsReadFault (IsWaitingRow entry.now.1 → ⊥)) }
{
    let waiting = read_waiting(&entry.row)?;
    remove(tx, entry.key.as_str(), waiting.accessor)
}

/// Removes the rows of the wrapping tokens among the entries, and those of their accessors.
fn remove_each<T: RecordsTx>(tx: &mut T, entries: &[Entry]) -> Result<(), Fault>
    ensures rows { IsHonest (T.seen tx.new)
        → OnOk result (table (T.seen tx.new) ≡ without_each entries.now (table (T.seen tx.old))) }
    ensures readable { OnOk result (AreReadable entries.now) }
    ensures call { IsCall (T.seen tx.old) (T.seen tx.new) result (IsReadFault (AreReadable entries.now → ⊥)) }
{
    for entry in entries {
        if is_waiting(entry) {
            remove_entry(tx, entry)?;
        }
    }
    Ok(())
}

/// As `sweep_waiting`, from a list of all rows that are due. It may have been asked for before the rows of other kinds
/// changed, so that one list serves the sweeps of all kinds. Whatever the list is, its responses go, and no others.
pub fn drop_due<T: RecordsTx>(tx: &mut T, due: &[Entry]) -> Result<(), Fault>
    ensures any_list { IsHonest (T.seen tx.new)
        → OnOk result (table (T.seen tx.new) ≡ without_each due.now (table (T.seen tx.old))) }
    ensures rows { IsHonest (T.seen tx.new) → (now : ℕ) → AreStillDue now due.now (table (T.seen tx.old))
        → OnOk result (Sweeps now (table (T.seen tx.old)) (table (T.seen tx.new))) }
    ensures told { IsHonest (T.seen tx.new) → (b : Broker) → RepresentsWaiting (table (T.seen tx.old)) b
        → (now : ℕ) → AreStillDue now due.now (table (T.seen tx.old))
        → OnOk result (Tells of_waiting (table (T.seen tx.new)) (without_ended b now)) }
    ensures wants { IsHonest (T.seen tx.new) → (b : Broker) → RepresentsWaiting (table (T.seen tx.old)) b
        → (now : ℕ) → AreStillDue now due.now (table (T.seen tx.old)) → IfErr result IsMemoryOrStorage }
    ensures call { IsChange (KeepsOthers of_waiting) (T.seen tx.old) (T.seen tx.new) result
        (IsReadFault (IsHonest (T.seen tx.new) → (now : ℕ) → AreStillDue now due.now (table (T.seen tx.old))
        → IsDamagedDue now (table (T.seen tx.old)))) }
{
    remove_each(tx, due)
}

/// Drops the responses whose end has come by the clock, with their accessors. It fails as `Damaged` if the row of such
/// a response is not one, and also if memory runs out or the storage fails (Vault's documentation, "Response
/// wrapping": a wrapping token has a TTL of its own).
pub fn sweep_waiting<T: RecordsTx>(tx: &mut T, clock: Moment) -> Result<(), Fault>
    ensures rows { IsHonest (T.seen tx.new)
        → OnOk result (Sweeps clock (table (T.seen tx.old)) (table (T.seen tx.new))) }
    ensures told { IsHonest (T.seen tx.new) → (b : Broker) → RepresentsWaiting (table (T.seen tx.old)) b
        → OnOk result (Tells of_waiting (table (T.seen tx.new)) (without_ended b clock)) }
    ensures wants { IsHonest (T.seen tx.new) → (b : Broker) → RepresentsWaiting (table (T.seen tx.old)) b
        → IfErr result IsMemoryOrStorage }
    ensures call { IsChange (KeepsOthers of_waiting) (T.seen tx.old) (T.seen tx.new) result
        (IsReadFault (IsHonest (T.seen tx.new) → IsDamagedDue clock (table (T.seen tx.old)))) }
{
    let due = tx.due_until(clock)?;
    drop_due(tx, &due)
}
