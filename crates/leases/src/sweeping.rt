//! Leases that come to their end.

ghost use Rattle.std.specs.Prelude.{ℕ, IfErr, OnOk};
ghost use Rattle.broker_types.specs.Fault.{IsMemoryOrStorage};
ghost use Rattle.records.specs.Calls.{IsChange, IsReadFault, OfEachBroker};
ghost use Rattle.records.specs.Parts.{of_leases, Tells, KeepsOthers};
ghost use Rattle.records.specs.Table.{table};
ghost use Rattle.records.specs.Transaction.{IsHonest};
ghost use Rattle.leases.specs.Endings.{EndsLeases, AreReadable, has_come};
ghost use Rattle.leases.specs.LeaseRows.{RepresentsLeases};
ghost use Rattle.leases.specs.Leases as leases;
ghost use Rattle.leases.specs.Removed.{AreStillDue, RemovesEach, leases_among};

use crate::ending::remove_leases;
use broker_types::{Fault, Moment};
use records::{Entry, RecordsTx};

/// As `sweep_leases`, from a list of all rows that are due. It may have been asked for before the rows of other kinds
/// changed, so that one list serves the sweeps of all kinds. Whatever the list is, its leases go, and no others.
pub fn end_due<T: RecordsTx>(tx: &mut T, due: &[Entry]) -> Result<(), Fault>
    ensures any_list { IsHonest (T.seen tx.new) → OnOk result
        (RemovesEach (leases_among due.now) (T.seen tx.old).rows (T.seen tx.new).rows) }
    ensures rows { IsHonest (T.seen tx.new) → (now : ℕ) → AreStillDue now due.now (table (T.seen tx.old))
        → OnOk result (EndsLeases (has_come now) (table (T.seen tx.old)) (table (T.seen tx.new))) }
    ensures call { IsChange (KeepsOthers of_leases) (T.seen tx.old) (T.seen tx.new) result
        (IsReadFault (IsHonest (T.seen tx.new) → (now : ℕ) → AreStillDue now due.now (table (T.seen tx.old))
        → AreReadable (has_come now) (table (T.seen tx.old)) → ⊥)) }
{
    remove_leases(tx, due)
}

/// Ends the leases whose end is at or before the clock. It fails as `Damaged` if the row of one of them is not one of a
/// lease, and also if memory runs out or the storage fails (Vault's documentation, "Lease, renew, and revoke").
pub fn sweep_leases<T: RecordsTx>(tx: &mut T, clock: Moment) -> Result<(), Fault>
    ensures rows { IsHonest (T.seen tx.new)
        → OnOk result (EndsLeases (has_come clock) (table (T.seen tx.old)) (table (T.seen tx.new))) }
    ensures told { OfEachBroker (λ _. RepresentsLeases) (T.seen tx.old) (T.seen tx.new) (λ b.
        OnOk result (Tells of_leases (table (T.seen tx.new)) (leases.without_expired b clock))) }
    ensures wants { OfEachBroker (λ _. RepresentsLeases) (T.seen tx.old) (T.seen tx.new)
        (λ b. IfErr result IsMemoryOrStorage) }
    ensures call { IsChange (KeepsOthers of_leases) (T.seen tx.old) (T.seen tx.new) result
        (IsReadFault (IsHonest (T.seen tx.new) → AreReadable (has_come clock) (table (T.seen tx.old)) → ⊥)) }
{
    let due = tx.due_until(clock)?;
    end_due(tx, &due)
}
