//! The rows of leases that end are taken out.

ghost use Rattle.std.specs.Prelude.{◌≡◌, OnOk};
ghost use Rattle.std.specs.List.{AllByRecursion};
ghost use Rattle.records.specs.declared.kind.Kind.TheVariants as kind;
ghost use Rattle.records.specs.Calls.{IsCall, IsReadFault};
ghost use Rattle.records.specs.Kind.{is_of_kind};
ghost use Rattle.records.specs.Transaction.{IsHonest};
ghost use Rattle.leases.specs.LeaseRows.{IsLeaseRow};
ghost use Rattle.leases.specs.Removed.{RemovesLease, RemovesEach, leases_among};

use broker_types::Fault;
use records::{Entry, Kind, RecordsTx, Row, read_lease};

/// Takes out the row of a lease and that of its credential.
pub(crate) fn remove_lease<T: RecordsTx>(tx: &mut T, lease_id: &str, row: &Row) -> Result<(), Fault>
    ensures rows { IsHonest (T.seen tx.new)
        → OnOk result (RemovesLease lease_id.now row.now (T.seen tx.old).rows (T.seen tx.new).rows) }
    ensures call { IsCall (T.seen tx.old) (T.seen tx.new) result (IsReadFault (IsLeaseRow row.now → ⊥)) }
{
    let lease = read_lease(row)?;
    tx.remove(Kind::Credential, lease.credential)?;
    tx.remove(Kind::Lease, lease_id)
}

fn is_lease(entry: &Entry) -> bool
    ensures { result ≡ is_of_kind kind.Lease entry.now.0 }
{
    entry.kind.number() == Kind::Lease.number()
}

/// Takes out the rows of the leases among the entries, and those of their credentials.
pub(crate) fn remove_leases<T: RecordsTx>(tx: &mut T, entries: &[Entry]) -> Result<(), Fault>
    ensures rows { IsHonest (T.seen tx.new)
        → OnOk result (RemovesEach (leases_among entries.now) (T.seen tx.old).rows (T.seen tx.new).rows) }
    ensures call { IsCall (T.seen tx.old) (T.seen tx.new) result
        (IsReadFault (AllByRecursion (λ e. IsLeaseRow e.1) (leases_among entries.now) → ⊥)) }
{
    for entry in entries {
        if is_lease(entry) {
            remove_lease(tx, entry.key.as_str(), &entry.row)?;
        }
    }
    Ok(())
}
