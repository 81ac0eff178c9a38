//! Leases renewed.

ghost use Rattle.std.specs.Prelude.{◌≡◌, Option, IfOk};
ghost use Rattle.broker_types.specs.RequestError.{Ends};
ghost use Rattle.broker_types.specs.Sound.{IsEnd, IsMoment};
ghost use Rattle.records.specs.Calls.{OnAnswer, IsRequestChange, IsReadFault, OfEachBroker};
ghost use Rattle.records.specs.Parts.{of_leases, Tells};
ghost use Rattle.records.specs.Ranges.{IsLeaseInRange};
ghost use Rattle.records.specs.Table.{table};
ghost use Rattle.records.specs.Transaction.{IsHonest};
ghost use Rattle.leases.specs.LeaseRows.{RepresentsLeases, Held, IsLeaseAt, IsReadableLease, KeepsOtherLeases};
ghost use Rattle.leases.specs.LeaseRows as rows;
ghost use Rattle.leases.specs.Leases as leases;

use crate::times::or_if_zero;
use broker_types::{Moment, Reason, Refusal, RequestError, Seconds};
use records::{Due, Kind, LeaseRecord, RecordsTx, read_lease, write_lease};
use std::alloc::Global;

/// The end of a lease that is renewed now by an increment; 0 is for its ttl.
fn renewed_end(lease: &LeaseRecord<'_>, now: u64, increment: Seconds) -> Due
    requires lease { IsLeaseInRange lease.now }
    requires moment { IsMoment now }
    ensures value { result ≡ leases.renewed_end now increment lease.now }
    ensures within { IsEnd result }
{
    let ahead = or_if_zero(u64::from(increment.count()), lease.ttl);
    let latest = lease.issued + lease.max_ttl;
    Due::at((now + ahead).min(latest))
}

/// Renews the lease of an id by an increment, and 0 is for its ttl; never beyond the longest time that it may last from
/// when it was made. It answers the new end. It is refused if there is no such lease. It fails as `Damaged` if the row
/// of the lease is not one, and also if memory runs out or the storage fails (Vault's documentation, "/sys/leases",
/// renew lease).
pub fn renew<T: RecordsTx>(
    alloc: Global,
    tx: &mut T,
    now: Moment,
    lease_id: &str,
    increment: Seconds,
) -> Result<Due, RequestError>
    ensures rows { IsHonest (T.seen tx.new) → (o : Option Held) → IsLeaseAt (table (T.seen tx.old)) lease_id.now o
        → Ends (λ ends next. (ends ≡ next.ends) × (table (T.seen tx.new) ≡ next.rows))
        ((T.seen tx.new).rows ≡ (T.seen tx.old).rows) result
        (rows.renew (table (T.seen tx.old)) o lease_id.now now increment) }
    ensures told { OfEachBroker (λ _. RepresentsLeases) (T.seen tx.old) (T.seen tx.new) (λ b. now ≡ b.clock
        → Ends (λ ends next. (ends ≡ next.ends) × Tells of_leases (table (T.seen tx.new)) next.next)
        ((T.seen tx.new).rows ≡ (T.seen tx.old).rows) result (leases.renew b lease_id.now increment)) }
    ensures in_range { IfOk result IsEnd }
    // Whatever the rows are: with a damaged row there is no answer, and no refusal.
    ensures readable { IsHonest (T.seen tx.new)
        → OnAnswer result (IsReadableLease (table (T.seen tx.old)) lease_id.now) }
    ensures call { IsRequestChange (KeepsOtherLeases lease_id.now) (T.seen tx.old) (T.seen tx.new) result
        (IsReadFault (IsHonest (T.seen tx.new) → IsReadableLease (table (T.seen tx.old)) lease_id.now → ⊥)) }
{
    let now = now.seconds();
    let Some(kept) = tx.get(Kind::Lease, lease_id)? else {
        return Err(RequestError::Refused(Refusal::BadRequest(Reason::InvalidLease)));
    };
    let lease = read_lease(&kept)?;
    let ends = renewed_end(&lease, now, increment);
    let renewed = LeaseRecord {
        issued: lease.issued,
        ttl: lease.ttl,
        max_ttl: lease.max_ttl,
        ends,
        renewed: Some(now),
        credential: lease.credential,
    };
    let row = write_lease(alloc, kept.owner.as_str(), &renewed)?;
    tx.put(Kind::Lease, lease_id, row)?;
    Ok(ends)
}
