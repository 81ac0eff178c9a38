//! Leases looked up, by their ids and by their credentials.

ghost use Rattle.std.specs.Prelude.{◌≡◌, ⊤, Option, is_some, IfOk, IfErr, OnOk};
ghost use Rattle.broker_types.specs.Fault.{IsMemoryOrStorage};
ghost use Rattle.broker_types.specs.RequestError.{Ends};
ghost use Rattle.records.specs.declared.kind.Kind.TheVariants as kind;
ghost use Rattle.records.specs.Calls.{OnAnswer, IsReading, IsRequestReading, IsReadFault, OfEachBroker};
ghost use Rattle.records.specs.Table.{table};
ghost use Rattle.records.specs.Transaction.{IsHonest};
ghost use Rattle.leases.specs.LeaseRows.{RepresentsLeases, Held, IsLeaseAt, IsReadableLease, IsReadableCredential};
ghost use Rattle.leases.specs.LeaseRows.{AreTimesInRange, asked};
ghost use Rattle.leases.specs.Leases as leases;

use crate::lease_times::LeaseTimes;
use broker_types::{Fault, Reason, Refusal, RequestError};
use records::{Kind, RecordsTx, read_credential, read_lease};

/// When the lease of an id was made, when it ends, and when it was renewed last. It is refused if there is no such
/// lease. It fails as `Damaged` if the row of the lease is not one, and also if memory runs out or the storage fails
/// (Vault's documentation, "/sys/leases", read lease).
pub fn lookup<T: RecordsTx>(tx: &mut T, lease_id: &str) -> Result<LeaseTimes, RequestError>
    ensures found { IsHonest (T.seen tx.new) → (o : Option Held) → IsLeaseAt (table (T.seen tx.old)) lease_id.now o
        → Ends (λ times h. times ≡ leases.times_of h.1) ⊤ result (asked o) }
    ensures told { OfEachBroker (λ _. RepresentsLeases) (T.seen tx.old) (T.seen tx.new) (λ b.
        Ends (λ times l. times ≡ leases.times_of l) ⊤ result (leases.lookup b lease_id.now)) }
    ensures in_range { IfOk result AreTimesInRange }
    // Whatever the rows are: with a damaged row there is no answer, and no refusal.
    ensures readable { IsHonest (T.seen tx.new)
        → OnAnswer result (IsReadableLease (table (T.seen tx.old)) lease_id.now) }
    ensures call { IsRequestReading (T.seen tx.old) (T.seen tx.new) result
        (IsReadFault (IsHonest (T.seen tx.new) → IsReadableLease (table (T.seen tx.old)) lease_id.now → ⊥)) }
{
    let Some(kept) = tx.get(Kind::Lease, lease_id)? else {
        return Err(RequestError::Refused(Refusal::BadRequest(Reason::InvalidLease)));
    };
    let lease = read_lease(&kept)?;
    Ok(LeaseTimes {
        issued: lease.issued,
        ends: lease.ends,
        renewed: lease.renewed,
    })
}

/// Whether some lease has the credential. It fails as `Damaged` if the row of the credential is not one, and also if
/// memory runs out or the storage fails.
pub fn verify<T: RecordsTx>(tx: &mut T, credential: &str) -> Result<bool, Fault>
    ensures found { IsHonest (T.seen tx.new)
        → IfOk result (λ v. v ≡ is_some (table (T.seen tx.old) kind.Credential credential.now)) }
    ensures told { OfEachBroker (λ _. RepresentsLeases) (T.seen tx.old) (T.seen tx.new) (λ b.
        IfOk result (λ v. v ≡ leases.verify b credential.now)) }
    ensures readable { IsHonest (T.seen tx.new)
        → OnOk result (IsReadableCredential (table (T.seen tx.old)) credential.now) }
    ensures wants { OfEachBroker (λ _. RepresentsLeases) (T.seen tx.old) (T.seen tx.new)
        (λ b. IfErr result IsMemoryOrStorage) }
    ensures call { IsReading (T.seen tx.old) (T.seen tx.new) result
        (IsReadFault (IsHonest (T.seen tx.new) → IsReadableCredential (table (T.seen tx.old)) credential.now → ⊥)) }
{
    let Some(kept) = tx.get(Kind::Credential, credential)? else {
        return Ok(false);
    };
    read_credential(&kept)?;
    Ok(true)
}
