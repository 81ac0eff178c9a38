//! Leases that are revoked, and those of tokens that have ended.

ghost use Rattle.std.specs.Prelude.{IfErr, OnOk};
ghost use Rattle.broker_types.specs.Fault.{IsMemoryOrStorage};
ghost use Rattle.records.specs.Calls.{IsChange, IsReadFault, OfEachBroker};
ghost use Rattle.records.specs.Parts.{of_leases, Tells, KeepsOthers};
ghost use Rattle.records.specs.Table.{table};
ghost use Rattle.records.specs.Transaction.{IsHonest};
ghost use Rattle.leases.specs.Endings.{EndsLeases, AreReadable, is_named, ids_under, is_owned, are_owned};
ghost use Rattle.leases.specs.LeaseRows.{RepresentsLeases};
ghost use Rattle.leases.specs.Leases as leases;

use crate::ending::{remove_lease, remove_leases};
use crate::listing::{leases_of, leases_under};
use broker_types::{Fault, TextBuf};
use records::{Kind, RecordsTx};
use std::alloc::Global;

/// Ends the lease of an id, whichever token has it. An unknown id ends none, and nothing changes. It fails as `Damaged`
/// if the row of the lease is not one, and also if memory runs out or the storage fails (Vault's documentation,
/// "/sys/leases", revoke lease).
pub fn revoke<T: RecordsTx>(tx: &mut T, lease_id: &str) -> Result<(), Fault>
    ensures rows { IsHonest (T.seen tx.new)
        → OnOk result (EndsLeases (is_named lease_id.now) (table (T.seen tx.old)) (table (T.seen tx.new))) }
    ensures told { OfEachBroker (λ _. RepresentsLeases) (T.seen tx.old) (T.seen tx.new) (λ b.
        OnOk result (Tells of_leases (table (T.seen tx.new)) (leases.revoke b lease_id.now))) }
    ensures wants { OfEachBroker (λ _. RepresentsLeases) (T.seen tx.old) (T.seen tx.new)
        (λ b. IfErr result IsMemoryOrStorage) }
    ensures call { IsChange (KeepsOthers of_leases) (T.seen tx.old) (T.seen tx.new) result
        (IsReadFault (IsHonest (T.seen tx.new) → AreReadable (is_named lease_id.now) (table (T.seen tx.old)) → ⊥)) }
{
    let Some(row) = tx.get(Kind::Lease, lease_id)? else {
        return Ok(());
    };
    remove_lease(tx, lease_id, &row)
}

/// Ends the leases whose ids begin with a prefix and a slash, whichever tokens have them. It fails as `Damaged` if the
/// row of one of them is not one of a lease, and also if memory runs out or the storage fails (Vault's documentation,
/// "/sys/leases", revoke prefix).
pub fn revoke_under<T: RecordsTx>(alloc: Global, tx: &mut T, prefix: &str) -> Result<(), Fault>
    ensures rows { IsHonest (T.seen tx.new)
        → OnOk result (EndsLeases (ids_under prefix.now) (table (T.seen tx.old)) (table (T.seen tx.new))) }
    ensures told { OfEachBroker (λ _. RepresentsLeases) (T.seen tx.old) (T.seen tx.new) (λ b.
        OnOk result (Tells of_leases (table (T.seen tx.new)) (leases.revoke_under b prefix.now))) }
    ensures wants { OfEachBroker (λ _. RepresentsLeases) (T.seen tx.old) (T.seen tx.new)
        (λ b. IfErr result IsMemoryOrStorage) }
    ensures call { IsChange (KeepsOthers of_leases) (T.seen tx.old) (T.seen tx.new) result
        (IsReadFault (IsHonest (T.seen tx.new) → AreReadable (ids_under prefix.now) (table (T.seen tx.old)) → ⊥)) }
{
    let entries = leases_under(alloc, tx, prefix)?;
    remove_leases(tx, &entries)
}

/// Ends the leases of a token, also after the token has ended. It fails as `Damaged` if the row of one of them is not
/// one of a lease, and also if memory runs out or the storage fails (Vault's documentation, "Lease, renew, and revoke":
/// leases go with the token that they were made for).
pub fn drop_owner<T: RecordsTx>(tx: &mut T, token: &str) -> Result<(), Fault>
    ensures rows { IsHonest (T.seen tx.new)
        → OnOk result (EndsLeases (is_owned token.now) (table (T.seen tx.old)) (table (T.seen tx.new))) }
    ensures told { OfEachBroker (λ _. RepresentsLeases) (T.seen tx.old) (T.seen tx.new) (λ b.
        OnOk result (Tells of_leases (table (T.seen tx.new)) (leases.drop_owner b token.now))) }
    ensures wants { OfEachBroker (λ _. RepresentsLeases) (T.seen tx.old) (T.seen tx.new)
        (λ b. IfErr result IsMemoryOrStorage) }
    ensures call { IsChange (KeepsOthers of_leases) (T.seen tx.old) (T.seen tx.new) result
        (IsReadFault (IsHonest (T.seen tx.new) → AreReadable (is_owned token.now) (table (T.seen tx.old)) → ⊥)) }
{
    let entries = leases_of(tx, token)?;
    remove_leases(tx, &entries)
}

/// Ends the leases of tokens that have ended, token after token. It fails as `Damaged` if the row of one of them is not
/// one of a lease, and also if memory runs out or the storage fails.
pub fn drop_owners<T: RecordsTx>(tx: &mut T, tokens: &[TextBuf]) -> Result<(), Fault>
    ensures rows { IsHonest (T.seen tx.new)
        → OnOk result (EndsLeases (are_owned tokens.now) (table (T.seen tx.old)) (table (T.seen tx.new))) }
    ensures wants { OfEachBroker (λ _. RepresentsLeases) (T.seen tx.old) (T.seen tx.new)
        (λ b. IfErr result IsMemoryOrStorage) }
    ensures call { IsChange (KeepsOthers of_leases) (T.seen tx.old) (T.seen tx.new) result
        (IsReadFault (IsHonest (T.seen tx.new) → AreReadable (are_owned tokens.now) (table (T.seen tx.old)) → ⊥)) }
{
    for token in tokens {
        drop_owner(tx, token.as_str())?;
    }
    Ok(())
}
