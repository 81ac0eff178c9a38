//! Leases made, and the credentials of roles.

ghost use Rattle.std.specs.Prelude.{◌≡◌, ◌≢◌, ◌<◌, ◌≤◌, ◌^◌, length, None, Option, OnOk};
ghost use Rattle.broker_types.specs.Broker.{Role};
ghost use Rattle.broker_types.specs.Evolves.{IsNew};
ghost use Rattle.broker_types.specs.Fault.{IsMemoryOrStorage};
ghost use Rattle.broker_types.specs.Limits.{longest_ttl};
ghost use Rattle.broker_types.specs.Map.{get};
ghost use Rattle.broker_types.specs.IdentifierPlaces.{AllUsed, lease_identifier};
ghost use Rattle.broker_types.specs.RequestError.{Ends};
ghost use Rattle.broker_types.specs.Sound.{IsMoment, SoundRoles};
ghost use Rattle.records.specs.Calls.{OnAnswer, IsChange, IsRequestChange, IsReadFault, OfEachBroker};
ghost use Rattle.records.specs.Parts.{of_leases, of_roles, Tells, KeepsOthers};
ghost use Rattle.records.specs.Table.{table};
ghost use Rattle.records.specs.Transaction.{IsHonest};
ghost use Rattle.leases.specs.LeaseRows.{RepresentsLeases, with_issued};
ghost use Rattle.leases.specs.Leases as leases;
ghost use Rattle.leases.specs.RoleRows.{IsRoleAt, IsReadableRole, with_lease};
ghost use Rattle.leases.specs.Roles as roles;

use crate::issued_lease::IssuedLease;
use crate::keys::lease_id;
use crate::roles::role;
use crate::times::or_if_zero;
use broker_types::{Fault, Moment, Reason, Refusal, RequestError, TextBuf};
use records::{Due, Kind, LeaseRecord, RecordsTx, RoleRecord, write_credential, write_lease};
use std::alloc::Global;

/// Two new identifiers for a lease.
#[derive(Clone, Copy)]
pub struct Names<'n> {
    /// The end of its id.
    pub lease: &'n str,
    /// Its credential.
    pub credential: &'n str,
}

/// Who asks for a credential, and the identifiers that its lease gets.
#[derive(Clone, Copy)]
pub struct LeaseRequest<'r> {
    /// The token that asks.
    pub token: &'r str,
    /// Whether it has no uses left after this request.
    pub is_last_use: bool,
    /// What the lease is named.
    pub names: Names<'r>,
}

/// Makes a lease of a token. Neither its identifier nor its credential was given out before. It fails only if memory
/// runs out or the storage fails (Vault's documentation, "Lease, renew, and revoke").
pub fn issue<T: RecordsTx>(
    alloc: Global,
    tx: &mut T,
    token: &str,
    lease_id: &str,
    lease: &LeaseRecord<'_>,
) -> Result<(), Fault>
    requires { length lease.now.credential < 2 ^ 32 }
    ensures rows { IsHonest (T.seen tx.new) → OnOk result (table (T.seen tx.new)
        ≡ with_issued (table (T.seen tx.old)) token.now lease_id.now lease.now) }
    ensures told { OfEachBroker (λ _. RepresentsLeases) (T.seen tx.old) (T.seen tx.new) (λ b.
        get b.tokens token.now ≢ None → AllUsed b
        → IsNew b (lease_identifier lease_id.now) → IsNew b lease.now.credential
        → OnOk result (Tells of_leases (table (T.seen tx.new)) (leases.issue b token.now lease_id.now lease.now))) }
    ensures call { IsChange (KeepsOthers of_leases) (T.seen tx.old) (T.seen tx.new) result IsMemoryOrStorage }
{
    let row = write_lease(alloc, token, lease)?;
    tx.put(Kind::Lease, lease_id, row)?;
    let row = write_credential(alloc, lease_id)?;
    tx.put(Kind::Credential, lease.credential, row)
}

/// The longest that a lease lasts from when it was made, in seconds: 32 days.
const LONGEST_TTL: u64 = 2_764_800;

/// A lease that is made now for a role, with its credential.
fn new_lease<'n>(role: &RoleRecord, now: u64, credential: &'n str) -> LeaseRecord<'n>
    requires { IsMoment now }
    ensures value { result ≡ roles.new_lease now role.now credential.now }
    ensures within { result.ttl ≤ longest_ttl }
{
    let longest = or_if_zero(role.max_ttl, LONGEST_TTL).min(LONGEST_TTL);
    let ttl = or_if_zero(role.ttl, longest).min(longest);
    LeaseRecord {
        issued: now,
        ttl,
        max_ttl: longest,
        ends: Due::at(now + ttl),
        renewed: None,
        credential,
    }
}

/// Makes a credential of a role, and a lease of the caller's token for it. It answers the lease's id, and for how long
/// it was made. It is refused, in this order, if there is no such role, and on a token's last use. It fails as
/// `Damaged` if the row of the role is not one, and also if memory runs out or the storage fails.
pub fn creds<T: RecordsTx>(
    alloc: Global,
    tx: &mut T,
    now: Moment,
    mount: &str,
    name: &str,
    asked: LeaseRequest<'_>,
) -> Result<IssuedLease, RequestError>
    requires { length asked.names.credential.now < 2 ^ 32 }
    ensures rows { IsHonest (T.seen tx.new) → (o : Option Role) → IsRoleAt (table (T.seen tx.old)) mount.now name.now o
        → Ends (λ x i. (x ≡ (i.lease_id, i.lease.ttl))
        × (table (T.seen tx.new) ≡ with_lease (table (T.seen tx.old)) asked.entry.token.now i))
        ((T.seen tx.new).rows ≡ (T.seen tx.old).rows) result
        (roles.issued o asked.entry.is_last_use now mount.now name.now asked.entry.names.lease.now
        asked.entry.names.credential.now) }
    ensures told { OfEachBroker (λ _. RepresentsLeases) (T.seen tx.old) (T.seen tx.new) (λ b. SoundRoles b.roles
        → Tells of_roles (table (T.seen tx.old)) b → now ≡ b.clock
        → asked.entry.is_last_use ≡ roles.is_last_use b asked.entry.token.now
        → get b.tokens asked.entry.token.now ≢ None → AllUsed b
        → IsNew b (lease_identifier (roles.lease_id mount.now name.now asked.entry.names.lease.now))
        → IsNew b asked.entry.names.credential.now
        → Ends (λ x i. (x ≡ (i.lease_id, i.lease.ttl)) × Tells of_leases (table (T.seen tx.new)) i.next)
        ((T.seen tx.new).rows ≡ (T.seen tx.old).rows) result
        (roles.creds b asked.entry.token.now mount.now name.now asked.entry.names.lease.now
        asked.entry.names.credential.now)) }
    // Whatever the rows are: with a damaged row there is no answer, and no refusal.
    ensures readable { IsHonest (T.seen tx.new)
        → OnAnswer result (IsReadableRole (table (T.seen tx.old)) mount.now name.now) }
    ensures call { IsRequestChange (KeepsOthers of_leases) (T.seen tx.old) (T.seen tx.new) result
        (IsReadFault (IsHonest (T.seen tx.new) → IsReadableRole (table (T.seen tx.old)) mount.now name.now → ⊥)) }
{
    let now = now.seconds();
    let Some(found) = role(alloc, tx, mount, name)? else {
        return Err(RequestError::Refused(Refusal::NotFound));
    };
    if asked.is_last_use {
        return Err(RequestError::Refused(Refusal::BadRequest(Reason::LastUseTakesLease)));
    }
    let lease = new_lease(&found, now, asked.names.credential);
    let ttl = lease.ttl;
    let id = lease_id(alloc, mount, name, asked.names.lease)?;
    issue(alloc, tx, asked.token, id.as_str(), &lease)?;
    Ok(IssuedLease {
        lease_id: TextBuf::new(id),
        ttl,
    })
}
