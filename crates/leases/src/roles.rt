//! Roles of mounts that issue credentials.

ghost use Rattle.std.specs.Prelude.{◌≡◌, [], Option, IfOk, IfErr, OnOk};
ghost use Rattle.broker_types.specs.Broker.{Broker, Role};
ghost use Rattle.broker_types.specs.Fault.{IsMemoryOrStorage};
ghost use Rattle.broker_types.specs.RequestError.{Ends};
ghost use Rattle.broker_types.specs.Sound.{SoundRoles};
ghost use Rattle.records.specs.declared.kind.Kind.TheVariants as kind;
ghost use Rattle.records.specs.Calls.{IsReading, IsChange, IsRequestChange, IsReadFault};
ghost use Rattle.records.specs.Parts.{of_roles, Tells, KeepsOthers};
ghost use Rattle.records.specs.Table.{table, without_row, without_under};
ghost use Rattle.records.specs.Transaction.{IsHonest};
ghost use Rattle.leases.specs.RoleRows as rows;
ghost use Rattle.leases.specs.RoleRows.{IsRoleAt, IsReadableRole};
ghost use Rattle.leases.specs.Roles as roles;

use crate::keys::role_name;
use broker_types::{Fault, Reason, Refusal, RequestError, Seconds, is_name};
use records::{Kind, RecordsTx, RoleRecord, read_role, remove_under, write_role};
use std::alloc::Global;

/// Puts a role at a name of a mount, in place of the one that is there. A length of time that is 0 says nothing. It is
/// refused if the text is no name. It fails only if memory runs out or the storage fails.
pub fn set_role<T: RecordsTx>(
    alloc: Global,
    tx: &mut T,
    mount: &str,
    name: &str,
    ttl: Seconds,
    max_ttl: Seconds,
) -> Result<(), RequestError>
    ensures rows { IsHonest (T.seen tx.new)
        → Ends (λ _ next. table (T.seen tx.new) ≡ next) ((T.seen tx.new).rows ≡ (T.seen tx.old).rows) result
        (rows.set_role (table (T.seen tx.old)) mount.now name.now (record { ttl = ttl; max_ttl = max_ttl })) }
    ensures told { IsHonest (T.seen tx.new) → (b : Broker) → Tells of_roles (table (T.seen tx.old)) b
        → Ends (λ _ next. Tells of_roles (table (T.seen tx.new)) next)
        ((T.seen tx.new).rows ≡ (T.seen tx.old).rows) result
        (roles.set_role b mount.now name.now (record { ttl = ttl; max_ttl = max_ttl })) }
    ensures call { IsRequestChange (KeepsOthers of_roles) (T.seen tx.old) (T.seen tx.new) result IsMemoryOrStorage }
{
    if !is_name(name) {
        return Err(RequestError::Refused(Refusal::BadRequest(Reason::InvalidName)));
    }
    let key = role_name(alloc, mount, name)?;
    let role = RoleRecord {
        ttl: u64::from(ttl.count()),
        max_ttl: u64::from(max_ttl.count()),
    };
    let row = write_role(alloc, &role)?;
    tx.put(Kind::Role, key.as_str(), row)?;
    Ok(())
}

/// The role of a name at a mount, if there is one. It fails as `Damaged` if its row is not one of a role, and also if
/// memory runs out or the storage fails.
pub fn role<T: RecordsTx>(
    alloc: Global,
    tx: &mut T,
    mount: &str,
    name: &str,
) -> Result<Option<RoleRecord>, Fault>
    ensures found { IsHonest (T.seen tx.new) → (o : Option Role)
        → IsRoleAt (table (T.seen tx.old)) mount.now name.now o → IfOk result (λ r. r ≡ o) }
    ensures exact { IsHonest (T.seen tx.new)
        → IfOk result (IsRoleAt (table (T.seen tx.old)) mount.now name.now) }
    ensures told { IsHonest (T.seen tx.new) → (b : Broker) → SoundRoles b.roles
        → Tells of_roles (table (T.seen tx.old)) b → IfOk result (λ o. o ≡ roles.role b mount.now name.now) }
    ensures wants { IsHonest (T.seen tx.new) → (b : Broker) → SoundRoles b.roles
        → Tells of_roles (table (T.seen tx.old)) b → IfErr result IsMemoryOrStorage }
    ensures call { IsReading (T.seen tx.old) (T.seen tx.new) result
        (IsReadFault (IsHonest (T.seen tx.new) → IsReadableRole (table (T.seen tx.old)) mount.now name.now → ⊥)) }
{
    let key = role_name(alloc, mount, name)?;
    let Some(kept) = tx.get(Kind::Role, key.as_str())? else {
        return Ok(None);
    };
    Ok(Some(read_role(&kept)?))
}

/// Removes the role of a name at a mount, if there is one. It fails only if memory runs out or the storage fails.
pub fn remove_role<T: RecordsTx>(
    alloc: Global,
    tx: &mut T,
    mount: &str,
    name: &str,
) -> Result<(), Fault>
    ensures rows { IsHonest (T.seen tx.new) → OnOk result (table (T.seen tx.new)
        ≡ without_row (table (T.seen tx.old)) kind.Role (roles.role_name mount.now name.now)) }
    ensures told { IsHonest (T.seen tx.new) → (b : Broker) → Tells of_roles (table (T.seen tx.old)) b
        → OnOk result (Tells of_roles (table (T.seen tx.new)) (roles.remove_role b mount.now name.now)) }
    ensures call { IsChange (KeepsOthers of_roles) (T.seen tx.old) (T.seen tx.new) result IsMemoryOrStorage }
{
    let key = role_name(alloc, mount, name)?;
    tx.remove(Kind::Role, key.as_str())
}

/// Removes all roles of a mount. It fails only if memory runs out or the storage fails.
pub fn drop_roles<T: RecordsTx>(alloc: Global, tx: &mut T, mount: &str) -> Result<(), Fault>
    ensures rows { IsHonest (T.seen tx.new) → OnOk result (table (T.seen tx.new)
        ≡ without_under (table (T.seen tx.old)) kind.Role (roles.role_name mount.now [])) }
    ensures told { IsHonest (T.seen tx.new) → (b : Broker) → Tells of_roles (table (T.seen tx.old)) b
        → OnOk result (Tells of_roles (table (T.seen tx.new)) (roles.drop_roles b mount.now)) }
    ensures call { IsChange (KeepsOthers of_roles) (T.seen tx.old) (T.seen tx.new) result IsMemoryOrStorage }
{
    let key = role_name(alloc, mount, "")?;
    remove_under(tx, Kind::Role, key.as_str())
}
