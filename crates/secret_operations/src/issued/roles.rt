//! Roles of a mount that issues credentials.

ghost use Rattle.std.specs.Prelude.{◌≡◌, ◌≤◌, [], Option, Ok, true};
ghost use Rattle.broker_types.specs.Duration.{longest_duration};
ghost use Rattle.broker_types.specs.Fault.{IsNotBadStart};
ghost use Rattle.broker_types.specs.Name.{is_mount_name};
ghost use Rattle.broker_types.specs.Names.{names_of};
ghost use Rattle.broker_types.specs.Operation.{nothing, plainly};
ghost use Rattle.broker_types.specs.Text.{Text};
ghost use Rattle.records.specs.Calls.{IsRequestCall, IsRequestReading};
ghost use Rattle.leases.specs.Roles as roles;
ghost use Rattle.broker_model.specs.parts.Issued as part;
ghost use Rattle.broker_model.specs.parts.Place.{at};
ghost use Rattle.broker_rows.specs.Context as known;
ghost use Rattle.broker_rows.specs.Operating.{Performs};

use api_json::{RoleSettings, role_object};
use broker_rows::{Answered, Context};
use broker_types::{Refusal, RequestError};
use leases::{remove_role, role, set_role};
use records::RecordsTx;
use std::alloc::Global;

/// Shows a role as it was set.
pub(super) fn show<T: RecordsTx>(
    tx: &mut T,
    context: &Context<'_>,
    mount: &str,
    name: &str,
) -> Result<Answered, RequestError>
    ensures told { (who : Option Text) → Performs who context.now [] (T.seen tx.old) (T.seen tx.new)
        (λ b. part.show_role b (names_of context.now.words) (at mount.now name.now)) result }
    ensures call { IsRequestReading (T.seen tx.old) (T.seen tx.new) result IsNotBadStart }
{
    let Some(found) = role(context.alloc, tx, mount, name)? else {
        return Err(RequestError::Refused(Refusal::NotFound));
    };
    let object = role_object(context.alloc, found.max_ttl, found.ttl)?;
    Ok(Answered::shown(context, object)?)
}

/// Sets a role, in place of the one that is there.
pub(super) fn set<T: RecordsTx>(
    alloc: Global,
    tx: &mut T,
    mount: &str,
    name: &str,
    asked: RoleSettings,
) -> Result<Answered, RequestError>
    requires ttl { asked.ttl ≤ longest_duration }
    requires max_ttl { asked.max_ttl ≤ longest_duration }
    ensures told { is_mount_name mount.now ≡ true → (who : Option Text) (x : known.Context)
        → Performs who x [] (T.seen tx.old) (T.seen tx.new)
        (λ b. part.set_role b (at mount.now name.now) asked) result }
    ensures call { IsRequestCall (T.seen tx.old) (T.seen tx.new) result IsNotBadStart }
{
    set_role(alloc, tx, mount, name, asked.ttl, asked.max_ttl)?;
    Ok(Answered::Nothing)
}

/// Removes a role, if it is there.
pub(super) fn remove<T: RecordsTx>(
    alloc: Global,
    tx: &mut T,
    mount: &str,
    name: &str,
) -> Result<Answered, RequestError>
    ensures told { (who : Option Text) (x : known.Context) → Performs who x [] (T.seen tx.old) (T.seen tx.new)
        (λ b. Ok (plainly nothing (roles.remove_role b mount.now name.now))) result }
    ensures call { IsRequestCall (T.seen tx.old) (T.seen tx.new) result IsNotBadStart }
{
    remove_role(alloc, tx, mount, name)?;
    Ok(Answered::Nothing)
}
