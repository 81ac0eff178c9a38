//! Credentials of roles, each with a lease.

ghost use Rattle.std.specs.Prelude.{◌≡◌, [], true, None, Some, Option, Ok, IfOk};
ghost use Rattle.api_json.specs.Objects.{credential_object};
ghost use Rattle.api_json.specs.Reply.{lease_reply};
ghost use Rattle.broker_types.specs.Fault.{IsNotBadStart};
ghost use Rattle.broker_types.specs.Name.{is_mount_name};
ghost use Rattle.broker_types.specs.Names.{names_of};
ghost use Rattle.broker_types.specs.Operation as operation;
ghost use Rattle.broker_types.specs.Sound.{IsIdentifier};
ghost use Rattle.broker_types.specs.Text.{Text};
ghost use Rattle.records.specs.Calls.{IsRequestCall, IsRequestReading};
ghost use Rattle.broker_model.specs.Traits.{lease_names};
ghost use Rattle.broker_model.specs.parts.Issued as part;
ghost use Rattle.broker_model.specs.parts.Place.{at};
ghost use Rattle.broker_rows.specs.Done.{answered_of};
ghost use Rattle.broker_rows.specs.Operating.{ArePrinted, Performs, PerformsBy};
ghost use Rattle.secret_operations.specs.Issuing.{IssuesLease};

use api_json::{credential_object, lease_reply, valid_object};
use broker_rows::{Answered, Caller, Context, use_up};
use broker_types::{RequestError, TextBuf, id_text};
use leases::{IssuedLease, LeaseRequest, Names, creds};
use records::RecordsTx;
use std::alloc::AllocError;

/// Issues a credential of a role, with a lease of the caller's token. The identifiers of the request are new, and have
/// been printed.
pub(super) fn issue<T: RecordsTx>(
    tx: &mut T,
    context: &Context<'_>,
    caller: &Caller<'_>,
    own: &[TextBuf],
    mount: &str,
    name: &str,
) -> Result<Answered, RequestError>
    requires own { ArePrinted own.now (lease_names (names_of context.now.words)) }
    ensures told { is_mount_name mount.now ≡ true
        → PerformsBy caller.now context.now (lease_names (names_of context.now.words)) (T.seen tx.old) (T.seen tx.new)
        (λ b. part.issue b caller.now.token (names_of context.now.words) (at mount.now name.now)) result }
    ensures call { IsRequestCall (T.seen tx.old) (T.seen tx.new) result IsNotBadStart }
{
    let names = Names {
        lease: own[0].as_str(),
        credential: own[1].as_str(),
    };
    let lease = put(tx, context, caller, mount, name, names)?;
    Ok(given(context, lease, names.credential)?)
}

/// Makes a lease of the caller's token for a credential of a role, and marks its identifiers as given out.
fn put<T: RecordsTx>(
    tx: &mut T,
    context: &Context<'_>,
    caller: &Caller<'_>,
    mount: &str,
    name: &str,
    names: Names<'_>,
) -> Result<IssuedLease, RequestError>
    requires named { IsIdentifier names.lease.now }
    requires credential { IsIdentifier names.credential.now }
    ensures told { is_mount_name mount.now ≡ true → IssuesLease caller.now context.now mount.now name.now
        names.entry.lease.now names.entry.credential.now (T.seen tx.old) (T.seen tx.new) result }
    ensures call { IsRequestCall (T.seen tx.old) (T.seen tx.new) result IsNotBadStart }
{
    let alloc = context.alloc;
    let asked = LeaseRequest {
        token: caller.token,
        is_last_use: caller.is_on_last_use(),
        names,
    };
    let lease = creds(alloc, tx, context.clock, mount, name, asked)?;
    use_up(alloc, tx, names.credential)?;
    use_up(alloc, tx, names.lease)?;
    Ok(lease)
}

/// Answers with a lease and its credential.
fn given(
    context: &Context<'_>,
    lease: IssuedLease,
    credential: &str,
) -> Result<Answered, AllocError>
    ensures { IfOk result (λ a. answered_of a ≡ operation.reply (lease_reply (names_of context.now.words).request
        lease.0 lease.1 (Some (credential_object credential.now))) None) }
{
    let alloc = context.alloc;
    let request = id_text(alloc, context.words.request())?;
    let object = credential_object(alloc, credential)?;
    let reply = lease_reply(
        alloc,
        request.as_str(),
        lease.lease_id,
        lease.ttl,
        Some(object),
    )?;
    Ok(Answered::Given(reply))
}

/// Says whether the lease of a credential still stands.
pub(super) fn verify<T: RecordsTx>(
    tx: &mut T,
    context: &Context<'_>,
    credential: &str,
) -> Result<Answered, RequestError>
    ensures told { (who : Option Text) → Performs who context.now [] (T.seen tx.old) (T.seen tx.new)
        (λ b. Ok (part.verify b (names_of context.now.words) credential.now)) result }
    ensures call { IsRequestReading (T.seen tx.old) (T.seen tx.new) result IsNotBadStart }
{
    let valid = leases::verify(tx, credential)?;
    let object = valid_object(context.alloc, valid)?;
    Ok(Answered::shown(context, object)?)
}
