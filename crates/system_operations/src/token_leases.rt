//! Requests on leases (Vault's documentation, "/sys/leases").

ghost use Rattle.std.specs.Prelude.{◌≡◌, ◌≤◌, ◌-◌, [], Option, Ok, length};
ghost use Rattle.broker_types.specs.Fault.{IsNotBadStart};
ghost use Rattle.broker_types.specs.Limits.{longest_body};
ghost use Rattle.broker_types.specs.Names.{names_of};
ghost use Rattle.broker_types.specs.Operation.{nothing, plainly};
ghost use Rattle.broker_types.specs.Text.{Text};
ghost use Rattle.records.specs.Calls.{IsRequestCall, IsRequestReading};
ghost use Rattle.leases.specs.LeaseRows.{AreTimesInRange};
ghost use Rattle.leases.specs.Leases as leases;
ghost use Rattle.api_json.specs.Reads.{IsRead};
ghost use Rattle.broker_model.specs.parts.Leases as part;
ghost use Rattle.broker_model.specs.parts.Leases.{lease_command};
ghost use Rattle.broker_rows.specs.Context as known;
ghost use Rattle.broker_rows.specs.Operating.{Performs};

use api_json::{
    EndTime, LeaseObject, LeaseRenewal, lease_id, lease_object, lease_renewal, lease_reply,
    read_body,
};
use broker_model::LeaseCommand;
use broker_rows::{Answered, Context, moment, moment_or_none};
use broker_types::{Moment, RequestError, TextBuf, id_text};
use leases::LeaseTimes;
use mounts::LeaseOperation;
use records::{Due, RecordsTx};
use std::alloc::Global;

/// Reads what an operation on leases asks for. It is refused if the body is no object, or does not name a lease where
/// one is meant. The only fault is running out of memory.
pub fn read_lease_command(
    alloc: Global,
    operation: LeaseOperation,
    body: &[u8],
) -> Result<LeaseCommand, RequestError>
    requires { length body.now ≤ longest_body }
    ensures reads { IsRead (lease_command operation body.now) result }
{
    let members = read_body(alloc, body)?;
    match operation {
        LeaseOperation::LookUp => Ok(LeaseCommand::LookUp(lease_id(alloc, &members)?)),
        LeaseOperation::Renew => Ok(LeaseCommand::Renew(lease_renewal(alloc, &members)?)),
        LeaseOperation::Revoke => Ok(LeaseCommand::Revoke(lease_id(alloc, &members)?)),
        LeaseOperation::RevokeUnder => Ok(LeaseCommand::RevokeUnder),
    }
}

/// Carries out a command on leases, below a prefix. It may be refused. It fails with `Memory` if memory runs out, with
/// `Storage` if the transaction's storage failed, and with `Damaged` if a row that it asks for cannot be read.
pub fn act_on_leases<T: RecordsTx>(
    tx: &mut T,
    context: &Context<'_>,
    prefix: &str,
    command: LeaseCommand,
) -> Result<Answered, RequestError>
    ensures told { (who : Option Text) → Performs who context.now [] (T.seen tx.old) (T.seen tx.new)
        (λ b. part.act_on_leases b (names_of context.now.words) prefix.now command) result }
    ensures call { IsRequestCall (T.seen tx.old) (T.seen tx.new) result IsNotBadStart }
{
    match command {
        LeaseCommand::LookUp(lease_id) => look_up(tx, context, lease_id),
        LeaseCommand::Renew(asked) => renew(tx, context, asked),
        LeaseCommand::Revoke(lease_id) => revoke(tx, lease_id.as_str()),
        LeaseCommand::RevokeUnder => revoke_under(context.alloc, tx, prefix),
    }
}

/// Shows the lease of an id. An unknown one is 400 `invalid lease`.
fn look_up<T: RecordsTx>(
    tx: &mut T,
    context: &Context<'_>,
    lease_id: TextBuf,
) -> Result<Answered, RequestError>
    ensures told { (who : Option Text) → Performs who context.now [] (T.seen tx.old) (T.seen tx.new)
        (λ b. part.look_up b (names_of context.now.words) lease_id) result }
    ensures call { IsRequestReading (T.seen tx.old) (T.seen tx.new) result IsNotBadStart }
{
    let times = leases::lookup(tx, lease_id.as_str())?;
    let lease = shown(context.clock, lease_id, &times);
    let object = lease_object(context.alloc, &lease)?;
    Ok(Answered::shown(context, object)?)
}

/// Gives a lease another end. An unknown one is 400 `invalid lease`.
fn renew<T: RecordsTx>(
    tx: &mut T,
    context: &Context<'_>,
    asked: LeaseRenewal,
) -> Result<Answered, RequestError>
    ensures told { (who : Option Text) → Performs who context.now [] (T.seen tx.old) (T.seen tx.new)
        (λ b. part.renew b (names_of context.now.words) asked.lease_id asked.increment) result }
    ensures call { IsRequestCall (T.seen tx.old) (T.seen tx.new) result IsNotBadStart }
{
    let alloc = context.alloc;
    let ends = leases::renew(
        alloc,
        tx,
        context.clock,
        asked.lease_id.as_str(),
        asked.increment,
    )?;
    let seconds = seconds_left(context.clock, ends);
    let request = id_text(alloc, context.words.request())?;
    Ok(Answered::Given(lease_reply(alloc, request.as_str(), asked.lease_id, seconds, None)?))
}

/// Ends the lease of an id; an unknown one is passed over.
fn revoke<T: RecordsTx>(tx: &mut T, lease_id: &str) -> Result<Answered, RequestError>
    ensures told { (who : Option Text) (x : known.Context) → Performs who x [] (T.seen tx.old) (T.seen tx.new)
        (λ b. Ok (plainly nothing (leases.revoke b lease_id.now))) result }
    ensures call { IsRequestCall (T.seen tx.old) (T.seen tx.new) result IsNotBadStart }
{
    leases::revoke(tx, lease_id)?;
    Ok(Answered::Nothing)
}

/// Ends the leases whose ids begin with a prefix and a slash; there may be none.
fn revoke_under<T: RecordsTx>(
    alloc: Global,
    tx: &mut T,
    prefix: &str,
) -> Result<Answered, RequestError>
    ensures told { (who : Option Text) (x : known.Context) → Performs who x [] (T.seen tx.old) (T.seen tx.new)
        (λ b. Ok (plainly nothing (leases.revoke_under b prefix.now))) result }
    ensures call { IsRequestCall (T.seen tx.old) (T.seen tx.new) result IsNotBadStart }
{
    leases::revoke_under(alloc, tx, prefix)?;
    Ok(Answered::Nothing)
}

/// A lease of an id as a reply shows it, at a moment.
fn shown(now: Moment, id: TextBuf, times: &LeaseTimes) -> LeaseObject
    requires { AreTimesInRange times.now }
    ensures { result ≡ part.shown_lease now id times.now }
{
    LeaseObject {
        ends: EndTime::new(times.ends.seconds()).unwrap(),
        id,
        issued: moment(times.issued),
        renewed: moment_or_none(times.renewed),
        ttl: seconds_left(now, times.ends),
    }
}

/// The seconds from a moment to an end; 0 for an end that has come.
fn seconds_left(now: Moment, ends: Due) -> u64
    ensures { result ≡ ends - now }
{
    ends.seconds().saturating_sub(now.seconds())
}
