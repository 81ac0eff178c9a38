//! What a command leads to: its identifiers have to be new, it acts, and its reply may be wrapped.

ghost use Rattle.std.specs.Prelude.{◌≡◌, ◌||◌, true, not, nat_lt, Option, None, Some, IfErr, OnOk};
ghost use Rattle.broker_types.specs.Broker.{Broker};
ghost use Rattle.broker_types.specs.Fault.{IsMemoryOrStorage, IsNotBadStart};
ghost use Rattle.broker_types.specs.Names.{Names, names_of};
ghost use Rattle.broker_types.specs.RequestError.{Ends, EndsErr};
ghost use Rattle.broker_types.specs.Text.{Text};
ghost use Rattle.broker_types.specs.Used.{are_new};
ghost use Rattle.records.specs.Calls.{IsRequestCall, IsRequestReading};
ghost use Rattle.records.specs.Transaction.{IsHonest};
ghost use Rattle.broker_model.specs.Act as model;
ghost use Rattle.broker_model.specs.ServedAsks.{acted, needed_by, operated};
ghost use Rattle.broker_model.specs.Step.{traits};
ghost use Rattle.broker_rows.specs.Operating.{ActsAs, ArePrinted};
ghost use Rattle.broker_rows.specs.Representing.{Represents};
ghost use Rattle.broker.specs.Askers.{BeginsFor, IsAskerInRange, who_of};
ghost use Rattle.broker.specs.Meant.{meant, IsInRange, IsWellPlaced};
ghost use Rattle.broker.specs.Stages.{IsServed};

use crate::command::{Command, has_wrap_ttl, is_wrapped, needed_identifiers};
use crate::order::wrap::{Wrapping, wrap};
use broker_model::operations_are_proper;
use broker_rows::{Answered, Asker, Context, are_new};
use broker_types::{Ask, Reason, Refusal, RequestError, TextBuf};
use records::RecordsTx;

/// Does what a command of an ask means, if the identifiers that it needs are new, and if it has the wrap TTL that it
/// must have. The identifiers are printed here, once.
pub(crate) fn operate<T: RecordsTx>(
    tx: &mut T,
    context: &Context<'_>,
    asker: &Option<Asker<'_>>,
    ask: &Ask<'_>,
    command: Command<'_>,
) -> Result<Answered, RequestError>
    requires in_range { IsInRange (meant command) }
    requires known { IsAskerInRange asker.now }
    ensures told { IsWellPlaced (meant command.entry) → IsHonest (T.seen tx.new) → (b : Broker)
        → BeginsFor asker.now context.now (T.seen tx.old).rows b
        → Ends (IsServed (who_of asker.now) (T.seen tx.new).rows)
        (Represents (who_of asker.now) (T.seen tx.new).rows b)
        result (operated b (who_of asker.now) (names_of context.now.words) ask.now (meant command.entry)) }
    ensures call { IsRequestCall (T.seen tx.old) (T.seen tx.new) result IsNotBadStart }
{
    let needed = needed_identifiers(context.alloc, context.words, ask, &command)?;
    check(tx, ask, &needed, &command)?;
    carry_out(tx, context, asker, ask, &needed, command)
}

/// Whether a command of an ask may be carried out: the identifiers that it needs have to be new, and the ask has to
/// have the wrap TTL that the command must have.
fn check<T: RecordsTx>(
    tx: &mut T,
    ask: &Ask<'_>,
    needed: &[TextBuf],
    command: &Command<'_>,
) -> Result<(), RequestError>
    ensures refused { IsHonest (T.seen tx.new) → (who : Option Text) (b : Broker) (names : Names)
        → Represents who (T.seen tx.old).rows b → needed.now ≡ needed_by ask.now names (meant command.now)
        → IfErr result (λ e. EndsErr (Represents who (T.seen tx.new).rows b) e
        (operated b who names ask.now (meant command.now))) }
    ensures fresh { IsHonest (T.seen tx.new) → (who : Option Text) (b : Broker)
        → Represents who (T.seen tx.old).rows b → OnOk result (are_new b.used needed.now ≡ true) }
    ensures timed { OnOk result ((not (traits (meant command.now)).must_wrap || nat_lt 0 ask.now.wrap_ttl) ≡ true) }
    ensures call { IsRequestReading (T.seen tx.old) (T.seen tx.new) result IsMemoryOrStorage }
{
    if !are_new(tx, needed)? {
        return Err(RequestError::Refused(Refusal::IdentifierUsed));
    }
    if !has_wrap_ttl(ask, command) {
        return Err(RequestError::Refused(Refusal::BadRequest(Reason::WrappingRequired)));
    }
    Ok(())
}

/// Carries out a command of an ask, and wraps its reply if a wrap TTL asks for it.
fn carry_out<T: RecordsTx>(
    tx: &mut T,
    context: &Context<'_>,
    asker: &Option<Asker<'_>>,
    ask: &Ask<'_>,
    needed: &[TextBuf],
    command: Command<'_>,
) -> Result<Answered, RequestError>
    requires in_range { IsInRange (meant command) }
    requires known { IsAskerInRange asker.now }
    requires needed { ArePrinted needed.now (needed_by ask.now (names_of context.now.words) (meant command)) }
    ensures told { IsWellPlaced (meant command.entry) → IsHonest (T.seen tx.new) → (b : Broker)
        → BeginsFor asker.now context.now (T.seen tx.old).rows b
        → are_new b.used (needed_by ask.now (names_of context.now.words) (meant command.entry)) ≡ true
        → Ends (IsServed (who_of asker.now) (T.seen tx.new).rows)
        (Represents (who_of asker.now) (T.seen tx.new).rows b)
        result (acted b (who_of asker.now) (names_of context.now.words) ask.now (meant command.entry)) }
    ensures call { IsRequestCall (T.seen tx.old) (T.seen tx.new) result IsNotBadStart }
{
    operations_are_proper();
    if !is_wrapped(ask, &command) {
        return act(tx, context, asker, needed, command);
    }
    let own = &needed[2..];
    let answered = act(tx, context, asker, own, command)?;
    let wrapping = Wrapping {
        path: ask.path.as_str(),
        ttl: ask.wrap_ttl,
        token: needed[0].as_str(),
        accessor: needed[1].as_str(),
    };
    Ok(wrap(tx, context, &wrapping, answered)?)
}

/// Carries out a command, of the caller who asks or of an open ask. Its own identifiers are new, and have been printed.
fn act<T: RecordsTx>(
    tx: &mut T,
    context: &Context<'_>,
    asker: &Option<Asker<'_>>,
    own: &[TextBuf],
    command: Command<'_>,
) -> Result<Answered, RequestError>
    requires in_range { IsInRange (meant command) }
    requires known { IsAskerInRange asker.now }
    requires own { ArePrinted own.now ((traits (meant command)).own (names_of context.now.words)) }
    ensures told { IsWellPlaced (meant command.entry) → IsHonest (T.seen tx.new) → (b : Broker)
        → BeginsFor asker.now context.now (T.seen tx.old).rows b
        → are_new b.used ((traits (meant command.entry)).own (names_of context.now.words)) ≡ true
        → ActsAs (who_of asker.now) b (T.seen tx.new).rows result
        (model.act b (who_of asker.now) (names_of context.now.words) (meant command.entry)) }
    ensures call { IsRequestCall (T.seen tx.old) (T.seen tx.new) result IsNotBadStart }
{
    match asker {
        None => command.act_openly(tx, context, own),
        Some(asker) => command.act_for(tx, context, asker, own),
    }
}
