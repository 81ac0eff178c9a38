//! A caller is served.

ghost use Rattle.std.specs.Prelude.{◌≡◌, false, Some, IfOk, IfErr};
ghost use Rattle.broker_types.specs.Broker.{Broker};
ghost use Rattle.broker_types.specs.Fault.{IsNotBadStart};
ghost use Rattle.broker_types.specs.Names.{names_of};
ghost use Rattle.broker_types.specs.RequestError.{Ends};
ghost use Rattle.records.specs.Calls.{IsRequestCall};
ghost use Rattle.records.specs.Ranges.{IsTokenInRange};
ghost use Rattle.records.specs.Transaction.{IsHonest};
ghost use Rattle.broker_model.specs.Order as order;
ghost use Rattle.broker_model.specs.ServedAsks.{is_open, served};
ghost use Rattle.broker_rows.specs.Operating.{BeginsBy};
ghost use Rattle.broker_rows.specs.Representing.{Represents, Gives};
ghost use Rattle.broker.specs.Noticing.{noticed_by};
ghost use Rattle.broker.specs.Safely.{AnswersSafely};
ghost use Rattle.broker.specs.Stages.{IsServed};

use crate::aids::Aids;
use crate::answers::PERMISSION_DENIED;
use crate::command::read_command;
use crate::order::finishing::finish;
use crate::order::operating::operate;
use crate::order::permission::permitted;
use broker_model::operations_do_as_told;
use broker_rows::{Answered, Asker, Caller, Context};
use broker_types::{Answer, Ask, Fault, RequestError};
use mounts::route;
use records::RecordsTx;

/// Answers an ask of the caller, which has spent its use: the ask is served or refused, and a caller without uses left
/// ends.
pub(crate) fn answer_caller<T: RecordsTx>(
    aids: &mut Aids,
    tx: &mut T,
    context: &Context<'_>,
    caller: Caller<'_>,
    ask: &Ask<'_>,
) -> Result<Answer, Fault>
    requires { IsTokenInRange caller.known }
    ensures told { is_open ask.now ≡ false → IsHonest (T.seen tx.new) → (b : Broker)
        → BeginsBy caller.entry context.now (T.seen tx.old).rows b
        → IfOk result (λ a. Gives a (T.seen tx.new).rows (order.finish b (Some caller.entry.token)
        (served b (Some caller.entry.token) (names_of context.now.words) ask.now))) }
    ensures safely { AnswersSafely (T.seen tx.old) (T.seen tx.new)
        (λ b. (is_open ask.now ≡ false) × BeginsBy caller.entry context.now (T.seen tx.old).rows b) result }
    ensures faults { IfErr result IsNotBadStart }
    ensures noticed { noticed_by aids.new ≡ noticed_by aids.old }
{
    operations_do_as_told();
    let token = caller.token;
    let is_last_use = caller.is_on_last_use();
    match serve(aids, tx, context, caller, ask) {
        Ok(answered) => finish(context.alloc, tx, token, is_last_use, Ok(answered)),
        Err(RequestError::Refused(refusal)) => finish(
            context.alloc,
            tx,
            token,
            is_last_use,
            Err(refusal),
        ),
        Err(RequestError::Fault(fault)) => Err(fault),
    }
}

/// Serves an ask of the caller, if it is permitted.
fn serve<T: RecordsTx>(
    aids: &mut Aids,
    tx: &mut T,
    context: &Context<'_>,
    caller: Caller<'_>,
    ask: &Ask<'_>,
) -> Result<Answered, RequestError>
    requires { IsTokenInRange caller.known }
    ensures told { is_open ask.now ≡ false → IsHonest (T.seen tx.new) → (b : Broker)
        → BeginsBy caller.entry context.now (T.seen tx.old).rows b
        → Ends (IsServed (Some caller.entry.token) (T.seen tx.new).rows)
        (Represents (Some caller.entry.token) (T.seen tx.new).rows b)
        result (served b (Some caller.entry.token) (names_of context.now.words) ask.now) }
    ensures call { IsRequestCall (T.seen tx.old) (T.seen tx.new) result IsNotBadStart }
    ensures noticed { noticed_by aids.new ≡ noticed_by aids.old }
{
    // Who may not ask is denied before it is told that there is no route.
    let found = match route(&aids.routers, tx, ask.verb, ask.path.as_str()) {
        Ok(found) => Ok(found),
        Err(RequestError::Refused(refusal)) => Err(refusal),
        Err(RequestError::Fault(fault)) => return Err(RequestError::Fault(fault)),
    };
    let Some(rules) = permitted(&mut aids.policies, context.alloc, tx, &caller, ask, &found)? else {
        return Err(RequestError::Refused(PERMISSION_DENIED));
    };
    let command = read_command(context.alloc, ask, &found?)?;
    let asker = Some(Asker { caller, rules });
    operate(tx, context, &asker, ask, command)
}
