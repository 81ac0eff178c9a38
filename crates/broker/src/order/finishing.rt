//! The end of a request.

ghost use Rattle.std.specs.Prelude.{None, Some, Result, IfOk, IfErr, OnOk};
ghost use Rattle.broker_types.specs.Answer.{HasRoom, response_of};
ghost use Rattle.broker_types.specs.Broker.{Broker};
ghost use Rattle.broker_types.specs.Fault.{IsMemoryOrStorage, IsNotBadStart};
ghost use Rattle.broker_types.specs.Spending as spending;
ghost use Rattle.broker_types.specs.declared.refusal.Refusal as declared;
ghost use Rattle.records.specs.Calls.{IsCall};
ghost use Rattle.records.specs.Transaction.{IsHonest};
ghost use Rattle.broker_model.specs.ListedResponses.{IsListed};
ghost use Rattle.broker_model.specs.Order as order;
ghost use Rattle.broker_rows.specs.Representing.{Gives, Represents};
ghost use Rattle.broker.specs.Stages.{HasServed, may_be_spent};

use crate::answers::{answer, refuse};
use broker_rows::{Answered, end_spent};
use broker_types::{Answer, Fault, Refusal};
use records::RecordsTx;
use std::alloc::Global;

/// Ends a caller that has spent its last use, whether it was served or refused. Then it answers the request, with room
/// for the reply.
pub(crate) fn finish<T: RecordsTx>(
    alloc: Global,
    tx: &mut T,
    caller: &str,
    is_last_use: bool,
    served: Result<Answered, Refusal>,
) -> Result<Answer, Fault>
    ensures told { IsHonest (T.seen tx.new) → (b : Broker) (m : Result order.Wrapped declared.Refusal)
        → HasServed (may_be_spent caller.now is_last_use) (T.seen tx.old).rows b served m
        → IfOk result (λ a. Gives a (T.seen tx.new).rows (order.finish b (Some caller.now) m)) }
    ensures wants { IsHonest (T.seen tx.new) → (b : Broker) (m : Result order.Wrapped declared.Refusal)
        → HasServed (may_be_spent caller.now is_last_use) (T.seen tx.old).rows b served m
        → IfErr result IsMemoryOrStorage }
    ensures room { IfOk result HasRoom }
    ensures listed { IfOk result (λ a. IsListed (response_of a)) }
    ensures call { IsCall (T.seen tx.old) (T.seen tx.new) result IsNotBadStart }
{
    end_caller(alloc, tx, caller, is_last_use)?;
    match served {
        Ok(answered) => Ok(answer(alloc, answered)?),
        Err(refusal) => refuse(alloc, refusal),
    }
}

/// Ends the caller if it has no uses left. One that was not on its last use has some still, or is gone, since no
/// operation takes a token's last use: its row is not read again.
fn end_caller<T: RecordsTx>(
    alloc: Global,
    tx: &mut T,
    caller: &str,
    is_last_use: bool,
) -> Result<(), Fault>
    ensures told { IsHonest (T.seen tx.new) → (b : Broker)
        → Represents (may_be_spent caller.now is_last_use) (T.seen tx.old).rows b
        → OnOk result (Represents None (T.seen tx.new).rows (spending.end_spent b (Some caller.now))) }
    ensures wants { IsHonest (T.seen tx.new) → (b : Broker)
        → Represents (may_be_spent caller.now is_last_use) (T.seen tx.old).rows b → IfErr result IsMemoryOrStorage }
    ensures call { IsCall (T.seen tx.old) (T.seen tx.new) result IsNotBadStart }
{
    if !is_last_use {
        return Ok(());
    }
    end_spent(alloc, tx, caller)
}
