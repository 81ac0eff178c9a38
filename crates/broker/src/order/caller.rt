//! The caller of a request.

ghost use Rattle.std.specs.Prelude.{None, IfOk, IfErr};
ghost use Rattle.broker_types.specs.Broker.{Broker};
ghost use Rattle.broker_types.specs.Fault.{IsMemoryOrStorage, IsNotBadStart};
ghost use Rattle.records.specs.Calls.{IsCall};
ghost use Rattle.records.specs.Transaction.{IsHonest};
ghost use Rattle.broker_rows.specs.Representing.{Represents};
ghost use Rattle.broker.specs.Stages.{IsCaller, IsCallerInRange};

use broker_rows::Caller;
use broker_types::{Ask, Fault};
use records::RecordsTx;
use std::alloc::Global;
use token_tree::spend;
use wrapping::drop_token;

/// The caller of an ask: its client token, if there is such a token, which spends a use. If it is a wrapping token
/// instead, the response that waits under it is dropped, and there is no caller (Vault's documentation, "Response
/// wrapping": a wrapping token is good for one use). The token is looked for first, so that a request of one pays for
/// no second look-up; no text is both.
pub(crate) fn find_caller<'a, T: RecordsTx>(
    alloc: Global,
    tx: &mut T,
    ask: &'a Ask<'_>,
) -> Result<Option<Caller<'a>>, Fault>
    ensures told { IsHonest (T.seen tx.new) → (b : Broker) → Represents None (T.seen tx.old).rows b
        → IfOk result (IsCaller b ask.now.token (T.seen tx.new).rows) }
    ensures wants { IsHonest (T.seen tx.new) → (b : Broker) → Represents None (T.seen tx.old).rows b
        → IfErr result IsMemoryOrStorage }
    ensures in_range { IfOk result IsCallerInRange }
    ensures call { IsCall (T.seen tx.old) (T.seen tx.new) result IsNotBadStart }
{
    let Some(token) = &ask.token else {
        return Ok(None);
    };
    let token = token.as_str();
    let Some(known) = spend(alloc, tx, token)? else {
        drop_token(alloc, tx, token)?;
        return Ok(None);
    };
    Ok(Some(Caller { token, known }))
}
