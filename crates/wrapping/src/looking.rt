//! Responses that wait, read.

ghost use Rattle.std.specs.Prelude.{◌≡◌, IfOk, IfErr};
ghost use Rattle.broker_types.specs.Broker.{Broker};
ghost use Rattle.broker_types.specs.Fault.{IsMemoryOrStorage};
ghost use Rattle.broker_types.specs.Map.{get};
ghost use Rattle.records.specs.Calls.{IsReading, IsReadFault};
ghost use Rattle.records.specs.Ranges.{IsWaitingInRange};
ghost use Rattle.records.specs.RowReaders.{IsSomeIn};
ghost use Rattle.records.specs.Table.{table};
ghost use Rattle.records.specs.Transaction.{IsHonest};
ghost use Rattle.wrapping.specs.WaitingRows.{RepresentsWaiting, IsWaitingAt, IsDamagedWaiting};

use crate::waiting_response::WaitingResponse;
use broker_types::Fault;
use records::{Kind, RecordsTx, read_waiting};
use std::alloc::Global;

/// The response that waits under a wrapping token, if one does. It stays. It fails as `Damaged` if the row of the
/// wrapping token is not one, and also if memory runs out or the storage fails (Vault's documentation, "Response
/// wrapping", token lookup).
pub fn look<T: RecordsTx>(
    alloc: Global,
    tx: &mut T,
    token: &str,
) -> Result<Option<WaitingResponse>, Fault>
    ensures found { IsHonest (T.seen tx.new) → IfOk result (IsWaitingAt (table (T.seen tx.old)) token.now) }
    ensures told { IsHonest (T.seen tx.new) → (b : Broker) → RepresentsWaiting (table (T.seen tx.old)) b
        → IfOk result (λ found. found ≡ get b.waiting token.now) }
    ensures in_range { IfOk result (IsSomeIn IsWaitingInRange) }
    ensures wants { IsHonest (T.seen tx.new) → (b : Broker) → RepresentsWaiting (table (T.seen tx.old)) b
        → IfErr result IsMemoryOrStorage }
    ensures call { IsReading (T.seen tx.old) (T.seen tx.new) result
        (IsReadFault (IsHonest (T.seen tx.new) → IsDamagedWaiting (table (T.seen tx.old)) token.now)) }
{
    let Some(kept) = tx.get(Kind::Waiting, token)? else {
        return Ok(None);
    };
    let waiting = read_waiting(&kept)?;
    Ok(Some(WaitingResponse::copied(alloc, &waiting)?))
}
