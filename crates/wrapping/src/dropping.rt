//! Responses that wait, taken out.

ghost use Rattle.std.specs.Prelude.{◌≡◌, None, Some, false, is_some, IfOk, IfErr, OnOk};
ghost use Rattle.broker_types.specs.Broker.{Broker};
ghost use Rattle.broker_types.specs.Fault.{IsMemoryOrStorage};
ghost use Rattle.broker_types.specs.Map.{get};
ghost use Rattle.broker_types.specs.Spending.{drop_waiting};
ghost use Rattle.records.specs.Calls.{IsCall, IsReading, IsChange, IsReadFault};
ghost use Rattle.records.specs.Parts.{of_waiting, Tells, KeepsOthers};
ghost use Rattle.records.specs.Ranges.{IsWaitingInRange};
ghost use Rattle.records.specs.RowReaders.{IsSomeIn};
ghost use Rattle.records.specs.Table.{table};
ghost use Rattle.records.specs.Transaction.{IsHonest};
ghost use Rattle.wrapping.specs.AccessorRows.{NamesAt, DropsAccessor, IsDamagedAccessor, IsDamagedName};
ghost use Rattle.wrapping.specs.WaitingRows.{RepresentsWaiting, IsDamagedWaiting, without_response};
ghost use Rattle.wrapping.specs.WaitingRows.{TakesOut, TakesText, Drops};
ghost use Rattle.wrapping.specs.Wrapping as wrapping;
ghost use Rattle.wrapping.specs.Wrapping.{text_at};

use crate::looking::look;
use crate::waiting_response::WaitingResponse;
use broker_types::{Fault, TextBuf};
use records::{Holder, Kind, RecordsTx, read_accessor};
use std::alloc::Global;

/// Removes the row of a wrapping token and that of an accessor.
pub(crate) fn remove<T: RecordsTx>(tx: &mut T, token: &str, accessor: &str) -> Result<(), Fault>
    ensures rows { IsHonest (T.seen tx.new) → OnOk result (table (T.seen tx.new)
        ≡ without_response (table (T.seen tx.old)) token.now accessor.now) }
    ensures call { IsCall (T.seen tx.old) (T.seen tx.new) result IsMemoryOrStorage }
{
    tx.remove(Kind::Accessor, accessor)?;
    tx.remove(Kind::Waiting, token)
}

/// Takes out the response that waits under a wrapping token, with its accessor, and answers it.
pub(crate) fn take_out<T: RecordsTx>(
    alloc: Global,
    tx: &mut T,
    token: &str,
) -> Result<Option<WaitingResponse>, Fault>
    ensures rows { IsHonest (T.seen tx.new) → IfOk result (λ found.
        TakesOut token.now (table (T.seen tx.old)) found (table (T.seen tx.new))) }
    ensures told { IsHonest (T.seen tx.new) → (b : Broker) → RepresentsWaiting (table (T.seen tx.old)) b
        → OnOk result (Tells of_waiting (table (T.seen tx.new)) (drop_waiting b token.now)) }
    ensures taken { IsHonest (T.seen tx.new) → (b : Broker) → RepresentsWaiting (table (T.seen tx.old)) b
        → IfOk result (λ found. found ≡ get b.waiting token.now) }
    ensures in_range { IfOk result (IsSomeIn IsWaitingInRange) }
    ensures unknown { IsHonest (T.seen tx.new) → IfOk result (λ found.
        found ≡ None → (T.seen tx.new).rows ≡ (T.seen tx.old).rows) }
    ensures wants { IsHonest (T.seen tx.new) → (b : Broker) → RepresentsWaiting (table (T.seen tx.old)) b
        → IfErr result IsMemoryOrStorage }
    ensures call { IsChange (KeepsOthers of_waiting) (T.seen tx.old) (T.seen tx.new) result
        (IsReadFault (IsHonest (T.seen tx.new) → IsDamagedWaiting (table (T.seen tx.old)) token.now)) }
{
    let Some(response) = look(alloc, tx, token)? else {
        return Ok(None);
    };
    remove(tx, token, response.accessor.as_str())?;
    Ok(Some(response))
}

/// Takes out the response that waits under a wrapping token, with its accessor, and answers its text. If none waits
/// under the token, nothing changes. It fails as `Damaged` if the row of the wrapping token is not one, and also if
/// memory runs out or the storage fails (Vault's documentation, "Response wrapping", token unwrapping).
pub fn take<T: RecordsTx>(alloc: Global, tx: &mut T, token: &str) -> Result<Option<TextBuf>, Fault>
    ensures rows { IsHonest (T.seen tx.new) → IfOk result (λ text.
        TakesText token.now (table (T.seen tx.old)) text (table (T.seen tx.new))) }
    ensures told { IsHonest (T.seen tx.new) → (b : Broker) → RepresentsWaiting (table (T.seen tx.old)) b
        → OnOk result (Tells of_waiting (table (T.seen tx.new)) (drop_waiting b token.now)) }
    ensures taken { IsHonest (T.seen tx.new) → (b : Broker) → RepresentsWaiting (table (T.seen tx.old)) b
        → IfOk result (λ text. text ≡ text_at b token.now) }
    ensures unknown { IsHonest (T.seen tx.new) → (b : Broker) → RepresentsWaiting (table (T.seen tx.old)) b
        → get b.waiting token.now ≡ None
        → IfOk result (λ text. (text ≡ None) × ((T.seen tx.new).rows ≡ (T.seen tx.old).rows)) }
    ensures wants { IsHonest (T.seen tx.new) → (b : Broker) → RepresentsWaiting (table (T.seen tx.old)) b
        → IfErr result IsMemoryOrStorage }
    ensures call { IsChange (KeepsOthers of_waiting) (T.seen tx.old) (T.seen tx.new) result
        (IsReadFault (IsHonest (T.seen tx.new) → IsDamagedWaiting (table (T.seen tx.old)) token.now)) }
{
    match take_out(alloc, tx, token)? {
        None => Ok(None),
        Some(response) => Ok(Some(response.reply)),
    }
}

/// Drops the response that waits under a wrapping token, with its accessor, and answers whether one did. Any other
/// text is passed over. It fails as `Damaged` if the row of the wrapping token is not one, and also if memory runs out
/// or the storage fails (Vault's documentation, "Response wrapping"; "Tokens", revoke).
pub fn drop_token<T: RecordsTx>(alloc: Global, tx: &mut T, token: &str) -> Result<bool, Fault>
    ensures rows { IsHonest (T.seen tx.new) → IfOk result (λ dropped.
        Drops token.now (table (T.seen tx.old)) dropped (table (T.seen tx.new))) }
    ensures told { IsHonest (T.seen tx.new) → (b : Broker) → RepresentsWaiting (table (T.seen tx.old)) b
        → OnOk result (Tells of_waiting (table (T.seen tx.new)) (drop_waiting b token.now)) }
    ensures wants { IsHonest (T.seen tx.new) → (b : Broker) → RepresentsWaiting (table (T.seen tx.old)) b
        → IfErr result IsMemoryOrStorage }
    ensures call { IsChange (KeepsOthers of_waiting) (T.seen tx.old) (T.seen tx.new) result
        (IsReadFault (IsHonest (T.seen tx.new) → IsDamagedWaiting (table (T.seen tx.old)) token.now)) }
{
    Ok(take_out(alloc, tx, token)?.is_some())
}

/// The wrapping token that an accessor names, if it names one. That of a token names none.
fn find_accessor<T: RecordsTx>(tx: &mut T, accessor: &str) -> Result<Option<TextBuf>, Fault>
    ensures found { IsHonest (T.seen tx.new) → IfOk result (NamesAt (table (T.seen tx.old)) accessor.now) }
    ensures told { IsHonest (T.seen tx.new) → (b : Broker) → RepresentsWaiting (table (T.seen tx.old)) b
        → IfOk result (λ found. found ≡ wrapping.find_accessor b accessor.now) }
    ensures wants { IsHonest (T.seen tx.new) → (b : Broker) → RepresentsWaiting (table (T.seen tx.old)) b
        → IfErr result IsMemoryOrStorage }
    ensures call { IsReading (T.seen tx.old) (T.seen tx.new) result
        (IsReadFault (IsHonest (T.seen tx.new) → IsDamagedAccessor (table (T.seen tx.old)) accessor.now)) }
{
    let Some(kept) = tx.get(Kind::Accessor, accessor)? else {
        return Ok(None);
    };
    let holder = read_accessor(&kept)?;
    match holder {
        Holder::Token => Ok(None),
        Holder::WrappingToken => Ok(Some(kept.owner)),
    }
}

/// Drops the response whose wrapping token has the accessor, and answers whether one has. An accessor of a token, and
/// any other text, is passed over. It fails as `Damaged` if the row of the accessor or that of its wrapping token is
/// not one, and also if memory runs out or the storage fails (Vault's documentation, "Response wrapping"; "Tokens",
/// revoke accessor).
pub fn drop_accessor<T: RecordsTx>(alloc: Global, tx: &mut T, accessor: &str) -> Result<bool, Fault>
    ensures rows { IsHonest (T.seen tx.new) → IfOk result (λ dropped.
        DropsAccessor accessor.now (table (T.seen tx.old)) dropped (table (T.seen tx.new))) }
    ensures told { IsHonest (T.seen tx.new) → (b : Broker) → RepresentsWaiting (table (T.seen tx.old)) b
        → OnOk result (Tells of_waiting (table (T.seen tx.new)) (wrapping.drop_accessor b accessor.now)) }
    ensures dropped { IsHonest (T.seen tx.new) → (b : Broker) → RepresentsWaiting (table (T.seen tx.old)) b
        → IfOk result (λ dropped. dropped ≡ is_some (wrapping.find_accessor b accessor.now)) }
    ensures unknown { IsHonest (T.seen tx.new) → IfOk result (λ dropped.
        dropped ≡ false → (T.seen tx.new).rows ≡ (T.seen tx.old).rows) }
    ensures wants { IsHonest (T.seen tx.new) → (b : Broker) → RepresentsWaiting (table (T.seen tx.old)) b
        → IfErr result IsMemoryOrStorage }
    ensures call { IsChange (KeepsOthers of_waiting) (T.seen tx.old) (T.seen tx.new) result
        (IsReadFault (IsHonest (T.seen tx.new) → IsDamagedName (table (T.seen tx.old)) accessor.now)) }
{
    match find_accessor(tx, accessor)? {
        None => Ok(false),
        Some(token) => Ok(take_out(alloc, tx, token.as_str())?.is_some()),
    }
}
