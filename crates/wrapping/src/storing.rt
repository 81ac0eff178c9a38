//! Responses that wait, stored and moved.

ghost use Rattle.std.specs.Prelude.{◌≡◌, ◌<◌, ◌^◌, None, length, option_map, IfOk, IfErr, OnOk};
ghost use Rattle.broker_types.specs.Broker.{Broker};
ghost use Rattle.broker_types.specs.Evolves.{IsNew};
ghost use Rattle.broker_types.specs.Fault.{IsMemoryOrStorage};
ghost use Rattle.broker_types.specs.Map.{get};
ghost use Rattle.broker_types.specs.IdentifierPlaces.{token_identifier, AllUsed};
ghost use Rattle.records.specs.Calls.{IsChange, IsReadFault};
ghost use Rattle.records.specs.Parts.{of_waiting, Tells, KeepsOthers};
ghost use Rattle.records.specs.Ranges.{IsWaitingInRange};
ghost use Rattle.records.specs.Table.{table};
ghost use Rattle.records.specs.Transaction.{IsHonest};
ghost use Rattle.wrapping.specs.WaitingRows.{RepresentsWaiting, IsDamagedWaiting, Rewraps, with_response};
ghost use Rattle.wrapping.specs.Wrapping as wrapping;
ghost use Rattle.wrapping.specs.Wrapping.{moved, with_waiting};

use crate::dropping::take_out;
use crate::waiting_response::WaitingResponse;
use broker_types::{Fault, Moment, TextBuf};
use records::{Holder, Kind, RecordsTx, WaitingRecord, write_accessor, write_waiting};
use std::alloc::Global;

/// Stores a response under a wrapping token. Neither its identifier nor that of its accessor was given out before. It
/// fails only if memory runs out or the storage fails (Vault's documentation, "Response wrapping").
pub fn store<T: RecordsTx>(
    alloc: Global,
    tx: &mut T,
    token: &str,
    response: &WaitingRecord<'_>,
) -> Result<(), Fault>
    requires { IsWaitingInRange response.now }
    ensures rows { IsHonest (T.seen tx.new) → OnOk result (table (T.seen tx.new)
        ≡ with_response (table (T.seen tx.old)) token.now response.now) }
    ensures told { IsHonest (T.seen tx.new) → (b : Broker) → RepresentsWaiting (table (T.seen tx.old)) b
        → AllUsed b → IsNew b (token_identifier token.now) → IsNew b response.now.accessor
        → OnOk result (Tells of_waiting (table (T.seen tx.new)) (with_waiting b token.now response.now)) }
    ensures call { IsChange (KeepsOthers of_waiting) (T.seen tx.old) (T.seen tx.new) result IsMemoryOrStorage }
{
    let row = write_waiting(alloc, response)?;
    tx.put(Kind::Waiting, token, row)?;
    let accessor_row = write_accessor(alloc, token, Holder::WrappingToken)?;
    tx.put(Kind::Accessor, response.accessor, accessor_row)
}

/// Moves the response that waits under a wrapping token to a new wrapping token with a new accessor, made at the
/// clock, and answers it as it waits there. Its path, its length of time, its origin and its text stay. If none waits
/// under the token, nothing changes. It fails as `Damaged` if the row of the wrapping token is not one, and also if
/// memory runs out or the storage fails (Vault's documentation, "Response wrapping", token rewrapping).
pub fn rewrap<T: RecordsTx>(
    alloc: Global,
    tx: &mut T,
    token: &str,
    new_token: &str,
    new_accessor: &str,
    clock: Moment,
) -> Result<Option<WaitingResponse>, Fault>
    requires { length new_accessor.now < 2 ^ 32 }
    ensures rows { IsHonest (T.seen tx.new) → IfOk result (λ found.
        Rewraps token.now new_token.now new_accessor.now clock (table (T.seen tx.old)) found (table (T.seen tx.new))) }
    ensures told { IsHonest (T.seen tx.new) → (b : Broker) → RepresentsWaiting (table (T.seen tx.old)) b
        → AllUsed b → IsNew b (token_identifier new_token.now) → IsNew b new_accessor.now
        → OnOk result (Tells of_waiting (table (T.seen tx.new))
        (wrapping.rewrap b token.now new_token.now new_accessor.now clock)) }
    ensures moved { IsHonest (T.seen tx.new) → (b : Broker) → RepresentsWaiting (table (T.seen tx.old)) b
        → IfOk result (λ found. found ≡ option_map (moved new_accessor.now clock) (get b.waiting token.now)) }
    ensures unknown { IsHonest (T.seen tx.new) → (b : Broker) → RepresentsWaiting (table (T.seen tx.old)) b
        → get b.waiting token.now ≡ None
        → IfOk result (λ found. (found ≡ None) × ((T.seen tx.new).rows ≡ (T.seen tx.old).rows)) }
    ensures wants { IsHonest (T.seen tx.new) → (b : Broker) → RepresentsWaiting (table (T.seen tx.old)) b
        → IfErr result IsMemoryOrStorage }
    ensures call { IsChange (KeepsOthers of_waiting) (T.seen tx.old) (T.seen tx.new) result
        (IsReadFault (IsHonest (T.seen tx.new) → IsDamagedWaiting (table (T.seen tx.old)) token.now)) }
{
    let Some(response) = take_out(alloc, tx, token)? else {
        return Ok(None);
    };
    let accessor = TextBuf::copied(alloc, new_accessor)?;
    let moved = response.moved(accessor, clock);
    store(alloc, tx, new_token, &moved.as_record())?;
    Ok(Some(moved))
}
