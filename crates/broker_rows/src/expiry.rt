//! The clock of a request, and what has ended by it.

ghost use Rattle.std.specs.Prelude.{◌≡◌, ⊤, max, None, IfOk, IfErr};
ghost use Rattle.broker_types.specs.Broker.{Broker, at_moment};
ghost use Rattle.broker_types.specs.Fault.{IsMemoryOrStorage};
ghost use Rattle.records.specs.Calls.{IsCall};
ghost use Rattle.records.specs.ClockLaws.{with_clock};
ghost use Rattle.records.specs.Transaction.{IsHonest};
ghost use Rattle.broker_rows.specs.ClockRow.{NeedsClock};
ghost use Rattle.broker_rows.specs.Representing.{Represents};

use crate::ending::leave_nothing;
use broker_types::{Fault, Moment};
use records::{Kind, RecordsTx, read_clock, write_clock};
use std::alloc::Global;

/// Moves the clock on to the moment, unless it is later already, and answers it. Each token that has come to its end by
/// then ends with all below it, and so does each lease; what belonged to the tokens goes (Vault's documentation,
/// "Tokens", and "Lease, renew, and revoke"). So does each response whose wrapping token has come to its end
/// ("Response wrapping"). It is asked once what is due, for all of these. It fails with `BadStart` if the clock has no
/// row, with `Memory` if memory runs out, with `Storage` if the transaction's storage failed, and with `Damaged` if a
/// row that it asks for cannot be read.
pub fn expire<T: RecordsTx>(alloc: Global, tx: &mut T, moment: Moment) -> Result<Moment, Fault>
    ensures told { IsHonest (T.seen tx.new) → (b : Broker) → Represents None (T.seen tx.old).rows b
        → IfOk result (λ now. (now ≡ (at_moment b moment).clock)
        × Represents None (T.seen tx.new).rows (at_moment b moment)) }
    ensures wants { IsHonest (T.seen tx.new) → (b : Broker) → Represents None (T.seen tx.old).rows b
        → IfErr result IsMemoryOrStorage }
    ensures clock { IsHonest (T.seen tx.new) → NeedsClock (T.seen tx.old).rows result }
    ensures call { IsCall (T.seen tx.old) (T.seen tx.new) result (λ _. ⊤) }
{
    let now = advance_clock(alloc, tx, moment)?;
    let due = tx.due_until(now)?;
    let ended = token_tree::end_due(alloc, tx, &due, now)?;
    leases::end_due(tx, &due)?;
    leave_nothing(alloc, tx, &ended)?;
    wrapping::drop_due(tx, &due)?;
    Ok(now)
}

/// Moves the clock on to the moment, unless it is later already, and answers it. Its row is written only if it moves,
/// so that a request which changes nothing else writes nothing.
fn advance_clock<T: RecordsTx>(alloc: Global, tx: &mut T, moment: Moment) -> Result<Moment, Fault>
    ensures told { IsHonest (T.seen tx.new) → (b : Broker) → Represents None (T.seen tx.old).rows b
        → IfOk result (λ now. (now ≡ max b.clock moment) × Represents None (T.seen tx.new).rows (with_clock b now)) }
    ensures wants { IsHonest (T.seen tx.new) → (b : Broker) → Represents None (T.seen tx.old).rows b
        → IfErr result IsMemoryOrStorage }
    ensures clock { IsHonest (T.seen tx.new) → NeedsClock (T.seen tx.old).rows result }
    ensures call { IsCall (T.seen tx.old) (T.seen tx.new) result (λ _. ⊤) }
{
    let Some(kept) = tx.get(Kind::Clock, "")? else {
        return Err(Fault::BadStart);
    };
    let clock = read_clock(&kept)?;
    let now = clock.later(moment);
    if now.seconds() == clock.seconds() {
        return Ok(now);
    }
    let row = write_clock(alloc, now)?;
    tx.put(Kind::Clock, "", row)?;
    Ok(now)
}
