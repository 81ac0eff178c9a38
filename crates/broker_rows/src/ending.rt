//! What goes with tokens that ended, and the end of a caller that has spent its last use.

ghost use Rattle.std.specs.Prelude.{◌≡◌, false, Option, None, Some, IfOk, IfErr, OnOk};
ghost use Rattle.std.specs.Option.{option_map_or};
ghost use Rattle.broker_types.specs.Broker.{Broker};
ghost use Rattle.broker_types.specs.Fault.{IsMemoryOrStorage, IsNotBadStart};
ghost use Rattle.broker_types.specs.Map.{get};
ghost use Rattle.broker_types.specs.Spending as spending;
ghost use Rattle.broker_types.specs.Text.{Text};
ghost use Rattle.broker_types.specs.Token.{Tokens};
ghost use Rattle.cubbyhole.specs.Laws.{without_cubbyholes};
ghost use Rattle.records.specs.Calls.{IsCall, IsReading};
ghost use Rattle.records.specs.Table.{table_of};
ghost use Rattle.records.specs.Transaction.{IsHonest};
ghost use Rattle.broker_rows.specs.Ending.{LeavesNothing};
ghost use Rattle.broker_rows.specs.Left.{HaveEnded};
ghost use Rattle.broker_rows.specs.Representing.{Represents};

use broker_types::{Fault, TextBuf};
use cubbyhole::{drop_owner, ended_tokens_leave_nothing};
use leases::{drop_owners, leases_go_with_tokens};
use records::RecordsTx;
use std::alloc::Global;
use token_tree::{find, revoke};

/// Drops what belonged to tokens that ended: their leases (Vault's documentation, "Lease, renew, and revoke") and their
/// cubbyholes ("Cubbyhole secrets engine"). It fails with `Memory` if memory runs out, with `Storage` if the
/// transaction's storage failed, and with `Damaged` if the row of one of the leases is not one of a lease.
pub fn leave_nothing<T: RecordsTx>(
    alloc: Global,
    tx: &mut T,
    ended: &[TextBuf],
) -> Result<(), Fault>
    ensures told { IsHonest (T.seen tx.new) → (who after : Option Text) (b : Broker) (us : Tokens)
        → HaveEnded who after b us ended.now (T.seen tx.old).rows
        → OnOk result (Represents after (T.seen tx.new).rows (record b { tokens = us })) }

    // Whatever the rows are: no others go.
    ensures rows { IsHonest (T.seen tx.new)
        → OnOk result (LeavesNothing ended.now (T.seen tx.old).rows (T.seen tx.new).rows) }
    ensures wants { IsHonest (T.seen tx.new) → (who after : Option Text) (b : Broker) (us : Tokens)
        → HaveEnded who after b us ended.now (T.seen tx.old).rows → IfErr result IsMemoryOrStorage }
    ensures call { IsCall (T.seen tx.old) (T.seen tx.new) result IsNotBadStart }
{
    ended_tokens_leave_nothing();
    leases_go_with_tokens();
    drop_owners(tx, ended)?;
    drop_cubbyholes(alloc, tx, ended)
}

/// Drops the cubbyholes of tokens that ended, one after another.
fn drop_cubbyholes<T: RecordsTx>(alloc: Global, tx: &mut T, ended: &[TextBuf]) -> Result<(), Fault>
    ensures rows { IsHonest (T.seen tx.new) → OnOk result (table_of (T.seen tx.new).rows
        ≡ without_cubbyholes (table_of (T.seen tx.old).rows) ended.now) }
    ensures call { IsCall (T.seen tx.old) (T.seen tx.new) result IsMemoryOrStorage }
{
    for token in ended {
        drop_owner(alloc, tx, token.as_str())?;
    }
    Ok(())
}

/// Ends a caller that has spent its last use, with all below it and all that belonged to them (Vault's documentation,
/// "Tokens"). It fails with `Memory` if memory runs out, with `Storage` if the transaction's storage failed, and with
/// `Damaged` if a row that it asks for cannot be read.
pub fn end_spent<T: RecordsTx>(alloc: Global, tx: &mut T, caller: &str) -> Result<(), Fault>
    ensures told { IsHonest (T.seen tx.new) → (b : Broker) → Represents (Some caller.now) (T.seen tx.old).rows b
        → OnOk result (Represents None (T.seen tx.new).rows (spending.end_spent b (Some caller.now))) }
    ensures wants { IsHonest (T.seen tx.new) → (b : Broker) → Represents (Some caller.now) (T.seen tx.old).rows b
        → IfErr result IsMemoryOrStorage }
    ensures call { IsCall (T.seen tx.old) (T.seen tx.new) result IsNotBadStart }
{
    if !is_spent(alloc, tx, caller)? {
        return Ok(());
    }
    let ended = revoke(alloc, tx, caller)?;
    leave_nothing(alloc, tx, &ended)
}

/// Whether the caller has spent its last use.
fn is_spent<T: RecordsTx>(alloc: Global, tx: &mut T, caller: &str) -> Result<bool, Fault>
    ensures told { IsHonest (T.seen tx.new) → (b : Broker) → Represents (Some caller.now) (T.seen tx.old).rows b
        → IfOk result (λ v. v ≡ option_map_or spending.is_spent (get b.tokens caller.now) false) }
    ensures wants { IsHonest (T.seen tx.new) → (b : Broker) → Represents (Some caller.now) (T.seen tx.old).rows b
        → IfErr result IsMemoryOrStorage }
    ensures call { IsReading (T.seen tx.old) (T.seen tx.new) result IsNotBadStart }
{
    let Some(token) = find(alloc, tx, caller)? else {
        return Ok(false);
    };
    match token.uses_left {
        None => Ok(false),
        Some(uses) => Ok(uses == 0),
    }
}
