//! Tokens revoked alone, one after another.

ghost use Rattle.std.specs.Prelude.{◌≡◌, ⊤, None, length, IfOk, IfErr, OnOk};
ghost use Rattle.broker_types.specs.Broker as broker;
ghost use Rattle.broker_types.specs.Broker.{Broker};
ghost use Rattle.broker_types.specs.Fault.{IsMemoryOrStorage};
ghost use Rattle.records.specs.Calls.{IsCall};
ghost use Rattle.records.specs.Transaction.{IsHonest};
ghost use Rattle.broker_rows.specs.Representing.{Represents};
ghost use Rattle.maintenance.specs.Choosing.{is_chosen, tokens_where, without_where};
ghost use Rattle.maintenance.specs.Maintained.{revoked_each};

use crate::choosing::{Chosen, chosen_tokens};
use broker_rows::leave_nothing;
use broker_types::{Fault, TextBuf};
use records::RecordsTx;
use std::alloc::Global;
use token_tree::revoke_one;

/// Revokes the tokens that are chosen, each alone, with its cubbyhole and its leases, and answers how many they were;
/// their children live on, and have no parent then (Vault's documentation, "Tokens", orphan tokens). It fails with
/// `Memory` if memory runs out, with `Storage` if the transaction's storage failed, and with `Damaged` if a row that it
/// asks for cannot be read.
pub fn revoke_chosen<T: RecordsTx>(
    alloc: Global,
    tx: &mut T,
    chosen: &Chosen<'_>,
) -> Result<usize, Fault>
    ensures told { IsHonest (T.seen tx.new) → (b : Broker) → Represents None (T.seen tx.old).rows b
        → OnOk result (Represents None (T.seen tx.new).rows (without_where (is_chosen chosen.now) b)) }
    ensures counted { IsHonest (T.seen tx.new) → (b : Broker) → Represents None (T.seen tx.old).rows b
        → IfOk result (λ number. number ≡ length (tokens_where (is_chosen chosen.now) b)) }
    ensures wants { IsHonest (T.seen tx.new) → (b : Broker) → Represents None (T.seen tx.old).rows b
        → IfErr result IsMemoryOrStorage }
    ensures call { IsCall (T.seen tx.old) (T.seen tx.new) result (λ _. ⊤) }
{
    let tokens = chosen_tokens(alloc, tx, chosen)?;
    revoke_each(alloc, tx, &tokens)?;
    Ok(tokens.len())
}

/// Revokes the tokens, each alone.
fn revoke_each<T: RecordsTx>(alloc: Global, tx: &mut T, tokens: &[TextBuf]) -> Result<(), Fault>
    ensures told { IsHonest (T.seen tx.new) → (b : Broker) → Represents None (T.seen tx.old).rows b
        → OnOk result (Represents None (T.seen tx.new).rows (revoked_each tokens.now b)) }
    ensures wants { IsHonest (T.seen tx.new) → (b : Broker) → Represents None (T.seen tx.old).rows b
        → IfErr result IsMemoryOrStorage }
    ensures call { IsCall (T.seen tx.old) (T.seen tx.new) result (λ _. ⊤) }
{
    for token in tokens {
        revoke_alone(alloc, tx, token.as_str())?;
    }
    Ok(())
}

/// Revokes a token alone, with what belonged to it.
fn revoke_alone<T: RecordsTx>(alloc: Global, tx: &mut T, token: &str) -> Result<(), Fault>
    ensures told { IsHonest (T.seen tx.new) → (b : Broker) → Represents None (T.seen tx.old).rows b
        → OnOk result (Represents None (T.seen tx.new).rows (broker.revoke_orphan b token.now)) }
    ensures wants { IsHonest (T.seen tx.new) → (b : Broker) → Represents None (T.seen tx.old).rows b
        → IfErr result IsMemoryOrStorage }
    ensures call { IsCall (T.seen tx.old) (T.seen tx.new) result (λ _. ⊤) }
{
    let ended = revoke_one(alloc, tx, token)?;
    leave_nothing(alloc, tx, &ended)
}
