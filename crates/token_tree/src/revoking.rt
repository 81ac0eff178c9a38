//! Revocation: a token ends with all under it.

ghost use Rattle.std.specs.Prelude.{[], ◌≡◌, None, IfOk, IfErr, OnOk};
ghost use Rattle.broker_types.specs.Broker as broker;
ghost use Rattle.broker_types.specs.Fault.{IsMemoryOrStorage};
ghost use Rattle.broker_types.specs.Map.{get};
ghost use Rattle.records.specs.Calls.{IsReading, IsChange, IsReadFault, OfEachBroker};
ghost use Rattle.records.specs.Parts.{of_tokens, Tells, KeepsOthers};
ghost use Rattle.records.specs.Table.{table};
ghost use Rattle.records.specs.Transaction.{IsHonest};
ghost use Rattle.token_tree.specs.Ended.{is_named};
ghost use Rattle.token_tree.specs.Endings.{EndsDescent, IsDamagedDescent};
ghost use Rattle.token_tree.specs.Tokens.{RepresentsTokens, AreEnded};
ghost use Rattle.token_tree.specs.Walks.{AreStarted};

use crate::ending::end_all;
use crate::start::Start;
use broker_types::{Fault, TextBuf};
use records::{Entry, Kind, RecordsTx};
use std::alloc::Global;

/// The row of the token, if there is one.
fn named<T: RecordsTx>(alloc: Global, tx: &mut T, token: &str) -> Result<Vec<Entry>, Fault>
    ensures found { IsHonest (T.seen tx.new)
        → IfOk result (λ list. AreStarted (is_named token.now) (T.seen tx.old).rows list.items) }
    ensures call { IsReading (T.seen tx.old) (T.seen tx.new) result IsMemoryOrStorage }
{
    let Some(row) = tx.get(Kind::Token, token)? else {
        return Ok(Vec::new(alloc));
    };
    let key = TextBuf::copied(alloc, token)?;
    let entry = Entry {
        kind: Kind::Token,
        key,
        row,
    };
    Ok(vec![in alloc; entry]?)
}

/// Ends a token with all under it, and answers the tokens that ended, each once. An unknown text ends none, and nothing
/// changes. It fails as `Damaged` if the row of a token that ends is not one of a token, and also if memory runs out or
/// the storage fails (Vault's documentation, "Tokens", token hierarchies).
pub fn revoke<T: RecordsTx>(alloc: Global, tx: &mut T, token: &str) -> Result<Vec<TextBuf>, Fault>
    ensures rows { IsHonest (T.seen tx.new) → IfOk result (λ list.
        EndsDescent (is_named token.now) (T.seen tx.old).rows list.items (T.seen tx.new).rows) }
    ensures told { OfEachBroker RepresentsTokens (T.seen tx.old) (T.seen tx.new) (λ b.
        OnOk result (Tells of_tokens (table (T.seen tx.new)) (broker.revoke b token.now))) }
    ensures ended { OfEachBroker RepresentsTokens (T.seen tx.old) (T.seen tx.new) (λ b.
        IfOk result (λ list. AreEnded b (broker.revoke b token.now) list.items)) }
    ensures unknown { OfEachBroker RepresentsTokens (T.seen tx.old) (T.seen tx.new) (λ b.
        get b.tokens token.now ≡ None
        → IfOk result (λ list. (list.items ≡ []) × ((T.seen tx.new).rows ≡ (T.seen tx.old).rows))) }
    ensures wants { OfEachBroker RepresentsTokens (T.seen tx.old) (T.seen tx.new)
        (λ b. IfErr result IsMemoryOrStorage) }
    ensures call { IsChange (KeepsOthers of_tokens) (T.seen tx.old) (T.seen tx.new) result
        (IsReadFault (IsHonest (T.seen tx.new) → IsDamagedDescent (is_named token.now) (T.seen tx.old).rows)) }
{
    let started = named(alloc, tx, token)?;
    end_all(alloc, tx, &Start::Named(token), started)
}
