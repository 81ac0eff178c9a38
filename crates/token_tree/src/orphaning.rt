//! Revocation of one token, whose children have no parent then.

ghost use Rattle.std.specs.Prelude.{[], ◌≡◌, None, IfOk, IfErr, OnOk};
ghost use Rattle.broker_types.specs.Broker as broker;
ghost use Rattle.broker_types.specs.Fault.{IsMemoryOrStorage};
ghost use Rattle.broker_types.specs.Map.{get};
ghost use Rattle.records.specs.Calls.{IsChange, IsReadFault, OfEachBroker, IsCall};
ghost use Rattle.records.specs.Parts.{of_tokens, Tells, KeepsOthers};
ghost use Rattle.records.specs.Table.{table};
ghost use Rattle.records.specs.Transaction.{IsHonest};
ghost use Rattle.token_tree.specs.Endings.{EndsAlone};
ghost use Rattle.token_tree.specs.Orphaned.{without_parent};
ghost use Rattle.token_tree.specs.TokenRows.{IsDamagedToken};
ghost use Rattle.token_tree.specs.Tokens.{RepresentsTokens, AreEnded};

use crate::ending::remove_token;
use broker_types::{Fault, TextBuf, is_same};
use records::{Entry, Kind, RecordsTx};
use std::alloc::Global;

/// Ends a token alone: its children have no parent then. It answers the tokens that ended: this one, or none if the
/// text is unknown, and then nothing changes. It fails as `Damaged` if its row is not one of a token, and also if
/// memory runs out or the storage fails (Vault's documentation, "Tokens", orphan tokens).
pub fn revoke_one<T: RecordsTx>(
    alloc: Global,
    tx: &mut T,
    token: &str,
) -> Result<Vec<TextBuf>, Fault>
    ensures rows { IsHonest (T.seen tx.new) → IfOk result (λ list.
        EndsAlone token.now (T.seen tx.old).rows list.items (T.seen tx.new).rows) }
    ensures told { OfEachBroker RepresentsTokens (T.seen tx.old) (T.seen tx.new) (λ b.
        OnOk result (Tells of_tokens (table (T.seen tx.new)) (broker.revoke_orphan b token.now))) }
    ensures ended { OfEachBroker RepresentsTokens (T.seen tx.old) (T.seen tx.new) (λ b.
        IfOk result (λ list. AreEnded b (broker.revoke_orphan b token.now) list.items)) }
    ensures unknown { OfEachBroker RepresentsTokens (T.seen tx.old) (T.seen tx.new) (λ b.
        get b.tokens token.now ≡ None
        → IfOk result (λ list. (list.items ≡ []) × ((T.seen tx.new).rows ≡ (T.seen tx.old).rows))) }
    ensures wants { OfEachBroker RepresentsTokens (T.seen tx.old) (T.seen tx.new)
        (λ b. IfErr result IsMemoryOrStorage) }
    ensures call { IsChange (KeepsOthers of_tokens) (T.seen tx.old) (T.seen tx.new) result
        (IsReadFault (IsHonest (T.seen tx.new) → IsDamagedToken (table (T.seen tx.old)) token.now)) }
{
    let Some(row) = tx.get(Kind::Token, token)? else {
        return Ok(Vec::new(alloc));
    };
    let children = tx.by_owner(Kind::Token, token)?;
    let entry = Entry {
        kind: Kind::Token,
        key: TextBuf::copied(alloc, token)?,
        row,
    };
    remove_token(alloc, tx, &entry)?;
    orphan_children(alloc, tx, &children, token)?;
    Ok(vec![in alloc; entry.key]?)
}

/// Takes the parent out of the rows of a token's children.
fn orphan_children<T: RecordsTx>(
    alloc: Global,
    tx: &mut T,
    entries: &[Entry],
    token: &str,
) -> Result<(), Fault>
    ensures rows { IsHonest (T.seen tx.new)
        → OnOk result ((T.seen tx.new).rows ≡ without_parent token.now entries.now (T.seen tx.old).rows) }
    ensures call { IsCall (T.seen tx.old) (T.seen tx.new) result IsMemoryOrStorage }
{
    for entry in entries {
        let key = entry.key.as_str();
        if is_same(entry.row.owner.as_str(), token) && !is_same(key, token) {
            let mut row = entry.row.copied(alloc)?;
            row.owner = TextBuf::new(String::new(alloc));
            tx.put(Kind::Token, key, row)?;
        }
    }
    Ok(())
}
