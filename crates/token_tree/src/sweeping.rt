//! Expiry: what has come to its end is removed, with all under it.

ghost use Rattle.std.specs.Prelude.{◌≡◌, filter, IfOk, IfErr, OnOk};
ghost use Rattle.broker_types.specs.Fault.{IsMemoryOrStorage};
ghost use Rattle.records.specs.Calls.{IsChange, IsReadFault, OfEachBroker};
ghost use Rattle.records.specs.declared.kind.Kind.TheVariants as kind;
ghost use Rattle.records.specs.DueRows.{AreDue};
ghost use Rattle.records.specs.Kind.{is_of_kind};
ghost use Rattle.records.specs.Parts.{of_tokens, Tells, KeepsOthers};
ghost use Rattle.records.specs.Table.{table};
ghost use Rattle.records.specs.Transaction.{IsHonest};
ghost use Rattle.token_tree.specs.Ended.{has_come};
ghost use Rattle.token_tree.specs.Endings.{EndsDescent, IsDamagedDescent};
ghost use Rattle.token_tree.specs.Tokens.{RepresentsTokens, AreEnded, without_expired};
ghost use Rattle.token_tree.specs.Walks.{EndsListed, HasDamagedDescent};

use crate::ending::end_all;
use crate::start::Start;
use broker_types::{Fault, Moment, TextBuf};
use records::{Entry, Kind, RecordsTx};
use std::alloc::{AllocError, Global};

fn is_token(entry: &Entry) -> bool
    ensures { result ≡ is_of_kind kind.Token entry.now.0 }
{
    entry.kind.number() == Kind::Token.number()
}

/// Copies of the entries that are rows of tokens.
fn tokens_among(alloc: Global, entries: &[Entry]) -> Result<Vec<Entry>, AllocError>
    ensures { IfOk result (λ list. list.items ≡ filter (λ e. is_of_kind kind.Token e.0) entries.now) }
{
    let mut list = Vec::new(alloc);
    for entry in entries {
        if is_token(entry) {
            list.push(entry.copied(alloc)?)?;
        }
    }
    Ok(list)
}

/// As `sweep_tokens`, from the list of all rows that are due, so that one list serves the sweeps of all kinds. Whatever
/// the list is, its tokens go and tokens below them, and no others.
pub fn end_due<T: RecordsTx>(
    alloc: Global,
    tx: &mut T,
    due: &[Entry],
    clock: Moment,
) -> Result<Vec<TextBuf>, Fault>
    ensures any_list { IsHonest (T.seen tx.new) → IfOk result (λ list.
        EndsListed (filter (λ e. is_of_kind kind.Token e.0) due.now) (T.seen tx.old).rows list.items
        (T.seen tx.new).rows) }
    ensures rows { IsHonest (T.seen tx.new) → AreDue (T.seen tx.old).rows clock due.now → IfOk result (λ list.
        EndsDescent (has_come clock) (T.seen tx.old).rows list.items (T.seen tx.new).rows) }
    ensures told { OfEachBroker RepresentsTokens (T.seen tx.old) (T.seen tx.new) (λ b.
        AreDue (T.seen tx.old).rows clock due.now
        → OnOk result (Tells of_tokens (table (T.seen tx.new)) (without_expired b clock))) }
    ensures ended { OfEachBroker RepresentsTokens (T.seen tx.old) (T.seen tx.new) (λ b.
        AreDue (T.seen tx.old).rows clock due.now
        → IfOk result (λ list. AreEnded b (without_expired b clock) list.items)) }
    ensures wants { OfEachBroker RepresentsTokens (T.seen tx.old) (T.seen tx.new) (λ b.
        AreDue (T.seen tx.old).rows clock due.now → IfErr result IsMemoryOrStorage) }
    ensures call { IsChange (KeepsOthers of_tokens) (T.seen tx.old) (T.seen tx.new) result
        (IsReadFault (IsHonest (T.seen tx.new) → AreDue (T.seen tx.old).rows clock due.now
        → HasDamagedDescent (has_come clock) (T.seen tx.old).rows)) }
{
    let started = tokens_among(alloc, due)?;
    end_all(alloc, tx, &Start::DueBy(clock.seconds()), started)
}

/// Ends the tokens whose end has come by the clock, with all under them, and answers the tokens that ended, each once.
/// It fails as `Damaged` if the row of a token that ends is not one of a token, and also if memory runs out or the
/// storage fails (Vault's documentation, "Lease, renew, and revoke").
pub fn sweep_tokens<T: RecordsTx>(
    alloc: Global,
    tx: &mut T,
    clock: Moment,
) -> Result<Vec<TextBuf>, Fault>
    ensures rows { IsHonest (T.seen tx.new) → IfOk result (λ list.
        EndsDescent (has_come clock) (T.seen tx.old).rows list.items (T.seen tx.new).rows) }
    ensures told { OfEachBroker RepresentsTokens (T.seen tx.old) (T.seen tx.new) (λ b.
        OnOk result (Tells of_tokens (table (T.seen tx.new)) (without_expired b clock))) }
    ensures ended { OfEachBroker RepresentsTokens (T.seen tx.old) (T.seen tx.new) (λ b.
        IfOk result (λ list. AreEnded b (without_expired b clock) list.items)) }
    ensures wants { OfEachBroker RepresentsTokens (T.seen tx.old) (T.seen tx.new)
        (λ b. IfErr result IsMemoryOrStorage) }
    ensures call { IsChange (KeepsOthers of_tokens) (T.seen tx.old) (T.seen tx.new) result
        (IsReadFault (IsHonest (T.seen tx.new) → IsDamagedDescent (has_come clock) (T.seen tx.old).rows)) }
{
    let due = tx.due_until(clock)?;
    end_due(alloc, tx, &due, clock)
}
