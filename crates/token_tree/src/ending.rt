//! The rows of tokens that end are taken out.

ghost use Rattle.std.specs.Prelude.{◌≡◌, map, IfOk, OnOk};
ghost use Rattle.std.specs.List.{AllByRecursion};
ghost use Rattle.records.specs.Calls.{IsCall, IsChange, IsReadFault};
ghost use Rattle.records.specs.Parts.{of_tokens, KeepsOthers};
ghost use Rattle.records.specs.Transaction.{IsHonest};
ghost use Rattle.token_tree.specs.Endings.{EndsDescent};
ghost use Rattle.token_tree.specs.Removed.{without_token, without_each, IsTokenRow};
ghost use Rattle.token_tree.specs.Starts.{starts};
ghost use Rattle.token_tree.specs.Walks.{AreStarted, EndsListed, HasDamagedDescent};

use crate::descending::descend;
use crate::start::Start;
use broker_types::{Fault, TextBuf};
use records::{Entry, Kind, RecordsTx, read_token};
use std::alloc::{AllocError, Global};

/// Takes out the row of a token and that of its accessor.
pub(crate) fn remove_token<T: RecordsTx>(
    alloc: Global,
    tx: &mut T,
    entry: &Entry,
) -> Result<(), Fault>
    ensures rows { IsHonest (T.seen tx.new)
        → OnOk result ((T.seen tx.new).rows ≡ without_token (T.seen tx.old).rows entry.now) }
    ensures readable { OnOk result (IsTokenRow entry.now) }
    ensures call { IsCall (T.seen tx.old) (T.seen tx.new) result (IsReadFault (IsTokenRow entry.now → ⊥)) }
{
    let token = read_token(alloc, &entry.row)?;
    tx.remove(Kind::Accessor, token.accessor.as_str())?;
    tx.remove(Kind::Token, entry.key.as_str())
}

/// Takes out the rows of the tokens, and those of their accessors.
fn remove_tokens<T: RecordsTx>(alloc: Global, tx: &mut T, entries: &[Entry]) -> Result<(), Fault>
    ensures rows { IsHonest (T.seen tx.new)
        → OnOk result ((T.seen tx.new).rows ≡ without_each entries.now (T.seen tx.old).rows) }
    ensures readable { OnOk result (AllByRecursion IsTokenRow entries.now) }
    ensures call { IsCall (T.seen tx.old) (T.seen tx.new) result
        (IsReadFault (AllByRecursion IsTokenRow entries.now → ⊥)) }
{
    for entry in entries {
        remove_token(alloc, tx, entry)?;
    }
    Ok(())
}

/// The texts of the tokens.
fn texts_of(alloc: Global, entries: &[Entry]) -> Result<Vec<TextBuf>, AllocError>
    ensures { IfOk result (λ texts. texts.items ≡ map (λ e. e.0.1) entries.now) }
{
    let mut texts = Vec::new(alloc);
    for entry in entries {
        texts.push(TextBuf::copied(alloc, entry.key.as_str())?)?;
    }
    Ok(texts)
}

/// Ends the tokens of the start with all under them, and answers the tokens that ended, each once.
pub(crate) fn end_all<T: RecordsTx>(
    alloc: Global,
    tx: &mut T,
    start: &Start<'_>,
    started: Vec<Entry>,
) -> Result<Vec<TextBuf>, Fault>
    ensures rows { IsHonest (T.seen tx.new) → AreStarted (starts start.now) (T.seen tx.old).rows started.items
        → IfOk result (λ list.
        EndsDescent (starts start.now) (T.seen tx.old).rows list.items (T.seen tx.new).rows) }
    ensures any_list { IsHonest (T.seen tx.new) → IfOk result (λ list.
        EndsListed started.items (T.seen tx.old).rows list.items (T.seen tx.new).rows) }
    ensures call { IsChange (KeepsOthers of_tokens) (T.seen tx.old) (T.seen tx.new) result
        (IsReadFault (IsHonest (T.seen tx.new) → AreStarted (starts start.now) (T.seen tx.old).rows started.items
        → HasDamagedDescent (starts start.now) (T.seen tx.old).rows)) }
{
    let ended = descend(alloc, tx, start, started)?;
    let texts = texts_of(alloc, &ended)?;
    remove_tokens(alloc, tx, &ended)?;
    Ok(texts)
}
