//! The tokens that end: those that do so by themselves, and all below them, by the owners of their rows.

ghost use Rattle.std.specs.Prelude.{◌≡◌, ◌++◌, filter, not, IfOk, OnOk};
ghost use Rattle.broker_types.specs.Fault.{IsMemoryOrStorage};
ghost use Rattle.records.specs.Calls.{IsReading};
ghost use Rattle.records.specs.Transaction.{IsHonest};
ghost use Rattle.token_tree.specs.Starts.{starts};
ghost use Rattle.token_tree.specs.Walks.{children, AreStarted, AreDescending, Descends};

use crate::start::Start;
use broker_types::{Fault, is_same};
use records::{Entry, Kind, RecordsTx};
use std::alloc::{AllocError, Global};

/// Whether a token ends by itself.
fn begins(start: &Start<'_>, entry: &Entry) -> bool
    ensures { result ≡ starts start.now entry.now }
{
    match start {
        Start::Named(token) => is_same(token, entry.key.as_str()),
        Start::DueBy(moment) => match entry.row.due {
            None => false,
            Some(due) => due.seconds() <= *moment,
        },
    }
}

/// The rows of a token's children. A row without owner is a child of nobody.
fn children_of<T: RecordsTx>(alloc: Global, tx: &mut T, token: &str) -> Result<Vec<Entry>, Fault>
    ensures found { IsHonest (T.seen tx.new)
        → IfOk result (λ list. list.items ≡ children (T.seen tx.old).rows token.now) }
    ensures call { IsReading (T.seen tx.old) (T.seen tx.new) result IsMemoryOrStorage }
{
    if token.is_empty() {
        return Ok(Vec::new(alloc));
    }
    tx.by_owner(Kind::Token, token)
}

/// Adds the children that do not end by themselves. Those that do have been there from the start.
fn add_children(
    ended: &mut Vec<Entry>,
    children: Vec<Entry>,
    start: &Start<'_>,
) -> Result<(), AllocError>
    ensures { OnOk result (ended.new.items ≡ ended.old.items ++ filter (λ e. not (starts start.now e)) children.items) }
{
    for child in children {
        if !begins(start, &child) {
            ended.push(child)?;
        }
    }
    Ok(())
}

/// The rows of the tokens that end, each once: those of the start, and then the children of one after the other.
pub(crate) fn descend<T: RecordsTx>(
    alloc: Global,
    tx: &mut T,
    start: &Start<'_>,
    started: Vec<Entry>,
) -> Result<Vec<Entry>, Fault>
    ensures found { IsHonest (T.seen tx.new) → AreStarted (starts start.now) (T.seen tx.old).rows started.items
        → IfOk result (λ list. AreDescending (starts start.now) (T.seen tx.old).rows list.items) }
    ensures any_list { IsHonest (T.seen tx.new)
        → IfOk result (λ list. Descends (T.seen tx.old).rows started.items list.items) }
    ensures call { IsReading (T.seen tx.old) (T.seen tx.new) result IsMemoryOrStorage }
{
    let mut ended = started;
    let mut next = 0;
    while next < ended.len() {
        let children = children_of(alloc, tx, ended[next].key.as_str())?;
        add_children(&mut ended, children, start)?;
        next += 1;
    }
    Ok(ended)
}
