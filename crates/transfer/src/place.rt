//! Where a row stands, by which rows are in order.

ghost use Rattle.std.specs.Prelude.{◌≡◌, IfOk, OnOk, true};
ghost use Rattle.broker_types.specs.Fault.{IsMemoryOrStorage};
ghost use Rattle.records.specs.Calls.{IsCall};
ghost use Rattle.records.specs.Transaction.{IsHonest};
ghost use Rattle.std.specs.FinMap as map;
ghost use Rattle.transfer.specs.Order.{IsAfter};

use broker_types::{Fault, TextBuf};
use records::{Entry, Kind, RecordsTx};
use std::alloc::{AllocError, Global};
use std::marker::Model;

/// The kind and the key of a row, which contracts see as the pair of these.
#[derive(Drop)]
pub(crate) struct Place {
    kind: Kind,
    key: TextBuf,
}

impl Model for Place {
    ghost use Rattle.records.specs.Kind.{RowKey};

    ghost Value = { RowKey };

    ghost view = { λ p. (p.kind, p.key) };
}

/// Whether a row is after the last one, if there is one.
pub(crate) fn is_after(last: &Option<Place>, entry: &Entry) -> bool
    ensures { result ≡ true → IsAfter last.now entry.now.0 }
{
    match last {
        None => true,
        Some(last) => is_above(last, entry.kind, entry.key.as_str()),
    }
}

/// Whether a kind and a key are after others.
fn is_above(last: &Place, kind: Kind, key: &str) -> bool
    ensures { result ≡ true → IsAfter (Some last.now) (kind, key.now) }
{
    let (before, now) = (last.kind.number(), kind.number());
    before < now || (before == now && last.key.as_str() < key)
}

/// Puts a row, and answers where.
pub(crate) fn put<T: RecordsTx>(tx: &mut T, entry: Entry) -> Result<Place, Fault>
    ensures rows { IsHonest (T.seen tx.new)
        → OnOk result ((T.seen tx.new).rows ≡ map.insert (T.seen tx.old).rows entry.0 entry.1) }
    ensures place { IfOk result (λ place. place ≡ entry.0) }
    ensures call { IsCall (T.seen tx.old) (T.seen tx.new) result IsMemoryOrStorage }
{
    let Entry { kind, key, row } = entry;
    tx.put(kind, key.as_str(), row)?;
    Ok(Place { kind, key })
}
