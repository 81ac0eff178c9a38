//! Whether there is a row.

ghost use Rattle.std.specs.Prelude.{◌≡◌, ◌↔◌, IsTrue, IfOk};
ghost use Rattle.std.specs.FinMap as map;
ghost use Rattle.broker_types.specs.Fault.{IsMemoryOrStorage};
ghost use Rattle.records.specs.Calls.{IsReading};
ghost use Rattle.records.specs.Transaction.{IsHonest, rows_under};

use broker_types::Fault;
use records::{Kind, RecordsTx};

/// The kinds of rows, in their order. The first is that of the clock, which each store has that was started.
const KINDS: [Kind; 13] = [
    Kind::Clock,
    Kind::Used,
    Kind::Token,
    Kind::Accessor,
    Kind::Cubby,
    Kind::Lease,
    Kind::Credential,
    Kind::KvKey,
    Kind::KvVersion,
    Kind::Waiting,
    Kind::Mount,
    Kind::Policy,
    Kind::Role,
];

/// Whether a transaction shows no row of any kind. It asks for all rows of one kind after another, up to the first
/// kind that has one.
pub(crate) fn is_empty<T: RecordsTx>(tx: &mut T) -> Result<bool, Fault>
    ensures found { IsHonest (T.seen tx.new) → IfOk result (λ empty.
        IsTrue empty ↔ ((T.seen tx.old).rows ≡ map.empty)) }
    ensures call { IsReading (T.seen tx.old) (T.seen tx.new) result IsMemoryOrStorage }
{
    for kind in KINDS {
        if !tx.under(kind, "")?.is_empty() {
            return Ok(false);
        }
    }
    Ok(true)
}
