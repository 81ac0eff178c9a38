//! Whether rows are those of a sound broker.

ghost use Rattle.std.specs.Prelude.{◌≡◌, ◌≢◌, ◌<◌, ◌≤◌, ◌⊎◌, [], All, IfOk, None, Some, length};
ghost use Rattle.broker_types.specs.Fault.{IsMemoryOrStorage};
ghost use Rattle.broker_types.specs.Text.{Text};
ghost use Rattle.records.specs.Calls.{IsReading};
ghost use Rattle.records.specs.declared.kind.Kind.{Kind};
ghost use Rattle.records.specs.declared.row.Row.{Row};
ghost use Rattle.records.specs.Transaction.{IsHonest};
ghost use Rattle.records.specs.Table.{table};
ghost use Rattle.soundness.specs.Broken.{Breaks, Shows};
ghost use Rattle.soundness.specs.Laws.{AreOfABroker};
ghost use Rattle.soundness.specs.Visiting.{Finds};
ghost use Rattle.soundness.specs.Walks.{IsListed, Tells, WasPassed, number_of};

use crate::chains::rooted;
use crate::laws::sound_rows_are_of_a_broker;
use crate::lookups::has_row;
use crate::trouble::{Rule, Trouble};
use crate::visiting::{Notes, Walk, visit_all};
use broker_types::Fault;
use records::{Kind, RecordsTx};
use std::alloc::Global;
use std::collections::BTreeMap;

/// A row that keeps the rows of a transaction from being those of a sound broker, the first that a walk comes to. If
/// there is none, they are those of one, as between two requests. It fails only if memory runs out or the storage
/// fails.
pub fn check<T: RecordsTx>(alloc: Global, tx: &mut T) -> Result<Option<Trouble>, Fault>
    ensures sound { IsHonest (T.seen tx.new) → Finds result (AreOfABroker (T.seen tx.old).rows) }
    ensures broken { IsHonest (T.seen tx.new) → Shows result (Breaks (table (T.seen tx.old))) }
    ensures number { IsHonest (T.seen tx.new)
        → Shows result (λ t. t.number ≡ number_of (T.seen tx.old).rows t.kind t.key) }
    ensures call { IsReading (T.seen tx.old) (T.seen tx.new) result IsMemoryOrStorage }
{
    let mut troubles = check_all(alloc, tx, 1)?;
    Ok(troubles.pop())
}

/// The rows that keep the rows of a transaction from being those of a sound broker, at most so many: each row that is
/// not listed keeps the rules, if there are fewer. If there is none, the rows are those of a sound broker, as between
/// two requests. It fails only if memory runs out or the storage fails.
pub fn check_all<T: RecordsTx>(
    alloc: Global,
    tx: &mut T,
    most: usize,
) -> Result<Vec<Trouble>, Fault>
    ensures sound { IsHonest (T.seen tx.new) → IfOk result (λ list. 0 < most → list.items ≡ []
        → AreOfABroker (T.seen tx.old).rows) }
    ensures broken { IsHonest (T.seen tx.new) → IfOk result (λ list. All (Tells (T.seen tx.old).rows) list.items) }
    ensures whole { IsHonest (T.seen tx.new) → IfOk result (λ list. length list.items < most
        → (k : Kind) (q : Text) (row : Row) → table (T.seen tx.old) k q ≡ Some row
        → IsListed list.items (k, q) ⊎ WasPassed (table (T.seen tx.old)) ((k, q), row)) }
    ensures few { IsHonest (T.seen tx.new) → IfOk result (λ list. 0 < most → length list.items ≤ most) }
    ensures call { IsReading (T.seen tx.old) (T.seen tx.new) result IsMemoryOrStorage }
{
    let troubles = missing(alloc, tx)?;
    let notes = Notes {
        rooted: rooted(alloc, tx)?,
        identifiers: BTreeMap::new(alloc),
        origins: BTreeMap::new(alloc),
    };
    let mut walk = Walk {
        notes,
        troubles,
        most,
    };
    visit_all(alloc, tx, &mut walk)?;
    sound_rows_are_of_a_broker();
    Ok(walk.troubles)
}

/// The row of the clock, if it is not there.
fn missing<T: RecordsTx>(alloc: Global, tx: &mut T) -> Result<Vec<Trouble>, Fault>
    ensures whole { IsHonest (T.seen tx.new)
        → IfOk result (λ list. list.items ≡ [] → table (T.seen tx.old) Kind.Clock [] ≢ None) }
    ensures broken { IsHonest (T.seen tx.new) → IfOk result (λ list. All (Tells (T.seen tx.old).rows) list.items) }
    ensures few { IfOk result (λ list. length list.items ≤ 1) }
    ensures call { IsReading (T.seen tx.old) (T.seen tx.new) result IsMemoryOrStorage }
{
    let mut troubles = Vec::new(alloc);
    if has_row(tx, Kind::Clock, "")? {
        return Ok(troubles);
    }
    troubles.push(Trouble::at(alloc, Kind::Clock, "", Rule::Missing, 0)?)?;
    Ok(troubles)
}
