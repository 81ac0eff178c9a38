//! Rows of responses that wait.

ghost use Rattle.broker_types.specs.Fault.{IsMemoryOrStorage};
ghost use Rattle.records.specs.declared.kind.Kind.TheVariants as kind;
ghost use Rattle.records.specs.Calls.{IsReading};
ghost use Rattle.records.specs.RowForms.{waiting_row};
ghost use Rattle.records.specs.Table.{table};
ghost use Rattle.records.specs.Transaction.{IsHonest};
ghost use Rattle.soundness.specs.Broken.{BreaksAt, Shows};
ghost use Rattle.soundness.specs.RowRules.{IsOf, IsWaitingAt};
ghost use Rattle.soundness.specs.Visiting.{Finds};

use crate::lookups::is_named;
use crate::texts::is_path;
use crate::trouble::Rule;
use broker_types::Fault;
use records::{Holder, RecordsTx, Row, read_waiting};

/// What the row of a response that waits breaks.
pub(crate) fn response<T: RecordsTx>(
    tx: &mut T,
    key: &str,
    row: &Row,
) -> Result<Option<Rule>, Fault>
    ensures sound { IsHonest (T.seen tx.new)
        → Finds result (IsOf waiting_row (IsWaitingAt (table (T.seen tx.old)) key.now) row.now) }
    ensures broken { IsHonest (T.seen tx.new)
        → Shows result (λ rule. BreaksAt (table (T.seen tx.old)) rule kind.Waiting key.now row.now) }
    ensures call { IsReading (T.seen tx.old) (T.seen tx.new) result IsMemoryOrStorage }
{
    let Ok(waiting) = read_waiting(row) else {
        return Ok(Some(Rule::Format));
    };
    if waiting.ttl == 0 {
        return Ok(Some(Rule::Number));
    }
    if !is_path(waiting.path) {
        return Ok(Some(Rule::Text));
    }
    if !is_named(tx, waiting.accessor, key, Holder::WrappingToken)? {
        return Ok(Some(Rule::Accessor));
    }
    Ok(None)
}
