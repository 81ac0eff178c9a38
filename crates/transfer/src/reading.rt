//! The rows of a file put into a transaction.

ghost use Rattle.std.specs.Prelude.{◌≡◌, ℕ, List, length, IfOk, IfNone, Some};
ghost use Rattle.std.specs.FinMap as map;
ghost use Rattle.broker_types.specs.Fault.{IsMemoryOrStorage};
ghost use Rattle.records.specs.Calls.{IsCall};
ghost use Rattle.records.specs.Transaction.{IsHonest};
ghost use Rattle.transfer.specs.Files.{IsFileOf};
ghost use Rattle.transfer.specs.Reading.{AreRowsRead, left_in};

use crate::lines::Lines;
use crate::place::{Place, is_after, put};
use crate::refusal::{Refusal, Why};
use broker_types::Fault;
use endpoints::Source;
use records::RecordsTx;
use std::alloc::Global;

/// Puts the rows of a file into a transaction that has none, and answers how many they are; or refuses the file, and
/// then give the transaction up. It holds one row at a time. It fails only if memory runs out or the storage fails.
pub fn read_rows<T: RecordsTx, R: Source + Drop>(
    alloc: Global,
    tx: &mut T,
    lines: &mut Lines<R>,
) -> Result<Result<u64, Refusal>, Fault>
    ensures read { IsHonest (T.seen tx.new) → (T.seen tx.old).rows ≡ map.empty → (text : List ℕ)
        → left_in R.left lines.old ≡ Some text
        → IfOk result (λ read. IfOk read (λ count. IsFileOf (T.seen tx.new).rows text)) }
    ensures call { IsCall (T.seen tx.old) (T.seen tx.new) result IsMemoryOrStorage }
{
    let count = match lines.read_head(alloc)? {
        Ok(count) => count,
        Err(why) => return Ok(Err(lines.refusal(why))),
    };
    if let Some(why) = read_each(alloc, tx, lines, count)? {
        return Ok(Err(lines.refusal(why)));
    }
    match lines.read_tail(alloc)? {
        Some(why) => Ok(Err(lines.refusal(why))),
        None => Ok(Ok(count)),
    }
}

/// Puts so many rows.
fn read_each<T: RecordsTx, R: Source + Drop>(
    alloc: Global,
    tx: &mut T,
    lines: &mut Lines<R>,
    count: u64,
) -> Result<Option<Why>, Fault>
    ensures read { IsHonest (T.seen tx.new) → (T.seen tx.old).rows ≡ map.empty
        → IfOk result (λ why. IfNone why (AreRowsRead R.left lines.old lines.new count (T.seen tx.new).rows)) }
    ensures call { IsCall (T.seen tx.old) (T.seen tx.new) result IsMemoryOrStorage }
{
    let mut last: Option<Place> = None;
    for _ in 0..count {
        let entry = match lines.read_row(alloc)? {
            Ok(entry) => entry,
            Err(why) => return Ok(Some(why)),
        };
        if !is_after(&last, &entry) {
            return Ok(Some(Why::Order));
        }
        last = Some(put(tx, entry)?);
    }
    Ok(None)
}
