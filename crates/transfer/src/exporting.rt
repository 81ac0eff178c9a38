//! The rows of a transaction written as a file.

ghost use Rattle.std.specs.Prelude.{◌≡◌, ◌+◌, ◌^◌, ℕ, List, length, true, IfOk, IfSome, IfNone, IsTrue};
ghost use Rattle.std.specs.Io.KnownBytes.{Appends};
ghost use Rattle.broker_types.specs.Fault.{IsMemoryOrStorage};
ghost use Rattle.broker_types.specs.Words.{entries};
ghost use Rattle.records.specs.Calls.{IsReading};
ghost use Rattle.records.specs.Transaction.{IsHonest};
ghost use Rattle.transfer.specs.Files.{IsFileOf, fed, head};
ghost use Rattle.transfer.specs.Writing.{IsMore, IsWritten};

use crate::counted::count;
use crate::summed::Summed;
use crate::text;
use crate::walk::walk;
use broker_types::Fault;
use endpoints::{Failed, Sink, VERSION};
use records::RecordsTx;
use sha2::{Digest, Sha256};
use std::alloc::{AllocError, Global};

/// Writes the rows of a transaction as a file, and answers how many there are; none if a push failed, and then a part
/// of the file may be written. It holds a page of rows at a time. It fails only if memory runs out or the storage
/// fails.
pub fn export<T: RecordsTx, W: Sink + Drop>(
    alloc: Global,
    tx: &mut T,
    out: &mut Summed<W>,
) -> Result<Option<u64>, Fault>
    ensures written { IsHonest (T.seen tx.new) → IfOk result (λ count. IfSome count
        (λ n. IsWritten W.written out.old out.new (T.seen tx.old).rows n)) }
    ensures call { IsReading (T.seen tx.old) (T.seen tx.new) result IsMemoryOrStorage }
{
    let count = count(alloc, tx)?;
    if out.begin(alloc, count)?.is_err() {
        return Ok(None);
    }
    if !walk(alloc, tx, out)? || out.end(alloc)?.is_err() {
        return Ok(None);
    }
    Ok(Some(count))
}
