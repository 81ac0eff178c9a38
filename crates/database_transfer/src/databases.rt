//! Rows of a database written, and rows of a file put into a database that has none.

ghost use Rattle.std.specs.Prelude.{◌≡◌, ◌≤◌, ℕ, List, Some, Err, IsTrue, IfOk, IfErr, IfSome};
ghost use Rattle.std.specs.FinMap as map;
ghost use Rattle.broker_types.specs.Fault.{IsMemoryOrStorage};
ghost use Rattle.records.specs.Kept.{IsHonestStore};
ghost use Rattle.records_sql.specs.KeptRecords.{kept_records};
ghost use Rattle.transfer.specs.Reading.{left_in};
ghost use Rattle.transfer.specs.Writing.{IsWritten};
ghost use Rattle.database_transfer.specs.Imports.{IsImported};

use crate::importing::{How, Outcome, import};
use broker_types::Fault;
use endpoints::{Sink, Source};
use records_sql::SqlRecords;
use sqlite::Alter;
use std::alloc::Global;
use transfer::{Lines, Summed, export};

/// Writes the rows that were committed as a file, and answers how many there are; none if a push failed. The rows stay
/// as they are. It fails only if memory runs out or the storage fails.
pub fn export_records<S: Alter, W: Sink + Drop>(
    alloc: Global,
    records: &mut SqlRecords<S>,
    out: &mut Summed<W>,
) -> Result<Option<u64>, Fault>
    ensures written { IsHonestStore (kept_records S.Store records.new) → IfOk result (λ count. IfSome count
        (λ n. IsWritten W.written out.old out.new (kept_records S.Store records.old).rows n)) }
    ensures same { IsHonestStore (kept_records S.Store records.new) → IsTrue (kept_records S.Store records.new).is_open
        → (kept_records S.Store records.new).rows ≡ (kept_records S.Store records.old).rows }
    ensures failed { result ≡ Err Fault.Storage → IsTrue (kept_records S.Store records.new).has_failed }
    ensures faults { IfErr result IsMemoryOrStorage }
{
    // It only reads, and is rolled back.
    let mut tx = records.begin()?;
    export(alloc, &mut tx, out)
}

/// Puts the rows of a file into a database without rows, in one transaction, as `import` does. Where the file is
/// refused there are none afterwards. It fails only if memory runs out or the storage fails.
pub fn import_records<S: Alter, R: Source + Drop>(
    alloc: Global,
    records: &mut SqlRecords<S>,
    lines: &mut Lines<R>,
    how: How,
) -> Result<Outcome, Fault>
    ensures imported { IsHonestStore (kept_records S.Store records.new)
        → (kept_records S.Store records.old).rows ≡ map.empty → (text : List ℕ) → left_in R.left lines.old ≡ Some text
        → IfOk result (IsImported text how (kept_records S.Store records.new).rows) }
    ensures failed { result ≡ Err Fault.Storage → IsTrue (kept_records S.Store records.new).has_failed }
    ensures faults { IfErr result IsMemoryOrStorage }
{
    let mut tx = records.begin()?;
    let outcome = import(alloc, &mut tx, lines, how)?;
    if matches!(outcome, Outcome::Done(_)) {
        tx.commit()?;
    }
    Ok(outcome)
}
