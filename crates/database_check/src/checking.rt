//! A database that is checked, row by row.

ghost use Rattle.std.specs.Prelude.{◌≡◌, ◌⊎◌, ◌≤◌, Err, IsTrue, IfNone, IfOk, IfErr, IfSome, OnOk, is_some};
ghost use Rattle.sqlite.specs.Files.{over_files};
ghost use Rattle.sqlite.specs.WalFiles.{image_at};
ghost use Rattle.broker_types.specs.Fault.{IsMemoryOrStorage};
ghost use Rattle.broker_rows.specs.ClockRow.{HasNoClock};
ghost use Rattle.records.specs.Calls.{IsCall};
ghost use Rattle.records.specs.Kept.{IsHonestStore};
ghost use Rattle.records.specs.Table.{table};
ghost use Rattle.records.specs.Transaction.{IsHonest};
ghost use Rattle.records.specs.Upgraded.{AreUpgraded};
ghost use Rattle.records_sql.specs.Adopted.{IsKeptIn};
ghost use Rattle.records_sql.specs.KeptRecords.{kept_records};
ghost use Rattle.soundness.specs.Laws.{AreOfABroker};
ghost use Rattle.database_check.specs.Findings.{IfSound, IfUnsound, KeepABroker, KeepNoBroker, OpenAsABroker};
ghost use Rattle.database_check.specs.Findings.{OpenAsCounted, OpenAsNone};

use crate::counts::Counts;
use crate::defect::Defect;
use broker_types::Fault;
use records::{Kind, RecordsTx, upgrade_keys};
use records_sql::{Cause, CausedFault, SqlRecords};
use soundness::{broken_rows_are_of_no_broker, check};
use sqlite::{Alter, FileFrom, FileStore, Start, Unknown};
use std::alloc::Global;
use std::rt::HostRuntime;
use std::{fmt, fs};

/// What a check of a database finds.
#[derive(Drop)]
pub enum Finding {
    /// The rows are those of a sound broker; so many there are.
    Sound(Counts),
    /// A row keeps them from being those of one.
    Unsound(Defect),
}

impl fmt::Display for Finding {
    fn fmt<W: fmt::Write>(&self, f: &mut fmt::Formatter<W>) -> fmt::Result {
        match self {
            Finding::Sound(counts) => write!(f, "ok, {counts}"),
            Finding::Unsound(defect) => write!(f, "{defect}"),
        }
    }
}

/// Whether the rows that were committed are those of a sound broker, as between two requests, once those of keys in
/// format 1 are rewritten as an opening does, or else the first row that keeps them from being so: exactly then they
/// are not. The rows stay as they are. It fails only if memory runs out or the storage fails.
pub fn check_records<S: Alter>(alloc: Global, records: &mut SqlRecords<S>) -> Result<Finding, Fault>
    ensures sound { IsHonestStore (kept_records S.Store records.new) → IfOk result (λ finding.
        IfSound finding (OpenAsCounted (kept_records S.Store records.old).rows)) }
    ensures unsound { IsHonestStore (kept_records S.Store records.new) → IfOk result (λ finding.
        IfUnsound finding (OpenAsNone (kept_records S.Store records.old).rows)) }
    ensures same { IsHonestStore (kept_records S.Store records.new) → IsTrue (kept_records S.Store records.new).is_open
        → (kept_records S.Store records.new).rows ≡ (kept_records S.Store records.old).rows }
    ensures mismatches { (kept_records S.Store records.old).mismatches
        ≤ (kept_records S.Store records.new).mismatches }
    ensures failed { result ≡ Err Fault.Storage → IsTrue (kept_records S.Store records.new).has_failed }
    ensures faults { IfErr result IsMemoryOrStorage }
{
    // What is rewritten in it is rolled back.
    let mut tx = records.begin()?;
    find(alloc, &mut tx)
}

/// Rewrites the rows of keys in format 1, checks all rows, and counts them if they are those of a sound broker.
fn find<T: RecordsTx>(alloc: Global, tx: &mut T) -> Result<Finding, Fault>
    ensures sound { IsHonest (T.seen tx.new) → IfOk result (λ finding.
        IfSound finding (OpenAsCounted (T.seen tx.old).rows)) }
    ensures unsound { IsHonest (T.seen tx.new) → IfOk result (λ finding.
        IfUnsound finding (OpenAsNone (T.seen tx.old).rows)) }
    ensures call { IsCall (T.seen tx.old) (T.seen tx.new) result IsMemoryOrStorage }
{
    match find_defect(alloc, tx)? {
        None => Ok(Finding::Sound(Counts::of(tx)?)),
        Some(defect) => Ok(Finding::Unsound(defect)),
    }
}

/// Rewrites the rows of keys in format 1, and checks all rows.
fn find_defect<T: RecordsTx>(alloc: Global, tx: &mut T) -> Result<Option<Defect>, Fault>
    ensures sound { IsHonest (T.seen tx.new) → IfOk result (λ defect. IfNone defect
        (AreUpgraded (table (T.seen tx.old)) (table (T.seen tx.new)) × AreOfABroker (T.seen tx.new).rows)) }
    ensures unsound { IsHonest (T.seen tx.new) → IfOk result (λ defect.
        IfSome defect (OpenAsNone (T.seen tx.old).rows)) }
    ensures call { IsCall (T.seen tx.old) (T.seen tx.new) result IsMemoryOrStorage }
{
    upgrade_keys(alloc, tx)?;
    broken_rows_are_of_no_broker();
    match check(alloc, tx)? {
        None => Ok(None),
        Some(trouble) => Ok(Some(Defect::at(alloc, tx, &trouble)?)),
    }
}

/// The first row that keeps the rows that were committed from being those of a sound broker, as `check_records` finds
/// it, but none if they lack the row of the clock: then no broker was started. The rows stay as they are, and
/// afterwards the records can be asked. It fails only if memory runs out or the storage fails.
pub fn defect_of<S: Alter>(
    alloc: Global,
    records: &mut SqlRecords<S>,
) -> Result<Option<Defect>, Fault>
    ensures sound { IsHonestStore (kept_records S.Store records.new) → IfOk result (λ defect. IfNone defect
        (HasNoClock (kept_records S.Store records.old).rows ⊎ OpenAsABroker (kept_records S.Store records.old).rows)) }
    ensures unsound { IsHonestStore (kept_records S.Store records.new) → IfOk result (λ defect.
        IfSome defect (OpenAsNone (kept_records S.Store records.old).rows)) }
    ensures started { IsHonestStore (kept_records S.Store records.new) → IfOk result (λ defect.
        IfSome defect (λ _. ¬ HasNoClock (kept_records S.Store records.old).rows)) }
    ensures same { IsHonestStore (kept_records S.Store records.new)
        → OnOk result ((kept_records S.Store records.new).rows ≡ (kept_records S.Store records.old).rows) }
    ensures kept { IsHonestStore (kept_records S.Store records.new) → IsTrue (kept_records S.Store records.new).is_open
        → (kept_records S.Store records.new).rows ≡ (kept_records S.Store records.old).rows }
    ensures mismatches { (kept_records S.Store records.old).mismatches
        ≤ (kept_records S.Store records.new).mismatches }
    ensures failed { result ≡ Err Fault.Storage → IsTrue (kept_records S.Store records.new).has_failed }
    ensures faults { IfErr result IsMemoryOrStorage }
{
    let defect = {
        // What is rewritten in it is rolled back.
        let mut tx = records.begin()?;
        find_if_started(alloc, &mut tx)?
    };
    records.ask()?;
    Ok(defect)
}

/// Checks all rows, if there is the row of the clock.
fn find_if_started<T: RecordsTx>(alloc: Global, tx: &mut T) -> Result<Option<Defect>, Fault>
    ensures sound { IsHonest (T.seen tx.new) → IfOk result (λ defect.
        IfNone defect (HasNoClock (T.seen tx.old).rows ⊎ OpenAsABroker (T.seen tx.old).rows)) }
    ensures unsound { IsHonest (T.seen tx.new) → IfOk result (λ defect.
        IfSome defect (OpenAsNone (T.seen tx.old).rows)) }
    ensures started { IsHonest (T.seen tx.new) → IfOk result (λ defect.
        IfSome defect (λ _. ¬ HasNoClock (T.seen tx.old).rows)) }
    ensures call { IsCall (T.seen tx.old) (T.seen tx.new) result IsMemoryOrStorage }
{
    if tx.get(Kind::Clock, "")?.is_none() {
        return Ok(None);
    }
    find_defect(alloc, tx)
}

/// Whether a file and its log, which is beside it, keep the rows of a sound broker, and the records that were
/// checked. `S` stands for what they hold. No row is changed, and no program may have the file open meanwhile. It
/// fails with `Memory` if memory runs out, and with `Storage` if there is no such file, it is empty, it cannot be
/// opened as a database of a broker (`SqlRecords::open_from`), or the storage fails; then there is a cause.
pub fn check_from<S: Start>(
    rt: &HostRuntime,
    path: &str,
    start: S,
) -> Result<(Finding, SqlRecords<FileStore<FileFrom<S>>>), CausedFault>
    ensures sound { IfOk result (λ checked. IsHonestStore (kept_records over_files checked.1)
        → IfSound checked.0 (KeepABroker (image_at S.Start))) }
    ensures unsound { IfOk result (λ checked. IsHonestStore (kept_records over_files checked.1)
        → IfUnsound checked.0 (KeepNoBroker (image_at S.Start))) }
    ensures same { IfOk result (λ checked. IsHonestStore (kept_records over_files checked.1)
        → IsTrue (kept_records over_files checked.1).is_open
        → IsKeptIn (image_at S.Start) (kept_records over_files checked.1).rows) }
    ensures faults { IfErr result (λ caused. IsMemoryOrStorage caused.fault) }
    ensures cause { IfErr result (λ caused. caused.fault ≡ Fault.Storage → IsTrue (is_some caused.cause)) }
{
    // To open it would make the file, or the table in an empty one.
    find_bytes(rt, path)?;
    match SqlRecords::open_from(rt, path, start) {
        Ok(records) => check_opened(rt.alloc(), records),
        Err(cause) => Err(CausedFault::from(cause)),
    }
}

/// What `check_records` finds, and the records that were checked. It is generic in the storage, since each call at the
/// type of one over files takes the prover long.
fn check_opened<S: Alter + Drop>(
    alloc: Global,
    records: SqlRecords<S>,
) -> Result<(Finding, SqlRecords<S>), CausedFault>
    ensures sound { IfOk result (λ checked. IsHonestStore (kept_records S.Store checked.1)
        → IfSound checked.0 (OpenAsCounted (kept_records S.Store records).rows)) }
    ensures unsound { IfOk result (λ checked. IsHonestStore (kept_records S.Store checked.1)
        → IfUnsound checked.0 (OpenAsNone (kept_records S.Store records).rows)) }
    ensures same { IfOk result (λ checked. IsHonestStore (kept_records S.Store checked.1)
        → IsTrue (kept_records S.Store checked.1).is_open
        → (kept_records S.Store checked.1).rows ≡ (kept_records S.Store records).rows) }
    ensures mismatches { IfOk result (λ checked.
        (kept_records S.Store records).mismatches ≤ (kept_records S.Store checked.1).mismatches) }
    ensures faults { IfErr result (λ caused. IsMemoryOrStorage caused.fault) }
    ensures cause { IfErr result (λ caused. caused.fault ≡ Fault.Storage → IsTrue (is_some caused.cause)) }
{
    let mut records = records;
    match check_records(alloc, &mut records) {
        Ok(finding) => Ok((finding, records)),
        Err(fault) => Err(CausedFault {
            fault,
            cause: records.cause(),
        }),
    }
}

/// What `check_from` finds of a file, of whose contents nothing is supposed.
pub fn check_file(rt: &HostRuntime, path: &str) -> Result<Finding, CausedFault>
    ensures faults { IfErr result (λ caused. IsMemoryOrStorage caused.fault) }
    ensures cause { IfErr result (λ caused. caused.fault ≡ Fault.Storage → IsTrue (is_some caused.cause)) }
{
    let (finding, _records) = check_from(rt, path, Unknown)?;
    Ok(finding)
}

/// Whether there is a file that is not empty.
pub(crate) fn find_bytes(rt: &HostRuntime, path: &str) -> Result<(), Cause> {
    match fs::metadata(rt, path) {
        Ok(found) if found.len() > 0 => Ok(()),
        Ok(_) => Err(Cause::Empty),
        Err(error) => Err(Cause::of_kind(error.kind())),
    }
}
