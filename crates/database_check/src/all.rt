//! A database of which all rows in trouble are told.

ghost use Rattle.std.specs.Prelude.{◌≡◌, ◌≤◌, All, Err, IsTrue, IfErr, IfOk, is_some};
ghost use Rattle.broker_types.specs.Fault.{IsMemoryOrStorage};
ghost use Rattle.records.specs.Calls.{IsCall, IsReading};
ghost use Rattle.records.specs.Kept.{IsHonestStore};
ghost use Rattle.records.specs.Transaction.{IsHonest};
ghost use Rattle.records_sql.specs.KeptRecords.{kept_records};
ghost use Rattle.database_check.specs.Findings.{IfAllSound, IfInTrouble, OpenAsCounted, OpenInTrouble, TellOf};
ghost use Rattle.database_check.specs.Naming.{IsNumbered};

use crate::checking::find_bytes;
use crate::counts::Counts;
use crate::defect::Defect;
use broker_types::Fault;
use records::{RecordsTx, upgrade_keys};
use records_sql::{CausedFault, SqlRecords};
use soundness::{Trouble, broken_rows_are_of_no_broker, check_all};
use sqlite::{Alter, Unknown};
use std::alloc::Global;
use std::fmt;
use std::rt::HostRuntime;

/// How many rows in trouble are told at most. Each takes some 200 bytes.
const MOST: usize = 100_000;

/// The rows that keep a database from being that of a sound broker.
#[derive(Drop)]
pub struct Defects {
    /// The first of them, by kinds, and by keys of a kind.
    list: Vec<Defect>,
    /// Whether there is no other.
    are_all: bool,
}

/// What a check of all rows of a database finds.
#[derive(Drop)]
pub enum AllFindings {
    /// The rows are those of a sound broker; so many there are.
    AllSound(Counts),
    /// Rows keep them from being those of one.
    InTrouble(Defects),
}

impl fmt::Display for Defects {
    /// A line for each, and a line with how many there are.
    fn fmt<W: fmt::Write>(&self, f: &mut fmt::Formatter<W>) -> fmt::Result {
        for defect in &self.list {
            writeln!(f, "{defect}")?;
        }
        let many = self.list.len();
        if !self.are_all {
            return write!(f, "{many} rows in trouble, and there may be more");
        }
        let rows = if many == 1 { "row" } else { "rows" };
        write!(f, "{many} {rows} in trouble")
    }
}

impl fmt::Display for AllFindings {
    fn fmt<W: fmt::Write>(&self, f: &mut fmt::Formatter<W>) -> fmt::Result {
        match self {
            AllFindings::AllSound(counts) => write!(f, "ok, {counts}"),
            AllFindings::InTrouble(defects) => write!(f, "{defects}"),
        }
    }
}

/// Whether the rows that were committed are those of a sound broker, as `check_records` finds it, or else all rows that
/// keep them from being so, the first `MOST` if there are more. The rows stay as they are. It fails only if memory runs
/// out or the storage fails.
pub fn check_all_records<S: Alter>(
    alloc: Global,
    records: &mut SqlRecords<S>,
) -> Result<AllFindings, Fault>
    ensures sound { IsHonestStore (kept_records S.Store records.new) → IfOk result (λ findings.
        IfAllSound findings (OpenAsCounted (kept_records S.Store records.old).rows)) }
    ensures unsound { IsHonestStore (kept_records S.Store records.new) → IfOk result (λ findings.
        IfInTrouble findings (OpenInTrouble (kept_records S.Store records.old).rows)) }
    ensures same { IsHonestStore (kept_records S.Store records.new) → IsTrue (kept_records S.Store records.new).is_open
        → (kept_records S.Store records.new).rows ≡ (kept_records S.Store records.old).rows }
    ensures mismatches { (kept_records S.Store records.old).mismatches
        ≤ (kept_records S.Store records.new).mismatches }
    ensures failed { result ≡ Err Fault.Storage → IsTrue (kept_records S.Store records.new).has_failed }
    ensures faults { IfErr result IsMemoryOrStorage }
{
    // What is rewritten in it is rolled back.
    let mut tx = records.begin()?;
    find_all(alloc, &mut tx)
}

/// Rewrites the rows of keys in format 1, checks all rows, and counts them if they are those of a sound broker.
fn find_all<T: RecordsTx>(alloc: Global, tx: &mut T) -> Result<AllFindings, Fault>
    ensures sound { IsHonest (T.seen tx.new) → IfOk result (λ findings.
        IfAllSound findings (OpenAsCounted (T.seen tx.old).rows)) }
    ensures unsound { IsHonest (T.seen tx.new) → IfOk result (λ findings.
        IfInTrouble findings (OpenInTrouble (T.seen tx.old).rows)) }
    ensures call { IsCall (T.seen tx.old) (T.seen tx.new) result IsMemoryOrStorage }
{
    upgrade_keys(alloc, tx)?;
    broken_rows_are_of_no_broker();
    let troubles = check_all(alloc, tx, MOST)?;
    if troubles.is_empty() {
        return Ok(AllFindings::AllSound(Counts::of(tx)?));
    }
    let list = tell_each(alloc, tx, &troubles)?;
    let are_all = troubles.len() < MOST;
    Ok(AllFindings::InTrouble(Defects { list, are_all }))
}

/// What is wrong with rows, told without a secret.
fn tell_each<T: RecordsTx>(
    alloc: Global,
    tx: &mut T,
    troubles: &[Trouble],
) -> Result<Vec<Defect>, Fault>
    ensures told { IsHonest (T.seen tx.new) → All (IsNumbered (T.seen tx.old).rows) troubles.now
        → IfOk result (λ list. TellOf (T.seen tx.old).rows troubles.now list.items) }
    ensures call { IsReading (T.seen tx.old) (T.seen tx.new) result IsMemoryOrStorage }
{
    let mut list = Vec::new(alloc);
    for trouble in troubles {
        list.push(Defect::at(alloc, tx, trouble)?)?;
    }
    Ok(list)
}

/// What `check_all_records` finds of a file, of whose contents nothing is supposed, as `check_file` does.
pub fn check_all_file(rt: &HostRuntime, path: &str) -> Result<AllFindings, CausedFault>
    ensures faults { IfErr result (λ caused. IsMemoryOrStorage caused.fault) }
    ensures cause { IfErr result (λ caused. caused.fault ≡ Fault.Storage → IsTrue (is_some caused.cause)) }
{
    find_bytes(rt, path)?;
    match SqlRecords::open_from(rt, path, Unknown) {
        Ok(records) => check_all_opened(rt.alloc(), records),
        Err(cause) => Err(CausedFault::from(cause)),
    }
}

/// What `check_all_records` finds. It is generic in the storage, since each call at the type of one over files takes
/// the prover long.
fn check_all_opened<S: Alter + Drop>(
    alloc: Global,
    records: SqlRecords<S>,
) -> Result<AllFindings, CausedFault>
    ensures faults { IfErr result (λ caused. IsMemoryOrStorage caused.fault) }
    ensures cause { IfErr result (λ caused. caused.fault ≡ Fault.Storage → IsTrue (is_some caused.cause)) }
{
    let mut records = records;
    match check_all_records(alloc, &mut records) {
        Ok(findings) => Ok(findings),
        Err(fault) => Err(CausedFault {
            fault,
            cause: records.cause(),
        }),
    }
}
