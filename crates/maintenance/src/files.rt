//! Maintenance of the broker of a file.

use crate::database::perform_on_records;
use crate::task::{Done, Task};
use database_check::{Defect, Finding, check_from};
use records_sql::{CausedFault, SqlRecords};
use sqlite::{Alter, Unknown};
use std::alloc::Global;
use std::rt::HostRuntime;

/// What became of a task.
#[derive(Drop)]
pub enum Outcome {
    /// It was done.
    Done(Done),
    /// This row keeps the file from having the rows of a sound broker. Nothing was changed.
    Unsound(Defect),
}

/// Does the task to the broker of a file, which is checked first, and refused for the first row that keeps it from
/// being a sound one. No program may have the file open meanwhile. It fails as `check_from` and as `perform` do, and
/// changes no row then.
pub fn perform_on_file(
    rt: &HostRuntime,
    path: &str,
    task: &Task<'_>,
) -> Result<Outcome, CausedFault> {
    let (finding, records) = check_from(rt, path, Unknown)?;
    match finding {
        Finding::Sound(_) => Ok(Outcome::Done(perform_on_opened(rt.alloc(), records, task)?)),
        Finding::Unsound(defect) => Ok(Outcome::Unsound(defect)),
    }
}

/// As `perform_on_records`, with the cause if the storage failed. It is generic in the storage, since each call at the
/// type of one over files takes the prover long.
fn perform_on_opened<S: Alter + Drop>(
    alloc: Global,
    mut records: SqlRecords<S>,
    task: &Task<'_>,
) -> Result<Done, CausedFault> {
    match perform_on_records(alloc, &mut records, task) {
        Ok(done) => Ok(done),
        Err(fault) => Err(CausedFault {
            fault,
            cause: records.cause(),
        }),
    }
}
