//! The rows of the database of a file written, and a new database made of rows.

use crate::databases::{export_records, import_records};
use crate::draft::Draft;
use crate::failure::{Failure, Why};
use crate::importing::{How, Outcome};
use crate::telling::{TellingSink, TellingSource};
use broker_types::Fault;
use database_check::{Counts, Defect, Finding, check_from};
use endpoints::{Sink, Source};
use records_sql::{Cause, CausedFault, SqlRecords};
use salvage::Change;
use sqlite::{Alter, FileFrom, FileStore, Unknown};
use std::alloc::Global;
use std::fs;
use std::rt::HostRuntime;
use transfer::{Lines, Refusal, Summed};

/// Writes the rows of a file as `export_records` does, and answers how many there are. No program may have the file
/// open meanwhile, and no row of it changes. What is written is no file of rows if this fails.
pub fn export_file<W: Sink + Drop>(rt: &HostRuntime, path: &str, sink: W) -> Result<u64, Failure> {
    find_bytes(rt, path)?;
    let records = SqlRecords::open_from(rt, path, Unknown)?;
    let mut out = Summed::new(TellingSink::new(rt, sink));
    match export_opened(rt.alloc(), records, &mut out)? {
        Some(count) => Ok(count),
        None => Err(Failure::Of(Why::Unwritten)),
    }
}

/// As `export_records`, with the cause if the storage failed. It is generic in the storage, since each call at the type
/// of one over files takes the prover long.
fn export_opened<S: Alter + Drop, W: Sink + Drop>(
    alloc: Global,
    mut records: SqlRecords<S>,
    out: &mut Summed<W>,
) -> Result<Option<u64>, CausedFault> {
    match export_records(alloc, &mut records, out) {
        Ok(count) => Ok(count),
        Err(fault) => Err(caused(fault, &records)),
    }
}

/// What became of a file of rows.
#[derive(Drop)]
pub enum Imported {
    /// There is a new database.
    Made {
        /// How many rows of each kind are in it.
        counts: Counts,
        /// What was changed of the rows, in its order.
        changes: Vec<Change>,
    },
    /// It is no file of rows, by this line.
    Refused(Refusal),
    /// This row keeps its rows from being those of a sound broker.
    Unsound(Defect),
}

/// Makes a database of the rows of a file that is read from a source, as `import_records` does. It has one file, which
/// only its owner can read, and which gets its name once it is whole, was checked, and is on the disk. Where the rows
/// are refused, or this fails, there is none; what a run that was killed has left, the next one removes.
pub fn import_file<R: Source + Drop>(
    rt: &HostRuntime,
    path: &str,
    source: R,
    how: How,
) -> Result<Imported, Failure> {
    let draft = Draft::beside(rt, path)?;
    let made = make(rt, &draft, source, how).and_then(|imported| {
        if matches!(imported, Imported::Made { .. }) {
            draft.publish(rt, path)?;
        }
        Ok(imported)
    });
    if !matches!(made, Ok(Imported::Made { .. })) {
        // The first failure is told.
        let _ = draft.remove(rt);
    }
    made
}

/// Makes the draft, and checks it.
fn make<R: Source + Drop>(
    rt: &HostRuntime,
    draft: &Draft,
    source: R,
    how: How,
) -> Result<Imported, Failure> {
    match write(rt, draft, source, how)? {
        Outcome::Done(changes) => match check(rt, draft.database())? {
            Finding::Sound(counts) => Ok(Imported::Made { counts, changes }),
            Finding::Unsound(defect) => Ok(Imported::Unsound(defect)),
        },
        Outcome::Refused(refusal) => Ok(Imported::Refused(refusal)),
        Outcome::Unsound(defect) => Ok(Imported::Unsound(defect)),
    }
}

/// Puts the rows into the draft.
fn write<R: Source + Drop>(
    rt: &HostRuntime,
    draft: &Draft,
    source: R,
    how: How,
) -> Result<Outcome, CausedFault> {
    let alloc = rt.alloc();
    match SqlRecords::open_from(rt, draft.database(), Unknown) {
        Ok(records) => {
            let mut lines = Lines::new(alloc, TellingSource::new(rt, source));
            let (outcome, records) = import_opened(alloc, records, &mut lines, how)?;
            close(records).map(|()| outcome)
        }
        Err(cause) => Err(CausedFault::from(cause)),
    }
}

/// As `import_records`, with the records, or the cause if the storage failed. It is generic in the storage, since each
/// call at the type of one over files takes the prover long.
fn import_opened<S: Alter + Drop, R: Source + Drop>(
    alloc: Global,
    mut records: SqlRecords<S>,
    lines: &mut Lines<R>,
    how: How,
) -> Result<(Outcome, SqlRecords<S>), CausedFault> {
    match import_records(alloc, &mut records, lines, how) {
        Ok(outcome) => Ok((outcome, records)),
        Err(fault) => Err(caused(fault, &records)),
    }
}

/// What a check finds of a database, whose log is moved into it.
fn check(rt: &HostRuntime, path: &str) -> Result<Finding, CausedFault> {
    let (finding, records) = check_from(rt, path, Unknown)?;
    close(records).map(|()| finding)
}

/// Closes a database: its log is moved into it.
fn close(records: SqlRecords<FileStore<FileFrom<Unknown>>>) -> Result<(), CausedFault> {
    match records.into_connection().close() {
        Ok(()) => Ok(()),
        Err(error) => Err(CausedFault::from(Cause::from(error))),
    }
}

fn caused<S: Alter>(fault: Fault, records: &SqlRecords<S>) -> CausedFault {
    CausedFault {
        fault,
        cause: records.cause(),
    }
}

/// Whether there is a file that is not empty: to open another would make it, or a table in it.
fn find_bytes(rt: &HostRuntime, path: &str) -> Result<(), Cause> {
    match fs::metadata(rt, path) {
        Ok(found) if found.len() > 0 => Ok(()),
        Ok(_) => Err(Cause::Empty),
        Err(error) => Err(Cause::of_kind(error.kind())),
    }
}
