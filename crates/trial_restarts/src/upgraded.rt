//! Files in which the keys have rows of format 1, and their opening, which rewrites these rows.

use crate::disk::pair::Pair;
use crate::opening::{OverRecords, Until, Writes, over_files};
use crate::running::{Run, Steps, rows_of};
use broker_sql::prepare;
use broker_types::{Bytes, Fault, TextBuf};
use records::{Kind, RecordsTx, Row};
use records_sql::SqlRecords;
use replay::{Script, Start};
use sqlite::Alter;
use std::alloc::Global;
use trial_rows::Rows;

/// How long a row of format 1 is: its first byte, and three numbers.
const OLD_LENGTH: usize = 25;

/// Writes the rows of keys, which have no settings, in format 1. It fails as the records do.
fn write_old<S: Alter>(alloc: Global, records: &mut SqlRecords<S>) -> Result<(), Fault> {
    let mut tx = records.begin()?;
    for entry in &tx.under(Kind::KvKey, "")? {
        let mut body = entry.row.body.as_slice().to_vec(alloc)?;
        body.truncate(OLD_LENGTH);
        if let Some(format) = body.first_mut() {
            *format = 1;
        }
        let row = Row {
            owner: TextBuf::copied(alloc, "")?,
            due: None,
            body: Bytes::new(body),
        };
        tx.put(Kind::KvKey, entry.key.as_str(), row)?;
    }
    tx.commit()
}

/// The rows after steps, where keys have rows of format 1, and as they are.
#[derive(Drop)]
pub(crate) struct OldAndNew<'s>(pub(crate) Steps<'s>);

impl<'s> OverRecords for OldAndNew<'s> {
    type Came = Vec<Rows>;

    fn run<S: Alter + Drop>(
        &mut self,
        alloc: Global,
        records: SqlRecords<S>,
    ) -> Result<(SqlRecords<S>, Vec<Rows>), Fault> {
        let hub = self.0.take(alloc, records)?;
        let mut records = hub.into_store().into_records();
        let new = rows_of(alloc, &mut records)?;
        write_old(alloc, &mut records)?;
        let old = rows_of(alloc, &mut records)?;
        Ok((records, Vec::from_array(alloc, [old, new])?))
    }
}

/// The writing of rows of keys in format 1.
#[derive(Drop)]
struct WriteOld;

impl OverRecords for WriteOld {
    type Came = ();

    const CLOSES: bool = true;

    fn run<S: Alter + Drop>(
        &mut self,
        alloc: Global,
        mut records: SqlRecords<S>,
    ) -> Result<(SqlRecords<S>, ()), Fault> {
        write_old(alloc, &mut records)?;
        Ok((records, ()))
    }
}

/// The files that a run of the script leaves, where keys have rows of format 1.
fn old_files(alloc: Global, script: &Script, writes: Writes) -> Result<Pair, Fault> {
    let mut run = Run::until_stop(alloc, script, writes, Until::NEVER)?;
    if run.is_stopped {
        return Err(Fault::Storage);
    }
    over_files(alloc, &mut run.files, Until::NEVER, writes, &mut WriteOld)?;
    Ok(run.files)
}

/// The opening of such files, one of which answers so many calls, and then fails each. It fails as the steps do, but
/// for `Storage`, which is a stop.
pub(crate) fn upgrade_until_stop(
    alloc: Global,
    script: &Script,
    writes: Writes,
    until: Until,
) -> Result<Run, Fault> {
    let mut files = old_files(alloc, script, writes)?;
    let mut opening = Opening {
        start: &script.start,
        answered: 0,
    };
    let ended = over_files(alloc, &mut files, until, writes, &mut opening);
    Run::over(files, opening.answered, ended)
}

/// The opening of the broker in files.
#[derive(Drop)]
struct Opening<'s> {
    start: &'s Start,
    /// How many steps were answered.
    answered: usize,
}

impl<'s> OverRecords for Opening<'s> {
    type Came = ();

    const CLOSES: bool = true;

    fn run<S: Alter + Drop>(
        &mut self,
        alloc: Global,
        mut records: SqlRecords<S>,
    ) -> Result<(SqlRecords<S>, ()), Fault> {
        let root = prepare(alloc, &mut records, self.start.moment, &self.start.words)?;
        if root.is_some() {
            return Err(Fault::BadStart);
        }
        self.answered = 1;
        Ok((records, ()))
    }
}
