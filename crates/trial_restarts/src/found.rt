//! The broker that is found in files.

use crate::disk::pair::Pair;
use crate::opening::{OverRecords, Until, Writes, over_files};
use crate::running::{feed, rows_of};
use broker_sql::{SqlStore, prepare};
use broker_types::Fault;
use hub::{Event, Hub};
use records_sql::SqlRecords;
use replay::Start;
use sqlite::Alter;
use std::alloc::Global;
use trial_rows::Rows;

/// The rows in files, and what is made of them.
#[derive(Drop)]
struct Found {
    rows: Rows,
    /// Whether a broker was started over them.
    is_new: bool,
    /// The rows then.
    prepared: Rows,
}

/// The rows that are found in files; none if the files have no table of rows, or if anything else is made of them than
/// the second state of the first one, and than a start over no rows. The only error is `Memory`.
pub(crate) fn rows_found(
    alloc: Global,
    mut files: Pair,
    writes: Writes,
    start: &Start,
    states: &[Rows],
) -> Result<Option<Rows>, Fault> {
    let [first, second, ..] = states else {
        return Ok(None);
    };
    match over_files(
        alloc,
        &mut files,
        Until::NEVER,
        writes,
        &mut Preparing { start },
    ) {
        Ok(
            Found {
                rows,
                is_new,
                prepared,
            },
        ) => {
            let wanted = if rows.are(first) { second } else { &rows };
            if is_new == rows.is_empty() && prepared.are(wanted) {
                Ok(Some(rows))
            } else {
                Ok(None)
            }
        }
        Err(Fault::Memory) => Err(Fault::Memory),
        Err(_) => Ok(None),
    }
}

/// The rows, and what is made of them by the moment and the words of a start.
#[derive(Drop)]
struct Preparing<'s> {
    start: &'s Start,
}

impl<'s> OverRecords for Preparing<'s> {
    type Came = Found;

    fn run<S: Alter + Drop>(
        &mut self,
        alloc: Global,
        mut records: SqlRecords<S>,
    ) -> Result<(SqlRecords<S>, Found), Fault> {
        let rows = rows_of(alloc, &mut records)?;
        let root = prepare(alloc, &mut records, self.start.moment, &self.start.words)?;
        let prepared = rows_of(alloc, &mut records)?;
        let found = Found {
            rows,
            is_new: root.is_some(),
            prepared,
        };
        Ok((records, found))
    }
}

/// The reply to an event of the broker in files. It fails as the broker does.
pub(crate) fn reply_found(
    alloc: Global,
    mut files: Pair,
    writes: Writes,
    event: &Event,
) -> Result<Vec<u8>, Fault> {
    over_files(
        alloc,
        &mut files,
        Until::NEVER,
        writes,
        &mut Replying { event },
    )
}

/// The reply to an event.
#[derive(Drop)]
struct Replying<'e> {
    event: &'e Event,
}

impl<'e> OverRecords for Replying<'e> {
    type Came = Vec<u8>;

    fn run<S: Alter + Drop>(
        &mut self,
        alloc: Global,
        mut records: SqlRecords<S>,
    ) -> Result<(SqlRecords<S>, Vec<u8>), Fault> {
        prepare(alloc, &mut records, self.event.moment, &self.event.words)?;
        let mut hub = Hub::new(alloc, SqlStore::new(alloc, records));
        let reply = feed(&mut hub, self.event)?;
        Ok((hub.into_store().into_records(), reply))
    }
}
