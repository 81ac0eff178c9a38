//! A run of a script, step by step: the start, then each event, and the close of the files.

use crate::disk::pair::{Pair, Part};
use crate::disk::trace::Counts;
use crate::opening::{OverRecords, Until, Writes, in_memory, over_files};
use broker::Store;
use broker_sql::{SqlStore, prepare};
use broker_types::Fault;
use hub::{Event, Hub};
use records_sql::SqlRecords;
use replay::{Script, Start};
use sqlite::Alter;
use std::alloc::Global;
use trial_rows::Rows;

/// How far a run came.
#[derive(Clone, Copy, Debug, PartialEq, Eq)]
pub(crate) struct Progress {
    /// How many steps were answered.
    pub(crate) answered: usize,
    pub(crate) log: Counts,
    pub(crate) database: Counts,
}

/// A run over two files.
#[derive(Drop)]
pub(crate) struct Run {
    pub(crate) files: Pair,
    pub(crate) progress: Progress,
    /// Whether the next step was stopped.
    pub(crate) is_stopped: bool,
}

impl Run {
    /// A run over new files, one of which answers so many calls, and then fails each. It fails as the steps do, but for
    /// `Storage`, which is a stop.
    pub(crate) fn until_stop(
        alloc: Global,
        script: &Script,
        writes: Writes,
        until: Until,
    ) -> Result<Run, Fault> {
        let mut files = writes.new_files(alloc);
        let mut steps = Steps::of(script);
        let ended = over_files(alloc, &mut files, until, writes, &mut steps);
        Run::over(files, steps.answered, ended)
    }

    /// The run over files whose steps ended so after so many answers. It fails as they did, but for `Storage`, which is
    /// a stop.
    pub(crate) fn over(
        files: Pair,
        answered: usize,
        ended: Result<(), Fault>,
    ) -> Result<Run, Fault> {
        let is_stopped = match ended {
            Ok(()) => false,
            Err(Fault::Storage) => true,
            Err(fault) => return Err(fault),
        };
        let progress = Progress {
            answered,
            log: files.counts(Part::Log),
            database: files.counts(Part::Database),
        };
        Ok(Run {
            files,
            progress,
            is_stopped,
        })
    }
}

/// Feeds the events in turn, and counts those that were answered.
fn feed_all<S: Store>(
    hub: &mut Hub<S>,
    events: &[Event],
    answered: &mut usize,
) -> Result<(), Fault> {
    for event in events {
        feed(hub, event)?;
        *answered = answered.saturating_add(1);
    }
    Ok(())
}

/// Feeds an event, and answers the bytes of its reply.
pub(crate) fn feed<S: Store>(hub: &mut Hub<S>, event: &Event) -> Result<Vec<u8>, Fault> {
    let piece = event.piece.as_slice();
    hub.feed(event.conn, piece, event.moment, &event.words)
}

/// All rows of a database.
pub(crate) fn rows_of<S: Alter>(alloc: Global, records: &mut SqlRecords<S>) -> Result<Rows, Fault> {
    let mut tx = records.begin()?;
    Rows::of(alloc, &mut tx)
}

/// The start of a broker, and events that it is fed.
#[derive(Clone, Copy)]
pub(crate) struct Steps<'s> {
    start: &'s Start,
    events: &'s [Event],
    /// How many steps were answered.
    answered: usize,
}

impl<'s> Steps<'s> {
    /// None was answered so far.
    pub(crate) fn new(start: &'s Start, events: &'s [Event]) -> Steps<'s> {
        Steps {
            start,
            events,
            answered: 0,
        }
    }

    /// All of a script.
    pub(crate) fn of(script: &'s Script) -> Steps<'s> {
        Steps::new(&script.start, script.events.as_slice())
    }

    /// The start, and so many events of a script, or all if it has fewer.
    pub(crate) fn first(script: &'s Script, count: usize) -> Steps<'s> {
        let all = script.events.as_slice();
        Steps::new(&script.start, all.get(..count).unwrap_or(all))
    }

    /// The broker over records without rows once these steps were taken. It fails with `BadStart` if there are rows.
    pub(crate) fn take<S: Alter + Drop>(
        &mut self,
        alloc: Global,
        mut records: SqlRecords<S>,
    ) -> Result<Hub<SqlStore<S>>, Fault> {
        let root = prepare(alloc, &mut records, self.start.moment, &self.start.words)?;
        if root.is_none() {
            return Err(Fault::BadStart);
        }
        self.answered = 1;
        let mut hub = Hub::new(alloc, SqlStore::new(alloc, records));
        feed_all(&mut hub, self.events, &mut self.answered)?;
        Ok(hub)
    }
}

impl<'s> OverRecords for Steps<'s> {
    type Came = ();

    const CLOSES: bool = true;

    fn run<S: Alter + Drop>(
        &mut self,
        alloc: Global,
        records: SqlRecords<S>,
    ) -> Result<(SqlRecords<S>, ()), Fault> {
        let hub = self.take(alloc, records)?;
        Ok((hub.into_store().into_records(), ()))
    }
}

/// All rows, before any step.
#[derive(Drop)]
struct FirstRows;

impl OverRecords for FirstRows {
    type Came = Rows;

    fn run<S: Alter + Drop>(
        &mut self,
        alloc: Global,
        mut records: SqlRecords<S>,
    ) -> Result<(SqlRecords<S>, Rows), Fault> {
        let rows = rows_of(alloc, &mut records)?;
        Ok((records, rows))
    }
}

/// All rows after steps.
#[derive(Drop)]
struct RowsAfter<'s>(Steps<'s>);

impl<'s> OverRecords for RowsAfter<'s> {
    type Came = Rows;

    fn run<S: Alter + Drop>(
        &mut self,
        alloc: Global,
        records: SqlRecords<S>,
    ) -> Result<(SqlRecords<S>, Rows), Fault> {
        let hub = self.0.take(alloc, records)?;
        FirstRows.run(alloc, hub.into_store().into_records())
    }
}

/// The rows before the start, after it, and after each event, of a broker in a database in memory.
pub(crate) fn all_states(alloc: Global, script: &Script) -> Result<Vec<Rows>, Fault> {
    let mut states = Vec::new(alloc);
    states.push(in_memory(alloc, &mut FirstRows)?)?;
    for count in 0..=script.events.len() {
        states.push(in_memory(alloc, &mut RowsAfter(Steps::first(script, count)))?)?;
    }
    Ok(states)
}

/// The reply to an event after steps.
#[derive(Drop)]
pub(crate) struct ReplyAfter<'s> {
    pub(crate) steps: Steps<'s>,
    pub(crate) event: &'s Event,
}

impl<'s> OverRecords for ReplyAfter<'s> {
    type Came = Vec<u8>;

    fn run<S: Alter + Drop>(
        &mut self,
        alloc: Global,
        records: SqlRecords<S>,
    ) -> Result<(SqlRecords<S>, Vec<u8>), Fault> {
        let mut hub = self.steps.take(alloc, records)?;
        let reply = feed(&mut hub, self.event)?;
        Ok((hub.into_store().into_records(), reply))
    }
}
