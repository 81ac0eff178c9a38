//! The lines of a replay, where a request that met a fault is sent once more.

use crate::memory::{OverSql, in_memory};
use crate::script::script_exit;
use broker::{ListStore, Store};
use broker_sql::SqlStore;
use broker_types::Fault;
use endpoints::{Failed, Sink};
use hub::{Event, Hub};
use records_sql::SqlRecords;
use replay::{Exit, Script};
use sqlite::Alter;
use std::alloc::Global;
use std::io::Eprint;
use trial_rows::Rows;

/// How far the number of a connection is from that of the one before, which was closed by a fault.
const NEXT: u64 = 1_000_000;

/// A store whose rows may be looked at between two requests.
pub(crate) trait Looked: Store {
    /// The hub, and whether its rows are those after the first so many events of the script; none if they cannot be
    /// looked at. It fails if memory runs out or the storage fails; the hub is gone then.
    fn look(
        alloc: Global,
        hub: Hub<Self>,
        script: &Script,
        count: usize,
    ) -> Result<(Hub<Self>, Option<bool>), Fault>;
}

impl Looked for ListStore {
    fn look(
        _: Global,
        hub: Hub<ListStore>,
        _: &Script,
        _: usize,
    ) -> Result<(Hub<ListStore>, Option<bool>), Fault> {
        Ok((hub, None))
    }
}

impl<S: Alter + Drop> Looked for SqlStore<S> {
    fn look(
        alloc: Global,
        hub: Hub<SqlStore<S>>,
        script: &Script,
        count: usize,
    ) -> Result<(Hub<SqlStore<S>>, Option<bool>), Fault> {
        let wanted = in_memory(alloc, &mut RowsAfter { script, count })?;
        let (store, rows) = rows_in(alloc, hub.into_store())?;
        Ok((Hub::new(alloc, store), Some(rows.are(&wanted))))
    }
}

/// The store again, and its rows.
fn rows_in<S: Alter + Drop>(
    alloc: Global,
    store: SqlStore<S>,
) -> Result<(SqlStore<S>, Rows), Fault> {
    let mut records = store.into_records();
    let rows = rows_of(alloc, &mut records)?;
    Ok((SqlStore::new(alloc, records), rows))
}

/// The rows of records.
fn rows_of<S: Alter>(alloc: Global, records: &mut SqlRecords<S>) -> Result<Rows, Fault> {
    let mut tx = records.begin()?;
    Rows::of(alloc, &mut tx)
}

/// The rows after the start and the first so many events of a script.
#[derive(Drop)]
struct RowsAfter<'s> {
    script: &'s Script,
    count: usize,
}

impl<'s> OverSql for RowsAfter<'s> {
    type Came = Rows;

    fn run<S: Alter + Drop>(
        &mut self,
        alloc: Global,
        mut store: SqlStore<S>,
    ) -> Result<Rows, Fault> {
        store.start(self.script.start.moment, &self.script.start.words)?;
        let mut hub = Hub::new(alloc, store);
        feed_first(&mut hub, self.script, self.count)?;
        rows_of(alloc, &mut hub.into_store().into_records())
    }
}

/// Feeds the first so many events of a script.
fn feed_first<S: Store>(hub: &mut Hub<S>, script: &Script, count: usize) -> Result<(), Fault> {
    for event in script.events.iter().take(count) {
        feed(hub, event, 0)?;
    }
    Ok(())
}

/// Starts a broker in a list of rows, and runs the script over it.
pub(crate) fn retry_over_list<R: Eprint, W: Sink>(
    rt: &R,
    alloc: Global,
    script: &Script,
    writer: &mut W,
) -> Exit {
    let mut store = ListStore::new(alloc);
    match store.start(script.start.moment, &script.start.words) {
        Ok(_) => run_retrying(rt, alloc, Hub::new(alloc, store), script, writer),
        Err(fault) => Exit::from(fault),
    }
}

/// Starts a broker in a database in memory, and runs the script over it.
pub(crate) fn retry_over_sql<R: Eprint, W: Sink>(
    rt: &R,
    alloc: Global,
    script: &Script,
    writer: &mut W,
) -> Exit {
    match in_memory(alloc, &mut Retrying { rt, script, writer }) {
        Ok(exit) => exit,
        Err(fault) => Exit::from(fault),
    }
}

/// The start of a broker, and a run of the script over it.
#[derive(Drop)]
struct Retrying<'t, R: Eprint, W: Sink> {
    rt: &'t R,
    script: &'t Script,
    writer: &'t mut W,
}

impl<'t, R: Eprint, W: Sink> OverSql for Retrying<'t, R, W> {
    type Came = Exit;

    fn run<S: Alter + Drop>(
        &mut self,
        alloc: Global,
        mut store: SqlStore<S>,
    ) -> Result<Exit, Fault> {
        store.start(self.script.start.moment, &self.script.start.words)?;
        let hub = Hub::new(alloc, store);
        Ok(run_retrying(self.rt, alloc, hub, self.script, self.writer))
    }
}

/// Runs the script over a broker that was started, and writes the replies. After a fault the same piece comes once
/// more, on another connection: so what the fault left is asked. Each fault is told on standard error.
fn run_retrying<R: Eprint, S: Looked + Drop, W: Sink>(
    rt: &R,
    alloc: Global,
    hub: Hub<S>,
    script: &Script,
    writer: &mut W,
) -> Exit {
    match feed_all(rt, alloc, hub, script, writer) {
        Ok(()) => script_exit(script),
        Err(exit) => exit,
    }
}

/// Feeds the events in turn, each twice if it meets a fault, and writes the replies.
fn feed_all<R: Eprint, S: Looked + Drop, W: Sink>(
    rt: &R,
    alloc: Global,
    mut hub: Hub<S>,
    script: &Script,
    writer: &mut W,
) -> Result<(), Exit> {
    let mut shift = 0;
    for (place, event) in script.events.iter().enumerate() {
        let reply = match feed(&mut hub, event, shift) {
            Ok(reply) => reply,
            Err(fault) => {
                shift = NEXT.saturating_add(shift);
                hub = look_and_tell(rt, alloc, hub, script, place, fault)?;
                feed(&mut hub, event, shift)?
            }
        };
        if let Err(Failed) = writer.push(reply.as_slice()) {
            return Err(Exit::Faulted(6));
        }
    }
    if shift == 0 {
        return Ok(());
    }
    tell_end(rt, alloc, hub, script)
}

/// Feeds an event, on the connection that is so far from its own.
fn feed<S: Store>(hub: &mut Hub<S>, event: &Event, shift: u64) -> Result<Vec<u8>, Fault> {
    let conn = event.conn.saturating_add(shift);
    hub.feed(conn, event.piece.as_slice(), event.moment, &event.words)
}

/// Tells the fault of the event at a place, and whether the rows are as before it.
fn look_and_tell<R: Eprint, S: Looked + Drop>(
    rt: &R,
    alloc: Global,
    hub: Hub<S>,
    script: &Script,
    place: usize,
    fault: Fault,
) -> Result<Hub<S>, Exit> {
    let (hub, found) = S::look(alloc, hub, script, place)?;
    let rows = match found {
        None => "",
        Some(true) => ", rows as before",
        Some(false) => ", other rows",
    };
    let event = place.saturating_add(1);
    let number = fault.number();
    match eprintln!(rt; "event {event}: fault {number}{rows}, sent once more") {
        Ok(()) => Ok(hub),
        Err(_) => Err(Exit::Faulted(6)),
    }
}

/// Tells whether the rows at the end of the script are those that it leaves where it meets no fault.
fn tell_end<R: Eprint, S: Looked + Drop>(
    rt: &R,
    alloc: Global,
    hub: Hub<S>,
    script: &Script,
) -> Result<(), Exit> {
    let (_, found) = S::look(alloc, hub, script, script.events.len())?;
    let told = match found {
        None => return Ok(()),
        Some(true) => eprintln!(rt; "at the end: rows as usual"),
        Some(false) => eprintln!(rt; "at the end: other rows"),
    };
    match told {
        Ok(()) => Ok(()),
        Err(_) => Err(Exit::Faulted(6)),
    }
}
