//! The lines of a replay over a store whose transactions fail.

use crate::base::{Base, SqlBase};
use crate::ending::End;
use crate::failing::{Failing, Tally, Way};
use crate::memory::{OverSql, in_memory};
use crate::script::script_exit;
use broker_sql::SqlStore;
use broker_types::Fault;
use endpoints::{Failed, Sink};
use hub::{Event, Hub};
use replay::{Exit, Script};
use sqlite::Alter;
use std::alloc::Global;
use std::io::Eprint;

/// Does what `run_failing` does, over a database in memory.
pub(crate) fn run_failing_in_memory<R: Eprint, W: Sink>(
    rt: &R,
    alloc: Global,
    way: Way,
    script: &Script,
    writer: &mut W,
) -> End {
    match in_memory(
        alloc,
        &mut FailingRun {
            rt,
            way,
            script,
            writer,
        },
    ) {
        Ok(end) => end,
        Err(fault) => End::from(fault),
    }
}

/// A run of a script over rows, of which calls fail in a way.
#[derive(Drop)]
struct FailingRun<'t, R: Eprint, W: Sink> {
    rt: &'t R,
    way: Way,
    script: &'t Script,
    writer: &'t mut W,
}

impl<'t, R: Eprint, W: Sink> OverSql for FailingRun<'t, R, W> {
    type Came = End;

    fn run<S: Alter + Drop>(&mut self, alloc: Global, store: SqlStore<S>) -> Result<End, Fault> {
        let base = SqlBase::new(alloc, store.into_records());
        Ok(run_failing(self.rt, alloc, base, self.way, self.script, self.writer))
    }
}

/// Starts a broker in rows, runs the script over them while calls fail in this way, and writes the replies. Each event
/// that met a fault is told on standard error, and at the end how many calls failed.
pub(crate) fn run_failing<R: Eprint, B: Base + Drop, W: Sink>(
    rt: &R,
    alloc: Global,
    mut base: B,
    way: Way,
    script: &Script,
    writer: &mut W,
) -> End {
    if let Err(fault) = base.start(&script.start) {
        return End::from(fault);
    }
    let mut hub = Hub::new(alloc, Failing::new(base, way));
    let fed = feed_all(rt, &mut hub, script.events.as_slice(), writer);
    let store = hub.into_store();
    if store.is_wrong() {
        return End::Wrong;
    }
    match fed.and_then(|()| tell_tally(rt, store.tally())) {
        Ok(()) => End::Replayed(script_exit(script)),
        Err(exit) => End::Replayed(exit),
    }
}

/// Feeds the events in turn, and writes the replies. After a fault, but `Storage`, no more are fed.
fn feed_all<R: Eprint, B: Base, W: Sink>(
    rt: &R,
    hub: &mut Hub<Failing<B>>,
    events: &[Event],
    writer: &mut W,
) -> Result<(), Exit> {
    for (place, event) in events.iter().enumerate() {
        let piece = event.piece.as_slice();
        match hub.feed(event.conn, piece, event.moment, &event.words) {
            Ok(reply) => {
                if let Err(Failed) = writer.push(reply.as_slice()) {
                    return Err(Exit::Faulted(6));
                }
            }
            Err(fault) => {
                tell_fault(rt, place, fault)?;
                if fault != Fault::Storage {
                    return Err(Exit::from(fault));
                }
            }
        }
    }
    Ok(())
}

/// Tells the fault of the event at a place.
fn tell_fault<R: Eprint>(rt: &R, place: usize, fault: Fault) -> Result<(), Exit> {
    let event = place.saturating_add(1);
    let number = fault.number();
    match eprintln!(rt; "event {event}: fault {number}") {
        Ok(()) => Ok(()),
        Err(_) => Err(Exit::Faulted(6)),
    }
}

/// Tells how many calls failed.
fn tell_tally<R: Eprint>(rt: &R, tally: Tally) -> Result<(), Exit> {
    let Tally {
        calls,
        after_writes,
        requests,
    } = tally;
    match eprintln!(rt;
        "{calls} calls failed in {requests} events, {after_writes} of them after a write"
    ) {
        Ok(()) => Ok(()),
        Err(_) => Err(Exit::Faulted(6)),
    }
}
