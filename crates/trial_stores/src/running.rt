//! The lines of a replay over the list of rows. `replay::replay` does the same over a database.

use crate::script::script_of;
use broker::ListStore;
use endpoints::{Sink, Source};
use hub::Hub;
use replay::{Exit, Script, run_script};
use std::alloc::Global;

/// Runs the lines of the source over a broker in a list of rows, up to the first that is bad, and writes the bytes of
/// their replies.
pub(crate) fn replay_over_list<R: Source, W: Sink>(
    alloc: Global,
    reader: &mut R,
    writer: &mut W,
) -> Exit {
    match script_of(alloc, reader) {
        Ok(script) => run_over_list(alloc, &script, writer),
        Err(exit) => exit,
    }
}

/// Starts a broker in a list of rows, and runs the script over it.
fn run_over_list<W: Sink>(alloc: Global, script: &Script, writer: &mut W) -> Exit {
    let mut store = ListStore::new(alloc);
    if let Err(fault) = store.start(script.start.moment, &script.start.words) {
        return Exit::from(fault);
    }
    run_script(alloc, &mut Hub::new(alloc, store), script, writer)
}
