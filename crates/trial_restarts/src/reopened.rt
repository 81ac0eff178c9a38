//! The lines of a replay over files that are opened for each request, and closed after it.

use crate::disk::pair::Pair;
use crate::opening::{OverRecords, Until, Writes, over_files};
use crate::running::Steps;
use crate::script::script_of;
use broker::{Noticed, Store};
use broker_sql::{SqlStore, prepare};
use broker_types::{Answer, Ask, Fault, Moment, Words};
use endpoints::{Sink, Source};
use hub::Hub;
use records_sql::SqlRecords;
use replay::{Exit, Script, Start, run_script};
use sqlite::Alter;
use std::alloc::Global;

/// A store in two files in memory, which are open while a request is answered. Nothing is said of its rows: what it
/// answers is for tests to compare.
#[derive(Drop)]
struct Reopened {
    alloc: Global,
    writes: Writes,
    files: Pair,
    has_failed: bool,
}

impl Reopened {
    /// A store in files that are empty.
    fn new(alloc: Global, writes: Writes) -> Reopened {
        Reopened {
            alloc,
            writes,
            files: writes.new_files(alloc),
            has_failed: false,
        }
    }

    /// Makes the first broker.
    fn start(&mut self, start: &Start) -> Result<(), Fault> {
        let mut steps = Steps::new(start, &[]);
        over_files(
            self.alloc,
            &mut self.files,
            Until::NEVER,
            self.writes,
            &mut steps,
        )
    }
}

impl Store for Reopened {
    ghost use Rattle.std.specs.FinMap as map;
    ghost use Rattle.std.specs.Prelude.{false};

    ghost seen = { λ r. record { rows = map.empty; mismatches = 1; has_failed = r.has_failed; is_open = false } };

    fn one(&mut self, moment: Moment, words: &Words, ask: &Ask<'_>) -> Result<Answer, Fault> {
        let mut request = Request { moment, words, ask };
        let answered = over_files(
            self.alloc,
            &mut self.files,
            Until::NEVER,
            self.writes,
            &mut request,
        );
        self.has_failed = matches!(answered, Err(Fault::Storage));
        answered
    }

    fn failed(&self) -> bool {
        self.has_failed
    }

    fn noticed(&self) -> Noticed {
        Noticed::nothing()
    }
}

/// A request of the broker that is in files.
#[derive(Drop)]
struct Request<'r, 'a> {
    moment: Moment,
    words: &'r Words,
    ask: &'r Ask<'a>,
}

impl<'r, 'a> OverRecords for Request<'r, 'a> {
    ghost use Rattle.broker_types.specs.Answer.{HasRoom, response_of};
    ghost use Rattle.broker_model.specs.ListedResponses.{IsListed};

    type Came = Answer;

    ghost fits = { λ a. HasRoom a × IsListed (response_of a) };

    const CLOSES: bool = true;

    fn run<S: Alter + Drop>(
        &mut self,
        alloc: Global,
        mut records: SqlRecords<S>,
    ) -> Result<(SqlRecords<S>, Answer), Fault> {
        if prepare(alloc, &mut records, self.moment, self.words)?.is_some() {
            return Err(Fault::BadStart);
        }
        let mut store = SqlStore::new(alloc, records);
        let answer = store.one(self.moment, self.words, self.ask)?;
        Ok((store.into_records(), answer))
    }
}

/// Runs the lines of the source over a broker in files, which are opened for each request and closed after it, and
/// writes the bytes of their replies.
pub(crate) fn replay_reopened<R: Source, W: Sink>(
    alloc: Global,
    writes: Writes,
    reader: &mut R,
    writer: &mut W,
) -> Exit {
    match script_of(alloc, reader) {
        Ok(script) => run_reopened(alloc, writes, &script, writer),
        Err(exit) => exit,
    }
}

/// Starts a broker in new files, and runs the script over it.
fn run_reopened<W: Sink>(alloc: Global, writes: Writes, script: &Script, writer: &mut W) -> Exit {
    let mut store = Reopened::new(alloc, writes);
    if let Err(fault) = store.start(&script.start) {
        return Exit::from(fault);
    }
    run_script(alloc, &mut Hub::new(alloc, store), script, writer)
}
