//! Rows over which requests are tried, each in a transaction that is given up, and then answered.

ghost use Rattle.std.specs.Prelude.{IfOk};
ghost use Rattle.broker_types.specs.Answer.{HasRoom, response_of};
ghost use Rattle.broker_model.specs.ListedResponses.{IsListed};

use broker::handle;
use broker_rows::write_first_rows;
use broker_types::{Answer, Ask, Fault, Moment, Words};
use records::{ListRecords, RecordsTx};
use records_sql::SqlRecords;
use replay::Start;
use sqlite::Alter;
use std::alloc::Global;
use trial_rows::{FailingTx, Rows};

/// A request, as a store is asked it.
#[derive(Clone, Copy)]
pub(crate) struct Request<'r, 'a> {
    pub(crate) moment: Moment,
    pub(crate) words: &'r Words,
    pub(crate) ask: &'r Ask<'a>,
}

/// What came of a request over a transaction that fails.
#[derive(Clone, Copy, Debug, PartialEq, Eq)]
pub(crate) struct Outcome {
    /// How many calls were passed on.
    pub(crate) calls: u64,
    /// How many of them put a row or removed one.
    pub(crate) writes: u64,
    /// Whether the next call failed.
    pub(crate) has_failed: bool,
    /// Whether the request was answered by `Storage`.
    pub(crate) is_storage: bool,
}

/// Asks a request over a transaction of which so many calls are passed on.
fn attempt<T: RecordsTx>(alloc: Global, tx: &mut T, passes: u64, request: &Request) -> Outcome {
    let mut failing = FailingTx::new(tx, passes);
    let answered = handle(
        alloc,
        &mut failing,
        request.moment,
        request.words,
        request.ask,
    );
    Outcome {
        calls: failing.calls(),
        writes: failing.writes(),
        has_failed: failing.failed(),
        is_storage: matches!(answered, Err(Fault::Storage)),
    }
}

/// Writes the rows of the first broker. It fails with `BadStart` if two words of the start are equal.
fn write_start<T: RecordsTx>(alloc: Global, tx: &mut T, start: &Start) -> Result<(), Fault> {
    let words = start.words.0;
    if words[1] == words[2] {
        return Err(Fault::BadStart);
    }
    write_first_rows(alloc, tx, start.moment, words[1], words[2])?;
    Ok(())
}

/// The rows of a broker. Each call fails with `Memory` if memory runs out, and with `Storage` if the storage fails.
pub(crate) trait Base {
    /// Makes the first broker.
    fn start(&mut self, start: &Start) -> Result<(), Fault>;

    /// Asks a request over a transaction of which so many calls are passed on, and gives the transaction up.
    fn attempt(&mut self, passes: u64, request: &Request) -> Result<Outcome, Fault>;

    /// Answers a request, as a store does.
    fn answer(&mut self, request: &Request) -> Result<Answer, Fault>
        ensures room { IfOk result HasRoom }
        ensures listed { IfOk result (λ a. IsListed (response_of a)) };

    /// All rows.
    fn rows(&mut self) -> Result<Rows, Fault>;
}

/// The rows of a broker in a list.
#[derive(Drop)]
pub(crate) struct ListBase {
    alloc: Global,
    records: ListRecords,
}

impl ListBase {
    /// No rows.
    pub(crate) fn new(alloc: Global) -> ListBase {
        ListBase {
            alloc,
            records: ListRecords::new(alloc),
        }
    }
}

impl Base for ListBase {
    fn start(&mut self, start: &Start) -> Result<(), Fault> {
        let mut tx = self.records.begin()?;
        write_start(self.alloc, &mut tx, start)?;
        self.records.commit(tx);
        Ok(())
    }

    fn attempt(&mut self, passes: u64, request: &Request) -> Result<Outcome, Fault> {
        let mut tx = self.records.begin()?;
        Ok(attempt(self.alloc, &mut tx, passes, request))
    }

    fn answer(&mut self, request: &Request) -> Result<Answer, Fault> {
        let mut tx = self.records.begin()?;
        let answer = handle(
            self.alloc,
            &mut tx,
            request.moment,
            request.words,
            request.ask,
        )?;
        self.records.commit(tx);
        Ok(answer)
    }

    fn rows(&mut self) -> Result<Rows, Fault> {
        Rows::of(self.alloc, &mut self.records.begin()?)
    }
}

/// The rows of a broker in a database.
#[derive(Drop)]
pub(crate) struct SqlBase<S: Alter> {
    alloc: Global,
    records: SqlRecords<S>,
}

impl<S: Alter> SqlBase<S> {
    /// The rows of these records.
    pub(crate) fn new(alloc: Global, records: SqlRecords<S>) -> SqlBase<S> {
        SqlBase { alloc, records }
    }
}

impl<S: Alter> Base for SqlBase<S> {
    fn start(&mut self, start: &Start) -> Result<(), Fault> {
        let mut tx = self.records.begin()?;
        write_start(self.alloc, &mut tx, start)?;
        tx.commit()
    }

    fn attempt(&mut self, passes: u64, request: &Request) -> Result<Outcome, Fault> {
        let mut tx = self.records.begin()?;
        Ok(attempt(self.alloc, &mut tx, passes, request))
    }

    fn answer(&mut self, request: &Request) -> Result<Answer, Fault> {
        let mut tx = self.records.begin()?;
        let answer = handle(
            self.alloc,
            &mut tx,
            request.moment,
            request.words,
            request.ask,
        )?;
        tx.commit()?;
        Ok(answer)
    }

    fn rows(&mut self) -> Result<Rows, Fault> {
        let mut tx = self.records.begin()?;
        Rows::of(self.alloc, &mut tx)
    }
}
