//! A transaction that fails.

ghost use Rattle.std.specs.Prelude.{◌≡◌, true, IfErr, OnOk, OnErr};

use broker_types::{Fault, Moment};
use records::{Entry, Kind, RecordsTx, Row};

/// A transaction that passes so many calls on to another one, and fails each later call as `Storage`.
#[derive(Drop)]
pub struct FailingTx<'t, T: RecordsTx> {
    tx: &'t mut T,
    passes: u64,
    calls: u64,
    writes: u64,
    has_failed: bool,
}

impl<'t, T: RecordsTx> FailingTx<'t, T> {
    /// A transaction that passes so many calls on. None has failed so far.
    pub fn new(tx: &'t mut T, passes: u64) -> FailingTx<'t, T> {
        FailingTx {
            tx,
            passes,
            calls: 0,
            writes: 0,
            has_failed: false,
        }
    }

    /// How many calls were passed on.
    pub fn calls(&self) -> u64 {
        self.calls
    }

    /// How many of them put a row or removed one.
    pub fn writes(&self) -> u64 {
        self.writes
    }

    /// Counts a call that is passed on. It fails if no more calls are.
    fn pass(&mut self) -> Result<(), Fault>
        ensures same { self.new.tx ≡ self.old.tx }
        ensures passed { OnOk result (self.new.has_failed ≡ self.old.has_failed) }
        ensures failing { OnErr result (self.new.has_failed ≡ true) }
        ensures faults { IfErr result (λ fault. fault ≡ Fault.Storage) }
    {
        if self.calls >= self.passes {
            self.has_failed = true;
            return Err(Fault::Storage);
        }
        self.calls = self.calls.saturating_add(1);
        Ok(())
    }

    /// The same, for a call that changes a row.
    fn pass_write(&mut self) -> Result<(), Fault>
        ensures same { self.new.tx ≡ self.old.tx }
        ensures passed { OnOk result (self.new.has_failed ≡ self.old.has_failed) }
        ensures failing { OnErr result (self.new.has_failed ≡ true) }
        ensures faults { IfErr result (λ fault. fault ≡ Fault.Storage) }
    {
        self.pass()?;
        self.writes = self.writes.saturating_add(1);
        Ok(())
    }
}

impl<'t, T: RecordsTx> RecordsTx for FailingTx<'t, T> {
    ghost use Rattle.std.specs.Prelude.{◌||◌};

    ghost seen = { λ s.
        let within = T.RecordsTx.seen s.tx.now in
        record within { has_failed = within.has_failed || s.has_failed } };

    fn get(&mut self, kind: Kind, key: &str) -> Result<Option<Row>, Fault> {
        self.pass()?;
        self.tx.get(kind, key)
    }

    fn put(&mut self, kind: Kind, key: &str, row: Row) -> Result<(), Fault> {
        self.pass_write()?;
        self.tx.put(kind, key, row)
    }

    fn remove(&mut self, kind: Kind, key: &str) -> Result<(), Fault> {
        self.pass_write()?;
        self.tx.remove(kind, key)
    }

    fn under(&mut self, kind: Kind, prefix: &str) -> Result<Vec<Entry>, Fault> {
        self.pass()?;
        self.tx.under(kind, prefix)
    }

    fn under_from(
        &mut self,
        kind: Kind,
        prefix: &str,
        from: &str,
        count: u32,
    ) -> Result<Vec<Entry>, Fault> {
        self.pass()?;
        self.tx.under_from(kind, prefix, from, count)
    }

    fn under_upto(&mut self, kind: Kind, prefix: &str, last: &str) -> Result<Vec<Entry>, Fault> {
        self.pass()?;
        self.tx.under_upto(kind, prefix, last)
    }

    fn by_owner(&mut self, kind: Kind, owner: &str) -> Result<Vec<Entry>, Fault> {
        self.pass()?;
        self.tx.by_owner(kind, owner)
    }

    fn due_until(&mut self, moment: Moment) -> Result<Vec<Entry>, Fault> {
        self.pass()?;
        self.tx.due_until(moment)
    }

    fn failed(&self) -> bool {
        self.tx.failed() || self.has_failed
    }
}
