//! A transaction that cannot list the rows under a prefix.

use broker_types::{Fault, Moment};
use records::{Entry, Kind, ListTx, RecordsTx, Row};

/// A transaction in memory whose lists under a prefix fail as `Storage`. What is answered over it has listed nothing.
#[derive(Drop)]
pub struct Unlisted {
    /// The transaction that is asked for all else.
    pub tx: ListTx,
    /// Whether a list under a prefix was asked for.
    pub was_listed: bool,
}

impl RecordsTx for Unlisted {
    ghost use Rattle.std.specs.Prelude.{◌||◌};

    ghost seen = { λ s.
        let within = ⟦<ListTx as RecordsTx>⟧.seen s.tx in
        record within { has_failed = within.has_failed || s.was_listed } };

    fn get(&mut self, kind: Kind, key: &str) -> Result<Option<Row>, Fault> {
        self.tx.get(kind, key)
    }

    fn put(&mut self, kind: Kind, key: &str, row: Row) -> Result<(), Fault> {
        self.tx.put(kind, key, row)
    }

    fn remove(&mut self, kind: Kind, key: &str) -> Result<(), Fault> {
        self.tx.remove(kind, key)
    }

    fn under(&mut self, _kind: Kind, _prefix: &str) -> Result<Vec<Entry>, Fault> {
        self.was_listed = true;
        Err(Fault::Storage)
    }

    fn under_from(
        &mut self,
        _kind: Kind,
        _prefix: &str,
        _from: &str,
        _count: u32,
    ) -> Result<Vec<Entry>, Fault> {
        self.was_listed = true;
        Err(Fault::Storage)
    }

    fn under_upto(&mut self, _kind: Kind, _prefix: &str, _last: &str) -> Result<Vec<Entry>, Fault> {
        self.was_listed = true;
        Err(Fault::Storage)
    }

    fn by_owner(&mut self, kind: Kind, owner: &str) -> Result<Vec<Entry>, Fault> {
        self.tx.by_owner(kind, owner)
    }

    fn due_until(&mut self, moment: Moment) -> Result<Vec<Entry>, Fault> {
        self.tx.due_until(moment)
    }

    fn failed(&self) -> bool {
        self.tx.failed() || self.was_listed
    }
}
