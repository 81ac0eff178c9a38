//! Transactions over rows in SQL.

ghost use Rattle.std.specs.Prelude.{◌≡◌, ◌≤◌, ◌||◌, None, OnOk, OnErr, IfOk, IfErr, is_some};
ghost use Rattle.std.specs.Borrow.{sem, RestsIfErr};
ghost use Rattle.sqlite.specs.Held.{state};
ghost use Rattle.sqlite.specs.State.{HasCleanDisk};
ghost use Rattle.records.specs.Transaction.{is_storage};
ghost use Rattle.records_sql.specs.Causes.{KeepsCause};
ghost use Rattle.records_sql.specs.Refused.{IsRefused};
ghost use Rattle.records_sql.specs.SqlTable.{IsUsable, HasEnded, Stays, rows_of, mismatches};
ghost use Rattle.records_sql.specs.contracts.sql_records.SqlRecords.{the_row};

use crate::sql_records::SqlRecords;
use broker_types::{Fault, Moment};
use records::{Entry, Kind, RecordsTx, Row};
use sqlite::Alter;

/// A transaction of `SqlRecords`. Dropping it rolls back what it wrote.
pub struct SqlTx<'c, S: Alter> {
    pub(crate) records: &'c mut SqlRecords<S>,
}

impl<S: Alter> SqlRecords<S> {
    /// Begins a transaction, which shows the rows that were committed; what is still open is rolled back first. The
    /// only error is `Storage`: the rows are as before, and `failed` says so.
    pub fn begin(&mut self) -> Result<SqlTx<'_, S>, Fault>
        ensures* refused { sem 𝓛 (RestsIfErr (the_row S.row S.Store) self.entry (λ tx. tx.records.ghost_name) result
            (IsRefused S.Store self.old)) }
        ensures same_reference { IfOk result (λ tx. tx.records.ghost_name ≡ self.entry.ghost_name) }
        ensures begun { IfOk result (λ tx. HasCleanDisk (state S.Store tx.records.now.conn)
            → rows_of (state S.Store tx.records.now.conn).now.trees
            ≡ rows_of (state S.Store self.old.conn).committed.trees) }
        ensures stays { IfOk result (λ tx. Stays (state S.Store self.old.conn) (state S.Store tx.records.now.conn)) }
        ensures failing { IfOk result (λ tx. tx.records.now.failure ≡ None) }
        ensures faults { IfErr result (λ fault. fault ≡ Fault.Storage) }
    {
        self.start()?;
        Ok(SqlTx { records: self })
    }
}

impl<S: Alter> SqlTx<'_, S> {
    /// Makes what the transaction wrote the rows. The only error is `Storage`, also if a call in the transaction has
    /// answered it; the rows are then as before.
    pub fn commit(self) -> Result<(), Fault>
        ensures committed { HasCleanDisk (state S.Store self.exit.0.now.conn) → OnOk result
            (rows_of (state S.Store self.exit.0.now.conn).committed.trees
            ≡ rows_of (state S.Store self.entry.records.now.conn).now.trees) }
        ensures stands { HasCleanDisk (state S.Store self.exit.0.now.conn)
            → OnOk result (IsUsable (state S.Store self.exit.0.now.conn)) }
        ensures kept { OnErr result
            (Stays (state S.Store self.entry.records.now.conn) (state S.Store self.exit.0.now.conn)) }
        ensures ended { HasEnded (state S.Store self.exit.0.now.conn) }
        ensures mismatches { mismatches (state S.Store self.entry.records.now.conn)
            ≤ mismatches (state S.Store self.exit.0.now.conn) }
        ensures closes { IsUsable (state S.Store self.exit.0.now.conn)
            → IsUsable (state S.Store self.entry.records.now.conn) }
        ensures failing { is_some self.exit.0.now.failure
            ≡ (is_some self.entry.records.now.failure || is_storage result) }
        ensures cause { KeepsCause (is_storage result) self.entry.records.now.failure self.exit.0.now.failure }
        ensures faults { IfErr result (λ fault. fault ≡ Fault.Storage) }
    {
        let SqlTx { records } = self;
        records.finish()
    }
}

impl<S: Alter> Drop for SqlTx<'_, S> {
    fn drop(self)
        ensures stays { Stays (state S.Store self.entry.records.now.conn) (state S.Store self.exit.0.now.conn) }
        ensures ended { HasEnded (state S.Store self.exit.0.now.conn) }
        ensures failing { self.exit.0.now.failure ≡ self.entry.records.now.failure }
    {
        let SqlTx { records } = self;
        records.roll_back();
    }
}

impl<'c, S: Alter> RecordsTx for SqlTx<'c, S> {
    ghost use Rattle.std.specs.Prelude.{is_some};
    ghost use Rattle.sqlite.specs.Held.{state};
    ghost use Rattle.records_sql.specs.SqlTable.{seen_of};

    ghost seen = { λ t.
        seen_of (state S.Store t.records.now.conn) t.records.ghost_name (is_some t.records.now.failure) };

    fn get(&mut self, kind: Kind, key: &str) -> Result<Option<Row>, Fault> {
        self.records.get(kind, key)
    }

    fn put(&mut self, kind: Kind, key: &str, row: Row) -> Result<(), Fault> {
        self.records.put(kind, key, &row)
    }

    fn remove(&mut self, kind: Kind, key: &str) -> Result<(), Fault> {
        self.records.remove(kind, key)
    }

    fn under(&mut self, kind: Kind, prefix: &str) -> Result<Vec<Entry>, Fault> {
        self.records.under(kind, prefix)
    }

    fn under_from(
        &mut self,
        kind: Kind,
        prefix: &str,
        from: &str,
        count: u32,
    ) -> Result<Vec<Entry>, Fault> {
        self.records.under_from(kind, prefix, from, count)
    }

    fn under_upto(&mut self, kind: Kind, prefix: &str, last: &str) -> Result<Vec<Entry>, Fault> {
        self.records.under_upto(kind, prefix, last)
    }

    fn by_owner(&mut self, kind: Kind, owner: &str) -> Result<Vec<Entry>, Fault> {
        self.records.by_owner(kind, owner)
    }

    fn due_until(&mut self, moment: Moment) -> Result<Vec<Entry>, Fault> {
        self.records.due_until(moment)
    }

    fn failed(&self) -> bool {
        self.records.failed()
    }
}
