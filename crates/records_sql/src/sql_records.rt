//! Rows in a table of a database.

ghost use Rattle.std.specs.Prelude.{◌≡◌, ◌≤◌, ◌||◌, true, false, IsTrue, OnOk, OnErr, IfOk, IfErr, Some, is_some};
ghost use Rattle.std.specs.Prelude.{option_map, take};
ghost use Rattle.std.specs.Option.{option_copied};
ghost use Rattle.std.specs.FinMap as map;
ghost use Rattle.sqlite.specs.Held.{state};
ghost use Rattle.sqlite.specs.State.{HasCleanDisk};
ghost use Rattle.broker_types.specs.Fault.{IsMemoryOrStorage};
ghost use Rattle.records.specs.DueRows.{AreDue};
ghost use Rattle.records.specs.Transaction.{Rows, is_storage, rows_under, rows_from, rows_upto, rows_owned};
ghost use Rattle.records_sql.specs.Causes.{KeepsCause, after};
ghost use Rattle.records_sql.specs.Memory.{Agrees};
ghost use Rattle.records_sql.specs.Props.{state_props, AgreesAt-prop};
ghost use Rattle.records_sql.specs.SqlTable.{IsSoundAt, IsActive, AgreesAt, IsUsable, HasEnded, Stays};
ghost use Rattle.records_sql.specs.SqlTable.{rows_of, mismatches};

use crate::cause::Cause;
use crate::commits::Commits;
use crate::failure::{Failure, LastCause};
use crate::numbers::Numbers;
use crate::reading::{bound_above, entries_of, entries_under, first_row, later, whole_entries};
use crate::row_memory::RowMemory;
use crate::statements;
use broker_types::{Fault, Moment};
use records::{Entry, Kind, Row};
use sqlite::{Alter, Connection};
use std::alloc::Global;

/// Rows in the table `broker_rows` of a database, which nothing else writes. A transaction goes over this connection;
/// there is one at a time.
#[derive(Drop)]
pub struct SqlRecords<S: Alter> {
    pub(crate) alloc: Global,
    pub(crate) conn: Connection<S>,
    /// Whether a transaction is open in which nothing has failed. After an error SQLite may have rolled it back, and a
    /// statement would then commit by itself, so none is given to the database any more.
    pub(crate) is_active: bool,
    /// Why the last call failed that answered `Storage` since the last begin that was `Ok`, if one did.
    pub(crate) failure: Failure,
    /// What is known of the rows that a transaction would show, or the open one shows.
    pub(crate) memory: RowMemory,
    pub(crate) numbers: Numbers,
    ghost sound: { IsSoundAt (state S.Store conn) } by { Prim.hlevel state_props },
    ghost active: { IsTrue is_active → IsActive (state S.Store conn) } by { Prim.hlevel state_props },
    ghost remembered: { AgreesAt memory (state S.Store conn) } by { AgreesAt-prop memory (state S.Store conn) },
}

impl<S: Alter> SqlRecords<S> {
    /// Whether a begin, a statement or a commit has answered `Storage` since the last begin that was `Ok`.
    pub fn failed(&self) -> bool
        ensures { result ≡ is_some self.now.failure }
    {
        self.failure.cause().is_some()
    }

    /// Why the last of them failed; there is a cause exactly if one has.
    pub fn cause(&self) -> Option<Cause>
        ensures { result ≡ self.now.failure }
    {
        self.failure.cause()
    }

    /// How many rows of some kinds the opening found.
    pub fn numbers(&self) -> Numbers {
        self.numbers
    }

    /// From now on each cause is told there as well, where it can be read once the records are gone.
    pub fn tell_to(&mut self, place: &LastCause)
        ensures conn { self.new.conn ≡ self.old.conn }
        ensures failing { self.new.failure ≡ self.old.failure }
    {
        self.failure.tell_to(place);
    }

    /// From now on the transactions that are committed are counted there, if they wrote something.
    pub fn count_in(&mut self, commits: &Commits)
        ensures conn { self.new.conn ≡ self.old.conn }
        ensures failing { self.new.failure ≡ self.old.failure }
    {
        self.failure.count_in(commits);
    }

    pub(crate) fn get(&mut self, kind: Kind, key: &str) -> Result<Option<Row>, Fault>
        ensures found { HasCleanDisk (state S.Store self.new.conn) → IfOk result (λ row.
            row ≡ map.get (rows_of (state S.Store self.old.conn).now.trees) (kind, key.now)) }
        ensures same { HasCleanDisk (state S.Store self.new.conn) → OnOk result
            (rows_of (state S.Store self.new.conn).now.trees ≡ rows_of (state S.Store self.old.conn).now.trees) }
        ensures stays { Stays (state S.Store self.old.conn) (state S.Store self.new.conn) }
        ensures failing { is_some self.new.failure ≡ (is_some self.old.failure || is_storage result) }
        ensures cause { KeepsCause (is_storage result) self.old.failure self.new.failure }
        ensures faults { IfErr result IsMemoryOrStorage }
    {
        if !self.is_active {
            self.failure.note(Cause::Closed);
            return Err(Fault::Storage);
        }
        if let Some(row) = self.memory.recalled(kind, key) {
            return Ok(row);
        }
        let rows = match statements::get(&mut self.conn, kind, key) {
            Ok(rows) => rows,
            Err(error) => return Err(lost(
                &mut self.is_active,
                &mut self.failure,
                &mut self.memory,
                Cause::of(error),
            )),
        };
        let Ok(found) = first_row(&rows) else {
            return Err(lost(
                &mut self.is_active,
                &mut self.failure,
                &mut self.memory,
                Cause::Damaged,
            ));
        };
        self.memory.keep(kind, key, found.as_ref());
        Ok(found)
    }

    pub(crate) fn put(&mut self, kind: Kind, key: &str, row: &Row) -> Result<(), Fault>
        ensures rows { HasCleanDisk (state S.Store self.new.conn) → OnOk result
            (rows_of (state S.Store self.new.conn).now.trees
            ≡ map.insert (rows_of (state S.Store self.old.conn).now.trees) (kind, key.now) row.now) }
        ensures stays { Stays (state S.Store self.old.conn) (state S.Store self.new.conn) }
        ensures failing { is_some self.new.failure ≡ (is_some self.old.failure || is_storage result) }
        ensures cause { KeepsCause (is_storage result) self.old.failure self.new.failure }
        ensures faults { IfErr result IsMemoryOrStorage }
    {
        if !self.is_active {
            self.failure.note(Cause::Closed);
            return Err(Fault::Storage);
        }
        self.failure.note_write();
        match statements::put(&mut self.conn, kind, key, row) {
            Ok(_) => {
                self.memory.replace(kind, key, row);
                Ok(())
            }
            Err(error) => Err(lost(
                &mut self.is_active,
                &mut self.failure,
                &mut self.memory,
                Cause::of(error),
            )),
        }
    }

    pub(crate) fn remove(&mut self, kind: Kind, key: &str) -> Result<(), Fault>
        ensures rows { HasCleanDisk (state S.Store self.new.conn) → OnOk result
            (rows_of (state S.Store self.new.conn).now.trees
            ≡ map.remove (rows_of (state S.Store self.old.conn).now.trees) (kind, key.now)) }
        ensures stays { Stays (state S.Store self.old.conn) (state S.Store self.new.conn) }
        ensures failing { is_some self.new.failure ≡ (is_some self.old.failure || is_storage result) }
        ensures cause { KeepsCause (is_storage result) self.old.failure self.new.failure }
        ensures faults { IfErr result IsMemoryOrStorage }
    {
        if !self.is_active {
            self.failure.note(Cause::Closed);
            return Err(Fault::Storage);
        }
        self.failure.note_write();
        match statements::remove(&mut self.conn, kind, key) {
            Ok(_) => {
                self.memory.forget(kind, key);
                Ok(())
            }
            Err(error) => Err(lost(
                &mut self.is_active,
                &mut self.failure,
                &mut self.memory,
                Cause::of(error),
            )),
        }
    }
}

/// Marks a transaction lost in which something failed: SQLite may have rolled it back, so nothing more is asked in it,
/// and nothing is known of its rows. The fault is `Storage`.
fn lost(is_active: &mut bool, failure: &mut Failure, memory: &mut RowMemory, cause: Cause) -> Fault
    ensures inactive { is_active.new ≡ false }
    ensures failing { is_some failure.new ≡ true }
    ensures cause { failure.new ≡ Some (after failure.old cause) }
    ensures forgets { (rows : Rows) → Agrees memory.new rows }
    ensures faults { result ≡ Fault.Storage }
{
    *is_active = false;
    failure.note(cause);
    memory.clear();
    Fault::Storage
}

/// The bytes of a bound.
fn lent(bound: &Option<Vec<u8>>) -> Option<&[u8]>
    ensures { option_copied result ≡ option_map (λ b. b.items) bound.now }
{
    match bound {
        None => None,
        Some(bytes) => Some(bytes.as_slice()),
    }
}

impl<S: Alter> SqlRecords<S> {
    pub(crate) fn under(&mut self, kind: Kind, prefix: &str) -> Result<Vec<Entry>, Fault>
        ensures entries { HasCleanDisk (state S.Store self.new.conn) → IfOk result (λ list.
            list.items ≡ rows_under (rows_of (state S.Store self.old.conn).now.trees) kind prefix.now) }
        ensures same { HasCleanDisk (state S.Store self.new.conn) → OnOk result
            (rows_of (state S.Store self.new.conn).now.trees ≡ rows_of (state S.Store self.old.conn).now.trees) }
        ensures stays { Stays (state S.Store self.old.conn) (state S.Store self.new.conn) }
        ensures failing { is_some self.new.failure ≡ (is_some self.old.failure || is_storage result) }
        ensures cause { KeepsCause (is_storage result) self.old.failure self.new.failure }
        ensures faults { IfErr result IsMemoryOrStorage }
    {
        if !self.is_active {
            self.failure.note(Cause::Closed);
            return Err(Fault::Storage);
        }
        let bound = bound_above(self.alloc, prefix)?;
        let rows = match statements::under(&mut self.conn, kind, prefix, lent(&bound)) {
            Ok(rows) => rows,
            Err(error) => return Err(lost(
                &mut self.is_active,
                &mut self.failure,
                &mut self.memory,
                Cause::of(error),
            )),
        };
        match entries_under(self.alloc, kind, prefix, &rows) {
            Ok(list) => Ok(list),
            Err(Fault::Memory) => Err(Fault::Memory),
            Err(_) => Err(lost(
                &mut self.is_active,
                &mut self.failure,
                &mut self.memory,
                Cause::Damaged,
            )),
        }
    }

    pub(crate) fn under_from(
        &mut self,
        kind: Kind,
        prefix: &str,
        from: &str,
        count: u32,
    ) -> Result<Vec<Entry>, Fault>
        ensures entries { HasCleanDisk (state S.Store self.new.conn) → IfOk result (λ list. list.items
            ≡ take count (rows_from (rows_of (state S.Store self.old.conn).now.trees) kind prefix.now from.now)) }
        ensures same { HasCleanDisk (state S.Store self.new.conn) → OnOk result
            (rows_of (state S.Store self.new.conn).now.trees ≡ rows_of (state S.Store self.old.conn).now.trees) }
        ensures stays { Stays (state S.Store self.old.conn) (state S.Store self.new.conn) }
        ensures failing { is_some self.new.failure ≡ (is_some self.old.failure || is_storage result) }
        ensures cause { KeepsCause (is_storage result) self.old.failure self.new.failure }
        ensures faults { IfErr result IsMemoryOrStorage }
    {
        if !self.is_active {
            self.failure.note(Cause::Closed);
            return Err(Fault::Storage);
        }
        let bound = bound_above(self.alloc, prefix)?;
        let first = later(prefix, from);
        let rows = match statements::under_from(&mut self.conn, kind, first, lent(&bound), count) {
            Ok(rows) => rows,
            Err(error) => return Err(lost(
                &mut self.is_active,
                &mut self.failure,
                &mut self.memory,
                Cause::of(error),
            )),
        };
        match entries_under(self.alloc, kind, prefix, &rows) {
            Ok(list) => Ok(list),
            Err(Fault::Memory) => Err(Fault::Memory),
            Err(_) => Err(lost(
                &mut self.is_active,
                &mut self.failure,
                &mut self.memory,
                Cause::Damaged,
            )),
        }
    }

    pub(crate) fn under_upto(
        &mut self,
        kind: Kind,
        prefix: &str,
        last: &str,
    ) -> Result<Vec<Entry>, Fault>
        ensures entries { HasCleanDisk (state S.Store self.new.conn) → IfOk result (λ list. list.items
            ≡ rows_upto (rows_of (state S.Store self.old.conn).now.trees) kind prefix.now last.now) }
        ensures same { HasCleanDisk (state S.Store self.new.conn) → OnOk result
            (rows_of (state S.Store self.new.conn).now.trees ≡ rows_of (state S.Store self.old.conn).now.trees) }
        ensures stays { Stays (state S.Store self.old.conn) (state S.Store self.new.conn) }
        ensures failing { is_some self.new.failure ≡ (is_some self.old.failure || is_storage result) }
        ensures cause { KeepsCause (is_storage result) self.old.failure self.new.failure }
        ensures faults { IfErr result IsMemoryOrStorage }
    {
        if !self.is_active {
            self.failure.note(Cause::Closed);
            return Err(Fault::Storage);
        }
        let rows = match statements::under_upto(&mut self.conn, kind, prefix, last) {
            Ok(rows) => rows,
            Err(error) => return Err(lost(
                &mut self.is_active,
                &mut self.failure,
                &mut self.memory,
                Cause::of(error),
            )),
        };
        match entries_under(self.alloc, kind, prefix, &rows) {
            Ok(list) => Ok(list),
            Err(Fault::Memory) => Err(Fault::Memory),
            Err(_) => Err(lost(
                &mut self.is_active,
                &mut self.failure,
                &mut self.memory,
                Cause::Damaged,
            )),
        }
    }

    pub(crate) fn by_owner(&mut self, kind: Kind, owner: &str) -> Result<Vec<Entry>, Fault>
        ensures entries { HasCleanDisk (state S.Store self.new.conn) → IfOk result (λ list.
            list.items ≡ rows_owned (rows_of (state S.Store self.old.conn).now.trees) kind owner.now) }
        ensures same { HasCleanDisk (state S.Store self.new.conn) → OnOk result
            (rows_of (state S.Store self.new.conn).now.trees ≡ rows_of (state S.Store self.old.conn).now.trees) }
        ensures stays { Stays (state S.Store self.old.conn) (state S.Store self.new.conn) }
        ensures failing { is_some self.new.failure ≡ (is_some self.old.failure || is_storage result) }
        ensures cause { KeepsCause (is_storage result) self.old.failure self.new.failure }
        ensures faults { IfErr result IsMemoryOrStorage }
    {
        if !self.is_active {
            self.failure.note(Cause::Closed);
            return Err(Fault::Storage);
        }
        let rows = match statements::by_owner(&mut self.conn, kind, owner) {
            Ok(rows) => rows,
            Err(error) => return Err(lost(
                &mut self.is_active,
                &mut self.failure,
                &mut self.memory,
                Cause::of(error),
            )),
        };
        match entries_of(self.alloc, kind, &rows) {
            Ok(list) => Ok(list),
            Err(Fault::Memory) => Err(Fault::Memory),
            Err(_) => Err(lost(
                &mut self.is_active,
                &mut self.failure,
                &mut self.memory,
                Cause::Damaged,
            )),
        }
    }

    pub(crate) fn due_until(&mut self, moment: Moment) -> Result<Vec<Entry>, Fault>
        ensures entries { HasCleanDisk (state S.Store self.new.conn) → IfOk result (λ list.
            AreDue (rows_of (state S.Store self.old.conn).now.trees) moment list.items) }
        ensures same { HasCleanDisk (state S.Store self.new.conn) → OnOk result
            (rows_of (state S.Store self.new.conn).now.trees ≡ rows_of (state S.Store self.old.conn).now.trees) }
        ensures stays { Stays (state S.Store self.old.conn) (state S.Store self.new.conn) }
        ensures failing { is_some self.new.failure ≡ (is_some self.old.failure || is_storage result) }
        ensures cause { KeepsCause (is_storage result) self.old.failure self.new.failure }
        ensures faults { IfErr result IsMemoryOrStorage }
    {
        if !self.is_active {
            self.failure.note(Cause::Closed);
            return Err(Fault::Storage);
        }
        if let Some(none) = self.memory.none_due(moment) {
            return Ok(none);
        }
        let rows = match statements::due_until(&mut self.conn, moment) {
            Ok(rows) => rows,
            Err(error) => return Err(lost(
                &mut self.is_active,
                &mut self.failure,
                &mut self.memory,
                Cause::of(error),
            )),
        };
        match whole_entries(self.alloc, &rows) {
            Ok(list) => {
                self.memory.keep_due(moment, &list);
                Ok(list)
            }
            Err(Fault::Memory) => Err(Fault::Memory),
            Err(_) => Err(lost(
                &mut self.is_active,
                &mut self.failure,
                &mut self.memory,
                Cause::Damaged,
            )),
        }
    }
}

impl<S: Alter> SqlRecords<S> {
    /// Asks the database for a row, between transactions, so that it is known whether it can still be asked. The only
    /// error is `Storage`, if it cannot.
    pub fn ask(&mut self) -> Result<(), Fault>
        ensures usable { HasCleanDisk (state S.Store self.new.conn)
            → OnOk result (IsUsable (state S.Store self.new.conn)) }
        ensures stays { Stays (state S.Store self.old.conn) (state S.Store self.new.conn) }
        ensures failing { is_some self.new.failure ≡ (is_some self.old.failure || is_storage result) }
        ensures cause { KeepsCause (is_storage result) self.old.failure self.new.failure }
        ensures faults { IfErr result (λ fault. fault ≡ Fault.Storage) }
    {
        self.is_active = false;
        self.memory.clear();
        match statements::get(&mut self.conn, Kind::Clock, "") {
            Ok(_) => {}
            Err(error) => {
                self.failure.note(Cause::of(error));
                return Err(Fault::Storage);
            }
        }
        Ok(())
    }

    /// Opens a transaction, once what is still open is rolled back. It asks whether one is open then, since `BEGIN`
    /// alone does not tell that the connection was open.
    pub(crate) fn start(&mut self) -> Result<(), Fault>
        ensures begun { HasCleanDisk (state S.Store self.new.conn) → OnOk result
            (rows_of (state S.Store self.new.conn).now.trees ≡ rows_of (state S.Store self.old.conn).committed.trees) }
        ensures stays { Stays (state S.Store self.old.conn) (state S.Store self.new.conn) }
        ensures ended { OnErr result (HasEnded (state S.Store self.new.conn)) }
        ensures failing { is_some self.new.failure ≡ is_storage result }
        ensures faults { IfErr result (λ fault. fault ≡ Fault.Storage) }
    {
        self.roll_back();
        match statements::begin(&mut self.conn) {
            Ok(_) => {}
            Err(error) => return Err(lost(
                &mut self.is_active,
                &mut self.failure,
                &mut self.memory,
                Cause::of(error),
            )),
        }
        if self.conn.is_autocommit() {
            return Err(lost(
                &mut self.is_active,
                &mut self.failure,
                &mut self.memory,
                Cause::Refused,
            ));
        }
        self.is_active = true;
        self.failure.clear();
        Ok(())
    }

    /// Gives up what the transaction wrote, and ends it: where memory runs out, SQLite rolls back all the same. What
    /// was committed stands, also if the storage fails.
    pub(crate) fn roll_back(&mut self)
        ensures ended { HasEnded (state S.Store self.new.conn) }
        ensures settled { IsUsable (state S.Store self.new.conn)
            → (state S.Store self.new.conn).now ≡ (state S.Store self.new.conn).committed }
        ensures inactive { self.new.is_active ≡ false }
        ensures stays { Stays (state S.Store self.old.conn) (state S.Store self.new.conn) }
        ensures failing { self.new.failure ≡ self.old.failure }
    {
        self.is_active = false;
        if !self.conn.is_autocommit() {
            self.memory.clear();
            let _ = statements::roll_back(&mut self.conn);
        }
    }

    /// Makes what the transaction wrote the rows, unless something in it has failed. It is ended either way.
    pub(crate) fn finish(&mut self) -> Result<(), Fault>
        ensures committed { HasCleanDisk (state S.Store self.new.conn) → OnOk result
            (rows_of (state S.Store self.new.conn).committed.trees ≡ rows_of (state S.Store self.old.conn).now.trees) }
        ensures stands { HasCleanDisk (state S.Store self.new.conn)
            → OnOk result (IsUsable (state S.Store self.new.conn)) }
        ensures kept { OnErr result (Stays (state S.Store self.old.conn) (state S.Store self.new.conn)) }
        ensures ended { HasEnded (state S.Store self.new.conn) }
        ensures mismatches { mismatches (state S.Store self.old.conn) ≤ mismatches (state S.Store self.new.conn) }
        ensures closes { IsUsable (state S.Store self.new.conn) → IsUsable (state S.Store self.old.conn) }
        ensures failing { is_some self.new.failure ≡ (is_some self.old.failure || is_storage result) }
        ensures cause { KeepsCause (is_storage result) self.old.failure self.new.failure }
        ensures faults { IfErr result (λ fault. fault ≡ Fault.Storage) }
    {
        if !self.is_active {
            self.roll_back();
            self.failure.note(Cause::Closed);
            return Err(Fault::Storage);
        }
        self.is_active = false;
        let began = self.failure.begin_commit();
        match statements::commit(&mut self.conn) {
            Ok(_) => self.failure.count_commit(began),
            Err(error) => return Err(lost(
                &mut self.is_active,
                &mut self.failure,
                &mut self.memory,
                Cause::of(error),
            )),
        }
        Ok(())
    }
}
