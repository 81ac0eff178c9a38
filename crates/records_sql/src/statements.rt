//! One function for each statement. Of those in a transaction it is said what they do to its rows; of the others, what
//! the database does with the text and the parameters.

ghost use Rattle.std.specs.Prelude.{◌≡◌, ℕ, List, [], map, filter, nat_eq, slice_get, take, option_map};
ghost use Rattle.std.specs.Prelude.{IfOk, IfErr, OnOk, OnErr};
ghost use Rattle.std.specs.FinMap as finmap;
ghost use Rattle.std.specs.List.{starts_with};
ghost use Rattle.std.specs.Option.{option_copied};
ghost use Rattle.sqlite_value.specs.Value.{owned};
ghost use Rattle.sqlite.specs.State.{HasCleanDisk, Executes, Survives, CommitsBy, CommitsShowing, Shown, FailsToQuery};
ghost use Rattle.sqlite.specs.Held.{state};
ghost use Rattle.sqlite.specs.Values.{bound};
ghost use Rattle.records.specs.DueRows.{AreDue};
ghost use Rattle.records.specs.Kind.{kind_number};
ghost use Rattle.records.specs.Transaction.{rows_under, rows_from, rows_upto, rows_owned};
ghost use Rattle.records_sql.specs.Bounds.{bound_value, IsAbove, IsLater};
ghost use Rattle.records_sql.specs.SqlTable.{IsSoundAt, IsActive, Stays, Read, Changed, Asked, rows_of};
ghost use Rattle.records_sql.specs.SqlTable.{read_row, entry_in, whole_entry};
ghost use Rattle.records_sql.specs.Texts.{numbers_text, begin_text, commit_text, rollback_text};
ghost use Rattle.records_sql.specs.Texts.{create_text, create_owner_text, create_due_text};
ghost use Rattle.records_sql.specs.Texts.{key_params, put_params, under_params, due_params};
ghost use Rattle.records_sql.specs.Texts.{from_params, upto_params};

use broker_types::Moment;
use records::{Kind, Row};
use sqlite::types::{ToSql, ValueRef};
use sqlite::{Alter, Connection, Error, Row as SqlRow};

fn number(kind: Kind) -> u32
    ensures { result ≡ kind_number kind }
{
    u32::from(kind.number())
}

/// The parameters that name a row: its kind, and a key.
fn key_params<'k>(kind: Kind, key: &'k str) -> [ValueRef<'k>; 2]
    ensures { bound result ≡ key_params (kind, key.entry.now) }
{
    [ToSql::to_sql(number(kind)), ToSql::to_sql(key)]
}

pub(crate) fn get<S: Alter>(
    conn: &mut Connection<S>,
    kind: Kind,
    key: &str,
) -> Result<Vec<SqlRow>, Error>
    ensures reads { IsSoundAt (state S.Store conn.old) → IsActive (state S.Store conn.old) → IfOk result (λ rows.
        Read (state S.Store conn.old) (state S.Store conn.new)
        (option_map read_row (slice_get rows.items 0)
        ≡ finmap.get (rows_of (state S.Store conn.old).now.trees) (kind, key.now))) }
    ensures asked { IsSoundAt (state S.Store conn.old) → IfOk result (λ _.
        Asked (state S.Store conn.old) (state S.Store conn.new)) }
    ensures stays { OnErr result (Stays (state S.Store conn.old) (state S.Store conn.new)) }
{
    conn.query_all(
        "SELECT owner, due, body FROM broker_rows WHERE kind = ?1 AND key = ?2",
        &key_params(kind, key),
    )
}

/// The parameters of a row that is put.
fn put_params<'r>(kind: Kind, key: &'r str, row: &'r Row) -> [ValueRef<'r>; 5]
    ensures { bound result ≡ put_params (kind, key.entry.now) row.entry.now }
{
    let due: Option<i64> = match row.due {
        None => None,
        Some(due) => Some(due.seconds() as i64),
    };
    [
        ToSql::to_sql(number(kind)),
        ToSql::to_sql(key),
        ToSql::to_sql(row.owner.as_str()),
        ToSql::to_sql(due),
        ToSql::to_sql(row.body.as_slice()),
    ]
}

/// Puts a row by an upsert (SQLite's "UPSERT"), which touches the row at this kind and key alone. `INSERT OR REPLACE`
/// removes every row that stands in its way by a unique index or by its number, whosever it is.
pub(crate) fn put<S: Alter>(
    conn: &mut Connection<S>,
    kind: Kind,
    key: &str,
    row: &Row,
) -> Result<usize, Error>
    ensures changes { IsSoundAt (state S.Store conn.old) → IsActive (state S.Store conn.old) → OnOk result
        (Changed (state S.Store conn.old) (state S.Store conn.new)
        (rows_of (state S.Store conn.new).now.trees
        ≡ finmap.insert (rows_of (state S.Store conn.old).now.trees) (kind, key.now) row.now)) }
    ensures stays { OnErr result (Stays (state S.Store conn.old) (state S.Store conn.new)) }
{
    conn.execute(
        "INSERT INTO broker_rows (kind, key, owner, due, body) VALUES (?1, ?2, ?3, ?4, ?5) \
         ON CONFLICT (kind, key) DO UPDATE SET owner = excluded.owner, due = excluded.due, body = excluded.body",
        &put_params(kind, key, row),
    )
}

pub(crate) fn remove<S: Alter>(
    conn: &mut Connection<S>,
    kind: Kind,
    key: &str,
) -> Result<usize, Error>
    ensures changes { IsSoundAt (state S.Store conn.old) → IsActive (state S.Store conn.old) → OnOk result
        (Changed (state S.Store conn.old) (state S.Store conn.new)
        (rows_of (state S.Store conn.new).now.trees
        ≡ finmap.remove (rows_of (state S.Store conn.old).now.trees) (kind, key.now))) }
    ensures stays { OnErr result (Stays (state S.Store conn.old) (state S.Store conn.new)) }
{
    conn.execute(
        "DELETE FROM broker_rows WHERE kind = ?1 AND key = ?2",
        &key_params(kind, key),
    )
}

pub(crate) fn by_owner<S: Alter>(
    conn: &mut Connection<S>,
    kind: Kind,
    owner: &str,
) -> Result<Vec<SqlRow>, Error>
    ensures reads { IsSoundAt (state S.Store conn.old) → IsActive (state S.Store conn.old) → IfOk result (λ rows.
        Read (state S.Store conn.old) (state S.Store conn.new)
        (map (entry_in kind) rows.items ≡ rows_owned (rows_of (state S.Store conn.old).now.trees) kind owner.now)) }
    ensures stays { OnErr result (Stays (state S.Store conn.old) (state S.Store conn.new)) }
{
    conn.query_all(
        "SELECT key, owner, due, body FROM broker_rows WHERE kind = ?1 AND owner = ?2 ORDER BY key",
        &key_params(kind, owner),
    )
}

/// The parameter that says by when rows are due.
fn due_params<'m>(moment: Moment) -> [ValueRef<'m>; 1]
    ensures { bound result ≡ due_params moment }
{
    [ToSql::to_sql(moment.seconds() as i64)]
}

/// Rows that are due. The lower bound, which each due row meets, gives the index its first row; else a search begins
/// with all rows that are never due, since NULL comes before all numbers in an index.
pub(crate) fn due_until<S: Alter>(
    conn: &mut Connection<S>,
    moment: Moment,
) -> Result<Vec<SqlRow>, Error>
    ensures reads { IsSoundAt (state S.Store conn.old) → IsActive (state S.Store conn.old) → IfOk result (λ rows.
        Read (state S.Store conn.old) (state S.Store conn.new)
        (AreDue (rows_of (state S.Store conn.old).now.trees) moment (map whole_entry rows.items))) }
    ensures stays { OnErr result (Stays (state S.Store conn.old) (state S.Store conn.new)) }
{
    conn.query_all(
        "SELECT kind, key, owner, due, body FROM broker_rows WHERE due >= 0 AND due <= ?1 ORDER BY due, kind, key",
        &due_params(moment),
    )
}

/// Each row by its number, its kind and when it is due, in the order of the numbers.
pub(crate) fn numbers<S: Alter>(conn: &mut Connection<S>) -> Result<Vec<SqlRow>, Error>
    ensures ok { HasCleanDisk (state S.Store conn.new)
        → IfOk result (λ rows. Shown numbers_text [] (state S.Store conn.old) (state S.Store conn.new) rows.items) }
    ensures err { HasCleanDisk (state S.Store conn.new)
        → IfErr result (FailsToQuery numbers_text [] (state S.Store conn.old) (state S.Store conn.new)) }
    ensures survives { Survives (state S.Store conn.old) (state S.Store conn.new) (CommitsShowing numbers_text []
        (state S.Store conn.old)) }
{
    conn.query_all(
        "SELECT rowid, kind, due FROM broker_rows ORDER BY rowid",
        &[],
    )
}

/// The bound as a value of SQL; without one the empty blob, since each text is below every blob (SQLite's "Datatypes In
/// SQLite", "Sort Order").
fn bound_value<'b>(bound: Option<&'b [u8]>) -> ValueRef<'b>
    ensures { owned result ≡ bound_value (option_copied bound.entry) }
{
    match bound {
        None => ValueRef::Blob(b""),
        Some(bytes) => ValueRef::Text(bytes),
    }
}

/// The parameters that name rows of a kind: a key, and a bound.
fn under_params<'k>(kind: Kind, from: &'k str, above: Option<&'k [u8]>) -> [ValueRef<'k>; 3]
    ensures { bound result ≡ under_params (kind, from.entry.now) (option_copied above.entry) }
{
    [
        ToSql::to_sql(number(kind)),
        ToSql::to_sql(from),
        bound_value(above),
    ]
}

/// Rows of a kind with keys from the prefix up to the bound. Not all of them begin with the prefix.
pub(crate) fn under<S: Alter>(
    conn: &mut Connection<S>,
    kind: Kind,
    prefix: &str,
    bound: Option<&[u8]>,
) -> Result<Vec<SqlRow>, Error>
    ensures reads { IsAbove prefix.now (option_copied bound.entry) → IsSoundAt (state S.Store conn.old)
        → IsActive (state S.Store conn.old) → IfOk result (λ rows.
        Read (state S.Store conn.old) (state S.Store conn.new)
        (filter (λ e. starts_with nat_eq e.0.1 prefix.now) (map (entry_in kind) rows.items)
        ≡ rows_under (rows_of (state S.Store conn.old).now.trees) kind prefix.now)) }
    ensures stays { OnErr result (Stays (state S.Store conn.old) (state S.Store conn.new)) }
{
    conn.query_all(
        "SELECT key, owner, due, body FROM broker_rows WHERE kind = ?1 AND key >= ?2 AND key < ?3 ORDER BY key",
        &under_params(kind, prefix, bound),
    )
}

/// The same, and at most how many of them.
fn from_params<'k>(
    kind: Kind,
    from: &'k str,
    above: Option<&'k [u8]>,
    count: u32,
) -> [ValueRef<'k>; 4]
    ensures { bound result ≡ from_params (kind, from.entry.now) (option_copied above.entry) count }
{
    [
        ToSql::to_sql(number(kind)),
        ToSql::to_sql(from),
        bound_value(above),
        ToSql::to_sql(count),
    ]
}

/// The first rows of a kind with keys from one key up to the bound, at most so many.
pub(crate) fn under_from<S: Alter>(
    conn: &mut Connection<S>,
    kind: Kind,
    from: &str,
    bound: Option<&[u8]>,
    count: u32,
) -> Result<Vec<SqlRow>, Error>
    ensures reads { (prefix least : List ℕ) → IsAbove prefix (option_copied bound.entry)
        → IsLater prefix least from.now → IsSoundAt (state S.Store conn.old)
        → IsActive (state S.Store conn.old) → IfOk result (λ rows.
        Read (state S.Store conn.old) (state S.Store conn.new)
        (filter (λ e. starts_with nat_eq e.0.1 prefix) (map (entry_in kind) rows.items)
        ≡ take count (rows_from (rows_of (state S.Store conn.old).now.trees) kind prefix least))) }
    ensures stays { OnErr result (Stays (state S.Store conn.old) (state S.Store conn.new)) }
{
    conn.query_all(
        "SELECT key, owner, due, body FROM broker_rows WHERE kind = ?1 AND key >= ?2 AND key < ?3 \
         ORDER BY key LIMIT ?4",
        &from_params(kind, from, bound, count),
    )
}

/// The parameters that name rows of a kind: a key, and the last.
fn upto_params<'k>(kind: Kind, from: &'k str, last: &'k str) -> [ValueRef<'k>; 3]
    ensures { bound result ≡ upto_params (kind, from.entry.now) last.entry.now }
{
    [
        ToSql::to_sql(number(kind)),
        ToSql::to_sql(from),
        ToSql::to_sql(last),
    ]
}

/// Rows of a kind with keys from the prefix up to the last key. Not all of them begin with the prefix.
pub(crate) fn under_upto<S: Alter>(
    conn: &mut Connection<S>,
    kind: Kind,
    prefix: &str,
    last: &str,
) -> Result<Vec<SqlRow>, Error>
    ensures reads { IsSoundAt (state S.Store conn.old)
        → IsActive (state S.Store conn.old) → IfOk result (λ rows.
        Read (state S.Store conn.old) (state S.Store conn.new)
        (filter (λ e. starts_with nat_eq e.0.1 prefix.now) (map (entry_in kind) rows.items)
        ≡ rows_upto (rows_of (state S.Store conn.old).now.trees) kind prefix.now last.now)) }
    ensures stays { OnErr result (Stays (state S.Store conn.old) (state S.Store conn.new)) }
{
    conn.query_all(
        "SELECT key, owner, due, body FROM broker_rows WHERE kind = ?1 AND key >= ?2 AND key <= ?3 ORDER BY key",
        &upto_params(kind, prefix, last),
    )
}

pub(crate) fn begin<S: Alter>(conn: &mut Connection<S>) -> Result<usize, Error>
    ensures runs { HasCleanDisk (state S.Store conn.new)
        → Executes begin_text [] (state S.Store conn.old) (state S.Store conn.new) result }
    ensures survives { Survives (state S.Store conn.old) (state S.Store conn.new) (CommitsBy begin_text []
        (state S.Store conn.old)) }
{
    conn.execute("BEGIN", &[])
}

pub(crate) fn commit<S: Alter>(conn: &mut Connection<S>) -> Result<usize, Error>
    ensures runs { HasCleanDisk (state S.Store conn.new)
        → Executes commit_text [] (state S.Store conn.old) (state S.Store conn.new) result }
    ensures survives { Survives (state S.Store conn.old) (state S.Store conn.new) (CommitsBy commit_text []
        (state S.Store conn.old)) }
{
    conn.execute("COMMIT", &[])
}

pub(crate) fn roll_back<S: Alter>(conn: &mut Connection<S>) -> Result<usize, Error>
    ensures runs { HasCleanDisk (state S.Store conn.new)
        → Executes rollback_text [] (state S.Store conn.old) (state S.Store conn.new) result }
    ensures survives { Survives (state S.Store conn.old) (state S.Store conn.new) (CommitsBy rollback_text []
        (state S.Store conn.old)) }
{
    conn.execute("ROLLBACK", &[])
}

pub(crate) fn create<S: Alter>(conn: &mut Connection<S>) -> Result<usize, Error>
    ensures runs { HasCleanDisk (state S.Store conn.new)
        → Executes create_text [] (state S.Store conn.old) (state S.Store conn.new) result }
    ensures survives { Survives (state S.Store conn.old) (state S.Store conn.new) (CommitsBy create_text []
        (state S.Store conn.old)) }
{
    conn.execute(
        "CREATE TABLE broker_rows (kind INTEGER NOT NULL, key TEXT NOT NULL, owner TEXT NOT NULL, due INTEGER, \
         body BLOB NOT NULL, PRIMARY KEY (kind, key)) STRICT",
        &[],
    )
}

pub(crate) fn create_owner<S: Alter>(conn: &mut Connection<S>) -> Result<usize, Error>
    ensures runs { HasCleanDisk (state S.Store conn.new)
        → Executes create_owner_text [] (state S.Store conn.old) (state S.Store conn.new) result }
    ensures survives { Survives (state S.Store conn.old) (state S.Store conn.new) (CommitsBy create_owner_text []
        (state S.Store conn.old)) }
{
    conn.execute(
        "CREATE INDEX broker_owner ON broker_rows (kind, owner, key)",
        &[],
    )
}

pub(crate) fn create_due<S: Alter>(conn: &mut Connection<S>) -> Result<usize, Error>
    ensures runs { HasCleanDisk (state S.Store conn.new)
        → Executes create_due_text [] (state S.Store conn.old) (state S.Store conn.new) result }
    ensures survives { Survives (state S.Store conn.old) (state S.Store conn.new) (CommitsBy create_due_text []
        (state S.Store conn.old)) }
{
    conn.execute(
        "CREATE INDEX broker_due ON broker_rows (due, kind, key)",
        &[],
    )
}
