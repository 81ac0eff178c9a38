//! Rows in a database that was there before, or in a new one.

ghost use Rattle.std.specs.Prelude.{◌≡◌, ◌≤◌, codes, false, None, IsTrue, IfOk, OnOk, Err};
ghost use Rattle.std.specs.FinMap as map;
ghost use Rattle.sqlite.specs.WalFiles.{image_at};
ghost use Rattle.sqlite.specs.Files.{IsOpened, file_state};
ghost use Rattle.sqlite.specs.Start.{FindsIn};
ghost use Rattle.sqlite.specs.Held.{state};
ghost use Rattle.sqlite.specs.State.{HasCleanDisk, IsLive, IsUnchanged};
ghost use Rattle.records_sql.specs.Adopted.{HasRows, IsAdopted, IsKeptIn, IsSettled};
ghost use Rattle.records_sql.specs.Made.{IsNewTable};
ghost use Rattle.records_sql.specs.SqlTable.{IsStore, IsUsable, broker_schema, mismatches, no_schema, rows_of};

use crate::cause::Cause;
use crate::failure::Failure;
use crate::numbers::Numbers;
use crate::reading::check_numbers;
use crate::row_memory::RowMemory;
use crate::schema::{is_blank, is_ours};
use crate::sql_records::SqlRecords;
use crate::statements;
use ram_disk::RamFile;
use sqlite::{Alter, Connection, FileFrom, FileStore, Options, Start};
use std::alloc::Global;
use std::fs;
use std::hash::{BuildHasher, RandomState};
use std::io::Read;
use std::rt::HostRuntime;

/// How many bytes a page of a database has.
const PAGE: u64 = 4_096;

/// How many pages are kept in memory at least.
const FEWEST_PAGES: u64 = 2_000;

/// How many pages are kept in memory at most.
const MOST_PAGES: u64 = 16_384;

/// Makes the table and its indexes in one transaction, so that a database never has a part of them.
fn make_table<S: Alter>(conn: &mut Connection<S>) -> Result<(), Cause>
    ensures made { HasCleanDisk (state S.Store conn.new) → (state S.Store conn.old).now.schema ≡ no_schema
        → OnOk result (IsTrue (state S.Store conn.old).is_open × IsNewTable (state S.Store conn.new)) }
    ensures mismatches { mismatches (state S.Store conn.old) ≤ mismatches (state S.Store conn.new) }
{
    statements::begin(conn)?;
    statements::create(conn)?;
    statements::create_owner(conn)?;
    statements::create_due(conn)?;
    statements::commit(conn)?;
    Ok(())
}

/// Asks the table for its rows, and whether each is one that this crate writes. SQLite has tested what the schema says
/// of them: the kinds of their values, and that no two have one key.
fn check_rows<S: Alter>(conn: &mut Connection<S>) -> Result<Numbers, Cause>
    ensures sound { HasCleanDisk (state S.Store conn.new) → (state S.Store conn.old).now.schema ≡ broker_schema
        → IsLive (state S.Store conn.old) → OnOk result (IsStore (state S.Store conn.old).now) }
    ensures same { HasCleanDisk (state S.Store conn.new) → (state S.Store conn.old).now.schema ≡ broker_schema
        → OnOk result (IsUnchanged (state S.Store conn.old) (state S.Store conn.new)) }
    ensures mismatches { mismatches (state S.Store conn.old) ≤ mismatches (state S.Store conn.new) }
{
    let rows = statements::numbers(conn)?;
    match check_numbers(&rows) {
        Ok(numbers) => Ok(numbers),
        Err(_) => Err(Cause::Damaged),
    }
}

/// Makes the table if the database has none, and else asks whether it is one that this crate made.
fn find_table<S: Alter>(conn: &mut Connection<S>) -> Result<Numbers, Cause>
    ensures found { HasCleanDisk (state S.Store conn.new) → IsSettled (state S.Store conn.old)
        → OnOk result (IsAdopted (state S.Store conn.old) (state S.Store conn.new)) }
    ensures mismatches { mismatches (state S.Store conn.old) ≤ mismatches (state S.Store conn.new) }
{
    if is_blank(conn.schema()) {
        make_table(conn)?;
        return Ok(Numbers::none());
    }
    if !is_ours(conn.schema()) {
        return Err(Cause::OtherTables);
    }
    check_rows(conn)
}

impl<S: Alter + Drop> SqlRecords<S> {
    /// The rows of a database that was there before; one without a table is given the table, without a row. It fails if
    /// a transaction is open (`Refused`), the database has another table, index or view than this crate makes
    /// (`OtherTables`), a row is none that this crate writes (`Damaged`), or the storage failed. The connection is gone
    /// then, and the rows are as before.
    pub fn adopt(alloc: Global, mut conn: Connection<S>) -> Result<SqlRecords<S>, Cause>
        ensures found { IfOk result (λ records. HasCleanDisk (state S.Store records.conn)
            → HasRows (state S.Store conn).committed (rows_of (state S.Store records.conn).committed.trees)) }
        ensures usable { IfOk result (λ records. HasCleanDisk (state S.Store records.conn)
            → IsUsable (state S.Store records.conn)) }
        ensures autocommit { OnOk result ((state S.Store conn).in_transaction ≡ false) }
        ensures mismatches { IfOk result (λ records.
            mismatches (state S.Store conn) ≤ mismatches (state S.Store records.conn)) }
        ensures failing { IfOk result (λ records. records.failure ≡ None) }
    {
        if !conn.is_autocommit() {
            return Err(Cause::Refused);
        }
        let numbers = find_table(&mut conn)?;
        Ok(SqlRecords {
            alloc,
            conn,
            is_active: false,
            failure: Failure::none(),
            memory: RowMemory::new(alloc),
            numbers,
        })
    }
}

impl<S: Alter> SqlRecords<S> {
    /// Gives the connection back.
    pub fn into_connection(self) -> Connection<S>
        ensures { result ≡ self.conn }
    {
        let SqlRecords {
            alloc: _,
            conn,
            is_active: _,
            failure: _,
            memory: _,
            numbers: _,
        } = self;
        conn
    }
}

impl SqlRecords<FileStore<RamFile>> {
    /// Records in memory, without a row. It fails if memory runs out for the database.
    pub fn in_memory(alloc: Global) -> Result<SqlRecords<FileStore<RamFile>>, Cause>
        ensures empty { IfOk result (λ records. rows_of (file_state records.conn).committed.trees ≡ map.empty) }
        ensures ready { IfOk result (λ records. IsUsable (file_state records.conn)) }
        ensures failing { IfOk result (λ records. records.failure ≡ None) }
    {
        let Ok(conn) = ram_disk::open(alloc) else {
            return Err(Cause::Memory);
        };
        SqlRecords::adopt(alloc, conn)
    }
}

impl<S: Start> SqlRecords<FileStore<FileFrom<S>>> {
    /// The rows of a file and its log, which is beside it (SQLite's "Write-Ahead Logging"); a file that is not there is
    /// made. `S` stands for what they hold. It fails if the file cannot be opened, and as `adopt` does.
    pub fn open_from(
        rt: &HostRuntime,
        path: &str,
        start: S,
    ) -> Result<SqlRecords<FileStore<FileFrom<S>>>, Cause>
        ensures found { IfOk result (λ records. HasCleanDisk (file_state records.conn)
            → IsKeptIn (image_at S.Start) (rows_of (file_state records.conn).committed.trees)) }
        ensures usable { IfOk result (λ records. HasCleanDisk (file_state records.conn)
            → IsUsable (file_state records.conn)) }
        ensures failing { IfOk result (λ records. records.failure ≡ None) }
        ensures memory { path.now ≡ codes ":memory:" → result ≡ Err Cause.Name }
    {
        let conn = open_files(rt, path, start)?;
        SqlRecords::adopt(rt.alloc(), conn)
    }
}

/// Opens the file and its log, as `Connection::open_from` does, with options for their size.
fn open_files<S: Start>(
    rt: &HostRuntime,
    path: &str,
    start: S,
) -> Result<Connection<FileStore<FileFrom<S>>>, Cause>
    ensures found { IfOk result (λ conn. HasCleanDisk (file_state conn)
        → FindsIn (image_at S.Start) (file_state conn)) }
    ensures opened { IfOk result (λ conn. HasCleanDisk (file_state conn) → IsOpened conn) }
    ensures memory { path.now ≡ codes ":memory:" → result ≡ Err Cause.Name }
{
    // To SQLite these are no names of files.
    if path == ":memory:" || path.starts_with("file:") {
        return Err(Cause::Name);
    }
    let bytes = size_of(rt, path);
    let files = sqlite_std_file::open(rt, path, start)?;
    let Ok(random) = RandomState::new(rt) else {
        return Err(Cause::Randomness);
    };
    let options = options_for(bytes, random.hash_one(&0u8));
    match Connection::open_files_with(rt.alloc(), files, options, false) {
        Ok(conn) => Ok(conn),
        Err((error, _)) => Err(of_file(rt, path, Cause::of(error))),
    }
}

/// The cause where a file could not be opened as a database: a file that begins otherwise than those of SQLite do is
/// none of them, damaged or not.
fn of_file(rt: &HostRuntime, path: &str, cause: Cause) -> Cause {
    if cause == Cause::Damaged && !may_be_sqlites(rt, path) {
        Cause::NotADatabase
    } else {
        cause
    }
}

/// Whether a file begins as one of SQLite does ("Database File Format", 1.3), has no byte, or cannot be read.
fn may_be_sqlites(rt: &HostRuntime, path: &str) -> bool {
    let Ok(mut file) = fs::open(rt, path) else {
        return true;
    };
    let mut first = [0; 16];
    match file.read(&mut first) {
        Ok(0) | Err(_) => true,
        Ok(_) => first == *b"SQLite format 3\0",
    }
}

/// The size of a file, in bytes, or 0 if it cannot be told.
fn size_of(rt: &HostRuntime, path: &str) -> u64 {
    match fs::metadata(rt, path) {
        Ok(found) => found.len(),
        Err(_) => 0,
    }
}

/// The options for a database of so many bytes: it is kept in memory as a whole, as far as 64 MiB go, and its log grows
/// to half of that before it is copied back (SQLite's `cache_size` and `wal_autocheckpoint`). Up to 8 MB they are the
/// library's own.
fn options_for(bytes: u64, seed: u64) -> Options {
    let pages = (bytes / PAGE).clamp(FEWEST_PAGES, MOST_PAGES) as usize;
    let mut options = Options::new(seed);
    options.cache_pages = pages;
    options.checkpoint_frames = pages / 2;
    options
}
