//! Two files, opened and closed, and what is done over their records.

ghost use Rattle.std.specs.Prelude.{⊤, IfOk};

use crate::disk::pair::{Pair, Part};
use broker_types::Fault;
use records_sql::SqlRecords;
use sqlite::{Alter, Connection, FileStore, Files, Options};
use sqlite_disk::Disk;
use std::alloc::Global;

/// What a crash may make of a write.
#[derive(Clone, Copy, Debug, PartialEq, Eq)]
pub(crate) enum Writes {
    /// Each byte is the old one or the new one, as `brokerd serve --db` supposes: most commits sync once.
    Mixed,
    /// It may be any byte: each commit syncs twice.
    Torn,
}

impl Writes {
    /// Two files without a byte.
    pub(crate) fn new_files(self, alloc: Global) -> Pair {
        Pair::new(alloc, self == Writes::Mixed)
    }

    /// Little memory, so that an open takes little time. Where each commit syncs twice the log is short, so that it is
    /// copied in the midst of a run; else it is as long as that of the program, whose first commit after a copy syncs
    /// twice too.
    fn options(self) -> Options {
        let of_the_program = Options::new(1);
        let checkpoint_frames = match self {
            Writes::Mixed => of_the_program.checkpoint_frames,
            Writes::Torn => 16,
        };
        Options {
            cache_pages: 16,
            spill_pages: 16,
            checkpoint_frames,
            seed: 1,
        }
    }
}

/// What is done over records, whatever their storage is.
///
/// Only the functions of this module name a storage: each one that calls what is generic at this type, also at that of
/// files whose own type is not known, takes the prover some 20 seconds.
pub(crate) trait OverRecords {
    /// What comes of it.
    type Came: Drop;

    /// What is known of that.
    ghost fits: { Self.Came → Type 0 } = { λ _. ⊤ };

    /// Whether the files of the records are closed then: the log is copied into the database file.
    const CLOSES: bool = false;

    /// Does this, and gives the records back. It fails as they do, or as a broker over them does; they are gone then.
    fn run<S: Alter + Drop>(
        &mut self,
        alloc: Global,
        records: SqlRecords<S>,
    ) -> Result<(SqlRecords<S>, Self::Came), Fault>
        ensures { IfOk result (λ done. fits done.1) };
}

/// After how many of its calls a file fails each.
#[derive(Clone, Copy, Debug, PartialEq, Eq)]
pub(crate) struct Until {
    pub(crate) part: Part,
    pub(crate) calls: u64,
}

impl Until {
    /// More calls than there are.
    pub(crate) const NEVER: Until = Until {
        part: Part::Log,
        calls: u64::MAX,
    };
}

/// Does this over the records of two files; files that are empty are given a table without rows. It fails with
/// `Storage` if a file fails or has no such rows, with `Memory` if memory runs out, and as what is done.
pub(crate) fn over_files<T: OverRecords>(
    alloc: Global,
    files: &mut Pair,
    until: Until,
    writes: Writes,
    task: &mut T,
) -> Result<T::Came, Fault>
    ensures { IfOk result T.OverRecords.fits }
{
    over(
        alloc,
        files.lend_until(until.part, until.calls),
        writes,
        task,
    )
}

/// Does this over a database in memory.
pub(crate) fn in_memory<T: OverRecords>(alloc: Global, task: &mut T) -> Result<T::Came, Fault> {
    came_of(alloc, SqlRecords::in_memory(alloc)?, task)
}

/// Does this, and lets the records go.
fn came_of<S: Alter + Drop, T: OverRecords>(
    alloc: Global,
    records: SqlRecords<S>,
    task: &mut T,
) -> Result<T::Came, Fault>
    ensures { IfOk result T.OverRecords.fits }
{
    let (_, came) = task.run(alloc, records)?;
    Ok(came)
}

/// Does this over files that are lent.
fn over<D: Disk + Drop, T: OverRecords>(
    alloc: Global,
    files: Files<D>,
    writes: Writes,
    task: &mut T,
) -> Result<T::Came, Fault>
    ensures { IfOk result T.OverRecords.fits }
{
    let records = open(alloc, files, writes)?;
    if !T::CLOSES {
        return came_of(alloc, records, task);
    }
    let (records, came) = task.run(alloc, records)?;
    close(records)?;
    Ok(came)
}

/// The records of two files.
fn open<D: Disk + Drop>(
    alloc: Global,
    files: Files<D>,
    writes: Writes,
) -> Result<SqlRecords<FileStore<D>>, Fault> {
    if !files.may_be_used() {
        return Err(Fault::Storage);
    }
    match Connection::open_files(alloc, files, writes.options()) {
        Ok(conn) => Ok(SqlRecords::adopt(alloc, conn)?),
        Err(_) => Err(Fault::Storage),
    }
}

/// Copies the log into the database file, and closes both. The only error is `Storage`, if a file fails.
fn close<D: Disk + Drop>(records: SqlRecords<FileStore<D>>) -> Result<(), Fault> {
    match records.into_connection().close() {
        Ok(()) => Ok(()),
        Err(_) => Err(Fault::Storage),
    }
}
