//! A database in two files in memory.

ghost use Rattle.std.specs.Prelude.{◌≡◌, IsTrue, IfOk, IfErr};
ghost use Rattle.sqlite.specs.Files.{Finds, IsEmpty, IsOpened, file_state};
ghost use Rattle.sqlite.specs.Held.{IsNew};
ghost use Rattle.sqlite.specs.Opening.{is_open_error};
ghost use Rattle.sqlite.specs.State.{HasCleanDisk};

use crate::file::RamFile;
use sqlite::{Connection, Error, FileStore, Files, Options};
use sqlite_disk::Disk;
use std::alloc::Global;

/// The seed of the log's salts, which tell frames of one log from those of another. There is no other log here.
const SEED: u64 = 1;

/// Opens the database of two files.
fn open_files<D: Disk + Drop>(
    alloc: Global,
    files: Files<D>,
) -> Result<Connection<FileStore<D>>, Error>
    requires log { IsTrue (D.Disk.is_usable files.log) }
    requires db { IsTrue (D.Disk.is_usable files.db) }
    ensures opened { IfOk result (λ c. HasCleanDisk (file_state c) → IsOpened c) }
    ensures found { IfOk result (λ c. HasCleanDisk (file_state c) → Finds files c) }
    ensures fresh { IfOk result IsNew }
    ensures named { IfErr result (λ e. IsTrue (is_open_error e)) }
{
    match Connection::open_files(alloc, files, Options::new(SEED)) {
        Ok(conn) => Ok(conn),
        Err((error, _)) => Err(error),
    }
}

/// A new database in the memory of the program, without a table. The errors are those of an open; it fails if memory
/// runs out.
pub fn open(alloc: Global) -> Result<Connection<FileStore<RamFile>>, Error>
    ensures opened { IfOk result IsOpened }
    ensures empty { IfOk result (λ c. IsEmpty (file_state c).committed.trees) }
    ensures fresh { IfOk result IsNew }
    ensures named { IfErr result (λ e. IsTrue (is_open_error e)) }
{
    let files = Files {
        log: RamFile::new(alloc),
        db: RamFile::new(alloc),
    };
    open_files(alloc, files)
}
