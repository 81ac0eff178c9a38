//! Laws of stores in databases, each the contract of a function that does nothing.

ghost use Rattle.std.specs.Prelude.{◌≡◌};
ghost use Rattle.sqlite.specs.Files.{over_files};
ghost use Rattle.sqlite_store.specs.declared.store.FileStore.{FileStore as Stored};
ghost use Rattle.records.specs.Kept.{IsHonestStore};
ghost use Rattle.ram_disk.specs.declared.file.RamFile.{RamFile as Memory};
ghost use Rattle.broker_sql.specs.Found.{AllFindTheirRows};
ghost use Rattle.broker_sql.specs.SqlKept.{sql_kept};
ghost use Rattle.broker_sql.specs.declared.sql_store.SqlStore.{SqlStore as Kept};

use crate::sql_store::SqlStore;
use broker::Store;
use ram_disk::RamFile;
use sqlite::{Alter, FileStore};
use sqlite_disk::Disk;

/// A law: whatever was asked of a store in a database in memory, it shows the rows that were committed, and has
/// returned what was written.
pub fn memory_returns_what_was_written()
    ensures shows { (s : Kept (Stored Memory ⟦<RamFile as Disk>⟧) over_files)
        → ⟦<SqlStore<FileStore<RamFile>> as Store>⟧.seen s ≡ sql_kept over_files s }
    ensures honest { (s : Kept (Stored Memory ⟦<RamFile as Disk>⟧) over_files)
        → IsHonestStore (⟦<SqlStore<FileStore<RamFile>> as Store>⟧.seen s) }
{}

/// A law: if the program stops between requests, while a store can be asked, an open finds the rows that were
/// committed, and there are no others to find. So no request that was answered is lost.
pub fn what_was_committed_is_found<S: Alter>()
    ensures { AllFindTheirRows S.Store }
{}
