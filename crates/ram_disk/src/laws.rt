//! A law of databases in memory, the contract of a function that does nothing.

ghost use Rattle.sqlite.specs.Files.{file_state};
ghost use Rattle.sqlite.specs.Held.{Held};
ghost use Rattle.sqlite.specs.State.{HasCleanDisk};
ghost use Rattle.sqlite_store.specs.declared.store.FileStore.{FileStore as Kept};
ghost use Rattle.ram_disk.specs.declared.file.RamFile.{RamFile as Memory};

use crate::file::RamFile;
use sqlite_disk::Disk;

/// A law: whatever was asked of a database in files in memory, they have returned what was written.
pub fn ram_returns_what_was_written()
    ensures { (c : Held (Kept Memory ⟦<RamFile as Disk>⟧)) → HasCleanDisk (file_state c) }
{}
