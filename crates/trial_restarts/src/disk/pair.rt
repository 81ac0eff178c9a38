//! The two files of a database.

use crate::disk::images::{Image, images_of};
use crate::disk::lent::{Lent, Traced};
use crate::disk::trace::{Counts, Trace};
use ram_disk::RamFile;
use sqlite_disk::{Files, Fuse};
use std::alloc::{AllocError, Global};

/// One of the two files of a database.
#[derive(Clone, Copy, Debug, PartialEq, Eq)]
pub(crate) enum Part {
    /// The log, which has what was committed since it was last copied.
    Log,
    /// The database file.
    Database,
}

/// Two files in memory.
#[derive(Drop)]
pub(crate) struct Pair {
    alloc: Global,
    is_mixing: bool,
    log: Traced<RamFile>,
    database: Traced<RamFile>,
}

impl Pair {
    /// Two files without a byte, which say that a torn write leaves each byte old or new, or do not say it.
    pub(crate) fn new(alloc: Global, is_mixing: bool) -> Pair {
        Pair::of(
            alloc,
            is_mixing,
            RamFile::mixing(alloc),
            RamFile::mixing(alloc),
        )
    }

    fn of(alloc: Global, is_mixing: bool, log: RamFile, database: RamFile) -> Pair {
        Pair {
            alloc,
            is_mixing,
            log: Traced::new(alloc, is_mixing, log),
            database: Traced::new(alloc, is_mixing, database),
        }
    }

    /// The two files, which outlive what is done with them. One of them answers so many calls, and then fails each.
    pub(crate) fn lend_until(&mut self, part: Part, calls: u64) -> Files<Fuse<Lent<'_, RamFile>>> {
        let (log_calls, database_calls) = match part {
            Part::Log => (calls, u64::MAX),
            Part::Database => (u64::MAX, calls),
        };
        Files {
            log: Fuse::new(Lent::new(&mut self.log), log_calls),
            db: Fuse::new(Lent::new(&mut self.database), database_calls),
        }
    }

    /// How often a file was changed, and how often synced.
    pub(crate) fn counts(&self, part: Part) -> Counts {
        match part {
            Part::Log => self.log.trace.counts(),
            Part::Database => self.database.trace.counts(),
        }
    }

    /// What crashes leave of the files as they are now: of one all changes since its last sync, none, the first of
    /// them, all but one, or mixes of old and new bytes, which the seed chooses; and of the other all or none. The only
    /// error is running out of memory.
    pub(crate) fn images(&self, seed: u64) -> Result<Vec<Image>, AllocError> {
        let log = self.log.trace.unsynced();
        let database = self.database.trace.unsynced();
        images_of(self.alloc, log, database, seed)
    }

    /// The files that a crash leaves. The only error is running out of memory, also while they were written.
    pub(crate) fn left(&mut self, image: Image) -> Result<Pair, AllocError> {
        let log = self.log.trace.file_left(image.log)?;
        let database = self.database.trace.file_left(image.database)?;
        Ok(Pair::of(self.alloc, self.is_mixing, log, database))
    }
}
