//! The files of a database, and how large they are.

use std::alloc::{AllocError, Global};
use std::fs;
use std::rt::HostRuntime;

/// The two files of a database: itself, and its log, which lies beside it.
#[derive(Drop)]
pub struct DatabaseFiles {
    database: String,
    log: String,
}

impl DatabaseFiles {
    /// The files of the database at a path. None is opened.
    pub fn at(alloc: Global, path: &str) -> Result<DatabaseFiles, AllocError> {
        Ok(DatabaseFiles {
            database: format!(in alloc; "{path}")?,
            log: format!(in alloc; "{path}-wal")?,
        })
    }

    /// The bytes of the database itself now; none if they cannot be told, as where it is not there.
    pub fn database_bytes(&self, rt: &HostRuntime) -> Option<u64> {
        length(rt, &self.database)
    }

    /// The bytes of its log now; none if they cannot be told.
    pub fn log_bytes(&self, rt: &HostRuntime) -> Option<u64> {
        length(rt, &self.log)
    }
}

/// The bytes of a file.
fn length(rt: &HostRuntime, path: &str) -> Option<u64> {
    match fs::metadata(rt, path) {
        Ok(found) => Some(found.len()),
        Err(_) => None,
    }
}
