//! A new database that is being made, beside where it will be.

use crate::failure::{Failure, Why};
use std::alloc::{AllocError, Global};
use std::fs::{File, TryLockError};
use std::io::ErrorKind;
use std::os::unix::fs::OpenOptionsExt;
use std::rt::HostRuntime;
use std::{fs, io};

/// A database that is being made, by a name that a later run knows and removes. While it is there, no other is made in
/// its folder.
#[derive(Drop)]
pub(crate) struct Draft {
    /// The folder, open and locked.
    folder: File,
    database: String,
    log: String,
}

impl Draft {
    /// An empty file, which only its owner can read, beside the database that it will be, whose name is taken by no
    /// file, or by an empty one. What a run that was killed has left of one is removed.
    pub(crate) fn beside(rt: &HostRuntime, path: &str) -> Result<Draft, Failure> {
        let alloc = rt.alloc();
        if is_taken(rt, path)? {
            return Err(Failure::Of(Why::Taken));
        }
        let (folder, name) = parts_of(path);
        let folder = match open_folder(rt, folder) {
            Ok(opened) => opened,
            Err(error) => return Err(Failure::of_call(error)),
        };
        if let Err(TryLockError::WouldBlock) = folder.try_lock() {
            return Err(Failure::Of(Why::Busy));
        }
        let database = beside(alloc, path, name)?;
        let log = format!(in alloc; "{}-wal", database.as_str())?;
        let draft = Draft {
            folder,
            database,
            log,
        };
        draft.remove(rt)?;
        match make(rt, draft.database.as_str()) {
            Ok(_) => Ok(draft),
            Err(error) => Err(Failure::of_call(error)),
        }
    }

    /// The path of the database that is being made.
    pub(crate) fn database(&self) -> &str {
        self.database.as_str()
    }

    /// Gives it its name, unless a file that is not empty has that, and waits until the disk knows it. Its log has been
    /// moved into it by then.
    pub(crate) fn publish(&self, rt: &HostRuntime, path: &str) -> Result<(), Failure> {
        remove(rt, self.log.as_str())?;
        if is_taken(rt, path)? {
            return Err(Failure::Of(Why::Taken));
        }
        if let Err(error) = self.name(rt, path) {
            return Err(Failure::of_call(error));
        }
        if let Err(error) = self.folder.sync_all() {
            // The first failure is told.
            let _ = remove(rt, path);
            return Err(Failure::of_call(error));
        }
        Ok(())
    }

    /// Waits until the disk has the file, and renames it.
    fn name(&self, rt: &HostRuntime, path: &str) -> io::Result<()> {
        fs::open(rt, self.database.as_str())?.sync_all()?;
        fs::rename(rt, self.database.as_str(), path)
    }

    /// Removes what there is of it.
    pub(crate) fn remove(&self, rt: &HostRuntime) -> Result<(), Failure> {
        remove(rt, self.database.as_str())?;
        remove(rt, self.log.as_str())
    }
}

/// Whether the name of a new database cannot be had: a file that is not empty has it, or a log or a journal lies beside
/// it, which SQLite would play into it.
fn is_taken(rt: &HostRuntime, path: &str) -> Result<bool, Failure> {
    let alloc = rt.alloc();
    for ending in ["-wal", "-journal"] {
        let other = format!(in alloc; "{path}{ending}")?;
        if size_at(rt, other.as_str())?.is_some() {
            return Ok(true);
        }
    }
    Ok(size_at(rt, path)?.is_some_and(|bytes| bytes > 0))
}

/// The size of a file, in bytes, or of something else of this name; none if there is nothing.
fn size_at(rt: &HostRuntime, path: &str) -> Result<Option<u64>, Failure> {
    match fs::symlink_metadata(rt, path) {
        Ok(found) if found.is_file() => Ok(Some(found.len())),
        Ok(_) => Ok(Some(u64::MAX)),
        Err(error) if error.kind() == ErrorKind::NotFound => Ok(None),
        Err(error) => Err(Failure::of_call(error)),
    }
}

/// The folder of a file, and its name in it.
fn parts_of(path: &str) -> (&str, &str) {
    match path.rsplit_once('/') {
        Some(("", name)) => ("/", name),
        Some(parts) => parts,
        None => (".", path),
    }
}

/// The path of the draft of a file of this name.
fn beside(alloc: Global, path: &str, name: &str) -> Result<String, AllocError> {
    let folder = path.strip_suffix(name).unwrap_or("");
    format!(in alloc; "{folder}.{name}.part")
}

fn open_folder(rt: &HostRuntime, path: &str) -> io::Result<File> {
    if !fs::metadata(rt, path)?.is_dir() {
        return Err(ErrorKind::NotADirectory.into());
    }
    fs::open(rt, path)
}

/// Makes a file, which was not there.
fn make(rt: &HostRuntime, path: &str) -> io::Result<File> {
    File::options()
        .write(true)
        .create_new(true)
        .mode(0o600)
        .open(rt, path)
}

/// Removes a file, if it is there.
fn remove(rt: &HostRuntime, path: &str) -> Result<(), Failure> {
    match fs::remove_file(rt, path) {
        Ok(()) => Ok(()),
        Err(error) if error.kind() == ErrorKind::NotFound => Ok(()),
        Err(error) => Err(Failure::of_call(error)),
    }
}
