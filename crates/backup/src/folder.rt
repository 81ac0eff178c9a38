//! The folder of backups, and the draft of one in it.

use crate::failure::{Failure, Why};
use std::alloc::{AllocError, Global};
use std::fs::{DirBuilder, File, TryLockError};
use std::io::ErrorKind;
use std::os::unix::fs::DirBuilderExt;
use std::rt::HostRuntime;
use std::{fs, io};

/// The folder of backups, open: while it is, no other backup is written into it.
#[derive(Drop)]
pub(crate) struct Folder {
    path: String,
    opened: File,
}

impl Folder {
    /// Makes the folder, which only its owner can read, unless it is there, and takes it for this backup.
    pub(crate) fn open(rt: &HostRuntime, path: &str) -> Result<Folder, Failure> {
        let alloc = rt.alloc();
        if let Err(error) = make_folder(rt, path) {
            return Err(Failure::of_call(alloc, path, error));
        }
        let opened = match open_folder(rt, path) {
            Ok(opened) => opened,
            Err(error) => return Err(Failure::of_call(alloc, path, error)),
        };
        match opened.try_lock() {
            Err(TryLockError::WouldBlock) => Err(Failure::at(alloc, path, Why::Busy)),
            // A file system without such locks takes a backup too.
            Ok(()) | Err(TryLockError::Error(_)) => Ok(Folder {
                path: String::from_str(alloc, path)?,
                opened,
            }),
        }
    }

    /// The path of a file of this name in the folder.
    pub(crate) fn path_of(&self, alloc: Global, name: &str) -> Result<String, AllocError> {
        path_in(alloc, self.path.as_str(), name)
    }

    /// Waits until the names in the folder are on the disk.
    pub(crate) fn sync(&self, alloc: Global) -> Result<(), Failure> {
        match self.opened.sync_all() {
            Ok(()) => Ok(()),
            Err(error) => Err(Failure::of_call(alloc, self.path.as_str(), error)),
        }
    }
}

/// The path of a file of this name in a folder.
pub(crate) fn path_in(alloc: Global, folder: &str, name: &str) -> Result<String, AllocError> {
    if folder.ends_with('/') {
        format!(in alloc; "{folder}{name}")
    } else {
        format!(in alloc; "{folder}/{name}")
    }
}

fn make_folder(rt: &HostRuntime, path: &str) -> io::Result<()> {
    match DirBuilder::new().mode(0o700).create(rt, path) {
        Err(error) if error.kind() == ErrorKind::AlreadyExists => Ok(()),
        made => made,
    }
}

fn open_folder(rt: &HostRuntime, path: &str) -> io::Result<File> {
    if !fs::metadata(rt, path)?.is_dir() {
        return Err(ErrorKind::NotADirectory.into());
    }
    fs::open(rt, path)
}

/// The two files of a backup that is being made, by names that a later run knows and removes.
#[derive(Drop)]
pub(crate) struct Draft {
    database: String,
    log: String,
}

impl Draft {
    /// The draft in a folder for the backups of files with this stem.
    pub(crate) fn of(alloc: Global, folder: &Folder, stem: &str) -> Result<Draft, AllocError> {
        let name = format!(in alloc; ".{stem}.part")?;
        let database = folder.path_of(alloc, name.as_str())?;
        let log = format!(in alloc; "{}-wal", database.as_str())?;
        Ok(Draft { database, log })
    }

    /// The path of the copy of the database.
    pub(crate) fn database(&self) -> &str {
        self.database.as_str()
    }

    /// The path of the copy of its log.
    pub(crate) fn log(&self) -> &str {
        self.log.as_str()
    }

    /// Removes what there is of it.
    pub(crate) fn remove(&self, rt: &HostRuntime) -> Result<(), Failure> {
        remove(rt, self.database.as_str())?;
        remove(rt, self.log.as_str())
    }
}

/// Removes a file, if it is there.
pub(crate) fn remove(rt: &HostRuntime, path: &str) -> Result<(), Failure> {
    match fs::remove_file(rt, path) {
        Ok(()) => Ok(()),
        Err(error) if error.kind() == ErrorKind::NotFound => Ok(()),
        Err(error) => Err(Failure::of_call(rt.alloc(), path, error)),
    }
}
