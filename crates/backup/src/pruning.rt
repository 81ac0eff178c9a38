//! Older backups removed.

use crate::failure::Failure;
use crate::folder::{path_in, remove};
use crate::making::Request;
use crate::names::{is_backup, is_surplus, stem_of};
use std::io::ErrorKind;
use std::rt::HostRuntime;
use std::{fs, io};

/// Removes all but the newest backups of a database in a folder, as many as the request says; without a number it
/// removes none. It fails if the folder cannot be read, or a backup not be removed.
pub fn prune(rt: &HostRuntime, request: &Request<'_>) -> Result<(), Failure> {
    let Some(keep) = request.keep else {
        return Ok(());
    };
    let stem = stem_of(request.db);
    let names = match backups_in(rt, request.folder, stem) {
        Ok(names) => names,
        Err(error) => return Err(Failure::of_call(rt.alloc(), request.folder, error)),
    };
    for name in names.as_slice() {
        if is_surplus(names.as_slice(), stem, name.as_str(), keep) {
            remove_backup(rt, request.folder, name.as_str())?;
        }
    }
    Ok(())
}

/// Removes a backup, and the log that is beside it if it was opened.
fn remove_backup(rt: &HostRuntime, folder: &str, name: &str) -> Result<(), Failure> {
    let alloc = rt.alloc();
    let path = path_in(alloc, folder, name)?;
    remove(rt, path.as_str())?;
    let log = format!(in alloc; "{}-wal", path.as_str())?;
    remove(rt, log.as_str())
}

/// The names of the backups of files with this stem in a folder. Names that are no text are none.
fn backups_in(rt: &HostRuntime, folder: &str, stem: &str) -> io::Result<Vec<String>> {
    let mut names = Vec::new(rt.alloc());
    for entry in fs::read_dir(rt, folder)? {
        match entry {
            Ok(entry) => {
                if is_backup(stem, entry.file_name()) {
                    names.push(String::from_str(rt.alloc(), entry.file_name())?)?;
                }
            }
            Err(error) if error.kind() == ErrorKind::InvalidFilename => {}
            Err(error) => return Err(error),
        }
    }
    Ok(names)
}
