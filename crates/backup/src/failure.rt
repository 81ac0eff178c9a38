//! Why there is no backup.

use database_check::Defect;
use records_sql::CausedFault;
use std::alloc::{AllocError, Global};
use std::io::ErrorKind;
use std::{fmt, io};

/// Why a file or a folder keeps a backup from being made.
#[derive(Drop)]
pub enum Why {
    /// The system refused a call.
    System(io::Error),
    /// It is no regular file, or it is empty.
    NotAFile,
    /// A rollback journal of SQLite lies beside it.
    Journal,
    /// Its log was moved into it during each copy.
    Changing,
    /// Another backup is being written into it.
    Busy,
    /// There is a file of this name.
    Taken,
    /// Its copy cannot be opened as the database of a broker.
    Unreadable(CausedFault),
    /// A row keeps it from being the database of a broker.
    Unsound(Defect),
}

/// Why there is no backup, or why an older one could not be removed.
#[derive(Drop)]
pub enum Failure {
    /// Memory ran out.
    Memory,
    /// A file or a folder, and why it keeps a backup from being made.
    At { path: String, why: Why },
}

impl Failure {
    /// The failure at a path.
    pub(crate) fn at(alloc: Global, path: &str, why: Why) -> Failure {
        match String::from_str(alloc, path) {
            Ok(path) => Failure::At { path, why },
            Err(_) => Failure::Memory,
        }
    }

    /// The failure where the system refuses a call at a path.
    pub(crate) fn of_call(alloc: Global, path: &str, error: io::Error) -> Failure {
        if error.kind() == ErrorKind::OutOfMemory {
            return Failure::Memory;
        }
        Failure::at(alloc, path, Why::System(error))
    }
}

impl From<AllocError> for Failure {
    fn from(_: AllocError) -> Failure {
        Failure::Memory
    }
}

impl fmt::Display for Why {
    /// In a person's words, after the name of the file.
    fn fmt<W: fmt::Write>(&self, f: &mut fmt::Formatter<W>) -> fmt::Result {
        match self {
            Why::System(error) => tell_error(f, error),
            Why::NotAFile => f.write_str("no regular file, or an empty one"),
            Why::Journal => f.write_str(
                "a journal (-journal) lies beside it: open it once with sqlite3, which plays it back",
            ),
            Why::Changing => f.write_str(
                "its log was moved into it during each of 20 copies: stop the broker, and back up then",
            ),
            Why::Busy => f.write_str("another backup is being written into it"),
            Why::Taken => f.write_str("there is a file of this name, which stays as it is"),
            Why::Unreadable(caused) => write!(f, "its copy cannot be opened: {caused}"),
            Why::Unsound(defect) => write!(f, "no backup is kept: {defect}"),
        }
    }
}

/// What the system says, in a person's words where the program knows some.
fn tell_error<W: fmt::Write>(f: &mut fmt::Formatter<W>, error: &io::Error) -> fmt::Result {
    match error.kind() {
        ErrorKind::NotFound => f.write_str("there is no such file, or no such folder"),
        ErrorKind::PermissionDenied => f.write_str("permission denied"),
        ErrorKind::ReadOnlyFilesystem => f.write_str("it is on a file system that is read-only"),
        ErrorKind::NotADirectory => f.write_str("no folder"),
        ErrorKind::IsADirectory => f.write_str("a folder, and no regular file"),
        ErrorKind::StorageFull | ErrorKind::QuotaExceeded => {
            f.write_str("no space left on the disk")
        }
        ErrorKind::FileTooLarge => f.write_str("it would be larger than a file may be"),
        _ => write!(f, "{error}"),
    }
}

impl fmt::Display for Failure {
    /// The path and why, in one line.
    fn fmt<W: fmt::Write>(&self, f: &mut fmt::Formatter<W>) -> fmt::Result {
        match self {
            Failure::Memory => f.write_str("not enough memory"),
            Failure::At { path, why } => write!(f, "{}: {why}", path.as_str()),
        }
    }
}
