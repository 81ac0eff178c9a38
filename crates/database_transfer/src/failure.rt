//! Why there is no export, or no new database.

use records_sql::{Cause, CausedFault};
use std::alloc::AllocError;
use std::io::ErrorKind;
use std::{fmt, io};

/// Why a file keeps rows from being written or read.
#[derive(Drop)]
pub enum Why {
    /// The system refused a call.
    System(io::Error),
    /// There is a file of this name that is not empty, or a log or a journal beside it.
    Taken,
    /// Another program writes into its folder.
    Busy,
    /// The database cannot be opened or read, or the new one cannot be written.
    Faulted(CausedFault),
    /// The rows could not be written to where they go.
    Unwritten,
}

/// Why there is no export, or no new database.
#[derive(Drop)]
pub enum Failure {
    /// Memory ran out.
    Memory,
    /// What the database that was named has to do with it.
    Of(Why),
}

impl Failure {
    /// The failure where the system refuses a call.
    pub(crate) fn of_call(error: io::Error) -> Failure {
        if error.kind() == ErrorKind::OutOfMemory {
            return Failure::Memory;
        }
        Failure::Of(Why::System(error))
    }
}

impl From<AllocError> for Failure {
    fn from(_: AllocError) -> Failure {
        Failure::Memory
    }
}

impl From<CausedFault> for Failure {
    fn from(caused: CausedFault) -> Failure {
        Failure::Of(Why::Faulted(caused))
    }
}

impl From<Cause> for Failure {
    fn from(cause: Cause) -> Failure {
        Failure::from(CausedFault::from(cause))
    }
}

impl fmt::Display for Failure {
    /// In a person's words, after the name of the database.
    fn fmt<W: fmt::Write>(&self, f: &mut fmt::Formatter<W>) -> fmt::Result {
        match self {
            Failure::Memory => f.write_str("not enough memory"),
            Failure::Of(Why::System(error)) => tell_error(f, error),
            Failure::Of(Why::Taken) => f.write_str(
                "there is a file of this name, or a log or journal of one, which stays as it is",
            ),
            Failure::Of(Why::Busy) => {
                f.write_str("another program writes a backup or a database into its folder")
            }
            Failure::Of(Why::Faulted(caused)) => write!(f, "{caused}"),
            Failure::Of(Why::Unwritten) => f.write_str("its rows could not be written"),
        }
    }
}

/// What the system says, in a person's words where the program knows some.
fn tell_error<W: fmt::Write>(f: &mut fmt::Formatter<W>, error: &io::Error) -> fmt::Result {
    match error.kind() {
        ErrorKind::NotFound => f.write_str("there is no such folder"),
        ErrorKind::PermissionDenied => f.write_str("permission denied"),
        ErrorKind::ReadOnlyFilesystem => f.write_str("it is on a file system that is read-only"),
        ErrorKind::NotADirectory => f.write_str("its folder is none"),
        ErrorKind::StorageFull | ErrorKind::QuotaExceeded => {
            f.write_str("no space left on the disk")
        }
        _ => write!(f, "{error}"),
    }
}
