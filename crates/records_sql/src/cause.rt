//! Why the storage failed.

ghost use Rattle.std.specs.Prelude.{◌≡◌};
ghost use Rattle.records_sql.specs.Causes.{after, cause_of, cause_of_code};

use broker_types::Fault;
use sqlite::{Error as SqlError, ErrorCode};
use sqlite_resolve::CompileError;
use sqlite_std_file::OpenError;
use std::error::Error;
use std::fmt;
use std::fmt::Display;
use std::io::ErrorKind;

/// Why the storage failed. Each is told as the fault `Storage`.
#[derive(Clone, Copy, Debug, PartialEq, Eq)]
pub enum Cause {
    /// There is no such file, or its folder is missing.
    Missing,
    /// The file is empty.
    Empty,
    /// The file, or its folder, may not be read or written.
    Permission,
    /// The file system cannot be written.
    ReadOnly,
    /// It is no regular file with one name, or a link stands at the name of its log.
    NotAFile,
    /// To SQLite it is no name of a file.
    Name,
    /// The file, or its folder, cannot be opened for another reason.
    CannotOpen,
    /// Another program has the file open.
    InUse,
    /// A rollback journal of SQLite lies beside the file.
    Journal,
    /// The file is none of SQLite.
    NotADatabase,
    /// The database has other tables, indexes or views than that of a broker.
    OtherTables,
    /// What is in the file, or in its log, cannot be, or is not what was written.
    Damaged,
    /// The disk has no more space, or the owner of the file may have no more of it.
    Full,
    /// A read, a write or a sync failed.
    Disk,
    /// Memory ran out for the database.
    Memory,
    /// The system gave no random numbers.
    Randomness,
    /// A value, or the schema, is beyond what the database takes.
    TooLarge,
    /// An earlier failure has ended the transaction, or shut the database.
    Closed,
    /// The database refused a statement.
    Refused,
}

impl Cause {
    /// The cause that an error of the database tells.
    pub(crate) fn of(error: SqlError) -> Cause
        ensures { result ≡ cause_of error }
    {
        match error {
            SqlError::SqliteFailure(code) => of_code(code),
            SqlError::SqlInputError(CompileError::OutOfMemory) => Cause::Memory,
            _ => Cause::Refused,
        }
    }

    /// The cause after an earlier one: what only follows from another failure leaves the cause of that.
    pub(crate) fn after(self, earlier: Option<Cause>) -> Cause
        ensures { result ≡ after earlier self }
    {
        match (self, earlier) {
            (Cause::Closed, Some(cause)) => cause,
            (cause, _) => cause,
        }
    }

    /// The cause where the system refuses to open a file.
    pub fn of_kind(kind: ErrorKind) -> Cause {
        match kind {
            ErrorKind::NotFound | ErrorKind::NotADirectory => Cause::Missing,
            ErrorKind::PermissionDenied => Cause::Permission,
            ErrorKind::ReadOnlyFilesystem => Cause::ReadOnly,
            ErrorKind::Unsupported | ErrorKind::IsADirectory => Cause::NotAFile,
            ErrorKind::StorageFull | ErrorKind::QuotaExceeded => Cause::Full,
            ErrorKind::OutOfMemory => Cause::Memory,
            _ => Cause::CannotOpen,
        }
    }
}

/// The cause that a code of the database tells.
fn of_code(code: ErrorCode) -> Cause
    ensures { result ≡ cause_of_code code }
{
    match code {
        ErrorCode::CannotOpen => Cause::CannotOpen,
        ErrorCode::DatabaseBusy => Cause::InUse,
        ErrorCode::NotADatabase => Cause::Damaged,
        ErrorCode::DatabaseCorrupt => Cause::Damaged,
        ErrorCode::DiskFull => Cause::Full,
        ErrorCode::SystemIoFailure => Cause::Disk,
        ErrorCode::OutOfMemory => Cause::Memory,
        ErrorCode::TooBig | ErrorCode::SchemaTooBig | ErrorCode::NoRowid => Cause::TooLarge,
        ErrorCode::Closed => Cause::Closed,
        _ => Cause::Refused,
    }
}

impl Display for Cause {
    /// In a person's words, after the name of the file.
    fn fmt<W: fmt::Write>(&self, f: &mut fmt::Formatter<W>) -> fmt::Result {
        f.write_str(match self {
            Cause::Missing => "there is no such file, or no such folder",
            Cause::Empty => "an empty file",
            Cause::Permission =>
                "permission denied: the program has to read and write it, its log (-wal) and its folder",
            Cause::ReadOnly => "it is on a file system that is read-only",
            Cause::NotAFile => "it, or its log (-wal), is no regular file, or has a second name",
            Cause::Name => "no name of a file",
            Cause::CannotOpen => "it cannot be opened",
            Cause::InUse => "in use by another program",
            Cause::Journal =>
                "a journal (-journal) lies beside it: open it once with sqlite3, which plays it back",
            Cause::NotADatabase => "not a database",
            Cause::OtherTables =>
                "the database of another program, or of another version: it has not the tables of a broker",
            Cause::Damaged =>
                "damaged, or its log (-wal) is: try `brokerd check` on a copy of both, and restore a backup",
            Cause::Full => "no space left on the disk",
            Cause::Disk =>
                "a read, a write or a sync failed: the disk, or a limit on the size of files",
            Cause::Memory => "not enough memory for the database",
            Cause::Randomness => "the system gave no random numbers",
            Cause::TooLarge => "a value is too large for the database",
            Cause::Closed => "an earlier failure has shut the database",
            Cause::Refused => "the database refused a statement",
        })
    }
}

impl Error for Cause {}

impl From<SqlError> for Cause {
    ghost use Rattle.std.specs.Prelude.{◌≡◌};
    ghost use Rattle.records_sql.specs.Causes.{cause_of};

    ghost from_gives = { λ error cause. cause ≡ cause_of error };

    fn from(error: SqlError) -> Cause {
        Cause::of(error)
    }
}

impl From<OpenError> for Cause {
    fn from(error: OpenError) -> Cause {
        match error {
            OpenError::Io(error) => Cause::of_kind(error.kind()),
            OpenError::OutOfMemory => Cause::Memory,
            OpenError::Busy => Cause::InUse,
            OpenError::HotJournal => Cause::Journal,
        }
    }
}

/// A fault, and if it is `Storage` its cause.
#[derive(Clone, Copy, Debug, PartialEq, Eq)]
pub struct CausedFault {
    pub fault: Fault,
    pub cause: Option<Cause>,
}

impl Display for CausedFault {
    /// In a person's words, after the name of the file.
    fn fmt<W: fmt::Write>(&self, f: &mut fmt::Formatter<W>) -> fmt::Result {
        match (self.fault, self.cause) {
            (Fault::Storage, Some(cause)) => write!(f, "{cause}"),
            (Fault::Storage, None) => write!(f, "the storage failed"),
            (Fault::Memory, _) => write!(f, "not enough memory"),
            (Fault::Damaged, _) => write!(
                f,
                "a row is damaged: `brokerd check` says which; restore a backup"
            ),
            (Fault::BadStart, _) => write!(
                f,
                "it has rows, but not that of the clock: not the database of a broker, or damaged; restore a backup"
            ),
        }
    }
}

impl Error for CausedFault {}

impl From<Cause> for CausedFault {
    ghost use Rattle.std.specs.Prelude.{◌≡◌, Some};
    ghost use Rattle.broker_types.specs.declared.fault.Fault.TheVariants.{Storage};

    ghost from_gives = { λ cause caused. (caused.fault ≡ Storage) × (caused.cause ≡ Some cause) };

    fn from(cause: Cause) -> CausedFault {
        CausedFault {
            fault: Fault::Storage,
            cause: Some(cause),
        }
    }
}

impl From<Cause> for Fault {
    ghost use Rattle.std.specs.Prelude.{◌≡◌};
    ghost use Rattle.broker_types.specs.declared.fault.Fault.TheVariants.{Storage};

    ghost from_gives = { λ _ fault. fault ≡ Storage };

    fn from(_: Cause) -> Fault {
        Fault::Storage
    }
}
