//! A database and its log, copied as they are at one moment.

ghost use Rattle.std.specs.Prelude.{◌≡◌};
ghost use Rattle.backup.specs.Moved.{is_moved};

use crate::failure::{Failure, Why};
use crate::folder::Draft;
use crate::progress::Progress;
use std::fs::File;
use std::io::{ErrorKind, Read, Write};
use std::os::unix::fs::OpenOptionsExt;
use std::rt::HostRuntime;
use std::{fs, io};

/// How often the files are copied, at most.
const COPIES: u32 = 20;

/// How many bytes the head of a log has (SQLite's "Database File Format", 4.1).
const HEAD: u64 = 32;

/// How many bytes are copied at once.
const PIECE: usize = 65_536;

/// The files of a database, where no link leads on.
#[derive(Drop)]
pub(crate) struct Source {
    database: String,
    log: String,
    journal: String,
}

impl Source {
    /// The files of the database at a path. It is a regular file, without a journal.
    pub(crate) fn at(rt: &HostRuntime, path: &str) -> Result<Source, Failure> {
        let alloc = rt.alloc();
        let found = match fs::canonicalize(rt, path) {
            Ok(found) => found,
            Err(error) => return Err(Failure::of_call(alloc, path, error)),
        };
        let source = Source {
            database: String::from_str(alloc, found.as_str())?,
            log: format!(in alloc; "{}-wal", found.as_str())?,
            journal: format!(in alloc; "{}-journal", found.as_str())?,
        };
        if !is_file(rt, source.database.as_str())? {
            return Err(Failure::at(alloc, path, Why::NotAFile));
        }
        if is_file(rt, source.journal.as_str())? {
            return Err(Failure::at(alloc, path, Why::Journal));
        }
        Ok(source)
    }
}

/// Whether there is a regular file that is not empty.
fn is_file(rt: &HostRuntime, path: &str) -> Result<bool, Failure> {
    match fs::metadata(rt, path) {
        Ok(found) => Ok(found.is_file() && found.len() > 0),
        Err(error) if error.kind() == ErrorKind::NotFound => Ok(false),
        Err(error) => Err(Failure::of_call(rt.alloc(), path, error)),
    }
}

/// Copies the database, and then its log, until the log has the same head before and after: a broker changes its
/// database only while it moves the log into it, and then the log gets another head. Without a log the database is all.
pub(crate) fn copy(
    rt: &HostRuntime,
    source: &Source,
    draft: &Draft,
    progress: &mut Progress<'_>,
) -> Result<(), Failure> {
    for _ in 0..COPIES {
        let before = head_of(rt, source.log.as_str())?;
        draft.remove(rt)?;
        copy_file(rt, source.database.as_str(), draft.database(), progress)?;
        if is_file(rt, source.log.as_str())? {
            copy_file(rt, source.log.as_str(), draft.log(), progress)?;
        }
        let after = head_of(rt, source.log.as_str())?;
        if !is_moved(before.as_slice(), after.as_slice()) {
            return Ok(());
        }
    }
    Err(Failure::at(rt.alloc(), source.database.as_str(), Why::Changing))
}

/// Whether a log was moved into its database between two looks at its head: exactly then it has another one.
fn is_moved(before: &[u8], after: &[u8]) -> bool
    ensures { result ≡ is_moved before.now after.now }
{
    before != after
}

/// The first 32 bytes of a log, or as many as it has: none if it is not there.
fn head_of(rt: &HostRuntime, path: &str) -> Result<Vec<u8>, Failure> {
    match read_head(rt, path) {
        Ok(head) => Ok(head),
        Err(error) if error.kind() == ErrorKind::NotFound => Ok(Vec::new(rt.alloc())),
        Err(error) => Err(Failure::of_call(rt.alloc(), path, error)),
    }
}

fn read_head(rt: &HostRuntime, path: &str) -> io::Result<Vec<u8>> {
    let mut head = Vec::new(rt.alloc());
    let file = fs::open(rt, path)?;
    file.take(HEAD).read_to_end(&mut head)?;
    Ok(head)
}

/// Copies a file to a new one, which only its owner can read, piece by piece.
fn copy_file(
    rt: &HostRuntime,
    from: &str,
    to: &str,
    progress: &mut Progress<'_>,
) -> Result<(), Failure> {
    let alloc = rt.alloc();
    let mut source = match fs::open(rt, from) {
        Ok(file) => file,
        Err(error) => return Err(Failure::of_call(alloc, from, error)),
    };
    let mut target = match make(rt, to) {
        Ok(file) => file,
        Err(error) => return Err(Failure::of_call(alloc, to, error)),
    };
    let mut piece = vec![in alloc; 0u8; PIECE]?;
    let mut copied = 0u64;
    for _ in 0..u64::MAX {
        let count = match source.read(piece.as_mut_slice()) {
            Ok(count) => count,
            Err(error) => return Err(Failure::of_call(alloc, from, error)),
        };
        if count == 0 {
            break;
        }
        if let Err(error) = target.write_all(&piece.as_slice()[..count]) {
            return Err(Failure::of_call(alloc, to, error));
        }
        copied = copied.saturating_add(count as u64);
        progress.copied(from, copied);
    }
    Ok(())
}

/// Makes a file, which was not there.
fn make(rt: &HostRuntime, path: &str) -> io::Result<File> {
    File::options()
        .write(true)
        .create_new(true)
        .mode(0o600)
        .open(rt, path)
}
