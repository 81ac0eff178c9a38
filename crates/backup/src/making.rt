//! A backup made, checked, and given its name.

ghost use Rattle.std.specs.Prelude.{◌<◌};

use crate::copying::{Source, copy};
use crate::failure::{Failure, Why};
use crate::folder::{Draft, Folder, remove};
use crate::names::{backup_name, stem_of};
use crate::progress::Progress;
use database_check::{Counts, Finding, check_from};
use records_sql::{Cause, CausedFault};
use sqlite::Unknown;
use std::io::ErrorKind;
use std::rt::HostRuntime;
use std::time::{SystemTime, UNIX_EPOCH};
use std::{fmt, fs, io};

/// The last second of the year 9999, which is the last that a name can tell.
const LAST: u64 = 253_402_300_799;

/// Which database is backed up, and to where.
#[derive(Clone, Copy, Debug, PartialEq, Eq)]
pub struct Request<'a> {
    /// The database, whose broker may run.
    pub db: &'a str,
    /// The folder of the backups, which is made if it is not there.
    pub folder: &'a str,
    /// How many backups of this database stay in the folder; none removes none.
    pub keep: Option<u32>,
}

/// A backup that was made.
#[derive(Drop)]
pub struct Backup {
    /// The path of the file.
    pub path: String,
    /// How many bytes it has.
    pub bytes: u64,
    /// How many rows of each kind are in it.
    pub counts: Counts,
}

impl fmt::Display for Backup {
    /// The file, its bytes, and what was counted in it, as a check tells them.
    fn fmt<W: fmt::Write>(&self, f: &mut fmt::Formatter<W>) -> fmt::Result {
        let path = self.path.as_str();
        write!(f, "{path}: {} bytes, ok, {}", self.bytes, self.counts)
    }
}

/// Copies a database and its log into one file of a folder, checks that it is that of a sound broker, and gives it its
/// name, after the database's and with this moment. It was synced by then, and only its owner can read it. No other
/// file changes. Where it fails, only the folder may be there that was not before; what a run that was killed has left
/// of its copy, the next one removes.
pub fn back_up(rt: &HostRuntime, request: &Request<'_>) -> Result<Backup, Failure> {
    let alloc = rt.alloc();
    let source = Source::at(rt, request.db)?;
    let folder = Folder::open(rt, request.folder)?;
    let stem = stem_of(request.db);
    let draft = Draft::of(alloc, &folder, stem)?;
    let name = backup_name(alloc, stem, now(rt))?;
    let path = folder.path_of(alloc, name.as_str())?;
    let made = make(rt, request, &source, &draft).and_then(|counts| {
        publish(rt, &folder, &draft, path.as_str())?;
        Ok(counts)
    });
    match made {
        Ok(counts) => Ok(Backup {
            bytes: size_of(rt, path.as_str()),
            path,
            counts,
        }),
        Err(failure) => {
            // The first failure is told.
            let _ = draft.remove(rt);
            Err(failure)
        }
    }
}

/// Makes the draft: one file, which is synced, of a sound broker.
fn make(
    rt: &HostRuntime,
    request: &Request<'_>,
    source: &Source,
    draft: &Draft,
) -> Result<Counts, Failure> {
    let mut progress = Progress::new(rt);
    copy(rt, source, draft, &mut progress)?;
    let bytes = size_of(rt, draft.database()).saturating_add(size_of(rt, draft.log()));
    progress.checking(request.db, bytes);
    match check(rt, draft.database()) {
        Ok(Finding::Sound(counts)) => {
            remove(rt, draft.log())?;
            Ok(counts)
        }
        Ok(Finding::Unsound(defect)) => {
            Err(Failure::at(rt.alloc(), request.db, Why::Unsound(defect)))
        }
        Err(caused) => Err(Failure::at(rt.alloc(), request.db, Why::Unreadable(caused))),
    }
}

/// What a check finds of a database, whose log is moved into it.
fn check(rt: &HostRuntime, path: &str) -> Result<Finding, CausedFault> {
    let (finding, records) = check_from(rt, path, Unknown)?;
    match records.into_connection().close() {
        Ok(()) => Ok(finding),
        Err(error) => Err(CausedFault::from(Cause::from(error))),
    }
}

/// Gives the draft its name, unless another file has it, and waits until the disk knows that.
fn publish(rt: &HostRuntime, folder: &Folder, draft: &Draft, path: &str) -> Result<(), Failure> {
    let alloc = rt.alloc();
    match give_name(rt, draft.database(), path) {
        Ok(()) => {}
        Err(error) if error.kind() == ErrorKind::AlreadyExists => {
            return Err(Failure::at(alloc, path, Why::Taken));
        }
        Err(error) => return Err(Failure::of_call(alloc, path, error)),
    }
    let settled = draft.remove(rt).and_then(|()| folder.sync(alloc));
    if settled.is_err() {
        // The first failure is told.
        let _ = remove(rt, path);
    }
    settled
}

/// Gives a file another name, unless a file has that. Where the file system gives no file two names it is renamed,
/// which does the same as long as no other program takes the name just then.
fn give_name(rt: &HostRuntime, from: &str, to: &str) -> io::Result<()> {
    match fs::hard_link(rt, from, to) {
        Err(error) if error.kind() == ErrorKind::AlreadyExists => Err(error),
        Err(_) if fs::symlink_metadata(rt, to).is_err() => fs::rename(rt, from, to),
        done => done,
    }
}

/// This second, counted from the beginning of 1970, as far as a name can tell it.
fn now(rt: &HostRuntime) -> u64
    ensures { result < 253_402_300_800 }
{
    let Ok(time) = SystemTime::now(rt) else {
        return 0;
    };
    match time.duration_since(UNIX_EPOCH) {
        Ok(since) => since.as_secs().min(LAST),
        Err(_) => 0,
    }
}

/// The size of a file, in bytes, or 0 if it cannot be told.
fn size_of(rt: &HostRuntime, path: &str) -> u64 {
    match fs::metadata(rt, path) {
        Ok(found) => found.len(),
        Err(_) => 0,
    }
}
