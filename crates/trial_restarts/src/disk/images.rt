//! What crashes leave of two files.

use std::alloc::{AllocError, Global};
use std::fmt;

/// One byte of 2, of 8, and so on: where all these bits of a random number are 0.
const MASKS: [u32; 8] = [0x1, 0x7, 0x1f, 0x7f, 0x1ff, 0x7ff, 0x1fff, 0x7fff];

/// Which bytes of a write that is torn are new.
#[derive(Clone, Copy, Debug, PartialEq, Eq)]
pub(crate) struct Mix {
    pub(crate) seed: u64,
    /// All but those for which these bits of a random number are 0, or these alone.
    pub(crate) mask: u32,
    pub(crate) is_mostly_new: bool,
}

/// Which of its changes since the last sync a crash leaves to a file.
#[derive(Clone, Copy, Debug, PartialEq, Eq)]
pub(crate) enum Left {
    /// So many, from the first on.
    First(usize),
    /// All but the one at this place.
    AllBut(usize),
    /// Some bytes of each.
    Mixed(Mix),
}

impl fmt::Display for Left {
    fn fmt<W: fmt::Write>(&self, f: &mut fmt::Formatter<W>) -> fmt::Result {
        match self {
            Left::First(count) => write!(f, "the first {count}"),
            Left::AllBut(place) => write!(f, "all but number {place}, counted from 0,"),
            Left::Mixed(_) => write!(f, "some bytes of each"),
        }
    }
}

/// What a crash leaves of both files.
#[derive(Clone, Copy, Debug, PartialEq, Eq)]
pub(crate) struct Image {
    pub(crate) log: Left,
    pub(crate) database: Left,
}

impl fmt::Display for Image {
    fn fmt<W: fmt::Write>(&self, f: &mut fmt::Formatter<W>) -> fmt::Result {
        let Image { log, database } = *self;
        write!(
            f,
            "the log keeps {log} of its unsynced changes, the database {database}"
        )
    }
}

/// What crashes leave of two files with so many unsynced changes.
pub(crate) fn images_of(
    alloc: Global,
    log: usize,
    database: usize,
    seed: u64,
) -> Result<Vec<Image>, AllocError> {
    let mut images = Vec::new(alloc);
    let log_ends = ends(alloc, log)?;
    let database_ends = ends(alloc, database)?;
    for log in log_ends.iter().copied() {
        for database in database_ends.iter().copied() {
            images.push(Image { log, database })?;
        }
    }
    for log in parts(alloc, log, seed)?.iter().copied() {
        for database in database_ends.iter().copied() {
            images.push(Image { log, database })?;
        }
    }
    for database in parts(alloc, database, seed)?.iter().copied() {
        for log in log_ends.iter().copied() {
            images.push(Image { log, database })?;
        }
    }
    Ok(images)
}

/// All of so many changes, and none.
fn ends(alloc: Global, count: usize) -> Result<Vec<Left>, AllocError> {
    let mut ends = Vec::new(alloc);
    ends.push(Left::First(count))?;
    if count > 0 {
        ends.push(Left::First(0))?;
    }
    Ok(ends)
}

/// Parts of so many changes.
fn parts(alloc: Global, count: usize, seed: u64) -> Result<Vec<Left>, AllocError> {
    let mut parts = Vec::new(alloc);
    if count == 0 {
        return Ok(parts);
    }
    for first in 1..count {
        parts.push(Left::First(first))?;
    }
    // All but the last are the first.
    for place in 1..count {
        parts.push(Left::AllBut(place - 1))?;
    }
    for mask in MASKS {
        for is_mostly_new in [false, true] {
            parts.push(Left::Mixed(Mix {
                seed: seed ^ u64::from(mask),
                mask,
                is_mostly_new,
            }))?;
        }
    }
    Ok(parts)
}
