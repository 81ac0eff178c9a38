//! What is done to a file, and what a crash leaves of it.

use crate::disk::images::{Left, Mix};
use ram_disk::RamFile;
use rand_chacha::ChaCha20Rng;
use rand_core::{Rng, SeedableRng};
use sqlite_disk::Disk;
use std::alloc::{AllocError, Global};
use std::io;

/// A call that changed a file.
#[derive(Drop)]
enum Change {
    /// Bytes were written from an offset on.
    Write { at: usize, bytes: Vec<u8> },
    /// The length was set.
    Resize { len: usize },
}

/// How often a file was changed, and how often synced.
#[derive(Clone, Copy, Debug, PartialEq, Eq)]
pub(crate) struct Counts {
    pub(crate) changes: u64,
    pub(crate) syncs: u64,
}

impl Counts {
    pub(crate) const NONE: Counts = Counts {
        changes: 0,
        syncs: 0,
    };
}

/// What a file had at its last sync, and the changes since.
#[derive(Drop)]
pub(crate) struct Trace {
    alloc: Global,
    synced: RamFile,
    changes: Vec<Change>,
    counts: Counts,
    /// Whether there was memory for all of it.
    is_whole: bool,
}

impl Trace {
    /// That of a file without a byte.
    pub(crate) fn new(alloc: Global) -> Trace {
        Trace {
            alloc,
            synced: RamFile::new(alloc),
            changes: Vec::new(alloc),
            counts: Counts::NONE,
            is_whole: true,
        }
    }

    pub(crate) fn note_write(&mut self, at: usize, bytes: &[u8]) {
        match bytes.to_vec(self.alloc) {
            Ok(bytes) => self.note(Change::Write { at, bytes }),
            Err(_) => self.is_whole = false,
        }
    }

    pub(crate) fn note_resize(&mut self, len: usize) {
        self.note(Change::Resize { len });
    }

    fn note(&mut self, change: Change) {
        self.counts.changes = self.counts.changes.saturating_add(1);
        if self.changes.push(change).is_err() {
            self.is_whole = false;
        }
    }

    pub(crate) fn note_sync(&mut self) {
        self.counts.syncs = self.counts.syncs.saturating_add(1);
        for change in self.changes.iter() {
            if apply(&mut self.synced, change).is_err() {
                self.is_whole = false;
            }
        }
        self.changes.clear();
    }

    pub(crate) fn counts(&self) -> Counts {
        self.counts
    }

    /// How many changes are not synced.
    pub(crate) fn unsynced(&self) -> usize {
        self.changes.len()
    }

    /// The file that a crash leaves. The only error is running out of memory, also for the trace.
    pub(crate) fn file_left(&mut self, left: Left) -> Result<RamFile, AllocError> {
        match self.changed(left) {
            Ok(file) if self.is_whole => Ok(file),
            _ => Err(AllocError),
        }
    }

    /// What was synced, with the changes that are left.
    fn changed(&mut self, left: Left) -> io::Result<RamFile> {
        let len = self.synced.len()?;
        let bytes = bytes_of(self.alloc, &mut self.synced, 0, len)?;
        let mut file = RamFile::mixing(self.alloc);
        file.write_at(0, bytes.as_slice())?;
        match left {
            Left::First(count) => {
                for change in self.changes.iter().take(count) {
                    apply(&mut file, change)?;
                }
            }
            Left::AllBut(lost) => {
                for (place, change) in self.changes.iter().enumerate() {
                    if place != lost {
                        apply(&mut file, change)?;
                    }
                }
            }
            Left::Mixed(mix) => {
                let mut draws = Draws::new(mix);
                for change in self.changes.iter() {
                    apply_some(self.alloc, &mut file, change, &mut draws)?;
                }
            }
        }
        Ok(file)
    }
}

/// Draws which bytes are written.
#[derive(Drop)]
struct Draws {
    mix: Mix,
    generator: ChaCha20Rng,
}

impl Draws {
    fn new(mix: Mix) -> Draws {
        Draws {
            mix,
            generator: ChaCha20Rng::seed_from_u64(mix.seed),
        }
    }

    /// Whether the next byte is written.
    fn is_next_written(&mut self) -> bool {
        let is_rare = self.generator.next_u32() & self.mix.mask == 0;
        is_rare != self.mix.is_mostly_new
    }
}

/// Makes a change to a file.
fn apply(file: &mut RamFile, change: &Change) -> io::Result<()> {
    match change {
        Change::Write { at, bytes } => file.write_at(*at, bytes.as_slice()),
        Change::Resize { len } => file.set_len(*len),
    }
}

/// Makes a change to a file, but for some of the bytes; past the end they are zeros then.
fn apply_some(
    alloc: Global,
    file: &mut RamFile,
    change: &Change,
    draws: &mut Draws,
) -> io::Result<()> {
    let (at, bytes) = match change {
        Change::Write { at, bytes } => (*at, bytes.as_slice()),
        Change::Resize { len } => {
            if draws.is_next_written() {
                file.set_len(*len)?;
            }
            return Ok(());
        }
    };
    let end = at.saturating_add(bytes.len());
    if end > file.len()? {
        file.set_len(end)?;
    }
    let mut mixed = bytes_of(alloc, file, at, bytes.len())?;
    for (byte, written) in mixed.iter_mut().zip(bytes.iter()) {
        if *byte != *written && draws.is_next_written() {
            *byte = *written;
        }
    }
    file.write_at(at, mixed.as_slice())
}

/// So many bytes of a file, from an offset on.
fn bytes_of(alloc: Global, file: &mut RamFile, at: usize, len: usize) -> io::Result<Vec<u8>> {
    let mut bytes = vec![in alloc; 0; len]?;
    file.read_at(at, bytes.as_mut_slice())?;
    Ok(bytes)
}
