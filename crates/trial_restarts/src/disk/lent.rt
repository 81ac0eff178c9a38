//! A file with a trace of what is done to it, lent to a database that ends before it does.

ghost use Rattle.std.specs.Prelude.{◌≡◌, ◌&&◌};

use crate::disk::trace::Trace;
use sqlite_disk::{Disk, Tally};
use std::alloc::Global;
use std::io;

/// A file, and a trace of what is done to it.
#[derive(Drop)]
pub(crate) struct Traced<D: Disk> {
    file: D,
    /// Whether it says that a torn write leaves each byte old or new, if the file says so.
    is_mixing: bool,
    pub(crate) trace: Trace,
}

impl<D: Disk> Traced<D> {
    pub(crate) fn new(alloc: Global, is_mixing: bool, file: D) -> Traced<D> {
        Traced {
            file,
            is_mixing,
            trace: Trace::new(alloc),
        }
    }
}

/// Such a file, which outlives what it is lent to.
#[derive(Drop)]
pub(crate) struct Lent<'m, D: Disk> {
    traced: &'m mut Traced<D>,
}

impl<'m, D: Disk> Lent<'m, D> {
    pub(crate) fn new(traced: &'m mut Traced<D>) -> Lent<'m, D>
        ensures same { result.traced.ghost_name ≡ traced.entry.ghost_name }
        ensures now { result.traced.now ≡ traced.old }
    {
        Lent { traced }
    }
}

impl<'m, D: Disk> Disk for Lent<'m, D> {
    ghost seen = { λ l. D.Disk.seen l.traced.now.file };

    ghost may_leave = { λ l. D.Disk.may_leave l.traced.now.file };

    ghost is_usable = { λ l. D.Disk.is_usable l.traced.now.file };

    ghost faults = { λ l. D.Disk.faults l.traced.now.file };

    ghost tally_of = { λ l. D.Disk.tally_of l.traced.now.file };

    ghost is_clean = { λ l. D.Disk.is_clean l.traced.now.file };

    ghost is_rotten = { λ l. D.Disk.is_rotten l.traced.now.file };

    ghost is_mixing = { λ l. l.traced.now.is_mixing && D.Disk.is_mixing l.traced.now.file };

    ghost key_of = { λ l. D.Disk.key_of l.traced.now.file };

    ghost is_fair = { λ l. D.Disk.is_fair l.traced.now.file };

    ghost fair_if_clean = { λ l. D.Disk.fair_if_clean l.traced.now.file };

    ghost seen_may_stay = { λ l. D.Disk.seen_may_stay l.traced.now.file };

    fn mixes(&self) -> bool {
        self.traced.is_mixing && self.traced.file.mixes()
    }

    fn key(&self) -> u64 {
        self.traced.file.key()
    }

    fn tally(&self) -> Tally {
        self.traced.file.tally()
    }

    fn may_be_used(&self) -> bool {
        self.traced.file.may_be_used()
    }

    fn len(&mut self) -> io::Result<usize> {
        self.traced.file.len()
    }

    fn read_at(&mut self, at: usize, buf: &mut [u8]) -> io::Result<()> {
        self.traced.file.read_at(at, buf)
    }

    fn read_checked(&mut self, key: u64, want: u64, at: usize, buf: &mut [u8]) -> io::Result<()> {
        self.traced.file.read_checked(key, want, at, buf)
    }

    fn write_at(&mut self, at: usize, bytes: &[u8]) -> io::Result<()> {
        self.traced.trace.note_write(at, bytes);
        self.traced.file.write_at(at, bytes)
    }

    fn set_len(&mut self, len: usize) -> io::Result<()> {
        self.traced.trace.note_resize(len);
        self.traced.file.set_len(len)
    }

    fn sync(&mut self) -> io::Result<()> {
        self.traced.trace.note_sync();
        self.traced.file.sync()
    }
}
