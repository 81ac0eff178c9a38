//! A file in the memory of the program.

ghost use Rattle.std.specs.Prelude.{◌≡◌, [], length, true, false, refl, is_ok, OnOk, OnErr};
ghost use Rattle.sqlite_disk.specs.Disk.{Holds, Torn, Cut, CountsFault, Mixed};
ghost use Rattle.sqlite_disk.specs.Refusal.{finds_no_room};
ghost use Rattle.ram_disk.specs.RamFile.{bytes_of, AreZero};

use sqlite_disk::{Disk, Tally};
use std::alloc::{AllocError, Global};
use std::io;

/// A file in the memory of the program. It is lost when the program ends, so a sync has nothing to do. Nothing but the
/// calls of `Disk` changes it, so what is read is what was written.
#[derive(Drop)]
pub struct RamFile {
    bytes: Vec<u8>,
    faults: u64,
    /// Whether it says that a crash leaves each byte old or new. A log that hears so writes a frame more at each
    /// commit, and zeros ahead, to spare a sync.
    is_mixing: bool,
}

impl RamFile {
    /// A file without a byte. A sync costs nothing here, so it does not say that it mixes.
    pub fn new(alloc: Global) -> RamFile
        ensures empty { bytes_of result ≡ [] }
        ensures mixing { result.is_mixing ≡ false }
    {
        RamFile {
            bytes: Vec::new(alloc),
            faults: 0,
            is_mixing: false,
        }
    }

    /// One that says that it mixes, for trials of what a log does on such a disk.
    pub fn mixing(alloc: Global) -> RamFile
        ensures empty { bytes_of result ≡ [] }
        ensures mixing { result.is_mixing ≡ true }
    {
        RamFile {
            is_mixing: true,
            ..RamFile::new(alloc)
        }
    }
}

impl Disk for RamFile {
    ghost seen = { λ f. f.bytes.items };

    ghost may_leave = { λ f left. left ≡ f.bytes.items };

    ghost is_usable = { λ _. true };

    ghost faults = { λ f. f.faults };

    ghost tally_of = { λ _. record { caught = 0; refused = 0 } };

    ghost is_clean = { λ _. true };

    ghost key_of = { λ _. 0 };

    ghost is_fair = { λ _ _. true };

    ghost is_mixing = { λ f. f.is_mixing };

    ghost fair_if_clean = { λ _ _ _. refl };

    ghost seen_may_stay = { λ _. refl };

    fn mixes(&self) -> bool {
        self.is_mixing
    }

    fn key(&self) -> u64 {
        0
    }

    fn tally(&self) -> Tally {
        Tally {
            caught: 0,
            refused: 0,
        }
    }

    fn may_be_used(&self) -> bool {
        true
    }

    fn len(&mut self) -> io::Result<usize> {
        Ok(self.bytes.len())
    }

    fn read_at(&mut self, at: usize, buf: &mut [u8]) -> io::Result<()> {
        if at > self.bytes.len() || buf.len() > self.bytes.len() - at {
            return Err(io::ErrorKind::UnexpectedEof.into());
        }
        buf.copy_from_slice(&self.bytes[at..at + buf.len()]);
        Ok(())
    }

    // The bytes have the digest that the caller kept, since they are those that were written: it is not computed again.
    fn read_checked(&mut self, _: u64, _: u64, at: usize, buf: &mut [u8]) -> io::Result<()> {
        self.read_at(at, buf)
    }

    fn write_at(&mut self, at: usize, bytes: &[u8]) -> io::Result<()> {
        count(overwrite(&mut self.bytes, at, bytes), &mut self.faults)
    }

    fn set_len(&mut self, len: usize) -> io::Result<()> {
        count(resize(&mut self.bytes, len), &mut self.faults)
    }

    fn sync(&mut self) -> io::Result<()> {
        Ok(())
    }
}

/// Counts a failure: memory ran out.
fn count(outcome: Result<(), AllocError>, faults: &mut u64) -> io::Result<()>
    ensures variant { is_ok result ≡ is_ok outcome }
    ensures kind { finds_no_room result ≡ false }
    ensures faults { CountsFault result faults.old faults.new }
{
    if outcome.is_err() {
        *faults = faults.saturating_add(1);
        return Err(io::Error::from(io::ErrorKind::OutOfMemory));
    }
    Ok(())
}

/// Cuts the bytes off at a length, or fills them up with zeros. They stay as they are if memory runs out.
fn resize(bytes: &mut Vec<u8>, len: usize) -> Result<(), AllocError>
    ensures len { OnOk result (length bytes.new.items ≡ len) }
    ensures others { Cut len bytes.old.items bytes.new.items }
    ensures filled { OnOk result (AreZero (length bytes.old.items) len bytes.new.items) }
    ensures kept { OnErr result (bytes.new.items ≡ bytes.old.items) }
{
    bytes.resize(len, 0)
}

/// Writes a part over the bytes from a place on, which grow where need be; a gap before it is filled with zeros. The
/// bytes stay as they are if memory runs out.
fn overwrite(bytes: &mut Vec<u8>, at: usize, part: &[u8]) -> Result<(), AllocError>
    ensures written { OnOk result (Holds bytes.new.items at part.now) }
    ensures others { Torn at (length part.now) bytes.old.items bytes.new.items }
    ensures mixed { Mixed at part.now bytes.old.items bytes.new.items }
    ensures gap { OnOk result (AreZero (length bytes.old.items) at bytes.new.items) }
    ensures kept { OnErr result (bytes.new.items ≡ bytes.old.items) }
{
    let end = at.checked_add(part.len()).ok_or(AllocError)?;
    if end > bytes.len() {
        resize(bytes, end)?;
    }
    bytes[at..end].copy_from_slice(part);
    Ok(())
}
