//! A sink that sums what is pushed.

ghost use Rattle.std.specs.Prelude.{◌≡◌, ℕ, List, IfOk, OnOk, true};
ghost use Rattle.std.specs.Io.KnownBytes.{Appends};
ghost use Rattle.sha2.specs.Hashers.{Holds256};
ghost use Rattle.transfer.specs.Files.{fed, tail};
ghost use Rattle.transfer.specs.Writing.{IsBegun, IsMore, Writes};

use crate::text;
use crate::walk::Visit;
use endpoints::{Failed, Sink, VERSION};
use records::Entry;
use row_lines::line_of;
use sha2::{Digest, Sha256};
use std::alloc::{AllocError, Global};

/// A sink, and the SHA-256 of the bytes that were pushed to it.
#[derive(Drop)]
pub struct Summed<W: Sink + Drop> {
    sink: W,
    hasher: Sha256,
}

impl<W: Sink + Drop> Summed<W> {
    /// Nothing was pushed yet.
    pub fn new(sink: W) -> Summed<W> {
        Summed {
            sink,
            hasher: Sha256::new(),
        }
    }

    /// Whether a push failed.
    pub fn failed(&self) -> bool {
        self.sink.failed()
    }

    /// Pushes the first line of a file of so many rows, by this version of the program.
    pub(crate) fn begin(
        &mut self,
        alloc: Global,
        count: u64,
    ) -> Result<Result<(), Failed>, AllocError>
        ensures { IfOk result (λ pushed. OnOk pushed (IsBegun W.written self.old self.new count)) }
    {
        self.hasher = Sha256::new();
        let line = text::first_line(alloc, VERSION, count)?;
        Ok(self.push_line(line.as_str()))
    }

    /// Pushes the last line of a file.
    pub(crate) fn end(&mut self, alloc: Global) -> Result<Result<(), Failed>, AllocError>
        ensures { IfOk result (λ pushed. OnOk pushed ((before : List ℕ) → Holds256 self.old.hasher before
            → Appends (W.written self.old.sink) (W.written self.new.sink) (fed (tail before)))) }
    {
        let line = text::tail(alloc, &self.hasher)?;
        Ok(self.push_line(line.as_str()))
    }

    /// Pushes a line with its line feed.
    pub(crate) fn push_line(&mut self, line: &str) -> Result<(), Failed>
        ensures { OnOk result (IsMore W.written self.old self.new (fed line.now)) }
    {
        self.push(line.as_bytes())?;
        self.push(b"\n")
    }

    /// Pushes bytes.
    fn push(&mut self, bytes: &[u8]) -> Result<(), Failed>
        ensures { OnOk result (IsMore W.written self.old self.new bytes.now) }
    {
        self.sink.push(bytes)?;
        self.hasher.update(bytes);
        Ok(())
    }
}

impl<W: Sink + Drop> Visit for Summed<W> {
    ghost use Rattle.transfer.specs.Writing.{Writes};

    ghost visited = { λ first now rows. Writes W.written first now rows };

    /// Pushes the lines of the rows; false if a push failed.
    fn visit(&mut self, alloc: Global, page: &[Entry]) -> Result<bool, AllocError> {
        self.push_rows(alloc, page)
    }
}

impl<W: Sink + Drop> Summed<W> {
    /// Pushes the lines of rows; false if a push failed.
    fn push_rows(&mut self, alloc: Global, page: &[Entry]) -> Result<bool, AllocError>
        ensures { IfOk result (λ whole. whole ≡ true → Writes W.written self.old self.new page.now) }
    {
        for entry in page {
            let line = line_of(alloc, entry)?;
            if self.push_line(line.as_str()).is_err() {
                return Ok(false);
            }
        }
        Ok(true)
    }
}
