//! Readers that count their pulls, and remember whether one failed.

ghost use Rattle.std.specs.Prelude.{◌≡◌, ◌+◌, ◌≤◌, ◌||◌, ℕ, Bool, List, Option, length, IfOk, OnOk, OnErr};
ghost use Rattle.std.specs.Prelude.{is_err, false};
ghost use Rattle.std.specs.Io.KnownBytes.{ReadConsumes};

use crate::Failed;
use std::io::Read;

/// Where bytes are pulled from.
pub trait Source {
    /// The bytes that are left, if they are known.
    ghost left: { Self → Option (List ℕ) };

    /// How many pulls did not fail.
    ghost pulls: { Self → ℕ };

    /// Whether a pull failed.
    ghost has_failed: { Self → Bool };

    /// Puts the next bytes at the beginning of the buffer, and answers how many they are. If the buffer
    /// has room, 0 says that the input has ended. It fails if no bytes can be read. What is left is then
    /// as before, if it is known.
    fn pull(&mut self, buffer: &mut [u8]) -> Result<usize, Failed>
        ensures bound { IfOk result (λ count. count ≤ length buffer.new) }
        ensures bytes { ReadConsumes (left self.old) (left self.new) result buffer.new }
        ensures counted { OnOk result (pulls self.new ≡ pulls self.old + 1) }
        ensures uncounted { OnErr result (pulls self.new ≡ pulls self.old) }
        ensures failing { has_failed self.new ≡ (has_failed self.old || is_err result) };

    /// Whether a pull failed.
    fn failed(&self) -> bool
        ensures { result ≡ has_failed self.now };
}

/// A reader as a source.
#[derive(Drop)]
pub struct Reading<R: Read> {
    reader: R,
    pulls: u64,
    failed: bool,
}

impl<R: Read> Reading<R> {
    /// A source with what the reader has left. Nothing was pulled, and nothing has failed.
    pub fn new(reader: R) -> Reading<R>
        ensures left { ⟦<Reading<R> as Source>⟧.left result ≡ R.remaining reader }
        ensures pulls { ⟦<Reading<R> as Source>⟧.pulls result ≡ 0 }
        ensures failing { ⟦<Reading<R> as Source>⟧.has_failed result ≡ false }
    {
        Reading {
            reader,
            pulls: 0,
            failed: false,
        }
    }
}

impl<R: Read> Source for Reading<R> {
    ghost use Rattle.endpoints.specs.Reading.{reader_of, pulls_of, read_failed};

    ghost left = { λ source. R.remaining (reader_of source) };

    ghost pulls = { pulls_of };

    ghost has_failed = { read_failed };

    /// It fails if the reader does, and after 18,446,744,073,709,551,615 pulls.
    fn pull(&mut self, buffer: &mut [u8]) -> Result<usize, Failed> {
        if self.pulls == u64::MAX {
            self.failed = true;
            return Err(Failed);
        }
        match self.reader.read(buffer) {
            Ok(count) => {
                self.pulls += 1;
                Ok(count)
            }
            Err(_) => {
                self.failed = true;
                Err(Failed)
            }
        }
    }

    fn failed(&self) -> bool {
        self.failed
    }
}
