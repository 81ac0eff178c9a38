//! Readers and writers that do not wait: they tell that no byte or no room is there now.

ghost use Rattle.std.specs.Prelude.{◌≡◌, ◌||◌, ◌≤◌, ℕ, Bool, false, List, Option, length, IfOk, IfSome, MatchResult};
ghost use Rattle.std.specs.Prelude.{is_err};
ghost use Rattle.std.specs.Io.KnownBytes.{Keeps, WriteAppends};
ghost use Rattle.endpoints.specs.Now.{PullsNow};

use crate::Failed;
use std::io;
use std::io::{ErrorKind, Read, Write};

/// Where bytes are pulled from without waiting for them.
pub trait NowSource {
    /// The bytes that are left, if they are known.
    ghost left: { Self → Option (List ℕ) };

    /// Whether a pull failed.
    ghost has_failed: { Self → Bool };

    /// Puts the next bytes at the beginning of the buffer, and answers how many they are; `None` if no byte is there
    /// now. If the buffer has room, 0 says that the input has ended. It fails if no bytes can be read. What is left is
    /// then as before, if it is known, as it is where no byte is there now.
    fn pull_now(&mut self, buffer: &mut [u8]) -> Result<Option<usize>, Failed>
        ensures bound { IfOk result (λ pulled. IfSome pulled (λ count. count ≤ length buffer.new)) }
        ensures bytes { MatchResult result (λ pulled. PullsNow (left self.old) (left self.new) pulled buffer.new)
            (λ _. Keeps (left self.old) (left self.new)) }
        ensures failing { has_failed self.new ≡ (has_failed self.old || is_err result) };

    /// Whether a pull failed.
    fn failed(&self) -> bool
        ensures { result ≡ has_failed self.now };
}

/// Where bytes are pushed to without waiting for room.
pub trait NowSink {
    /// The bytes that were pushed, if they are known.
    ghost written: { Self → Option (List ℕ) };

    /// Whether a push failed.
    ghost has_failed: { Self → Bool };

    /// Adds the first of the bytes to what was pushed, and answers how many; 0 if there is no room now. After an `Err`
    /// none of them was.
    fn push_now(&mut self, bytes: &[u8]) -> Result<usize, Failed>
        ensures bound { IfOk result (λ count. count ≤ length bytes.now) }
        ensures bytes { WriteAppends (written self.old) (written self.new) result bytes.now }
        ensures failing { has_failed self.new ≡ (has_failed self.old || is_err result) };

    /// Whether a push failed.
    fn failed(&self) -> bool
        ensures { result ≡ has_failed self.now };
}

/// A reader as a source: no byte is there now if it answers `WouldBlock` or `Interrupted`.
#[derive(Drop)]
pub struct NowReading<R: Read> {
    reader: R,
    failed: bool,
    emptied: bool,
}

impl<R: Read> NowReading<R> {
    /// A source with what the reader has left. Nothing was pulled, and nothing has failed.
    pub fn new(reader: R) -> NowReading<R>
        ensures left { ⟦<NowReading<R> as NowSource>⟧.left result ≡ R.remaining reader }
        ensures failing { ⟦<NowReading<R> as NowSource>⟧.has_failed result ≡ false }
    {
        NowReading {
            reader,
            failed: false,
            emptied: false,
        }
    }

    /// Whether the last pull left no byte to be pulled now: the reader would have waited, or gave fewer bytes than the
    /// buffer had room for. A pull that was interrupted says nothing of it.
    pub fn is_emptied(&self) -> bool {
        self.emptied
    }
}

impl<R: Read> NowSource for NowReading<R> {
    ghost use Rattle.endpoints.specs.NowReading.{reader_of, read_failed};

    ghost left = { λ source. R.remaining (reader_of source) };

    ghost has_failed = { read_failed };

    fn pull_now(&mut self, buffer: &mut [u8]) -> Result<Option<usize>, Failed> {
        match self.reader.read(buffer) {
            Ok(count) => {
                self.emptied = count < buffer.len();
                Ok(Some(count))
            }
            Err(error) if is_later(&error) => {
                self.emptied = would_wait(&error);
                Ok(None)
            }
            Err(_) => {
                self.failed = true;
                Err(Failed)
            }
        }
    }

    fn failed(&self) -> bool {
        self.failed
    }
}

/// A writer as a sink: there is no room now if it answers `WouldBlock` or `Interrupted`.
#[derive(Drop)]
pub struct NowWriting<W: Write> {
    writer: W,
    failed: bool,
    full: bool,
}

impl<W: Write> NowWriting<W> {
    /// A sink that adds to what the writer has. Nothing has failed.
    pub fn new(writer: W) -> NowWriting<W>
        ensures written { ⟦<NowWriting<W> as NowSink>⟧.written result ≡ W.contents writer }
        ensures failing { ⟦<NowWriting<W> as NowSink>⟧.has_failed result ≡ false }
    {
        NowWriting {
            writer,
            failed: false,
            full: false,
        }
    }

    /// Whether the writer would have waited at the last push. A push that was interrupted, or that took a part of the
    /// bytes, says nothing of it.
    pub fn is_full(&self) -> bool {
        self.full
    }
}

impl<W: Write> NowSink for NowWriting<W> {
    ghost use Rattle.endpoints.specs.NowWriting.{writer_of, write_failed};

    ghost written = { λ sink. W.contents (writer_of sink) };

    ghost has_failed = { write_failed };

    fn push_now(&mut self, bytes: &[u8]) -> Result<usize, Failed> {
        match self.writer.write(bytes) {
            Ok(count) => {
                self.full = false;
                Ok(count)
            }
            Err(error) if is_later(&error) => {
                self.full = would_wait(&error);
                Ok(0)
            }
            Err(_) => {
                self.failed = true;
                Err(Failed)
            }
        }
    }

    fn failed(&self) -> bool {
        self.failed
    }
}

/// Whether the call may succeed later.
fn is_later(error: &io::Error) -> bool {
    would_wait(error) || error.kind() == ErrorKind::Interrupted
}

/// Whether the call would have waited.
fn would_wait(error: &io::Error) -> bool {
    error.kind() == ErrorKind::WouldBlock
}
