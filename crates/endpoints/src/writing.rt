//! Writers that remember whether a push failed.

ghost use Rattle.std.specs.Prelude.{◌≡◌, ◌||◌, Bool, ℕ, List, Option, OnOk, is_err, false};
ghost use Rattle.std.specs.Io.KnownBytes.{Appends};

use crate::Failed;
use std::io::Write;

/// Where bytes are pushed to.
pub trait Sink {
    /// The bytes that were pushed, if they are known.
    ghost written: { Self → Option (List ℕ) };

    /// Whether a push failed.
    ghost has_failed: { Self → Bool };

    /// Adds the bytes to what was pushed. After an `Err` some of them may have been.
    fn push(&mut self, bytes: &[u8]) -> Result<(), Failed>
        ensures ok { OnOk result (Appends (written self.old) (written self.new) bytes.now) }
        ensures failing { has_failed self.new ≡ (has_failed self.old || is_err result) };

    /// Whether a push failed.
    fn failed(&self) -> bool
        ensures { result ≡ has_failed self.now };
}

/// A writer as a sink.
#[derive(Drop)]
pub struct Writing<W: Write> {
    writer: W,
    failed: bool,
}

impl<W: Write> Writing<W> {
    /// A sink that adds to what the writer has. Nothing has failed.
    pub fn new(writer: W) -> Writing<W>
        ensures written { ⟦<Writing<W> as Sink>⟧.written result ≡ W.contents writer }
        ensures failing { ⟦<Writing<W> as Sink>⟧.has_failed result ≡ false }
    {
        Writing {
            writer,
            failed: false,
        }
    }
}

impl<W: Write> Sink for Writing<W> {
    ghost use Rattle.endpoints.specs.Writing.{writer_of, write_failed};

    ghost written = { λ sink. W.contents (writer_of sink) };

    ghost has_failed = { write_failed };

    fn push(&mut self, bytes: &[u8]) -> Result<(), Failed> {
        match self.writer.write_all(bytes) {
            Ok(()) => Ok(()),
            Err(_) => {
                self.failed = true;
                Err(Failed)
            }
        }
    }

    fn failed(&self) -> bool {
        self.failed
    }
}
