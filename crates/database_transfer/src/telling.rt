//! What is said while an export or an import takes long.

ghost use Rattle.std.specs.Prelude.{◌≡◌};

use endpoints::{Failed, Sink, Source};
use std::rt::HostRuntime;
use std::time::Instant;

/// So many seconds nothing is said.
const QUIET: u64 = 2;

/// How many bytes a megabyte has.
const MEGABYTE: u64 = 1_000_000;

/// Says on standard error how many bytes went through, every two seconds. Nobody has to read it.
#[derive(Drop)]
struct Progress<'r> {
    rt: &'r HostRuntime,
    /// What is done.
    doing: &'static str,
    /// When something was said last, or the work began; none if the clock cannot be read.
    last: Option<Instant>,
    bytes: u64,
}

impl<'r> Progress<'r> {
    fn new(rt: &'r HostRuntime, doing: &'static str) -> Progress<'r> {
        Progress {
            rt,
            doing,
            last: Instant::now(rt).ok(),
            bytes: 0,
        }
    }

    /// Counts bytes, and says how many there are, unless something was said in the last two seconds.
    fn count(&mut self, bytes: usize) {
        self.bytes = self.bytes.saturating_add(bytes as u64);
        if self.is_due() {
            self.last = Instant::now(self.rt).ok();
            let megabytes = self.bytes / MEGABYTE;
            let _ = eprintln!(self.rt; "{}: {megabytes} MB", self.doing);
        }
    }

    fn is_due(&self) -> bool {
        match self.last {
            Some(last) => last
                .elapsed(self.rt)
                .is_ok_and(|passed| passed.as_secs() >= QUIET),
            None => false,
        }
    }
}

/// A sink that says how many bytes were pushed.
#[derive(Drop)]
pub(crate) struct TellingSink<'r, W: Sink + Drop> {
    sink: W,
    progress: Progress<'r>,
}

impl<'r, W: Sink + Drop> TellingSink<'r, W> {
    /// Begins now.
    pub(crate) fn new(rt: &'r HostRuntime, sink: W) -> TellingSink<'r, W> {
        TellingSink {
            sink,
            progress: Progress::new(rt, "exporting"),
        }
    }
}

impl<'r, W: Sink + Drop> Sink for TellingSink<'r, W> {
    ghost use Rattle.database_transfer.specs.Telling.{sink_of};

    ghost written = { λ told. W.written (sink_of told) };

    ghost has_failed = { λ told. W.has_failed (sink_of told) };

    fn push(&mut self, bytes: &[u8]) -> Result<(), Failed> {
        self.progress.count(bytes.len());
        self.sink.push(bytes)
    }

    fn failed(&self) -> bool {
        self.sink.failed()
    }
}

/// A source that says how many bytes were pulled.
#[derive(Drop)]
pub(crate) struct TellingSource<'r, R: Source + Drop> {
    source: R,
    progress: Progress<'r>,
}

impl<'r, R: Source + Drop> TellingSource<'r, R> {
    /// Begins now.
    pub(crate) fn new(rt: &'r HostRuntime, source: R) -> TellingSource<'r, R> {
        TellingSource {
            source,
            progress: Progress::new(rt, "importing"),
        }
    }
}

impl<'r, R: Source + Drop> Source for TellingSource<'r, R> {
    ghost use Rattle.database_transfer.specs.Telling.{source_of};

    ghost left = { λ told. R.left (source_of told) };

    ghost pulls = { λ told. R.pulls (source_of told) };

    ghost has_failed = { λ told. R.has_failed (source_of told) };

    fn pull(&mut self, buffer: &mut [u8]) -> Result<usize, Failed> {
        let count = self.source.pull(buffer)?;
        self.progress.count(count);
        Ok(count)
    }

    fn failed(&self) -> bool {
        self.source.failed()
    }
}
