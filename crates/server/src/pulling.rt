//! A source that counts what is pulled from it.

use endpoints::{Failed, NowSource};

/// A source over another one, which counts the bytes.
#[derive(Drop)]
pub(crate) struct Pulling<R> {
    source: R,
    count: u64,
    has_pulled: bool,
}

impl<R: NowSource> Pulling<R> {
    ghost use Rattle.std.specs.Prelude.{◌≡◌};

    /// The source, with what it has left.
    pub(crate) fn new(source: R) -> Pulling<R>
        ensures { result.source ≡ source }
    {
        Pulling {
            source,
            count: 0,
            has_pulled: false,
        }
    }

    /// Counts anew.
    pub(crate) fn begin(&mut self)
        ensures { self.new.source ≡ self.old.source }
    {
        self.count = 0;
        self.has_pulled = false;
    }

    /// The source below.
    pub(crate) fn source(&self) -> &R {
        &self.source
    }

    /// Whether the source was asked for bytes.
    pub(crate) fn has_pulled(&self) -> bool {
        self.has_pulled
    }

    /// How many bytes were pulled.
    pub(crate) fn count(&self) -> u64 {
        self.count
    }
}

impl<R: NowSource> NowSource for Pulling<R> {
    ghost use Rattle.server.specs.Pulling.{source_of};

    ghost left = { λ pulling. R.left (source_of pulling) };

    ghost has_failed = { λ pulling. R.has_failed (source_of pulling) };

    fn pull_now(&mut self, buffer: &mut [u8]) -> Result<Option<usize>, Failed> {
        self.has_pulled = true;
        let pulled = self.source.pull_now(buffer);
        if let Ok(Some(count)) = pulled {
            self.count = self.count.saturating_add(count as u64);
        }
        pulled
    }

    fn failed(&self) -> bool {
        self.source.failed()
    }
}
