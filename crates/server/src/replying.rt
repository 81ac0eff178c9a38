//! A sink that knows the status and the length of the reply that it is given.

use endpoints::{Failed, NowSink};

/// A sink over another one, which remembers the status line that the last bytes began with.
#[derive(Drop)]
pub(crate) struct Replying<W> {
    sink: W,
    status: Option<u16>,
    len: usize,
}

impl<W: NowSink> Replying<W> {
    ghost use Rattle.std.specs.Prelude.{◌≡◌};

    /// The sink, with what was pushed to it.
    pub(crate) fn new(sink: W) -> Replying<W>
        ensures { result.sink ≡ sink }
    {
        Replying {
            sink,
            status: None,
            len: 0,
        }
    }

    /// Forgets what was pushed.
    pub(crate) fn begin(&mut self)
        ensures { self.new.sink ≡ self.old.sink }
    {
        self.status = None;
        self.len = 0;
    }

    /// The sink below.
    pub(crate) fn sink(&self) -> &W {
        &self.sink
    }

    /// The status of the reply that the last push began, if that was a reply.
    pub(crate) fn status(&self) -> Option<u16> {
        self.status
    }

    /// How many bytes the last push was given.
    pub(crate) fn len(&self) -> usize {
        self.len
    }
}

impl<W: NowSink> NowSink for Replying<W> {
    ghost use Rattle.server.specs.Replying.{sink_of};

    ghost written = { λ replying. W.written (sink_of replying) };

    ghost has_failed = { λ replying. W.has_failed (sink_of replying) };

    fn push_now(&mut self, bytes: &[u8]) -> Result<usize, Failed> {
        self.status = status_of(bytes);
        self.len = bytes.len();
        self.sink.push_now(bytes)
    }

    fn failed(&self) -> bool {
        self.sink.failed()
    }
}

/// The status of a reply that begins with `HTTP/1.1 ` and three digits (RFC 9112, section 4).
fn status_of(reply: &[u8]) -> Option<u16> {
    let rest = reply.strip_prefix(b"HTTP/1.1 ")?;
    let digits = str::from_utf8(rest.get(..3)?).ok()?;
    digits.parse().ok()
}
