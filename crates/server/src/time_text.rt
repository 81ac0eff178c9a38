//! The time of a line of the log, as text.

ghost use Rattle.std.specs.Prelude.{◌≡◌, string_bytes};
ghost use Rattle.broker_types.specs.Time.{time_text};

use broker_types::{Moment, time_text};
use std::alloc::{AllocError, Global};

/// A moment and its text, which stays the same for all the lines of a second.
#[derive(Drop)]
pub(crate) struct TimeText {
    moment: Moment,
    text: String,
    ghost is: { string_bytes text ≡ time_text moment },
}

impl TimeText {
    ghost use Rattle.std.specs.Prelude.{◌≡◌, IfOk};
    ghost use Rattle.broker_types.specs.Time.{time_text};
    ghost use Rattle.server.specs.LogLine.{moment_of};

    /// The text of a moment (RFC 3339).
    pub(crate) fn new(alloc: Global, moment: Moment) -> Result<TimeText, AllocError>
        ensures { IfOk result (λ time. moment_of time ≡ moment) }
    {
        Ok(TimeText {
            moment,
            text: time_text(alloc, moment.seconds())?,
        })
    }

    /// The moment.
    pub(crate) fn moment(&self) -> Moment
        ensures { result ≡ moment_of self.now }
    {
        self.moment
    }

    /// The bytes of its text.
    pub(crate) fn as_bytes(&self) -> &[u8]
        ensures { result.now ≡ time_text (moment_of self.now) }
    {
        self.text.as_bytes()
    }
}
