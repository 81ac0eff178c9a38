//! Moments told by the system's clock, kept within what a moment can be.

ghost use Rattle.std.specs.Prelude.{◌≡◌, ◌/◌};
ghost use Rattle.std.specs.Time.{system_time_nanos};
ghost use Rattle.server.specs.Moments.{moment_of};

use broker_types::Moment;
use std::io;
use std::time::{Clock, SystemTime, UNIX_EPOCH};

/// The greatest moment, in seconds since the beginning of 1970.
const GREATEST: u64 = 250_000_000_000;

/// The system's clock, in whole seconds.
#[derive(Drop)]
pub struct SystemClock<'r, R: Clock> {
    rt: &'r R,
}

impl<'r, R: Clock> SystemClock<'r, R> {
    /// The clock of the runtime.
    pub fn new(rt: &'r R) -> SystemClock<'r, R> {
        SystemClock { rt }
    }
}

impl<'r, R: Clock> hub::Clock for SystemClock<'r, R> {
    fn now(&mut self) -> Moment {
        moment_now(self.rt)
    }
}

/// The moment that the system's clock tells now.
pub(crate) fn moment_now<R: Clock>(rt: &R) -> Moment {
    moment_of(&SystemTime::now(rt))
}

/// The moment of a time: one before 1970, or that cannot be read, counts as 0, and one past the greatest
/// moment as that.
fn moment_of(time: &io::Result<SystemTime>) -> Moment
    ensures { result ≡ moment_of time.now }
{
    let seconds = match time {
        Ok(time) => seconds_since_1970(*time),
        Err(_) => 0,
    };
    Moment::new(seconds.min(GREATEST)).unwrap()
}

fn seconds_since_1970(time: SystemTime) -> u64
    ensures { result ≡ system_time_nanos time / 1_000_000_000 }
{
    match time.duration_since(UNIX_EPOCH) {
        Ok(since) => since.as_secs(),
        Err(_) => 0,
    }
}
