//! Moments, by which the broker counts time, up to a greatest one.

ghost use Rattle.std.specs.Prelude.{◌≡◌, ◌≤◌, max};
ghost use Rattle.std.specs.Option.{SomeIff};

use std::marker::Model;

/// A point in time: whole seconds since 1970-01-01T00:00:00Z, leap seconds not counted,
/// from 0 to 250,000,000,000 (in the year 9892).
#[derive(Clone, Copy, Debug, PartialEq, Eq, PartialOrd, Ord)]
pub struct Moment {
    seconds: u64,
}

impl Model for Moment {
    ghost use Rattle.std.specs.Prelude.{ℕ, ◌≤◌};
    ghost use Rattle.broker_types.specs.Moment.{greatest_moment};

    ghost Value = { ℕ };

    ghost view = { λ m. m.seconds };

    ghost invariant = { λ m. m.seconds ≤ greatest_moment };

    ghost inverse = { λ n. record { seconds = n } };
}

impl Moment {
    ghost use Rattle.broker_types.specs.Moment.{greatest_moment};

    /// The moment that many seconds after the beginning of 1970; none past the greatest moment.
    pub fn new(seconds: u64) -> Option<Moment>
        ensures { SomeIff result (seconds ≤ greatest_moment) seconds }
    {
        if seconds <= 250_000_000_000 {
            Some(Moment { seconds })
        } else {
            None
        }
    }

    /// The later of two moments.
    pub fn later(self, other: Moment) -> Moment
        ensures value { result ≡ max self other }
        ensures within { result ≤ greatest_moment }
    {
        Moment {
            seconds: self.seconds.max(other.seconds),
        }
    }

    /// Seconds since the beginning of 1970.
    pub fn seconds(self) -> u64
        ensures value { result ≡ self }
        ensures within { result ≤ greatest_moment }
    {
        self.seconds
    }
}
