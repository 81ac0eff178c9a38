//! Lengths of time, by a type that bounds them.

ghost use Rattle.std.specs.Prelude.{◌≡◌, ◌<◌, ◌^◌};

use std::marker::Model;

/// A length of time in whole seconds, at most 4,294,967,295.
#[derive(Clone, Copy, Debug, PartialEq, Eq, PartialOrd, Ord)]
pub struct Seconds {
    count: u32,
}

impl Model for Seconds {
    ghost use Rattle.std.specs.Prelude.{ℕ};

    ghost Value = { ℕ };

    ghost view = { λ s. s.count };

    ghost inverse = { λ n. record { count = n } };
}

impl Seconds {
    /// That many seconds.
    pub fn new(count: u32) -> Seconds
        ensures { result ≡ count }
    {
        Seconds { count }
    }

    /// How many seconds they are.
    pub fn count(self) -> u32
        ensures { result ≡ self }
    {
        self.count
    }
}
