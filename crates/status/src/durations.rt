//! How long requests took.

ghost use Rattle.std.specs.Prelude.{◌≡◌, ◌<◌, ◌≤◌};
ghost use Rattle.status.specs.Counts.{no_durations, observed, place_of, plus, up_to};

use std::marker::Model;

/// The bounds, in microseconds.
const BOUNDS: [u64; 14] = [
    500, 1_000, 2_500, 5_000, 10_000, 25_000, 50_000, 100_000, 250_000, 500_000, 1_000_000,
    2_500_000, 5_000_000, 10_000_000,
];

/// How many took at most so long and longer than the bound before, for each bound and beyond the last; and how long all
/// took, in microseconds.
#[derive(Drop)]
pub(crate) struct Durations {
    counts: [u64; 15],
    micros: u64,
}

impl Model for Durations {
    ghost use Rattle.status.specs.Counts.{DurationCounts};

    ghost Value = { DurationCounts };

    ghost view = { λ d. record { counts = d.counts; micros = d.micros } };
}

impl Durations {
    /// None was counted.
    pub(crate) fn new() -> Durations
        ensures { result ≡ no_durations }
    {
        Durations {
            counts: [0; 15],
            micros: 0,
        }
    }

    /// One more, which took so many microseconds.
    pub(crate) fn observe(&mut self, micros: u64)
        ensures { self.new ≡ observed micros self.old }
    {
        let place = place_of(micros);
        self.counts[place] = plus(self.counts[place], 1);
        self.micros = plus(self.micros, micros);
    }

    /// How many there are up to the bound with this number, counted from 1.
    pub(crate) fn up_to(&self, bound: usize) -> u64
        requires { bound ≤ 15 }
        ensures { result ≡ up_to bound self.now }
    {
        let counts = &self.counts[..bound];
        let mut sum = 0u64;
        for count in counts {
            sum = plus(sum, *count);
        }
        sum
    }

    /// How long all took, in microseconds.
    pub(crate) fn micros(&self) -> u64
        ensures { result ≡ self.now.micros }
    {
        self.micros
    }
}

/// Where it is counted what took so many microseconds: behind all bounds that it exceeds.
fn place_of(micros: u64) -> usize
    ensures place { result ≡ place_of micros }
    ensures within { result < 15 }
{
    BOUNDS.iter().filter(|bound| **bound < micros).count()
}

/// The sum; a counter that cannot hold it stays as it is.
pub(crate) fn plus(counter: u64, more: u64) -> u64
    ensures { result ≡ plus counter more }
{
    match counter.checked_add(more) {
        Some(sum) => sum,
        None => counter,
    }
}
