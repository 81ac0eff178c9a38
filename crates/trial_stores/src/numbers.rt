//! Random numbers, by which tests draw requests.

use endpoints::{Failed, Sink};
use rand_chacha::ChaCha20Rng;
use rand_core::{Rng, SeedableRng};
use replay::Exit;
use std::alloc::{AllocError, Global};

/// How many numbers are written.
const NUMBERS: u64 = 100_000;

/// Writes random numbers below 2^64 from a fixed seed: the same numbers each time.
pub(crate) fn write_numbers<W: Sink>(alloc: Global, writer: &mut W) -> Exit {
    let mut generator = ChaCha20Rng::from_seed([0; 32]);
    for _ in 0..NUMBERS {
        let Ok(line) = line_of(alloc, generator.next_u64()) else {
            return Exit::Faulted(1);
        };
        if let Err(Failed) = writer.push(line.as_bytes()) {
            return Exit::Faulted(6);
        }
    }
    Exit::Done
}

/// The line that a number is: sixteen hexadecimal digits, and LF.
fn line_of(alloc: Global, number: u64) -> Result<String, AllocError> {
    format!(in alloc; "{number:016x}\n")
}
