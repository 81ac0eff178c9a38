//! What each operation is given beside a command and a caller: memory, the clock and words.

use broker_types::{Moment, Words};
use std::alloc::Global;
use std::marker::Model;

/// What an operation knows of its request beside what is asked and who asks, and from where it takes memory.
#[derive(Drop)]
pub struct Context<'r> {
    /// Where memory is from.
    pub alloc: Global,
    /// The broker's clock.
    pub clock: Moment,
    /// From which identifiers are made.
    pub words: &'r Words,
}

impl<'r> Model for Context<'r> {
    ghost use Rattle.broker_rows.specs.Context as spec;

    ghost Value = { spec.Context };

    ghost view = { λ c. record { clock = c.clock; words = c.words.now } };
}
