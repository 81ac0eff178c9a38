//! What a server counts of its connections and requests.

use crate::notes::Noted;
use broker_types::Verb;
use status::{Closing, Counters, Kind};

/// What is counted, and what was last.
#[derive(Drop)]
pub(crate) struct Tally {
    counters: Counters,
    last_fault: Option<u8>,
    /// The time of the broker's clock at the last request, in seconds.
    clock: Option<u64>,
    /// How many lines of the log were dropped.
    dropped: u64,
}

impl Tally {
    /// Nothing was counted.
    pub(crate) fn new() -> Tally {
        Tally {
            counters: Counters::new(),
            last_fault: None,
            clock: None,
            dropped: 0,
        }
    }

    /// A connection was accepted.
    pub(crate) fn accepted(&mut self) {
        self.counters.accepted();
    }

    /// One was closed.
    pub(crate) fn closed(&mut self, why: Closing) {
        self.counters.closed(why);
    }

    /// A connection had this fault.
    pub(crate) fn faulted(&mut self, number: u8) {
        self.last_fault = Some(number);
        self.counters.faulted(number);
    }

    /// A request was answered, or failed.
    pub(crate) fn request(&mut self, noted: &Noted) {
        self.counters
            .answered(noted.status, kind_of(noted.verb), noted.micros);
        if noted.clock.is_some() {
            self.clock = noted.clock;
        }
    }

    /// So many lines of the log were dropped in all.
    pub(crate) fn dropped(&mut self, lines: u64) {
        self.counters.dropped(lines.saturating_sub(self.dropped));
        self.dropped = lines;
    }

    /// The numbers.
    pub(crate) fn counters(&self) -> &Counters {
        &self.counters
    }

    /// The number of the last fault.
    pub(crate) fn last_fault(&self) -> Option<u8> {
        self.last_fault
    }

    /// The time of the broker's clock at the last request, in seconds.
    pub(crate) fn clock(&self) -> Option<u64> {
        self.clock
    }
}

/// What a request was that asked so, or was refused before that.
fn kind_of(verb: Option<Verb>) -> Kind {
    match verb {
        Some(Verb::Get) => Kind::Read,
        Some(Verb::List) => Kind::List,
        Some(Verb::Write) => Kind::Write,
        Some(Verb::Delete) => Kind::Delete,
        None => Kind::Refused,
    }
}
