//! What a server counts from its start on.

ghost use Rattle.std.specs.Prelude.{◌≡◌, ◌<◌, ◌==◌, position, IfSome};
ghost use Rattle.status.specs.Counts.{closing_place, counted, fault_place, no_counts, observed_as, status_place};
ghost use Rattle.status.specs.Counts.{statuses};
ghost use Rattle.status.specs.Counts.{accepted, answered, closed, dropped, faulted};

use crate::durations::{Durations, plus};
use std::marker::Model;

/// Why a connection was closed.
#[derive(Clone, Copy, Debug, PartialEq, Eq)]
pub enum Closing {
    /// By its peer, or after a reply that closes it.
    Ended,
    /// Nothing came on it for too long.
    Idle,
    /// Its place was wanted.
    Room,
    /// No request came on it at all.
    Silent,
    /// Its request came too slowly, or its reply was taken too slowly.
    Slow,
    /// A fault.
    Fault,
    /// The server stopped.
    Stopped,
}

/// What a request was.
#[derive(Clone, Copy, Debug, PartialEq, Eq)]
pub enum Kind {
    Read,
    List,
    Write,
    Delete,
    /// It was refused before it was known what it asks.
    Refused,
}

/// The statuses that are counted apart.
const STATUSES: [u16; 10] = [200, 204, 400, 403, 404, 405, 413, 431, 500, 501];

/// The numbers that a server counts. One that would pass 2^64 - 1 stays as it is.
#[derive(Drop)]
pub struct Counters {
    pub(crate) accepted: u64,
    pub(crate) closed: [u64; 7],
    pub(crate) requests: [u64; 12],
    pub(crate) reads: Durations,
    pub(crate) lists: Durations,
    pub(crate) writes: Durations,
    pub(crate) deletes: Durations,
    pub(crate) refused: Durations,
    pub(crate) faults: [u64; 7],
    pub(crate) dropped: u64,
}

impl Model for Counters {
    ghost use Rattle.status.specs.Counts.{Counts};

    ghost Value = { Counts };

    ghost view = { λ c. record {
      accepted = c.accepted;
      closed = c.closed;
      requests = c.requests;
      reads = c.reads;
      lists = c.lists;
      writes = c.writes;
      deletes = c.deletes;
      refused = c.refused;
      faults = c.faults;
      dropped = c.dropped;
    } };
}

impl Counters {
    /// Nothing was counted.
    pub fn new() -> Counters
        ensures { result ≡ no_counts }
    {
        Counters {
            accepted: 0,
            closed: [0; 7],
            requests: [0; 12],
            reads: Durations::new(),
            lists: Durations::new(),
            writes: Durations::new(),
            deletes: Durations::new(),
            refused: Durations::new(),
            faults: [0; 7],
            dropped: 0,
        }
    }

    /// A connection was accepted.
    pub fn accepted(&mut self)
        ensures { self.new ≡ counted self.old accepted }
    {
        self.accepted = plus(self.accepted, 1);
    }

    /// A connection was closed.
    pub fn closed(&mut self, closing: Closing)
        ensures { self.new ≡ counted self.old (closed closing) }
    {
        let place = closing_place(closing);
        self.closed[place] = plus(self.closed[place], 1);
    }

    /// A request was answered with this status, or has none after a fault, and took so many microseconds.
    pub fn answered(&mut self, status: Option<u16>, kind: Kind, micros: u64)
        ensures { self.new ≡ counted self.old (answered status kind micros) }
    {
        let place = status_place(status);
        self.requests[place] = plus(self.requests[place], 1);
        self.observe(kind, micros);
    }

    /// A request of this kind took so many microseconds.
    fn observe(&mut self, kind: Kind, micros: u64)
        ensures { self.new ≡ observed_as kind micros self.old }
    {
        match kind {
            Kind::Read => self.reads.observe(micros),
            Kind::List => self.lists.observe(micros),
            Kind::Write => self.writes.observe(micros),
            Kind::Delete => self.deletes.observe(micros),
            Kind::Refused => self.refused.observe(micros),
        }
    }

    /// A fault with this number happened.
    pub fn faulted(&mut self, number: u8)
        ensures { self.new ≡ counted self.old (faulted number) }
    {
        let place = fault_place(number);
        self.faults[place] = plus(self.faults[place], 1);
    }

    /// So many lines of the log were dropped.
    pub fn dropped(&mut self, lines: u64)
        ensures { self.new ≡ counted self.old (dropped lines) }
    {
        self.dropped = plus(self.dropped, lines);
    }
}

/// Where a reason is counted.
fn closing_place(closing: Closing) -> usize
    ensures place { result ≡ closing_place closing }
    ensures within { result < 7 }
{
    match closing {
        Closing::Ended => 0,
        Closing::Idle => 1,
        Closing::Room => 2,
        Closing::Silent => 3,
        Closing::Slow => 4,
        Closing::Fault => 5,
        Closing::Stopped => 6,
    }
}

/// Where a status is counted, or that there is none.
fn status_place(status: Option<u16>) -> usize
    ensures place { result ≡ status_place status }
    ensures within { result < 12 }
{
    let Some(code) = status else {
        return 10;
    };
    match position_of(code) {
        Some(place) => place,
        None => 11,
    }
}

/// Where a status is in the list of those that are counted apart.
fn position_of(code: u16) -> Option<usize>
    ensures place { result ≡ position (λ listed. listed == code) statuses }
    ensures within { IfSome result (λ place. place < 10) }
{
    STATUSES.iter().position(|listed| *listed == code)
}

/// Where a fault is counted.
fn fault_place(number: u8) -> usize
    ensures place { result ≡ fault_place number }
    ensures within { result < 7 }
{
    if number >= 1 && number <= 6 {
        number as usize - 1
    } else {
        6
    }
}
