//! What is read of a server at the moment when it is asked, beside what it counts.

use broker_types::Moment;

/// What a server is doing.
#[derive(Clone, Copy, Debug, PartialEq, Eq)]
pub enum State {
    /// It opens its store, or waits for it.
    Opening,
    Serving,
    Stopping,
}

/// Where the rows of a server are.
#[derive(Clone, Copy, Debug, PartialEq, Eq)]
pub enum Storage {
    Memory,
    File,
}

/// How much was there at the start.
#[derive(Clone, Copy, Debug, PartialEq, Eq)]
pub struct AtStart {
    pub tokens: u64,
    pub secrets: u64,
    pub responses: u64,
}

/// How often something was done since the start, and how long it took in all, in microseconds.
#[derive(Clone, Copy, Debug, PartialEq, Eq)]
pub struct Timed {
    pub times: u64,
    pub micros: u64,
}

/// What is read at the moment of asking. What is not known is none.
#[derive(Clone, Copy, Debug, PartialEq, Eq)]
pub struct Figures<'a> {
    pub version: &'a str,
    /// When the server started.
    pub started: Moment,
    /// The moment of asking.
    pub now: Moment,
    pub state: State,
    pub storage: Storage,
    /// How many connections are open.
    pub connections: u64,
    /// How many may be open at once.
    pub at_once: u64,
    pub database_bytes: Option<u64>,
    /// Of the log of the database.
    pub log_bytes: Option<u64>,
    /// Commits of what was written, with the syncs of the disk in them.
    pub commits: Option<Timed>,
    /// By how many seconds the clock of the broker is ahead of the system's.
    pub clock_ahead: Option<u64>,
    pub at_start: Option<AtStart>,
    pub resident_bytes: Option<u64>,
    /// The number of the last fault.
    pub last_fault: Option<u8>,
}
