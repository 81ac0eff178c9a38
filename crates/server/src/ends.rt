//! What a server accepts: connections, each with two ends that do not wait.

ghost use Rattle.std.specs.Prelude.{◌≡◌, ⊤};
ghost use Rattle.server.specs.Arriving.{Accepts};

use endpoints::{Failed, NowSink, NowSource};
use mio::Registry;
use std::net::SocketAddr;

/// The end of a connection that is read.
pub trait Reader: NowSource + Drop {
    /// Whether the last pull left no byte to be pulled now, as far as that is known.
    fn is_emptied(&self) -> bool;
}

/// The end of a connection that is written.
pub trait Writer: NowSink + Drop {
    /// Whether the last push found no room, as far as that is known.
    fn is_full(&self) -> bool;

    /// Tells the peer that no more comes. It fails if the peer cannot be told.
    fn end(&self) -> Result<(), Failed>;
}

/// What came of accepting a connection.
pub enum Arrival<R, W> {
    /// One came, with these ends, from this address.
    Came(R, W, SocketAddr),
    /// One came, and was closed at once.
    Lost,
    /// None waits.
    NoneWaits,
    /// The call was interrupted.
    Interrupted,
    /// The system lacks descriptors or memory: the one that waits still does.
    Scarce,
    /// It failed for another cause.
    Failed,
}

/// Where connections come from.
pub trait Listener<R, W>: Drop {
    /// Holds of the listener before it handed out these two ends, and after it; by default of all.
    ghost may_accept: { Self → (R × W) → Self → Type 0 } = { λ _ _ _. ⊤ };

    /// Accepts a connection that waits, if one does. What is reported of it comes under the number.
    fn accept(&mut self, registry: &Registry, number: u64) -> Arrival<R, W>
        ensures { Accepts may_accept self.old result self.new };

    /// Asks the system anew whether somebody waits: it reports the listener then. It fails if that cannot be asked.
    fn ask_again(&mut self, registry: &Registry) -> Result<(), Failed>
        ensures { self.new ≡ self.old };
}
