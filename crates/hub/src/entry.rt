//! Entries of the table of connections: one that may be open, or closed ones that follow one another.

ghost use Rattle.std.specs.Prelude.{◌≡◌, ◌≤◌, Some, IfSome, ℕ};
ghost use Rattle.hub.specs.Entries.{connection_in, IsClosedRun, IsNextIn};
ghost use Rattle.hub.specs.Feeding.{Feeds};
ghost use Rattle.hub.specs.Pending.{closed_at};
ghost use Rattle.hub.specs.declared.connection.Connection.{Connection as Seen};
ghost use Rattle.hub.specs.declared.entry.Entry.TheVariants.{One};

use crate::connection::Connection;
use broker::Store;
use broker_types::{Fault, Moment, Words};
use std::alloc::Global;

/// What the table keeps under a number.
#[derive(Drop)]
pub(crate) enum Entry {
    /// The connection of this number.
    One(Connection),
    /// The connection of this number, and so many after it, are closed.
    ClosedRun(u64),
}

impl Entry {
    /// Whether the entry that is kept under `first` has a closed connection under this number.
    pub(crate) fn is_closed_at(&self, first: u64, conn: u64) -> bool
        requires { first ≤ conn }
        ensures { result ≡ closed_at (connection_in first self.now conn) }
    {
        match self {
            Entry::One(connection) => conn == first && connection.is_closed(),
            Entry::ClosedRun(more) => conn - first <= *more,
        }
    }

    /// The last number of the entry that is kept under `first`, if it has closed connections alone.
    pub(crate) fn last_closed(&self, first: u64) -> Option<u64>
        ensures { IfSome result (λ n. IsClosedRun first self.now n) }
    {
        match self {
            Entry::One(Connection::Open(_)) => None,
            Entry::One(Connection::Closed) => Some(first),
            Entry::ClosedRun(more) => first.checked_add(*more),
        }
    }

    /// The number after the last one of the entry that is kept under `first`.
    pub(crate) fn next(&self, first: u64) -> Option<u64>
        ensures { IsNextIn first self.now result }
    {
        match self {
            Entry::One(_) => first.checked_add(1),
            Entry::ClosedRun(more) => first.checked_add(*more)?.checked_add(1),
        }
    }

    /// One event on an open connection.
    pub(crate) fn feed<S: Store>(
        &mut self,
        alloc: Global,
        store: &mut S,
        piece: &[u8],
        moment: Moment,
        words: &Words,
    ) -> Result<Vec<u8>, Fault>
        ensures { (c : Seen) → self.old ≡ One c → (d : Seen) × (self.new ≡ One d)
            × Feeds (S.seen store.old) (S.seen store.new) c d piece.now moment words.now result }
    {
        match self {
            Entry::One(connection) => connection.feed(alloc, store, piece, moment, words),
            Entry::ClosedRun(_) => Ok(Vec::new(alloc)),
        }
    }
}
