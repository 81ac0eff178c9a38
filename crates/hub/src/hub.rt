//! All connections together: where an event is fed, and at most one reply comes out.

use crate::entry::Entry;
use crate::table::{close, empty, has_request, has_rest, is_closed, next_number, open, settle};
use broker::Store;
use broker_types::{Fault, Moment, Words};
use std::alloc::Global;
use std::collections::BTreeMap;

/// The connections of a broker, over the store that keeps it.
#[derive(Drop)]
pub struct Hub<S: Store> {
    alloc: Global,
    store: S,
    connections: BTreeMap<u64, Entry>,
}

impl<S: Store> Hub<S> {
    ghost use Rattle.std.specs.Prelude.{◌≡◌, ◌≢◌, ℕ, List, [], Some, IsSome, IfOk, IfErr, IsOk, OnOk, true, false};
    ghost use Rattle.std.specs.Ordering.{nat_cmp};
    ghost use Rattle.std.specs.BTreeMap.{get};
    ghost use Rattle.broker_types.specs.Broker.{Broker};
    ghost use Rattle.records.specs.Kept.{IsHonestStore};
    ghost use Rattle.broker_rows.specs.Representing.{Represents};
    ghost use Rattle.hub.specs.AnyRows.{EventGives, EventNeedsClock};
    ghost use Rattle.hub.specs.Feeding.{Feeds, Keeps};
    ghost use Rattle.hub.specs.ListedReplies.{IsListedReply};
    ghost use Rattle.hub.specs.Numbers.{IsNextNumber};
    ghost use Rattle.hub.specs.Pending.{closed_at};
    ghost use Rattle.hub.specs.Representing.{HubRepresents, ConnectionsRepresent, hub_connections, hub_store};
    ghost use Rattle.hub.specs.Runs.{AnswersOne};
    ghost use Rattle.hub.specs.ServedConnection.{IsAnswered, LeavesClosed};
    ghost use Rattle.hub.specs.World.{World, Connections, history_at, new_world, no_connections};
    ghost use Rattle.hub.specs.declared.connection.Connection.{Connection as Seen};
    ghost use Rattle.hub.specs.declared.entry.Entry.TheVariants.{One};

    /// A hub over a store that was started. No connection is seen. It takes no memory.
    pub fn new(alloc: Global, store: S) -> Hub<S>
        ensures represents { (b : Broker) → Represents None (S.seen store).rows b
            → HubRepresents S.seen result (new_world b) }
        ensures unseen { ConnectionsRepresent result no_connections }
        ensures store { hub_store S.seen result ≡ S.seen store }
    {
        Hub {
            alloc,
            store,
            connections: empty(alloc),
        }
    }

    /// Gives the store back, and drops the bytes that wait on connections. It takes no memory.
    pub fn into_store(self) -> S
        ensures { S.seen result ≡ hub_store S.seen self }
    {
        let Hub {
            alloc: _,
            store,
            connections: _,
        } = self;
        store
    }

    /// The number of a connection that was not seen: 0 if none was, else one above the greatest number that
    /// was; none if 18,446,744,073,709,551,615 was seen. It opens nothing and takes no memory.
    pub fn open_conn(&self) -> Option<u64>
        ensures { (all : Connections) → ConnectionsRepresent self.now all → IsNextNumber all result }
    {
        next_number(&self.connections)
    }

    /// Whether the connection is closed. It takes no memory.
    pub fn is_closed(&self, conn: u64) -> bool
        ensures { (all : Connections) → ConnectionsRepresent self.now all
            → result ≡ (history_at all conn).closed }
    {
        is_closed(&self.connections, conn)
    }

    /// Whether a request waits on the connection for its reply, so that an empty piece gives one. It takes no memory.
    pub fn has_request(&self, conn: u64) -> bool
        ensures answered { result ≡ false → (all : Connections) → ConnectionsRepresent self.now all
            → IsAnswered all conn }
        ensures waits { (all : Connections) → ConnectionsRepresent self.now all → IsAnswered all conn
            → result ≡ false }
    {
        has_request(&self.connections, conn)
    }

    /// Whether bytes of a request that is not whole yet, or of one that waits, lie on the connection. It takes no
    /// memory.
    pub fn has_rest(&self, conn: u64) -> bool {
        has_rest(&self.connections, conn)
    }

    /// Closes a connection whose peer is gone, if it was seen, and drops the bytes that wait on it: the hub
    /// represents the same worlds, with that connection closed. It takes no memory.
    pub fn close(&mut self, conn: u64)
        ensures worlds { (w : World) → HubRepresents S.seen self.old w
            → (after : Connections) × LeavesClosed w.connections conn after
            × HubRepresents S.seen self.new (record w { connections = after }) }
        ensures connections { (all : Connections) → ConnectionsRepresent self.old all
            → (after : Connections) × ConnectionsRepresent self.new after × LeavesClosed all conn after }

        // One that was not seen is still not seen.
        ensures unseen { (all : Connections) → ConnectionsRepresent self.old all → all conn ≡ None
            → ConnectionsRepresent self.new all }
        ensures store { hub_store S.seen self.new ≡ hub_store S.seen self.old }
    {
        close(&mut self.connections, conn);
    }

    /// Takes a piece that comes on a connection, and answers at most one request. A connection that was
    /// not seen is opened; a closed one gives no bytes. The result is the bytes of the reply, or none.
    /// After a fault the other connections are as before, and this one is closed; if opening it found no
    /// memory, it is still not seen. The broker is as before then, as long as the storage returns what
    /// was written and can still be asked. On rows that represent a broker the only faults are `Memory`
    /// and `Storage`; else any fault of the store may come, `BadStart` only if it was not started. The
    /// storage can be asked after it, if it could before, unless the fault is `Storage`.
    pub fn feed(
        &mut self,
        conn: u64,
        piece: &[u8],
        moment: Moment,
        words: &Words,
    ) -> Result<Vec<u8>, Fault>
        ensures ok { IsHonestStore (hub_store S.seen self.new) → (w : World)
            → HubRepresents S.seen self.old w → IfOk result (λ bytes. AnswersOne S.seen w
            (record { conn = conn; piece = piece.now; moment = moment; words = words.now })
            bytes.items self.new) }

        // Whatever the rows are, the other connections are as before, and this one took its turn: its
        // reply is that to the front of its bytes, with a listed response if the broker is asked. Or
        // there was a fault, and it is closed. The broker answers only if the clock's row can be read.
        ensures connections { (all : Connections) → ConnectionsRepresent self.old all
            → (after : Connections) × ConnectionsRepresent self.new after
            × EventGives all conn piece.now moment result after }
        ensures listed { IfOk result (λ bytes. IsListedReply bytes.items) }
        ensures clock { IsHonestStore (hub_store S.seen self.new) → (all : Connections)
            → ConnectionsRepresent self.old all → (history_at all conn).closed ≡ false
            → OnOk result (EventNeedsClock (history_at all conn) piece.now (hub_store S.seen self.old).rows) }

        // A closed connection changes nothing, and after a fault the rows are as before.
        ensures closed { (all : Connections) → ConnectionsRepresent self.old all
            → (history_at all conn).closed ≡ true → self.new ≡ self.old }
        ensures keeps { Keeps (hub_store S.seen self.old) (hub_store S.seen self.new) result }
    {
        if is_closed(&self.connections, conn) {
            return Ok(Vec::new(self.alloc));
        }
        open(&mut self.connections, self.alloc, conn)?;
        self.feed_open(conn, piece, moment, words)
    }

    /// Takes a piece that comes on a connection that was seen and is open.
    fn feed_open(
        &mut self,
        conn: u64,
        piece: &[u8],
        moment: Moment,
        words: &Words,
    ) -> Result<Vec<u8>, Fault>
        requires seen { IsSome (hub_connections self.old conn) }
        requires is_open { closed_at (hub_connections self.old conn) ≡ false }
        ensures fed { (c : Seen) → hub_connections self.old conn ≡ Some c
            → (d : Seen) × (hub_connections self.new conn ≡ Some d)
            × Feeds (hub_store S.seen self.old) (hub_store S.seen self.new) c d piece.now moment
            words.now result }
        ensures others { (k : ℕ) → k ≢ conn → hub_connections self.new k ≡ hub_connections self.old k }
    {
        let fed = self.feed_seen(conn, piece, moment, words);
        settle(&mut self.connections, conn);
        fed
    }

    /// The same. Its entry does not join those of closed connections yet, if it closes.
    fn feed_seen(
        &mut self,
        conn: u64,
        piece: &[u8],
        moment: Moment,
        words: &Words,
    ) -> Result<Vec<u8>, Fault>
        ensures fed { (c : Seen) → get nat_cmp self.old.connections conn ≡ Some (One c)
            → (d : Seen) × (get nat_cmp self.new.connections conn ≡ Some (One d))
            × Feeds (hub_store S.seen self.old) (hub_store S.seen self.new) c d piece.now moment
            words.now result }
        ensures others { (k : ℕ) → k ≢ conn
            → get nat_cmp self.new.connections k ≡ get nat_cmp self.old.connections k }
    {
        match self.connections.get_mut(&conn) {
            Some(entry) => entry.feed(self.alloc, &mut self.store, piece, moment, words),
            None => Ok(Vec::new(self.alloc)),
        }
    }
}
