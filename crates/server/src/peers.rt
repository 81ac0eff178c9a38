//! The connections of a server by their numbers, and the number of the next one.

ghost use Rattle.std.specs.Prelude.{◌≡◌, ◌≢◌, ◌⊎◌, ◌≤◌, ℕ};
ghost use Rattle.std.specs.BTreeMap.{get};
ghost use Rattle.std.specs.Ordering.{nat_cmp};
ghost use Rattle.server.specs.Numbers.{AreNumbered};

use crate::accepting::FIRST_OPERATOR;
use crate::ends::{Arrival, Listener, Reader, Writer};
use crate::peer::{Peer, Stay};
use crate::service::{Round, Service};
use broker::Store;
use broker_types::Fault;
use hub::{Clock, Hub, WordSource};
use mio::Registry;
use mio::event::Event;
use std::alloc::Global;
use std::collections::BTreeMap;

/// Numbers of connections are below this one. Those from it on, as tokens, are no connection's.
const NUMBERS: u64 = FIRST_OPERATOR as u64;

/// What came of accepting a connection.
#[derive(Clone, Copy, Debug, PartialEq, Eq)]
pub(crate) enum Accepted {
    /// One is open now.
    Open,
    /// One came, and was closed at once.
    Closed,
    /// None waits.
    NoneWaits,
    /// The call was interrupted.
    Interrupted,
    /// The system lacks descriptors or memory.
    Scarce,
    /// It failed for another cause.
    Failed,
}

/// The connections that are open. Each has a number of its own, from the first on and below the next.
#[derive(Drop)]
pub(crate) struct Peers<R, W> {
    alloc: Global,
    first: u64,
    /// The number of the next connection: none has had it.
    next: u64,
    peers: BTreeMap<u64, Peer<R, W>>,
    ghost ordered: { first ≤ next },
    ghost numbered: { AreNumbered first next peers },
}

impl<R: Reader, W: Writer> Peers<R, W> {
    ghost use Rattle.std.specs.Prelude.{◌≡◌, ◌≢◌, ◌⊎◌, ◌+◌, ◌<◌, ℕ, List, [], Ok, false};
    ghost use Rattle.std.specs.BTreeMap.{get};
    ghost use Rattle.std.specs.Ordering.{nat_cmp};
    ghost use Rattle.hub.specs.Links.{number_of};
    ghost use Rattle.hub.specs.Supplies.{GivesInTurn, Supplies};
    ghost use Rattle.server.specs.Accepted.{AreServed};
    ghost use Rattle.server.specs.Numbers.{connection_at};
    ghost use Rattle.server.specs.Serving.{IsEmpty, ServesPeers, Stand};

    /// None is open.
    pub(crate) fn new(alloc: Global) -> Peers<R, W> {
        Peers {
            alloc,
            first: 0,
            next: 0,
            peers: BTreeMap::new(alloc),
        }
    }

    /// None is open, and the next has this number.
    pub(crate) fn begin(&mut self, first: u64)
        ensures empty { IsEmpty self.new }
        ensures first { self.new.first ≡ first }
        ensures next { self.new.next ≡ first }
    {
        self.peers = BTreeMap::new(self.alloc);
        self.first = first;
        self.next = first;
    }

    /// How many are open.
    pub(crate) fn len(&self) -> usize {
        self.peers.len()
    }

    /// Whether no number is left.
    pub(crate) fn is_used_up(&self) -> bool
        ensures { result ≡ false → self.now.next < u64.MAX }
    {
        self.next >= NUMBERS
    }

    /// The peers, by their numbers.
    pub(crate) fn by_number(&self) -> &BTreeMap<u64, Peer<R, W>> {
        &self.peers
    }

    /// The peer of the number, if it is open.
    pub(crate) fn get(&self, conn: u64) -> Option<&Peer<R, W>> {
        self.peers.get(&conn)
    }

    // ---- what is accepted

    /// Accepts a connection that waits, if one does, under the next number. One that finds no memory is closed.
    pub(crate) fn accept<L: Listener<R, W>>(
        &mut self,
        registry: &Registry,
        listener: &mut L,
        now: u64,
    ) -> Accepted
        ensures accepted { (accepted : List (R × W))
            × GivesInTurn L.may_accept listener.old listener.new accepted
            × AreServed R.left W.written accepted [] self.old.next (connection_at self.old.peers) self.new.next
            (connection_at self.new.peers) }
        ensures first { self.new.first ≡ self.old.first }
    {
        if self.is_used_up() {
            return Accepted::Failed;
        }
        match listener.accept(registry, self.next) {
            Arrival::Came(reader, writer, address) => {
                self.open(Peer::new(self.alloc, reader, writer, address, self.next, now))
            }
            Arrival::Lost => Accepted::Closed,
            Arrival::NoneWaits => Accepted::NoneWaits,
            Arrival::Interrupted => Accepted::Interrupted,
            Arrival::Scarce => Accepted::Scarce,
            Arrival::Failed => Accepted::Failed,
        }
    }

    /// Opens a connection with the next number. If there is no memory for it, it is closed.
    fn open(&mut self, peer: Peer<R, W>) -> Accepted
        requires number { number_of peer.link ≡ self.old.next }
        requires room { self.old.next < u64.MAX }
        ensures first { self.new.first ≡ self.old.first }
        ensures next { self.new.next ≡ self.old.next + 1 }
        ensures here { (get nat_cmp self.new.peers self.old.next ≡ Some peer)
            ⊎ (get nat_cmp self.new.peers self.old.next ≡ None) }
        ensures others { (k : ℕ) → k ≢ self.old.next
            → get nat_cmp self.new.peers k ≡ get nat_cmp self.old.peers k }
    {
        let conn = self.next;
        self.next += 1;
        insert(&mut self.peers, conn, peer)
    }

    // ---- one connection

    /// Takes down an event of the connection. Whether it is to be put into the queue now.
    pub(crate) fn mark(&mut self, conn: u64, event: &Event) -> bool
        ensures { Stand self.old self.new }
    {
        match self.peers.get_mut(&conn) {
            Some(peer) => peer.enters_queue(event),
            None => false,
        }
    }

    /// One turn of the connection, if it is open.
    pub(crate) fn turn<S: Store, C: Clock, D: WordSource>(
        &mut self,
        conn: u64,
        service: &mut Service<S, C, D>,
        round: Round,
    ) -> Result<Stay, Fault>
        ensures { ServesPeers S.seen R.left W.written
            (Supplies C.may_tell service.old.clock service.new.clock D.may_give service.old.words service.new.words)
            [] result self.old self.new service.old.hub service.new.hub }
    {
        match self.peers.get_mut(&conn) {
            Some(peer) => peer.turn(service, round),
            None => Ok(Stay::Waits),
        }
    }

    /// Closes the connection, if it is open, and drops what waits on it.
    pub(crate) fn close<S: Store>(&mut self, hub: &mut Hub<S>, conn: u64)
        ensures { ServesPeers {A = Unit {0}} S.seen R.left W.written (λ events. events ≡ []) [] (Ok tt) self.old
            self.new hub.old hub.new }
    {
        if let Some(_) = self.peers.remove(&conn) {
            hub.close(conn);
        }
    }

    // ---- the end

    /// Tries once, on each connection, to send what was not sent of its last reply, and closes it.
    pub(crate) fn send_rests(&mut self)
        ensures { AreServed R.left W.written [] [] self.old.next (connection_at self.old.peers) self.new.next
            (connection_at self.new.peers) }
    {
        for _ in 0..self.peers.len() {
            let Some(conn) = self.first_open() else {
                return;
            };
            self.send_rest(conn);
        }
    }

    /// The least number of an open connection.
    fn first_open(&self) -> Option<u64> {
        match self.peers.first_key_value() {
            Some((conn, _)) => Some(*conn),
            None => None,
        }
    }

    /// Tries once, on this connection.
    fn send_rest(&mut self, conn: u64)
        ensures { AreServed R.left W.written [] [] self.old.next (connection_at self.old.peers) self.new.next
            (connection_at self.new.peers) }
    {
        if let Some(peer) = self.peers.remove(&conn) {
            let mut peer = peer;
            peer.send_rest();
        }
    }
}

/// Puts a connection under a number that none has. If there is no memory for it, it is closed.
fn insert<R: Reader, W: Writer>(
    peers: &mut BTreeMap<u64, Peer<R, W>>,
    conn: u64,
    peer: Peer<R, W>,
) -> Accepted
    ensures here { (get nat_cmp peers.new conn ≡ Some peer) ⊎ (get nat_cmp peers.new conn ≡ None) }
    ensures others { (k : ℕ) → k ≢ conn → get nat_cmp peers.new k ≡ get nat_cmp peers.old k }
{
    match peers.insert(conn, peer) {
        Ok(_) => Accepted::Open,
        Err(_) => Accepted::Closed,
    }
}
