//! The open connections of a server, and a queue of those that can go on.

ghost use Rattle.std.specs.Prelude.{◌≡◌, List, [], Ok};
ghost use Rattle.hub.specs.Supplies.{GivesInTurn, Supplies};
ghost use Rattle.server.specs.Accepted.{AreServed};
ghost use Rattle.server.specs.Numbers.{connection_at};
ghost use Rattle.server.specs.Serving.{IsEmpty, ServesPeers, Stand};

use crate::ends::{Listener, Reader, Writer};
use crate::log::Log;
use crate::notes::Notes;
use crate::peer::{Peer, Stay};
use crate::peers::{Accepted, Peers};
use crate::service::{Round, Service};
use crate::tally::Tally;
use crate::waiting::{Claim, goes_before};
use broker::Store;
use broker_types::Fault;
use hub::{Clock, Hub, WordSource};
use mio::Registry;
use mio::event::Event;
use status::Closing;
use std::alloc::{AllocError, Global};
use std::collections::VecDeque;
use std::rc::Rc;

/// The connections that are open, by their numbers, and those that can go on.
#[derive(Drop)]
pub(crate) struct Links<R, W> {
    peers: Peers<R, W>,
    /// Each is in it once, or twice after a stop was asked for. Some of them may have been closed since.
    ready: VecDeque<u64>,
    /// Those whose time is over, and why, while they are closed.
    over: Vec<(u64, Closing)>,
    /// What the store notes of a request.
    notes: Rc<Notes>,
    /// What is counted.
    tally: Tally,
    /// Where requests are logged, if they are.
    log: Option<Rc<Log>>,
}

impl<R: Reader, W: Writer> Links<R, W> {
    /// None is open. So many can be open at once without memory for the queue: a round adds each of them at most, to as
    /// many that were closed since the last.
    pub(crate) fn new(
        alloc: Global,
        at_once: usize,
        notes: Rc<Notes>,
        log: Option<Rc<Log>>,
    ) -> Result<Links<R, W>, AllocError> {
        Ok(Links {
            peers: Peers::new(alloc),
            ready: VecDeque::with_capacity(alloc, at_once.saturating_mul(2))?,
            over: Vec::with_capacity(alloc, at_once)?,
            notes,
            tally: Tally::new(),
            log,
        })
    }

    /// How many are open.
    pub(crate) fn len(&self) -> usize {
        self.peers.len()
    }

    /// What was counted.
    pub(crate) fn tally(&self) -> &Tally {
        &self.tally
    }

    /// Counts the lines of the log that were dropped meanwhile.
    pub(crate) fn count_dropped(&mut self)
        ensures { self.new.peers ≡ self.old.peers }
    {
        if let Some(log) = &self.log {
            self.tally.dropped(log.dropped());
        }
    }

    /// Whether lines of the log wait to be written.
    pub(crate) fn has_lines(&self) -> bool {
        matches!(&self.log, Some(log) if log.has_lines())
    }

    /// Writes the lines of the log that wait.
    pub(crate) fn flush_log(&self) {
        if let Some(log) = &self.log {
            log.flush();
        }
    }

    /// Whether one can go on at once.
    pub(crate) fn is_ready(&self) -> bool {
        !self.ready.is_empty()
    }

    /// Connections are accepted under numbers from this one on.
    pub(crate) fn begin(&mut self, first: u64)
        ensures empty { IsEmpty self.new.peers }
        ensures first { self.new.peers.first ≡ first }
        ensures next { self.new.peers.next ≡ first }
    {
        self.peers.begin(first);
    }

    /// Whether no number is left for another connection.
    pub(crate) fn is_used_up(&self) -> bool {
        self.peers.is_used_up()
    }

    /// Accepts a connection that waits, if one does.
    pub(crate) fn accept<L: Listener<R, W>>(
        &mut self,
        registry: &Registry,
        listener: &mut L,
        now: u64,
    ) -> Accepted
        ensures accepted { (accepted : List (R × W))
            × GivesInTurn L.may_accept listener.old listener.new accepted
            × AreServed R.left W.written accepted [] self.old.peers.next (connection_at self.old.peers.peers)
            self.new.peers.next (connection_at self.new.peers.peers) }
        ensures first { self.new.peers.first ≡ self.old.peers.first }
    {
        let accepted = self.peers.accept(registry, listener, now);
        if accepted == Accepted::Open || accepted == Accepted::Closed {
            self.tally.accepted();
        }
        if accepted == Accepted::Closed {
            self.tally.closed(Closing::Fault);
        }
        accepted
    }

    /// Takes down an event of the connection, and puts it into the queue.
    pub(crate) fn mark(&mut self, conn: u64, event: &Event)
        ensures { Stand self.old.peers self.new.peers }
    {
        if self.peers.mark(conn, event) {
            let _ = self.ready.push_back(conn);
        }
    }

    /// Each is to end once what was begun on it is done. All go into the queue, so that those on which nothing was
    /// begun end now.
    pub(crate) fn leave(&mut self)
        ensures { self.new.peers ≡ self.old.peers }
    {
        if let Some(log) = &self.log {
            log.tell("stopping");
        }
        for (conn, peer) in self.peers.by_number() {
            if !peer.is_queued() {
                let _ = self.ready.push_back(*conn);
            }
        }
    }

    /// One turn of each connection that is in the queue now.
    pub(crate) fn turns<S: Store, C: Clock, D: WordSource>(
        &mut self,
        service: &mut Service<S, C, D>,
        round: Round,
    ) -> Result<(), Fault>
        ensures { ServesPeers S.seen R.left W.written
            (Supplies C.may_tell service.old.clock service.new.clock D.may_give service.old.words service.new.words)
            [] result self.old.peers self.new.peers service.old.hub service.new.hub }
    {
        for _ in 0..self.ready.len() {
            self.turn(service, round)?;
        }
        Ok(())
    }

    /// One turn of the connection at the front of the queue: it goes to the back if it can go on, and is closed if it
    /// has ended.
    fn turn<S: Store, C: Clock, D: WordSource>(
        &mut self,
        service: &mut Service<S, C, D>,
        round: Round,
    ) -> Result<(), Fault>
        ensures { ServesPeers S.seen R.left W.written
            (Supplies C.may_tell service.old.clock service.new.clock D.may_give service.old.words service.new.words)
            [] result self.old.peers self.new.peers service.old.hub service.new.hub }
    {
        let Some(conn) = self.ready.pop_front() else {
            return Ok(());
        };
        self.notes.begin();
        let turned = self.peers.turn(conn, service, round);
        let why = self.note(conn, round);
        match turned {
            Ok(Stay::Ready) => {
                let _ = self.ready.push_back(conn);
                Ok(())
            }
            Ok(Stay::Waits) => Ok(()),
            Ok(Stay::Gone) => {
                self.close(&mut service.hub, conn, why);
                Ok(())
            }
            Err(fault) => Err(fault),
        }
    }

    /// Counts and logs what the last turn of the connection has brought. Why it is closed, if that turn has ended it.
    fn note(&mut self, conn: u64, round: Round) -> Closing
        ensures { self.new.peers ≡ self.old.peers }
    {
        let Some(peer) = self.peers.get(conn) else {
            return Closing::Ended;
        };
        note(&self.notes, &mut self.tally, &self.log, peer);
        peer.end(round)
    }

    /// Closes those whose time is over.
    pub(crate) fn look<S: Store>(&mut self, hub: &mut Hub<S>, round: Round, is_pressed: bool)
        ensures { ServesPeers {A = Unit {0}} S.seen R.left W.written (λ events. events ≡ []) [] (Ok tt) self.old.peers
            self.new.peers hub.old hub.new }
    {
        self.over.clear();
        for (conn, peer) in self.peers.by_number() {
            if let Some(why) = peer.over(round, is_pressed) {
                let _ = self.over.push((*conn, why));
            }
        }
        for _ in 0..self.over.len() {
            let Some((conn, why)) = self.over.pop() else {
                return;
            };
            self.close(hub, conn, why);
        }
    }

    /// Closes the one that has to leave its place first, if any has to: that which has been idle longest, or else that
    /// whose request has been unfinished longest. Whether one was closed.
    pub(crate) fn make_room<S: Store>(&mut self, hub: &mut Hub<S>, round: Round) -> bool
        ensures { ServesPeers {A = Unit {0}} S.seen R.left W.written (λ events. events ≡ []) [] (Ok tt) self.old.peers
            self.new.peers hub.old hub.new }
    {
        let Some(conn) = self.first_to_leave(round.now) else {
            return false;
        };
        self.close(hub, conn, Closing::Room);
        true
    }

    /// The number of the one that has to leave its place first.
    fn first_to_leave(&self, now: u64) -> Option<u64> {
        let mut first = (None, Claim::Stays);
        for (conn, peer) in self.peers.by_number() {
            let claim = peer.claim(now);
            if goes_before(claim, first.1) {
                first = (Some(*conn), claim);
            }
        }
        first.0
    }

    /// Closes a connection, and drops what waits on it.
    fn close<S: Store>(&mut self, hub: &mut Hub<S>, conn: u64, why: Closing)
        ensures { ServesPeers {A = Unit {0}} S.seen R.left W.written (λ events. events ≡ []) [] (Ok tt) self.old.peers
            self.new.peers hub.old hub.new }
    {
        self.tally.closed(why);
        self.peers.close(hub, conn);
    }

    /// Tries once, on each connection, to send what was not sent of its last reply, and closes it.
    pub(crate) fn send_rests(&mut self)
        ensures { AreServed R.left W.written [] [] self.old.peers.next (connection_at self.old.peers.peers)
            self.new.peers.next (connection_at self.new.peers.peers) }
    {
        self.peers.send_rests();
    }
}

/// Counts and logs what the last turn of the peer has brought.
fn note<R: Reader, W: Writer>(
    notes: &Notes,
    tally: &mut Tally,
    log: &Option<Rc<Log>>,
    peer: &Peer<R, W>,
) {
    if let Some(fault) = peer.fault() {
        tally.faulted(fault);
    }
    if let Some(noted) = notes.take(peer.status(), peer.traffic()) {
        tally.request(&noted);
        if let Some(log) = log {
            log.request(&noted);
        }
    }
}
