//! Rounds of a server: it waits for the system, accepts, gives each connection its turns, and may stop.

ghost use Rattle.std.specs.Prelude.{◌≡◌, ◌⊎◌, [], Ok};
ghost use Rattle.hub.specs.Supplies.{Supplies};
ghost use Rattle.server.specs.Accepted.{AreServed};
ghost use Rattle.server.specs.Numbers.{connection_at};
ghost use Rattle.server.specs.Serving.{IsEmpty, ServesAt, ServesPeers, Stand};

use crate::accepting::{Accepting, FIRST_OPERATOR, INPUT, LISTENER, OPERATORS};
use crate::ends::{Listener, Reader, Writer};
use crate::links::Links;
use crate::log::Log;
use crate::notes::Notes;
use crate::operators::Operators;
use crate::places::places;
use crate::service::{Round, Service};
use crate::sockets::{SocketListener, SocketReader, SocketWriter};
use crate::waiting::{LONGEST_EXCHANGE, TICK};
use crate::watched::{Known, Watched};
use broker::Store;
use broker_types::Fault;
use hub::{Hub, WordSource};
use mio::event::Event;
use mio::net::TcpListener;
use mio::unix::SourceFd;
use mio::{Events, Interest, Poll};
use status::State;
use std::alloc::AllocGlobal;
use std::cell::Cell;
use std::net::Net;
use std::os::fd::RawFd;
use std::rc::Rc;
use std::rt::HostRuntime;
use std::time::{Clock, Duration, Instant};
use std::{io, net, thread};

/// How many turns each connection gets between two looks at the system.
const PASSES: u32 = 4;

/// The descriptor of standard input.
const STANDARD_INPUT: RawFd = 0;

/// How much time one round counts for at most, in milliseconds: a wait of `TICK`, and some for what is done then.
const LONGEST_ROUND: u64 = 100;

/// Sockets that are listened on and served.
pub type ListeningSockets = Listening<SocketListener, SocketReader, SocketWriter>;

/// What is listened on, the connections that are open, and what the system tells of them.
#[derive(Drop)]
pub struct Listening<L, R, W> {
    poll: Poll,
    events: Events,
    accepting: Accepting<L>,
    links: Links<R, W>,
    /// The connections of operators, if there is an address for them.
    operators: Option<Operators>,
    start: Instant,
    /// How long ago the start was when the clock was read last, in milliseconds.
    age: u64,
    /// The time by which limits are counted, in milliseconds. It stands still while one request takes long, so that no
    /// peer's time runs out while it waits for the program.
    now: u64,
    /// When the limits are to be looked at.
    look_at: u64,
    /// Whether a stop was asked for.
    is_to_stop: bool,
    /// Once it was begun: when each connection is closed at the latest.
    leaves_by: Option<u64>,
}

impl ListeningSockets {
    /// From this listener so many connections are to be served, or as many as come, and at most `at_once` of them at
    /// once, which is at least 1. None is accepted yet. It fails if memory runs out (`OutOfMemory`), or a call of the
    /// system fails.
    pub(crate) fn new<R>(
        rt: &R,
        listener: net::TcpListener,
        connections: Option<u32>,
        at_once: u32,
        are_all: Rc<Cell<bool>>,
        notes: Rc<Notes>,
        log: Option<Rc<Log>>,
    ) -> io::Result<ListeningSockets>
    where
        R: AllocGlobal + Clock + Net,
    {
        listener.set_nonblocking(true)?;
        let poll = Poll::new(rt)?;
        let at_once = places(at_once);
        let listener = SocketListener::new(
            rt.alloc(),
            poll.registry(),
            TcpListener::from_std(listener),
        )?;
        // Without an end there are more than a program can ever accept.
        let left = connections.map_or(u64::MAX, u64::from);
        let accepting = Accepting::new(listener, left, at_once, are_all);
        let links = Links::new(rt.alloc(), at_once, notes, log)?;
        Listening::of(rt, poll, accepting, links)
    }
}

impl<L: Drop, R: Reader, W: Writer> Listening<L, R, W> {
    /// From any listener, which is reported under `LISTENER`, so many connections are to be served, and at most
    /// `at_once` of them at once, without a log. It fails as `new` does.
    pub fn over(
        rt: &HostRuntime,
        poll: Poll,
        listener: L,
        connections: u32,
        at_once: u32,
    ) -> io::Result<Listening<L, R, W>> {
        let at_once = places(at_once);
        let are_all = Rc::new(rt.alloc(), Cell::new(false))?;
        let Ok(notes) = Notes::shared(rt, false) else {
            return Err(io::Error::from(io::ErrorKind::OutOfMemory));
        };
        let accepting = Accepting::new(listener, u64::from(connections), at_once, are_all);
        let links = Links::new(rt.alloc(), at_once, notes, None)?;
        Listening::of(rt, poll, accepting, links)
    }

    /// Nothing was reported yet.
    fn of<T: AllocGlobal + Clock>(
        rt: &T,
        poll: Poll,
        accepting: Accepting<L>,
        links: Links<R, W>,
    ) -> io::Result<Listening<L, R, W>> {
        let at_once = accepting.at_once();
        Ok(Listening {
            poll,
            // One for each connection, for the listeners, and for standard input: a round knows all that can be done.
            events: Events::with_capacity(rt.alloc(), at_once.saturating_add(OPERATORS + 3))?,
            accepting,
            links,
            operators: None,
            start: Instant::now(rt)?,
            age: 0,
            now: 0,
            look_at: TICK,
            is_to_stop: false,
            leaves_by: None,
        })
    }

    /// The end of standard input, or a byte on it, is to stop the serving: no more connections are accepted, those that
    /// are open end once what was begun on them is done, after `LONGEST_EXCHANGE` at the latest, and then all is done.
    /// Nothing is read there. It fails if standard input is a file, or `/dev/null`: they cannot be waited for.
    pub fn stop_on_input(&mut self) -> io::Result<()> {
        let mut input = SourceFd(&STANDARD_INPUT);
        self.poll
            .registry()
            .register(&mut input, INPUT, Interest::READABLE)
    }

    /// Operators are told of the server from now on.
    pub(crate) fn tell_operators(&mut self, watched: Watched) -> io::Result<()> {
        self.operators = Some(Operators::new(self.poll.registry(), watched)?);
        Ok(())
    }

    /// Connections are accepted under numbers from this one on.
    pub(crate) fn begin(&mut self, first: u64)
        ensures empty { IsEmpty self.new.links.peers }
        ensures first { self.new.links.peers.first ≡ first }
        ensures next { self.new.links.peers.next ≡ first }
        ensures listener { (self.new.accepting.listener ≡ self.old.accepting.listener)
            ⊎ (self.new.accepting.listener ≡ None) }
    {
        self.links.begin(first);
        self.accepting.shut_if_done(self.links.is_used_up());
    }

    /// Whether all is done: no more connections are accepted, and none is open.
    pub(crate) fn is_done(&self) -> bool {
        self.accepting.is_shut() && self.links.len() == 0
    }

    /// One round: waits until something can be done, accepts those that wait, takes some turns of each connection that
    /// can go on, and closes those whose time is over.
    pub(crate) fn round<S: Store, C: hub::Clock, D: WordSource, T: Clock>(
        &mut self,
        rt: &T,
        service: &mut Service<S, C, D>,
    ) -> Result<(), Fault>
    where
        L: Listener<R, W>,
        ensures { ServesAt L.may_accept S.seen R.left W.written
            (Supplies C.may_tell service.old.clock service.new.clock D.may_give service.old.words service.new.words)
            result self.old.accepting.listener self.new.accepting.listener self.old.links.peers self.new.links.peers
            service.old.hub service.new.hub }
    {
        self.await_events(rt);
        self.stop_if_asked();
        let round = Round {
            now: self.now,
            leaves_by: self.leaves_by,
        };
        self.make_room(&mut service.hub, round);
        self.accepting
            .accept(self.poll.registry(), &mut self.links, round.now);
        self.take_turns(service, round)?;
        self.look(&mut service.hub, round);
        self.look_at_operators();
        Ok(())
    }

    /// The serving has ended. After a fault it is tried once, on each connection, to send what was not sent of its last
    /// reply.
    pub(crate) fn finish(&mut self, has_failed: bool)
        ensures { AreServed R.left W.written [] [] self.old.links.peers.next
            (connection_at self.old.links.peers.peers) self.new.links.peers.next
            (connection_at self.new.links.peers.peers) }
    {
        if !has_failed {
            self.links.flush_log();
            return;
        }
        self.links.send_rests();
        self.links.flush_log();
    }

    // ---- the parts of a round

    /// Waits for events, unless something can be done at once, and takes them down.
    fn await_events<T: Clock>(&mut self, rt: &T)
        ensures peers { Stand self.old.links.peers self.new.links.peers }
        ensures listener { self.new.accepting.listener ≡ self.old.accepting.listener }
    {
        let longest = self.longest_wait();
        if self.poll.poll(&mut self.events, longest).is_err() {
            thread::sleep(rt, Duration::from_millis(TICK));
        }
        self.count_time(rt);
        self.is_to_stop |= mark_all(
            &self.events,
            &mut self.accepting,
            &mut self.links,
            &mut self.operators,
        );
    }

    /// Accepts no more, and has each connection end, if that was asked for.
    fn stop_if_asked(&mut self)
        ensures peers { self.new.links.peers ≡ self.old.links.peers }
        ensures listener { (self.new.accepting.listener ≡ self.old.accepting.listener)
            ⊎ (self.new.accepting.listener ≡ None) }
    {
        if self.is_to_stop && self.leaves_by.is_none() {
            self.leaves_by = Some(self.now.saturating_add(LONGEST_EXCHANGE));
            self.accepting.shut();
            self.links.leave();
        }
    }

    /// Counts the time since the last round, as far as a round counts.
    fn count_time<T: Clock>(&mut self, rt: &T)
        ensures peers { self.new.links.peers ≡ self.old.links.peers }
        ensures listener { self.new.accepting.listener ≡ self.old.accepting.listener }
    {
        let age = milliseconds(self.start.elapsed(rt), self.age);
        let passed = age.saturating_sub(self.age).min(LONGEST_ROUND);
        self.now = self.now.saturating_add(passed);
        self.age = age;
    }

    /// How long to wait for events at most. Without a limit to look at it is as long as it takes.
    fn longest_wait(&self) -> Option<Duration> {
        let len = self.links.len();
        if self.links.is_ready() || self.accepting.is_open(self.now, len) {
            return Some(Duration::from_millis(0));
        }
        let operators = match &self.operators {
            Some(operators) => operators.longest_wait(self.now),
            None => None,
        };
        if len == 0 && self.accepting.is_quiet() && !self.links.has_lines() {
            return Some(Duration::from_millis(operators?));
        }
        Some(Duration::from_millis(operators.unwrap_or(TICK).min(TICK)))
    }

    /// Closes the connection that has been idle longest, if somebody waits for its place. One leaves for each that
    /// waits, and no more: a client that keeps many connections open in good faith keeps the others, where closing all
    /// that are idle would have it connect again with each, though one place was wanted.
    fn make_room<S: Store>(&mut self, hub: &mut Hub<S>, round: Round)
        ensures peers { ServesPeers {A = Unit {0}} S.seen R.left W.written (λ events. events ≡ []) [] (Ok tt)
            self.old.links.peers self.new.links.peers hub.old hub.new }
        ensures listener { self.new.accepting.listener ≡ self.old.accepting.listener }
    {
        if self.accepting.wants_room(round.now, self.links.len()) {
            let was_made = self.links.make_room(hub, round);
            self.accepting.note_room(was_made, round.now);
        }
    }

    /// Some turns of each connection that can go on.
    fn take_turns<S: Store, C: hub::Clock, D: WordSource>(
        &mut self,
        service: &mut Service<S, C, D>,
        round: Round,
    ) -> Result<(), Fault>
        ensures peers { ServesPeers S.seen R.left W.written
            (Supplies C.may_tell service.old.clock service.new.clock D.may_give service.old.words service.new.words)
            [] result self.old.links.peers self.new.links.peers service.old.hub service.new.hub }
        ensures listener { self.new.accepting.listener ≡ self.old.accepting.listener }
    {
        for _ in 0..PASSES {
            self.links.turns(service, round)?;
        }
        Ok(())
    }

    /// Writes the log, and closes the connections whose time is over, if it is time to look. Once no more are accepted,
    /// those that are idle are not waited for longer than where their places are wanted.
    fn look<S: Store>(&mut self, hub: &mut Hub<S>, round: Round)
        ensures peers { ServesPeers {A = Unit {0}} S.seen R.left W.written (λ events. events ≡ []) [] (Ok tt)
            self.old.links.peers self.new.links.peers hub.old hub.new }
        ensures listener { self.new.accepting.listener ≡ self.old.accepting.listener }
    {
        if round.now >= self.look_at {
            self.look_at = round.now.saturating_add(TICK);
            self.links.flush_log();
            self.links.look(hub, round, self.accepting.is_shut());
        }
    }

    /// Serves operators, if it is time to.
    fn look_at_operators(&mut self)
        ensures peers { self.new.links.peers ≡ self.old.links.peers }
        ensures listener { self.new.accepting.listener ≡ self.old.accepting.listener }
    {
        if !matches!(&self.operators, Some(operators) if operators.is_due(self.now)) {
            return;
        }
        self.links.count_dropped();
        let known = self.known();
        if let Some(operators) = &mut self.operators {
            let counters = self.links.tally().counters();
            operators.look(self.poll.registry(), self.now, counters, known);
        }
    }

    /// What operators are told of it. It stops once no more connections are accepted.
    fn known(&self) -> Known {
        let state = if self.accepting.is_shut() {
            State::Stopping
        } else {
            State::Serving
        };
        Known {
            state,
            connections: self.links.len(),
            at_once: self.accepting.at_once(),
            last_fault: self.links.tally().last_fault(),
            clock: self.links.tally().clock(),
        }
    }
}

/// Takes down all that was reported. Whether standard input was.
fn mark_all<L: Drop, R: Reader, W: Writer>(
    events: &Events,
    accepting: &mut Accepting<L>,
    links: &mut Links<R, W>,
    operators: &mut Option<Operators>,
) -> bool
    ensures peers { Stand links.old.peers links.new.peers }
    ensures listener { accepting.new.listener ≡ accepting.old.listener }
{
    let mut is_input = false;
    for event in events {
        is_input |= mark_one(event, accepting, links, operators);
    }
    is_input
}

/// Takes down one event. Whether it is of standard input.
fn mark_one<L: Drop, R: Reader, W: Writer>(
    event: &Event,
    accepting: &mut Accepting<L>,
    links: &mut Links<R, W>,
    operators: &mut Option<Operators>,
) -> bool
    ensures peers { Stand links.old.peers links.new.peers }
    ensures listener { accepting.new.listener ≡ accepting.old.listener }
{
    let token = event.token();
    if token == INPUT {
        return true;
    }
    if token == LISTENER {
        accepting.mark();
        return false;
    }
    if token.0 < FIRST_OPERATOR {
        links.mark(token.0 as u64, event);
        return false;
    }
    if let Some(operators) = operators {
        operators.mark(event);
    }
    false
}

/// The age in milliseconds; the last one if it cannot be told.
fn milliseconds(age: io::Result<Duration>, last: u64) -> u64 {
    match age {
        Ok(age) => u64::try_from(age.as_millis()).unwrap_or(u64::MAX),
        Err(_) => last,
    }
}
