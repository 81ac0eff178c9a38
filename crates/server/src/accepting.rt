//! New connections: how many there may be, and when the next one is accepted.

ghost use Rattle.std.specs.Prelude.{◌≡◌, ◌⊎◌, List, [], None, Some};
ghost use Rattle.server.specs.Accepted.{AreServed};
ghost use Rattle.server.specs.Arriving.{HandsOut};
ghost use Rattle.server.specs.Numbers.{connection_at};

use crate::ends::{Listener, Reader, Writer};
use crate::links::Links;
use crate::peers::Accepted;
use crate::waiting::TICK;
use mio::{Registry, Token};
use std::cell::Cell;
use std::rc::Rc;

/// The token of the listener: no connection has it.
pub const LISTENER: Token = Token(usize::MAX);

/// The token of standard input, if its end is waited for: no connection has it.
pub(crate) const INPUT: Token = Token(usize::MAX - 1);

/// The token of the listener for operators: no connection has it.
pub(crate) const STATUS: Token = Token(usize::MAX - 2);

/// How many connections of operators there can be at once.
pub(crate) const OPERATORS: usize = 16;

/// The token of the first of these: no other connection has it, nor one of the next `OPERATORS` tokens.
pub(crate) const FIRST_OPERATOR: usize = usize::MAX - 2 - OPERATORS;

/// How many connections are accepted in one round.
const ROUND: u32 = 16;

/// How long to wait after a connection could not be accepted, in milliseconds.
const PAUSE: u64 = 100;

/// Where connections come from, while more of them are to be served. Times are milliseconds since the start.
#[derive(Drop)]
pub(crate) struct Accepting<L> {
    listener: Option<L>,
    /// How many more are to be accepted.
    left: u64,
    at_once: usize,
    /// Whether somebody may wait to be accepted.
    may_wait: bool,
    /// Whether the system lacked descriptors or memory for the last one.
    is_scarce: bool,
    /// When it is tried again to accept one.
    retry_at: u64,
    /// When it is looked again for one that can leave its place.
    look_at: u64,
    /// Set once all were accepted that were to be.
    are_all: Rc<Cell<bool>>,
}

impl<L: Drop> Accepting<L> {
    /// From this listener so many connections are to be served, and at most so many at once.
    pub(crate) fn new(
        listener: L,
        connections: u64,
        at_once: usize,
        are_all: Rc<Cell<bool>>,
    ) -> Accepting<L>
        ensures { result.listener ≡ Some listener }
    {
        Accepting {
            listener: Some(listener),
            left: connections,
            at_once,
            may_wait: false,
            is_scarce: false,
            retry_at: 0,
            look_at: 0,
            are_all,
        }
    }

    /// The listener was reported.
    pub(crate) fn mark(&mut self)
        ensures { self.new.listener ≡ self.old.listener }
    {
        self.may_wait = true;
    }

    /// Accepts no more. Those that wait in the system's queue are reset.
    pub(crate) fn shut(&mut self)
        ensures { self.new.listener ≡ None }
    {
        self.listener = None;
        self.may_wait = false;
    }

    /// How many can be open at once.
    pub(crate) fn at_once(&self) -> usize {
        self.at_once
    }

    /// Whether no more connections are accepted.
    pub(crate) fn is_shut(&self) -> bool {
        self.listener.is_none()
    }

    /// Whether one can be accepted now, beside so many that are open.
    pub(crate) fn is_open(&self, now: u64, len: usize) -> bool {
        self.may_wait && len < self.at_once && now >= self.retry_at
    }

    /// Whether another is to leave its place now, beside so many that are open: somebody waits, and there is no further
    /// place, or the system has no descriptor or memory left.
    pub(crate) fn wants_room(&self, now: u64, len: usize) -> bool {
        self.may_wait && (len >= self.at_once || self.is_scarce) && now >= self.look_at
    }

    /// Another has left its place, or none could. The next one that waits is accepted without a pause then; and until
    /// one was accepted, or some time has passed, no other is to leave.
    pub(crate) fn note_room(&mut self, was_made: bool, now: u64)
        ensures { self.new.listener ≡ self.old.listener }
    {
        if was_made {
            self.retry_at = 0;
        }
        self.look_at = now.saturating_add(TICK);
    }

    /// Whether nothing is to be done for those that wait, unless the listener is reported.
    pub(crate) fn is_quiet(&self) -> bool {
        !self.may_wait
    }

    /// Accepts those that wait, if there are places.
    pub(crate) fn accept<R: Reader, W: Writer>(
        &mut self,
        registry: &Registry,
        links: &mut Links<R, W>,
        now: u64,
    )
    where
        L: Listener<R, W>,
        ensures accepted { (accepted : List (R × W))
            × HandsOut L.may_accept self.old.listener self.new.listener accepted
            × AreServed R.left W.written accepted [] links.old.peers.next (connection_at links.old.peers.peers)
            links.new.peers.next (connection_at links.new.peers.peers) }
        ensures first { links.new.peers.first ≡ links.old.peers.first }
    {
        for _ in 0..ROUND {
            if !self.is_open(now, links.len()) {
                return;
            }
            self.accept_one(registry, links, now);
        }
    }

    /// Accepts one, if one waits. One that cannot be accepted counts, and a pause follows. It does not count if the
    /// system lacked descriptors or memory: then it still waits.
    fn accept_one<R: Reader, W: Writer>(
        &mut self,
        registry: &Registry,
        links: &mut Links<R, W>,
        now: u64,
    )
    where
        L: Listener<R, W>,
        ensures accepted { (accepted : List (R × W))
            × HandsOut L.may_accept self.old.listener self.new.listener accepted
            × AreServed R.left W.written accepted [] links.old.peers.next (connection_at links.old.peers.peers)
            links.new.peers.next (connection_at links.new.peers.peers) }
        ensures first { links.new.peers.first ≡ links.old.peers.first }
    {
        let Some(listener) = &mut self.listener else {
            return;
        };
        let accepted = links.accept(registry, listener, now);
        self.note(accepted, now);
        self.shut_if_done(links.is_used_up());
        self.ask_if_full::<R, W>(registry, links.len());
    }

    /// Takes down what came of accepting one.
    fn note(&mut self, accepted: Accepted, now: u64)
        ensures { self.new.listener ≡ self.old.listener }
    {
        match accepted {
            Accepted::Open | Accepted::Closed => {
                self.is_scarce = false;
                self.look_at = 0;
                self.left = self.left.saturating_sub(1);
            }
            Accepted::NoneWaits => {
                self.is_scarce = false;
                self.may_wait = false;
            }
            Accepted::Interrupted => {}
            Accepted::Scarce => {
                self.retry_at = now.saturating_add(PAUSE);
                self.is_scarce = true;
            }
            Accepted::Failed => {
                self.retry_at = now.saturating_add(PAUSE);
                self.is_scarce = false;
                self.left = self.left.saturating_sub(1);
            }
        }
    }

    /// Accepts no more if enough were accepted, or no number is left.
    pub(crate) fn shut_if_done(&mut self, is_used_up: bool)
        ensures { (self.new.listener ≡ self.old.listener) ⊎ (self.new.listener ≡ None) }
    {
        if self.left == 0 || is_used_up {
            self.are_all.set(true);
            self.shut();
        }
    }

    /// If every place is taken, or the system lacks descriptors or memory, asks the system anew whether somebody waits:
    /// it reports the listener if so. What was reported before may be over, and nobody should leave for a peer that
    /// does not wait: where descriptors are lacking, an accept fails for that even if none waits.
    fn ask_if_full<R: Reader, W: Writer>(&mut self, registry: &Registry, len: usize)
    where
        L: Listener<R, W>,
        ensures { self.new.listener ≡ self.old.listener }
    {
        if (len >= self.at_once || self.is_scarce)
            && let Some(listener) = &mut self.listener
        {
            self.may_wait = listener.ask_again(registry).is_err();
        }
    }
}
