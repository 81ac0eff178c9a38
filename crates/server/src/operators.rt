//! The connections of operators: they have places of their own, and take a bounded part of the time.

use crate::accepting::{FIRST_OPERATOR, OPERATORS, STATUS};
use crate::operator::Operator;
use crate::waiting::TICK;
use crate::watched::{Known, Program, Watched};
use mio::event::Event;
use mio::net::TcpListener;
use mio::{Interest, Registry, Token};
use status::{Counters, Figures};
use std::io;
use std::io::ErrorKind;

/// How many connections of operators are accepted, and how many served, at one look.
const AT_ONE_LOOK: usize = 4;

/// How long no operator is looked at after a look, in milliseconds: so they take a small part of the time, however many
/// ask.
const PAUSE: u64 = 5;

/// How long none is looked at if one could not be accepted, in milliseconds.
const LONG_PAUSE: u64 = 100;

/// The listener for operators, and their connections. Times are milliseconds since the start.
#[derive(Drop)]
pub(crate) struct Operators {
    program: Program,
    listener: TcpListener,
    places: Vec<Option<Operator>>,
    /// Whether somebody may wait to be accepted.
    may_wait: bool,
    /// The place that is served next.
    next: usize,
    /// When they are looked at again.
    look_at: u64,
}

impl Operators {
    /// Registers the listener. It fails if memory runs out (`OutOfMemory`), or a call of the system fails.
    pub(crate) fn new(registry: &Registry, watched: Watched) -> io::Result<Operators> {
        let (listener, program) = watched.into_parts();
        listener.set_nonblocking(true)?;
        let mut listener = TcpListener::from_std(listener);
        registry.register(&mut listener, STATUS, Interest::READABLE)?;
        let mut places = Vec::with_capacity(program.alloc(), OPERATORS)?;
        for _ in 0..OPERATORS {
            places.push(None)?;
        }
        Ok(Operators {
            program,
            listener,
            places,
            may_wait: false,
            next: 0,
            look_at: 0,
        })
    }

    /// Takes down what was reported of the listener, or of a connection.
    pub(crate) fn mark(&mut self, event: &Event) {
        if event.token() == STATUS {
            self.may_wait = true;
        } else if let Some(place) = event.token().0.checked_sub(FIRST_OPERATOR)
            && let Some(Some(operator)) = self.places.get_mut(place)
        {
            operator.mark(event);
        }
    }

    /// How long they can wait for the next look, in milliseconds; without a number as long as nothing is reported.
    pub(crate) fn longest_wait(&self, now: u64) -> Option<u64> {
        if self.has_work() {
            return Some(self.look_at.saturating_sub(now));
        }
        if self.len() == 0 {
            return None;
        }
        Some(TICK)
    }

    /// Whether something can be done now.
    pub(crate) fn is_due(&self, now: u64) -> bool {
        now >= self.look_at && (self.has_work() || self.len() > 0)
    }

    /// A look at them: accepts some, serves some, and closes those whose time is over.
    pub(crate) fn look(
        &mut self,
        registry: &Registry,
        now: u64,
        counters: &Counters,
        known: Known,
    ) {
        self.look_at = now.saturating_add(PAUSE);
        self.accept(registry, now);
        if self.is_one_ready() {
            let figures = self.program.figures(known);
            self.serve(counters, &figures);
        }
        self.close(now);
    }

    // ---- the parts of a look

    /// Accepts those that wait, if there are places.
    fn accept(&mut self, registry: &Registry, now: u64) {
        for _ in 0..AT_ONE_LOOK {
            let Some(place) = self.free_place() else {
                return;
            };
            if !self.may_wait {
                return;
            }
            self.accept_one(registry, now, place);
        }
    }

    fn accept_one(&mut self, registry: &Registry, now: u64, place: usize) {
        match self.listener.accept() {
            Ok((mut stream, _)) => {
                let token = Token(FIRST_OPERATOR.saturating_add(place));
                let both = Interest::READABLE | Interest::WRITABLE;
                if registry.register(&mut stream, token, both).is_ok()
                    && let Some(free) = self.places.get_mut(place)
                {
                    *free = Some(Operator::new(self.program.alloc(), stream, now));
                }
            }
            Err(error) if error.kind() == ErrorKind::WouldBlock => self.may_wait = false,
            Err(error) if error.kind() == ErrorKind::Interrupted => {}
            Err(_) => self.look_at = now.saturating_add(LONG_PAUSE),
        }
    }

    /// Serves some of those that can go on, each in its turn.
    fn serve(&mut self, counters: &Counters, figures: &Figures<'_>) {
        let mut served: usize = 0;
        for _ in 0..OPERATORS {
            let place = self.next % OPERATORS;
            self.next = place.saturating_add(1);
            if let Some(found) = self.places.get_mut(place)
                && let Some(operator) = found
                && operator.can_go()
            {
                served = served.saturating_add(1);
                if !operator.go(counters, figures) {
                    *found = None;
                }
            }
            if served == AT_ONE_LOOK {
                return;
            }
        }
    }

    /// Closes those whose time is over.
    fn close(&mut self, now: u64) {
        let is_pressed = self.may_wait && self.free_place().is_none();
        for found in self.places.as_mut_slice() {
            let is_over = match found {
                Some(operator) => operator.is_over(now, is_pressed),
                None => false,
            };
            if is_over {
                *found = None;
            }
        }
    }

    // ---- what there is to do

    fn has_work(&self) -> bool {
        self.is_one_ready() || (self.may_wait && self.free_place().is_some())
    }

    fn is_one_ready(&self) -> bool {
        self.places.iter().any(|found| matches!(found, Some(operator) if operator.can_go()))
    }

    /// How many connections are open.
    fn len(&self) -> usize {
        self.places.iter().filter(|found| found.is_some()).count()
    }

    fn free_place(&self) -> Option<usize> {
        self.places.iter().position(|found| found.is_none())
    }
}
