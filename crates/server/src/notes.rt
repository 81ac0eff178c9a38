//! What is known of the request that a turn answers.

ghost use Rattle.std.specs.Prelude.{◌≡◌, IfErr};

use crate::log_line::Asked;
use broker_types::{Answer, Ask, Fault, Verb};
use std::cell::Cell;
use std::net::SocketAddr;
use std::rc::Rc;
use std::rt::HostRuntime;
use std::time::Instant;

/// What a store notes of the request that it answers, and what is known of it beside. One turn of a connection has one
/// request at most.
#[derive(Drop)]
pub(crate) struct Notes {
    rt: HostRuntime,
    /// Whether texts are noted, for a log. They take memory.
    has_texts: bool,
    /// When the turn began.
    began: Cell<Option<Instant>>,
    verb: Cell<Option<Verb>>,
    asked: Cell<Option<Asked>>,
    /// The accessor of the token that was used.
    accessor: Cell<Option<[u8; 36]>>,
    /// The broker's clock, in seconds.
    clock: Cell<Option<u64>>,
    request_id: Cell<Option<[u8; 36]>>,
}

/// One request that was answered, or failed.
#[derive(Drop)]
pub(crate) struct Noted {
    /// The status of the reply; none if none could be made or sent.
    pub(crate) status: Option<u16>,
    /// None for a request that was refused before its path was read.
    pub(crate) verb: Option<Verb>,
    /// How long the turn took, in microseconds.
    pub(crate) micros: u64,
    /// The method and the path, as a log shows them, if texts are noted and there was memory.
    pub(crate) asked: Option<Asked>,
    /// The accessor of the token that was used.
    pub(crate) accessor: Option<[u8; 36]>,
    /// The broker's clock, in seconds.
    pub(crate) clock: Option<u64>,
    /// The identifier that the reply has for the request.
    pub(crate) request_id: Option<[u8; 36]>,
    /// What came and went.
    pub(crate) traffic: Traffic,
}

/// What came and went on a connection for one request.
#[derive(Clone, Copy)]
pub(crate) struct Traffic {
    /// The address of the peer.
    pub(crate) peer: SocketAddr,
    /// The bytes that were read since the last reply.
    pub(crate) bytes_in: u64,
    /// The bytes of the reply.
    pub(crate) bytes_out: u64,
}

impl Traffic {
    /// None yet, with this peer.
    pub(crate) fn none(peer: SocketAddr) -> Traffic {
        Traffic {
            peer,
            bytes_in: 0,
            bytes_out: 0,
        }
    }

    /// So many bytes were read in a turn, and the last push was given so many.
    pub(crate) fn count(&mut self, read: u64, given: usize) {
        self.bytes_in = self.bytes_in.saturating_add(read);
        self.bytes_out = given as u64;
    }
}

impl Notes {
    /// No request. Texts are noted if there is a log.
    pub(crate) fn new(rt: HostRuntime, has_texts: bool) -> Notes {
        Notes {
            rt,
            has_texts,
            began: Cell::new(None),
            verb: Cell::new(None),
            asked: Cell::new(None),
            accessor: Cell::new(None),
            clock: Cell::new(None),
            request_id: Cell::new(None),
        }
    }

    /// The same, to be shared. The only error is running out of memory.
    pub(crate) fn shared(rt: &HostRuntime, has_texts: bool) -> Result<Rc<Notes>, Fault>
        ensures { IfErr result (λ fault. fault ≡ Fault.Memory) }
    {
        Ok(Rc::new(rt.alloc(), Notes::new(*rt, has_texts))?)
    }

    /// A turn of a connection begins.
    pub(crate) fn begin(&self) {
        self.began.set(Instant::now(&self.rt).ok());
        self.verb.set(None);
        self.asked.set(None);
        self.accessor.set(None);
        self.clock.set(None);
        self.request_id.set(None);
    }

    /// This is asked in it. If there is no memory for it, its texts are those of a request whose path was not read.
    pub(crate) fn ask(&self, ask: &Ask<'_>) {
        self.verb.set(Some(ask.verb));
        if self.has_texts {
            self.asked.set(Asked::new(self.rt.alloc(), ask).ok());
        }
    }

    /// It is answered so, with the token of this accessor, at this time of the broker's clock.
    pub(crate) fn answer(&self, answer: &Answer, accessor: Option<[u8; 36]>, clock: Option<u64>) {
        self.accessor.set(accessor);
        self.clock.set(clock);
        if self.has_texts {
            self.request_id
                .set(request_id(answer.text.as_str().as_bytes()));
        }
    }

    /// The request of the turn, which has ended, if there was one: a reply with this status was made in it, if one was.
    pub(crate) fn take(&self, status: Option<u16>, traffic: Traffic) -> Option<Noted> {
        let verb = self.verb.get();
        if status.is_none() && verb.is_none() {
            return None;
        }
        Some(Noted {
            status,
            verb,
            micros: self.micros(),
            asked: self.asked.replace(None),
            accessor: self.accessor.get(),
            clock: self.clock.get(),
            request_id: self.request_id.get(),
            traffic,
        })
    }

    /// How long the turn has taken, in microseconds; 0 if the clock cannot be read.
    fn micros(&self) -> u64 {
        let Some(began) = self.began.get() else {
            return 0;
        };
        match began.elapsed(&self.rt) {
            Ok(age) => u64::try_from(age.as_micros()).unwrap_or(u64::MAX),
            Err(_) => 0,
        }
    }
}

/// The identifier of the request in the body of a reply, if it has one. It is the last member of this name: none comes
/// after it that a client has named, and in a text each quotation mark has a backslash before it.
fn request_id(body: &[u8]) -> Option<[u8; 36]> {
    let name = b"\"request_id\":\"";
    let start = last_of(body, name)?.checked_add(name.len())?;
    let found = body.get(start..start.checked_add(36)?)?;
    let mut id = [0; 36];
    id.copy_from_slice(found);
    Some(id)
}

/// Where these bytes stand last. Only where the first of them stands can all of them.
fn last_of(bytes: &[u8], wanted: &[u8]) -> Option<usize> {
    let first = wanted.first()?;
    for start in (0..bytes.len()).rev() {
        if bytes[start] == *first && bytes[start..].starts_with(wanted) {
            return Some(start);
        }
    }
    None
}
