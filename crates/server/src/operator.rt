//! A connection of an operator, with one request.

use mio::event::Event;
use mio::net::TcpStream;
use status::{Counters, Figures, reply};
use std::alloc::Global;
use std::io;
use std::io::{ErrorKind, Read, Write};
use std::net::Shutdown;

/// How many bytes are read at once: more than a head can have, so that a longer one is known.
const PIECE: usize = 4_096;

/// How many pieces are passed over at once of what comes after the reply.
const PIECES: u32 = 16;

/// How long a connection has its place, in milliseconds.
const LONGEST: u64 = 2_000;

/// How long it has it while another waits for a place, in milliseconds.
const SHORTEST: u64 = 250;

/// A connection of an operator: its stream with its readiness, the head of its request, and the reply.
#[derive(Drop)]
pub(crate) struct Operator {
    alloc: Global,
    stream: TcpStream,
    can_read: bool,
    can_write: bool,
    head: Vec<u8>,
    /// Empty until the head is there.
    reply: Vec<u8>,
    sent: usize,
    /// When it was accepted, in milliseconds since the start.
    since: u64,
}

impl Operator {
    /// A connection that was just accepted.
    pub(crate) fn new(alloc: Global, stream: TcpStream, now: u64) -> Operator {
        Operator {
            alloc,
            stream,
            can_read: false,
            can_write: true,
            head: Vec::new(alloc),
            reply: Vec::new(alloc),
            sent: 0,
            since: now,
        }
    }

    /// Takes down what was reported.
    pub(crate) fn mark(&mut self, event: &Event) {
        let has_failed = event.is_error();
        self.can_read |= event.is_readable() || event.is_read_closed() || has_failed;
        self.can_write |= event.is_writable() || event.is_write_closed() || has_failed;
    }

    /// Whether something can be done, as far as is known.
    pub(crate) fn can_go(&self) -> bool {
        if self.is_sending() {
            self.can_write
        } else {
            self.can_read
        }
    }

    /// Whether its time is over.
    pub(crate) fn is_over(&self, now: u64, is_pressed: bool) -> bool {
        let age = now.saturating_sub(self.since);
        age >= if is_pressed { SHORTEST } else { LONGEST }
    }

    /// Goes on: reads, and answers where the whole head is there; or sends. Whether it is still open.
    pub(crate) fn go(&mut self, counters: &Counters, figures: &Figures<'_>) -> bool {
        if self.sent > 0 && !self.is_sending() {
            return self.drain();
        }
        if !self.is_sending() && !self.take_piece(counters, figures) {
            return false;
        }
        !self.is_sending() || self.send()
    }

    fn is_sending(&self) -> bool {
        self.sent < self.reply.len()
    }

    /// Passes over what comes after the reply: a stream that is closed with bytes unread is reset, and its peer can
    /// lose the reply (RFC 9112, section 9.6).
    fn drain(&mut self) -> bool {
        let mut buffer = [0; PIECE];
        for _ in 0..PIECES {
            match self.read(&mut buffer) {
                Some(0) => return !self.can_read,
                Some(_) => {}
                None => return false,
            }
        }
        true
    }

    /// Takes more of the head, if more is there.
    fn take_piece(&mut self, counters: &Counters, figures: &Figures<'_>) -> bool {
        let mut buffer = [0; PIECE];
        match self.read(&mut buffer) {
            Some(0) => !self.can_read,
            Some(count) => self.take(buffer.get(..count).unwrap_or(&[]), counters, figures),
            None => false,
        }
    }

    /// How many bytes were read; 0 at the end, or if none is there now, and then no read can give something; none after
    /// a fault.
    fn read(&mut self, buffer: &mut [u8]) -> Option<usize> {
        let mut stream = &self.stream;
        match stream.read(buffer) {
            Ok(count) => Some(count),
            Err(error) if is_later(&error) => {
                self.can_read = false;
                Some(0)
            }
            Err(_) => None,
        }
    }

    /// Takes more of the head. Without memory the connection ends.
    fn take(&mut self, bytes: &[u8], counters: &Counters, figures: &Figures<'_>) -> bool {
        if self.head.extend_from_slice(bytes).is_err() {
            return false;
        }
        match reply(self.alloc, &self.head, counters, figures) {
            Ok(Some(reply)) => {
                self.reply = reply;
                true
            }
            Ok(None) => true,
            Err(_) => false,
        }
    }

    /// Sends what there is room for. The peer is told of the end.
    fn send(&mut self) -> bool {
        let mut stream = &self.stream;
        match stream.write(self.reply.get(self.sent..).unwrap_or(&[])) {
            Ok(count) => {
                self.sent = self.sent.saturating_add(count);
                self.is_sending() || self.stream.shutdown(Shutdown::Write).is_ok()
            }
            Err(error) if is_later(&error) => {
                self.can_write = false;
                true
            }
            Err(_) => false,
        }
    }
}

/// Whether the call may succeed later. A call that does not wait is hardly ever interrupted: that counts as this.
fn is_later(error: &io::Error) -> bool {
    matches!(error.kind(), ErrorKind::WouldBlock | ErrorKind::Interrupted)
}
