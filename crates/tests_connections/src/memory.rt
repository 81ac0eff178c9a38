//! A listener in memory: its streams are cut anywhere, can be slow, and can fail.

ghost use Rattle.std.specs.Prelude.{None};

use endpoints::{Failed, NowSink, NowSource};
use mio::{Registry, Token, Waker};
use server::{Arrival, LISTENER, Listener, Reader, Writer};
use std::alloc::Global;
use std::cell::Cell;
use std::io;
use std::net::{IpAddr, Ipv4Addr, SocketAddr};
use std::rc::Rc;

/// How the two ends of a stream behave.
#[derive(Clone, Copy)]
pub(crate) struct Manner {
    /// How many bytes are moved at once at most.
    pub(crate) most: usize,
    /// Whether there is nothing to read and no room to write at every other call, the first one among them.
    pub(crate) is_slow: bool,
    /// How many calls of each end succeed before one fails.
    pub(crate) calls: u32,
}

/// Ends that move all there is, and never fail.
pub(crate) const QUICK: Manner = Manner {
    most: usize::MAX,
    is_slow: false,
    calls: u32::MAX,
};

/// The calls of an end so far.
#[derive(Drop)]
struct Calls {
    manner: Manner,
    count: u32,
}

impl Calls {
    fn new(manner: Manner) -> Calls {
        Calls { manner, count: 0 }
    }

    /// How many bytes the next call may move; none if it is to fail.
    fn next(&mut self) -> Option<usize> {
        if self.count >= self.manner.calls {
            return None;
        }
        self.count += 1;
        if self.manner.is_slow && self.count % 2 == 1 {
            return Some(0);
        }
        Some(self.manner.most)
    }
}

/// What comes on a stream, and the end of it. The bell reports it once.
#[derive(Drop)]
pub(crate) struct MemoryReader<'s> {
    _bell: Waker,
    input: &'s [u8],
    calls: Calls,
    has_failed: bool,
}

impl<'s> NowSource for MemoryReader<'s> {
    ghost left = { λ _. None };

    ghost has_failed = { λ reader. reader.has_failed };

    fn pull_now(&mut self, buffer: &mut [u8]) -> Result<Option<usize>, Failed> {
        match self.calls.next() {
            Some(0) => Ok(None),
            Some(most) => {
                let count = self.input.len().min(most).min(buffer.len());
                buffer[..count].copy_from_slice(&self.input[..count]);
                self.input = &self.input[count..];
                Ok(Some(count))
            }
            None => {
                self.has_failed = true;
                Err(Failed)
            }
        }
    }

    fn failed(&self) -> bool {
        self.has_failed
    }
}

impl<'s> Reader for MemoryReader<'s> {
    /// It is never known, so that the stream is asked again without a report.
    fn is_emptied(&self) -> bool {
        false
    }
}

/// What was sent on a stream, once it was.
pub(crate) type Output = Rc<Cell<Vec<u8>>>;

/// Where replies go.
#[derive(Drop)]
pub(crate) struct MemoryWriter {
    alloc: Global,
    output: Output,
    calls: Calls,
    has_failed: bool,
}

impl NowSink for MemoryWriter {
    ghost written = { λ _. None };

    ghost has_failed = { λ writer. writer.has_failed };

    fn push_now(&mut self, bytes: &[u8]) -> Result<usize, Failed> {
        let Some(most) = self.calls.next() else {
            self.has_failed = true;
            return Err(Failed);
        };
        let count = bytes.len().min(most);
        let mut output = self.output.replace(Vec::new(self.alloc));
        let kept = output.extend_from_slice(&bytes[..count]);
        self.output.set(output);
        if kept.is_err() {
            self.has_failed = true;
            return Err(Failed);
        }
        Ok(count)
    }

    fn failed(&self) -> bool {
        self.has_failed
    }
}

impl Writer for MemoryWriter {
    /// It is never known, so that the stream is asked again without a report.
    fn is_full(&self) -> bool {
        false
    }

    fn end(&self) -> Result<(), Failed> {
        Ok(())
    }
}

/// A stream that waits to be accepted.
#[derive(Drop)]
pub(crate) struct Stream<'s> {
    input: &'s str,
    manner: Manner,
    output: Output,
}

impl<'s> Stream<'s> {
    /// On which this comes.
    pub(crate) fn new(input: &'s str, manner: Manner, output: Output) -> Stream<'s> {
        Stream {
            input,
            manner,
            output,
        }
    }

    /// Its two ends.
    fn ends(self, alloc: Global, bell: Waker) -> (MemoryReader<'s>, MemoryWriter) {
        let Stream {
            input,
            manner,
            output,
        } = self;
        let reader = MemoryReader {
            _bell: bell,
            input: input.as_bytes(),
            calls: Calls::new(manner),
            has_failed: false,
        };
        let writer = MemoryWriter {
            alloc,
            output,
            calls: Calls::new(manner),
            has_failed: false,
        };
        (reader, writer)
    }
}

/// A listener for which these streams wait, the last of them first. Every third call is interrupted.
#[derive(Drop)]
pub(crate) struct MemoryListener<'s> {
    alloc: Global,
    bell: Waker,
    streams: Vec<Stream<'s>>,
    calls: Cell<u32>,
}

impl<'s> MemoryListener<'s> {
    /// It reports itself at once.
    pub(crate) fn new(
        alloc: Global,
        registry: &Registry,
        streams: Vec<Stream<'s>>,
    ) -> io::Result<MemoryListener<'s>> {
        Ok(MemoryListener {
            alloc,
            bell: rung(registry, LISTENER)?,
            streams,
            calls: Cell::new(0),
        })
    }
}

impl<'s> Listener<MemoryReader<'s>, MemoryWriter> for MemoryListener<'s> {
    fn accept(
        &mut self,
        registry: &Registry,
        number: u64,
    ) -> Arrival<MemoryReader<'s>, MemoryWriter> {
        let calls = self.calls.get().wrapping_add(1);
        self.calls.set(calls);
        if calls % 3 == 0 {
            return Arrival::Interrupted;
        }
        if self.streams.is_empty() {
            return Arrival::NoneWaits;
        }
        let Ok(bell) = rung(registry, Token(number as usize)) else {
            return Arrival::Scarce;
        };
        match self.streams.pop() {
            Some(stream) => {
                let (reader, writer) = stream.ends(self.alloc, bell);
                Arrival::Came(reader, writer, address())
            }
            None => Arrival::NoneWaits,
        }
    }

    fn ask_again(&mut self, _: &Registry) -> Result<(), Failed> {
        match self.bell.wake() {
            Ok(()) => Ok(()),
            Err(_) => Err(Failed),
        }
    }
}

/// A bell that was rung once.
fn rung(registry: &Registry, token: Token) -> io::Result<Waker> {
    let bell = Waker::new(registry, token)?;
    bell.wake()?;
    Ok(bell)
}

/// The address of each peer.
fn address() -> SocketAddr {
    SocketAddr::new(IpAddr::V4(Ipv4Addr::new(127, 0, 0, 1)), 8_200)
}
