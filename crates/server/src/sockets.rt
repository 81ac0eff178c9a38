//! Sockets as what a server accepts. Nothing is known of the bytes of a socket, so no clause says that these ends read
//! and write the sockets that they are made of.

ghost use Rattle.std.specs.Prelude.{None};

use crate::accepting::LISTENER;
use crate::ends::{Arrival, Listener, Reader, Writer};
use endpoints::{Failed, NowReading, NowSink, NowSource, NowWriting};
use mio::net::{TcpListener, TcpStream};
use mio::{Interest, Registry, Token};
use std::alloc::Global;
use std::io;
use std::io::ErrorKind;
use std::net::{Shutdown, SocketAddr};
use std::rc::Rc;

/// A socket, as what is read.
#[derive(Drop)]
pub struct SocketReader {
    stream: Rc<TcpStream>,
    is_emptied: bool,
    has_failed: bool,
}

impl NowSource for SocketReader {
    ghost use Rattle.server.specs.Sockets.{read_failed};

    ghost left = { λ _. None };

    ghost has_failed = { read_failed };

    fn pull_now(&mut self, buffer: &mut [u8]) -> Result<Option<usize>, Failed> {
        let mut source = NowReading::new(&*self.stream);
        let pulled = source.pull_now(buffer);
        self.is_emptied = source.is_emptied();
        self.has_failed |= pulled.is_err();
        pulled
    }

    fn failed(&self) -> bool {
        self.has_failed
    }
}

impl Reader for SocketReader {
    fn is_emptied(&self) -> bool {
        self.is_emptied
    }
}

/// The same socket, as what is written.
#[derive(Drop)]
pub struct SocketWriter {
    stream: Rc<TcpStream>,
    is_full: bool,
    has_failed: bool,
}

impl NowSink for SocketWriter {
    ghost use Rattle.server.specs.Sockets.{write_failed};

    ghost written = { λ _. None };

    ghost has_failed = { write_failed };

    fn push_now(&mut self, bytes: &[u8]) -> Result<usize, Failed> {
        let mut sink = NowWriting::new(&*self.stream);
        let pushed = sink.push_now(bytes);
        self.is_full = sink.is_full();
        self.has_failed |= pushed.is_err();
        pushed
    }

    fn failed(&self) -> bool {
        self.has_failed
    }
}

impl Writer for SocketWriter {
    fn is_full(&self) -> bool {
        self.is_full
    }

    fn end(&self) -> Result<(), Failed> {
        match self.stream.shutdown(Shutdown::Write) {
            Ok(()) => Ok(()),
            Err(_) => Err(Failed),
        }
    }
}

/// A socket that listens.
#[derive(Drop)]
pub struct SocketListener {
    alloc: Global,
    listener: TcpListener,
}

impl SocketListener {
    /// Registers the listener.
    pub(crate) fn new(
        alloc: Global,
        registry: &Registry,
        mut listener: TcpListener,
    ) -> io::Result<SocketListener> {
        registry.register(&mut listener, LISTENER, Interest::READABLE)?;
        Ok(SocketListener { alloc, listener })
    }

    /// The ends of a socket, which is registered under this number; none if that cannot be.
    fn ends(
        &self,
        registry: &Registry,
        mut stream: TcpStream,
        number: u64,
    ) -> Option<(SocketReader, SocketWriter)> {
        stream.set_nodelay(true).ok()?;
        let both = Interest::READABLE | Interest::WRITABLE;
        registry
            .register(&mut stream, Token(number as usize), both)
            .ok()?;
        let stream = Rc::new(self.alloc, stream).ok()?;
        let reader = SocketReader {
            stream: Rc::clone(&stream).ok()?,
            is_emptied: false,
            has_failed: false,
        };
        let writer = SocketWriter {
            stream,
            is_full: false,
            has_failed: false,
        };
        Some((reader, writer))
    }
}

impl Listener<SocketReader, SocketWriter> for SocketListener {
    fn accept(&mut self, registry: &Registry, number: u64) -> Arrival<SocketReader, SocketWriter> {
        match self.listener.accept() {
            Ok((stream, address)) => match self.ends(registry, stream, number) {
                Some((reader, writer)) => Arrival::Came(reader, writer, address),
                None => Arrival::Lost,
            },
            Err(error) if error.kind() == ErrorKind::WouldBlock => Arrival::NoneWaits,
            Err(error) if error.kind() == ErrorKind::Interrupted => Arrival::Interrupted,
            Err(error) if is_scarce(&error) => Arrival::Scarce,
            Err(_) => Arrival::Failed,
        }
    }

    fn ask_again(&mut self, registry: &Registry) -> Result<(), Failed> {
        match registry.reregister(&mut self.listener, LISTENER, Interest::READABLE) {
            Ok(()) => Ok(()),
            Err(_) => Err(Failed),
        }
    }
}

/// Whether the system is out of descriptors or memory: EMFILE, ENFILE, ENOMEM, ENOBUFS. Then no connection was taken
/// from those that wait.
fn is_scarce(error: &io::Error) -> bool {
    matches!(error.raw_os_error(), Some(24 | 23 | 12 | 105))
}
