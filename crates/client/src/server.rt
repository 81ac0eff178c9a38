//! One request to the server: connecting within the time that is given, and waiting for the reply.

ghost use Rattle.std.specs.Prelude.{◌≡◌, ◌≢◌};
ghost use Rattle.std.specs.IoError.{error_kind};
ghost use Rattle.std.specs.declared.io.ErrorKind.TheVariants.{OutOfMemory};
ghost use Rattle.api_client.specs.declared.failure.Failure.TheVariants.{Memory, Unreached};

use api_client::{Command, Failure, Manner, Peer, Reply, answer_of, exchange, report};
use command_line::Settings;
use endpoints::{Reading, Source, Writing};
use std::net::{TcpStream, ToSocketAddrs};
use std::rt::HostRuntime;
use std::time::{Duration, Instant};
use std::{io, thread};

/// How many seconds the client waits for the server each time, unless it is told otherwise.
const TIMEOUT: u64 = 30;

/// How many milliseconds pass between two attempts to connect.
const PAUSE: u64 = 200;

/// How long the client waits, in seconds.
#[derive(Clone, Copy)]
pub(crate) struct Patience {
    /// For a server that cannot be reached.
    wait: u64,
    /// For each step of the connection.
    timeout: u64,
}

impl Patience {
    /// That of the options.
    pub(crate) fn of(settings: &Settings<'_>) -> Patience {
        Patience {
            wait: settings.wait.unwrap_or(0),
            timeout: settings.timeout.unwrap_or(TIMEOUT),
        }
    }
}

/// Sends the request of a command to its server, prints of the reply what the manner asks for, and answers the exit
/// status.
pub(crate) fn send(
    rt: &HostRuntime,
    command: &Command<'_>,
    manner: &Manner<'_>,
    patience: Patience,
) -> u8 {
    let mut out = Writing::new(rt.stdout());
    let mut err = Writing::new(rt.stderr());
    match connected(rt, command.address.as_str(), patience) {
        Ok(stream) => {
            let mut peer = Peer {
                reader: Reading::new(&stream),
                writer: Writing::new(&stream),
            };
            let begin = Instant::now(rt);
            let status = exchange(rt.alloc(), command, manner, &mut peer, &mut out, &mut err);
            if peer.reader.failed() && is_over(rt, begin, patience.timeout) {
                tell_late(rt, patience);
            }
            status
        }
        Err(error) => {
            if !manner.plain {
                tell_unreached(rt, command, &error);
            }
            report(
                rt.alloc(),
                manner,
                Err(unreached(&error)),
                &mut out,
                &mut err,
            )
        }
    }
}

/// The reply of its server to a command, or why there is none. That the server is not reached is told on standard error
/// if `tells` says so.
pub(crate) fn ask(
    rt: &HostRuntime,
    command: &Command<'_>,
    patience: Patience,
    tells: bool,
) -> Result<Reply, Failure> {
    match connected(rt, command.address.as_str(), patience) {
        Ok(stream) => {
            let mut peer = Peer {
                reader: Reading::new(&stream),
                writer: Writing::new(&stream),
            };
            answer_of(rt.alloc(), command, &mut peer)
        }
        Err(error) => {
            if tells {
                tell_unreached(rt, command, &error);
            }
            Err(unreached(&error))
        }
    }
}

/// A connection to the server, whose reads and writes fail if they take too long.
fn connected(rt: &HostRuntime, address: &str, patience: Patience) -> io::Result<TcpStream> {
    let begin = Instant::now(rt)?;
    let mut failed = io::Error::from(io::ErrorKind::AddrNotAvailable);
    for _ in 0..u64::MAX {
        match connected_once(rt, address, patience) {
            Ok(stream) => return Ok(stream),
            Err(error) => failed = error,
        }
        if begin.elapsed(rt)? >= Duration::from_secs(patience.wait) {
            return Err(failed);
        }
        thread::sleep(rt, Duration::from_millis(PAUSE));
    }
    Err(failed)
}

/// One attempt to connect, to each address of the host in turn.
fn connected_once(rt: &HostRuntime, address: &str, patience: Patience) -> io::Result<TcpStream> {
    let timeout = Duration::from_secs(patience.timeout);
    let mut failed = io::Error::from(io::ErrorKind::AddrNotAvailable);
    for place in address.to_socket_addrs(rt)? {
        match TcpStream::connect_timeout(rt, &place, timeout) {
            Ok(stream) => {
                stream.set_read_timeout(Some(timeout))?;
                stream.set_write_timeout(Some(timeout))?;
                return Ok(stream);
            }
            Err(error) => failed = error,
        }
    }
    Err(failed)
}

/// Why a server was not reached.
fn unreached(error: &io::Error) -> Failure
    ensures memory { error_kind error.now ≡ OutOfMemory → result ≡ Memory }
    ensures other { error_kind error.now ≢ OutOfMemory → result ≡ Unreached }
{
    if error.kind() == io::ErrorKind::OutOfMemory {
        Failure::Memory
    } else {
        Failure::Unreached
    }
}

/// Tells why a server was not reached, on the line before the failure.
fn tell_unreached(rt: &HostRuntime, command: &Command<'_>, error: &io::Error) {
    let _ = eprintln!(rt;
        "client: {} is not reached: {error}",
        command.address.as_str()
    );
}

/// Whether so many seconds are over.
fn is_over(rt: &HostRuntime, begin: io::Result<Instant>, seconds: u64) -> bool {
    let Ok(begin) = begin else {
        return false;
    };
    match begin.elapsed(rt) {
        Ok(elapsed) => elapsed >= Duration::from_secs(seconds),
        Err(_) => false,
    }
}

/// Tells that the server took too long, on the line after the failure.
fn tell_late(rt: &HostRuntime, patience: Patience) {
    let _ = eprintln!(rt;
        "client: no reply within {} seconds (--timeout)",
        patience.timeout
    );
}
