//! Connections of which one end fails once, at each of its calls in turn: what the peer got then, and what the broker
//! took.

use crate::exchange::{FOUND, Fixed, READ, WRITE, WRITTEN, moment};
use crate::streams::{NOT_FOUND, started};
use broker::ListStore;
use broker_types::{Fault, Moment, Words};
use endpoints::{NowReading, NowWriting, Reading, Writing};
use hub::{ConnectionFault, Hub, Link, Turn, WordSource, serve_connection, take_turn};
use std::alloc::Global;
use std::io;
use std::test::Fail;

/// A reader of three bytes a read, or a writer, which fails once, at its call of this number, counted from 1.
#[derive(Drop)]
pub(crate) struct FailingEnd<T> {
    inner: T,
    calls: usize,
    at: usize,
}

impl<T> FailingEnd<T> {
    pub(crate) fn new(inner: T, at: usize) -> FailingEnd<T> {
        FailingEnd {
            inner,
            calls: 0,
            at,
        }
    }

    /// Counts a call, and fails if it is the one.
    fn count(&mut self) -> io::Result<()> {
        self.calls = self.calls.saturating_add(1);
        if self.calls == self.at {
            return Err(io::Error::from(io::ErrorKind::BrokenPipe));
        }
        Ok(())
    }
}

impl<R: io::Read> io::Read for FailingEnd<R> {
    fn read(&mut self, buffer: &mut [u8]) -> io::Result<usize> {
        self.count()?;
        let len = buffer.len().min(3);
        self.inner.read(&mut buffer[..len])
    }
}

impl<W: io::Write> io::Write for FailingEnd<W> {
    fn write(&mut self, bytes: &[u8]) -> io::Result<usize> {
        self.count()?;
        self.inner.write(bytes)
    }

    fn flush(&mut self) -> io::Result<()> {
        Ok(())
    }
}

/// The words of each event, so that the identifier of a request does not tell how many events came before it.
const WORDS: Words = Words([32, 33, 34, 35, 36, 37, 38, 39]);

/// The same words for each event.
#[derive(Drop)]
struct Same;

impl WordSource for Same {
    fn words(&mut self) -> Words {
        WORDS
    }
}

/// Which call of the reader fails, and which of the writer; 0 is none.
#[derive(Clone, Copy)]
struct At {
    read: usize,
    write: usize,
}

/// How the connection is served.
#[derive(Clone, Copy)]
enum Way {
    /// By `serve_connection`.
    ToItsEnd,
    /// By `take_turn`, turn by turn.
    ByTurns,
}

/// What came of a connection on which `WRITE` and `READ` were sent.
#[derive(Clone, Copy, Debug, PartialEq, Eq)]
struct Came {
    /// The number of the fault.
    fault: Option<u8>,
    /// How many replies were written; none if that is not what was written, or not whole.
    replies: Option<usize>,
    /// Whether the connection is closed, or was not seen.
    is_gone: bool,
    /// Whether another connection reads what `WRITE` writes; none if it gets another reply.
    is_written: Option<bool>,
}

/// What comes where nothing fails.
const WHOLE: Came = Came {
    fault: None,
    replies: Some(2),
    is_gone: false,
    is_written: Some(true),
};

/// What has to come if the read of this number fails: the requests that were read before are answered.
fn after_read(at: usize) -> Came {
    let read = at.saturating_sub(1).saturating_mul(3);
    let has_write = read >= WRITE.len();
    let has_both = read >= WRITE.len().saturating_add(READ.len());
    Came {
        fault: Some(5),
        replies: Some(usize::from(has_write).saturating_add(usize::from(has_both))),
        is_gone: true,
        is_written: Some(has_write),
    }
}

/// What has to come if the write of this number fails: the request was taken before.
fn after_write(at: usize) -> Came {
    Came {
        fault: Some(6),
        replies: Some(at.saturating_sub(1)),
        is_gone: true,
        is_written: Some(true),
    }
}

/// How many replies these are.
fn count_replies(written: &[u8]) -> Option<usize> {
    if written.is_empty() {
        return Some(0);
    }
    let rest = written.strip_prefix(WRITTEN.as_bytes())?;
    if rest.is_empty() {
        return Some(1);
    }
    (rest == FOUND.as_bytes()).then_some(2)
}

/// Whether another connection reads what `WRITE` writes.
fn is_written(hub: &mut Hub<ListStore>, moment: Moment) -> Result<Option<bool>, Fault> {
    let reply = hub.feed(2, READ.as_bytes(), moment, &WORDS)?;
    if reply.as_slice() == FOUND.as_bytes() {
        return Ok(Some(true));
    }
    Ok((reply.as_slice() == NOT_FOUND.as_bytes()).then_some(false))
}

/// Serves connection 1 to its end.
fn serve(
    hub: &mut Hub<ListStore>,
    moment: Moment,
    input: &[u8],
    output: &mut Vec<u8>,
    at: At,
) -> Result<(), ConnectionFault> {
    let mut reader = Reading::new(FailingEnd::new(input, at.read));
    let mut writer = Writing::new(FailingEnd::new(output, at.write));
    let mut clock = Fixed(moment);
    serve_connection(hub, 1, &mut reader, &mut writer, &mut clock, &mut Same)
}

/// Takes turns on connection 1, until it ends.
fn take_turns(
    hub: &mut Hub<ListStore>,
    alloc: Global,
    moment: Moment,
    input: &[u8],
    output: &mut Vec<u8>,
    at: At,
) -> Result<(), ConnectionFault> {
    let mut link = Link::new(alloc, 1);
    let mut reader = NowReading::new(FailingEnd::new(input, at.read));
    let mut writer = NowWriting::new(FailingEnd::new(output, at.write));
    let mut clock = Fixed(moment);
    for _ in 0..1_000 {
        let turn = take_turn(
            hub,
            &mut link,
            &mut reader,
            &mut writer,
            &mut clock,
            &mut Same,
        )?;
        if turn == Turn::Ended {
            break;
        }
    }
    Ok(())
}

/// What comes of connection 1 of a hub if its ends fail at these calls.
fn came_of(
    hub: &mut Hub<ListStore>,
    alloc: Global,
    way: Way,
    input: &[u8],
    at: At,
) -> Result<Came, Fail> {
    let moment = moment()?;
    let mut output = Vec::new(alloc);
    let end = match way {
        Way::ToItsEnd => serve(hub, moment, input, &mut output, at),
        Way::ByTurns => take_turns(hub, alloc, moment, input, &mut output, at),
    };
    Ok(Came {
        fault: end.err().map(|fault| fault.number()),
        replies: count_replies(output.as_slice()),
        is_gone: hub.is_closed(1) || hub.open_conn() == Some(0),
        is_written: is_written(hub, moment)?,
    })
}

/// The same of a broker that was just started.
fn run(alloc: Global, way: Way, input: &[u8], at: At) -> Result<Came, Fail> {
    let mut hub = started(alloc, moment()?)?;
    came_of(&mut hub, alloc, way, input, at)
}

/// How many reads fail, each on a connection of its own, until none does; none if something else comes of one.
fn count_reads(alloc: Global, way: Way, input: &[u8]) -> Result<Option<usize>, Fail> {
    for at in 1..1_000 {
        let came = run(alloc, way, input, At { read: at, write: 0 })?;
        if came != after_read(at) {
            return Ok((came == WHOLE).then_some(at - 1));
        }
    }
    Ok(None)
}

/// The same of writes.
fn count_writes(alloc: Global, way: Way, input: &[u8]) -> Result<Option<usize>, Fail> {
    for at in 1..1_000 {
        let came = run(alloc, way, input, At { read: 0, write: at })?;
        if came != after_write(at) {
            return Ok((came == WHOLE).then_some(at - 1));
        }
    }
    Ok(None)
}

/// How many reads and how many writes fail. 224 bytes take 75 reads, and another finds the end.
fn count(alloc: Global, way: Way) -> Result<(Option<usize>, Option<usize>), Fail> {
    let input = format!(in alloc; "{WRITE}{READ}")?;
    let reads = count_reads(alloc, way, input.as_bytes())?;
    let writes = count_writes(alloc, way, input.as_bytes())?;
    Ok((reads, writes))
}

#[test]
fn each_call_of_the_ends_of_a_served_connection_fails(rt: HostRuntime) -> Result<(), Fail> {
    let failed = count(rt.alloc(), Way::ToItsEnd)?;
    assert!(rt; failed == (Some(76), Some(2)));
    Ok(())
}

#[test]
fn each_call_of_the_ends_of_a_connection_in_turns_fails(rt: HostRuntime) -> Result<(), Fail> {
    let failed = count(rt.alloc(), Way::ByTurns)?;
    assert!(rt; failed == (Some(76), Some(2)));
    Ok(())
}
