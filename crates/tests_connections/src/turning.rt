//! Turns on connections whose ends do not wait: ones in memory that would wait at every other call, or that fail.

use crate::exchange::{CLOSING, Counting, FOUND, Fixed, READ, WRITE, WRITTEN, moment};
use crate::streams::{NOT_FOUND, NOT_FOUND_CLOSING, started};
use broker::ListStore;
use endpoints::{NowReading, NowWriting};
use hub::{ConnectionFault, Hub, Link, Turn, take_turn};
use std::alloc::AllocGlobal;
use std::io;
use std::process::Abort;
use std::test::Fail;

/// A reader or a writer that would wait at every other call, the first one among them. A write takes `most` bytes at
/// most.
#[derive(Drop)]
pub(crate) struct Stuttering<T> {
    inner: T,
    most: usize,
    waits: bool,
}

impl<T> Stuttering<T> {
    pub(crate) fn new(inner: T, most: usize) -> Stuttering<T> {
        Stuttering {
            inner,
            most,
            waits: false,
        }
    }

    fn may_go_on(&mut self) -> io::Result<()> {
        self.waits = !self.waits;
        if self.waits {
            return Err(io::Error::from(io::ErrorKind::WouldBlock));
        }
        Ok(())
    }
}

impl<R: io::Read> io::Read for Stuttering<R> {
    fn read(&mut self, buffer: &mut [u8]) -> io::Result<usize> {
        self.may_go_on()?;
        self.inner.read(buffer)
    }
}

impl<W: io::Write> io::Write for Stuttering<W> {
    fn write(&mut self, bytes: &[u8]) -> io::Result<usize> {
        self.may_go_on()?;
        self.inner.write(&bytes[..bytes.len().min(self.most)])
    }

    fn flush(&mut self) -> io::Result<()> {
        Ok(())
    }
}

/// A writer that takes ten bytes, and then fails.
#[derive(Drop)]
struct Breaking {
    is_broken: bool,
}

impl io::Write for Breaking {
    fn write(&mut self, bytes: &[u8]) -> io::Result<usize> {
        if self.is_broken {
            return Err(io::Error::from(io::ErrorKind::BrokenPipe));
        }
        self.is_broken = true;
        Ok(bytes.len().min(10))
    }

    fn flush(&mut self) -> io::Result<()> {
        Ok(())
    }
}

/// What each turn answers where both ends would wait at every other call.
fn expect_parts(rt: &(impl Abort + AllocGlobal), hub: &mut Hub<ListStore>) -> Result<(), Fail> {
    let alloc = rt.alloc();
    let mut link = Link::new(alloc, 7);
    let input = format!(in alloc; "{WRITE}{READ}")?;
    let mut output = Vec::new(alloc);
    let mut reader = NowReading::new(Stuttering::new(input.as_bytes(), 128));
    let mut writer = NowWriting::new(Stuttering::new(&mut output, 128));
    let mut words = Counting { next: 16 };
    let mut clock = Fixed(moment()?);
    let wanted = [
        Turn::NeedsBytes,
        Turn::Answered,
        Turn::WentOn,
        Turn::Answered,
        Turn::WentOn,
        Turn::NeedsRoom,
        Turn::WentOn,
        Turn::NeedsRoom,
        Turn::WentOn,
        Turn::NeedsBytes,
        Turn::Ended,
    ];
    for turn in wanted {
        let taken = take_turn(
            hub,
            &mut link,
            &mut reader,
            &mut writer,
            &mut clock,
            &mut words,
        );
        assert_eq!(rt; taken, Ok(turn));
    }
    drop(writer);
    let wanted = format!(in alloc; "{WRITTEN}{FOUND}")?;
    assert_eq!(rt; output.as_slice(), wanted.as_bytes());
    assert!(rt; !hub.has_request(7));
    Ok(())
}

/// Computes `Passes`, `TakesTurn`.
#[test]
fn replies_are_sent_part_by_part(rt: HostRuntime) -> Result<(), Fail> {
    let mut hub = started(rt.alloc(), moment()?)?;
    expect_parts(&rt, &mut hub)
}

/// A reply is sent in part, and then the writer fails.
fn expect_a_rest(rt: &(impl Abort + AllocGlobal), hub: &mut Hub<ListStore>) -> Result<(), Fail> {
    let alloc = rt.alloc();
    let mut link = Link::new(alloc, 1);
    let mut reader = NowReading::new(READ.as_bytes());
    let mut writer = NowWriting::new(Breaking { is_broken: false });
    let mut words = Counting { next: 16 };
    let mut clock = Fixed(moment()?);
    for turn in [Ok(Turn::Answered), Err(ConnectionFault::Write)] {
        let taken = take_turn(
            hub,
            &mut link,
            &mut reader,
            &mut writer,
            &mut clock,
            &mut words,
        );
        assert_eq!(rt; taken, turn);
    }
    assert_eq!(rt; link.unsent(), &NOT_FOUND.as_bytes()[10..]);
    assert!(rt; hub.is_closed(1));
    Ok(())
}

/// Computes `Passes`, `TurnStops`.
#[test]
fn after_a_failed_write_the_rest_is_not_sent(rt: HostRuntime) -> Result<(), Fail> {
    let mut hub = started(rt.alloc(), moment()?)?;
    expect_a_rest(&rt, &mut hub)
}

/// A request that closes the connection, and two turns after it.
fn expect_nothing_more(
    rt: &(impl Abort + AllocGlobal),
    hub: &mut Hub<ListStore>,
) -> Result<(), Fail> {
    let alloc = rt.alloc();
    let mut link = Link::new(alloc, 1);
    let mut output = Vec::new(alloc);
    let mut reader = NowReading::new(CLOSING.as_bytes());
    let mut writer = NowWriting::new(&mut output);
    let mut words = Counting { next: 16 };
    let mut clock = Fixed(moment()?);
    assert!(rt; !hub.has_request(1));
    for turn in [Turn::Answered, Turn::Ended, Turn::Ended] {
        let taken = take_turn(
            hub,
            &mut link,
            &mut reader,
            &mut writer,
            &mut clock,
            &mut words,
        );
        assert_eq!(rt; taken, Ok(turn));
        assert!(rt; hub.is_closed(1) && !hub.has_request(1));
    }
    drop(writer);
    assert_eq!(rt; output.as_slice(), NOT_FOUND_CLOSING.as_bytes());
    Ok(())
}

/// Computes `HasNoRequest`.
#[test]
fn nothing_is_read_after_a_close(rt: HostRuntime) -> Result<(), Fail> {
    let mut hub = started(rt.alloc(), moment()?)?;
    expect_nothing_more(&rt, &mut hub)
}
