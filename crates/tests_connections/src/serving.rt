//! Many connections in memory that are served at once: slow ones, ones that end early, ones that fail, and thousands.

use crate::exchange::{CLOSING, Counting, FOUND, Fixed, READ, WRITE, WRITTEN, moment};
use crate::memory::{Manner, MemoryListener, Output, QUICK, Stream};
use crate::streams::{Broken, NOT_FOUND, NOT_FOUND_CLOSING, started};
use broker::{ListStore, Store};
use broker_types::Fault;
use hub::Hub;
use mio::Poll;
use server::{Listening, Service, serve};
use std::alloc::Global;
use std::cell::Cell;
use std::rc::Rc;
use std::rt::HostRuntime;
use std::test::Fail;

/// A request to which the reply has no identifier.
const OUTSIDE: &str = "GET /b HTTP/1.1\r\nHost: b\r\n\r\n";

/// Ends that move three bytes at once, at every other call.
const SLOW: Manner = Manner {
    most: 3,
    is_slow: true,
    calls: u32::MAX,
};

/// An output to which nothing was sent.
fn output(alloc: Global) -> Result<Output, Fail> {
    Ok(Rc::new(alloc, Cell::new(Vec::new(alloc)))?)
}

/// Serves these streams, so many at once, until all have ended, and says how that ended.
fn serve_all<S: Store + Drop>(
    rt: &HostRuntime,
    hub: Hub<S>,
    streams: Vec<Stream<'_>>,
    at_once: u32,
) -> Result<Result<(), Fault>, Fail> {
    let connections = u32::try_from(streams.len())?;
    let poll = Poll::new(rt)?;
    let listener = MemoryListener::new(rt.alloc(), poll.registry(), streams)?;
    let listening = Listening::over(rt, poll, listener, connections, at_once)?;
    let mut service = Service {
        hub,
        clock: Fixed(moment()?),
        words: Counting { next: 16 },
    };
    Ok(serve(rt, &mut service, listening))
}

/// What was sent on the streams that these describe, in their order, and how the serving ended.
fn sent(
    rt: &HostRuntime,
    hub: Hub<impl Store + Drop>,
    scripts: &[(&str, Manner)],
    at_once: u32,
) -> Result<(Vec<Vec<u8>>, Result<(), Fault>), Fail> {
    let alloc = rt.alloc();
    let mut outputs = Vec::new(alloc);
    let mut streams = Vec::new(alloc);
    for (input, manner) in scripts.iter().rev() {
        let output = output(alloc)?;
        streams.push(Stream::new(input, *manner, Rc::clone(&output)?))?;
        outputs.push(output)?;
    }
    let served = serve_all(rt, hub, streams, at_once)?;
    let mut all = Vec::new(alloc);
    for output in outputs.iter().rev() {
        all.push(output.replace(Vec::new(alloc)))?;
    }
    Ok((all, served))
}

/// The hub of a broker that was started.
fn hub(rt: &HostRuntime) -> Result<Hub<ListStore>, Fail> {
    started(rt.alloc(), moment()?)
}

#[test]
fn a_stream_receives_its_replies(rt: HostRuntime) -> Result<(), Fail> {
    let input = format!(in rt.alloc(); "{WRITE}{READ}")?;
    let (outputs, served) = sent(&rt, hub(&rt)?, &[(&input, QUICK)], 1)?;
    assert_eq!(rt; served, Ok(()));
    let wanted = format!(in rt.alloc(); "{WRITTEN}{FOUND}")?;
    assert_eq!(rt; outputs[0].as_slice(), wanted.as_bytes());
    Ok(())
}

/// Slow peers beside quick ones: each receives its own replies, whole. Of a request without its end there is none.
/// Where others wait for a place, no reply takes so many rounds that its peer would lose it.
#[test]
fn slow_peers_receive_their_replies(rt: HostRuntime) -> Result<(), Fail> {
    let alloc = rt.alloc();
    let twice = format!(in alloc; "{OUTSIDE}{OUTSIDE}")?;
    let unfinished = format!(in alloc; "{OUTSIDE}GET /b HTT")?;
    let closing = format!(in alloc; "{CLOSING}{OUTSIDE}")?;
    let both = format!(in alloc; "{NOT_FOUND}{NOT_FOUND}")?;
    let wanted = [both.as_str(), NOT_FOUND, NOT_FOUND_CLOSING, "", WRITTEN];
    for (at_once, most) in [(1, 32), (2, 32), (8, 3)] {
        let slow = Manner { most, ..SLOW };
        let scripts = [
            (twice.as_str(), slow),
            (unfinished.as_str(), QUICK),
            (closing.as_str(), slow),
            ("", slow),
            (WRITE, slow),
        ];
        let (outputs, served) = sent(&rt, hub(&rt)?, &scripts, at_once)?;
        assert_eq!(rt; served, Ok(()));
        for (i, wanted) in wanted.iter().enumerate() {
            assert_eq!(rt;
                outputs[i].as_slice(),
                wanted.as_bytes(),
                "stream {i} of {at_once}"
            );
        }
    }
    Ok(())
}

/// A stream whose ends fail at their first call, or after some, is closed, and what was sent on it is the beginning of
/// its replies. The others receive theirs.
#[test]
fn a_failure_ends_its_stream_alone(rt: HostRuntime) -> Result<(), Fail> {
    for calls in 0..40 {
        let failing = Manner { calls, ..SLOW };
        let scripts = [(OUTSIDE, SLOW), (OUTSIDE, failing), (OUTSIDE, QUICK)];
        let (outputs, served) = sent(&rt, hub(&rt)?, &scripts, 3)?;
        assert_eq!(rt; served, Ok(()));
        assert_eq!(rt; outputs[0].as_slice(), NOT_FOUND.as_bytes());
        assert!(rt;
            NOT_FOUND.as_bytes().starts_with(&outputs[1]),
            "after {calls} calls"
        );
        assert!(rt; outputs[1].len() < NOT_FOUND.len());
        assert_eq!(rt; outputs[2].as_slice(), NOT_FOUND.as_bytes());
    }
    Ok(())
}

/// A storage that fails ends all: the second stream's request is whole in its fourth turn. On the first, four parts of
/// its reply were sent by then, and the next is tried once.
#[test]
fn a_failed_storage_ends_the_serving(rt: HostRuntime) -> Result<(), Fail> {
    let alloc = rt.alloc();
    let manner = Manner { most: 28, ..QUICK };
    let scripts = [(OUTSIDE, manner), (READ, manner)];
    let (outputs, served) = sent(&rt, Hub::new(alloc, Broken { failed: false }), &scripts, 2)?;
    assert_eq!(rt; served, Err(Fault::Storage));
    assert_eq!(rt; outputs[0].as_slice(), &NOT_FOUND.as_bytes()[..140]);
    assert!(rt; outputs[1].is_empty());
    Ok(())
}

#[test]
fn thousands_of_streams(rt: HostRuntime) -> Result<(), Fail> {
    let mut scripts = Vec::new(rt.alloc());
    let slow = Manner { most: 64, ..SLOW };
    for i in 0..3_000 {
        scripts.push((CLOSING, if i % 3 == 0 { slow } else { QUICK }))?;
    }
    let (outputs, served) = sent(&rt, hub(&rt)?, scripts.as_slice(), 64)?;
    assert_eq!(rt; served, Ok(()));
    assert_eq!(rt; outputs.len(), 3_000);
    for (i, output) in outputs.iter().enumerate() {
        assert_eq!(rt;
            output.as_slice(),
            NOT_FOUND_CLOSING.as_bytes(),
            "stream {i}"
        );
    }
    Ok(())
}
