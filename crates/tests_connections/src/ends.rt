//! Sources and sinks over readers and writers that fail, that would wait, or that are interrupted.

use crate::failing_ends::FailingEnd;
use crate::turning::Stuttering;
use endpoints::{
    Failed, NowReading, NowSink, NowSource, NowWriting, Reading, Sink, Source, Writing,
};
use std::io;

/// A reader or a writer that is interrupted.
#[derive(Drop)]
struct Interrupted;

impl io::Read for Interrupted {
    fn read(&mut self, _: &mut [u8]) -> io::Result<usize> {
        Err(io::Error::from(io::ErrorKind::Interrupted))
    }
}

impl io::Write for Interrupted {
    fn write(&mut self, _: &[u8]) -> io::Result<usize> {
        Err(io::Error::from(io::ErrorKind::Interrupted))
    }

    fn flush(&mut self) -> io::Result<()> {
        Ok(())
    }
}

/// What a pull gives, and whether one has failed by then.
fn pulled<S: Source>(source: &mut S) -> (Option<usize>, bool) {
    let count = source.pull(&mut [0; 8]).ok();
    (count, source.failed())
}

#[test]
fn a_failed_pull_is_remembered(rt: HostRuntime) {
    let mut source = Reading::new(FailingEnd::new(b"abcdef".as_slice(), 2));
    assert!(rt; pulled(&mut source) == (Some(3), false));
    assert!(rt; pulled(&mut source) == (None, true));
    assert!(rt; pulled(&mut source) == (Some(3), true));
}

/// Whether a push fails, and whether one has failed by then.
fn pushed<S: Sink>(sink: &mut S) -> (bool, bool) {
    let fails = sink.push(b"abc").is_err();
    (fails, sink.failed())
}

/// What each of three pushes answers, where the second write fails.
fn pushed_thrice(output: &mut Vec<u8>) -> [(bool, bool); 3] {
    let mut sink = Writing::new(FailingEnd::new(output, 2));
    [pushed(&mut sink), pushed(&mut sink), pushed(&mut sink)]
}

#[test]
fn a_failed_push_is_remembered(rt: HostRuntime) {
    let mut output = Vec::new(rt.alloc());
    let pushed = pushed_thrice(&mut output);
    assert!(rt; pushed == [(false, false), (true, true), (false, true)]);
    assert!(rt; output.as_slice() == b"abcabc".as_slice());
}

/// What a pull gives now, and whether there is nothing to be pulled then.
fn pulled_now<R: io::Read>(
    source: &mut NowReading<R>,
    buffer: &mut [u8],
) -> (Result<Option<usize>, Failed>, bool) {
    let pulled = source.pull_now(buffer);
    (pulled, source.is_emptied())
}

#[test]
fn bytes_are_pulled_when_they_come(rt: HostRuntime) {
    let mut source = NowReading::new(Stuttering::new(b"abc".as_slice(), 2));
    let mut buffer = [b'.'; 2];
    for wanted in [
        (Ok(None), true),
        (Ok(Some(2)), false),
        (Ok(None), true),
        (Ok(Some(1)), true),
        (Ok(None), true),
        (Ok(Some(0)), true),
    ] {
        assert!(rt; pulled_now(&mut source, &mut buffer) == wanted);
    }
    assert!(rt; buffer == [b'c', b'b'] && !source.failed());
}

/// What a push takes now, and whether there is no room then.
fn pushed_now<W: io::Write>(
    sink: &mut NowWriting<W>,
    bytes: &[u8],
) -> (Result<usize, Failed>, bool) {
    let pushed = sink.push_now(bytes);
    (pushed, sink.is_full())
}

/// Whether a writer that would wait, and then takes two bytes, takes three bytes in four pushes.
fn takes_in_parts(output: &mut Vec<u8>) -> bool {
    let mut sink = NowWriting::new(Stuttering::new(output, 2));
    pushed_now(&mut sink, b"abc") == (Ok(0), true)
        && pushed_now(&mut sink, b"abc") == (Ok(2), false)
        && pushed_now(&mut sink, b"c") == (Ok(0), true)
        && pushed_now(&mut sink, b"c") == (Ok(1), false)
        && !sink.failed()
}

#[test]
fn bytes_are_pushed_when_there_is_room(rt: HostRuntime) {
    let mut output = Vec::new(rt.alloc());
    let are_taken = takes_in_parts(&mut output);
    assert!(rt; are_taken && output.as_slice() == b"abc".as_slice());
}

#[test]
fn an_interrupted_call_is_tried_again(rt: HostRuntime) {
    let mut source = NowReading::new(Interrupted);
    assert!(rt; pulled_now(&mut source, &mut [0; 8]) == (Ok(None), false) && !source.failed());
    let mut sink = NowWriting::new(Interrupted);
    assert!(rt; pushed_now(&mut sink, b"abc") == (Ok(0), false) && !sink.failed());
}

#[test]
fn other_errors_are_failures(rt: HostRuntime) {
    let mut source = NowReading::new(FailingEnd::new(b"abc".as_slice(), 1));
    assert!(rt; pulled_now(&mut source, &mut [0; 8]).0 == Err(Failed));
    assert!(rt; pulled_now(&mut source, &mut [0; 8]).0 == Ok(Some(3)) && source.failed());
}

/// Whether a push fails at the first write alone, which is remembered.
fn remembers_failed_write(output: &mut Vec<u8>) -> bool {
    let mut sink = NowWriting::new(FailingEnd::new(output, 1));
    pushed_now(&mut sink, b"abc").0 == Err(Failed)
        && pushed_now(&mut sink, b"abc").0 == Ok(3)
        && sink.failed()
}

#[test]
fn a_failed_write_is_remembered(rt: HostRuntime) {
    let mut output = Vec::new(rt.alloc());
    let is_remembered = remembers_failed_write(&mut output);
    assert!(rt; is_remembered && output.as_slice() == b"abc".as_slice());
}
