//! One request sent and its reply read, up to what is printed and the exit status.

ghost use Rattle.std.specs.Prelude.{◌≡◌, ◌⊎◌, IsTrue, Result};
ghost use Rattle.broker_types.specs.Words.{Appends};
ghost use Rattle.api_client.specs.Exchanges.{IsAnswer, IsReport, IsTold, IsWritten, failure_status};
ghost use Rattle.api_client.specs.declared.reply.Reply.{Reply};
ghost use Rattle.api_client.specs.declared.failure.Failure.{Failure};

use crate::command::Command;
use crate::failure::Failure;
use crate::manner::Manner;
use crate::reply::{Reply, ReplyError};
use crate::replying::reply_of;
use crate::requesting::request_of;
use crate::shown::{Shown, shown_of};
use endpoints::{Sink, Source};
use std::alloc::Global;

/// A connection with a server.
#[derive(Drop)]
pub struct Peer<R, P> {
    /// Where the server's bytes are read.
    pub reader: R,
    /// Where bytes are written to the server.
    pub writer: P,
}

/// Sends the request of a command, reads the reply, and prints of it on `out` and `err` what the manner asks for; or
/// tells on `err` why there is none. It answers the exit status.
pub fn exchange<R: Source, P: Sink, W: Sink, E: Sink>(
    alloc: Global,
    command: &Command<'_>,
    manner: &Manner<'_>,
    peer: &mut Peer<R, P>,
    out: &mut W,
    err: &mut E,
) -> u8
    ensures { (answer : Result Reply Failure)
        × IsAnswer command.now (P.written peer.old.writer) (P.written peer.new.writer)
        (P.has_failed peer.new.writer) (R.left peer.old.reader) (R.has_failed peer.new.reader) answer
        × IsReport manner.now answer (W.written out.old) (W.written out.new) (W.has_failed out.new)
        (E.written err.old) (E.written err.new) (E.has_failed err.new) result }
{
    let answer = answer_of(alloc, command, peer);
    report(alloc, manner, answer, out, err)
}

/// The reply of the server to a command, or why there is none.
pub fn answer_of<R: Source, P: Sink>(
    alloc: Global,
    command: &Command<'_>,
    peer: &mut Peer<R, P>,
) -> Result<Reply, Failure>
    ensures { IsAnswer command.now (P.written peer.old.writer) (P.written peer.new.writer)
        (P.has_failed peer.new.writer) (R.left peer.old.reader) (R.has_failed peer.new.reader) result }
{
    let Ok(bytes) = request_of(alloc, command) else {
        return Err(Failure::Memory);
    };
    if peer.writer.push(bytes.as_slice()).is_err() {
        return Err(Failure::Unwritten);
    }
    match reply_of(alloc, &mut peer.reader) {
        Ok(reply) => Ok(reply),
        Err(ReplyError::BadReply) => Err(Failure::BadReply),
        Err(ReplyError::Fault(_)) => Err(Failure::Memory),
    }
}

/// Prints of an answer what the manner asks for, and answers the exit status.
pub fn report<W: Sink, E: Sink>(
    alloc: Global,
    manner: &Manner<'_>,
    answer: Result<Reply, Failure>,
    out: &mut W,
    err: &mut E,
) -> u8
    ensures { IsReport manner.now answer (W.written out.old) (W.written out.new) (W.has_failed out.new)
        (E.written err.old) (E.written err.new) (E.has_failed err.new) result }
{
    let reply = match answer {
        Ok(reply) => reply,
        Err(failure) => {
            let _ = tell(failure, err);
            return failure_status(manner.exit_codes, failure);
        }
    };
    match shown_of(alloc, manner, &reply) {
        Ok(shown) => print(&shown, out, err),
        Err(_) => tell(Failure::Memory, err),
    }
}

/// Prints what is shown, and answers the exit status.
fn print<W: Sink, E: Sink>(shown: &Shown<'_>, out: &mut W, err: &mut E) -> u8
    ensures { (Appends (W.written out.old) (W.written out.new) shown.now.out
        × IsWritten shown.now.err (E.written err.old) (E.written err.new) (E.has_failed err.new)
        × (result ≡ shown.now.status))
        ⊎ (IsTrue (W.has_failed out.new)
        × IsTold Failure.Unwritten (E.written err.old) (E.written err.new) (E.has_failed err.new) × (result ≡ 1)) }
{
    if out.push(shown.out.as_slice()).is_err() {
        return tell(Failure::Unwritten, err);
    }
    let _ = err.push(shown.err.as_slice());
    shown.status
}

/// The exit status after a failure.
fn failure_status(exit_codes: bool, failure: Failure) -> u8
    ensures { result ≡ failure_status exit_codes failure }
{
    match failure {
        Failure::Unreached if exit_codes => 3,
        _ => 1,
    }
}

/// Tells a failure in a line, unless it cannot be written, and answers the exit status, 1.
pub fn tell<E: Sink>(failure: Failure, err: &mut E) -> u8
    ensures told { IsTold failure (E.written err.old) (E.written err.new) (E.has_failed err.new) }
    ensures status { result ≡ 1 }
{
    let _ = err.push(failure.line().as_bytes());
    1
}
