//! One connection of a server: a socket with its readiness, its turns, and the time that its peer has.

ghost use Rattle.std.specs.Prelude.{◌≡◌, ◌≢◌, ℕ, List, [], true, false, IsTrue, MatchResult};
ghost use Rattle.std.specs.Io.KnownBytes.{Appends, Consumes};
ghost use Rattle.broker_types.specs.declared.fault.Fault.TheVariants.{Memory};
ghost use Rattle.hub.specs.Links.{number_of, unsent};
ghost use Rattle.hub.specs.Supplies.{Supplies};
ghost use Rattle.hub.specs.Turning.{TurnsLink};
ghost use Rattle.hub.specs.declared.serve.ConnectionFault.TheVariants.{Broker};
ghost use Rattle.server.specs.Accepted.{IsServed, new_connection};
ghost use Rattle.server.specs.Numbers.{connection_of, KeepsEnds};
ghost use Rattle.server.specs.Patience.{is_farewell};
ghost use Rattle.server.specs.ServedHub.{is_skipped};
ghost use Rattle.server.specs.Serving.{TurnsPeer};

use crate::ends::{Reader, Writer};
use crate::notes::Traffic;
use crate::pulling::Pulling;
use crate::replying::Replying;
use crate::service::{Round, Service};
use crate::waiting::{Claim, Wait, claim_of, is_over, is_silent};
use broker::Store;
use broker_types::Fault;
use endpoints::{Failed, NowSink, NowSource};
use hub::{Clock, ConnectionFault, Hub, Link, Turn, WordSource, take_turn};
use mio::event::Event;
use status::Closing;
use std::alloc::Global;
use std::net::SocketAddr;

/// A connection: its ends, its link, what is known of its readiness, and what its peer is waited for. Times are
/// milliseconds since the start.
#[derive(Drop)]
pub(crate) struct Peer<R, W> {
    reader: Pulling<R>,
    writer: Replying<W>,
    link: Link,
    /// Whether a read may give something at once, as far as is known; so for a write.
    can_read: bool,
    can_write: bool,
    /// Whether the peer was reported to send no more.
    is_read_closed: bool,
    is_queued: bool,
    wait: Wait,
    /// When it began to be waited for so.
    since: u64,
    /// When the last byte came or went.
    last_byte: u64,
    /// The status of the reply that was made in the last turn.
    status: Option<u16>,
    /// The number of the fault of the last turn.
    fault: Option<u8>,
    /// What came since the last reply but for that one, and its length.
    traffic: Traffic,
}

/// What a turn left of a connection.
#[derive(Clone, Copy, Debug, PartialEq, Eq)]
pub(crate) enum Stay {
    /// It can go on at once.
    Ready,
    /// It waits for an event.
    Waits,
    /// It has ended, or had a fault.
    Gone,
}

impl<R: Reader, W: Writer> Peer<R, W> {
    /// A connection that was just accepted.
    pub(crate) fn new(
        alloc: Global,
        reader: R,
        writer: W,
        address: SocketAddr,
        conn: u64,
        now: u64,
    ) -> Peer<R, W>
        ensures number { number_of result.link ≡ conn }
        ensures connection { connection_of result ≡ new_connection (reader, writer) }
    {
        Peer {
            reader: Pulling::new(reader),
            writer: Replying::new(writer),
            link: Link::new(alloc, conn),
            can_read: false,
            can_write: true,
            is_read_closed: false,
            is_queued: false,
            wait: Wait::Progress,
            since: now,
            last_byte: now,
            status: None,
            fault: None,
            traffic: Traffic::none(address),
        }
    }

    // ---- readiness

    /// Takes down what was reported. Whether it is to be put into the queue now.
    pub(crate) fn enters_queue(&mut self, event: &Event) -> bool
        ensures number { number_of self.new.link ≡ number_of self.old.link }
        ensures same { connection_of self.new ≡ connection_of self.old }
    {
        let has_failed = event.is_error();
        self.can_read |= event.is_readable() || event.is_read_closed() || has_failed;
        self.can_write |= event.is_writable() || event.is_write_closed() || has_failed;
        self.is_read_closed |= event.is_read_closed() || has_failed;
        let enters = !self.is_queued;
        self.is_queued = true;
        enters
    }

    // ---- one turn

    /// One turn. A fault that does not end the whole ends this connection. It is in the queue then if it can go on.
    pub(crate) fn turn<S: Store, C: Clock, D: WordSource>(
        &mut self,
        service: &mut Service<S, C, D>,
        round: Round,
    ) -> Result<Stay, Fault>
        ensures { TurnsPeer S.seen R.left W.written
            (Supplies C.may_tell service.old.clock service.new.clock D.may_give service.old.words service.new.words)
            result self.old self.new service.old.hub service.new.hub }
    {
        let turned = self.go(service, round);
        self.is_queued = matches!(turned, Ok(Stay::Ready));
        turned
    }

    fn go<S: Store, C: Clock, D: WordSource>(
        &mut self,
        service: &mut Service<S, C, D>,
        round: Round,
    ) -> Result<Stay, Fault>
        ensures { TurnsPeer S.seen R.left W.written
            (Supplies C.may_tell service.old.clock service.new.clock D.may_give service.old.words service.new.words)
            result self.old self.new service.old.hub service.new.hub }
    {
        self.clear();
        if self.wait.is_farewell() {
            return Ok(self.drain());
        }
        if self.is_done(&service.hub, round) {
            return Ok(self.begin_farewell(round.now));
        }
        match self.take(service) {
            Ok(turn) => Ok(self.settle(&service.hub, turn, round)),
            Err(fault) => self.stop(fault),
        }
    }

    /// Forgets what the last turn has brought.
    fn clear(&mut self)
        ensures ends { KeepsEnds self.old self.new }
        ensures wait { self.new.wait ≡ self.old.wait }
    {
        self.fault = None;
        if self.status.take().is_some() {
            self.traffic = Traffic::none(self.traffic.peer);
        }
    }

    /// Takes a turn on its own link, between its own ends.
    fn take<S: Store, C: Clock, D: WordSource>(
        &mut self,
        service: &mut Service<S, C, D>,
    ) -> Result<Turn, ConnectionFault>
        ensures took { TurnsLink S.seen self.old.link self.new.link
            (Consumes (R.left self.old.reader.source) (R.left self.new.reader.source))
            (Appends (W.written self.old.writer.sink) (W.written self.new.writer.sink))
            (Supplies C.may_tell service.old.clock service.new.clock D.may_give service.old.words service.new.words)
            (IsTrue (R.has_failed self.new.reader.source)) (IsTrue (W.has_failed self.new.writer.sink)) result
            service.old.hub service.new.hub }
        ensures wait { self.new.wait ≡ self.old.wait }
    {
        self.reader.begin();
        self.writer.begin();
        let taken = take_turn(
            &mut service.hub,
            &mut self.link,
            &mut self.reader,
            &mut self.writer,
            &mut service.clock,
            &mut service.words,
        );
        self.traffic.count(self.reader.count(), self.writer.len());
        taken
    }

    /// What a fault leaves of it, or the fault if it ends the whole.
    fn stop(&mut self, fault: ConnectionFault) -> Result<Stay, Fault>
        ensures ends { KeepsEnds self.old self.new }
        ensures wait { self.new.wait ≡ self.old.wait }
        ensures unskipped { MatchResult result (λ _. is_skipped fault ≡ true)
            (λ left. (fault ≡ Broker left) × (left ≢ Memory)) }
    {
        self.fault = Some(fault.number());
        unskipped(fault)
    }

    /// The status of the reply that was made in the last turn, if one was, and as much of it was sent as there was room
    /// for.
    pub(crate) fn status(&self) -> Option<u16> {
        self.status
    }

    /// What came since the reply before, and the length of what was sent last.
    pub(crate) fn traffic(&self) -> Traffic {
        self.traffic
    }

    /// Takes down that a call would have waited now, or that a read gave fewer bytes than there was room for, and so
    /// has emptied the stream. A peer that sends no more is read until the end is met, since no event comes for that.
    fn unmark(&mut self, turn: Turn)
        ensures ends { KeepsEnds self.old self.new }
        ensures wait { self.new.wait ≡ self.old.wait }
    {
        self.status = made_in(turn, self.writer.status());
        // An end that this turn did not ask knows no more than what was reported since.
        let is_emptied = self.reader.has_pulled() && self.reader.source().is_emptied();
        if is_emptied && (turn == Turn::NeedsBytes || !self.is_read_closed) {
            self.can_read = false;
        }
        if self.writer.len() > 0 && self.writer.sink().is_full() {
            self.can_write = false;
        }
    }

    /// What the turn left.
    fn settle<S: Store>(&mut self, hub: &Hub<S>, turn: Turn, round: Round) -> Stay
        requires { is_farewell self.old.wait ≡ false }
        ensures ends { KeepsEnds self.old self.new }
        ensures ended { is_farewell self.new.wait ≡ true → unsent self.new.link ≡ [] }
    {
        self.unmark(turn);
        if turn == Turn::WentOn || turn == Turn::Answered {
            self.note(hub, turn == Turn::Answered, round.now);
        }
        if self.is_done(hub, round) {
            return self.begin_farewell(round.now);
        }
        if turn == Turn::Ended {
            return Stay::Gone;
        }
        if self.can_go(hub) {
            Stay::Ready
        } else {
            Stay::Waits
        }
    }

    /// Bytes came or went now, and a request was answered or not. Each reply begins the limits anew: a peer that sends
    /// the next request before it has the reply to the last is as quick as any.
    fn note<S: Store>(&mut self, hub: &Hub<S>, has_answered: bool, now: u64)
        requires { is_farewell self.old.wait ≡ false }
        ensures ends { KeepsEnds self.old self.new }
        ensures goes_on { is_farewell self.new.wait ≡ false }
    {
        self.last_byte = now;
        let wait = if self.link.is_sending() || hub.has_rest(self.link.conn()) {
            Wait::Progress
        } else {
            Wait::NextRequest
        };
        if has_answered || wait != self.wait {
            self.wait = wait;
            self.since = now;
        }
    }

    /// Whether a turn can do something, as far as is known.
    fn can_go<S: Store>(&self, hub: &Hub<S>) -> bool {
        if self.link.is_sending() {
            return self.can_write;
        }
        self.can_read || hub.has_request(self.link.conn())
    }

    /// Whether the last reply was sent: the connection is closed, or it is to end, and nothing of a further request was
    /// read.
    fn is_done<S: Store>(&self, hub: &Hub<S>, round: Round) -> bool
        ensures { result ≡ true → unsent self.now.link ≡ [] }
    {
        let conn = self.link.conn();
        let ends = round.leaves_by.is_some() && !hub.has_rest(conn);
        !self.link.is_sending() && (ends || hub.is_closed(conn))
    }

    /// Tries once to send what was not sent of the last reply.
    pub(crate) fn send_rest(&mut self)
        ensures { (after : List ℕ) × IsServed R.left W.written [] (connection_of self.old)
            (record (connection_of self.new) { unsent = after }) }
    {
        if self.wait.is_farewell() {
            return;
        }
        if !self.link.is_sending() {
            return;
        }
        let _ = self.writer.push_now(self.link.unsent());
    }

    // ---- the farewell

    /// The last reply was sent. The peer is told so, and what it still sends is taken for a quarter of a second at
    /// most: a stream that is closed with bytes unread is reset, and its peer can lose the reply (RFC 9112, section
    /// 9.6).
    fn begin_farewell(&mut self, now: u64) -> Stay
        ensures ends { KeepsEnds self.old self.new }
    {
        if self.writer.sink().end().is_err() {
            return Stay::Gone;
        }
        self.wait = Wait::Farewell;
        self.since = now;
        if self.can_read {
            Stay::Ready
        } else {
            Stay::Waits
        }
    }

    /// Takes what the peer still sends.
    fn drain(&mut self) -> Stay
        ensures passed { (passed : List ℕ)
            × Consumes (R.left self.old.reader.source) (R.left self.new.reader.source) passed }
        ensures others { (self.new.writer.sink ≡ self.old.writer.sink) × (self.new.link ≡ self.old.link)
            × (self.new.wait ≡ self.old.wait) }
    {
        let mut buffer = [0; 8_192];
        match self.reader.pull_now(&mut buffer) {
            Ok(Some(0)) => Stay::Gone,
            Ok(Some(_)) => Stay::Ready,
            Ok(None) if self.reader.source().is_emptied() => {
                self.can_read = false;
                Stay::Waits
            }
            Ok(None) => Stay::Ready,
            Err(Failed) => Stay::Gone,
        }
    }

    // ---- limits

    /// Why it is closed, if its time is over.
    pub(crate) fn over(&self, round: Round, is_pressed: bool) -> Option<Closing> {
        let silence = round.now.saturating_sub(self.last_byte);
        let age = round.now.saturating_sub(self.since);
        if matches!(round.leaves_by, Some(by) if by <= round.now) {
            return Some(Closing::Stopped);
        }
        if !is_over(self.wait, silence, age, is_pressed) {
            return None;
        }
        match self.wait {
            Wait::NextRequest => Some(Closing::Idle),
            Wait::Farewell => Some(self.end(round)),
            Wait::Progress if is_silent(silence) => Some(Closing::Silent),
            Wait::Progress => Some(Closing::Slow),
        }
    }

    /// Why it is closed, if its last turn has ended it.
    pub(crate) fn end(&self, round: Round) -> Closing {
        if self.fault.is_some() {
            Closing::Fault
        } else if round.leaves_by.is_some() {
            Closing::Stopped
        } else {
            Closing::Ended
        }
    }

    /// The number of the fault of the last turn.
    pub(crate) fn fault(&self) -> Option<u8> {
        self.fault
    }

    /// Whether it is in the queue.
    pub(crate) fn is_queued(&self) -> bool {
        self.is_queued
    }

    /// Whether it may have to leave its place to one that waits for it.
    pub(crate) fn claim(&self, now: u64) -> Claim {
        claim_of(self.wait, self.is_queued, now.saturating_sub(self.since))
    }
}

/// The status of the bytes that were sent last, if a reply was made in the turn.
fn made_in(turn: Turn, status: Option<u16>) -> Option<u16> {
    match turn {
        Turn::Answered => status,
        _ => None,
    }
}

/// What a fault leaves of its connection, or the fault if it ends the whole.
fn unskipped(fault: ConnectionFault) -> Result<Stay, Fault>
    ensures { MatchResult result (λ _. is_skipped fault ≡ true) (λ left. (fault ≡ Broker left) × (left ≢ Memory)) }
{
    match fault {
        ConnectionFault::Broker(fault) if fault != Fault::Memory => Err(fault),
        _ => Ok(Stay::Gone),
    }
}
