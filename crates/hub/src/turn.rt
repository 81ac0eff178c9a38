//! Turns: steps on a connection that never wait, so that one thread can serve many.

ghost use Rattle.std.specs.Prelude.{◌≡◌, ◌≢◌, ◌<◌, ◌≤◌, ◌⊎◌, [], length, Ok, IfOk, IsTrue, MatchResult, OnOk};
ghost use Rattle.std.specs.Io.KnownBytes.{Appends, Consumes, IsAtEnd};
ghost use Rattle.hub.specs.Links.{number_of, unsent};
ghost use Rattle.hub.specs.Representing.{ConnectionsRepresent};
ghost use Rattle.hub.specs.ServedConnection.{HasEnded, IsAnswered, longest_piece};
ghost use Rattle.hub.specs.Supplies.{Supplies};
ghost use Rattle.hub.specs.Turning.{Passes, TurnsLink};
ghost use Rattle.hub.specs.World.{Connections};

use crate::hub::Hub;
use crate::link::Link;
use crate::serve::{Clock, ConnectionFault, WordSource};
use broker::Store;
use broker_types::Fault;
use endpoints::{Failed, NowSink, NowSource};

/// How many bytes are read at once at most.
const PIECE: usize = 8_192;

/// How a turn ended.
#[derive(Clone, Copy, Debug, PartialEq, Eq)]
pub enum Turn {
    /// Bytes that waited were sent, or an event was answered without a reply. Another turn may do more at once.
    WentOn,
    /// A request was answered. Its reply was sent, or a part of it waits.
    Answered,
    /// No byte was read: none is there now, or the read was interrupted. The reader can tell which.
    NeedsBytes,
    /// No byte was sent: there is no room now, or the write was interrupted. The writer can tell which.
    NeedsRoom,
    /// The input has ended, or the connection is closed.
    Ended,
}

/// Takes one turn on a connection whose ends do not wait: it sends what was not sent of the last reply; or, if all was
/// sent, it feeds one event, a piece of at most 8,192 bytes or an empty one if a request waits already, and sends what
/// there is room for of the reply. After a fault the connection is closed, or still not seen.
///
/// **The peer receives exactly the reply bytes of the broker, however they are cut**: the bytes that were not sent
/// before, and then the reply, are what was sent, and then the bytes that are not sent now; also after a fault. What
/// was read is the piece of the event. For the event the clock is asked once and words are drawn once; without an event
/// neither is.
pub fn take_turn<S: Store, R: NowSource, W: NowSink, C: Clock, D: WordSource>(
    hub: &mut Hub<S>,
    link: &mut Link,
    reader: &mut R,
    writer: &mut W,
    clock: &mut C,
    words: &mut D,
) -> Result<Turn, ConnectionFault>
    ensures took { TurnsLink S.seen link.old link.new (Consumes (R.left reader.old) (R.left reader.new))
        (Appends (W.written writer.old) (W.written writer.new))
        (Supplies C.may_tell clock.old clock.new D.may_give words.old words.new)
        (IsTrue (R.has_failed reader.new)) (IsTrue (W.has_failed writer.new)) result hub.old hub.new }

    // All was sent and no request waits for its reply where bytes are needed; at the end, the connection is closed, or
    // the input has ended and the next request needs more bytes. Something waits to be sent where room is needed.
    ensures needs { result ≡ Ok Turn.NeedsBytes → (unsent link.new ≡ [])
        × ((all : Connections) → ConnectionsRepresent hub.new all → IsAnswered all (number_of link.new)) }
    ensures ended { result ≡ Ok Turn.Ended → (unsent link.new ≡ [])
        × ((all : Connections) → ConnectionsRepresent hub.new all
        → HasEnded (R.left reader.new) all (number_of link.new)) }
    ensures room { result ≡ Ok Turn.NeedsRoom → unsent link.new ≢ [] }

    // No failure of an end is passed over.
    ensures heard { OnOk result ((R.has_failed reader.new ≡ R.has_failed reader.old)
        × (W.has_failed writer.new ≡ W.has_failed writer.old)) }
{
    if link.is_sending() {
        return match send_rest(link, writer) {
            Ok(turn) => Ok(turn),
            Err(Failed) => {
                hub.close(link.conn());
                Err(ConnectionFault::Write)
            }
        };
    }
    if hub.is_closed(link.conn()) {
        return Ok(Turn::Ended);
    }
    if hub.has_request(link.conn()) {
        return feed_piece(hub, link, &[], writer, clock, words);
    }
    read_piece(hub, link, reader, writer, clock, words)
}

/// Sends as much as there is room for of what was not sent.
fn send_rest<W: NowSink>(link: &mut Link, writer: &mut W) -> Result<Turn, Failed>
    ensures sent { Passes (Appends (W.written writer.old) (W.written writer.new))
        (unsent link.old) (unsent link.new) [] }
    ensures same { number_of link.new ≡ number_of link.old }
    ensures turns { MatchResult result
        (λ turn. ((turn ≡ Turn.WentOn) × (length (unsent link.new) < length (unsent link.old)))
        ⊎ (turn ≡ Turn.NeedsRoom)) (λ _. IsTrue (W.has_failed writer.new)) }
    ensures room { IfOk result (λ turn. turn ≡ Turn.NeedsRoom → unsent link.new ≡ unsent link.old) }
    ensures heard { OnOk result (W.has_failed writer.new ≡ W.has_failed writer.old) }
{
    match writer.push_now(link.unsent()) {
        Ok(0) => Ok(Turn::NeedsRoom),
        Ok(count) => {
            link.advance(count);
            Ok(Turn::WentOn)
        }
        Err(Failed) => Err(Failed),
    }
}

/// Feeds the piece, and sends as much of the reply as there is room for.
fn feed_piece<S: Store, W: NowSink, C: Clock, D: WordSource>(
    hub: &mut Hub<S>,
    link: &mut Link,
    piece: &[u8],
    writer: &mut W,
    clock: &mut C,
    words: &mut D,
) -> Result<Turn, ConnectionFault>
    requires done { unsent link.old ≡ [] }
    requires short { length piece.now ≤ longest_piece }
    ensures took { TurnsLink S.seen link.old link.new (λ read. read ≡ piece.now)
        (Appends (W.written writer.old) (W.written writer.new))
        (Supplies C.may_tell clock.old clock.new D.may_give words.old words.new)
        ⊥ (IsTrue (W.has_failed writer.new)) result hub.old hub.new }
    ensures room { result ≢ Ok Turn.NeedsRoom }
    ensures turns { IfOk result (λ turn. (turn ≡ Turn.WentOn) ⊎ (turn ≡ Turn.Answered)) }
    ensures heard { OnOk result (W.has_failed writer.new ≡ W.has_failed writer.old) }
{
    let moment = clock.now();
    let drawn = words.words();
    let conn = link.conn();
    let reply = hub.feed(conn, piece, moment, &drawn)?;
    link.set_reply(reply);
    if !link.is_sending() {
        return Ok(Turn::WentOn);
    }
    match send_rest(link, writer) {
        Ok(_) => Ok(Turn::Answered),
        Err(Failed) => {
            hub.close(conn);
            Err(ConnectionFault::Write)
        }
    }
}

/// Reads one piece, and feeds it.
fn read_piece<S: Store, R: NowSource, W: NowSink, C: Clock, D: WordSource>(
    hub: &mut Hub<S>,
    link: &mut Link,
    reader: &mut R,
    writer: &mut W,
    clock: &mut C,
    words: &mut D,
) -> Result<Turn, ConnectionFault>
    requires done { unsent link.old ≡ [] }
    ensures took { TurnsLink S.seen link.old link.new (Consumes (R.left reader.old) (R.left reader.new))
        (Appends (W.written writer.old) (W.written writer.new))
        (Supplies C.may_tell clock.old clock.new D.may_give words.old words.new)
        (IsTrue (R.has_failed reader.new)) (IsTrue (W.has_failed writer.new)) result hub.old hub.new }
    ensures needs { result ≡ Ok Turn.NeedsBytes → (unsent link.new ≡ []) × (hub.new ≡ hub.old) }
    ensures ended { result ≡ Ok Turn.Ended → (unsent link.new ≡ []) × (hub.new ≡ hub.old)
        × IsAtEnd (R.left reader.new) }
    ensures room { result ≢ Ok Turn.NeedsRoom }
    ensures heard { OnOk result ((R.has_failed reader.new ≡ R.has_failed reader.old)
        × (W.has_failed writer.new ≡ W.has_failed writer.old)) }
{
    let mut buffer = [0; PIECE];
    match reader.pull_now(&mut buffer) {
        Ok(Some(0)) => Ok(Turn::Ended),
        Ok(Some(count)) => feed_piece(hub, link, &buffer[..count], writer, clock, words),
        Ok(None) => Ok(Turn::NeedsBytes),
        Err(Failed) => {
            hub.close(link.conn());
            Err(ConnectionFault::Read)
        }
    }
}
