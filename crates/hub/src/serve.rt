//! One connection served up to its end, and where the moments and the words of its events are from.

ghost use Rattle.std.specs.Prelude.{◌≡◌, ◌⊎◌, ◌+◌, ◌<◌, ◌≤◌, [], false, true, length, Ok, IfOk, OnOk, IsTrue};
ghost use Rattle.std.specs.Io.KnownBytes.{Appends, Consumes};
ghost use Rattle.hub.specs.Representing.{ConnectionsRepresent, hub_waiting};
ghost use Rattle.hub.specs.ServedConnection.{Serves, HasEnded, IsAnswered, longest_piece, most_reads};
ghost use Rattle.hub.specs.Supplies.{Supplies};
ghost use Rattle.hub.specs.World.{Connections};

use crate::hub::Hub;
use broker::Store;
use broker_types::{Fault, Moment, Words};
use endpoints::{Failed, Sink, Source};
use std::fmt;

/// How many bytes are read at once at most.
const PIECE: usize = 8_192;

/// How many reads one connection gets.
const READS: u64 = 4_294_967_296;

/// Where moments come from. Which they are is for each clock to say; by default it says nothing.
pub trait Clock {
    ghost use Rattle.std.specs.Prelude.{ℕ, ⊤};

    /// Holds of the clock before a call, the moment that it told, and the clock after it.
    ghost may_tell: { Self → ℕ → Self → Type 0 } = { λ _ _ _. ⊤ };

    /// The moment of the next event. It takes no memory.
    fn now(&mut self) -> Moment
        ensures { may_tell self.old result self.new };
}

/// Where the words of events come from. Which they are is for each source to say; by default it says nothing.
pub trait WordSource {
    ghost use Rattle.std.specs.Prelude.{⊤};
    ghost use Rattle.broker_types.specs.declared.words.Words.{Words};

    /// Holds of the source before a call, the words that it gave, and the source after it.
    ghost may_give: { Self → Words → Self → Type 0 } = { λ _ _ _. ⊤ };

    /// The words of the next event. It takes no memory.
    fn words(&mut self) -> Words
        ensures { may_give self.old result self.new };
}

/// Why a connection was not served to its end.
#[derive(Clone, Copy, Debug, PartialEq, Eq)]
pub enum ConnectionFault {
    /// A fault of the broker.
    Broker(Fault),
    /// A read failed, or there were 4,294,967,296 of them.
    Read,
    /// A write failed.
    Write,
}

impl ConnectionFault {
    ghost use Rattle.std.specs.Prelude.{◌≡◌};
    ghost use Rattle.hub.specs.ServedConnection.{connection_fault_number};

    /// The number under which programs report the fault.
    pub fn number(self) -> u8
        ensures { result ≡ connection_fault_number self }
    {
        match self {
            ConnectionFault::Broker(fault) => fault.number(),
            ConnectionFault::Read => 5,
            ConnectionFault::Write => 6,
        }
    }
}

impl fmt::Display for ConnectionFault {
    fn fmt<W: fmt::Write>(&self, f: &mut fmt::Formatter<W>) -> fmt::Result {
        match self {
            ConnectionFault::Broker(fault) => write!(f, "{fault}"),
            ConnectionFault::Read => write!(f, "a read failed"),
            ConnectionFault::Write => write!(f, "a write failed"),
        }
    }
}

impl std::error::Error for ConnectionFault {}

impl From<Fault> for ConnectionFault {
    ghost use Rattle.std.specs.Prelude.{◌≡◌};
    ghost use Rattle.hub.specs.declared.serve.ConnectionFault.TheVariants.{Broker};

    ghost from_gives = { λ fault broken. broken ≡ Broker fault };

    fn from(fault: Fault) -> ConnectionFault {
        ConnectionFault::Broker(fault)
    }
}

/// Serves a connection: reads pieces of at most 8,192 bytes, feeds each, and then empty pieces while
/// replies come, and writes the replies. It ends at the end of the input, or when the connection is
/// closed. After a fault the connection is closed, or still not seen if opening it found no memory or the
/// first read failed; the broker keeps what was answered.
///
/// **The peer receives exactly the reply bytes of the broker**: there are events of this connection whose
/// pieces joined are what was read, and whose replies joined are what was written. For each world that the
/// hub represents they ran from this world, and the hub then represents the world after them, as long as
/// the storage returns what was written. After a fault the same holds of the events before it.
///
/// **Each event has its own moment and its own words**: for each the clock is asked once and words are drawn once, in
/// the order of the events, and not otherwise. An event that had a fault is one of them.
pub fn serve_connection<S: Store, R: Source, W: Sink, C: Clock, D: WordSource>(
    hub: &mut Hub<S>,
    conn: u64,
    reader: &mut R,
    writer: &mut W,
    clock: &mut C,
    words: &mut D,
) -> Result<(), ConnectionFault>
    ensures served { Serves S.seen conn (Consumes (R.left reader.old) (R.left reader.new))
        (Appends (W.written writer.old) (W.written writer.new))
        (Supplies C.may_tell clock.old clock.new D.may_give words.old words.new)
        (IsTrue (R.has_failed reader.new) ⊎ (R.pulls reader.new ≡ R.pulls reader.old + most_reads))
        (IsTrue (W.has_failed writer.new)) result hub.old hub.new }

    // The connection is closed, or the input has ended and its next request needs more bytes.
    ensures ended { OnOk result ((all : Connections) → ConnectionsRepresent hub.new all
        → HasEnded (R.left reader.new) all conn) }
{
    if hub.is_closed(conn) {
        return Ok(());
    }
    for _ in 0..READS {
        if serve_piece(hub, conn, reader, writer, clock, words)? {
            return Ok(());
        }
    }
    hub.close(conn);
    Err(ConnectionFault::Read)
}

/// Reads one piece, and answers what it completes. Whether the connection has ended.
fn serve_piece<S: Store, R: Source, W: Sink, C: Clock, D: WordSource>(
    hub: &mut Hub<S>,
    conn: u64,
    reader: &mut R,
    writer: &mut W,
    clock: &mut C,
    words: &mut D,
) -> Result<bool, ConnectionFault>
    ensures served { Serves S.seen conn (Consumes (R.left reader.old) (R.left reader.new))
        (Appends (W.written writer.old) (W.written writer.new))
        (Supplies C.may_tell clock.old clock.new D.may_give words.old words.new)
        (IsTrue (R.has_failed reader.new)) (IsTrue (W.has_failed writer.new)) result hub.old hub.new }
    ensures ended { IfOk result (λ ended. ended ≡ true → (all : Connections) → ConnectionsRepresent hub.new all
        → HasEnded (R.left reader.new) all conn) }
    ensures counted { OnOk result (R.pulls reader.new ≡ R.pulls reader.old + 1) }
{
    let mut buffer = [0; PIECE];
    let Ok(count) = reader.pull(&mut buffer) else {
        hub.close(conn);
        return Err(ConnectionFault::Read);
    };
    answer(hub, conn, &buffer[..count], writer, clock, words)?;
    Ok(count == 0 || hub.is_closed(conn))
}

/// Feeds the piece, and then empty pieces while replies come.
fn answer<S: Store, W: Sink, C: Clock, D: WordSource>(
    hub: &mut Hub<S>,
    conn: u64,
    piece: &[u8],
    writer: &mut W,
    clock: &mut C,
    words: &mut D,
) -> Result<(), ConnectionFault>
    requires { length piece.now ≤ longest_piece }
    ensures served { Serves S.seen conn (λ read. read ≡ piece.now)
        (Appends (W.written writer.old) (W.written writer.new))
        (Supplies C.may_tell clock.old clock.new D.may_give words.old words.new)
        ⊥ (IsTrue (W.has_failed writer.new)) result hub.old hub.new }
    ensures answered { OnOk result ((all : Connections) → ConnectionsRepresent hub.new all
        → IsAnswered all conn) }
{
    let mut more = answer_one(hub, conn, piece, writer, clock, words)?;
    while more {
        more = answer_one(hub, conn, &[], writer, clock, words)?;
    }
    Ok(())
}

/// Feeds the piece, and writes the reply. Whether there was one.
fn answer_one<S: Store, W: Sink, C: Clock, D: WordSource>(
    hub: &mut Hub<S>,
    conn: u64,
    piece: &[u8],
    writer: &mut W,
    clock: &mut C,
    words: &mut D,
) -> Result<bool, ConnectionFault>
    requires { length piece.now ≤ longest_piece }
    ensures served { Serves S.seen conn (λ read. read ≡ piece.now)
        (Appends (W.written writer.old) (W.written writer.new))
        (Supplies C.may_tell clock.old clock.new D.may_give words.old words.new)
        ⊥ (IsTrue (W.has_failed writer.new)) result hub.old hub.new }
    ensures answered { IfOk result (λ more. more ≡ false → (all : Connections) → ConnectionsRepresent hub.new all
        → IsAnswered all conn) }
    ensures falls { piece.now ≡ [] → result ≡ Ok true → hub_waiting hub.new conn < hub_waiting hub.old conn }
{
    let moment = clock.now();
    let drawn = words.words();
    let bytes = hub.feed(conn, piece, moment, &drawn)?;
    if bytes.is_empty() {
        return Ok(false);
    }
    match writer.push(bytes.as_slice()) {
        Ok(()) => Ok(true),
        Err(Failed) => {
            hub.close(conn);
            Err(ConnectionFault::Write)
        }
    }
}
