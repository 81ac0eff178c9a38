//! Replays run over a database in memory, with how they end.

ghost use Rattle.std.specs.Prelude.{◌≡◌, ◌⊎◌, ◌+◌, ℕ, List, [], Some, IsTrue, ⊤};
ghost use Rattle.std.specs.Io.KnownBytes.{Appends};
ghost use Rattle.std.specs.List.{concat};
ghost use Rattle.std.specs.FinMap as map;
ghost use Rattle.records.specs.Kept.{IsHonestStore};
ghost use Rattle.broker_sql.specs.SqlKept.{ReturnsWhatWasWritten, sql_kept};
ghost use Rattle.hub.specs.Representing.{HubRepresents, hub_store};
ghost use Rattle.hub.specs.Runs.{bytes_of};
ghost use Rattle.hub.specs.World.{World};
ghost use Rattle.replay.specs.Exits.{EndsBy, EndsByRead, HasEqualWords};
ghost use Rattle.replay.specs.Lines.{lines_of, told_in};
ghost use Rattle.replay.specs.Replays.{IsUnfaulted, Ran, Replayed, Replays, Stopped, StoppedRun};
ghost use Rattle.replay.specs.Replays.{exit_of, told};
ghost use Rattle.replay.specs.declared.replaying.Exit.TheVariants.{Faulted};

use crate::input::{Unread, read_to_end};
use crate::script::{Script, read_script};
use broker::Store;
use broker_sql::SqlStore;
use broker_types::Fault;
use endpoints::{Failed, Sink, Source};
use hub::{Hub, run};
use sqlite::Alter;
use std::alloc::Global;

/// How a replay ended.
#[derive(Clone, Copy, Debug, PartialEq, Eq)]
pub enum Exit {
    /// All lines were run.
    Done,
    /// Memory ran out (1), the storage failed (2), a row is damaged (3), the store cannot be started (4), or
    /// a read (5) or a write (6) failed.
    Faulted(u8),
    /// The line of this number, counted from 1, is bad; those before it were run.
    BadLine(u64),
}

impl From<Fault> for Exit {
    ghost use Rattle.std.specs.Prelude.{◌≡◌};
    ghost use Rattle.broker_types.specs.Fault.{fault_number};
    ghost use Rattle.replay.specs.declared.replaying.Exit.TheVariants.{Faulted};

    ghost from_gives = { λ fault exit. exit ≡ Faulted (fault_number fault) };

    fn from(fault: Fault) -> Exit {
        Exit::Faulted(fault.number())
    }
}

/// Runs the lines of the source over a broker in a database in memory, up to the first that is bad, and writes the
/// bytes of their replies. A fault goes before a bad line; unless a write failed, the whole replies to
/// some number of the first events are written then, and nothing else.
pub fn replay<R: Source, W: Sink>(alloc: Global, reader: &mut R, writer: &mut W) -> Exit
    ensures replays { (input : List ℕ) → R.left reader.old ≡ Some input → IsUnfaulted result
        → Replays (told_in (lines_of input)) (W.written writer.old) (W.written writer.new) result }

    // After a fault, but one of writing, what was written is the whole replies to some number of the first events; none
    // if the store could not be started, or a read failed.
    ensures stopped { (input : List ℕ) → R.left reader.old ≡ Some input
        → Stopped (told_in (lines_of input)) (W.written writer.old) (W.written writer.new) result }
    ensures nothing { (result ≡ Faulted 4) ⊎ (result ≡ Faulted 5)
        → Appends (W.written writer.old) (W.written writer.new) [] }

    // Memory ran out, or the database in memory failed. Fault 4 comes only if the start's words 1 and 2 are equal, a
    // fault of reading only if the source failed, or after 4,294,967,296 pulls, and one of writing only if the sink
    // failed.
    ensures ends { EndsByRead
        ((input : List ℕ) → R.left reader.old ≡ Some input → HasEqualWords (told_in (lines_of input)))
        (IsTrue (R.has_failed reader.new) ⊎ (R.pulls reader.new ≡ R.pulls reader.old + 4294967296))
        (W.has_failed writer.new) result }
{
    match read_to_end(alloc, reader) {
        Ok(input) => replay_input(alloc, input.as_slice(), writer),
        Err(Unread::Memory) => Exit::Faulted(1),
        Err(Unread::Failed) => Exit::Faulted(5),
    }
}

/// Runs the lines of the input, and writes the replies.
fn replay_input<W: Sink>(alloc: Global, input: &[u8], writer: &mut W) -> Exit
    ensures ends { EndsBy (HasEqualWords (told_in (lines_of input.now))) ⊤ (W.has_failed writer.new) result }
    ensures replays { IsUnfaulted result
        → Replays (told_in (lines_of input.now)) (W.written writer.old)
        (W.written writer.new) result }
    ensures stopped { Stopped (told_in (lines_of input.now)) (W.written writer.old)
        (W.written writer.new) result }
    ensures nothing { (result ≡ Faulted 4) ⊎ (result ≡ Faulted 5)
        → Appends (W.written writer.old) (W.written writer.new) [] }
{
    match read_script(alloc, input) {
        Ok(Some(script)) => run_in_memory(alloc, &script, writer),
        Ok(None) => Exit::BadLine(1),
        Err(_) => Exit::Faulted(1),
    }
}

/// Starts a broker in a database in memory, and runs the script over it.
fn run_in_memory<W: Sink>(alloc: Global, script: &Script, writer: &mut W) -> Exit
    ensures ends { EndsBy (HasEqualWords (Some (told script.now))) ⊤ (W.has_failed writer.new) result }
    ensures exit { IsUnfaulted result → result ≡ exit_of (told script.now) }
    ensures ran { IsUnfaulted result
        → Replayed script.now.start script.now.events.items (W.written writer.old)
        (W.written writer.new) }
    ensures stopped { Stopped (Some (told script.now)) (W.written writer.old)
        (W.written writer.new) result }
    ensures nothing { (result ≡ Faulted 4) ⊎ (result ≡ Faulted 5)
        → Appends (W.written writer.old) (W.written writer.new) [] }
{
    match SqlStore::in_memory(alloc) {
        Ok(store) => run_new(alloc, store, script, writer),
        Err(fault) => Exit::from(fault),
    }
}

/// Starts a broker in a store without rows, whose storage returns what was written, and runs the script over it. It is
/// generic in the storage, since each call at the type of the one in memory takes the prover long.
fn run_new<S: Alter + Drop, W: Sink>(
    alloc: Global,
    store: SqlStore<S>,
    script: &Script,
    writer: &mut W,
) -> Exit
    ensures ends { ReturnsWhatWasWritten S.Store → (sql_kept S.Store store).rows ≡ map.empty
        → EndsBy (HasEqualWords (Some (told script.now))) ⊤ (W.has_failed writer.new) result }
    ensures exit { IsUnfaulted result → result ≡ exit_of (told script.now) }
    ensures ran { ReturnsWhatWasWritten S.Store → IsUnfaulted result
        → Replayed script.now.start script.now.events.items (W.written writer.old)
        (W.written writer.new) }
    ensures stopped { ReturnsWhatWasWritten S.Store
        → Stopped (Some (told script.now)) (W.written writer.old) (W.written writer.new) result }
    ensures nothing { ReturnsWhatWasWritten S.Store → (result ≡ Faulted 4) ⊎ (result ≡ Faulted 5)
        → Appends (W.written writer.old) (W.written writer.new) [] }
{
    let mut store = store;
    if let Err(fault) = store.start(script.start.moment, &script.start.words) {
        return Exit::from(fault);
    }
    run_script(alloc, &mut Hub::new(alloc, store), script, writer)
}

/// Feeds the events of a script to a broker, and writes the bytes of their replies. A fault goes before a bad line;
/// unless a write failed, the whole replies to the events before the one with the fault are written then, and nothing
/// else. What the script says of a start is not looked at.
pub fn run_script<S: Store, W: Sink>(
    alloc: Global,
    hub: &mut Hub<S>,
    script: &Script,
    writer: &mut W,
) -> Exit
    // On a broker's rows memory ran out, the storage failed and the store says so, or a write failed.
    ensures ends { IsHonestStore (hub_store S.seen hub.new) → (w : World) → HubRepresents S.seen hub.old w
        → EndsBy ⊥ (IsTrue (hub_store S.seen hub.new).has_failed) (W.has_failed writer.new) result }
    ensures exit { IsUnfaulted result → result ≡ exit_of (told script.now) }
    ensures ran { IsHonestStore (hub_store S.seen hub.new) → (w : World) → HubRepresents S.seen hub.old w
        → IsUnfaulted result
        → Ran w script.now.events.items (W.written writer.old) (W.written writer.new) }

    // After a fault, but one of writing, what was written is the replies to the events before the one at which the run
    // stopped; or nothing, if there was no room for the replies.
    ensures stopped { StoppedRun S.seen script.now.events.items hub.old hub.new (W.written writer.old)
        (W.written writer.new) result }
{
    match run(alloc, hub, script.events.as_slice()) {
        Ok(replies) => finish(writer, replies.as_slice(), script.exit()),
        Err((_, replies, fault)) => finish(writer, replies.as_slice(), Exit::from(fault)),
    }
}

/// Writes the replies, one after another, and ends as said, or with the fault of a write that failed.
fn finish<W: Sink>(writer: &mut W, replies: &[Vec<u8>], exit: Exit) -> Exit
    ensures { ((result ≡ exit)
        × Appends (W.written writer.old) (W.written writer.new) (concat (bytes_of replies.now)))
        ⊎ ((result ≡ Faulted 6) × IsTrue (W.has_failed writer.new)) }
{
    for reply in replies {
        if let Err(Failed) = writer.push(reply.as_slice()) {
            return Exit::Faulted(6);
        }
    }
    exit
}
