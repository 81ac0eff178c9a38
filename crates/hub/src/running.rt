//! Lists of events run over a hub, up to the first fault.

ghost use Rattle.std.specs.Prelude.{◌≡◌, ◌≢◌, ◌⊎◌, ◌<◌, IsTrue, IfOk, IfErr, MatchResult, length, take};
ghost use Rattle.std.specs.List.{All};
ghost use Rattle.broker_types.specs.Fault.{IsMemoryOrStorage};
ghost use Rattle.records.specs.Kept.{IsHonestStore};
ghost use Rattle.histories.specs.KeepsLaws.{KeepsLaws};
ghost use Rattle.hub.specs.Feeding.{IsLater};
ghost use Rattle.hub.specs.Histories.{Lawful};
ghost use Rattle.hub.specs.ListedReplies.{IsListedReply};
ghost use Rattle.hub.specs.Representing.{ConnectionsRepresent, HubRepresents, hub_store};
ghost use Rattle.hub.specs.Runs.{bytes_of, Answers, HadNoRoom, StopsAt, StopsTurns, TookTurns};
ghost use Rattle.hub.specs.World.{Connections, World, Run};

use crate::event::Event;
use crate::hub::Hub;
use broker::Store;
use broker_types::Fault;
use histories::all_that_is_asked_keeps_the_laws;
use std::alloc::Global;

/// Feeds the events in turn, and answers their replies, one an event; an event without a reply has an
/// empty one. A fault ends the run, with the place of its event, counted from 0, and the replies before
/// it. The places of all replies are reserved first: if memory runs out there, the place is 0, there are
/// no replies, and the hub is as before.
///
/// **Each connection receives exactly the reply bytes of the broker**, asked by the complete requests
/// in the order in which their events answered them: for each world that the hub represents, the
/// replies are those of a run from this world, no other replies are a run's, and the hub then represents
/// the world after it, as long as the storage returns what was written and no fault ends the run.
/// From a new hub this is the world of the store's broker with no connection seen.
pub fn run<S: Store>(
    alloc: Global,
    hub: &mut Hub<S>,
    events: &[Event],
) -> Result<Vec<Vec<u8>>, (usize, Vec<Vec<u8>>, Fault)>
    ensures replies { IsHonestStore (hub_store S.seen hub.new) → IfOk result (λ replies.
        (w : World) → HubRepresents S.seen hub.old w
        → Answers S.seen w events.now (bytes_of replies.items) hub.new) }

    // Whatever the events are, up to a fault, what they asked keeps the laws over a history: those of what is given
    // out, handed out and kept, of tokens and leases, and of secrets and mounts. They hold from any hub, as one over a
    // store that was opened, where what was given out before counts as given out, and what waited before as kept;
    // three of them say more from a new one.
    ensures lawful { Lawful S.seen hub.old hub.new events.now result KeepsLaws }

    // Whatever the rows are, each event took its turn, with its reply, or the run stopped at the fault of
    // one; and each refusal is a listed one.
    ensures connections { (all : Connections) → ConnectionsRepresent hub.old all → MatchResult result
        (λ replies. TookTurns all events.now (bytes_of replies.items) hub.new)
        (λ stop. HadNoRoom stop.0 stop.1.items stop.2 hub.old hub.new
        ⊎ StopsTurns all events.now stop.0 (bytes_of stop.1.items) stop.2 hub.new) }
    ensures listed { MatchResult result
        (λ replies. All IsListedReply (bytes_of replies.items))
        (λ stop. All IsListedReply (bytes_of stop.1.items)) }

    // The replies before a fault are those of a run of the events before it.
    ensures before { IsHonestStore (hub_store S.seen hub.new) → IfErr result (λ stop.
        (w : World) → HubRepresents S.seen hub.old w
        → (mid : World) × Run w (take stop.0 events.now) (bytes_of stop.1.items) mid) }

    // No memory was found for the places of the replies, or the run stopped at an event. What it left is
    // known as long as the storage can still be asked; it can, unless the fault is `Storage`.
    ensures stopped { IfErr result (λ stop.
        HadNoRoom stop.0 stop.1.items stop.2 hub.old hub.new
        ⊎ ((stop.0 < length events.now)
        × (IsHonestStore (hub_store S.seen hub.new) → IsTrue (hub_store S.seen hub.new).is_open
        → (w : World) → HubRepresents S.seen hub.old w
        → StopsAt S.seen w events.now stop.0 (bytes_of stop.1.items) stop.2 hub.new))) }

    // On a broker's rows the faults are of memory or storage alone, and of storage only if the store failed.
    ensures wants { IsHonestStore (hub_store S.seen hub.new) → IfErr result (λ stop.
        (w : World) → HubRepresents S.seen hub.old w → IsMemoryOrStorage stop.2) }
    ensures storage { IfErr result (λ stop.
        stop.2 ≡ Fault.Storage → IsTrue (hub_store S.seen hub.new).has_failed) }
    ensures stays_open { IsHonestStore (hub_store S.seen hub.new) → MatchResult result
        (λ _. (hub_store S.seen hub.new).is_open ≡ (hub_store S.seen hub.old).is_open)
        (λ stop. stop.2 ≢ Fault.Storage
        → (hub_store S.seen hub.new).is_open ≡ (hub_store S.seen hub.old).is_open) }
    ensures later { IsLater (hub_store S.seen hub.old) (hub_store S.seen hub.new) }
{
    all_that_is_asked_keeps_the_laws();
    let mut replies = Vec::new(alloc);
    if let Err(_) = replies.reserve(events.len()) {
        return Err((0, replies, Fault::Memory));
    }
    for (i, event) in events.iter().enumerate() {
        let piece = event.piece.as_slice();
        match hub.feed(event.conn, piece, event.moment, &event.words) {
            Ok(bytes) => replies.push(bytes).unwrap(),
            Err(fault) => return Err((i, replies, fault)),
        }
    }
    Ok(replies)
}
