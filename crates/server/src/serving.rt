//! A hub served at an address, round by round, until it is done.

ghost use Rattle.hub.specs.Representing.{ConnectionsRepresent};
ghost use Rattle.hub.specs.Supplies.{Supplies};
ghost use Rattle.hub.specs.World.{Connections};
ghost use Rattle.server.specs.ServedHub.{LeavesSeen};
ghost use Rattle.server.specs.Serving.{EndsBy, ServesAt, ServesConnections};

use crate::ends::{Listener, Reader, Writer};
use crate::listening::Listening;
use crate::service::Service;
use broker::Store;
use broker_types::Fault;
use histories::all_that_is_asked_keeps_the_laws;
use hub::WordSource;
use std::time::Clock;

/// Serves the connections that a listener hands out, many at once, until all were served that were to be. One that ends
/// by a fault of memory, of reading or of writing is closed, and the others go on; another fault ends the whole, after
/// one attempt on each connection to send what was not sent of its last reply.
///
/// **On each connection that was handed out, what was sent is the beginning of the replies to its own events, whose
/// pieces are what was read there**, as far as the bytes of the ends are known, also after a fault. After its last
/// event more may have been read, which was passed over; all was sent then. Over all the connections there is one list
/// of what happened to the hub, in its order: events that were fed and answered as the model does, and connections that
/// were closed. A connection had a number that no other had and that the hub had not seen. For each event the clock is
/// asked once and words are drawn once. All that was asked keeps the laws over a history: those of what is given out,
/// handed out and kept, of tokens and leases, and of secrets and mounts.
pub fn serve<
    L: Listener<R, W>,
    R: Reader,
    W: Writer,
    S: Store,
    C: hub::Clock,
    D: WordSource,
    T: Clock,
>(rt: &T, service: &mut Service<S, C, D>, listening: Listening<L, R, W>) -> Result<(), Fault>
    ensures connections { ServesConnections L.may_accept S.seen R.left W.written
        (Supplies C.may_tell service.old.clock service.new.clock D.may_give service.old.words service.new.words)
        listening.accepting.listener service.old.hub service.new.hub }
    ensures ends { EndsBy S.seen result service.old.hub service.new.hub }

    // Whatever the rows are, no connection that was seen before changes.
    ensures others { (all : Connections) → ConnectionsRepresent service.old.hub all → LeavesSeen all service.new.hub }
{
    all_that_is_asked_keeps_the_laws();
    let mut listening = listening;
    let Some(first) = service.hub.open_conn() else {
        return Ok(());
    };
    listening.begin(first);
    let served = rounds(rt, service, &mut listening);
    listening.finish(served.is_err());
    served
}

/// Serves in rounds, until all is done.
fn rounds<
    L: Listener<R, W>,
    R: Reader,
    W: Writer,
    S: Store,
    C: hub::Clock,
    D: WordSource,
    T: Clock,
>(rt: &T, service: &mut Service<S, C, D>, listening: &mut Listening<L, R, W>) -> Result<(), Fault>
    ensures { ServesAt L.may_accept S.seen R.left W.written
        (Supplies C.may_tell service.old.clock service.new.clock D.may_give service.old.words service.new.words)
        result listening.old.accepting.listener listening.new.accepting.listener listening.old.links.peers
        listening.new.links.peers service.old.hub service.new.hub }
{
    for _ in 0..u64::MAX {
        if listening.is_done() {
            return Ok(());
        }
        listening.round(rt, service)?;
    }
    Ok(())
}
