//! What is served, and what holds for one round of it.

use broker::Store;
use hub::Hub;

/// What is served: a hub, and where the moments and the words of its events are from.
#[derive(Drop)]
pub struct Service<S: Store, C, D> {
    /// The connections, over the store that answers on them.
    pub hub: Hub<S>,
    /// Where moments are from.
    pub clock: C,
    /// Where words are from.
    pub words: D,
}

/// What is the same for all that is done in a round.
#[derive(Clone, Copy)]
pub(crate) struct Round {
    /// The time by which limits are counted, in milliseconds since the start.
    pub(crate) now: u64,
    /// If the program is to stop: when each connection is closed at the latest.
    pub(crate) leaves_by: Option<u64>,
}
