//! What a hub is fed, one after another.

use broker_types::{Bytes, Moment, Words};

/// A piece of bytes that comes on a connection.
#[derive(Drop)]
pub struct Event {
    /// The number of the connection.
    pub conn: u64,
    /// The bytes that come; an empty piece asks for the reply to a request that came before.
    pub piece: Bytes,
    /// When it comes: the moment of its reply.
    pub moment: Moment,
    /// The words from which the identifiers of its request are made.
    pub words: Words,
}
