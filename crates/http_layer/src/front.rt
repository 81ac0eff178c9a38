//! The three ways to cut the front of a stream: it is a request, it is refused, or more has to come.

use crate::head::Head;
use broker_types::{BodyBytes, Status};

/// What a stream begins with.
#[derive(Drop)]
pub enum Cut<'b> {
    /// More bytes are needed to know it.
    Need,
    /// A whole request. It takes `len` bytes, with the empty lines before it.
    Whole {
        len: usize,
        head: Head<'b>,
        body: BodyBytes<'b>,
    },
    /// A refusal; the connection closes after it.
    Refused {
        status: Status,
    },
}
