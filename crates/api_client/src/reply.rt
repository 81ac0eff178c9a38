//! What is read from a server: a reply, or an error in its place.

use broker_types::{Bytes, Fault};
use std::alloc::AllocError;
use thiserror::Error;

/// The reply to a request (RFC 9112, section 4).
#[derive(Drop)]
pub struct Reply {
    /// The status code (RFC 9110, section 15).
    pub status: u16,
    /// The body.
    pub body: Bytes,
}

/// Why no reply was read.
#[derive(Debug, Drop, Error)]
pub enum ReplyError {
    /// A read failed, the input ended before the reply did, or it begins with no reply within the limits.
    #[error("bad reply")]
    BadReply,
    /// Memory ran out.
    #[error("{0}")]
    Fault(Fault),
}

impl From<AllocError> for ReplyError {
    ghost use Rattle.std.specs.Prelude.{◌≡◌};
    ghost use Rattle.broker_types.specs.declared.fault.Fault.TheVariants.{Memory};
    ghost use Rattle.api_client.specs.declared.reply.ReplyError.TheVariants as error;

    ghost from_gives = { λ _ found. found ≡ error.Fault Memory };

    fn from(_: AllocError) -> ReplyError {
        ReplyError::Fault(Fault::Memory)
    }
}
