//! What a command may give instead of a request: a mistake of its arguments, or a fault.

use crate::mistake::Mistake;
use crate::no_body::NoBody;
use broker_types::Fault;
use std::alloc::AllocError;

/// Why the arguments of a command give no request.
#[derive(Debug, Drop)]
pub(crate) enum NoRequest {
    /// One of them is wrong.
    Mistaken(Mistake),
    /// Memory ran out.
    Fault(Fault),
}

impl From<Mistake> for NoRequest {
    ghost use Rattle.std.specs.Prelude.{◌≡◌};
    ghost use Rattle.command_line.specs.declared.no_request.NoRequest.TheVariants as reason;

    ghost from_gives = { λ mistake found. found ≡ reason.Mistaken mistake };

    fn from(mistake: Mistake) -> NoRequest {
        NoRequest::Mistaken(mistake)
    }
}

impl From<NoBody> for NoRequest {
    ghost use Rattle.command_line.specs.Refusing.{IsPassedOn};

    ghost from_gives = { IsPassedOn };

    fn from(error: NoBody) -> NoRequest {
        match error {
            NoBody::Mistake(mistake) => NoRequest::Mistaken(Mistake::Words(mistake)),
            NoBody::Fault(fault) => NoRequest::Fault(fault),
        }
    }
}

impl From<AllocError> for NoRequest {
    ghost use Rattle.std.specs.Prelude.{◌≡◌};
    ghost use Rattle.broker_types.specs.declared.fault.Fault.TheVariants.{Memory};
    ghost use Rattle.command_line.specs.declared.no_request.NoRequest.TheVariants as reason;

    ghost from_gives = { λ _ found. found ≡ reason.Fault Memory };

    fn from(_: AllocError) -> NoRequest {
        NoRequest::Fault(Fault::Memory)
    }
}
