//! One error for the steps of a request, which may be refused or meet a fault.

use crate::fault::Fault;
use crate::refusal::Refusal;
use std::alloc::AllocError;

/// Why a step of a request failed.
#[derive(Clone, Copy, Debug, PartialEq, Eq)]
pub enum RequestError {
    /// The request is refused: the client is told why.
    Refused(Refusal),
    /// The request cannot be answered: its transaction is given up.
    Fault(Fault),
}

impl From<Refusal> for RequestError {
    ghost use Rattle.std.specs.Prelude.{◌≡◌};
    ghost use Rattle.broker_types.specs.declared.request_error.RequestError.TheVariants.{Refused};

    ghost from_gives = { λ refusal error. error ≡ Refused refusal };

    fn from(refusal: Refusal) -> RequestError {
        RequestError::Refused(refusal)
    }
}

impl From<Fault> for RequestError {
    ghost use Rattle.std.specs.Prelude.{◌≡◌};
    ghost use Rattle.broker_types.specs.declared.request_error.RequestError.TheVariants.{Fault as Given};

    ghost from_gives = { λ fault error. error ≡ Given fault };

    fn from(fault: Fault) -> RequestError {
        RequestError::Fault(fault)
    }
}

impl From<AllocError> for RequestError {
    ghost use Rattle.std.specs.Prelude.{◌≡◌};
    ghost use Rattle.broker_types.specs.declared.fault.Fault.TheVariants.{Memory};
    ghost use Rattle.broker_types.specs.declared.request_error.RequestError.TheVariants.{Fault as Given};

    ghost from_gives = { λ _ error. error ≡ Given Memory };

    fn from(_: AllocError) -> RequestError {
        RequestError::Fault(Fault::Memory)
    }
}
