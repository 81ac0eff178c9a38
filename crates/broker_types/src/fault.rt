//! Faults, with the numbers and the texts by which programs tell them.

use std::alloc::{AllocError, AllocFailed};
use std::fmt;

/// Why a call ended without an answer.
#[derive(Clone, Copy, Debug, PartialEq, Eq)]
pub enum Fault {
    /// Memory ran out.
    Memory,
    /// The storage failed.
    Storage,
    /// The bytes of a row cannot be read.
    Damaged,
    /// A store cannot be started, since it has rows already, or the words of the first token and its
    /// accessor are equal; or it cannot be opened, since it was never started.
    BadStart,
}

impl Fault {
    ghost use Rattle.std.specs.Prelude.{◌≡◌};
    ghost use Rattle.broker_types.specs.Fault.{fault_number};

    /// The number under which programs report the fault.
    pub fn number(self) -> u8
        ensures { result ≡ fault_number self }
    {
        match self {
            Fault::Memory => 1,
            Fault::Storage => 2,
            Fault::Damaged => 3,
            Fault::BadStart => 4,
        }
    }
}

impl fmt::Display for Fault {
    ghost use Rattle.std.specs.Prelude.{Some};
    ghost use Rattle.broker_types.specs.Fault.{fault_text};

    ghost output = { λ fault. Some (fault_text fault) };

    fn fmt<W: fmt::Write>(&self, f: &mut fmt::Formatter<W>) -> fmt::Result {
        match self {
            Fault::Memory => write!(f, "out of memory"),
            Fault::Storage => write!(f, "the storage failed"),
            Fault::Damaged => write!(f, "a damaged row"),
            Fault::BadStart => write!(f, "the store cannot be started or opened"),
        }
    }
}

impl std::error::Error for Fault {}

impl From<AllocError> for Fault {
    ghost use Rattle.std.specs.Prelude.{◌≡◌};
    ghost use Rattle.broker_types.specs.declared.fault.Fault.TheVariants.{Memory};

    ghost from_gives = { λ _ fault. fault ≡ Memory };

    fn from(_: AllocError) -> Fault {
        Fault::Memory
    }
}

impl<T: Drop> From<AllocFailed<T>> for Fault {
    ghost use Rattle.std.specs.Prelude.{◌≡◌};
    ghost use Rattle.broker_types.specs.declared.fault.Fault.TheVariants.{Memory};

    ghost from_gives = { λ _ fault. fault ≡ Memory };

    fn from(_: AllocFailed<T>) -> Fault {
        Fault::Memory
    }
}
