//! What a command line may give instead of a command: a text for the user, or a fault.

use broker_types::Fault;
use clap::error::{Error, ErrorKind};
use std::alloc::AllocError;

/// Why the words of a command line give no command.
#[derive(Debug, Drop)]
pub enum NoCommand {
    /// The command line is wrong, or help was asked for; the error has the text for the user.
    Usage(Error),
    /// Memory ran out.
    Fault(Fault),
}

impl From<AllocError> for NoCommand {
    ghost use Rattle.std.specs.Prelude.{◌≡◌};
    ghost use Rattle.broker_types.specs.declared.fault.Fault.TheVariants.{Memory};
    ghost use Rattle.command_line.specs.declared.no_command.NoCommand.TheVariants as reason;

    ghost from_gives = { λ _ found. found ≡ reason.Fault Memory };

    fn from(_: AllocError) -> NoCommand {
        NoCommand::Fault(Fault::Memory)
    }
}

impl From<Error> for NoCommand {
    ghost use Rattle.command_line.specs.Refusing.{Tells};

    ghost from_gives = { Tells };

    fn from(error: Error) -> NoCommand {
        if error.kind() == ErrorKind::OutOfMemory {
            return NoCommand::Fault(Fault::Memory);
        }
        NoCommand::Usage(error)
    }
}
