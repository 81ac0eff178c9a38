//! Why the client ends without having asked.

use api_client::Failure;
use clap::error::Error;
use command_line::NoCommand;
use std::alloc::AllocError;

/// Why the client ends without having asked.
#[derive(Drop)]
pub(crate) enum Stopped {
    /// The command line is wrong, or help was asked for; the error has the text for the user.
    Usage(Error),
    /// A variable of the environment or a file has what cannot be used; the text says what can.
    Mistake(String),
    /// Memory ran out, or standard input cannot be read.
    Failure(Failure),
}

impl From<NoCommand> for Stopped {
    fn from(why: NoCommand) -> Stopped {
        match why {
            NoCommand::Usage(error) => Stopped::Usage(error),
            NoCommand::Fault(_) => Stopped::Failure(Failure::Memory),
        }
    }
}

impl From<AllocError> for Stopped {
    fn from(_error: AllocError) -> Stopped {
        Stopped::Failure(Failure::Memory)
    }
}
