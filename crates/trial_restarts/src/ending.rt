//! How a task ends.

use crate::stops::Stop;
use broker_types::Fault;
use replay::Exit;

/// How a task ended.
#[derive(Clone, Copy, Debug, PartialEq, Eq)]
pub(crate) enum End {
    /// As a replay ends.
    Replayed(Exit),
    /// After this stop the files do not open, or have other rows, or give another reply, than the broker before the
    /// step in progress, or after it.
    Wrong(Stop),
}

impl From<Exit> for End {
    fn from(exit: Exit) -> End {
        End::Replayed(exit)
    }
}

impl From<Fault> for End {
    fn from(fault: Fault) -> End {
        End::Replayed(Exit::from(fault))
    }
}
