//! How a task ends.

use broker_types::Fault;
use replay::Exit;

/// How a task ended.
#[derive(Clone, Copy, Debug, PartialEq, Eq)]
pub(crate) enum End {
    /// As a replay ends.
    Replayed(Exit),
    /// A call failed, and the request was not answered by `Storage`, or the rows are not as before.
    Wrong,
}

impl From<Exit> for End {
    fn from(exit: Exit) -> End {
        End::Replayed(exit)
    }
}

impl From<Fault> for End {
    fn from(fault: Fault) -> End {
        End::Replayed(Exit::from(fault))
    }
}
