//! Faults of a start.

ghost use Rattle.server.specs.Starting.{IsFaultOfNew};

use broker_types::Fault;
use hub::ConnectionFault;
use std::io;

/// The fault where an address cannot be listened on, or standard input not be waited for: one of memory, or of
/// reading.
pub(crate) fn fault_of(error: &io::Error) -> ConnectionFault
    ensures { IsFaultOfNew result }
{
    if error.kind() == io::ErrorKind::OutOfMemory {
        ConnectionFault::Broker(Fault::Memory)
    } else {
        ConnectionFault::Read
    }
}
