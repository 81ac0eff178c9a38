//! What is said before a fault ends the program: why it does.

use broker_types::Fault;
use hub::ConnectionFault;
use records_sql::{Cause, CausedFault};
use server::{Log, tell};
use std::rc::Rc;
use std::rt::HostRuntime;

/// Says on standard error, or in the log, why the broker of a database is not served, or no longer. What could not be
/// read or written otherwise was said before.
pub(crate) fn tell_why(
    rt: &HostRuntime,
    log: &Option<Rc<Log>>,
    name: &str,
    fault: ConnectionFault,
    cause: Option<Cause>,
) {
    if let ConnectionFault::Broker(fault) = fault {
        let caused = CausedFault { fault, cause };
        tell(rt, log, format_args!("{name}: {caused}"));
    }
}
