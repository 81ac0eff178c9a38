//! What is said before a fault ends the program: why it does.

use crate::log::Log;
use std::fmt::Display;
use std::io;
use std::io::{Eprint, ErrorKind};
use std::rc::Rc;
use std::rt::HostRuntime;

/// Says a line on standard error, or in the log. Nobody has to read it.
pub fn tell<D: Display + Drop>(rt: &HostRuntime, log: &Option<Rc<Log>>, line: D) {
    match log {
        Some(log) => log.tell(line),
        None => {
            let _ = eprintln!(rt; "{line}");
        }
    }
}

/// Says why an address cannot be listened on.
pub(crate) fn tell_address(
    rt: &HostRuntime,
    log: &Option<Rc<Log>>,
    address: &str,
    error: &io::Error,
) {
    match error.kind() {
        ErrorKind::AddrInUse => tell(
            rt,
            log,
            format_args!("{address}: the address is in use by another program"),
        ),
        ErrorKind::AddrNotAvailable => tell(
            rt,
            log,
            format_args!("{address}: no address of this machine"),
        ),
        ErrorKind::PermissionDenied => tell(
            rt,
            log,
            format_args!("{address}: permission denied (ports below 1024 take a privilege)"),
        ),
        _ => tell(
            rt,
            log,
            format_args!("{address}: it cannot be listened on: {error}"),
        ),
    }
}

/// Says why the end of standard input cannot be waited for.
pub(crate) fn tell_input(rt: &HostRuntime, log: &Option<Rc<Log>>, error: &io::Error) {
    tell(
        rt,
        log,
        format_args!(
            "standard input cannot be waited for: {error}; --stop-on-input takes a pipe or a terminal"
        ),
    );
}

/// Says why the root token cannot be printed.
pub(crate) fn tell_output(rt: &HostRuntime, log: &Option<Rc<Log>>, error: &io::Error) {
    tell(
        rt,
        log,
        format_args!("standard output does not take the root token: {error}"),
    );
}
