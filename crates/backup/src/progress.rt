//! What is said while a backup takes long.

use std::fmt::Display;
use std::rt::HostRuntime;
use std::time::Instant;

/// So many seconds nothing is said.
const QUIET: u64 = 2;

/// How many bytes a megabyte has.
const MEGABYTE: u64 = 1_000_000;

/// Says on standard error what is done, every two seconds. Nobody has to read it.
#[derive(Drop)]
pub(crate) struct Progress<'r> {
    rt: &'r HostRuntime,
    /// When something was said last, or the work began; none if the clock cannot be read.
    last: Option<Instant>,
}

impl<'r> Progress<'r> {
    /// Begins now.
    pub(crate) fn new(rt: &'r HostRuntime) -> Progress<'r> {
        Progress {
            rt,
            last: Instant::now(rt).ok(),
        }
    }

    /// Says how much of a file is copied, unless something was said in the last two seconds.
    pub(crate) fn copied(&mut self, path: &str, bytes: u64) {
        if self.is_due() {
            let megabytes = bytes / MEGABYTE;
            self.say(format_args!("copying {path}: {megabytes} MB"));
        }
    }

    /// Says that a copy of so many bytes is checked, if that takes a while: 20 MB do.
    pub(crate) fn checking(&mut self, path: &str, bytes: u64) {
        if bytes >= 20 * MEGABYTE {
            let megabytes = bytes / MEGABYTE;
            self.say(format_args!("checking the copy of {path}: {megabytes} MB"));
        }
    }

    /// Whether nothing was said in the last two seconds.
    fn is_due(&self) -> bool {
        match self.last {
            Some(last) => last
                .elapsed(self.rt)
                .is_ok_and(|passed| passed.as_secs() >= QUIET),
            None => false,
        }
    }

    fn say<D: Display + Drop>(&mut self, line: D) {
        self.last = Instant::now(self.rt).ok();
        let _ = eprintln!(self.rt; "{line}");
    }
}
