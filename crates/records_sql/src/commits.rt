//! How often something was committed, and how long that took.

use std::alloc::AllocError;
use std::cell::Cell;
use std::rc::Rc;
use std::rt::HostRuntime;
use std::time::Instant;

/// How many transactions that wrote something were committed, and how many microseconds that took in all, with the
/// sync of the disk; as records count it while they are used. No contract says what they count.
pub struct Commits {
    rt: HostRuntime,
    times: Rc<Cell<u64>>,
    micros: Rc<Cell<u64>>,
}

impl Drop for Commits {
    fn drop(self) {
        let Commits {
            rt: _,
            times: _times,
            micros: _micros,
        } = self;
    }
}

impl Commits {
    /// None was committed. The only error is running out of memory.
    pub fn new(rt: &HostRuntime) -> Result<Commits, AllocError> {
        Ok(Commits {
            rt: *rt,
            times: Rc::new(rt.alloc(), Cell::new(0))?,
            micros: Rc::new(rt.alloc(), Cell::new(0))?,
        })
    }

    /// The same once more.
    pub(crate) fn shared(&self) -> Result<Commits, AllocError> {
        Ok(Commits {
            rt: self.rt,
            times: self.times()?,
            micros: self.micros()?,
        })
    }

    /// Where it is read how many there were.
    pub fn times(&self) -> Result<Rc<Cell<u64>>, AllocError> {
        Ok(Rc::clone(&self.times)?)
    }

    /// Where it is read how many microseconds they took.
    pub fn micros(&self) -> Result<Rc<Cell<u64>>, AllocError> {
        Ok(Rc::clone(&self.micros)?)
    }

    /// One begins now.
    pub(crate) fn begin(&self) -> Option<Instant> {
        Instant::now(&self.rt).ok()
    }

    /// One that began then has succeeded.
    pub(crate) fn end(&self, began: Instant) {
        let micros = match began.elapsed(&self.rt) {
            Ok(age) => u64::try_from(age.as_micros()).unwrap_or(u64::MAX),
            Err(_) => 0,
        };
        self.times.set(self.times.get().saturating_add(1));
        self.micros.set(self.micros.get().saturating_add(micros));
    }
}
