//! How many connections there can be at once in this process.

ghost use Rattle.std.specs.Prelude.{◌≡◌};
ghost use Rattle.server.specs.Places.{usable};

use libc::types::rlimit;
use libc::{RLIMIT_NOFILE, getrlimit};

/// How many descriptors are kept free of connections at most: for files, for the listeners, and for operators.
const KEPT: u64 = 32;

/// How many connections there can be at once, of so many that there may be: fewer if the process may have few
/// descriptors.
pub(crate) fn places(at_once: u32) -> usize {
    usable(at_once as u64, descriptors()) as usize
}

/// How many descriptors the process may have; as many as there are, if the system does not tell.
fn descriptors() -> u64 {
    let mut limit = rlimit {
        rlim_cur: 0,
        rlim_max: 0,
    };
    if getrlimit(RLIMIT_NOFILE, &mut limit) == 0 {
        limit.rlim_cur
    } else {
        u64::MAX
    }
}

/// How many of so many places can be taken, if there are so many descriptors: all but a quarter of these, and all but
/// 32 if they are many; at least one.
fn usable(at_once: u64, descriptors: u64) -> u64
    ensures { result ≡ usable at_once descriptors }
{
    let kept = (descriptors / 4).min(KEPT);
    at_once.min(descriptors - kept).max(1)
}
