//! Where a run stops, and what is left then.

use crate::disk::images::Image;
use crate::disk::pair::Part;
use std::fmt;

/// A file that answered so many calls, and then failed each, and what a crash leaves then.
#[derive(Clone, Copy, Debug, PartialEq, Eq)]
pub(crate) struct Stop {
    pub(crate) part: Part,
    pub(crate) calls: u64,
    pub(crate) image: Image,
}

impl fmt::Display for Stop {
    fn fmt<W: fmt::Write>(&self, f: &mut fmt::Formatter<W>) -> fmt::Result {
        let part = match self.part {
            Part::Log => "the log",
            Part::Database => "the database",
        };
        let calls = self.calls;
        let image = self.image;
        write!(f, "{part} stops after {calls} calls, and {image}")
    }
}
