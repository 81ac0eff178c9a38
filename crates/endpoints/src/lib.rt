//! Where bytes come from and where they go: readers and writers that remember whether they failed, and ones that also
//! do not wait. And the version of the programs.
#![tactic(auto)]

mod now;
mod reading;
mod version;
mod writing;

pub use now::{NowReading, NowSink, NowSource, NowWriting};
pub use reading::{Reading, Source};
pub use version::VERSION;
pub use writing::{Sink, Writing};

/// A reader or a writer failed.
#[derive(Clone, Copy, Debug, PartialEq, Eq)]
pub struct Failed;
