//! A disk in the memory of the program, and databases in it.
#![tactic(auto)]

mod file;
mod laws;
mod opening;

pub use file::RamFile;
pub use laws::ram_returns_what_was_written;
pub use opening::open;
