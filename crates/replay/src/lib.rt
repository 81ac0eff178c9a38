//! The lines of a replay: events in JSON are run over a broker in a database in memory, and their replies are written.
#![tactic(auto)]

mod input;
mod lines;
mod replaying;
mod script;

pub use input::{Unread, read_to_end};
pub use lines::Start;
pub use replaying::{Exit, replay, run_script};
pub use script::{Script, read_script};
