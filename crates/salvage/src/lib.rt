//! Rows that are those of no sound broker, made those of one by changes that are told.
#![tactic(auto)]

mod change;
mod salvaging;

pub use change::Change;
pub use salvaging::salvage;
