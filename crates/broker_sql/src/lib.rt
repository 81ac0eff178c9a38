//! A store of the broker's rows in a database.
#![tactic(auto)]

mod emptiness;
mod laws;
mod preparing;
mod sql_store;

pub use laws::{memory_returns_what_was_written, what_was_committed_is_found};
pub use preparing::prepare;
pub use sql_store::SqlStore;
