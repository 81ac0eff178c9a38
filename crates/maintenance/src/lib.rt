//! Maintenance of the broker of a stopped server: one more root token, and what goes after a restore.
#![tactic(auto)]

mod choosing;
mod database;
mod files;
mod new_root;
mod responses;
mod revoking;
mod task;

pub use choosing::Chosen;
pub use database::perform_on_records;
pub use files::{Outcome, perform_on_file};
pub use new_root::add_root;
pub use responses::drop_responses;
pub use revoking::revoke_chosen;
pub use task::{Done, Task, perform};
