//! Backups of a database whose broker may run meanwhile.
#![tactic(auto)]

mod copying;
mod failure;
mod folder;
mod making;
mod names;
mod progress;
mod pruning;

pub use failure::{Failure, Why};
pub use making::{Backup, Request, back_up};
pub use names::{backup_name, is_backup, is_surplus, stem_of};
pub use pruning::prune;
