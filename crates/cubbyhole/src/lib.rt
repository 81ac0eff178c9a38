//! Cubbyholes: the objects that each token keeps for itself, as rows.
#![tactic(auto)]

mod keys;
mod laws;
mod reading;
mod writing;

pub use laws::{
    answers_are_of_one_cubbyhole, edits_evolve, edits_keep_soundness, ended_tokens_leave_nothing,
    rows_are_filed_under_owners,
};
pub use reading::{is_there, list, read};
pub use writing::{delete, drop_owner, write};
