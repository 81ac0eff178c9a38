//! The tree of tokens, as rows.
#![tactic(auto)]

mod by_accessor;
mod descending;
mod ending;
mod laws;
mod orphaning;
mod revoking;
mod single;
mod start;
mod sweeping;

pub use by_accessor::{accessors, find_accessor};
pub use laws::{
    accessors_name_their_tokens, edits_evolve, edits_keep_soundness, revoked_tokens_are_not_found,
    tokens_end_as_defined,
};
pub use orphaning::revoke_one;
pub use revoking::revoke;
pub use single::{create, find, renew, spend};
pub use sweeping::{end_due, sweep_tokens};
