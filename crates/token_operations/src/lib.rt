//! Operations on tokens, each over the rows of a transaction.
#![tactic(auto)]

mod copying;
mod creation;
mod lookup;
mod new_policies;
mod new_token;
mod renewal;
mod revocation;
mod shown;
mod tokens;

pub use tokens::{act_on_tokens, read_token_command};

/// The longest time that a token is made or renewed for, in seconds.
const LONGEST_TTL: u64 = 2_764_800;
