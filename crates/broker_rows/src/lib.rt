//! A broker as rows: which rows represent which broker, what an operation on them owes, and the steps that every
//! request makes on them.
#![tactic(auto)]

mod answered;
mod caller;
mod context;
mod ending;
mod expiry;
mod identifiers;
mod laws;
mod moments;
mod start;

pub use answered::Answered;
pub use caller::{Asker, Caller};
pub use context::Context;
pub use ending::{end_spent, leave_nothing};
pub use expiry::expire;
pub use identifiers::{are_new, identifier, needed, token_text, use_up};
pub use laws::{
    rows_represent_one_broker, the_first_broker_is_represented,
    upgraded_rows_represent_the_same_broker,
};
pub use moments::{moment, moment_or_none};
pub use start::write_first_rows;
