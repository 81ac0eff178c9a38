//! Responses that wait for their wrapping tokens, as rows.
#![tactic(auto)]

mod dropping;
mod laws;
mod looking;
mod storing;
mod sweeping;
mod waiting_response;

pub use dropping::{drop_accessor, drop_token, take};
pub use laws::{
    accessors_are_shared, accessors_name_their_wrapping_tokens, edits_evolve, edits_keep_soundness,
    only_storing_adds_responses, responses_end_as_defined, responses_go_alone,
    responses_move_whole,
};
pub use looking::look;
pub use storing::{rewrap, store};
pub use sweeping::{drop_due, sweep_waiting};
pub use waiting_response::WaitingResponse;
