//! Policies: what a caller may do at a path, and the policies, as rows.
#![tactic(auto, unfolding(broker_types::specs::Text::same))]

mod allowing;
mod capability;
mod gathering;
mod keeping;
mod laws;
mod listing;
mod memory;
mod naming;
mod pattern;
mod reading;
mod rule;

pub use allowing::{allows, allows_with};
pub use capability::{Capability, Word};
pub use gathering::rules_of;
pub use keeping::{delete, get, set};
pub use laws::{
    edits_evolve, edits_keep_soundness, examples, first_policy_is_read, granted_as_said,
    only_the_callers_policies, patterns_are_chosen_in_order, policies_are_told,
};
pub use listing::list;
pub use memory::PolicyMemory;
pub use pattern::Pattern;
pub use rule::{Policy, Rule, Rules};
