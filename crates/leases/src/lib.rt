//! Leases of tokens, and the roles and credentials of the engine that issues them, as rows.
#![tactic(auto)]

mod ending;
mod issued_lease;
mod issuing;
mod keys;
mod laws;
mod lease_times;
mod listing;
mod looking;
mod renewing;
mod revoking;
mod roles;
mod sweeping;
mod times;

pub use issued_lease::IssuedLease;
pub use issuing::{LeaseRequest, Names, creds, issue};
pub use laws::{
    edits_evolve, edits_keep_soundness, edits_show_in_leases, ends_add_up, leases_are_bounded,
    leases_can_be_read, leases_go_with_tokens,
};
pub use lease_times::LeaseTimes;
pub use looking::{lookup, verify};
pub use renewing::renew;
pub use revoking::{drop_owner, drop_owners, revoke, revoke_under};
pub use roles::{drop_roles, remove_role, role, set_role};
pub use sweeping::{end_due, sweep_leases};
