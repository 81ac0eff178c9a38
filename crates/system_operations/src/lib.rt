//! Operations on the broker itself (Vault's documentation, "System backend"), each over the rows of a transaction:
//! those on policies, on mounts, on leases and on responses that wait.
#![tactic(auto)]

mod acl_policies;
mod mounted_engines;
mod responses;
mod token_leases;

pub use acl_policies::{act_on_policies, read_policy_command};
pub use mounted_engines::{act_on_mounts, read_mount_command};
pub use responses::{act_on_wrappings, read_wrapping_command};
pub use token_leases::{act_on_leases, read_lease_command};
