//! Operations on secrets, each over the rows of a transaction: those of cubbyholes, the versioned ones of mounts, and
//! issued credentials.
#![tactic(auto)]

mod cubbyholes;
mod issued;
mod place;
mod secrets;

pub use cubbyholes::{act_on_cubbyholes, read_cubbyhole_command};
pub use issued::{act_on_issued, read_issued_command};
pub use place::Place;
pub use secrets::{act_on_secrets, read_secret_command};
