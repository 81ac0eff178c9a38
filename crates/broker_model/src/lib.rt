//! What a request does to a broker: the definition of one step, and laws of its operations. There are no rows here, and
//! no code but the commands of which both the definition and the operations speak.
#![tactic(auto)]

mod commands;
mod laws;
mod making;

pub use commands::{
    CubbyholeCommand, IssuedCommand, LeaseCommand, MountCommand, Needs, PolicyCommand,
    SecretCommand, TokenCommand, WrappingCommand,
};
pub use laws::{
    cubbyholes_are_routed, operations_are_proper, operations_do_as_told,
    wrapping_commands_are_proper, wrapping_is_proper,
};
pub use making::Making;
