//! Why the broker of a file is not served.

use broker_types::Fault;
use database_check::Defect;
use hub::ConnectionFault;

/// Why the broker of a file is not served, or no longer.
#[derive(Drop)]
pub enum ServeError {
    /// This row keeps the file from having the rows of a sound broker.
    Unsound(Defect),
    /// A fault.
    Faulted(ConnectionFault),
}

impl From<ConnectionFault> for ServeError {
    ghost use Rattle.std.specs.Prelude.{◌≡◌};
    ghost use Rattle.broker_server.specs.declared.serve_error.ServeError.TheVariants.{Faulted};

    ghost from_gives = { λ fault error. error ≡ Faulted fault };

    fn from(fault: ConnectionFault) -> ServeError {
        ServeError::Faulted(fault)
    }
}

impl From<Fault> for ServeError {
    ghost use Rattle.std.specs.Prelude.{◌≡◌};
    ghost use Rattle.hub.specs.declared.serve.ConnectionFault.TheVariants.{Broker};
    ghost use Rattle.broker_server.specs.declared.serve_error.ServeError.TheVariants.{Faulted};

    ghost from_gives = { λ fault error. error ≡ Faulted (Broker fault) };

    fn from(fault: Fault) -> ServeError {
        ServeError::Faulted(ConnectionFault::Broker(fault))
    }
}
