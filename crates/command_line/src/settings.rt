//! The options of the client, before or after its command.

use api_client::{FieldText, ShortText};

/// What the options of a command line say.
#[derive(Drop)]
pub struct Settings<'a> {
    /// The server: a host and a port.
    pub address: FieldText<'a>,
    /// The client token of `--token`.
    pub token: Option<FieldText<'a>>,
    /// How long the server is to keep the reply for unwrapping, as it is sent.
    pub wrap_ttl: Option<FieldText<'a>>,
    /// Which member of the reply is printed alone.
    pub field: Option<ShortText<'a>>,
    /// The file whose first line is the client token.
    pub token_file: Option<ShortText<'a>>,
    /// How many seconds the client tries to reach the server, 1 to 86,400.
    pub wait: Option<u64>,
    /// How many seconds it waits for the server each time, 1 to 86,400.
    pub timeout: Option<u64>,
    /// Whether the exit status tells an unreached server, a 403 and a 404 from the rest.
    pub exit_codes: bool,
}
