//! The command that a command line gives, of arguments that were tested.

use crate::argument::{FieldText, ShortText};
use broker_types::{BodyBytes, Path};

/// What the client is asked to do: to send one request to one server.
#[derive(Drop)]
pub struct Command<'a> {
    /// The server: a host and a port.
    pub address: FieldText<'a>,
    /// The client token, if one is sent.
    pub token: Option<FieldText<'a>>,
    /// How long the server is to keep the reply for unwrapping, as it is sent.
    pub wrap_ttl: Option<FieldText<'a>>,
    /// What is asked of the server.
    pub request: Request<'a>,
}

/// What is asked of a server (Vault's documentation, "HTTP API" and "Response wrapping").
#[derive(Drop)]
pub enum Request<'a> {
    /// What is at a path, or a version of it (Vault's documentation, "KV secrets engine, version 2").
    Read(Path<'a>, Option<u64>),
    Write(Path<'a>, BodyBytes<'a>),
    List(Path<'a>),
    Delete(Path<'a>),
    /// The reply that waits for the token that is given, or for the client token.
    Unwrap(Option<ShortText<'a>>),
}
