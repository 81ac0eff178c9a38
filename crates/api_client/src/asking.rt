//! What is sent is read as it was meant: functions that do nothing, each with a fact as its contract.

ghost use Rattle.std.specs.Prelude.{◌^◌, ◌<◌, All, IfSome};
ghost use Rattle.api_client.specs.Asking.{Asks, IsOptionalField, IsPathText, IsSendable};
ghost use Rattle.api_client.specs.Requests.{sent};

use crate::argument::FieldText;
use crate::command::{Command, Request};
use broker_types::Path;
use http_layer::front_laws;

/// The bytes that are sent for the command are one whole request with nothing after it, which asks what
/// the command means.
pub(crate) fn is_read_as_meant(command: &Command<'_>)
    ensures { Asks (sent command.now) command.now }
{
    front_laws();
    let _ = command.address.as_str();
    is_optional_field(&command.token);
    is_optional_field(&command.wrap_ttl);
    is_sendable(&command.request);
}

fn is_optional_field(value: &Option<FieldText<'_>>)
    ensures { IsOptionalField value.now }
{
    if let Some(value) = value {
        let _ = value.as_str();
    }
}

fn is_sendable(request: &Request<'_>)
    ensures { IsSendable request.now }
{
    match request {
        Request::Read(path, version) => {
            is_path_text(path);
            is_version(version);
        }
        Request::List(path) | Request::Delete(path) => is_path_text(path),
        Request::Write(path, body) => {
            is_path_text(path);
            let _ = body.as_slice();
        }
        Request::Unwrap(Some(token)) => {
            let _ = token.as_str();
        }
        Request::Unwrap(None) => {}
    }
}

fn is_version(version: &Option<u64>)
    ensures { IfSome version.now (λ n. n < 2 ^ 64) }
{
    if let Some(version) = version {
        let _version = *version;
    }
}

fn is_path_text(path: &Path<'_>)
    ensures { IsPathText path.now }
{
    are_bytes(path.as_str().as_bytes());
}

fn are_bytes(bytes: &[u8])
    ensures { All (λ b. b < 256) bytes.now }
{}
