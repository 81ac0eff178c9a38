//! Refusals that need no broker, with their answers (Vault's documentation, "HTTP API").

ghost use Rattle.std.specs.Prelude.{◌≡◌, IfOk, Option, option_map};
ghost use Rattle.broker_types.specs.Answer.{response_of, HasRoom};
ghost use Rattle.http_layer.specs.Refusing.{refusal_response, refusal_body, front_refused};

use broker_types::{Answer, Fault, Methods, Reason, Status, TextBuf, cutting_text, errors_body};
use std::alloc::{AllocError, Global};
use thiserror::Error;

/// A refusal of a request that asks nothing of the broker.
#[derive(Clone, Copy, Debug)]
pub struct HttpRefusal {
    /// The status of the reply.
    pub status: Status,
    /// The text of the error; none on 404 and 501.
    pub text: Option<&'static str>,
    /// Whether the connection closes, whatever the request says of it.
    pub close: bool,
}

/// Why a request has no ask.
#[derive(Debug, Drop, Error)]
pub enum AskError {
    /// The request is refused.
    #[error("the request is refused")]
    Refused(HttpRefusal),
    /// Memory ran out.
    #[error("{0}")]
    Fault(Fault),
}

impl From<HttpRefusal> for AskError {
    ghost use Rattle.std.specs.Prelude.{◌≡◌};
    ghost use Rattle.http_layer.specs.declared.refusal.AskError.TheVariants.{Refused};

    ghost from_gives = { λ refusal error. error ≡ Refused refusal };

    fn from(refusal: HttpRefusal) -> AskError {
        AskError::Refused(refusal)
    }
}

impl From<AllocError> for AskError {
    ghost use Rattle.std.specs.Prelude.{◌≡◌};
    ghost use Rattle.broker_types.specs.declared.fault.Fault.TheVariants.{Memory};
    ghost use Rattle.http_layer.specs.declared.refusal.AskError.TheVariants as error;

    ghost from_gives = { λ _ found. found ≡ error.Fault Memory };

    fn from(_: AllocError) -> AskError {
        AskError::Fault(Fault::Memory)
    }
}

impl HttpRefusal {
    ghost use Rattle.std.specs.Prelude.{◌≡◌, IfOk};
    ghost use Rattle.broker_types.specs.Answer.{response_of, HasRoom};
    ghost use Rattle.http_layer.specs.Refusing.{parts_of_refusal, ask_refused};
    ghost use Rattle.http_layer.specs.Asked.{unknown_method, unknown_target, bad_request};

    /// 501, for a method that the API does not have; the connection closes.
    pub(crate) fn unknown_method() -> HttpRefusal
        ensures { parts_of_refusal result ≡ unknown_method }
    {
        HttpRefusal {
            status: Status::NotImplemented,
            text: None,
            close: true,
        }
    }

    /// 404, for a target outside the API.
    pub(crate) fn unknown_target() -> HttpRefusal
        ensures { parts_of_refusal result ≡ unknown_target }
    {
        HttpRefusal {
            status: Status::NotFound,
            text: None,
            close: false,
        }
    }

    /// 400, for a reason that does not name a member of the body.
    pub(crate) fn bad_request(reason: Reason) -> HttpRefusal
        ensures { parts_of_refusal result ≡ bad_request reason }
    {
        HttpRefusal {
            status: Status::BadRequest,
            text: Some(reason.opening()),
            close: false,
        }
    }

    /// The answer (Vault's documentation, "HTTP API", error response): `{"errors":["text"]}` or
    /// `{"errors":[]}` and a line feed, and no body on 501. The only error is running out of memory.
    pub fn answer(&self, alloc: Global) -> Result<Answer, AllocError>
        ensures response { IfOk result (λ a. response_of a ≡ ask_refused (parts_of_refusal self.now)) }
        ensures room { IfOk result HasRoom }
    {
        answer_of(alloc, self.status, self.text)
    }
}

/// The answer to a front that is refused with the status (Vault's documentation, "HTTP API", error
/// response). The text of the error is `malformed request` on 400, `request body too large` on 413 and
/// `request head too large` on 431. There is no body on 501, and no text on any other status. The only
/// error is running out of memory.
pub fn front_refusal(alloc: Global, status: Status) -> Result<Answer, AllocError>
    ensures response { IfOk result (λ a. response_of a ≡ front_refused status) }
    ensures room { IfOk result HasRoom }
{
    answer_of(alloc, status, cutting_text(status))
}

fn answer_of(alloc: Global, status: Status, text: Option<&str>) -> Result<Answer, AllocError>
    ensures response { IfOk result (λ a.
        response_of a ≡ refusal_response status (option_map (λ s. s.now) text.entry)) }
    ensures room { IfOk result HasRoom }
{
    let body = refusal_body(alloc, status, text)?;
    Answer::new(alloc, status, Methods::none(), body)
}

fn refusal_body(alloc: Global, status: Status, text: Option<&str>) -> Result<TextBuf, AllocError>
    ensures { IfOk result (λ t. t ≡ refusal_body status (option_map (λ s. s.now) text.entry)) }
{
    match status {
        Status::NotImplemented => TextBuf::copied(alloc, ""),
        _ => errors_body(alloc, text),
    }
}
