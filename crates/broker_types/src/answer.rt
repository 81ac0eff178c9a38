//! Answers, with the room for their replies, which is reserved before anything is committed.

ghost use Rattle.std.specs.Prelude.{◌≡◌, ◌≤◌, [], IfOk, string_bytes, vec_capacity, Option, option_map};
ghost use Rattle.broker_types.specs.Refusal.{errors_body, refusal_text, reason_text};

use crate::refusal::{Reason, Refusal};
use crate::status::{Methods, Status};
use crate::text::TextBuf;
use std::alloc::{AllocError, Global};
use std::marker::Model;

/// Empty room for the bytes of a reply, seen as the number of bytes that it takes.
#[derive(Drop)]
pub struct Room {
    bytes: Vec<u8>,
}

impl Model for Room {
    ghost use Rattle.std.specs.Prelude.{◌≡◌, ℕ, [], vec_capacity};

    ghost Value = { ℕ };

    ghost view = { λ r. vec_capacity r.bytes };

    ghost invariant = { λ r. r.bytes.items ≡ [] };
}

impl Room {
    /// Room for no bytes. It takes no memory.
    pub fn empty(alloc: Global) -> Room
        ensures { result ≡ 0 }
    {
        Room {
            bytes: Vec::new(alloc),
        }
    }

    /// Room for at least so many bytes. It fails only when out of memory.
    pub fn reserve(alloc: Global, len: usize) -> Result<Room, AllocError>
        ensures { IfOk result (λ room. len ≤ room) }
    {
        let mut bytes = Vec::new(alloc);
        bytes.reserve(len)?;
        Ok(Room { bytes })
    }

    /// The room as an empty `Vec`.
    pub fn into_vec(self) -> Vec<u8>
        ensures empty { result.items ≡ [] }
        ensures room { vec_capacity result ≡ self }
    {
        let Room { bytes } = self;
        bytes
    }
}

/// What the broker answers to a request, with room reserved for the bytes of its reply.
#[derive(Drop)]
pub struct Answer {
    /// The status of the reply.
    pub status: Status,
    /// The methods of the path, on 405.
    pub methods: Methods,
    /// The body.
    pub text: TextBuf,
    /// The room for the reply's head and body.
    pub room: Room,
}

impl Answer {
    ghost use Rattle.broker_types.specs.Answer.{response_of, HasRoom, refused};

    /// The answer, with room for its text and 1,024 bytes. It fails only when out of memory.
    pub fn new(
        alloc: Global,
        status: Status,
        methods: Methods,
        text: TextBuf,
    ) -> Result<Answer, AllocError>
        ensures response { IfOk result (λ a.
            response_of a ≡ record { status = status; methods = methods; text = text }) }
        ensures room { IfOk result HasRoom }
    {
        let room = Room::reserve(alloc, text.as_str().len() + 1024)?;
        Ok(Answer {
            status,
            methods,
            text,
            room,
        })
    }

    /// What is answered to a request that is refused. It fails only when out of memory.
    pub fn refused(alloc: Global, refusal: Refusal) -> Result<Answer, AllocError>
        ensures response { IfOk result (λ a. response_of a ≡ refused refusal) }
        ensures room { IfOk result HasRoom }
    {
        let text = body_of(alloc, refusal)?;
        Answer::new(alloc, refusal.status(), refusal.methods(), text)
    }
}

/// The body of a refusal.
fn body_of(alloc: Global, refusal: Refusal) -> Result<TextBuf, AllocError>
    ensures { IfOk result (λ t. t ≡ errors_body (refusal_text refusal)) }
{
    match refusal {
        Refusal::BadRequest(reason) => reason_body(alloc, reason),
        Refusal::Forbidden(denial) => errors_body(alloc, Some(denial.text())),
        Refusal::NotFound => errors_body(alloc, None),
        Refusal::MethodNotAllowed(_) => errors_body(alloc, Some("unsupported operation")),
        Refusal::IdentifierUsed => errors_body(alloc, Some("identifier already used")),
    }
}

fn reason_body(alloc: Global, reason: Reason) -> Result<TextBuf, AllocError>
    ensures { IfOk result (λ t. t ≡ errors_body (Option.Some (reason_text reason))) }
{
    let mut text = String::from_str(alloc, reason.opening())?;
    if let Some(field) = reason.field() {
        text.push_str(field.name())?;
    }
    errors_body(alloc, Some(text.as_str()))
}

/// The body of a refusal with this text, or with none: `{"errors":["text"]}` or `{"errors":[]}`, and
/// a line feed (Vault's documentation, "HTTP API", error response). The text is not escaped: no
/// listed text has a byte that JSON escapes. It fails only when out of memory.
#[tactic(auto, unfolding(crate::specs::Refusal::errors_body))]
pub fn errors_body(alloc: Global, text: Option<&str>) -> Result<TextBuf, AllocError>
    ensures { IfOk result (λ t. t ≡ errors_body (option_map (λ s. s.now) text.entry)) }
{
    let body = match text {
        None => String::from_str(alloc, "{\"errors\":[]}\n")?,
        Some(text) => format!(in alloc; "{{\"errors\":[\"{text}\"]}}\n")?,
    };
    Ok(TextBuf::new(body))
}
