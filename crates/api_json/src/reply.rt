//! The bodies of replies.
ghost use Rattle.std.specs.Prelude.{◌≡◌, IfOk};
ghost use Rattle.api_json.specs.Reply.{reply_text, plain_reply, wrap_reply, lease_reply};

use crate::name::Name;
use crate::printing::ObjectText;
use broker_types::{Reply, TextBuf};
use std::alloc::{AllocError, Global};

/// Prints the body of a reply: compact JSON (RFC 8259), the members in the order of the bytes of their names, and a
/// line feed. The only error is running out of memory.
#[tactic(auto, unfolding(crate::specs::Reply::reply_text))]
pub fn reply_text(alloc: Global, reply: &Reply) -> Result<TextBuf, AllocError>
    ensures { IfOk result (λ t. t ≡ reply_text reply.now) }
{
    let mut text = ObjectText::new(alloc)?
        .or_null(Name::Auth, &reply.auth)?
        .or_null(Name::Payload, &reply.payload)?
        .number(Name::LeaseDuration, reply.lease_duration)?
        .text(Name::LeaseId, reply.lease_id.as_str())?
        .flag(Name::Renewable, reply.renewable)?
        .text(Name::RequestId, reply.request_id.as_str())?
        .null(Name::Warnings)?
        .or_null(Name::WrapInfo, &reply.wrap_info)?
        .finish()?
        .into_string();
    text.push_str("\n")?;
    Ok(TextBuf::new(text))
}

/// A reply with no more than what was asked for, the compact text of an object. The only error is running out of
/// memory.
pub fn plain_reply(alloc: Global, request: &str, payload: TextBuf) -> Result<Reply, AllocError>
    ensures { IfOk result (λ r. r ≡ plain_reply request.now payload) }
{
    Ok(Reply {
        auth: None,
        payload: Some(payload),
        lease_duration: 0,
        lease_id: TextBuf::new(String::new(alloc)),
        renewable: false,
        request_id: TextBuf::copied(alloc, request)?,
        wrap_info: None,
    })
}

/// A reply with no more than a wrapping token, the compact text of an object. The only error is running out of memory.
pub fn wrap_reply(alloc: Global, request: &str, info: TextBuf) -> Result<Reply, AllocError>
    ensures { IfOk result (λ r. r ≡ wrap_reply request.now info) }
{
    Ok(Reply {
        auth: None,
        payload: None,
        lease_duration: 0,
        lease_id: TextBuf::new(String::new(alloc)),
        renewable: false,
        request_id: TextBuf::copied(alloc, request)?,
        wrap_info: Some(info),
    })
}

/// A reply with a lease, which can be renewed: its id, the seconds to its end, and what was asked for, if anything was,
/// the compact text of an object. The only error is running out of memory.
pub fn lease_reply(
    alloc: Global,
    request: &str,
    lease_id: TextBuf,
    seconds: u64,
    payload: Option<TextBuf>,
) -> Result<Reply, AllocError>
    ensures { IfOk result (λ r. r ≡ lease_reply request.now lease_id seconds payload) }
{
    Ok(Reply {
        auth: None,
        payload,
        lease_duration: seconds,
        lease_id,
        renewable: true,
        request_id: TextBuf::copied(alloc, request)?,
        wrap_info: None,
    })
}
