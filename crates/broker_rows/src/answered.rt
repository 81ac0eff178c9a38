//! Answers of operations, before they have a status and a body.

ghost use Rattle.std.specs.Prelude.{◌≡◌, None, IfOk};
ghost use Rattle.api_json.specs.Reply.{plain_reply};
ghost use Rattle.broker_types.specs.Names.{names_of};
ghost use Rattle.broker_types.specs.Operation as operation;
ghost use Rattle.broker_rows.specs.Done.{answered_of};

use crate::context::Context;
use api_json::plain_reply;
use broker_types::{Reply, TextBuf, id_text};
use std::alloc::AllocError;

/// What an operation answers (Vault's documentation, "HTTP API", status codes).
#[derive(Drop)]
pub enum Answered {
    /// 204.
    Nothing,
    /// 200 with a reply.
    Given(Reply),
    /// 200 with the reply that made a token, and its accessor.
    Made(Reply, TextBuf),
    /// 200 with a text that was kept, as it is.
    Kept(TextBuf),
    /// 404 with a reply.
    Missing(Reply),
}

impl Answered {
    /// What an operation answers that shows an object: 200 with the reply to the request. It fails if memory runs out.
    pub fn shown(context: &Context<'_>, object: TextBuf) -> Result<Answered, AllocError>
        ensures { IfOk result (λ a. answered_of a
            ≡ operation.reply (plain_reply (names_of context.now.words).request object) None) }
    {
        let request = id_text(context.alloc, context.words.request())?;
        Ok(Answered::Given(plain_reply(context.alloc, request.as_str(), object)?))
    }
}
