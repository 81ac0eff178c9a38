//! Look-up of tokens.

ghost use Rattle.std.specs.Prelude.{◌≡◌, [], IfOk, None, Ok, Option};
ghost use Rattle.broker_types.specs.Fault.{IsNotBadStart};
ghost use Rattle.broker_types.specs.Names.{names_of};
ghost use Rattle.broker_types.specs.Operation as operation;
ghost use Rattle.broker_types.specs.Text.{Text};
ghost use Rattle.records.specs.Calls.{IsRequestReading};
ghost use Rattle.records.specs.Ranges.{IsTokenInRange};
ghost use Rattle.broker_model.specs.parts.TokenReplies.{token_reply};
ghost use Rattle.broker_model.specs.parts.Tokens as part;
ghost use Rattle.broker_rows.specs.Done.{answered_of};
ghost use Rattle.broker_rows.specs.Operating.{Performs};

use crate::copying::copied_token;
use crate::shown::looked_up;
use api_json::{keys_object, token_object};
use broker_rows::{Answered, Caller, Context};
use broker_types::{Denial, Reason, Refusal, RequestError};
use records::{RecordsTx, TokenRecord};
use std::alloc::AllocError;
use token_tree::{accessors, find, find_accessor};

/// Shows a token under an id. One that is not there is 403 `bad token`.
pub(crate) fn look_up<T: RecordsTx>(
    tx: &mut T,
    context: &Context<'_>,
    token: &str,
    id: &str,
) -> Result<Answered, RequestError>
    ensures told { (who : Option Text) → Performs who context.now [] (T.seen tx.old) (T.seen tx.new)
        (λ b. part.look_up b (names_of context.now.words) token.now id.now) result }
    ensures call { IsRequestReading (T.seen tx.old) (T.seen tx.new) result IsNotBadStart }
{
    let Some(found) = find(context.alloc, tx, token)? else {
        return Err(RequestError::Refused(Refusal::Forbidden(Denial::BadToken)));
    };
    Ok(shown(context, found, id)?)
}

/// Shows the caller's token, by what is known of it.
pub(crate) fn look_up_self(
    context: &Context<'_>,
    caller: &Caller<'_>,
) -> Result<Answered, AllocError>
    requires { IsTokenInRange caller.now.known }
    ensures { IfOk result (λ a. answered_of a ≡ operation.reply
        (token_reply (names_of context.now.words).request context.now.clock caller.now.token caller.now.known) None) }
{
    let known = copied_token(context.alloc, &caller.known)?;
    shown(context, known, caller.token)
}

/// Shows a token that was found under an id.
fn shown(context: &Context<'_>, found: TokenRecord, id: &str) -> Result<Answered, AllocError>
    requires { IsTokenInRange found }
    ensures { IfOk result (λ a. answered_of a ≡ operation.reply
        (token_reply (names_of context.now.words).request context.now.clock id.now found) None) }
{
    let token = looked_up(context.alloc, found, context.clock, id)?;
    let object = token_object(context.alloc, &token)?;
    Answered::shown(context, object)
}

/// Shows the token of an accessor, without its text. An accessor of none is 400 `invalid accessor`.
pub(crate) fn look_up_accessor<T: RecordsTx>(
    tx: &mut T,
    context: &Context<'_>,
    accessor: &str,
) -> Result<Answered, RequestError>
    ensures told { (who : Option Text) → Performs who context.now [] (T.seen tx.old) (T.seen tx.new)
        (λ b. part.look_up_accessor b (names_of context.now.words) accessor.now) result }
    ensures call { IsRequestReading (T.seen tx.old) (T.seen tx.new) result IsNotBadStart }
{
    let Some(token) = find_accessor(tx, accessor)? else {
        return Err(RequestError::Refused(Refusal::BadRequest(Reason::InvalidAccessor)));
    };
    look_up(tx, context, token.as_str(), "")
}

/// Lists the accessors of all tokens.
pub(crate) fn list_accessors<T: RecordsTx>(
    tx: &mut T,
    context: &Context<'_>,
) -> Result<Answered, RequestError>
    ensures told { (who : Option Text) → Performs who context.now [] (T.seen tx.old) (T.seen tx.new)
        (λ b. Ok (part.all_accessors b (names_of context.now.words))) result }
    ensures call { IsRequestReading (T.seen tx.old) (T.seen tx.new) result IsNotBadStart }
{
    let names = accessors(context.alloc, tx)?;
    let object = keys_object(context.alloc, &names)?;
    Ok(Answered::shown(context, object)?)
}
