//! Requests on responses that wait under wrapping tokens (Vault's documentation, "/sys/wrapping").

ghost use Rattle.std.specs.Prelude.{◌≡◌, ◌≤◌, [], None, Option, Some, IfErr, IfOk, length};
ghost use Rattle.broker_types.specs.Broker.{Broker};
ghost use Rattle.broker_types.specs.Fault.{IsMemoryOrStorage, IsNotBadStart};
ghost use Rattle.broker_types.specs.Limits.{longest_body};
ghost use Rattle.broker_types.specs.Names.{names_of};
ghost use Rattle.broker_types.specs.Text.{Text};
ghost use Rattle.broker_types.specs.TokenText.{token_text};
ghost use Rattle.records.specs.Transaction.{IsHonest};
ghost use Rattle.records.specs.Calls.{IsCall, IsRequestCall, IsRequestReading};
ghost use Rattle.api_json.specs.Reads.{IsRead};
ghost use Rattle.broker_model.specs.Order.{wrap_info};
ghost use Rattle.broker_model.specs.Traits.{names_needed, wrapping_names};
ghost use Rattle.broker_model.specs.declared.commands.WrappingCommand.TheVariants as commands;
ghost use Rattle.broker_model.specs.parts.Wrappings as part;
ghost use Rattle.broker_model.specs.parts.WrappingCommands.{token_meant, wrapping_command, wrapping_needs};
ghost use Rattle.broker_rows.specs.Context as known;
ghost use Rattle.broker_rows.specs.Operating.{ArePrinted, Begins, Performs};
ghost use Rattle.system_operations.specs.Rewrapping.{MovesResponse};

use api_json::{WrapObject, read_body, waiting_object, wrap_object, wrap_reply, wrapping_token};
use broker_model::{WrappingCommand, wrapping_commands_are_proper};
use broker_rows::{Answered, Context, moment, use_up};
use broker_types::{
    CowText, Fault, Moment, Reason, Refusal, RequestError, TextBuf, TokenText, id_text,
};
use mounts::WrappingOperation;
use records::RecordsTx;
use std::alloc::{AllocError, Global};
use wrapping::{WaitingResponse, look, take};

/// The refusal of a wrapping token that is not there, or was used before, or of none.
const NOT_WAITING: RequestError = RequestError::Refused(Refusal::BadRequest(
    Reason::InvalidWrappingToken,
));

/// Reads what an operation on responses asks for, from the client token and the body. The wrapping token that is meant
/// is that which the body names, else the client token. It is refused with 400 `failed to parse JSON input` if the body
/// is no object, and with 400 `invalid field: token` if the wrapping token that it names is no text. The only fault is
/// running out of memory.
pub fn read_wrapping_command(
    alloc: Global,
    operation: WrappingOperation,
    client: &Option<CowText<'_>>,
    body: &[u8],
) -> Result<WrappingCommand, RequestError>
    requires { length body.now ≤ longest_body }
    ensures reads { IsRead (wrapping_command operation client.now body.now) result }
{
    let members = read_body(alloc, body)?;
    match operation {
        WrappingOperation::Wrap => Ok(WrappingCommand::Wrap(members.into_text(alloc)?)),
        WrappingOperation::LookUp => {
            let named = wrapping_token(alloc, &members)?;
            Ok(WrappingCommand::LookUp(token_meant(alloc, client, named)?))
        }
        WrappingOperation::Rewrap => {
            let named = wrapping_token(alloc, &members)?;
            Ok(WrappingCommand::Rewrap(token_meant(alloc, client, named)?))
        }
        WrappingOperation::Unwrap => {
            let named = wrapping_token(alloc, &members)?;
            Ok(WrappingCommand::Unwrap(token_meant(alloc, client, named)?))
        }
    }
}

/// The wrapping token that is meant, if one is: that which the body names, else the client token. An empty text names
/// none.
fn token_meant(
    alloc: Global,
    client: &Option<CowText<'_>>,
    named: Option<TextBuf>,
) -> Result<Option<TextBuf>, AllocError>
    ensures { IfOk result (λ meant. meant ≡ token_meant client.now named) }
{
    let Some(named) = named else {
        return client_token(alloc, client);
    };
    if named.as_str().is_empty() {
        return client_token(alloc, client);
    }
    Ok(Some(named))
}

/// A copy of the client token, if there is one.
fn client_token(alloc: Global, client: &Option<CowText<'_>>) -> Result<Option<TextBuf>, AllocError>
    ensures { IfOk result (λ token. token ≡ client.now) }
{
    TextBuf::copied_if_some(alloc, client.as_ref().map(|token| token.as_str()))
}

/// Carries out a command on responses, with a caller or without. The identifiers that it needs have been printed. If no
/// response waits under the wrapping token that is meant, or none is meant, it is refused with 400 `wrapping token is
/// not valid or does not exist`. It fails with `Memory` if memory runs out, with `Storage` if the transaction's storage
/// failed, and with `Damaged` if the row of the response cannot be read (Vault's documentation, "/sys/wrapping").
pub fn act_on_wrappings<T: RecordsTx>(
    tx: &mut T,
    context: &Context<'_>,
    own: &[TextBuf],
    command: WrappingCommand,
) -> Result<Answered, RequestError>
    requires own { ArePrinted own.now (names_needed (wrapping_needs command) (names_of context.now.words)) }
    ensures told { (who : Option Text)
        → Performs who context.now (names_needed (wrapping_needs command) (names_of context.now.words))
        (T.seen tx.old) (T.seen tx.new)
        (λ b. part.act_on_wrappings b (names_of context.now.words) command) result }
    ensures call { IsRequestCall (T.seen tx.old) (T.seen tx.new) result IsNotBadStart }
{
    match command {
        WrappingCommand::Wrap(text) => Ok(Answered::shown(context, text)?),
        WrappingCommand::LookUp(Some(token)) => look_up(tx, context, token.as_str()),
        WrappingCommand::Rewrap(Some(token)) => rewrap(tx, context, own, token.as_str()),
        WrappingCommand::Unwrap(Some(token)) => unwrap(context.alloc, tx, token.as_str()),
        WrappingCommand::LookUp(None) => Err(NOT_WAITING),
        WrappingCommand::Rewrap(None) => Err(NOT_WAITING),
        WrappingCommand::Unwrap(None) => Err(NOT_WAITING),
    }
}

/// Shows the response that waits under a wrapping token, without its text. It stays.
fn look_up<T: RecordsTx>(
    tx: &mut T,
    context: &Context<'_>,
    token: &str,
) -> Result<Answered, RequestError>
    ensures told { (who : Option Text) → Performs who context.now [] (T.seen tx.old) (T.seen tx.new)
        (λ b. part.act_on_wrappings b (names_of context.now.words) (commands.LookUp (Some token.now))) result }
    ensures call { IsRequestReading (T.seen tx.old) (T.seen tx.new) result IsNotBadStart }
{
    let Some(response) = look(context.alloc, tx, token)? else {
        return Err(NOT_WAITING);
    };
    let created = moment(response.created);
    let object = waiting_object(context.alloc, response.path.as_str(), created, response.ttl)?;
    Ok(Answered::shown(context, object)?)
}

/// Moves the response that waits under a wrapping token to the one of the request's words, and answers with that. The
/// old wrapping token is not good any more. The identifiers of the new one are new, and have been printed.
fn rewrap<T: RecordsTx>(
    tx: &mut T,
    context: &Context<'_>,
    own: &[TextBuf],
    token: &str,
) -> Result<Answered, RequestError>
    requires own { ArePrinted own.now (wrapping_names (names_of context.now.words)) }
    ensures told { (who : Option Text) → Performs who context.now (wrapping_names (names_of context.now.words))
        (T.seen tx.old) (T.seen tx.new)
        (λ b. part.act_on_wrappings b (names_of context.now.words) (commands.Rewrap (Some token.now))) result }
    ensures call { IsRequestCall (T.seen tx.old) (T.seen tx.new) result IsNotBadStart }
{
    let alloc = context.alloc;
    let new_token = TokenText::of_word(alloc, context.words.wrapping_token())?;
    let Some(response) = move_response(tx, context, own, token, new_token.as_str())? else {
        return Err(NOT_WAITING);
    };
    let token = TextBuf::copied(alloc, new_token.as_str())?;
    let info = wrap_info(alloc, token, response, context.clock)?;
    let request = id_text(alloc, context.words.request())?;
    Ok(Answered::Given(wrap_reply(alloc, request.as_str(), info)?))
}

/// Moves the response that waits under a wrapping token to another, marks the identifiers of this one as given out, and
/// answers the response as it waits there. If none waits under the token, nothing changes.
fn move_response<T: RecordsTx>(
    tx: &mut T,
    context: &Context<'_>,
    own: &[TextBuf],
    token: &str,
    new_token: &str,
) -> Result<Option<WaitingResponse>, Fault>
    requires own { ArePrinted own.now (wrapping_names (names_of context.now.words)) }
    requires named { new_token.now ≡ token_text (names_of context.now.words).wrapping_token }
    ensures told { (who : Option Text)
        → MovesResponse who context.now (T.seen tx.old) (T.seen tx.new) token.now result }
    ensures unknown { IsHonest (T.seen tx.new) → IfOk result (λ found.
        found ≡ None → (T.seen tx.new).rows ≡ (T.seen tx.old).rows) }
    ensures wants { IsHonest (T.seen tx.new) → (who : Option Text) (b : Broker)
        → Begins who context.now (T.seen tx.old).rows b → IfErr result IsMemoryOrStorage }
    ensures call { IsCall (T.seen tx.old) (T.seen tx.new) result IsNotBadStart }
{
    let alloc = context.alloc;
    wrapping_commands_are_proper();
    let identifier = own[0].as_str();
    let accessor = own[1].as_str();
    let Some(response) = wrapping::rewrap(alloc, tx, token, new_token, accessor, context.clock)?
    else {
        return Ok(None);
    };
    use_up(alloc, tx, accessor)?;
    use_up(alloc, tx, identifier)?;
    Ok(Some(response))
}

/// What a reply says of a wrapping token, made at the clock, under which a response waits.
fn wrap_info(
    alloc: Global,
    token: TextBuf,
    response: WaitingResponse,
    clock: Moment,
) -> Result<TextBuf, AllocError>
    ensures { IfOk result (λ info. info ≡ wrap_info token (record response { created = clock }) None) }
{
    let WaitingResponse {
        accessor,
        ttl,
        path,
        ..
    } = response;
    let object = WrapObject {
        accessor,
        creation_path: path,
        created: clock,
        token,
        ttl,
        wrapped_accessor: None,
    };
    wrap_object(alloc, &object)
}

/// Hands out the response that waits under a wrapping token: the text of the reply, byte for byte. It is gone then.
fn unwrap<T: RecordsTx>(alloc: Global, tx: &mut T, token: &str) -> Result<Answered, RequestError>
    ensures told { (who : Option Text) (x : known.Context) → Performs who x [] (T.seen tx.old) (T.seen tx.new)
        (λ b. part.act_on_wrappings b (names_of x.words) (commands.Unwrap (Some token.now))) result }
    ensures call { IsRequestCall (T.seen tx.old) (T.seen tx.new) result IsNotBadStart }
{
    let Some(text) = take(alloc, tx, token)? else {
        return Err(NOT_WAITING);
    };
    Ok(Answered::Kept(text))
}
