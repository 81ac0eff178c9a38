//! Requests that need no caller (Vault's documentation, "/sys/wrapping").

ghost use Rattle.std.specs.Prelude.{◌≡◌, ◌≤◌, true, None, IfOk, IfErr, length};
ghost use Rattle.api_json.specs.Reads.{IsRead};
ghost use Rattle.broker_types.specs.Broker.{Broker};
ghost use Rattle.broker_types.specs.Fault.{IsNotBadStart};
ghost use Rattle.broker_types.specs.Limits.{longest_body};
ghost use Rattle.broker_types.specs.Names.{names_of};
ghost use Rattle.broker_types.specs.RequestError.{Ends};
ghost use Rattle.broker_types.specs.declared.fault.Fault.TheVariants.{Memory};
ghost use Rattle.records.specs.Calls.{IsRequestCall};
ghost use Rattle.records.specs.Transaction.{IsHonest};
ghost use Rattle.broker_model.specs.ServedAsks as serving;
ghost use Rattle.broker_model.specs.ServedAsks.{answered_openly, served};
ghost use Rattle.broker_model.specs.parts.WrappingCommands as commands;
ghost use Rattle.broker_model.specs.parts.WrappingCommands.{is_own, is_own_if_read, token_named};
ghost use Rattle.broker_rows.specs.Operating.{Begins};
ghost use Rattle.broker_rows.specs.Representing.{Represents, Gives};
ghost use Rattle.broker.specs.Safely.{AnswersSafely};
ghost use Rattle.broker.specs.Stages.{IsServed};

use crate::answers::{answer, refuse};
use crate::command::read_command;
use crate::order::operating::operate;
use api_json::{read_body, wrapping_token};
use broker_rows::{Answered, Context};
use broker_types::{Answer, Ask, CowText, Fault, RequestError, TextBuf, Verb};
use mounts::{Opens, Routers, operation_at, route};
use records::RecordsTx;
use std::alloc::Global;

/// Whether an ask needs no caller, as a look-up of a wrapping token, and an unwrap or a rewrap of the client token. The
/// only fault is running out of memory.
pub(crate) fn is_open(alloc: Global, ask: &Ask<'_>) -> Result<bool, Fault>
    ensures value { IfOk result (λ v. v ≡ serving.is_open ask.now) }
    ensures memory { IfErr result (λ fault. fault ≡ Memory) }
{
    match opening(ask.verb, ask.path.as_str()) {
        Opens::Never => Ok(false),
        Opens::Always => Ok(true),
        Opens::WithItsOwn => names_own(alloc, ask),
    }
}

/// Whether the operation of a verb at a path needs no caller. Without an operation there a caller is needed.
fn opening(verb: Verb, path: &str) -> Opens
    ensures { result ≡ commands.opening verb path.now }
{
    match operation_at(verb, path) {
        Some(operation) => operation.facts().opens,
        None => Opens::Never,
    }
}

/// Whether the body of an ask can be read and names no wrapping token but the client token.
fn names_own(alloc: Global, ask: &Ask<'_>) -> Result<bool, Fault>
    ensures value { IfOk result (λ v. v ≡ is_own_if_read ask.now.token (token_named ask.now.body)) }
    ensures memory { IfErr result (λ fault. fault ≡ Memory) }
{
    match named(alloc, ask.body.as_slice()) {
        Ok(named) => Ok(is_own(&ask.token, &named)),
        Err(RequestError::Refused(_)) => Ok(false),
        Err(RequestError::Fault(fault)) => Err(fault),
    }
}

/// The wrapping token that a body names, if it names one. The only fault is running out of memory.
fn named(alloc: Global, body: &[u8]) -> Result<Option<TextBuf>, RequestError>
    requires { length body.now ≤ longest_body }
    ensures { IsRead (token_named body.now) result }
{
    let members = read_body(alloc, body)?;
    wrapping_token(alloc, &members)
}

/// Whether the wrapping token that a body names, if it names one, is the client token. An empty text names none.
#[tactic(auto, unfolding(broker_types::specs::Text::same))]
fn is_own(client: &Option<CowText<'_>>, named: &Option<TextBuf>) -> bool
    ensures { result ≡ is_own client.now named.now }
{
    match (client, named) {
        (_, None) => true,
        (None, Some(named)) => named.as_str().is_empty(),
        (Some(client), Some(named)) => {
            named.as_str().is_empty() || named.as_str() == client.as_str()
        }
    }
}

/// Answers an ask that needs no caller: it is served or refused.
pub(crate) fn answer_openly<T: RecordsTx>(
    routers: &Routers,
    tx: &mut T,
    context: &Context<'_>,
    ask: &Ask<'_>,
) -> Result<Answer, Fault>
    ensures told { serving.is_open ask.now ≡ true → IsHonest (T.seen tx.new) → (b : Broker)
        → Begins None context.now (T.seen tx.old).rows b
        → IfOk result (λ a. Gives a (T.seen tx.new).rows (answered_openly b (names_of context.now.words) ask.now)) }
    ensures safely { AnswersSafely (T.seen tx.old) (T.seen tx.new)
        (λ b. (serving.is_open ask.now ≡ true) × Begins None context.now (T.seen tx.old).rows b) result }
    ensures faults { IfErr result IsNotBadStart }
{
    match serve_openly(routers, tx, context, ask) {
        Ok(answered) => Ok(answer(context.alloc, answered)?),
        Err(RequestError::Refused(refusal)) => refuse(context.alloc, refusal),
        Err(RequestError::Fault(fault)) => Err(fault),
    }
}

/// Serves an ask that needs no caller.
fn serve_openly<T: RecordsTx>(
    routers: &Routers,
    tx: &mut T,
    context: &Context<'_>,
    ask: &Ask<'_>,
) -> Result<Answered, RequestError>
    ensures told { serving.is_open ask.now ≡ true → IsHonest (T.seen tx.new) → (b : Broker)
        → Begins None context.now (T.seen tx.old).rows b
        → Ends (IsServed None (T.seen tx.new).rows) (Represents None (T.seen tx.new).rows b)
        result (served b None (names_of context.now.words) ask.now) }
    ensures call { IsRequestCall (T.seen tx.old) (T.seen tx.new) result IsNotBadStart }
{
    let path = ask.path.as_str();
    let found = route(routers, tx, ask.verb, path)?;
    let command = read_command(context.alloc, ask, &found)?;
    operate(tx, context, &None, ask, command)
}
