//! Requests on tokens: what they ask for, and what is done (Vault's documentation, "Token auth method (API)").

ghost use Rattle.std.specs.Prelude.{◌≤◌, IfOk, length};
ghost use Rattle.broker_types.specs.Fault.{IsNotBadStart};
ghost use Rattle.broker_types.specs.Names.{names_of};
ghost use Rattle.records.specs.Calls.{IsRequestCall};
ghost use Rattle.records.specs.Ranges.{IsTokenInRange};
ghost use Rattle.broker_model.specs.Traits.{names_needed};
ghost use Rattle.broker_model.specs.parts.TokenCommands.{token_needs, token_command};
ghost use Rattle.broker_model.specs.parts.Tokens as part;
ghost use Rattle.broker_rows.specs.Caller.{AreItsRules};
ghost use Rattle.broker_rows.specs.Operating.{ArePrinted, PerformsBy};
ghost use Rattle.token_operations.specs.TokenRanges.{IsTokenCommandInRange};
ghost use Rattle.broker_types.specs.Limits.{longest_body};
ghost use Rattle.api_json.specs.Readers as reader;
ghost use Rattle.api_json.specs.Reads.{IsRead};
ghost use Rattle.broker_model.specs.declared.commands.TokenCommand.TheVariants as command;
ghost use Rattle.broker_model.specs.parts.Bodies.{read_as};

use crate::creation::create;
use crate::lookup::{list_accessors, look_up, look_up_accessor, look_up_self};
use crate::renewal::renew;
use crate::revocation::{Descent, revoke, revoke_accessor};
use api_json::{accessor, increment, read_body, token, token_creation, token_renewal};
use broker_model::{Making, TokenCommand};
use broker_rows::{Answered, Asker, Context};
use broker_types::{RequestError, TextBuf};
use mounts::TokenOperation;
use records::RecordsTx;
use std::alloc::Global;

/// Reads what an operation on tokens asks for. A body that is wrong is refused with 400, as the readers of its members
/// say. The only fault is running out of memory.
pub fn read_token_command(
    alloc: Global,
    operation: TokenOperation,
    body: &[u8],
) -> Result<TokenCommand, RequestError>
    requires { length body.now ≤ longest_body }
    ensures reads { IsRead (token_command operation body.now) result }
    ensures in_range { IfOk result IsTokenCommandInRange }
{
    match operation {
        TokenOperation::Create => creation(alloc, Making::OfCaller, body),
        TokenOperation::CreateOrphan => creation(alloc, Making::WithoutParent, body),
        TokenOperation::LookUp => {
            Ok(TokenCommand::LookUp(token(alloc, &read_body(alloc, body)?)?))
        }
        TokenOperation::LookUpSelf => Ok(TokenCommand::LookUpSelf),
        TokenOperation::LookUpAccessor => {
            Ok(TokenCommand::LookUpAccessor(accessor(alloc, &read_body(alloc, body)?)?))
        }
        TokenOperation::Renew => {
            Ok(TokenCommand::Renew(token_renewal(alloc, &read_body(alloc, body)?)?))
        }
        TokenOperation::RenewSelf => {
            Ok(TokenCommand::RenewSelf(increment(alloc, &read_body(alloc, body)?)?))
        }
        TokenOperation::Revoke => {
            Ok(TokenCommand::Revoke(token(alloc, &read_body(alloc, body)?)?))
        }
        TokenOperation::RevokeOrphan => {
            Ok(TokenCommand::RevokeOrphan(token(alloc, &read_body(alloc, body)?)?))
        }
        TokenOperation::RevokeSelf => {
            read_body(alloc, body)?;
            Ok(TokenCommand::RevokeSelf)
        }
        TokenOperation::RevokeAccessor => {
            Ok(TokenCommand::RevokeAccessor(accessor(alloc, &read_body(alloc, body)?)?))
        }
        TokenOperation::ListAccessors => Ok(TokenCommand::ListAccessors),
    }
}

/// Reads what a body asks of a new token.
fn creation(alloc: Global, making: Making, body: &[u8]) -> Result<TokenCommand, RequestError>
    requires { length body.now ≤ longest_body }
    ensures reads { IsRead (read_as reader.token_creation (command.Create making) body.now) result }
    ensures in_range { IfOk result IsTokenCommandInRange }
{
    let members = read_body(alloc, body)?;
    Ok(TokenCommand::Create(making, token_creation(alloc, &members)?))
}

/// Carries out a command on tokens of the caller who asks. The identifiers that it needs have been printed. It may be
/// refused. It fails with `Memory` if memory runs out, with `Storage` if the transaction's storage failed, and with
/// `Damaged` if a row that it asks for cannot be read.
pub fn act_on_tokens<T: RecordsTx>(
    tx: &mut T,
    context: &Context<'_>,
    asker: &Asker<'_>,
    own: &[TextBuf],
    command: TokenCommand,
) -> Result<Answered, RequestError>
    requires in_range { IsTokenCommandInRange command }
    requires known { IsTokenInRange asker.now.caller.known }
    requires own { ArePrinted own.now (names_needed (token_needs command) (names_of context.now.words)) }
    ensures told { AreItsRules (T.seen tx.old).rows asker.now
        → PerformsBy asker.now.caller context.now (names_needed (token_needs command) (names_of context.now.words))
        (T.seen tx.old) (T.seen tx.new)
        (λ b. part.act_on_tokens b asker.now.caller.token (names_of context.now.words) command) result }
    ensures call { IsRequestCall (T.seen tx.old) (T.seen tx.new) result IsNotBadStart }
{
    let alloc = context.alloc;
    match command {
        TokenCommand::Create(making, asked) => create(tx, context, asker, own, making, &asked),
        TokenCommand::LookUp(token) => look_up(tx, context, token.as_str(), token.as_str()),
        TokenCommand::LookUpAccessor(accessor) => {
            look_up_accessor(tx, context, accessor.as_str())
        }
        TokenCommand::LookUpSelf => Ok(look_up_self(context, &asker.caller)?),
        TokenCommand::Renew(asked) => { renew(tx, context, asked.token.as_str(), asked.increment) }
        TokenCommand::RenewSelf(increment) => { renew(tx, context, asker.caller.token, increment) }
        TokenCommand::Revoke(token) => revoke(alloc, tx, token.as_str(), Descent::Ends),
        TokenCommand::RevokeOrphan(token) => revoke(alloc, tx, token.as_str(), Descent::Stays),
        TokenCommand::RevokeAccessor(accessor) => revoke_accessor(alloc, tx, accessor.as_str()),
        TokenCommand::RevokeSelf => revoke(alloc, tx, asker.caller.token, Descent::Ends),
        TokenCommand::ListAccessors => list_accessors(tx, context),
    }
}
