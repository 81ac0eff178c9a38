//! Requests on policies (Vault's documentation, "/sys/policies").

ghost use Rattle.std.specs.Prelude.{◌<◌, ◌≤◌, ◌^◌, [], Option, IfOk, length};
ghost use Rattle.broker_types.specs.Fault.{IsNotBadStart};
ghost use Rattle.broker_types.specs.Limits.{longest_body};
ghost use Rattle.broker_types.specs.Names.{names_of};
ghost use Rattle.broker_types.specs.Text.{Text};
ghost use Rattle.records.specs.Calls.{IsRequestCall, IsRequestReading};
ghost use Rattle.api_json.specs.Readers as reader;
ghost use Rattle.api_json.specs.Reads.{IsRead};
ghost use Rattle.broker_model.specs.declared.commands.PolicyCommand.TheVariants as commands;
ghost use Rattle.broker_model.specs.parts.AclPolicies as part;
ghost use Rattle.broker_model.specs.parts.AclPolicies.{policy_command};
ghost use Rattle.broker_model.specs.parts.Bodies.{read_as};
ghost use Rattle.broker_rows.specs.Context as known;
ghost use Rattle.broker_rows.specs.Operating.{Performs};
ghost use Rattle.system_operations.specs.InRange.{IsPolicyCommandInRange};

use api_json::{keys_object, policy_object, policy_text, read_body};
use broker_model::PolicyCommand;
use broker_rows::{Answered, Context};
use broker_types::{Refusal, RequestError};
use mounts::PolicyOperation;
use records::RecordsTx;
use std::alloc::Global;

/// Reads what an operation on policies asks for. It is refused if a policy is set and the body is no object or has no
/// text. The only fault is running out of memory.
pub fn read_policy_command(
    alloc: Global,
    operation: PolicyOperation,
    body: &[u8],
) -> Result<PolicyCommand, RequestError>
    requires { length body.now ≤ longest_body }
    ensures reads { IsRead (policy_command operation body.now) result }
    ensures in_range { IfOk result IsPolicyCommandInRange }
{
    match operation {
        PolicyOperation::List => Ok(PolicyCommand::List),
        PolicyOperation::Show => Ok(PolicyCommand::Show),
        PolicyOperation::Set => read_set(alloc, body),
        PolicyOperation::Remove => Ok(PolicyCommand::Remove),
    }
}

/// Reads the text that a policy is set to.
fn read_set(alloc: Global, body: &[u8]) -> Result<PolicyCommand, RequestError>
    requires { length body.now ≤ longest_body }
    ensures reads { IsRead (read_as reader.policy_text commands.Set body.now) result }
    ensures in_range { IfOk result IsPolicyCommandInRange }
{
    let members = read_body(alloc, body)?;
    let text = policy_text(alloc, &members)?;
    Ok(PolicyCommand::Set(text))
}

/// Carries out a command on policies, at the name of one. It may be refused. It fails with `Memory` if memory runs out,
/// with `Storage` if the transaction's storage failed, and with `Damaged` if a row that it asks for cannot be read.
pub fn act_on_policies<T: RecordsTx>(
    tx: &mut T,
    context: &Context<'_>,
    name: &str,
    command: PolicyCommand,
) -> Result<Answered, RequestError>
    requires { IsPolicyCommandInRange command }
    ensures told { (who : Option Text) → Performs who context.now [] (T.seen tx.old) (T.seen tx.new)
        (λ b. part.act_on_policies b (names_of context.now.words) name.now command) result }
    ensures call { IsRequestCall (T.seen tx.old) (T.seen tx.new) result IsNotBadStart }
{
    match command {
        PolicyCommand::List => list(tx, context),
        PolicyCommand::Show => show(tx, context, name),
        PolicyCommand::Set(text) => set(context.alloc, tx, name, text.as_str()),
        PolicyCommand::Remove => remove(tx, name),
    }
}

/// Lists the names of all policies.
fn list<T: RecordsTx>(tx: &mut T, context: &Context<'_>) -> Result<Answered, RequestError>
    ensures told { (who : Option Text) → Performs who context.now [] (T.seen tx.old) (T.seen tx.new)
        (λ b. part.list b (names_of context.now.words)) result }
    ensures call { IsRequestReading (T.seen tx.old) (T.seen tx.new) result IsNotBadStart }
{
    let names = policies::list(context.alloc, tx)?;
    let object = keys_object(context.alloc, &names)?;
    Ok(Answered::shown(context, object)?)
}

/// Shows a policy with its text.
fn show<T: RecordsTx>(
    tx: &mut T,
    context: &Context<'_>,
    name: &str,
) -> Result<Answered, RequestError>
    ensures told { (who : Option Text) → Performs who context.now [] (T.seen tx.old) (T.seen tx.new)
        (λ b. part.show b (names_of context.now.words) name.now) result }
    ensures call { IsRequestReading (T.seen tx.old) (T.seen tx.new) result IsNotBadStart }
{
    let Some(text) = policies::get(context.alloc, tx, name)? else {
        return Err(RequestError::Refused(Refusal::NotFound));
    };
    let object = policy_object(context.alloc, name, text.as_str())?;
    Ok(Answered::shown(context, object)?)
}

/// Sets a policy to a text.
fn set<T: RecordsTx>(
    alloc: Global,
    tx: &mut T,
    name: &str,
    text: &str,
) -> Result<Answered, RequestError>
    requires { length text.now < 2 ^ 32 }
    ensures told { (who : Option Text) (x : known.Context) → Performs who x [] (T.seen tx.old) (T.seen tx.new)
        (λ b. part.set b name.now text.now) result }
    ensures call { IsRequestCall (T.seen tx.old) (T.seen tx.new) result IsNotBadStart }
{
    policies::set(alloc, tx, name, text)?;
    Ok(Answered::Nothing)
}

/// Deletes a policy.
fn remove<T: RecordsTx>(tx: &mut T, name: &str) -> Result<Answered, RequestError>
    ensures told { (who : Option Text) (x : known.Context) → Performs who x [] (T.seen tx.old) (T.seen tx.new)
        (λ b. part.remove b name.now) result }
    ensures call { IsRequestCall (T.seen tx.old) (T.seen tx.new) result IsNotBadStart }
{
    policies::delete(tx, name)?;
    Ok(Answered::Nothing)
}
