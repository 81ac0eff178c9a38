//! What a command does, for the caller who asks or without one.

ghost use Rattle.std.specs.Prelude.{None};
ghost use Rattle.broker_types.specs.Fault.{IsNotBadStart};
ghost use Rattle.broker_types.specs.Names.{names_of};
ghost use Rattle.records.specs.Calls.{IsRequestCall};
ghost use Rattle.records.specs.Ranges.{IsTokenInRange};
ghost use Rattle.broker_model.specs.Act as model;
ghost use Rattle.broker_model.specs.Step.{traits};
ghost use Rattle.broker_rows.specs.Caller.{AreItsRules};
ghost use Rattle.broker_rows.specs.Operating.{ArePrinted, Performs, PerformsBy};
ghost use Rattle.broker.specs.Meant.{meant, IsInRange, IsWellPlaced};

use crate::answers::PERMISSION_DENIED;
use crate::command::Command;
use broker_rows::{Answered, Asker, Context};
use broker_types::{RequestError, TextBuf};
use records::RecordsTx;
use secret_operations::{act_on_cubbyholes, act_on_issued, act_on_secrets};
use system_operations::{act_on_leases, act_on_mounts, act_on_policies, act_on_wrappings};
use token_operations::act_on_tokens;

impl Command<'_> {
    /// Carries out a command of an open ask. Without a caller all others are denied.
    pub(crate) fn act_openly<T: RecordsTx>(
        self,
        tx: &mut T,
        context: &Context<'_>,
        own: &[TextBuf],
    ) -> Result<Answered, RequestError>
        requires own { ArePrinted own.now ((traits (meant self)).own (names_of context.now.words)) }
        ensures told { Performs None context.now
            ((traits (meant self.entry)).own (names_of context.now.words)) (T.seen tx.old) (T.seen tx.new)
            (λ b. model.act_openly b (names_of context.now.words) (meant self.entry)) result }
        ensures call { IsRequestCall (T.seen tx.old) (T.seen tx.new) result IsNotBadStart }
    {
        match self {
            Command::OnWrapping(command) => act_on_wrappings(tx, context, own, command),
            _ => Err(RequestError::Refused(PERMISSION_DENIED)),
        }
    }

    /// Carries out a command of the caller who asks.
    pub(crate) fn act_for<T: RecordsTx>(
        self,
        tx: &mut T,
        context: &Context<'_>,
        asker: &Asker<'_>,
        own: &[TextBuf],
    ) -> Result<Answered, RequestError>
        requires in_range { IsInRange (meant self) }
        requires known { IsTokenInRange asker.now.caller.known }
        requires own { ArePrinted own.now ((traits (meant self)).own (names_of context.now.words)) }
        ensures told { IsWellPlaced (meant self.entry) → AreItsRules (T.seen tx.old).rows asker.now
            → PerformsBy asker.now.caller context.now
            ((traits (meant self.entry)).own (names_of context.now.words)) (T.seen tx.old) (T.seen tx.new)
            (λ b. model.act_for b asker.now.caller.token (names_of context.now.words) (meant self.entry)) result }
        ensures call { IsRequestCall (T.seen tx.old) (T.seen tx.new) result IsNotBadStart }
    {
        match self {
            Command::OnCubbyhole(path, command) => {
                act_on_cubbyholes(tx, context, asker.caller.token, path, command)
            }
            Command::OnToken(command) => act_on_tokens(tx, context, asker, own, command),
            Command::OnSecret(place, command) => act_on_secrets(tx, context, &place, command),
            Command::OnPolicy(name, command) => act_on_policies(tx, context, name, command),
            Command::OnMount(name, command) => act_on_mounts(tx, context, name, command),
            Command::OnLease(prefix, command) => act_on_leases(tx, context, prefix, command),
            Command::OnIssued(place, command) => {
                act_on_issued(tx, context, &asker.caller, own, &place, command)
            }
            Command::OnWrapping(command) => act_on_wrappings(tx, context, own, command),
        }
    }
}
