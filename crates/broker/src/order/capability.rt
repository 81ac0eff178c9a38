//! The capability that a request asks for.

ghost use Rattle.std.specs.Prelude.{◌≡◌, ◌≢◌, None, Some, Ok, IfOk};
ghost use Rattle.broker_types.specs.Broker.{Broker};
ghost use Rattle.broker_types.specs.Fault.{IsMemoryOrStorage};
ghost use Rattle.broker_types.specs.Map.{get};
ghost use Rattle.records.specs.Calls.{IsReading};
ghost use Rattle.records.specs.Transaction.{IsHonest};
ghost use Rattle.broker_model.specs.Capabilities as capabilities;
ghost use Rattle.broker_model.specs.Capabilities.{stored, has_stored};
ghost use Rattle.broker_rows.specs.Representing.{Represents};

use broker_types::{Fault, Refusal, Verb};
use mounts::{Route, Stores};
use policies::Capability;
use records::RecordsTx;
use std::alloc::Global;

/// The capability that a request of a route asks for: a write makes what is not there, and changes what is (Vault's
/// documentation, "Policies", capabilities). What has no route makes nothing.
pub(crate) fn capability<T: RecordsTx>(
    alloc: Global,
    tx: &mut T,
    caller: &str,
    verb: Verb,
    found: &Result<Route<'_>, Refusal>,
) -> Result<Capability, Fault>
    ensures told { IsHonest (T.seen tx.new) → (b : Broker) → Represents (Some caller.now) (T.seen tx.old).rows b
        → get b.tokens caller.now ≢ None
        → IfOk result (λ c. c ≡ capabilities.asked_by (has_stored b caller.now) verb found.now) }
    ensures call { IsReading (T.seen tx.old) (T.seen tx.new) result IsMemoryOrStorage }
{
    let there = match found {
        Ok(route) => is_there(alloc, tx, caller, route)?,
        Err(_) => true,
    };
    Ok(of_verb(verb, there))
}

/// Whether what the route stores is there already; what stores neither an object nor a secret makes nothing anew.
fn is_there<T: RecordsTx>(
    alloc: Global,
    tx: &mut T,
    caller: &str,
    route: &Route<'_>,
) -> Result<bool, Fault>
    ensures told { IsHonest (T.seen tx.new) → (b : Broker) → Represents (Some caller.now) (T.seen tx.old).rows b
        → get b.tokens caller.now ≢ None → IfOk result (λ v. v ≡ capabilities.stands_there (has_stored b caller.now)
        (stored (Ok route.now))) }
    ensures call { IsReading (T.seen tx.old) (T.seen tx.new) result IsMemoryOrStorage }
{
    match route.operation.facts().stores {
        Stores::Nothing => Ok(true),
        Stores::Object => cubbyhole::is_there(alloc, tx, caller, route.parameter),
        Stores::Secret => kv2::is_there(alloc, tx, route.mount, route.parameter),
    }
}

/// What a verb asks for, where something is there or not.
fn of_verb(verb: Verb, there: bool) -> Capability
    ensures { result ≡ capabilities.capability verb there }
{
    match verb {
        Verb::Get => Capability::Read,
        Verb::List => Capability::List,
        Verb::Delete => Capability::Delete,
        Verb::Write => {
            if there {
                Capability::Update
            } else {
                Capability::Create
            }
        }
    }
}
