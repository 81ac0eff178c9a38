//! Whether the caller may ask at all.

ghost use Rattle.std.specs.Prelude.{◌≡◌, Some, Option, is_some, IfOk, IfErr};
ghost use Rattle.broker_types.specs.Broker.{Broker};
ghost use Rattle.broker_types.specs.Fault.{IsMemoryOrStorage, IsNotBadStart};
ghost use Rattle.records.specs.Calls.{IsReading};
ghost use Rattle.records.specs.Ranges.{IsTokenInRange};
ghost use Rattle.records.specs.RowReaders.{IsSomeIn};
ghost use Rattle.records.specs.Transaction.{IsHonest};
ghost use Rattle.mounts.specs.Route.{route_of};
ghost use Rattle.broker_model.specs.Permission as permission;
ghost use Rattle.broker_rows.specs.Caller.{AreRulesAt, IsCallerOf};
ghost use Rattle.broker_rows.specs.Representing.{Represents};

use crate::order::capability::capability;
use broker_rows::Caller;
use broker_types::{Ask, Fault, Refusal};
use mounts::{Route, asks_sudo};
use policies::{Capability, PolicyMemory, Rules, allows, rules_of};
use records::RecordsTx;
use std::alloc::Global;

/// What the policies of the caller say, if they allow what it asks: the capability that is asked for, and `sudo` too
/// where the path asks for it (Vault's documentation, "Policies"). The route of the ask has been looked up.
pub(crate) fn permitted<T: RecordsTx>(
    memory: &mut PolicyMemory,
    alloc: Global,
    tx: &mut T,
    caller: &Caller<'_>,
    ask: &Ask<'_>,
    found: &Result<Route<'_>, Refusal>,
) -> Result<Option<Rules>, Fault>
    requires { IsTokenInRange caller.now.known }
    ensures told { IsHonest (T.seen tx.new) → (b : Broker)
        → Represents (Some caller.now.token) (T.seen tx.old).rows b → IsCallerOf b caller.now
        → found.now ≡ route_of b.mounts ask.now.verb ask.now.path
        → IfOk result (λ rules. is_some rules
        ≡ permission.permits b (Some caller.now.token) ask.now.verb ask.now.path) }
    ensures wants { IsHonest (T.seen tx.new) → (b : Broker)
        → Represents (Some caller.now.token) (T.seen tx.old).rows b → IfErr result IsMemoryOrStorage }
    ensures rules { IsHonest (T.seen tx.new)
        → IfOk result (IsSomeIn (AreRulesAt (T.seen tx.old).rows caller.now.known.policies ask.now.verb)) }
    ensures call { IsReading (T.seen tx.old) (T.seen tx.new) result IsNotBadStart }
{
    let path = ask.path.as_str();
    let asked = capability(alloc, tx, caller.token, ask.verb, found)?;
    let rules = rules_of(memory, alloc, tx, &caller.known.policies, ask.verb)?;
    if !may(&rules, path, asked) {
        return Ok(None);
    }
    Ok(Some(rules))
}

/// Whether rules allow the capability at a path, and `sudo` too where the path asks for it (Vault's documentation,
/// "Policies", root-protected API endpoints).
fn may(rules: &Rules, path: &str, asked: Capability) -> bool
    ensures { result ≡ permission.may rules.now path.now asked }
{
    allows(rules, path, asked) && (!asks_sudo(path) || allows(rules, path, Capability::Sudo))
}
