//! What a caller's policies say, from their rows.

ghost use Rattle.std.specs.Prelude.{◌≡◌, ◌++◌, [], Bool, Some, None, IfOk, IfErr, OnOk, All, Any, flat_map};
ghost use Rattle.std.specs.List.{list_any};
ghost use Rattle.std.specs.Option.{option_map_or};
ghost use Rattle.broker_types.specs.Text.{Text};
ghost use Rattle.broker_types.specs.Fault.{IsMemoryOrStorage};
ghost use Rattle.broker_types.specs.Map.{Map, get};
ghost use Rattle.broker_types.specs.Sound.{SoundPolicies};
ghost use Rattle.records.specs.Calls.{IsReadFault, IsReading};
ghost use Rattle.records.specs.Table.{table};
ghost use Rattle.records.specs.Transaction.{IsHonest};
ghost use Rattle.policies.specs.Grants as spec;
ghost use Rattle.policies.specs.Policies as policies;
ghost use Rattle.policies.specs.PolicyRows.{IsPolicyAt, ArePoliciesAt, GivesRules};
ghost use Rattle.policies.specs.PolicyRows.{IsReadable, IsUnreadable};
ghost use Rattle.policies.specs.PolicyTexts.{policy_forms};

use crate::memory::PolicyMemory;
use crate::naming::is_root;
use crate::rule::{Policy, Rules};
use broker_types::{Fault, TextBuf, Verb};
use records::{Kind, RecordsTx, read_policy};
use std::alloc::Global;
use std::rc::Rc;

/// What the policies of these names say, read once for all questions about one request. A policy that is not there
/// says nothing. The row of each is read, and its text is parsed unless it is remembered. The rows stay. It fails as
/// `Damaged` if the row of one of them is not one of a policy, and also if memory runs out or the storage fails
/// (Vault's documentation, "Policies").
#[tactic(auto, unfolding(crate::specs::Grants::rules_of))]
pub fn rules_of<T: RecordsTx>(
    memory: &mut PolicyMemory,
    alloc: Global,
    tx: &mut T,
    names: &[TextBuf],
    verb: Verb,
) -> Result<Rules, Fault>
    ensures told { IsHonest (T.seen tx.new) → (policies : Map Text)
        → ArePoliciesAt (table (T.seen tx.old)) names.now policies
        → IfOk result (λ rules. rules ≡ spec.rules_of policies names.now verb) }

    // Whatever the rows are: no damaged row is passed over, and no other row is told as damaged.
    ensures readable { IsHonest (T.seen tx.new)
        → IfOk result (λ rules. All (IsReadable (table (T.seen tx.old))) names.now) }
    ensures wants { IsHonest (T.seen tx.new) → (is_object : Text → Bool) (policies : Map Text)
        → SoundPolicies (policy_forms is_object) policies
        → ArePoliciesAt (table (T.seen tx.old)) names.now policies → IfErr result IsMemoryOrStorage }
    ensures call { IsReading (T.seen tx.old) (T.seen tx.new) result
        (IsReadFault (IsHonest (T.seen tx.new) → Any (IsUnreadable (table (T.seen tx.old))) names.now)) }
{
    let mut read = Vec::new(alloc);
    for name in names {
        read = with_named(memory, alloc, tx, read, name.as_str())?;
    }
    Ok(Rules {
        verb,
        is_root: have_root(names),
        policies: read,
    })
}

/// Whether the policy that allows everything is among them.
fn have_root(names: &[TextBuf]) -> bool
    ensures { result ≡ list_any policies.is_root names.now }
{
    names.iter().any(|name| is_root(name.as_str()))
}

/// The policies that were read, and then one more if it is there.
fn with_named<T: RecordsTx>(
    memory: &mut PolicyMemory,
    alloc: Global,
    tx: &mut T,
    mut read: Vec<Rc<Policy>>,
    name: &str,
) -> Result<Vec<Rc<Policy>>, Fault>
    ensures told { IsHonest (T.seen tx.new) → (policies : Map Text)
        → IsPolicyAt (table (T.seen tx.old)) name.now (get policies name.now)
        → IfOk result (λ ps. flat_map (λ p. p.value) ps.items
        ≡ flat_map (λ p. p.value) read.items ++ spec.rules_named policies name.now) }
    ensures readable { IsHonest (T.seen tx.new) → OnOk result (IsReadable (table (T.seen tx.old)) name.now) }
    ensures wants { IsHonest (T.seen tx.new) → (is_object : Text → Bool) (policies : Map Text)
        → SoundPolicies (policy_forms is_object) policies
        → IsPolicyAt (table (T.seen tx.old)) name.now (get policies name.now) → IfErr result IsMemoryOrStorage }
    ensures call { IsReading (T.seen tx.old) (T.seen tx.new) result
        (IsReadFault (IsHonest (T.seen tx.new) → IsUnreadable (table (T.seen tx.old)) name.now)) }
{
    match policy_named(memory, alloc, tx, name)? {
        Some(policy) => {
            read.push(policy)?;
            Ok(read)
        }
        None => Ok(read),
    }
}

/// The policy of a name, if it is there.
fn policy_named<T: RecordsTx>(
    memory: &mut PolicyMemory,
    alloc: Global,
    tx: &mut T,
    name: &str,
) -> Result<Option<Rc<Policy>>, Fault>
    ensures found { IsHonest (T.seen tx.new)
        → IfOk result (λ o. GivesRules (table (T.seen tx.old)) name.now (option_map_or (λ p. p.value) o [])) }
    ensures wants { IsHonest (T.seen tx.new) → (is_object : Text → Bool) (policies : Map Text)
        → SoundPolicies (policy_forms is_object) policies
        → IsPolicyAt (table (T.seen tx.old)) name.now (get policies name.now) → IfErr result IsMemoryOrStorage }
    ensures call { IsReading (T.seen tx.old) (T.seen tx.new) result
        (IsReadFault (IsHonest (T.seen tx.new) → IsUnreadable (table (T.seen tx.old)) name.now)) }
{
    let Some(row) = tx.get(Kind::Policy, name)? else {
        return Ok(None);
    };
    let text = read_policy(&row)?;
    Ok(Some(memory.policy_kept(alloc, text)?))
}
