//! Policies, set, deleted and read.

ghost use Rattle.std.specs.Prelude.{◌≡◌, ◌<◌, ◌^◌, [], Some, Option, Bool, true, false, length, IfOk, IfErr};
ghost use Rattle.broker_types.specs.Fault.{IsMemoryOrStorage};
ghost use Rattle.broker_types.specs.Map.{Map, get};
ghost use Rattle.broker_types.specs.RequestError.{Ends};
ghost use Rattle.broker_types.specs.Sound.{SoundPolicies, IsShortText};
ghost use Rattle.broker_types.specs.Text.{Text};
ghost use Rattle.api_json.specs.Reads.{IsRead};
ghost use Rattle.records.specs.Calls.{IsReadFault, IsReading, IsRequestChange};
ghost use Rattle.records.specs.RowReaders.{IsSomeIn};
ghost use Rattle.records.specs.Parts.{of_policies, KeepsOthers};
ghost use Rattle.records.specs.Table.{table};
ghost use Rattle.records.specs.Transaction.{IsHonest};
ghost use Rattle.policies.specs.Policies as spec;
ghost use Rattle.policies.specs.PolicyRows as rows;
ghost use Rattle.policies.specs.PolicyRows.{ArePolicies, IsPolicyAt, IsDamagedAt};
ghost use Rattle.policies.specs.PolicyTexts.{policy_forms};

use crate::naming::{is_fixed, is_root};
use crate::rule::Policy;
use broker_types::{Fault, Reason, Refusal, RequestError, TextBuf, is_name};
use records::{Kind, RecordsTx, read_policy, write_policy};
use std::alloc::Global;

/// Sets a policy: keeps its text as it was handed in, in place of the one that is there. It is refused, in this order,
/// for a text that is no name, for `root`, and for a text that is no policy. It fails only if memory runs out or the
/// storage fails (Vault's documentation, "/sys/policies", create/update ACL policy).
pub fn set<T: RecordsTx>(
    alloc: Global,
    tx: &mut T,
    name: &str,
    text: &str,
) -> Result<(), RequestError>
    requires { length text.now < 2 ^ 32 }
    ensures rows { IsHonest (T.seen tx.new)
        → Ends (λ _ next. table (T.seen tx.new) ≡ next) ((T.seen tx.new).rows ≡ (T.seen tx.old).rows) result
        (rows.set (table (T.seen tx.old)) name.now text.now) }
    ensures told { IsHonest (T.seen tx.new) → (policies : Map Text) → ArePolicies (table (T.seen tx.old)) policies
        → Ends (λ _ next. ArePolicies (table (T.seen tx.new)) next)
        ((T.seen tx.new).rows ≡ (T.seen tx.old).rows) result (spec.set policies name.now text.now) }
    ensures call { IsRequestChange (KeepsOthers of_policies) (T.seen tx.old) (T.seen tx.new) result IsMemoryOrStorage }
{
    may_set(alloc, name, text)?;
    let row = write_policy(alloc, text)?;
    tx.put(Kind::Policy, name, row)?;
    Ok(())
}

/// Refuses what may not be set.
fn may_set(alloc: Global, name: &str, text: &str) -> Result<(), RequestError>
    ensures { IsRead (spec.may_set name.now text.now) result }
{
    if !is_name(name) {
        return Err(RequestError::Refused(Refusal::BadRequest(Reason::InvalidName)));
    }
    if is_root(name) {
        return Err(FIXED);
    }
    let _policy = Policy::from_json(alloc, text)?;
    Ok(())
}

const FIXED: RequestError = RequestError::Refused(Refusal::BadRequest(Reason::PolicyFixed));

/// Deletes a policy; nothing happens if it is not there. It is refused for `root` and `default`. It fails only if
/// memory runs out or the storage fails (Vault's documentation, "/sys/policies", delete ACL policy).
pub fn delete<T: RecordsTx>(tx: &mut T, name: &str) -> Result<(), RequestError>
    ensures rows { IsHonest (T.seen tx.new)
        → Ends (λ _ next. table (T.seen tx.new) ≡ next) ((T.seen tx.new).rows ≡ (T.seen tx.old).rows) result
        (rows.deleted (table (T.seen tx.old)) name.now) }
    ensures told { IsHonest (T.seen tx.new) → (policies : Map Text) → ArePolicies (table (T.seen tx.old)) policies
        → Ends (λ _ next. ArePolicies (table (T.seen tx.new)) next)
        ((T.seen tx.new).rows ≡ (T.seen tx.old).rows) result (spec.deleted policies name.now) }
    ensures call { IsRequestChange (KeepsOthers of_policies) (T.seen tx.old) (T.seen tx.new) result IsMemoryOrStorage }
{
    if is_fixed(name) {
        return Err(FIXED);
    }
    tx.remove(Kind::Policy, name)?;
    Ok(())
}

/// The text of a policy as it was handed in, if it is there; that of `root` is empty. The rows stay. It fails as
/// `Damaged` if the row is not one of a policy, and also if memory runs out or the storage fails (Vault's
/// documentation, "/sys/policies", read ACL policy).
pub fn get<T: RecordsTx>(alloc: Global, tx: &mut T, name: &str) -> Result<Option<TextBuf>, Fault>
    ensures root { spec.is_root name.now ≡ true → IfOk result (λ text. text ≡ Some []) }
    ensures found { IsHonest (T.seen tx.new) → spec.is_root name.now ≡ false
        → IfOk result (IsPolicyAt (table (T.seen tx.old)) name.now) }
    ensures short { IfOk result (IsSomeIn IsShortText) }
    ensures told { IsHonest (T.seen tx.new) → (policies : Map Text) → ArePolicies (table (T.seen tx.old)) policies
        → IfOk result (λ text. text ≡ spec.text_of policies name.now) }
    ensures wants { IsHonest (T.seen tx.new) → (is_object : Text → Bool) (policies : Map Text)
        → SoundPolicies (policy_forms is_object) policies → ArePolicies (table (T.seen tx.old)) policies
        → IfErr result IsMemoryOrStorage }
    ensures call { IsReading (T.seen tx.old) (T.seen tx.new) result
        (IsReadFault (IsHonest (T.seen tx.new) → IsDamagedAt (table (T.seen tx.old)) name.now)) }
{
    if is_root(name) {
        return Ok(Some(TextBuf::copied(alloc, "")?));
    }
    kept_text(alloc, tx, name)
}

/// The text that the row at a name keeps, if there is one.
fn kept_text<T: RecordsTx>(alloc: Global, tx: &mut T, name: &str) -> Result<Option<TextBuf>, Fault>
    ensures found { IsHonest (T.seen tx.new) → IfOk result (IsPolicyAt (table (T.seen tx.old)) name.now) }
    ensures short { IfOk result (IsSomeIn IsShortText) }
    ensures call { IsReading (T.seen tx.old) (T.seen tx.new) result
        (IsReadFault (IsHonest (T.seen tx.new) → (text : Option Text) → IsSomeIn IsShortText text
        → IsPolicyAt (table (T.seen tx.old)) name.now text → ⊥)) }
{
    let Some(row) = tx.get(Kind::Policy, name)? else {
        return Ok(None);
    };
    let text = read_policy(&row)?;
    Ok(Some(TextBuf::copied(alloc, text)?))
}
