//! Rows of the clock, of identifiers that were given out, and of mounts, policies and roles.

ghost use Rattle.std.specs.Prelude.{◌≡◌, ◌≢◌, codes, true, ⊤, IfErr, IfSome, IfNone};
ghost use Rattle.std.specs.Bool.{OnTrue};
ghost use Rattle.broker_types.specs.Name as names;
ghost use Rattle.broker_types.specs.Sound.{IsIdentifier, IsSoundMount, IsSoundPolicy, IsSoundRole};
ghost use Rattle.broker_types.specs.declared.fault.Fault.TheVariants as faults;
ghost use Rattle.broker_model.specs.Forms.{forms};
ghost use Rattle.records.specs.declared.kind.Kind.TheVariants as kind;
ghost use Rattle.records.specs.RowForms.{clock_row, used_row, mount_row, policy_row, role_row};
ghost use Rattle.records.specs.Table.{Table};
ghost use Rattle.soundness.specs.Broken.{BreaksAt, Shows};
ghost use Rattle.soundness.specs.RowRules.{IsOf, IsClock};
ghost use Rattle.soundness.specs.Visiting.{Finds};

use crate::texts::{is_identifier, is_mount_name, is_policy, is_role_name};
use crate::trouble::Rule;
use broker_types::{Fault, is_name};
use records::{Row, read_clock, read_mount, read_policy, read_role, read_used};
use std::alloc::Global;

/// What the row of the clock breaks.
pub(crate) fn clock(key: &str, row: &Row) -> Option<Rule>
    ensures sound { IfNone result (IsOf clock_row (IsClock key.now) row.now) }
    ensures broken { (rows : Table) → IfSome result (λ rule. BreaksAt rows rule kind.Clock key.now row.now) }
{
    if !key.is_empty() {
        return Some(Rule::Key);
    }
    match read_clock(row) {
        Ok(_) => None,
        Err(_) => Some(Rule::Format),
    }
}

/// What the row of an identifier that was given out breaks.
pub(crate) fn used(key: &str, row: &Row) -> Option<Rule>
    ensures sound { IfNone result (IsOf {X = ⊤} (λ _. used_row) (λ _. IsIdentifier key.now) row.now) }
    ensures broken { (rows : Table) → IfSome result (λ rule. BreaksAt rows rule kind.Used key.now row.now) }
{
    if !is_identifier(key) {
        return Some(Rule::Key);
    }
    match read_used(row) {
        Ok(_) => None,
        Err(_) => Some(Rule::Format),
    }
}

/// What the row of a mount breaks.
pub(crate) fn mount(key: &str, row: &Row) -> Option<Rule>
    ensures sound { IfNone result (IsOf mount_row (IsSoundMount key.now) row.now) }
    ensures broken { (rows : Table) → IfSome result (λ rule. BreaksAt rows rule kind.Mount key.now row.now) }
{
    if !is_mount_name(key) {
        return Some(Rule::Key);
    }
    match read_mount(row) {
        Ok(_) => None,
        Err(_) => Some(Rule::Format),
    }
}

/// Whether a policy may have the name: every name but `root`.
fn is_policy_name(name: &str) -> bool
    ensures sound { OnTrue result ((names.is_name name.now ≡ true) × (name.now ≢ codes "root")) }
    ensures whole { names.is_name name.now ≡ true → name.now ≢ codes "root" → result ≡ true }
{
    is_name(name) && name != "root"
}

/// What the row of a policy breaks. The only fault is running out of memory.
pub(crate) fn policy(alloc: Global, key: &str, row: &Row) -> Result<Option<Rule>, Fault>
    ensures sound { Finds result (IsOf policy_row (IsSoundPolicy forms key.now) row.now) }
    ensures broken { (rows : Table) → Shows result (λ rule. BreaksAt rows rule kind.Policy key.now row.now) }
    ensures memory { IfErr result (λ fault. fault ≡ faults.Memory) }
{
    let Ok(text) = read_policy(row) else {
        return Ok(Some(Rule::Format));
    };
    if !is_policy_name(key) {
        return Ok(Some(Rule::Key));
    }
    if !is_policy(alloc, text)? {
        return Ok(Some(Rule::Text));
    }
    Ok(None)
}

/// What the row of a role breaks.
pub(crate) fn role(key: &str, row: &Row) -> Option<Rule>
    ensures sound { IfNone result (IsOf role_row (IsSoundRole key.now) row.now) }
    ensures broken { (rows : Table) → IfSome result (λ rule. BreaksAt rows rule kind.Role key.now row.now) }
{
    if !is_role_name(key) {
        return Some(Rule::Key);
    }
    match read_role(row) {
        Ok(_) => None,
        Err(_) => Some(Rule::Format),
    }
}
