//! Texts of policies that a server would refuse: what is wrong in them, and where.

ghost use Rattle.std.specs.Prelude.{◌≡◌, ◌&&◌, ◌||◌, IfOk, false, not, is_none, option_map, option_and_then};
ghost use Rattle.std.specs.Prelude.{codes, bytes_eq};
ghost use Rattle.serde_json.specs.Find.{get, as_array, as_object};
ghost use Rattle.serde_json.specs.View.{view, items_view, members_view};
ghost use Rattle.command_line.specs.PolicyForms.{are_capabilities, are_policy_members, are_rule_members, are_rules};
ghost use Rattle.command_line.specs.PolicyForms.{has_plus, is_capability, is_capability_name, is_policy};
ghost use Rattle.command_line.specs.PolicyForms.{is_policy_text, is_rule};

use crate::floats::holds_float;
use crate::policy_places::{Place, offset_of, position_of};
use serde_json::{Map, Value};
use std::alloc::{AllocError, Global};

/// What is wrong in the text of a policy, and where it stands.
#[derive(Clone, Copy, Debug)]
pub struct FormMistake {
    /// The line, from 1.
    pub line: usize,
    /// The place in the line, in bytes from 1.
    pub column: usize,
    /// What the user is told.
    pub what: &'static str,
}

/// What is wrong in a policy, and the place of it.
#[derive(Clone, Copy)]
struct Finding<'v> {
    what: &'static str,
    place: Place<'v>,
}

/// What is wrong in the text of a policy; none if a server takes the text. Of several mistakes it is the first in the
/// order of the names of members. Its place is for the user alone, and is not proved. The only error is running out of
/// memory.
pub fn policy_mistake(alloc: Global, text: &str) -> Result<Option<FormMistake>, AllocError>
    ensures { IfOk result (λ mistake. is_none mistake ≡ is_policy_text text.now) }
{
    match Value::from_str(alloc, text) {
        Ok(policy) => match wrong_in(&policy) {
            Some(wrong) => Ok(Some(placed(alloc, text, wrong)?)),
            None => Ok(None),
        },
        Err(error) => {
            if error.is_memory() {
                return Err(AllocError);
            }
            Ok(Some(FormMistake {
                line: error.line(),
                column: error.column().max(1),
                what: "the text is not JSON",
            }))
        }
    }
}

fn placed(alloc: Global, text: &str, wrong: Finding<'_>) -> Result<FormMistake, AllocError> {
    let offset = offset_of(alloc, text, wrong.place)?;
    let (line, column) = position_of(text, offset);
    Ok(FormMistake {
        line,
        column,
        what: wrong.what,
    })
}

fn wrong_in(policy: &Value) -> Option<Finding<'_>>
    ensures { is_none result ≡ is_policy (view policy.now) }
{
    let Some(members) = policy.as_object() else {
        return wrong("a policy is an object with the member path", Place::Start);
    };
    if let Some(name) = other_policy_member(members) {
        return wrong(
            "a policy has no members but path and name",
            Place::Member(name),
        );
    }
    let Some(rules) = object_in(policy, "path") else {
        return wrong(
            "a policy has the member path, as in {\"path\":{\"secret/data/app\":{\"capabilities\":[\"read\"]}}}",
            Place::Member("path"),
        );
    };
    if let Some(wrong) = wrong_in_rules(rules) {
        return Some(wrong);
    }
    if holds_float(policy) {
        return wrong("a number is whole and of 64 bits", Place::Member("name"));
    }
    None
}

fn wrong<'v>(what: &'static str, place: Place<'v>) -> Option<Finding<'v>>
    ensures { is_none result ≡ false }
{
    Some(Finding { what, place })
}

/// The name of the first member that is neither `path` nor `name`.
fn other_policy_member(members: &Map<String, Value>) -> Option<&str>
    ensures { is_none result ≡ are_policy_members (members_view members.now.entries) }
{
    for (name, _) in members.iter() {
        if !is_policy_member(name.as_str()) {
            return Some(name.as_str());
        }
    }
    None
}

fn is_policy_member(name: &str) -> bool
    ensures { result ≡ (bytes_eq name.now (codes "path") || bytes_eq name.now (codes "name")) }
{
    name == "path" || name == "name"
}

/// What is wrong in the rules by their patterns.
fn wrong_in_rules(rules: &Map<String, Value>) -> Option<Finding<'_>>
    ensures { is_none result ≡ are_rules (members_view rules.now.entries) }
{
    for (pattern, rule) in rules.iter() {
        if let Some(wrong) = wrong_in_rule(pattern.as_str(), rule) {
            return Some(wrong);
        }
    }
    None
}

fn wrong_in_rule<'v>(pattern: &'v str, rule: &'v Value) -> Option<Finding<'v>>
    ensures { is_none result ≡ (not (has_plus pattern.now) && is_rule (view rule.now)) }
{
    if has_plus(pattern) {
        return wrong(
            "a pattern has no segment that is + alone",
            Place::Pattern(pattern),
        );
    }
    let Some(members) = rule.as_object() else {
        return wrong(
            "a rule is an object, as in {\"capabilities\":[\"read\"]}",
            Place::Pattern(pattern),
        );
    };
    if let Some(name) = other_rule_member(members) {
        return wrong(
            "a rule has no member but capabilities",
            Place::RuleMember(pattern, name),
        );
    }
    let Some(items) = array_in(rule, "capabilities") else {
        return wrong(
            "a rule has the member capabilities, an array, as in {\"capabilities\":[\"read\"]}",
            Place::Pattern(pattern),
        );
    };
    match other_item(items) {
        Some(index) => wrong(
            "capabilities are create, read, update, delete, list, sudo, deny and patch",
            Place::Capability(pattern, index),
        ),
        None => None,
    }
}

/// The object that a member of an object is.
fn object_in<'v>(value: &'v Value, name: &str) -> Option<&'v Map<String, Value>>
    ensures { option_map (λ m. members_view m.now.entries) result
        ≡ option_and_then as_object (get name.now (view value.now)) }
{
    value.get(name)?.as_object()
}

/// The array that a member of an object is.
fn array_in<'v>(value: &'v Value, name: &str) -> Option<&'v Vec<Value>>
    ensures { option_map (λ v. items_view v.now.items) result
        ≡ option_and_then as_array (get name.now (view value.now)) }
{
    value.get(name)?.as_array()
}

/// Whether a part between slashes is `+` alone.
fn has_plus(pattern: &str) -> bool
    ensures { result ≡ has_plus pattern.now }
{
    let mut found = false;
    for part in pattern.split('/') {
        if part == "+" {
            found = true;
        }
    }
    found
}

/// The name of the first member that is not `capabilities`.
fn other_rule_member(members: &Map<String, Value>) -> Option<&str>
    ensures { is_none result ≡ are_rule_members (members_view members.now.entries) }
{
    for (name, _) in members.iter() {
        if name.as_str() != "capabilities" {
            return Some(name.as_str());
        }
    }
    None
}

/// The index of the first item that is no name of a capability.
fn other_item(items: &Vec<Value>) -> Option<usize>
    ensures { is_none result ≡ are_capabilities (items_view items.now.items) }
{
    for (index, item) in items.iter().enumerate() {
        if !is_capability(item) {
            return Some(index);
        }
    }
    None
}

fn is_capability(value: &Value) -> bool
    ensures { result ≡ is_capability (view value.now) }
{
    match value.as_str() {
        Some(name) => is_capability_name(name),
        None => false,
    }
}

fn is_capability_name(name: &str) -> bool
    ensures { result ≡ is_capability_name name.now }
{
    name == "create"
        || name == "read"
        || name == "update"
        || name == "delete"
        || name == "list"
        || name == "sudo"
        || name == "deny"
        || name == "patch"
}
