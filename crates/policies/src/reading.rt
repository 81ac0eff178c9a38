//! Policies, read from their texts.

ghost use Rattle.std.specs.Prelude.{◌≡◌, codes, IfOk, option_map, option_and_then};
ghost use Rattle.serde_json.specs.View.{view, items_view, members_view};
ghost use Rattle.serde_json.specs.Find.{as_object, get_member};
ghost use Rattle.broker_types.specs.Text.{same};
ghost use Rattle.api_json.specs.Kinds.{as_list, each_item};
ghost use Rattle.api_json.specs.Parsed.{data_of};
ghost use Rattle.api_json.specs.Reads.{IsRead};
ghost use Rattle.policies.specs.PolicyTexts as spec;

use crate::capability::{Capability, Word};
use crate::pattern::Pattern;
use crate::rule::{Policy, Rule};
use api_json::Tree;
use broker_types::{Reason, Refusal, RequestError, TextBuf};
use serde_json::{Map, Value};
use std::alloc::{AllocError, Global};

impl Policy {
    /// Reads the text of a policy: a JSON object `{"path":{PATTERN:{"capabilities":[..]}}}`; a member `name` beside
    /// `path` is ignored. A text of another form is refused with 400 `unsupported policy`: one with another
    /// capability than `create`, `read`, `update`, `delete`, `list`, `sudo`, `deny` and `patch`, with another member,
    /// with a segment `+` in a pattern, with a float, or with more than 127 levels. The only fault is running out of
    /// memory (Vault's documentation, "Policies"; the form is this project's).
    #[tactic(auto, unfolding(crate::specs::PolicyTexts::policy_of))]
    pub fn from_json(alloc: Global, text: &str) -> Result<Policy, RequestError>
        ensures { IsRead (spec.policy_read text.now) result }
    {
        let Some(tree) = Tree::read(alloc, text.as_bytes())? else {
            return Err(UNSUPPORTED);
        };
        match policy_in(alloc, &tree)? {
            Some(policy) => Ok(policy),
            None => Err(UNSUPPORTED),
        }
    }
}

const UNSUPPORTED: RequestError = RequestError::Refused(Refusal::BadRequest(
    Reason::UnsupportedPolicy,
));

/// The policy that a value is, if it is one.
fn policy_in(alloc: Global, tree: &Tree) -> Result<Option<Policy>, AllocError>
    ensures { IfOk result (λ p. p ≡ option_and_then spec.policy_in (as_object (data_of tree.now))) }
{
    match tree.value().as_object() {
        Some(members) => policy_of(alloc, members),
        None => Ok(None),
    }
}

/// The policy of members, if they are those of one.
fn policy_of(alloc: Global, members: &Map<String, Value>) -> Result<Option<Policy>, AllocError>
    ensures { IfOk result (λ p. p ≡ spec.policy_in (members_view members.now.entries)) }
{
    if !are_known(members) {
        return Ok(None);
    }
    match paths_of(members) {
        Some(paths) => rules_in(alloc, paths),
        None => Ok(None),
    }
}

/// Whether each member is `path` or `name`.
fn are_known(members: &Map<String, Value>) -> bool
    ensures { result ≡ spec.are_known (members_view members.now.entries) }
{
    for (name, _) in members.iter() {
        if !is_known(name.as_str()) {
            return false;
        }
    }
    true
}

fn is_known(name: &str) -> bool
    ensures { result ≡ spec.is_known name.now }
{
    name == "path" || name == "name"
}

fn member<'m>(members: &'m Map<String, Value>, name: &str) -> Option<&'m Value>
    ensures { option_map (λ v. view v.now) result ≡ get_member name.now (members_view members.now.entries) }
{
    members.get(name)
}

/// The object that is the member `path`.
#[tactic(auto, unfolding(crate::specs::PolicyTexts::paths_of))]
fn paths_of(members: &Map<String, Value>) -> Option<&Map<String, Value>>
    ensures { option_map (λ m. members_view m.now.entries) result ≡ spec.paths_of (members_view members.now.entries) }
{
    match member(members, "path") {
        Some(value) => value.as_object(),
        None => None,
    }
}

/// The rules by their patterns, if each is one.
fn rules_in(alloc: Global, paths: &Map<String, Value>) -> Result<Option<Policy>, AllocError>
    ensures { IfOk result (λ p. p ≡ spec.rules_in (members_view paths.now.entries)) }
{
    let mut rules = Vec::new(alloc);
    for (pattern, value) in paths.iter() {
        match rule_in(alloc, pattern.as_str(), value)? {
            Some(rule) => rules.push(rule)?,
            None => return Ok(None),
        }
    }
    Ok(Some(Policy { rules }))
}

/// The rule for a pattern, if it is one.
fn rule_in(alloc: Global, pattern: &str, value: &Value) -> Result<Option<Rule>, AllocError>
    ensures { IfOk result (λ r. r ≡ spec.rule_in pattern.now (view value.now)) }
{
    if has_plus(pattern) {
        return Ok(None);
    }
    match words_in(alloc, value)? {
        Some(words) => Ok(Some(Rule {
            pattern: pattern_of(alloc, pattern)?,
            words,
        })),
        None => Ok(None),
    }
}

/// Whether a part between slashes is `+` alone.
fn has_plus(pattern: &str) -> bool
    ensures { result ≡ spec.has_plus pattern.now }
{
    let mut found = false;
    for part in pattern.split('/') {
        if is_plus(part) {
            found = true;
        }
    }
    found
}

fn is_plus(part: &str) -> bool
    ensures { result ≡ same part.now (codes "+") }
{
    part == "+"
}

/// The pattern of a text: a `*` at its end asks for the prefix before it.
fn pattern_of(alloc: Global, pattern: &str) -> Result<Pattern, AllocError>
    ensures { IfOk result (λ p. p ≡ spec.pattern_of pattern.now) }
{
    match pattern.strip_suffix('*') {
        Some(prefix) => Ok(Pattern::Prefix(TextBuf::copied(alloc, prefix)?)),
        None => Ok(Pattern::Exact(TextBuf::copied(alloc, pattern)?)),
    }
}

/// The words of a rule, if it is one.
fn words_in(alloc: Global, value: &Value) -> Result<Option<Vec<Word>>, AllocError>
    ensures { IfOk result (λ ws. option_map (λ ws. ws.items) ws
        ≡ option_and_then spec.words_of (as_object (view value.now))) }
{
    match value.as_object() {
        Some(members) => words_of(alloc, members),
        None => Ok(None),
    }
}

/// The words of the member `capabilities`, if there is no other member.
#[tactic(auto, unfolding(crate::specs::PolicyTexts::words_of))]
fn words_of(alloc: Global, members: &Map<String, Value>) -> Result<Option<Vec<Word>>, AllocError>
    ensures { IfOk result (λ ws. option_map (λ ws. ws.items) ws ≡ spec.words_of (members_view members.now.entries)) }
{
    if !are_capabilities(members) {
        return Ok(None);
    }
    match member(members, "capabilities") {
        Some(value) => words_listed(alloc, value),
        None => Ok(None),
    }
}

/// Whether each member is `capabilities`.
fn are_capabilities(members: &Map<String, Value>) -> bool
    ensures { result ≡ spec.are_capabilities (members_view members.now.entries) }
{
    for (name, _) in members.iter() {
        if !is_capabilities(name.as_str()) {
            return false;
        }
    }
    true
}

fn is_capabilities(name: &str) -> bool
    ensures { result ≡ spec.is_capabilities name.now }
{
    name == "capabilities"
}

/// The words that an array lists.
fn words_listed(alloc: Global, value: &Value) -> Result<Option<Vec<Word>>, AllocError>
    ensures { IfOk result (λ ws. option_map (λ ws. ws.items) ws ≡ as_list spec.word (view value.now)) }
{
    match value.as_array() {
        Some(items) => each_word(alloc, items),
        None => Ok(None),
    }
}

/// The words, if each item is the name of one.
fn each_word(alloc: Global, items: &Vec<Value>) -> Result<Option<Vec<Word>>, AllocError>
    ensures { IfOk result (λ ws. option_map (λ ws. ws.items) ws ≡ each_item spec.word (items_view items.now.items)) }
{
    let mut words = Vec::new(alloc);
    for item in items {
        match word(item) {
            Some(word) => words.push(word)?,
            None => return Ok(None),
        }
    }
    Ok(Some(words))
}

fn word(value: &Value) -> Option<Word>
    ensures { result ≡ spec.word (view value.now) }
{
    match value.as_str() {
        Some(name) => word_named(name),
        None => None,
    }
}

/// The word of a name.
fn word_named(name: &str) -> Option<Word>
    ensures { result ≡ spec.word_named name.now }
{
    if name == "deny" {
        Some(Word::Deny)
    } else if name == "patch" {
        Some(Word::Patch)
    } else {
        match capability_named(name) {
            Some(capability) => Some(Word::Grant(capability)),
            None => None,
        }
    }
}

/// The capability of a name.
fn capability_named(name: &str) -> Option<Capability>
    ensures { result ≡ spec.capability_named name.now }
{
    if name == "create" {
        Some(Capability::Create)
    } else if name == "read" {
        Some(Capability::Read)
    } else if name == "update" {
        Some(Capability::Update)
    } else if name == "delete" {
        Some(Capability::Delete)
    } else if name == "list" {
        Some(Capability::List)
    } else if name == "sudo" {
        Some(Capability::Sudo)
    } else {
        None
    }
}
