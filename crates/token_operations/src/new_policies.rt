//! The policies of a new token.

ghost use Rattle.std.specs.Prelude.{◌≡◌, ◌++◌, ◌∷◌, [], IfOk, OnOk, map, string_bytes};
ghost use Rattle.std.specs.BTreeSet.{insert_key};
ghost use Rattle.broker_types.specs.Map.{keys};
ghost use Rattle.broker_types.specs.Text.{same, text_cmp};
ghost use Rattle.records.specs.Children.{set_of};
ghost use Rattle.broker_model.specs.parts.TokenCreation as part;
ghost use Rattle.token_operations.specs.TokenEntries.{token_told};
ghost use Rattle.token_operations.specs.TokenSets as sets;

use api_json::TokenCreation;
use broker_types::{TextBuf, is_among};
use records::TokenRecord;
use std::alloc::{AllocError, Global};
use std::collections::BTreeSet;

/// The policies of a new token, ascending by bytes, each once; with `root` among them it is `root` alone.
pub(crate) fn new_policies(
    alloc: Global,
    privileged: bool,
    caller: &TokenRecord,
    asked: &TokenCreation,
) -> Result<Vec<TextBuf>, AllocError>
    ensures { IfOk result (λ ps. ps.items ≡ part.new_policies privileged (token_told caller.now) asked.now) }
{
    let own = caller.policies.as_slice();
    let adds_default = privileged || is_among(own, "default");
    let given = given_policies(alloc, adds_default, own, asked.policies.as_slice())?;
    if is_among(&given, "root") {
        return one(alloc, "root");
    }
    if asked.no_default_policy {
        let rest = without_default(alloc, &given)?;
        return as_set(alloc, &rest);
    }
    as_set(alloc, &given)
}

/// The policies asked for, with `default` if it is added to them; if none are asked for, the caller's own.
fn given_policies(
    alloc: Global,
    adds_default: bool,
    own: &[TextBuf],
    asked: &[TextBuf],
) -> Result<Vec<TextBuf>, AllocError>
    ensures { IfOk result (λ given. given.items ≡ part.policies_given adds_default own.now asked.now) }
{
    let mut given = Vec::new(alloc);
    if asked.is_empty() {
        copy_each(alloc, &mut given, own)?;
        return Ok(given);
    }
    if adds_default {
        given.push(TextBuf::copied(alloc, "default")?)?;
    }
    copy_each(alloc, &mut given, asked)?;
    Ok(given)
}

/// Adds copies of texts.
pub(crate) fn copy_each(
    alloc: Global,
    copies: &mut Vec<TextBuf>,
    texts: &[TextBuf],
) -> Result<(), AllocError>
    ensures { OnOk result (copies.new.items ≡ copies.old.items ++ texts.now) }
{
    for text in texts {
        copies.push(TextBuf::copied(alloc, text.as_str())?)?;
    }
    Ok(())
}

/// A list of one text.
fn one(alloc: Global, text: &str) -> Result<Vec<TextBuf>, AllocError>
    ensures { IfOk result (λ list. list.items ≡ text.now ∷ []) }
{
    let text = TextBuf::copied(alloc, text)?;
    Ok(vec![in alloc; text]?)
}

/// The policies but `default`.
fn without_default(alloc: Global, policies: &[TextBuf]) -> Result<Vec<TextBuf>, AllocError>
    ensures { IfOk result (λ rest. rest.items ≡ part.without_default policies.now) }
{
    let mut rest = Vec::new(alloc);
    for policy in policies {
        if !is_default(policy.as_str()) {
            rest.push(TextBuf::copied(alloc, policy.as_str())?)?;
        }
    }
    Ok(rest)
}

/// Whether a policy is `default`.
#[tactic(auto, unfolding(broker_types::specs::Text::same))]
fn is_default(policy: &str) -> bool
    ensures { result ≡ same policy.now part.default_name }
{
    policy == "default"
}

/// The texts, ascending by bytes, each once.
#[tactic(auto, using(crate::proofs::TokenSets::set_put))]
fn as_set(alloc: Global, texts: &[TextBuf]) -> Result<Vec<TextBuf>, AllocError>
    ensures { IfOk result (λ set. set.items ≡ keys (set_of texts.now)) }
{
    let mut set = BTreeSet::new(alloc);
    put_each(alloc, &mut set, texts)?;
    listed(alloc, &set)
}

/// Puts texts in a set.
fn put_each(alloc: Global, set: &mut BTreeSet<String>, texts: &[TextBuf]) -> Result<(), AllocError>
    ensures { OnOk result (map string_bytes set.new.keys ≡ sets.put_each (map string_bytes set.old.keys) texts.now) }
{
    for text in texts {
        put_one(alloc, set, text.as_str())?;
    }
    Ok(())
}

/// Puts a text in a set.
fn put_one(alloc: Global, set: &mut BTreeSet<String>, text: &str) -> Result<(), AllocError>
    ensures { OnOk result (map string_bytes set.new.keys
        ≡ insert_key text_cmp (map string_bytes set.old.keys) text.now) }
{
    set.insert(String::from_str(alloc, text)?)?;
    Ok(())
}

/// The texts of a set, in their order.
fn listed(alloc: Global, set: &BTreeSet<String>) -> Result<Vec<TextBuf>, AllocError>
    ensures { IfOk result (λ list. list.items ≡ map string_bytes set.now.keys) }
{
    let mut list = Vec::new(alloc);
    for text in set.iter() {
        list.push(TextBuf::copied(alloc, text.as_str())?)?;
    }
    Ok(list)
}
