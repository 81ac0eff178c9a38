//! Names, paths, keys and identifiers of rows.

ghost use Rattle.std.specs.Prelude.{◌≡◌, ◌<◌, ◌^◌, ◌++◌, ◌∷◌, true, codes, Some, is_some, option_map};
ghost use Rattle.std.specs.Prelude.{IfOk, IfErr, IfSome, IfNone};
ghost use Rattle.std.specs.Bool.{OnTrue};
ghost use Rattle.broker_types.specs.Identifier.{id};
ghost use Rattle.broker_types.specs.Name as names;
ghost use Rattle.broker_types.specs.Name.{is_mount_name};
ghost use Rattle.broker_types.specs.IdentifierPlaces as places;
ghost use Rattle.broker_types.specs.Sound.{IsIdentifier, IsLeaseId, IsPathText, IsSecretName};
ghost use Rattle.broker_types.specs.Text.{Text};
ghost use Rattle.broker_types.specs.TokenText.{token_text};
ghost use Rattle.broker_types.specs.declared.fault.Fault.TheVariants as faults;
ghost use Rattle.serde_json.specs.Find.{as_object};
ghost use Rattle.api_json.specs.KeptBodies as kept;
ghost use Rattle.api_json.specs.Parsed.{data_of};
ghost use Rattle.records.specs.Splits.{slash, split_once, lacks};
ghost use Rattle.policies.specs.PolicyTexts as reading;
ghost use Rattle.soundness.specs.Texts.{IsRoleName};

use api_json::Tree;
use broker_types::{Fault, Path, RequestError, id_bytes, is_name, is_reserved, is_same};
use policies::Policy;
use std::alloc::{AllocError, Global};
use std::borrow::CowStr;
use uuid::Uuid;

/// The word of an identifier.
pub(crate) fn word_of(text: &str) -> Option<u128>
    ensures sound { IfSome result (λ word. (word < 2 ^ 128) × (text.now ≡ id word)) }
    ensures whole { IfNone result (IsIdentifier text.now → ⊥) }
{
    let Ok(uuid) = Uuid::parse_str(text) else {
        return None;
    };
    let word = uuid.as_u128();
    let printed = id_bytes(word);
    if text.as_bytes() == printed.as_slice() {
        Some(word)
    } else {
        None
    }
}

/// Whether a text is an identifier.
pub(crate) fn is_identifier(text: &str) -> bool
    ensures sound { OnTrue result (IsIdentifier text.now) }
    ensures whole { IsIdentifier text.now → result ≡ true }
{
    match word_of(text) {
        Some(_) => true,
        None => false,
    }
}

/// The text before the first slash, and the text after it.
fn cut(text: &str) -> Option<(&str, &str)>
    ensures sound { IfSome result (λ p. text.now ≡ p.0.now ++ slash ∷ p.1.now) }
    ensures exact { option_map (λ p. (p.0.now, p.1.now)) result ≡ split_once slash text.now }
{
    text.split_once('/')
}

/// What follows a prefix of a text.
fn after<'t>(text: &'t str, prefix: &str) -> Option<&'t str>
    ensures sound { IfSome result (λ rest. text.now ≡ prefix.now ++ rest.now) }
    ensures whole { IfNone result ((rest : Text) → text.now ≡ prefix.now ++ rest → ⊥) }
{
    text.strip_prefix(prefix)
}

/// The identifier of a token.
pub(crate) fn token_identifier(token: &str) -> Option<&str>
    ensures sound { IfSome result (λ identifier. token.now ≡ token_text identifier.now) }
    ensures whole { IfNone result ((identifier : Text) → token.now ≡ token_text identifier → ⊥) }
{
    after(token, "hvs.")
}

/// Whether a mount may have the name.
pub(crate) fn is_mount_name(name: &str) -> bool
    ensures { result ≡ is_mount_name name.now }
{
    is_name(name) && !is_reserved(name)
}

/// Whether a text is the path of a request, or a part of one.
pub(crate) fn is_path(text: &str) -> bool
    ensures sound { OnTrue result (IsPathText text.now) }
    ensures whole { IsPathText text.now → result ≡ true }
{
    match Path::read(CowStr::Borrowed(text)) {
        Ok(path) => path.as_str() == text,
        Err(_) => false,
    }
}

/// Whether a text is the name of a secret: a mount, a slash and a path.
pub(crate) fn is_secret_name(text: &str) -> bool
    ensures sound { OnTrue result (IsSecretName text.now) }
    ensures whole { IsSecretName text.now → result ≡ true }
{
    let Some((mount, path)) = cut(text) else {
        return false;
    };
    if !is_mount_name(mount) {
        return false;
    }
    is_path(path)
}

/// Whether a text is the name of a role: a mount, a slash and a name.
pub(crate) fn is_role_name(text: &str) -> bool
    ensures sound { OnTrue result (IsRoleName text.now) }
    ensures whole { IsRoleName text.now → result ≡ true }
{
    let Some((mount, role)) = cut(text) else {
        return false;
    };
    if !is_mount_name(mount) {
        return false;
    }
    is_name(role)
}

/// Whether a mount and a role may have the names, and the text is an identifier.
fn are_parts_of_id(mount: &str, role: &str, identifier: &str) -> bool
    ensures sound { OnTrue result ((is_mount_name mount.now ≡ true) × (names.is_name role.now ≡ true)
        × IsIdentifier identifier.now) }
    ensures whole { is_mount_name mount.now ≡ true → names.is_name role.now ≡ true → IsIdentifier identifier.now
        → result ≡ true }
{
    if !is_mount_name(mount) {
        return false;
    }
    if !is_name(role) {
        return false;
    }
    is_identifier(identifier)
}

/// The role and the identifier of what follows the mount and the slash of a lease's id.
fn issued(rest: &str) -> Option<(&str, &str)>
    ensures sound { IfSome result (λ p. rest.now ≡ codes "creds/" ++ (p.0.now ++ slash ∷ p.1.now)) }
    ensures whole { (role identifier : Text) → rest.now ≡ codes "creds/" ++ (role ++ slash ∷ identifier)
        → lacks slash role ≡ true
        → option_map {U = Text × Text} (λ p. (p.0.now, p.1.now)) result ≡ Some (role, identifier) }
{
    let folder = after(rest, "creds/")?;
    cut(folder)
}

/// The identifier at the end of a text, if this is the id of a lease: a mount, `/creds/`, a role, a slash and an
/// identifier.
pub(crate) fn lease_identifier(text: &str) -> Option<&str>
    ensures sound { IfSome result (λ identifier.
        IsLeaseId text.now × (identifier.now ≡ places.lease_identifier text.now)) }
    ensures whole { IfNone result (IsLeaseId text.now → ⊥) }
{
    let Some((mount, rest)) = cut(text) else {
        return None;
    };
    let Some((role, identifier)) = issued(rest) else {
        return None;
    };
    if !are_parts_of_id(mount, role, identifier) {
        return None;
    }
    Some(identifier)
}

/// Whether a value is an object.
fn holds_object(tree: &Tree) -> bool
    ensures { result ≡ is_some (as_object (data_of tree.now)) }
{
    tree.value().as_object().is_some()
}

/// Whether a text is the compact text of an object. The only error is running out of memory.
pub(crate) fn is_object(alloc: Global, text: &str) -> Result<bool, AllocError>
    ensures sound { IfOk result (λ v. OnTrue v (kept.is_object text.now ≡ true)) }
    ensures whole { IfOk result (λ v. kept.is_object text.now ≡ true → v ≡ true) }
{
    let Some(tree) = Tree::read(alloc, text.as_bytes())? else {
        return Ok(false);
    };
    if !holds_object(&tree) {
        return Ok(false);
    }
    let printed = tree.to_text(alloc)?;
    Ok(is_same(printed.as_str(), text))
}

/// Whether a text is a policy. The only fault is running out of memory.
pub(crate) fn is_policy(alloc: Global, text: &str) -> Result<bool, Fault>
    ensures policy { IfOk result (λ v. OnTrue v (reading.is_policy text.now ≡ true)) }
    ensures whole { IfOk result (λ v. reading.is_policy text.now ≡ true → v ≡ true) }
    ensures memory { IfErr result (λ fault. fault ≡ faults.Memory) }
{
    match Policy::from_json(alloc, text) {
        Ok(_) => Ok(true),
        Err(RequestError::Refused(_)) => Ok(false),
        Err(RequestError::Fault(fault)) => Err(fault),
    }
}
