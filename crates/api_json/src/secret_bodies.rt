//! The bodies of the routes of secrets, and the versions that queries ask for (Vault's documentation, "KV secrets
//! engine - version 2 (API)").
ghost use Rattle.std.specs.Prelude.{◌≡◌, ◌≤◌, ℕ, List, Ok, Some, IfOk, length, true};
ghost use Rattle.std.specs.List.{AllByRecursion, list_all};
ghost use Rattle.broker_types.specs.Limits.{longest_body};
ghost use Rattle.broker_types.specs.Sound.{IsCustomPair};
ghost use Rattle.broker_types.specs.Text.{Text};
ghost use Rattle.api_json.specs.Json.{body_members};
ghost use Rattle.api_json.specs.KeptBodies.{IsKept, IsKeptSettings};
ghost use Rattle.api_json.specs.Parsed.{members_of};
ghost use Rattle.api_json.specs.Reads.{IsRead};
ghost use Rattle.api_json.specs.Readers as reader;

use crate::from_member::{DeletionTime, count_text};
use crate::lists::{Counts, Pairs};
use crate::members::{missing, object, optional, payload, required, unless, within};
use crate::parsed::Body;
use broker_types::{Field, Reason, Refusal, RequestError, TextBuf};
use std::alloc::Global;

/// How many names of custom metadata a secret has at most.
const MOST_CUSTOM_METADATA: usize = 64;

/// How many bytes such a name has at most.
const LONGEST_CUSTOM_NAME: usize = 128;

/// How many bytes its value has at most.
const LONGEST_CUSTOM_VALUE: usize = 512;

/// A secret that is written.
#[derive(Drop)]
pub struct SecretWrite {
    /// The compact text of its object.
    pub object: TextBuf,
    /// The version that it has to follow, if the body says.
    pub cas: Option<u64>,
}

/// Reads a secret that is written: the member `data`, and `cas` of the member `options`. If `data` is absent or not an
/// object: 400 `no data provided`; then 400 `invalid field: options` or `invalid field: cas`. The only fault is running
/// out of memory.
#[tactic(auto, unfolding(crate::specs::Readers::secret_write))]
pub fn secret_write(alloc: Global, body: &Body) -> Result<SecretWrite, RequestError>
    ensures reads { IsRead (reader.secret_write (members_of body.now)) result }
    ensures storable { (bytes : List ℕ) → length bytes ≤ longest_body → body_members bytes ≡ Ok (members_of body.now)
        → IfOk result (λ w. IsKept w.object) }
{
    let members = &body.members;
    let Some(text) = payload(alloc, members)? else {
        return Err(RequestError::Refused(Refusal::BadRequest(Reason::NoData)));
    };
    let options = object(members, Field::Options)?;
    let cas: Option<u64> = within(alloc, options, Field::Cas)?;
    Ok(SecretWrite { object: text, cas })
}

/// Reads the versions that a body names, one or more: the member `versions`. If it is absent or empty: 400 `missing
/// field: versions`; of another kind: 400 `invalid field: versions`. The only fault is running out of memory.
#[tactic(auto, unfolding(crate::specs::Readers::versions))]
pub fn versions(alloc: Global, body: &Body) -> Result<Counts, RequestError>
    ensures { IsRead (reader.versions (members_of body.now)) result }
{
    let versions: Counts = required(alloc, &body.members, Field::Versions)?;
    if versions.as_slice().is_empty() {
        return Err(missing(Field::Versions));
    }
    Ok(versions)
}

/// Reads the version that a query asks for, by what follows `version=` there: 1 to 18 digits. 0, and nothing at all, is
/// the current version. Any other text is refused with 400 `invalid field: version`.
#[tactic(auto, unfolding(crate::specs::Readers::version_number))]
pub fn version_number(text: &[u8]) -> Result<u64, Refusal>
    ensures { result ≡ reader.version_number text.now }
{
    if text.is_empty() {
        return Ok(0);
    }
    match count_text(text) {
        Some(number) => Ok(number),
        None => Err(Refusal::BadRequest(Reason::InvalidField(Field::Version))),
    }
}

/// The settings of a mount of secrets in a body. An absent one stays as it is.
#[derive(Clone, Copy, Debug, PartialEq, Eq)]
pub struct MountSettings {
    /// Whether each write must name the version that it follows.
    pub cas_required: Option<bool>,
    /// How many versions a key keeps; 0 for ten.
    pub max_versions: Option<u64>,
}

/// Reads the settings of a mount of secrets: the members `cas_required`, `max_versions` and
/// `delete_version_after`, which is the text `0s` or absent. The first bad one is refused with 400
/// `invalid field: NAME`. The only fault is running out of memory.
#[tactic(auto, unfolding(crate::specs::Readers::mount_settings))]
pub fn mount_settings(alloc: Global, body: &Body) -> Result<MountSettings, RequestError>
    ensures { IsRead (reader.mount_settings (members_of body.now)) result }
{
    let members = &body.members;
    let cas_required: Option<bool> = optional(alloc, members, Field::CasRequired)?;
    let max_versions: Option<u64> = optional(alloc, members, Field::MaxVersions)?;
    let _never: Option<DeletionTime> = optional(alloc, members, Field::DeleteVersionAfter)?;
    Ok(MountSettings {
        cas_required,
        max_versions,
    })
}

/// The settings of one secret in a body. An absent one stays as it is.
#[derive(Drop)]
pub struct KeySettings {
    /// Names and values, by name.
    pub custom_metadata: Option<Pairs>,
    /// How many versions the secret keeps; 0 for the number of its mount.
    pub max_versions: Option<u64>,
    /// Whether each write must name the version that it follows.
    pub cas_required: Option<bool>,
}

/// Reads the settings of one secret: the members `custom_metadata`, `max_versions`, `cas_required` and
/// `delete_version_after`, which is the text `0s` or absent. The first bad one is refused with 400
/// `invalid field: NAME`; so are more than 64 names of custom metadata, a name that is empty or longer than 128 bytes,
/// and a value longer than 512. The only fault is running out of memory.
#[tactic(auto, unfolding(crate::specs::Readers::key_settings))]
pub fn key_settings(alloc: Global, body: &Body) -> Result<KeySettings, RequestError>
    ensures reads { IsRead (reader.key_settings (members_of body.now)) result }
    ensures storable { (bytes : List ℕ) → length bytes ≤ longest_body → body_members bytes ≡ Ok (members_of body.now)
        → IfOk result IsKeptSettings }
{
    let members = &body.members;
    let custom_metadata: Option<Pairs> = optional(alloc, members, Field::CustomMetadata)?;
    unless(is_custom(&custom_metadata), Field::CustomMetadata)?;
    let max_versions: Option<u64> = optional(alloc, members, Field::MaxVersions)?;
    let cas_required: Option<bool> = optional(alloc, members, Field::CasRequired)?;
    let _no_deletion: Option<DeletionTime> = optional(alloc, members, Field::DeleteVersionAfter)?;
    Ok(KeySettings {
        custom_metadata,
        max_versions,
        cas_required,
    })
}

/// Whether custom metadata are accepted: if there are any, they are few, and each name and value is.
fn is_custom(given: &Option<Pairs>) -> bool
    ensures value { result ≡ reader.is_custom given.now }
    ensures accepted { result ≡ true → (es : List (Text × Text)) → given.now ≡ Some es
        → AllByRecursion (λ e. IsCustomPair e.0 e.1) es }
{
    match given {
        None => true,
        Some(pairs) => {
            pairs.as_slice().len() <= MOST_CUSTOM_METADATA && are_custom_pairs(pairs.as_slice())
        }
    }
}

/// Whether each name and value is accepted.
fn are_custom_pairs(pairs: &[(TextBuf, TextBuf)]) -> bool
    ensures value { result ≡ list_all reader.is_custom_pair pairs.now }
    ensures accepted { result ≡ true → AllByRecursion (λ e. IsCustomPair e.0 e.1) pairs.now }
{
    for pair in pairs {
        if !is_custom_pair(pair) {
            return false;
        }
    }
    true
}

/// Whether a name and its value are accepted.
fn is_custom_pair(pair: &(TextBuf, TextBuf)) -> bool
    ensures value { result ≡ reader.is_custom_pair pair.now }
    ensures accepted { result ≡ true → IsCustomPair pair.now.0 pair.now.1 }
{
    let name = pair.0.as_str();
    let value = pair.1.as_str();
    !name.is_empty() && name.len() <= LONGEST_CUSTOM_NAME && value.len() <= LONGEST_CUSTOM_VALUE
}
