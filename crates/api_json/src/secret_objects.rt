//! The objects that replies about secrets have (Vault's documentation, "KV secrets engine - version 2 (API)").
ghost use Rattle.std.specs.Prelude.{◌≡◌, IfOk};
ghost use Rattle.api_json.specs.Objects.{version_object, version_entry, versions_object, key_object};
ghost use Rattle.api_json.specs.Objects.{secret_object, settings_object};

use crate::by_name::ByName;
use crate::lists::Pairs;
use crate::name::Name;
use crate::printing::ObjectText;
use crate::version_list::{VersionObject, Versions};
use broker_types::{Moment, TextBuf};
use std::alloc::{AllocError, Global};

/// Prints a version of a secret, with the names and texts of the secret's custom metadata, by name; no metadata
/// prints as null. The only error is running out of memory.
#[tactic(auto, unfolding(crate::specs::Objects::version_object))]
pub fn version_object(
    alloc: Global,
    custom_metadata: &[(TextBuf, TextBuf)],
    version: &VersionObject,
) -> Result<TextBuf, AllocError>
    ensures { IfOk result (λ t. t ≡ version_object custom_metadata.now version.now) }
{
    ObjectText::new(alloc)?
        .time(Name::CreatedTime, version.created)?
        .pairs(Name::CustomMetadata, custom_metadata)?
        .time_or_empty(Name::DeletionTime, version.deleted)?
        .flag(Name::Destroyed, version.destroyed)?
        .number(Name::Version, version.version)?
        .finish()
}

/// Prints a version that is read: its object, a compact JSON text, and its metadata. The object of a deleted or
/// destroyed version prints as null. The only error is running out of memory.
#[tactic(auto, unfolding(crate::specs::Objects::secret_object))]
pub fn secret_object(
    alloc: Global,
    object: &Option<TextBuf>,
    custom_metadata: &[(TextBuf, TextBuf)],
    version: &VersionObject,
) -> Result<TextBuf, AllocError>
    ensures { IfOk result (λ t. t ≡ secret_object object.now custom_metadata.now version.now) }
{
    let metadata = version_object(alloc, custom_metadata, version)?;
    ObjectText::new(alloc)?
        .or_null(Name::Payload, object)?
        .member(Name::Metadata, metadata.as_str())?
        .finish()
}

/// A key of secrets.
#[derive(Drop)]
pub struct KeyObject {
    /// Whether each write must name the version that it follows.
    pub cas_required: bool,
    /// When its first version was written.
    pub created: Moment,
    /// The number of its last version.
    pub current_version: u64,
    /// Names and texts, by name; an empty list prints as null.
    pub custom_metadata: Pairs,
    /// How many versions it keeps; 0 if its mount says that.
    pub max_versions: u64,
    /// The oldest version that is kept, if above 1; else 0.
    pub oldest_version: u64,
    /// When its last version or its settings were written.
    pub updated: Moment,
    /// The versions that are kept.
    pub versions: Versions,
}

/// Prints a key of secrets with its versions. The only error is running out of memory.
#[tactic(auto, unfolding(crate::specs::Objects::key_object))]
pub fn key_object(alloc: Global, key: &KeyObject) -> Result<TextBuf, AllocError>
    ensures { IfOk result (λ t. t ≡ key_object key.now) }
{
    let versions = versions_object(alloc, key.versions.as_slice())?;
    ObjectText::new(alloc)?
        .flag(Name::CasRequired, key.cas_required)?
        .time(Name::CreatedTime, key.created)?
        .number(Name::CurrentVersion, key.current_version)?
        .pairs(Name::CustomMetadata, key.custom_metadata.as_slice())?
        .text(Name::DeleteVersionAfter, "0s")?
        .number(Name::MaxVersions, key.max_versions)?
        .number(Name::OldestVersion, key.oldest_version)?
        .time(Name::UpdatedTime, key.updated)?
        .member(Name::Versions, versions.as_str())?
        .finish()
}

/// Prints the versions of a key by their numbers, in the order of the bytes of their digits.
#[tactic(auto, unfolding(crate::specs::Objects::versions_object, crate::specs::Printing::whole_number))]
fn versions_object(alloc: Global, versions: &[VersionObject]) -> Result<TextBuf, AllocError>
    ensures { IfOk result (λ t. t ≡ versions_object versions.now) }
{
    let mut entries = ByName::new(alloc);
    for version in versions {
        let name = version.version.to_string(alloc)?;
        let value = version_entry(alloc, version)?;
        entries = entries.insert(name, value)?;
    }
    entries.finish(alloc)
}

/// Prints the metadata of one version of a key.
fn version_entry(alloc: Global, version: &VersionObject) -> Result<TextBuf, AllocError>
    ensures { IfOk result (λ t. t ≡ (version_entry version.now).1) }
{
    ObjectText::new(alloc)?
        .time(Name::CreatedTime, version.created)?
        .time_or_empty(Name::DeletionTime, version.deleted)?
        .flag(Name::Destroyed, version.destroyed)?
        .finish()
}

/// Prints the settings of a mount of secrets. The only error is running out of memory.
#[tactic(auto, unfolding(crate::specs::Objects::settings_object))]
pub fn settings_object(
    alloc: Global,
    cas_required: bool,
    max_versions: u64,
) -> Result<TextBuf, AllocError>
    ensures { IfOk result (λ t. t ≡ settings_object cas_required max_versions) }
{
    ObjectText::new(alloc)?
        .flag(Name::CasRequired, cas_required)?
        .text(Name::DeleteVersionAfter, "0s")?
        .number(Name::MaxVersions, max_versions)?
        .finish()
}
