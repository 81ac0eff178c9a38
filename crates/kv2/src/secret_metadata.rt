//! What may be told of a secret and of its versions to those who do not read their texts.

use broker_types::TextBuf;
use std::marker::Model;

/// A version of a secret without its text (Vault's documentation, "KV secrets engine - version 2"). Moments are
/// seconds since 1970-01-01T00:00:00Z.
#[derive(Clone, Copy, Debug, PartialEq, Eq)]
pub struct VersionMetadata {
    /// Its number, from 1 on.
    pub number: u64,
    /// When it was written.
    pub created: u64,
    /// When it was deleted; none if it is not.
    pub deleted: Option<u64>,
    /// Whether its text is gone for good.
    pub destroyed: bool,
}

/// A secret without its texts: its own settings, its times and its versions (Vault's documentation, "KV secrets
/// engine - version 2 (API)", read secret metadata). Moments are seconds since 1970-01-01T00:00:00Z.
#[derive(Drop)]
pub struct SecretMetadata {
    /// Whether each write must name the version that it follows, whatever its mount says.
    pub cas_required: bool,
    /// When it was made.
    pub created: u64,
    /// The last version written.
    pub current: u64,
    /// Names and values, by name.
    pub custom_metadata: Vec<(TextBuf, TextBuf)>,
    /// How many versions it keeps; 0 if its mount says that.
    pub max_versions: u64,
    /// The oldest version that is kept, if it is above 1; else 0.
    pub oldest: u64,
    /// When its last version or its settings were written.
    pub updated: u64,
    /// The versions that are kept, in the order of their numbers.
    pub versions: Vec<VersionMetadata>,
}

impl Model for SecretMetadata {
    ghost use Rattle.kv2.specs.Metadata.{Metadata};

    ghost Value = { Metadata };

    ghost view = { λ m. record {
      cas_required = m.cas_required;
      created = m.created;
      current = m.current;
      custom_metadata = m.custom_metadata.items;
      max_versions = m.max_versions;
      oldest = m.oldest;
      updated = m.updated;
      versions = m.versions.items;
    } };
}
