//! Versions of secrets: as they are kept, as they are found, and as a write tells them.

ghost use Rattle.std.specs.Prelude.{◌≡◌, IfOk};

use broker_types::TextBuf;
use records::VersionRecord;
use std::alloc::{AllocError, Global};
use std::marker::Model;

/// A version of a secret (Vault's documentation, "KV secrets engine - version 2"). Moments are seconds since
/// 1970-01-01T00:00:00Z.
#[derive(Drop)]
pub struct SecretVersion {
    /// When it was written.
    pub created: u64,
    /// When it was deleted; none if it is not.
    pub deleted: Option<u64>,
    /// The compact text of its object; none if it is destroyed.
    pub secret: Option<TextBuf>,
}

impl Model for SecretVersion {
    ghost use Rattle.broker_types.specs.Secret.{Version};

    ghost Value = { Version };

    ghost view = { λ v. record { created = v.created; deleted = v.deleted; secret = v.secret } };
}

impl SecretVersion {
    /// A copy of a version. The only error is running out of memory.
    pub(crate) fn copied(
        alloc: Global,
        version: &VersionRecord<'_>,
    ) -> Result<SecretVersion, AllocError>
        ensures { IfOk result (λ v. v ≡ version.now) }
    {
        Ok(SecretVersion {
            created: version.created,
            deleted: version.deleted,
            secret: TextBuf::copied_if_some(alloc, version.secret)?,
        })
    }
}

/// A version of a secret that was read.
#[derive(Drop)]
pub struct FoundVersion {
    /// Its number, from 1 on.
    pub number: u64,
    /// What is kept of it.
    pub version: SecretVersion,
    /// The names and values of the secret's custom metadata, by name.
    pub custom_metadata: Vec<(TextBuf, TextBuf)>,
}

impl Model for FoundVersion {
    ghost use Rattle.kv2.specs.Versions.{Found};

    ghost Value = { Found };

    ghost view = { λ v. record {
      number = v.number;
      version = v.version;
      custom_metadata = v.custom_metadata.items;
    } };
}

/// A version of a secret that was written.
#[derive(Drop)]
pub struct WrittenVersion {
    /// Its number, from 1 on.
    pub number: u64,
    /// The names and values of the secret's custom metadata, by name.
    pub custom_metadata: Vec<(TextBuf, TextBuf)>,
}

impl Model for WrittenVersion {
    ghost use Rattle.kv2.specs.Versions.{WriteAnswer};

    ghost Value = { WriteAnswer };

    ghost view = { λ v. record { number = v.number; custom_metadata = v.custom_metadata.items } };
}
