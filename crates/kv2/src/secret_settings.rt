//! Settings of a single secret, as a request gives them.

use broker_types::TextBuf;
use std::marker::Model;

/// The settings of one secret that are given; an absent one stays as it is (Vault's documentation, "KV secrets engine -
/// version 2 (API)", create/update metadata).
#[derive(Drop)]
pub struct SecretSettings {
    /// Whether each write must name the version that it follows, whatever the mount says.
    pub cas_required: Option<bool>,
    /// How many versions are kept; 0 for the number of the mount.
    pub max_versions: Option<u64>,
    /// Names and values, the names ascending by bytes, each once.
    pub custom_metadata: Option<Vec<(TextBuf, TextBuf)>>,
}

impl Model for SecretSettings {
    ghost use Rattle.std.specs.Prelude.{option_map};
    ghost use Rattle.kv2.specs.Versions.{Settings};

    ghost Value = { Settings };

    ghost view = { λ s. record {
      cas_required = s.cas_required;
      max_versions = s.max_versions;
      custom_metadata = option_map (λ es. es.items) s.custom_metadata;
    } };
}
