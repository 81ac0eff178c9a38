//! Records of single versions: a secret's text, and whether it was deleted or destroyed.

use std::marker::Model;

/// One version of a secret, which borrows the secret's text. Moments are seconds since
/// 1970-01-01T00:00:00Z.
#[derive(Drop)]
pub struct VersionRecord<'r> {
    /// When it was written.
    pub created: u64,
    /// When it was deleted; none if it is not.
    pub deleted: Option<u64>,
    /// The compact text of its object; none if it is destroyed.
    pub secret: Option<&'r str>,
}

impl<'r> Model for VersionRecord<'r> {
    ghost use Rattle.std.specs.Prelude.{option_map};
    ghost use Rattle.broker_types.specs.Secret.{Version};

    ghost Value = { Version };

    ghost view = { λ v. record {
      created = v.created;
      deleted = v.deleted;
      secret = option_map (λ s. s.now) v.secret;
    } };
}
