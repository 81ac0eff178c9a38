//! Places of secrets, which commands name.

use std::marker::Model;

/// Where a secret is: its mount, and its path there; or a folder, whose path is empty for the whole mount.
#[derive(Drop)]
pub struct Place<'r> {
    /// The name of the mount.
    pub mount: &'r str,
    /// The path within the mount.
    pub path: &'r str,
}

impl<'r> Model for Place<'r> {
    ghost use Rattle.broker_model.specs.parts.Place as spec;

    ghost Value = { spec.Place };

    ghost view = { λ p. record { mount = p.mount.now; path = p.path.now } };
}
