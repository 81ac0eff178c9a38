//! Versions of a secret, as replies show them.

use crate::lists::Listed;
use broker_types::Moment;

/// A version of a secret.
#[derive(Clone, Copy, Debug, PartialEq, Eq)]
pub struct VersionObject {
    /// When it was written.
    pub created: Moment,
    /// When it was deleted, if it was.
    pub deleted: Option<Moment>,
    /// Whether its data are gone for good.
    pub destroyed: bool,
    /// Its number, from 1.
    pub version: u64,
}

/// Versions.
pub type Versions = Listed<VersionObject>;
