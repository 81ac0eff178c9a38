//! What bounds the versions of a secret.

/// The greatest version: each can be asked for in 18 digits.
pub(crate) const GREATEST_VERSION: u64 = 999_999_999_999_999_999;
