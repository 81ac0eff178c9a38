//! When a token is renewed.

ghost use Rattle.std.specs.Prelude.{◌≡◌, ◌-◌, ◌/◌, max, IfOk};

use crate::field::{Field, field_of};
use crate::numbers::number_of;
use std::alloc::{AllocError, Global};

/// How many seconds a renewed token has left, by the body of the reply (Vault's documentation, "Token auth method
/// (API)", "Renew a token (self)"); none if it does not say. The only error is running out of memory.
pub fn seconds_left(alloc: Global, body: &[u8]) -> Result<Option<u64>, AllocError> {
    match field_of(alloc, body, "auth.lease_duration")? {
        Field::Found(line) => Ok(number_of(line.as_str().trim_end())),
        Field::Missing | Field::NoJson => Ok(None),
    }
}

/// After how many seconds a token is renewed that has so many left: two thirds of them, at least one.
pub fn pause_before_renewal(left: u64) -> u64
    ensures { result ≡ max 1 (left - left / 3) }
{
    (left - left / 3).max(1)
}
