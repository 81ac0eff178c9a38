//! Lengths of bodies, read from Content-Length fields (RFC 9110, section 8.6).

ghost use Rattle.std.specs.Prelude.{◌≡◌, ◌+◌, ◌∷◌, [], min, IfSome, IfNone, IsTrue, false};
ghost use Rattle.std.specs.Str.Parse.{digits_value};
ghost use Rattle.http_layer.specs.Front.{is_number, content_length};

use broker_types::Status;

/// The longest body, in bytes.
const BODY_LIMIT: u64 = 1_048_576;

/// The length of the body in bytes, from the value of the only Content-Length field, or the status of
/// the refusal.
pub(crate) fn body_len_of(value: &[u8]) -> Result<usize, Status>
    ensures { result ≡ content_length (value.now ∷ []) }
{
    match capped_number(value) {
        None => Err(Status::BadRequest),
        Some(len) if len > BODY_LIMIT => Err(Status::PayloadTooLarge),
        Some(len) => Ok(len as usize),
    }
}

/// The number that the digits are, or the longest body and one if that is less. None if a byte is not
/// a digit, or if there is no byte.
fn capped_number(digits: &[u8]) -> Option<u64>
    ensures some { IfSome result (λ n. IsTrue (is_number digits.now)
        × (n ≡ min (digits_value 10 digits.now) (BODY_LIMIT + 1))) }
    ensures none { IfNone result (is_number digits.now ≡ false) }
{
    let mut value = 0u64;
    for b in digits {
        if !b.is_ascii_digit() {
            return None;
        }
        value = (10 * value + u64::from(*b - b'0')).min(BODY_LIMIT + 1);
    }
    if digits.is_empty() { None } else { Some(value) }
}
