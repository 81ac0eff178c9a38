//! Durations, read from texts such as `1h30m`.

ghost use Rattle.std.specs.Prelude.{◌≡◌, ◌≤◌, ◌<◌, ℕ, ◌+◌, ◌&&◌, not, ◌==◌, unwrap_or, length};
ghost use Rattle.std.specs.Prelude.{IfSome, MatchResult, Some, None};
ghost use Rattle.std.specs.List.{list_all};
ghost use Rattle.std.specs.Char.{is_ascii_digit};
ghost use Rattle.broker_types.specs.Duration.{duration_of, IsDuration, group_step, unit_of, longest_duration};
ghost use Rattle.broker_types.specs.declared.refusal.Refusal.TheVariants.{BadRequest};
ghost use Rattle.broker_types.specs.declared.refusal.Reason.TheVariants.{InvalidDuration};

use crate::refusal::{Reason, Refusal};
use crate::seconds::Seconds;

/// The longest duration, in seconds.
const LONGEST: u64 = 4_294_967_295;

/// Reads a duration (Vault's documentation, "duration format strings", with the units `h`, `m` and
/// `s` alone): digits alone are seconds; digits followed by a unit are a group, and groups are added
/// up; an empty text is 0 seconds. It takes no memory. Any other text, and a duration of more than
/// 4,294,967,295 seconds, is refused: 400 `invalid duration`.
pub fn read_duration(text: &str) -> Result<Seconds, Refusal>
    ensures value { MatchResult result
        (λ seconds. duration_of text.now ≡ Some seconds)
        (λ refusal. (refusal ≡ BadRequest InvalidDuration) × (duration_of text.now ≡ None)) }
    ensures grammar { MatchResult result
        (λ seconds. IsDuration text.now seconds)
        (λ _. (n : ℕ) → ¬ IsDuration text.now n) }
{
    match seconds_of(text) {
        Some(count) => Ok(Seconds::new(count as u32)),
        None => Err(Refusal::BadRequest(Reason::InvalidDuration)),
    }
}

/// The seconds of a text.
fn seconds_of(text: &str) -> Option<u64>
    ensures value { result ≡ duration_of text.now }
    ensures within { IfSome result (λ n. n ≤ longest_duration) }
{
    let bytes = text.as_bytes();
    let mut sum = 0u64;
    let mut begun: Option<u64> = None;
    for byte in bytes {
        let (total, digits) = step(sum, begun, *byte)?;
        if total + digits.unwrap_or(0) > LONGEST {
            return None;
        }
        sum = total;
        begun = digits;
    }
    if is_digits(bytes) {
        let (total, digits) = step(sum, begun, b's')?;
        if total > LONGEST || digits.is_some() {
            return None;
        }
        return Some(total);
    }
    match begun {
        None => Some(sum),
        Some(_) => None,
    }
}

/// What one more byte makes of the sum of the groups and the digits of a group that has begun.
fn step(sum: u64, begun: Option<u64>, byte: u8) -> Option<(u64, Option<u64>)>
    requires { sum + unwrap_or begun 0 ≤ longest_duration }
    ensures { result ≡ group_step sum begun byte }
{
    if byte.is_ascii_digit() {
        return Some((sum, Some(begun.unwrap_or(0) * 10 + u64::from(byte - b'0'))));
    }
    match (begun, unit(byte)) {
        (Some(count), Some(seconds)) => Some((sum + count * seconds, None)),
        _ => None,
    }
}

/// The seconds of a unit.
fn unit(byte: u8) -> Option<u64>
    ensures { result ≡ unit_of byte }
{
    match byte {
        b'h' => Some(3600),
        b'm' => Some(60),
        b's' => Some(1),
        _ => None,
    }
}

fn is_digits(text: &[u8]) -> bool
    ensures { result ≡ (not (length text.now == 0) && list_all is_ascii_digit text.now) }
{
    !text.is_empty() && all_digits(text)
}

fn all_digits(text: &[u8]) -> bool
    ensures { result ≡ list_all is_ascii_digit text.now }
{
    text.iter().all(|byte| byte.is_ascii_digit())
}
