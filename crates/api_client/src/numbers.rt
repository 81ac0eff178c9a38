//! Numbers read from digits.

ghost use Rattle.std.specs.Prelude.{◌≡◌};
ghost use Rattle.std.specs.Char.{is_ascii_digit};
ghost use Rattle.std.specs.List.{list_all};
ghost use Rattle.http_layer.specs.Front.{is_number};
ghost use Rattle.api_client.specs.Numbers.{number_told};

/// The number that digits tell, if it has at most 64 bits.
pub fn number_of(text: &str) -> Option<u64>
    ensures { result ≡ number_told text.now }
{
    if !is_number(text.as_bytes()) {
        return None;
    }
    match text.parse::<u64>() {
        Ok(number) => Some(number),
        Err(_) => None,
    }
}

/// Whether the value is one or more digits.
pub(crate) fn is_number(value: &[u8]) -> bool
    ensures { result ≡ is_number value.now }
{
    !value.is_empty() && has_digits_alone(value)
}

fn has_digits_alone(value: &[u8]) -> bool
    ensures { result ≡ list_all is_ascii_digit value.now }
{
    value.iter().all(|byte| byte.is_ascii_digit())
}
