//! Arguments that are tested before they are sent: values of fields, and short texts.

ghost use Rattle.std.specs.Prelude.{◌≡◌, Some, None, if◌then◌else◌, true};
ghost use Rattle.std.specs.List.{list_all};
ghost use Rattle.api_client.specs.Commands.{is_field_text, is_short_text, is_visible};

use std::marker::Model;

/// What the client sends as the value of a field: 1 to 1,024 visible ASCII characters (RFC 9110,
/// section 5.5; the limit is this project's).
#[derive(Drop)]
pub struct FieldText<'a> {
    text: &'a str,
}

impl<'a> Model for FieldText<'a> {
    ghost use Rattle.std.specs.Prelude.{◌≡◌, ℕ, List, true};
    ghost use Rattle.api_client.specs.Commands.{is_field_text};

    ghost Value = { List ℕ };

    ghost view = { λ t. t.text.now };

    ghost invariant = { λ t. is_field_text t.text.now ≡ true };
}

impl<'a> FieldText<'a> {
    /// The text as the value of a field; none if it is not one.
    pub fn read(text: &'a str) -> Option<FieldText<'a>>
        ensures { result ≡ (if is_field_text text.now then Some text.now else None) }
    {
        if text.is_empty() || text.len() > 1024 || !is_visible_text(text.as_bytes()) {
            return None;
        }
        Some(FieldText { text })
    }

    /// The text.
    pub fn as_str(&self) -> &'a str
        ensures text { result.now ≡ self.now }
        ensures good { is_field_text result.now ≡ true }
    {
        self.text
    }
}

fn is_visible_text(text: &[u8]) -> bool
    ensures { result ≡ list_all is_visible text.now }
{
    text.iter().all(|byte| byte.is_ascii_graphic())
}

/// A text of at most 1,024 bytes.
#[derive(Drop)]
pub struct ShortText<'a> {
    text: &'a str,
}

impl<'a> Model for ShortText<'a> {
    ghost use Rattle.std.specs.Prelude.{◌≡◌, ℕ, List, true};
    ghost use Rattle.api_client.specs.Commands.{is_short_text};

    ghost Value = { List ℕ };

    ghost view = { λ t. t.text.now };

    ghost invariant = { λ t. is_short_text t.text.now ≡ true };
}

impl<'a> ShortText<'a> {
    /// The text; none if it is longer.
    pub fn read(text: &'a str) -> Option<ShortText<'a>>
        ensures { result ≡ (if is_short_text text.now then Some text.now else None) }
    {
        if text.len() > 1024 {
            return None;
        }
        Some(ShortText { text })
    }

    /// The text.
    pub fn as_str(&self) -> &'a str
        ensures text { result.now ≡ self.now }
        ensures good { is_short_text result.now ≡ true }
    {
        self.text
    }
}
