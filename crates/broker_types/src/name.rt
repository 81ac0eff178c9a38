//! Names of mounts, policies and roles.

ghost use Rattle.std.specs.Prelude.{◌≡◌};
ghost use Rattle.std.specs.List.{list_all, list_any};
ghost use Rattle.broker_types.specs.Name as names;
ghost use Rattle.broker_types.specs.Text.{same};

/// Whether a text is a name: 1 to 128 ASCII letters, digits, `-`, `_` and `.`.
pub fn is_name(text: &str) -> bool
    ensures { result ≡ names.is_name text.now }
{
    let len = text.len();
    if len == 0 || len > 128 {
        return false;
    }
    has_name_bytes(text.as_bytes())
}

fn has_name_bytes(bytes: &[u8]) -> bool
    ensures { result ≡ list_all names.is_name_byte bytes.now }
{
    bytes.iter().all(|byte| is_name_byte(*byte))
}

fn is_name_byte(byte: u8) -> bool
    ensures { result ≡ names.is_name_byte byte }
{
    byte.is_ascii_alphanumeric() || byte == b'-' || byte == b'_' || byte == b'.'
}

/// Whether no mount may have the name (Vault's documentation, "System backend", `/sys/mounts`).
#[tactic(auto, unfolding(crate::specs::Text::same))]
pub fn is_reserved(name: &str) -> bool
    ensures { result ≡ list_any (same name.now) names.reserved_names }
{
    name == "sys" || name == "auth" || name == "cubbyhole" || name == "identity"
}
