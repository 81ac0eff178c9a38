//! Names of secrets, and the keys of their rows.

ghost use Rattle.std.specs.Prelude.{◌≡◌, IfOk, string_bytes};
ghost use Rattle.records.specs.Rows as rows;
ghost use Rattle.kv2.specs.SecretRows as secret_rows;
ghost use Rattle.kv2.specs.Secrets as secrets;

use std::alloc::{AllocError, Global};

/// The name of a secret among those of all mounts: the mount, a slash and the path.
pub(crate) fn secret_name(alloc: Global, mount: &str, path: &str) -> Result<String, AllocError>
    ensures { IfOk result (λ name. string_bytes name ≡ secrets.secret_name mount.now path.now) }
{
    let mut name = String::from_str(alloc, mount)?;
    name.push_str("/")?;
    name.push_str(path)?;
    Ok(name)
}

/// How the keys of a secret's versions begin: its name and a line feed.
pub(crate) fn versions_prefix(alloc: Global, name: &str) -> Result<String, AllocError>
    ensures { IfOk result (λ key. string_bytes key ≡ secret_rows.versions_prefix name.now) }
{
    let mut key = String::from_str(alloc, name)?;
    key.push_str("\n")?;
    Ok(key)
}

/// The key of a version's row: the secret's name, a line feed and the number in twenty digits.
pub(crate) fn version_key(alloc: Global, name: &str, number: u64) -> Result<String, AllocError>
    ensures { IfOk result (λ key. string_bytes key ≡ rows.version_key name.now number) }
{
    let digits = format!(in alloc; "{number}")?;
    let mut key = versions_prefix(alloc, name)?;
    let start = digits.len();
    for place in start..20 {
        key.push_str("0")?;
    }
    key.push_str(digits.as_str())?;
    Ok(key)
}
