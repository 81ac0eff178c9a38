//! Keys of the rows of cubbyholes.

ghost use Rattle.std.specs.Prelude.{◌≡◌, IfOk, string_bytes};
ghost use Rattle.records.specs.Children.{folder};
ghost use Rattle.cubbyhole.specs.Objects as objects;

use std::alloc::{AllocError, Global};

/// The key of the row of a path: the token, a slash and the path.
pub fn object_key(alloc: Global, token: &str, path: &str) -> Result<String, AllocError>
    ensures { IfOk result (λ key. string_bytes key ≡ objects.object_key token.now path.now) }
{
    let mut key = String::from_str(alloc, token)?;
    key.push_str("/")?;
    key.push_str(path)?;
    Ok(key)
}

/// How the keys of the rows of a folder's paths begin: the token, a slash and the folder with its slash. The
/// empty path is for the whole cubbyhole.
pub fn folder_key(alloc: Global, token: &str, path: &str) -> Result<String, AllocError>
    ensures { IfOk result (λ key. string_bytes key ≡ objects.object_key token.now (folder path.now)) }
{
    let mut key = object_key(alloc, token, path)?;
    if !path.is_empty() {
        key.push_str("/")?;
    }
    Ok(key)
}
