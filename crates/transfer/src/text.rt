//! The first and the last line of a file.

ghost use Rattle.std.specs.Prelude.{◌≡◌, IfOk, ℕ, List, string_bytes, true};
ghost use Rattle.records.specs.Splits.{lacks, line_feed};
ghost use Rattle.sha2.specs.Hashers.{Holds256};
ghost use Rattle.transfer.specs.Files.{IsHead, head, tail};

use sha2::{Digest, Sha256};
use std::alloc::{AllocError, Global};

/// The first line of a file, of a version of the program that is one line, and of so many rows.
pub(crate) fn first_line(alloc: Global, version: &str, count: u64) -> Result<String, AllocError>
    requires { lacks line_feed version.now ≡ true }
    ensures { IfOk result (λ line. IsHead count (string_bytes line)) }
{
    head(alloc, version, count)
}

/// The first line, of a version of the program and of so many rows.
pub(crate) fn head(alloc: Global, version: &str, count: u64) -> Result<String, AllocError>
    ensures { IfOk result (λ line. string_bytes line ≡ head version.now count) }
{
    format!(in alloc; "{{\"format\":1,\"rows\":{count},\"version\":\"{version}\"}}")
}

/// The last line, of the bytes that were summed.
pub(crate) fn tail(alloc: Global, hasher: &Sha256) -> Result<String, AllocError>
    ensures { IfOk result (λ line. (before : List ℕ) → Holds256 hasher.now before
        → string_bytes line ≡ tail before) }
{
    let digest = hasher.clone()?.finalize();
    let digits = hex::encode(alloc, digest)?;
    let digits = digits.as_str();
    format!(in alloc; "{{\"sha256\":\"{digits}\"}}")
}
