//! Paths percent-encoded for the target of a request (RFC 3986, section 2.1).

ghost use Rattle.std.specs.Prelude.{◌≡◌, ℕ, ◌<◌, ◌++◌, not, OnOk, string_bytes};
ghost use Rattle.percent_encoding.specs.AsciiSet.{contains};
ghost use Rattle.api_client.specs.Escaping.{escaped, is_plain};

use percent_encoding::{AsciiSet, NON_ALPHANUMERIC, percent_encode};
use std::alloc::AllocError;

/// Adds a path at the end, as it is sent in a target. The only error is running out of memory.
pub(crate) fn push_escaped(text: &mut String, path: &str) -> Result<(), AllocError>
    ensures { OnOk result (string_bytes text.new ≡ string_bytes text.old ++ escaped path.now) }
{
    percent_encode(path.as_bytes(), escaped_set()).append_to(text)
}

/// The ASCII bytes that are escaped.
fn escaped_set() -> AsciiSet
    ensures { (b : ℕ) → b < 128 → contains result b ≡ not (is_plain b) }
{
    NON_ALPHANUMERIC
        .remove(b'-')
        .remove(b'.')
        .remove(b'_')
        .remove(b'~')
        .remove(b'/')
}
