//! Lengths of time that may say nothing.

ghost use Rattle.std.specs.Prelude.{◌≡◌};
ghost use Rattle.leases.specs.Leases as leases;

/// The number, or the other if it is 0.
pub(crate) fn or_if_zero(n: u64, other: u64) -> u64
    ensures { result ≡ leases.or_if_zero n other }
{
    if n == 0 { other } else { n }
}
