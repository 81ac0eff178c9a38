//! Names of policies.

ghost use Rattle.std.specs.Prelude.{◌≡◌};
ghost use Rattle.policies.specs.Policies as spec;

/// Whether the policy allows everything.
pub(crate) fn is_root(name: &str) -> bool
    ensures { result ≡ spec.is_root name.now }
{
    name == "root"
}

/// Whether the policy is never deleted.
pub(crate) fn is_fixed(name: &str) -> bool
    ensures { result ≡ spec.is_fixed name.now }
{
    name == "root" || name == "default"
}
