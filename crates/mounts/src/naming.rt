//! The names of the mounts that stay.

ghost use Rattle.std.specs.Prelude.{◌≡◌};
ghost use Rattle.std.specs.List.{list_any};
ghost use Rattle.broker_types.specs.Text.{same};
ghost use Rattle.mounts.specs.Mounts.{fixed_names};

/// Whether the mount stays.
pub(crate) fn is_fixed(name: &str) -> bool
    ensures { result ≡ list_any (same name.now) fixed_names }
{
    name == "sys" || name == "auth" || name == "cubbyhole"
}
