//! Types of mounts, of those that are always there and of those that have rows.

ghost use Rattle.std.specs.Prelude.{◌≡◌};
ghost use Rattle.records.specs.Engines.{engine_of};
ghost use Rattle.mounts.specs.Types.{engine_type, fixed_type};

use records::Engine;

/// What is at a mount. Each type has its own table of routes.
#[derive(Clone, Copy, Debug, PartialEq, Eq)]
pub enum MountType {
    /// Tokens, at `auth`.
    Token,
    /// The broker's own settings, at `sys`.
    System,
    /// What each token keeps for itself, at `cubbyhole`.
    Cubbyhole,
    /// Versioned secrets.
    Kv,
    /// Issued credentials.
    Issued,
}

/// The type of a mount that is always there.
pub(crate) fn fixed_type(name: &str) -> Option<MountType>
    ensures { result ≡ fixed_type name.now }
{
    if name == "auth" {
        return Some(MountType::Token);
    }
    if name == "sys" {
        return Some(MountType::System);
    }
    if name == "cubbyhole" {
        return Some(MountType::Cubbyhole);
    }
    None
}

/// The type of a mount that has a row.
pub(crate) fn engine_type(engine: Engine) -> MountType
    ensures { result ≡ engine_type (engine_of engine) }
{
    match engine {
        Engine::Kv => MountType::Kv,
        Engine::Issued => MountType::Issued,
    }
}
