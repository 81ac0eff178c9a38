//! Capabilities, and the other words of policies.

ghost use Rattle.std.specs.Prelude.{◌≡◌};
ghost use Rattle.policies.specs.CapabilityWords.{is_grant, is_deny};

/// What a request asks for at a path (Vault's documentation, "Policies", capabilities).
#[derive(Clone, Copy, Debug, PartialEq, Eq)]
pub enum Capability {
    /// A write to a path that has nothing.
    Create,
    /// A read.
    Read,
    /// Any other write.
    Update,
    /// A deletion.
    Delete,
    /// A list.
    List,
    /// What root-protected paths ask for besides.
    Sudo,
}

/// A word that a policy says of a pattern.
#[derive(Clone, Copy, Debug, PartialEq, Eq)]
pub enum Word {
    /// The capability is granted.
    Grant(Capability),
    /// Nothing is granted, whatever else is said.
    Deny,
    /// The capability of requests that this broker does not have: it grants nothing.
    Patch,
}

/// Whether a word grants a capability.
pub(crate) fn is_grant(word: Word, capability: Capability) -> bool
    ensures { result ≡ is_grant capability word }
{
    match word {
        Word::Grant(granted) => granted == capability,
        Word::Deny => false,
        Word::Patch => false,
    }
}

/// Whether a word is `deny`.
pub(crate) fn is_deny(word: Word) -> bool
    ensures { result ≡ is_deny word }
{
    match word {
        Word::Grant(_) => false,
        Word::Deny => true,
        Word::Patch => false,
    }
}
