//! Laws of the definitions, each the contract of a function that does nothing.

ghost use Rattle.token_tree.specs.Laws.{RevokedAreNotFound, OthersAreFound, ChildrenAreOrphans};
ghost use Rattle.token_tree.specs.Laws.{EndedByRevocation, EndedAlone, EndedByNow};
ghost use Rattle.token_tree.specs.Laws.{AccessorsNameTheirTokens, NamedTokensHaveTheirAccessors};
ghost use Rattle.token_tree.specs.Laws.{CreationKeepsSoundness, RenewalKeepsSoundness, CreationEvolves, RenewalEvolves};

/// A law: after a revocation no token under the revoked one is found, and each other is found as before. The children
/// of a token that was revoked alone have no parent (Vault's documentation, "Tokens", token hierarchies and orphan
/// tokens).
pub fn revoked_tokens_are_not_found()
    ensures revoked { RevokedAreNotFound }
    ensures others { OthersAreFound }
    ensures orphans { ChildrenAreOrphans }
{}

/// A law: by a revocation the tokens under the revoked one end, by that of one token alone this one, and by a moment
/// those that are not alive then.
pub fn tokens_end_as_defined()
    ensures revoked { EndedByRevocation }
    ensures alone { EndedAlone }
    ensures expired { EndedByNow }
{}

/// A law: the accessor of a token names this token, and what an accessor names is a token that has it (Vault's
/// documentation, "Tokens", token accessors).
pub fn accessors_name_their_tokens()
    ensures named { AccessorsNameTheirTokens }
    ensures only { NamedTokensHaveTheirAccessors }
{}

/// A law: a token made under new identifiers, or renewed by an end in range, leaves a sound broker sound, whoever may
/// have spent its last use.
pub fn edits_keep_soundness()
    ensures created { CreationKeepsSoundness }
    ensures renewed { RenewalKeepsSoundness }
{}

/// A law: a token made under a new identifier, or renewed, lets a broker evolve.
pub fn edits_evolve()
    ensures created { CreationEvolves }
    ensures renewed { RenewalEvolves }
{}
