//! Laws of the definitions, each the contract of a function that does nothing.

ghost use Rattle.broker_types.specs.Laws.{UnknownHasNoLineage, LineageOfOrphan, LineageOfChild};
ghost use Rattle.broker_types.specs.Laws.{IsUnderItself, UnderIsTransitive, UnderOfTokens};
ghost use Rattle.broker_types.specs.Laws.{RevokedUnknown, RevokedIsGone, OthersAreAsBefore};
ghost use Rattle.broker_types.specs.Laws.{OrphanedByUnknown, OrphanedIsGone, ChildrenAreOrphans};
ghost use Rattle.broker_types.specs.Laws.{UnrelatedAreAsBefore, NoneIsNew};
ghost use Rattle.broker_types.specs.Laws.{LeftOutlasts, OutlastingIsLeft};
ghost use Rattle.broker_types.specs.Laws.{RevokeKeepsTrees, RevokeOrphanKeepsTrees, ExpiryKeepsTrees};
ghost use Rattle.broker_types.specs.Laws.{FirstBrokerIsSound, DropWaitingKeepsSoundness};
ghost use Rattle.broker_types.specs.Laws.{SpendKeepsSoundness, EndingTheSpentKeepsSoundness};
ghost use Rattle.broker_types.specs.Laws.{RevokeKeepsSoundness, RevokeOrphanKeepsSoundness, ExpiryKeepsSoundness};
ghost use Rattle.broker_types.specs.Laws.{RevokeEvolves, RevokeOrphanEvolves, ExpiryEvolves};
ghost use Rattle.broker_types.specs.Laws.{SpendEvolves, EndSpentEvolves, DropWaitingEvolves};
ghost use Rattle.broker_types.specs.Laws.{RevokeEnds, RevokeOrphanEnds, ExpiryEnds, EndSpentEnds};
ghost use Rattle.broker_types.specs.Laws.{DroppedIsTakenOut, DroppedOriginIsGone};
ghost use Rattle.broker_types.specs.Laws.{EvolvesFromItself, EvolvingIsTransitive};
ghost use Rattle.broker_types.specs.Laws.{GoneOriginStaysGone, EndedStaysEnded, EndedLeaseStaysEnded};
ghost use Rattle.broker_types.specs.Laws.{TakenOutStaysOut};

/// A law: the lineage of a token is the token and the lineage of its parent; so a token is under
/// itself, and under is transitive (Vault's documentation, "Tokens", token hierarchies).
pub fn lineages_climb()
    ensures unknown { UnknownHasNoLineage }
    ensures orphan { LineageOfOrphan }
    ensures child { LineageOfChild }
    ensures itself { IsUnderItself }
    ensures transitive { UnderIsTransitive }
    ensures tokens { UnderOfTokens }
{}

/// A law: a revoked token ends with all that is under it, and nothing else changes (Vault's
/// documentation, "Tokens", token hierarchies).
pub fn revocation_ends_descendants()
    ensures unknown { RevokedUnknown }
    ensures gone { RevokedIsGone }
    ensures others { OthersAreAsBefore }
    ensures tree { RevokeKeepsTrees }
{}

/// A law: a token that is revoked alone ends, its children have no parent then, and nothing else
/// changes (Vault's documentation, "Tokens", orphan tokens).
pub fn revocation_orphans_children()
    ensures unknown { OrphanedByUnknown }
    ensures gone { OrphanedIsGone }
    ensures children { ChildrenAreOrphans }
    ensures others { UnrelatedAreAsBefore }
    ensures none_new { NoneIsNew }
    ensures tree { RevokeOrphanKeepsTrees }
{}

/// A law: the tokens at a moment are those that end later, as do all above them, each with its leases
/// that end later (Vault's documentation, "Lease, renew, and revoke").
pub fn expiry_ends_descendants()
    ensures left { LeftOutlasts }
    ensures outlasting { OutlastingIsLeft }
    ensures tree { ExpiryKeepsTrees }
{}

/// A law: the broker that a start makes of two different words, at an accepted moment, is sound, if the
/// text of the policy `default` is a policy.
pub fn first_broker_is_sound()
    ensures { FirstBrokerIsSound }
{}

/// A law: revocation, expiry and dropping a waiting response leave a sound broker sound, whoever may have
/// spent its last use.
pub fn removals_keep_soundness()
    ensures revoked { RevokeKeepsSoundness }
    ensures revoked_alone { RevokeOrphanKeepsSoundness }
    ensures expired { ExpiryKeepsSoundness }
    ensures dropped { DropWaitingKeepsSoundness }
{}

/// A law: spending a use of the caller leaves a sound broker sound, but for the caller, which may have spent
/// its last; and once it is ended then, with its descendants, the broker is sound, and no token has spent its
/// last use (Vault's documentation, "Tokens", use limits).
pub fn spending_keeps_soundness()
    ensures spent { SpendKeepsSoundness }
    ensures ended { EndingTheSpentKeepsSoundness }
{}

/// A law: revocation, expiry, spending a use, ending a spent caller and dropping a waiting response let a
/// broker evolve.
pub fn removals_evolve()
    ensures revoked { RevokeEvolves }
    ensures revoked_alone { RevokeOrphanEvolves }
    ensures expired { ExpiryEvolves }
    ensures spent { SpendEvolves }
    ensures ended { EndSpentEvolves }
    ensures dropped { DropWaitingEvolves }
{}

/// A law: a token that is gone after revocation, expiry or the end of a spent caller has ended, if each
/// identifier is in one place and was given out.
pub fn removals_end_tokens()
    ensures revoked { RevokeEnds }
    ensures revoked_alone { RevokeOrphanEnds }
    ensures expired { ExpiryEnds }
    ensures spent { EndSpentEnds }
{}

/// A law: a wrapping token whose response is dropped is taken out, and the origin of the response is gone: no
/// response that waits has it any more (Vault's documentation, "Response wrapping").
pub fn dropping_takes_out()
    ensures taken_out { DroppedIsTakenOut }
    ensures origin_gone { DroppedOriginIsGone }
{}

/// A law: a token or a lease that has ended, an origin that is gone and a wrapping token that was taken out stay so in
/// each broker that evolves from this one.
pub fn evolving_lasts()
    ensures itself { EvolvesFromItself }
    ensures transitive { EvolvingIsTransitive }
    ensures origin_gone { GoneOriginStaysGone }
    ensures ended { EndedStaysEnded }
    ensures lease_ended { EndedLeaseStaysEnded }
    ensures taken_out { TakenOutStaysOut }
{}
