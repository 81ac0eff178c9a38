//! Laws of the definitions, each the contract of a function that does nothing.

ghost use Rattle.wrapping.specs.Laws.{MovedWaits, MovedIsGone, MovedIsTakenOut, OthersWait, RewrapMarksNone};
ghost use Rattle.wrapping.specs.Laws.{OthersStay, UnknownChangesNothing, AccessorDropsTheSame};
ghost use Rattle.wrapping.specs.Laws.{StoreAddsOne, RewrapAddsNone, DropAddsNone, AccessorAddsNone, EndsAddNone};
ghost use Rattle.wrapping.specs.Laws.{LeftEndsLater, LaterIsLeft};
ghost use Rattle.wrapping.specs.Laws.{AccessorsNameTheirs, NamedHaveTheirAccessors, AccessorsOfTokensNameNone};
ghost use Rattle.wrapping.specs.Laws.{StoreKeepsSoundness, RewrapKeepsSoundness, DropKeepsSoundness};
ghost use Rattle.wrapping.specs.Laws.{EndsKeepSoundness, StoreEvolves, RewrapEvolves, DropEvolves, EndsEvolve};
ghost use Rattle.wrapping.specs.Laws.{TokensLeaveWaiting, WaitingLeavesTokens, ExpiryIsBoth};

/// A law: a response that is wrapped anew waits under its new wrapping token alone, with its path, its length of time,
/// its origin and its text; no other response changes, and no identifier is marked as given out (Vault's
/// documentation, "Response wrapping", token rewrapping).
pub fn responses_move_whole()
    ensures moved { MovedWaits }
    ensures gone { MovedIsGone }
    ensures taken_out { MovedIsTakenOut }
    ensures others { OthersWait }
    ensures unmarked { RewrapMarksNone }
{}

/// A law: a response that is taken out or dropped goes alone, by its wrapping token or by the accessor of that, and an
/// unknown text changes nothing (Vault's documentation, "Response wrapping", token unwrapping).
pub fn responses_go_alone()
    ensures others { OthersStay }
    ensures unknown { UnknownChangesNothing }
    ensures accessor { AccessorDropsTheSame }
{}

/// A law: storing a response adds this one, and nothing else adds any: what waits afterwards waited before, with its
/// origin and its text.
pub fn only_storing_adds_responses()
    ensures stored { StoreAddsOne }
    ensures rewrapped { RewrapAddsNone }
    ensures dropped { DropAddsNone }
    ensures dropped_by_accessor { AccessorAddsNone }
    ensures ended { EndsAddNone }
{}

/// A law: the responses that are left by a moment are those that end later.
pub fn responses_end_as_defined()
    ensures left { LeftEndsLater }
    ensures later { LaterIsLeft }
{}

/// A law: the accessor of a wrapping token names it, and what an accessor names is a wrapping token that has it; the
/// accessor of a token names none (Vault's documentation, "Tokens", token accessors).
pub fn accessors_name_their_wrapping_tokens()
    ensures named { AccessorsNameTheirs }
    ensures only { NamedHaveTheirAccessors }
    ensures tokens { AccessorsOfTokensNameNone }
{}

/// A law: a response that is stored under new identifiers, that moves to such, that is dropped, or that has come to its
/// end, leaves a sound broker sound, whoever may have spent its last use.
pub fn edits_keep_soundness()
    ensures stored { StoreKeepsSoundness }
    ensures rewrapped { RewrapKeepsSoundness }
    ensures dropped { DropKeepsSoundness }
    ensures ended { EndsKeepSoundness }
{}

/// A law: each of these lets a broker evolve.
pub fn edits_evolve()
    ensures stored { StoreEvolves }
    ensures rewrapped { RewrapEvolves }
    ensures dropped { DropEvolves }
    ensures ended { EndsEvolve }
{}

/// A law: the rows of accessors are those of tokens and of wrapping tokens alike, so what changes one of the two leaves
/// the rows of the other as they are, and expiry can end first the ones and then the others.
pub fn accessors_are_shared()
    ensures tokens { TokensLeaveWaiting }
    ensures waiting { WaitingLeavesTokens }
    ensures expiry { ExpiryIsBoth }
{}
