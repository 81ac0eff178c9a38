//! Laws of the definitions, each the contract of a function that does nothing.

ghost use Rattle.cubbyhole.specs.Laws.{WriteKeepsSoundness, DeleteKeepsSoundness, DropKeepsSoundness};
ghost use Rattle.cubbyhole.specs.Laws.{WriteEvolves, DeleteEvolves, DropEvolves, EndedLeaveNothing};
ghost use Rattle.cubbyhole.specs.Laws.{AreReadAlike, AreDamagedAlike, AreThereAlike, AreListedAlike};
ghost use Rattle.cubbyhole.specs.Laws.{BrokersAreFiled, WriteKeepsFiled, DeleteKeepsFiled, DropKeepsFiled};
ghost use Rattle.cubbyhole.specs.Laws.{KeysTellOwners, OwnersHaveOneCubbyhole, OtherOwnersKeepTheirs};

/// A law: an edit of a cubbyhole leaves a sound broker sound, whoever may have spent its last use.
pub fn edits_keep_soundness()
    ensures written { WriteKeepsSoundness }
    ensures deleted { DeleteKeepsSoundness }
    ensures dropped { DropKeepsSoundness }
{}

/// A law: an edit of a cubbyhole lets a broker evolve.
pub fn edits_evolve()
    ensures written { WriteEvolves }
    ensures deleted { DeleteEvolves }
    ensures dropped { DropEvolves }
{}

/// A law: if tokens have ended and each one's cubbyhole was dropped, the rows of cubbyholes are those of
/// the broker without these tokens (Vault's documentation, "Cubbyhole secrets engine").
pub fn ended_tokens_leave_nothing()
    ensures { EndedLeaveNothing }
{}

/// A law: what `read`, `is_there` and `list` find is told by the rows of cubbyholes at the keys that begin with the
/// token and a slash. Of two tables with the same ones they find the same.
pub fn answers_are_of_one_cubbyhole()
    ensures read { AreReadAlike }
    ensures damaged { AreDamagedAlike }
    ensures there { AreThereAlike }
    ensures lists { AreListedAlike }
{}

/// A law: the rows of a broker's cubbyholes are filed under their owners, and edits leave them so. Then the keys that
/// begin with a token and a slash are those of the rows that the token owns, and an edit of one cubbyhole leaves the
/// rows of each other owner.
pub fn rows_are_filed_under_owners()
    ensures brokers { BrokersAreFiled }
    ensures written { WriteKeepsFiled }
    ensures deleted { DeleteKeepsFiled }
    ensures dropped { DropKeepsFiled }
    ensures owned { KeysTellOwners }
    ensures alike { OwnersHaveOneCubbyhole }
    ensures others { OtherOwnersKeepTheirs }
{}
