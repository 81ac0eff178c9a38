//! Laws of operations and routes, each the contract of a function that does nothing.

ghost use Rattle.broker_types.specs.declared.ask.Verb.TheVariants as verb;
ghost use Rattle.mounts.specs.declared.operation.CubbyholeOperation.TheVariants as operations;
ghost use Rattle.broker_model.specs.Laws.{OperationsAreProper, OperationsDoAsTold};
ghost use Rattle.broker_model.specs.Laws.{MeansBelowCubbyhole, ListsTheWhole, AllowsListAlone};
ghost use Rattle.broker_model.specs.Laws.{IsAlwaysThere};
ghost use Rattle.broker_model.specs.Laws.{WrappingCommandsAreProper, WrappingCommandsKeepSoundness};
ghost use Rattle.broker_model.specs.Laws.{RewrapMoves, UnwrapTakesOut, WrapChangesNothing, LookUpChangesNothing};
ghost use Rattle.broker_model.specs.Laws.{OwnIsMeant};
ghost use Rattle.broker_model.specs.Laws.{WrappingKeepsSoundness, WrappingEvolves, WrappingAddsOne};

use mounts::{patterns_are_found_by_form, tables_are_in_order};

/// A law: an operation leaves what the traits of its command tell: only rows of their part change, tokens become what
/// they say, and what is given out are its own identifiers, or none. Each token stays but for the cubbyhole of the
/// caller and for leases, unless the command makes, renews or revokes one; each lease was there, or is a new one of the
/// caller; what waits did so, or moved; and what a version of a secret holds does not change, but that it is destroyed.
pub fn operations_do_as_told()
    ensures { OperationsDoAsTold }
{}

/// A law: an operation gives out its own identifiers or none, none with a 204 or with a 404 that has a
/// reply; after such a 404 nothing has changed; a response that it hands out waited until then, and its kept
/// text is the answer; and the broker evolves.
pub fn operations_are_proper()
    ensures { OperationsAreProper }
{
    operations_do_as_told();
}

/// A law: a command on responses that wait gives out its own identifiers or none, hands out only what waited until
/// then, makes no response begin to wait, lets the broker evolve, and leaves a sound broker sound. A response that is
/// wrapped anew moves to a new wrapping token, and the old one is taken out; so is that of a response that is handed
/// out, whose text is the answer. The others change nothing. An open unwrap or rewrap means the client token (Vault's
/// documentation, "/sys/wrapping").
pub fn wrapping_commands_are_proper()
    ensures proper { WrappingCommandsAreProper }
    ensures sound { WrappingCommandsKeepSoundness }
    ensures moved { RewrapMoves }
    ensures taken_out { UnwrapTakesOut }
    ensures wrapped { WrapChangesNothing }
    ensures shown { LookUpChangesNothing }
    ensures own { OwnIsMeant }
{}

/// A law: when the reply of an operation is wrapped, it is the only response that begins to wait; a sound broker stays
/// sound, and the broker evolves (Vault's documentation, "Response wrapping").
pub fn wrapping_is_proper()
    ensures sound { WrappingKeepsSoundness }
    ensures evolves { WrappingEvolves }
    ensures alone { WrappingAddsOne }
{}

/// A law: whatever mounts there are, each verb means its operation on the caller's cubbyhole at a path below
/// `cubbyhole/`, a list of `cubbyhole` itself is one of the whole cubbyhole, and nothing else is allowed there. No row
/// of a mount is asked for it. The path is of bytes, as that of each request is.
pub fn cubbyholes_are_routed()
    ensures read { MeansBelowCubbyhole verb.Get operations.Read }
    ensures list { MeansBelowCubbyhole verb.List operations.List }
    ensures write { MeansBelowCubbyhole verb.Write operations.Write }
    ensures delete { MeansBelowCubbyhole verb.Delete operations.Delete }
    ensures list_whole { ListsTheWhole }
    ensures list_alone { AllowsListAlone }
    ensures known { IsAlwaysThere }
{
    patterns_are_found_by_form();
    tables_are_in_order();
}
