//! Revocation of tokens and of wrapping tokens.

ghost use Rattle.std.specs.Prelude.{◌≡◌, Ok, Option, None, IfOk, IfErr};
ghost use Rattle.broker_types.specs.Broker.{Broker};
ghost use Rattle.broker_types.specs.Fault.{IsMemoryOrStorage, IsNotBadStart};
ghost use Rattle.broker_types.specs.Text.{Text};
ghost use Rattle.records.specs.Transaction.{IsHonest};
ghost use Rattle.records.specs.Calls.{IsChange, IsRequestCall};
ghost use Rattle.records.specs.Parts.{KeepsOthers, of_tokens};
ghost use Rattle.token_tree.specs.Tokens as tree;
ghost use Rattle.broker_model.specs.parts.Tokens as part;
ghost use Rattle.broker_rows.specs.Left.{HaveEnded};
ghost use Rattle.broker_rows.specs.Operating.{ActsAs};
ghost use Rattle.broker_rows.specs.Representing.{Represents};
ghost use Rattle.token_operations.specs.Revoked.{left_by, revoked};

use broker_rows::{Answered, leave_nothing};
use broker_types::{Fault, Reason, Refusal, RequestError, TextBuf};
use records::RecordsTx;
use std::alloc::Global;
use token_tree::{find_accessor, revoke as end_descent, revoke_one as end_alone};
use wrapping::{accessors_name_their_wrapping_tokens, drop_accessor, drop_token};

/// What becomes of the tokens below one that is revoked (Vault's documentation, "Token auth method (API)", revoke a
/// token, and revoke token and orphan children).
#[derive(Clone, Copy, Debug, PartialEq, Eq)]
pub(crate) enum Descent {
    /// They end with it.
    Ends,
    /// They stay, and its children have no parent then.
    Stays,
}

/// Ends a token, those below it as `descent` says, and what belonged to all that ended. A wrapping token ends with the
/// response that waits under it. Any other text is passed over.
pub(crate) fn revoke<T: RecordsTx>(
    alloc: Global,
    tx: &mut T,
    token: &str,
    descent: Descent,
) -> Result<Answered, RequestError>
    ensures told { IsHonest (T.seen tx.new) → (who : Option Text) (b : Broker) → Represents who (T.seen tx.old).rows b
        → ActsAs who b (T.seen tx.new).rows result (Ok (revoked descent b token.now)) }
    ensures call { IsRequestCall (T.seen tx.old) (T.seen tx.new) result IsNotBadStart }
{
    let ended = end_tokens(alloc, tx, token, descent)?;
    leave_nothing(alloc, tx, &ended)?;
    drop_token(alloc, tx, token)?;
    Ok(Answered::Nothing)
}

/// Ends a token, and those below it as `descent` says. It answers the tokens that ended. What belonged to them is left
/// to its caller.
fn end_tokens<T: RecordsTx>(
    alloc: Global,
    tx: &mut T,
    token: &str,
    descent: Descent,
) -> Result<Vec<TextBuf>, Fault>
    ensures told { IsHonest (T.seen tx.new) → (who : Option Text) (b : Broker) → Represents who (T.seen tx.old).rows b
        → IfOk result (λ list.
        HaveEnded who who b (left_by descent b.tokens token.now) list.items (T.seen tx.new).rows) }
    ensures wants { IsHonest (T.seen tx.new) → (who : Option Text) (b : Broker) → Represents who (T.seen tx.old).rows b
        → IfErr result IsMemoryOrStorage }
    ensures call { IsChange (KeepsOthers of_tokens) (T.seen tx.old) (T.seen tx.new) result IsNotBadStart }
{
    match descent {
        Descent::Ends => end_descent(alloc, tx, token),
        Descent::Stays => end_alone(alloc, tx, token),
    }
}

/// Ends the token of an accessor, with all below it, and what belonged to them; or the wrapping token of it, with the
/// response that waits under it. An accessor of neither is 400 `invalid accessor`.
pub(crate) fn revoke_accessor<T: RecordsTx>(
    alloc: Global,
    tx: &mut T,
    accessor: &str,
) -> Result<Answered, RequestError>
    ensures told { IsHonest (T.seen tx.new) → (who : Option Text) (b : Broker) → Represents who (T.seen tx.old).rows b
        → ActsAs who b (T.seen tx.new).rows result (part.revoke_named b accessor.now) }
    ensures call { IsRequestCall (T.seen tx.old) (T.seen tx.new) result IsNotBadStart }
{
    let Some(token) = find_accessor(tx, accessor)? else {
        return revoke_wrapping(alloc, tx, accessor);
    };
    revoke(alloc, tx, token.as_str(), Descent::Ends)
}

/// Ends the wrapping token of an accessor that names no token, with the response that waits under it. An accessor of
/// none is 400 `invalid accessor`.
fn revoke_wrapping<T: RecordsTx>(
    alloc: Global,
    tx: &mut T,
    accessor: &str,
) -> Result<Answered, RequestError>
    ensures told { IsHonest (T.seen tx.new) → (who : Option Text) (b : Broker) → Represents who (T.seen tx.old).rows b
        → tree.find_accessor b accessor.now ≡ None
        → ActsAs who b (T.seen tx.new).rows result (part.revoke_named b accessor.now) }
    ensures call { IsRequestCall (T.seen tx.old) (T.seen tx.new) result IsNotBadStart }
{
    accessors_name_their_wrapping_tokens();
    if !drop_accessor(alloc, tx, accessor)? {
        return Err(RequestError::Refused(Refusal::BadRequest(Reason::InvalidAccessor)));
    }
    Ok(Answered::Nothing)
}
