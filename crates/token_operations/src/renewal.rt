//! Renewal of tokens.

ghost use Rattle.std.specs.Prelude.{◌≡◌, [], Option, Some, option_map};
ghost use Rattle.broker_types.specs.Broker.{Broker};
ghost use Rattle.broker_types.specs.Fault.{IsNotBadStart};
ghost use Rattle.broker_types.specs.Map.{get};
ghost use Rattle.broker_types.specs.Names.{names_of};
ghost use Rattle.broker_types.specs.Sound.{IsEnd};
ghost use Rattle.broker_types.specs.Text.{Text};
ghost use Rattle.records.specs.Ranges.{IsTokenInRange};
ghost use Rattle.records.specs.Table.{table};
ghost use Rattle.records.specs.TokenEntry.{token_entry};
ghost use Rattle.records.specs.Transaction.{IsHonest};
ghost use Rattle.records.specs.Calls.{IsRequestCall};
ghost use Rattle.token_tree.specs.TokenRows.{IsTokenAt};
ghost use Rattle.broker_model.specs.parts.Tokens as part;
ghost use Rattle.broker_rows.specs.Operating.{ActsAs, Begins, Performs};

use crate::LONGEST_TTL;
use crate::shown::auth_reply;
use broker_rows::{Answered, Context};
use broker_types::{Denial, Moment, Reason, Refusal, RequestError, Seconds, TextBuf};
use records::{Due, RecordsTx, TokenRecord};
use token_tree::{find, renew as renew_token};

/// Gives a token its new end. One that is not there is 403 `bad token`, and one without an end is 400 `lease is not
/// renewable`.
pub(crate) fn renew<T: RecordsTx>(
    tx: &mut T,
    context: &Context<'_>,
    token: &str,
    increment: Seconds,
) -> Result<Answered, RequestError>
    ensures told { (who : Option Text) → Performs who context.now [] (T.seen tx.old) (T.seen tx.new)
        (λ b. part.renew_token b (names_of context.now.words) token.now increment) result }
    ensures call { IsRequestCall (T.seen tx.old) (T.seen tx.new) result IsNotBadStart }
{
    let Some(found) = find(context.alloc, tx, token)? else {
        return Err(RequestError::Refused(Refusal::Forbidden(Denial::BadToken)));
    };
    renew_found(tx, context, token, found, increment)
}

/// Gives a token that was found, and whose row still says so, its new end.
fn renew_found<T: RecordsTx>(
    tx: &mut T,
    context: &Context<'_>,
    token: &str,
    found: TokenRecord,
    increment: Seconds,
) -> Result<Answered, RequestError>
    requires in_range { IsTokenInRange found }
    requires there { IsHonest (T.seen tx.old) → IsTokenAt (table (T.seen tx.old)) token.now (Some found) }
    ensures told { IsHonest (T.seen tx.new) → (who : Option Text) (b : Broker)
        → Begins who context.now (T.seen tx.old).rows b → Some found ≡ option_map token_entry (get b.tokens token.now)
        → ActsAs who b (T.seen tx.new).rows result
        (part.renew_token b (names_of context.now.words) token.now increment) }
    ensures call { IsRequestCall (T.seen tx.old) (T.seen tx.new) result IsNotBadStart }
{
    let alloc = context.alloc;
    if found.ends.is_none() {
        return Err(RequestError::Refused(Refusal::BadRequest(Reason::TokenNotRenewable)));
    }
    let ends = new_end(context.clock, &found, increment);
    let renewed = renew_token(alloc, tx, token, found, ends)?;
    let text = TextBuf::copied(alloc, token)?;
    Ok(Answered::Given(auth_reply(context, text, renewed)?))
}

/// The new end of a token that has one.
fn new_end(now: Moment, token: &TokenRecord, increment: Seconds) -> Due
    requires { IsTokenInRange token.now }
    ensures is { result ≡ part.new_end now token.now increment }
    ensures near { IsEnd result }
{
    if token.period == 0 {
        prolonged_end(now, token, increment)
    } else {
        periodic_end(now, token)
    }
}

/// The new end of a periodic token: the increment counts for nothing.
fn periodic_end(now: Moment, token: &TokenRecord) -> Due
    requires { IsTokenInRange token.now }
    ensures is { result ≡ part.periodic_end now token.now }
    ensures near { IsEnd result }
{
    let next = now.seconds() + token.period;
    match token.explicit_max_ttl {
        0 => Due::at(next),
        seconds => Due::at(next.min(token.issued + seconds)),
    }
}

/// The new end of a token that is not periodic.
fn prolonged_end(now: Moment, token: &TokenRecord, increment: Seconds) -> Due
    requires { IsTokenInRange token.now }
    ensures is { result ≡ part.prolonged_end now token.now increment }
    ensures near { IsEnd result }
{
    let asked = match increment.count() {
        0 => token.ttl,
        seconds => u64::from(seconds),
    };
    let longest = match token.explicit_max_ttl {
        0 => LONGEST_TTL,
        seconds => seconds.min(LONGEST_TTL),
    };
    Due::at((now.seconds() + asked).min(token.issued + longest))
}
