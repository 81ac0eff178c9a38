//! What replies show of a token.

ghost use Rattle.std.specs.Prelude.{◌≡◌, ℕ, IfOk, None};
ghost use Rattle.broker_types.specs.Names.{names_of};
ghost use Rattle.broker_types.specs.Sound.{IsEnd};
ghost use Rattle.broker_types.specs.Text.{Text};
ghost use Rattle.records.specs.Ranges.{IsTokenInRange};
ghost use Rattle.records.specs.RowReaders.{IsSomeIn};
ghost use Rattle.records.specs.TokenEntry.{TokenEntry};
ghost use Rattle.broker_model.specs.parts.TokenReplies as part;

use api_json::{AuthObject, EndTime, Pairs, Texts, TokenObject, auth_object};
use broker_rows::{Context, moment};
use broker_types::{Moment, Reply, TextBuf, id_text};
use records::{Due, TokenRecord};
use std::alloc::{AllocError, Global};

/// A token that is looked up at a moment, under an id.
pub(crate) fn looked_up(
    alloc: Global,
    token: TokenRecord,
    now: Moment,
    id: &str,
) -> Result<TokenObject, AllocError>
    requires { IsTokenInRange token }
    ensures { IfOk result (λ shown. shown ≡ part.looked_up now id.now token) }
{
    let ends = end_time(token.ends);
    Ok(TokenObject {
        accessor: token.accessor,
        issued: moment(token.issued),
        creation_ttl: token.ttl,
        ends,
        explicit_max_ttl: token.explicit_max_ttl,
        id: TextBuf::copied(alloc, id)?,
        meta: Pairs::new(token.meta),
        num_uses: token.uses_left.unwrap_or(0),
        orphan: token.parent.is_none(),
        period: token.period,
        policies: Texts::new(token.policies),
        ttl: seconds_left(now, token.ends),
    })
}

/// The reply that shows a token that was made or renewed, under its text.
pub(crate) fn auth_reply(
    context: &Context<'_>,
    text: TextBuf,
    token: TokenRecord,
) -> Result<Reply, AllocError>
    ensures { IfOk result (λ r. r
        ≡ part.auth_reply (names_of context.now.words).request context.now.clock text token) }
{
    reply_of(context, &auth_of(context.clock, text, token))
}

/// A token that was made or renewed, under its text.
fn auth_of(now: Moment, text: TextBuf, found: TokenRecord) -> AuthObject
    ensures { result ≡ part.auth_of now text found }
{
    AuthObject {
        accessor: found.accessor,
        client_token: text,
        lease_duration: seconds_left(now, found.ends),
        metadata: Pairs::new(found.meta),
        num_uses: found.uses_left.unwrap_or(0),
        orphan: found.parent.is_none(),
        policies: Texts::new(found.policies),
        renewable: found.ends.is_some(),
    }
}

/// The reply that shows what is printed so.
fn reply_of(context: &Context<'_>, shown: &AuthObject) -> Result<Reply, AllocError>
    ensures { (now : ℕ) (t : Text) (x : TokenEntry) → shown.now ≡ part.auth_of now t x
        → IfOk result (λ r. r ≡ part.auth_reply (names_of context.now.words).request now t x) }
{
    let auth = auth_object(context.alloc, shown)?;
    let request = id_text(context.alloc, context.words.request())?;
    Ok(Reply {
        auth: Some(auth),
        payload: None,
        lease_duration: 0,
        lease_id: TextBuf::new(String::new(context.alloc)),
        renewable: false,
        request_id: TextBuf::new(request),
        wrap_info: None,
    })
}

/// The seconds from a moment to an end; 0 without one, and for an end that has come.
pub(crate) fn seconds_left(now: Moment, ends: Option<Due>) -> u64
    ensures { result ≡ part.seconds_left now ends }
{
    match ends {
        None => 0,
        Some(end) => end.seconds().saturating_sub(now.seconds()),
    }
}

/// The end of a token that a row can hold.
fn end_time(ends: Option<Due>) -> Option<EndTime>
    requires { IsSomeIn IsEnd ends }
    ensures { result ≡ ends }
{
    match ends {
        None => None,
        Some(end) => EndTime::new(end.seconds()),
    }
}
