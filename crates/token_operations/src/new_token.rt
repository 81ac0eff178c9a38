//! Which token is made, and the reasons to make none.

ghost use Rattle.std.specs.Prelude.{◌≡◌, ◌==◌, ◌≤◌, ◌<◌, ◌+◌, ◌^◌, ◌||◌, None, Some, is_none, not, IfOk, if◌then◌else◌};
ghost use Rattle.std.specs.List.{list_all};
ghost use Rattle.broker_types.specs.Moment.{greatest_moment};
ghost use Rattle.broker_types.specs.Limits.{longest_ttl};
ghost use Rattle.broker_types.specs.Name as names;
ghost use Rattle.broker_types.specs.Refuse as refuse;
ghost use Rattle.records.specs.Children.{has};
ghost use Rattle.broker_model.specs.parts.TokenCreation as part;
ghost use Rattle.std.specs.List.{AllByRecursion};
ghost use Rattle.broker_types.specs.Duration.{longest_duration};
ghost use Rattle.token_operations.specs.TokenRanges.{IsTextPair};
ghost use Rattle.token_operations.specs.TokenEntries.{token_told, new_entry};

use crate::LONGEST_TTL;
use api_json::TokenCreation;
use broker_model::Making;
use broker_types::{Moment, Reason, Refusal, Seconds, TextBuf, is_among, is_name};
use records::{Due, TokenRecord};
use std::alloc::{AllocError, Global};

/// Whether the caller may make the token: the first reason that it may not is 400.
pub(crate) fn check(
    privileged: bool,
    making: Making,
    caller: &TokenRecord,
    policies: &[TextBuf],
    asked: &TokenCreation,
) -> Result<(), Refusal>
    ensures { result ≡ part.may_make privileged making (token_told caller.now) policies.now asked.now }
{
    unless(is_unlimited(caller), Reason::RestrictedToken)?;
    unless(are_names(asked), Reason::InvalidName)?;
    unless(is_root_its_own(caller, asked), Reason::RootByRootAlone)?;
    unless(
        are_its_own(privileged, caller, asked),
        Reason::PoliciesBeyondParent,
    )?;
    unless(
        is_parted(privileged, making, asked),
        Reason::OrphanNeedsSudo,
    )?;
    unless(is_end_kept(caller, policies, asked), Reason::ExpiringRoot)?;
    unless(may_be_periodic(privileged, asked), Reason::PeriodNeedsSudo)
}

/// Whether the uses of the caller have no limit.
fn is_unlimited(caller: &TokenRecord) -> bool
    ensures { result ≡ is_none caller.now.uses_left }
{
    match caller.uses_left {
        None => true,
        Some(_) => false,
    }
}

/// Whether `root` is one of the caller's own, or is not asked for.
fn is_root_its_own(caller: &TokenRecord, asked: &TokenCreation) -> bool
    ensures { result ≡ (part.have_root caller.now.policies || not (part.have_root asked.now.policies)) }
{
    is_among(&caller.policies, "root") || !is_among(asked.policies.as_slice(), "root")
}

/// Whether the caller may give the policies that are asked for.
fn are_its_own(privileged: bool, caller: &TokenRecord, asked: &TokenCreation) -> bool
    ensures { result ≡ (privileged || list_all (has caller.now.policies) asked.now.policies) }
{
    privileged || are_among(&caller.policies, asked.policies.as_slice())
}

/// Whether the caller may make a token without parent, if it is asked for.
fn is_parted(privileged: bool, making: Making, asked: &TokenCreation) -> bool
    ensures { result ≡ (privileged || (part.makes_orphans making || not asked.now.no_parent)) }
{
    privileged || making.makes_orphans() || !asked.no_parent
}

/// Whether the caller has no end, or the token has one.
fn is_end_kept(caller: &TokenRecord, policies: &[TextBuf], asked: &TokenCreation) -> bool
    ensures { result ≡ (is_none caller.now.ends || not (part.has_no_end policies.now asked.now)) }
{
    match caller.ends {
        None => true,
        Some(_) => !has_no_end(policies, asked),
    }
}

/// Whether the caller may make a periodic token, if it is asked for.
fn may_be_periodic(privileged: bool, asked: &TokenCreation) -> bool
    ensures { result ≡ (privileged || asked.now.period == 0) }
{
    privileged || asked.period.count() == 0
}

/// Refuses with 400, unless it is so.
fn unless(so: bool, reason: Reason) -> Result<(), Refusal>
    ensures { result ≡ refuse.unless so (Refusal.BadRequest reason) }
{
    if so {
        Ok(())
    } else {
        Err(Refusal::BadRequest(reason))
    }
}

/// Whether each policy that is asked for is a name.
fn are_names(asked: &TokenCreation) -> bool
    ensures { result ≡ list_all names.is_name asked.now.policies }
{
    all_are_names(asked.policies.as_slice())
}

/// Whether each text is a name.
fn all_are_names(texts: &[TextBuf]) -> bool
    ensures { result ≡ list_all names.is_name texts.now }
{
    for text in texts {
        if !is_name(text.as_str()) {
            return false;
        }
    }
    true
}

/// Whether each text is one of the list.
fn are_among(list: &[TextBuf], texts: &[TextBuf]) -> bool
    ensures { result ≡ list_all (has list.now) texts.now }
{
    for text in texts {
        if !is_among(list, text.as_str()) {
            return false;
        }
    }
    true
}

/// Whether a new token with these policies has no end.
fn has_no_end(policies: &[TextBuf], asked: &TokenCreation) -> bool
    ensures { result ≡ part.has_no_end policies.now asked.now }
{
    is_among(policies, "root")
        && asked.ttl.count() == 0
        && asked.explicit_max_ttl.count() == 0
        && asked.period.count() == 0
}

/// The row of the new token. What it brings can be kept: the clauses but the first tell it.
pub(crate) fn new_record(
    alloc: Global,
    now: Moment,
    parent: Option<TextBuf>,
    accessor: TextBuf,
    policies: Vec<TextBuf>,
    asked: &TokenCreation,
) -> Result<TokenRecord, AllocError>
    ensures entry { IfOk result (λ made. made ≡ new_entry now parent accessor policies.items asked.now) }
    ensures within { IfOk result (λ made. now ≤ greatest_moment) }
    ensures long { IfOk result (λ made. asked.now.explicit_max_ttl ≤ longest_duration) }
    ensures wide { IfOk result (λ made. asked.now.num_uses < 2 ^ 64) }
    ensures texts { IfOk result (λ made. AllByRecursion IsTextPair asked.now.meta) }
{
    let meta = copied_pairs(alloc, asked.meta.as_slice())?;
    let endless = has_no_end(&policies, asked);
    let ttl = asked_ttl(asked);
    Ok(TokenRecord {
        parent,
        accessor,
        policies,
        issued: now.seconds(),
        ends: new_end(endless, now, ttl),
        ttl: new_ttl(endless, ttl),
        explicit_max_ttl: seconds_of(asked.explicit_max_ttl),
        period: asked_period(asked),
        uses_left: use_limit(asked.num_uses),
        meta,
    })
}

/// Copies of names and texts.
pub(crate) fn copied_pairs(
    alloc: Global,
    pairs: &[(TextBuf, TextBuf)],
) -> Result<Vec<(TextBuf, TextBuf)>, AllocError>
    ensures value { IfOk result (λ copies. copies.items ≡ pairs.now) }
    ensures texts { IfOk result (λ copies. AllByRecursion IsTextPair pairs.now) }
{
    let mut copies = Vec::new(alloc);
    for pair in pairs {
        copies.push(copied_pair(alloc, pair)?)?;
    }
    Ok(copies)
}

/// A copy of a name and a text.
fn copied_pair(alloc: Global, pair: &(TextBuf, TextBuf)) -> Result<(TextBuf, TextBuf), AllocError>
    ensures value { IfOk result (λ copy. copy ≡ pair.now) }
    ensures texts { IfOk result (λ copy. IsTextPair pair.now) }
{
    let name = TextBuf::copied(alloc, pair.0.as_str())?;
    let text = TextBuf::copied(alloc, pair.1.as_str())?;
    Ok((name, text))
}

/// A length of time that is asked for, in seconds.
fn seconds_of(asked: Seconds) -> u64
    ensures value { result ≡ asked }
    ensures within { asked ≤ longest_duration }
{
    u64::from(asked.count())
}

/// The parent of a new token of the caller.
pub(crate) fn new_parent(
    alloc: Global,
    caller: &str,
    making: Making,
    asked: &TokenCreation,
) -> Result<Option<TextBuf>, AllocError>
    ensures { IfOk result (λ parent. parent ≡ part.new_parent caller.now making asked.now) }
{
    if making.makes_orphans() || asked.no_parent {
        return Ok(None);
    }
    Ok(Some(TextBuf::copied(alloc, caller)?))
}

/// The end of a token that is made now for a time.
fn new_end(endless: bool, now: Moment, ttl: u64) -> Option<Due>
    requires { ttl ≤ longest_ttl }
    ensures { result ≡ (if endless then None else Some (now + ttl)) }
{
    if endless {
        return None;
    }
    Some(Due::at(now.seconds() + ttl))
}

/// The time for which a token is made; 0 without an end.
fn new_ttl(endless: bool, ttl: u64) -> u64
    ensures { result ≡ (if endless then 0 else ttl) }
{
    if endless { 0 } else { ttl }
}

/// A number of uses; 0 is no limit.
fn use_limit(uses: u64) -> Option<u64>
    ensures value { result ≡ part.use_limit uses }
    ensures wide { uses < 2 ^ 64 }
{
    if uses == 0 { None } else { Some(uses) }
}

/// The seconds for which the token is made, if it has an end.
fn asked_ttl(asked: &TokenCreation) -> u64
    ensures is { result ≡ part.asked_ttl asked.now }
    ensures short { result ≤ longest_ttl }
{
    asked_time(asked).min(LONGEST_TTL.min(or_longest(asked.explicit_max_ttl)))
}

/// The time that is asked for: the period of a periodic token.
fn asked_time(asked: &TokenCreation) -> u64
    ensures { result ≡ part.asked_time asked.now }
{
    if asked.period.count() == 0 {
        or_longest(asked.ttl)
    } else {
        or_longest(asked.period)
    }
}

/// The period of the token, of 32 days at most; 0 if it is not periodic.
fn asked_period(asked: &TokenCreation) -> u64
    ensures { result ≡ part.asked_period asked.now }
{
    u64::from(asked.period.count()).min(LONGEST_TTL)
}

/// A length of time; 0 is the longest.
fn or_longest(length: Seconds) -> u64
    ensures { result ≡ part.or_longest length }
{
    match length.count() {
        0 => LONGEST_TTL,
        seconds => u64::from(seconds),
    }
}
