//! The bodies of the routes of tokens (Vault's documentation, "Token auth method (API)").
ghost use Rattle.std.specs.Prelude.{◌≡◌, ◌≤◌, ℕ, List, Ok, IfOk, length};
ghost use Rattle.broker_types.specs.Limits.{longest_body};
ghost use Rattle.api_json.specs.Json.{body_members};
ghost use Rattle.api_json.specs.KeptBodies.{IsKeptCreation};
ghost use Rattle.api_json.specs.Parsed.{members_of};
ghost use Rattle.api_json.specs.Reads.{IsRead};
ghost use Rattle.api_json.specs.Readers as reader;
ghost use Rattle.api_json.specs.Readers.{is_empty, is_service};

use crate::lists::{Pairs, Texts};
use crate::members::{optional, required, unless};
use crate::parsed::Body;
use broker_types::{Field, RequestError, Seconds, TextBuf};
use std::alloc::Global;

/// What a body asks of a new token.
#[derive(Drop)]
pub struct TokenCreation {
    /// The names of its policies, as the body has them; empty for those of the caller.
    pub policies: Texts,
    /// Names and texts, by name.
    pub meta: Pairs,
    /// How long it lasts; 0 if the body does not say.
    pub ttl: Seconds,
    /// How long it lasts at most, however often it is renewed; 0 if the body does not say.
    pub explicit_max_ttl: Seconds,
    /// How often it can be used; 0 without a limit.
    pub num_uses: u64,
    /// Whether it has no parent.
    pub no_parent: bool,
    /// Whether it lacks the policy `default`.
    pub no_default_policy: bool,
    /// For how long each renewal makes it last; 0 if it is not periodic.
    pub period: Seconds,
}

/// Reads what a body asks of a new token. The first bad member is refused with 400 `invalid field: NAME`, in the order
/// `policies`, `meta`, `ttl`, `explicit_max_ttl`, `num_uses`, `no_parent`, `no_default_policy`, `period`, `renewable`,
/// `id`, `type`; so are a token that cannot be renewed, an id, and a type other than `service`. The only fault is
/// running out of memory.
#[tactic(auto, unfolding(crate::specs::Readers::token_creation))]
pub fn token_creation(alloc: Global, body: &Body) -> Result<TokenCreation, RequestError>
    ensures reads { IsRead (reader.token_creation (members_of body.now)) result }
    ensures storable { (bytes : List ℕ) → length bytes ≤ longest_body → body_members bytes ≡ Ok (members_of body.now)
        → IfOk result IsKeptCreation }
{
    let members = &body.members;
    let policies: Option<Texts> = optional(alloc, members, Field::Policies)?;
    let meta: Option<Pairs> = optional(alloc, members, Field::Meta)?;
    let ttl: Option<Seconds> = optional(alloc, members, Field::Ttl)?;
    let explicit_max_ttl: Option<Seconds> = optional(alloc, members, Field::ExplicitMaxTtl)?;
    let num_uses: Option<u64> = optional(alloc, members, Field::NumUses)?;
    let no_parent: Option<bool> = optional(alloc, members, Field::NoParent)?;
    let no_default_policy: Option<bool> = optional(alloc, members, Field::NoDefaultPolicy)?;
    let period: Option<Seconds> = optional(alloc, members, Field::Period)?;
    let renewable: Option<bool> = optional(alloc, members, Field::Renewable)?;
    unless(renewable.unwrap_or(true), Field::Renewable)?;
    let id: Option<TextBuf> = optional(alloc, members, Field::Id)?;
    unless(is_empty(&id), Field::Id)?;
    let type_name: Option<TextBuf> = optional(alloc, members, Field::TypeName)?;
    unless(is_service(&type_name), Field::TypeName)?;
    Ok(TokenCreation {
        policies: policies.unwrap_or(Texts::new(Vec::new(alloc))),
        meta: meta.unwrap_or(Pairs::new(Vec::new(alloc))),
        ttl: ttl.unwrap_or(Seconds::new(0)),
        explicit_max_ttl: explicit_max_ttl.unwrap_or(Seconds::new(0)),
        num_uses: num_uses.unwrap_or(0),
        no_parent: no_parent.unwrap_or(false),
        no_default_policy: no_default_policy.unwrap_or(false),
        period: period.unwrap_or(Seconds::new(0)),
    })
}

fn is_empty(text: &Option<TextBuf>) -> bool
    ensures { result ≡ is_empty text.now }
{
    match text {
        None => true,
        Some(text) => text.as_str().is_empty(),
    }
}

fn is_service(type_name: &Option<TextBuf>) -> bool
    ensures { result ≡ is_service type_name.now }
{
    match type_name {
        None => true,
        Some(name) => name.as_str().is_empty() || name.as_str() == "service",
    }
}

/// Reads the token that a body names, the member `token`. If it is absent: 400 `missing field: token`; of another kind:
/// 400 `invalid field: token`. The only fault is running out of memory.
#[tactic(auto, unfolding(crate::specs::Readers::token))]
pub fn token(alloc: Global, body: &Body) -> Result<TextBuf, RequestError>
    ensures { IsRead (reader.token (members_of body.now)) result }
{
    required(alloc, &body.members, Field::Token)
}

/// Reads the accessor that a body names, the member `accessor`. If it is absent: 400 `missing field: accessor`; of
/// another kind: 400 `invalid field: accessor`. The only fault is running out of memory.
#[tactic(auto, unfolding(crate::specs::Readers::accessor))]
pub fn accessor(alloc: Global, body: &Body) -> Result<TextBuf, RequestError>
    ensures { IsRead (reader.accessor (members_of body.now)) result }
{
    required(alloc, &body.members, Field::Accessor)
}

/// Reads for how long the caller's token is renewed, the member `increment`; 0, or absent, is for the time that it was
/// made for. Of another kind: 400 `invalid field: increment`. The only fault is running out of memory.
#[tactic(auto, unfolding(crate::specs::Readers::increment))]
pub fn increment(alloc: Global, body: &Body) -> Result<Seconds, RequestError>
    ensures { IsRead (reader.increment (members_of body.now)) result }
{
    let increment: Option<Seconds> = optional(alloc, &body.members, Field::Increment)?;
    Ok(increment.unwrap_or(Seconds::new(0)))
}

/// Which token is renewed, and for how long.
#[derive(Drop)]
pub struct TokenRenewal {
    /// The token.
    pub token: TextBuf,
    /// For how long; 0 for the time that it was made for.
    pub increment: Seconds,
}

/// Reads which token is renewed, and for how long: the members `token` and `increment`, refused in this order as
/// `token` and `increment` refuse them. The only fault is running out of memory.
#[tactic(auto, unfolding(crate::specs::Readers::token_renewal))]
pub fn token_renewal(alloc: Global, body: &Body) -> Result<TokenRenewal, RequestError>
    ensures { IsRead (reader.token_renewal (members_of body.now)) result }
{
    let token = token(alloc, body)?;
    let increment = increment(alloc, body)?;
    Ok(TokenRenewal { token, increment })
}
