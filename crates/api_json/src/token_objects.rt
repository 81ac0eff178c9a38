//! The objects that replies about tokens have (Vault's documentation, "Token auth method (API)").
ghost use Rattle.std.specs.Prelude.{◌≡◌, ◌++◌, ◌∷◌, [], IfOk, fold, option_map};
ghost use Rattle.api_json.specs.Objects.{auth_object, token_object, with_period, behind_period};
ghost use Rattle.api_json.specs.Printing.{with_member};

use crate::end_time::EndTime;
use crate::lists::{Pairs, Texts};
use crate::name::Name;
use crate::printing::ObjectText;
use broker_types::{Moment, TextBuf};
use std::alloc::{AllocError, Global};

/// A token that was made or renewed.
#[derive(Drop)]
pub struct AuthObject {
    /// The identifier by which the token can be looked up and revoked.
    pub accessor: TextBuf,
    /// The token.
    pub client_token: TextBuf,
    /// Seconds to its end; 0 without one.
    pub lease_duration: u64,
    /// Names and texts, by name; an empty list prints as null.
    pub metadata: Pairs,
    /// The uses left; 0 without a limit, and for the last use.
    pub num_uses: u64,
    /// Whether it has no parent.
    pub orphan: bool,
    /// In the order in which they print.
    pub policies: Texts,
    /// Whether it can be renewed: it has an end.
    pub renewable: bool,
}

/// Prints a token that was made or renewed. The only error is running out of memory.
#[tactic(auto, unfolding(crate::specs::Objects::auth_object))]
pub fn auth_object(alloc: Global, auth: &AuthObject) -> Result<TextBuf, AllocError>
    ensures { IfOk result (λ t. t ≡ auth_object auth.now) }
{
    ObjectText::new(alloc)?
        .text(Name::Accessor, auth.accessor.as_str())?
        .text(Name::ClientToken, auth.client_token.as_str())?
        .text(Name::EntityId, "")?
        .number(Name::LeaseDuration, auth.lease_duration)?
        .pairs(Name::Metadata, auth.metadata.as_slice())?
        .number(Name::NumUses, auth.num_uses)?
        .flag(Name::Orphan, auth.orphan)?
        .texts(Name::Policies, auth.policies.as_slice())?
        .flag(Name::Renewable, auth.renewable)?
        .texts(Name::TokenPolicies, auth.policies.as_slice())?
        .text(Name::TokenType, "service")?
        .finish()
}

/// A token that is looked up.
#[derive(Drop)]
pub struct TokenObject {
    /// The identifier by which the token can be looked up and revoked.
    pub accessor: TextBuf,
    /// When it was made.
    pub issued: Moment,
    /// For how many seconds it was made; 0 without an end.
    pub creation_ttl: u64,
    /// When it ends, if it does; only then can it be renewed.
    pub ends: Option<EndTime>,
    /// How many seconds it lasts at most, however often it is renewed; 0 without such a limit.
    pub explicit_max_ttl: u64,
    /// The token; empty if it was looked up by its accessor.
    pub id: TextBuf,
    /// Names and texts, by name; an empty list prints as null.
    pub meta: Pairs,
    /// The uses left; 0 without a limit, and for the last use.
    pub num_uses: u64,
    /// Whether it has no parent.
    pub orphan: bool,
    /// For how many seconds each renewal makes it last; 0 if it is not periodic, and then it does not print.
    pub period: u64,
    /// In the order in which they print.
    pub policies: Texts,
    /// Seconds to its end; 0 without one.
    pub ttl: u64,
}

/// Prints a token that is looked up. The only error is running out of memory.
#[tactic(auto, unfolding(crate::specs::Objects::token_object))]
pub fn token_object(alloc: Global, token: &TokenObject) -> Result<TextBuf, AllocError>
    ensures { IfOk result (λ t. t ≡ token_object token.now) }
{
    let begun = ObjectText::new(alloc)?
        .text(Name::Accessor, token.accessor.as_str())?
        .number(Name::CreationTime, token.issued.seconds())?
        .number(Name::CreationTtl, token.creation_ttl)?
        .end_or_null(Name::ExpireTime, token.ends)?
        .number(Name::ExplicitMaxTtl, token.explicit_max_ttl)?
        .text(Name::Id, token.id.as_str())?
        .time(Name::IssueTime, token.issued)?
        .pairs(Name::Meta, token.meta.as_slice())?
        .number(Name::NumUses, token.num_uses)?
        .flag(Name::Orphan, token.orphan)?;
    periodic(begun, token)
}

/// The object with the period, if the token is periodic, and what comes behind it.
fn periodic(begun: ObjectText, token: &TokenObject) -> Result<TextBuf, AllocError>
    ensures { IfOk result (λ t. t
        ≡ fold with_member begun (with_period token.now.period (behind_period token.now)) ++ 125 ∷ []) }
{
    if token.period == 0 {
        finished(begun, token)
    } else {
        finished(begun.number(Name::Period, token.period)?, token)
    }
}

/// The object with what comes behind the period.
fn finished(begun: ObjectText, token: &TokenObject) -> Result<TextBuf, AllocError>
    ensures { IfOk result (λ t. t ≡ fold with_member begun (behind_period token.now) ++ 125 ∷ []) }
{
    begun
        .texts(Name::Policies, token.policies.as_slice())?
        .flag(Name::Renewable, token.ends.is_some())?
        .number(Name::Ttl, token.ttl)?
        .text(Name::TypeName, "service")?
        .finish()
}
