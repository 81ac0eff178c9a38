//! The objects that replies about responses that wait have (Vault's documentation, "Response wrapping").
ghost use Rattle.std.specs.Prelude.{◌≡◌, ◌++◌, ◌∷◌, [], IfOk, fold};
ghost use Rattle.api_json.specs.Objects.{waiting_object, wrap_object, wrapped_accessor};
ghost use Rattle.api_json.specs.Printing.{with_member};

use crate::name::Name;
use crate::printing::ObjectText;
use broker_types::{Moment, TextBuf};
use std::alloc::{AllocError, Global};

/// Prints a response that waits: the path of the request that was answered, when the wrapping token was made, and for
/// how many seconds the response waits. The only error is running out of memory.
#[tactic(auto, unfolding(crate::specs::Objects::waiting_object))]
pub fn waiting_object(
    alloc: Global,
    path: &str,
    created: Moment,
    ttl: u64,
) -> Result<TextBuf, AllocError>
    ensures { IfOk result (λ t. t ≡ waiting_object path.now created ttl) }
{
    ObjectText::new(alloc)?
        .text(Name::CreationPath, path)?
        .time(Name::CreationTime, created)?
        .number(Name::CreationTtl, ttl)?
        .finish()
}

/// A wrapping token under which a reply waits.
#[derive(Drop)]
pub struct WrapObject {
    /// The identifier by which the wrapping token can be revoked.
    pub accessor: TextBuf,
    /// The path of the request that was answered.
    pub creation_path: TextBuf,
    /// When the wrapping token was made.
    pub created: Moment,
    /// The wrapping token.
    pub token: TextBuf,
    /// For how many seconds the reply waits.
    pub ttl: u64,
    /// The accessor of the token that the reply made, if it made one.
    pub wrapped_accessor: Option<TextBuf>,
}

/// Prints a wrapping token. The only error is running out of memory.
#[tactic(auto, unfolding(crate::specs::Objects::wrap_object))]
pub fn wrap_object(alloc: Global, wrap: &WrapObject) -> Result<TextBuf, AllocError>
    ensures { IfOk result (λ t. t ≡ wrap_object wrap.now) }
{
    let begun = ObjectText::new(alloc)?
        .text(Name::Accessor, wrap.accessor.as_str())?
        .text(Name::CreationPath, wrap.creation_path.as_str())?
        .time(Name::CreationTime, wrap.created)?
        .text(Name::Token, wrap.token.as_str())?
        .number(Name::Ttl, wrap.ttl)?;
    finished(begun, &wrap.wrapped_accessor)
}

/// The object with the accessor of the token that the reply made, if it made one.
fn finished(begun: ObjectText, accessor: &Option<TextBuf>) -> Result<TextBuf, AllocError>
    ensures { IfOk result (λ t. t ≡ fold with_member begun (wrapped_accessor accessor.now) ++ 125 ∷ []) }
{
    match accessor {
        None => begun.finish(),
        Some(accessor) => begun
            .text(Name::WrappedAccessor, accessor.as_str())?
            .finish(),
    }
}
