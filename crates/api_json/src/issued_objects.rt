//! The objects of replies about roles and issued credentials (this project's engine).
ghost use Rattle.std.specs.Prelude.{◌≡◌, IfOk};
ghost use Rattle.api_json.specs.Objects.{role_object, credential_object, valid_object};

use crate::name::Name;
use crate::printing::ObjectText;
use broker_types::TextBuf;
use std::alloc::{AllocError, Global};

/// Prints a role: how long its leases last at most, and for how long they are made, as they were given, or 0. The only
/// error is running out of memory.
#[tactic(auto, unfolding(crate::specs::Objects::role_object))]
pub fn role_object(alloc: Global, max_ttl: u64, ttl: u64) -> Result<TextBuf, AllocError>
    ensures { IfOk result (λ t. t ≡ role_object max_ttl ttl) }
{
    ObjectText::new(alloc)?
        .number(Name::MaxTtl, max_ttl)?
        .number(Name::Ttl, ttl)?
        .finish()
}

/// Prints a credential. The only error is running out of memory.
#[tactic(auto, unfolding(crate::specs::Objects::credential_object))]
pub fn credential_object(alloc: Global, credential: &str) -> Result<TextBuf, AllocError>
    ensures { IfOk result (λ t. t ≡ credential_object credential.now) }
{
    ObjectText::new(alloc)?
        .text(Name::Credential, credential)?
        .finish()
}

/// Prints whether the lease of a credential still stands. The only error is running out of memory.
#[tactic(auto, unfolding(crate::specs::Objects::valid_object))]
pub fn valid_object(alloc: Global, valid: bool) -> Result<TextBuf, AllocError>
    ensures { IfOk result (λ t. t ≡ valid_object valid) }
{
    ObjectText::new(alloc)?.flag(Name::Valid, valid)?.finish()
}
