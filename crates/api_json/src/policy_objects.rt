//! The objects that replies about policies have (Vault's documentation, "/sys/policies").
ghost use Rattle.std.specs.Prelude.{◌≡◌, IfOk};
ghost use Rattle.api_json.specs.Objects.{policy_object};

use crate::name::Name;
use crate::printing::ObjectText;
use broker_types::TextBuf;
use std::alloc::{AllocError, Global};

/// Prints a policy: its name and its text. The only error is running out of memory.
#[tactic(auto, unfolding(crate::specs::Objects::policy_object))]
pub fn policy_object(alloc: Global, name: &str, policy: &str) -> Result<TextBuf, AllocError>
    ensures { IfOk result (λ t. t ≡ policy_object name.now policy.now) }
{
    ObjectText::new(alloc)?
        .text(Name::PolicyName, name)?
        .text(Name::Policy, policy)?
        .finish()
}
