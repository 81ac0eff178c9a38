//! The object of replies that list names: keys, policies, accessors.

ghost use Rattle.std.specs.Prelude.{◌≡◌, IfOk};
ghost use Rattle.api_json.specs.Objects.{keys_object};

use crate::name::Name;
use crate::printing::ObjectText;
use broker_types::TextBuf;
use std::alloc::{AllocError, Global};

/// Prints a list of keys, in the order in which they are given. The only error is running out of memory.
#[tactic(auto, unfolding(crate::specs::Objects::keys_object))]
pub fn keys_object(alloc: Global, keys: &[TextBuf]) -> Result<TextBuf, AllocError>
    ensures { IfOk result (λ t. t ≡ keys_object keys.now) }
{
    ObjectText::new(alloc)?.texts(Name::Keys, keys)?.finish()
}
