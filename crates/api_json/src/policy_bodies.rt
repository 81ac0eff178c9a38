//! The bodies of the routes of policies (Vault's documentation, "/sys/policies").
ghost use Rattle.std.specs.Prelude.{◌≡◌, ◌<◌, ◌≤◌, ◌^◌, ℕ, List, Ok, IfOk, length};
ghost use Rattle.broker_types.specs.Limits.{longest_body};
ghost use Rattle.api_json.specs.Json.{body_members};
ghost use Rattle.api_json.specs.Parsed.{members_of};
ghost use Rattle.api_json.specs.Reads.{IsRead};
ghost use Rattle.api_json.specs.Readers as reader;

use crate::members::required;
use crate::parsed::Body;
use broker_types::{Field, RequestError, TextBuf};
use std::alloc::Global;

/// Reads the text of a policy that is written, the member `policy`. If it is absent: 400 `missing field: policy`; of
/// another kind: 400 `invalid field: policy`. The only fault is running out of memory.
#[tactic(auto, unfolding(crate::specs::Readers::policy_text))]
pub fn policy_text(alloc: Global, body: &Body) -> Result<TextBuf, RequestError>
    ensures reads { IsRead (reader.policy_text (members_of body.now)) result }
    ensures storable { (bytes : List ℕ) → length bytes ≤ longest_body → body_members bytes ≡ Ok (members_of body.now)
        → IfOk result (λ t. length t < 2 ^ 32) }
{
    required(alloc, &body.members, Field::Policy)
}
