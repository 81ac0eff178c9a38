//! The bodies of the routes of responses that wait (Vault's documentation, "/sys/wrapping").
ghost use Rattle.api_json.specs.Parsed.{members_of};
ghost use Rattle.api_json.specs.Reads.{IsRead};
ghost use Rattle.api_json.specs.Readers as reader;

use crate::members::optional;
use crate::parsed::Body;
use broker_types::{Field, RequestError, TextBuf};
use std::alloc::Global;

/// Reads the wrapping token that a body names, the member `token`, if it names one. Of another kind: 400
/// `invalid field: token`. The only fault is running out of memory.
#[tactic(auto, unfolding(crate::specs::Readers::wrapping_token))]
pub fn wrapping_token(alloc: Global, body: &Body) -> Result<Option<TextBuf>, RequestError>
    ensures { IsRead (reader.wrapping_token (members_of body.now)) result }
{
    optional(alloc, &body.members, Field::Token)
}
