//! The bodies of the routes of a mount that issues credentials (this project's engine).
ghost use Rattle.api_json.specs.Parsed.{members_of};
ghost use Rattle.api_json.specs.Reads.{IsRead};
ghost use Rattle.api_json.specs.Readers as reader;

use crate::members::{optional, required};
use crate::parsed::Body;
use broker_types::{Field, RequestError, Seconds, TextBuf};
use std::alloc::Global;

/// What a body says of a role.
#[derive(Clone, Copy, Debug, PartialEq, Eq)]
pub struct RoleSettings {
    /// For how long its leases are made; 0 if the body does not say.
    pub ttl: Seconds,
    /// How long its leases last at most, however often they are renewed; 0 if the body does not say.
    pub max_ttl: Seconds,
}

/// Reads what a body says of a role: the members `ttl` and `max_ttl`. The first bad one is refused with 400
/// `invalid field: NAME`. The only fault is running out of memory.
#[tactic(auto, unfolding(crate::specs::Readers::role_settings))]
pub fn role_settings(alloc: Global, body: &Body) -> Result<RoleSettings, RequestError>
    ensures { IsRead (reader.role_settings (members_of body.now)) result }
{
    let ttl: Option<Seconds> = optional(alloc, &body.members, Field::Ttl)?;
    let max_ttl: Option<Seconds> = optional(alloc, &body.members, Field::MaxTtl)?;
    Ok(RoleSettings {
        ttl: ttl.unwrap_or(Seconds::new(0)),
        max_ttl: max_ttl.unwrap_or(Seconds::new(0)),
    })
}

/// Reads the credential that a body names, the member `credential`. If it is absent: 400 `missing field: credential`;
/// of another kind: 400 `invalid field: credential`. The only fault is running out of memory.
#[tactic(auto, unfolding(crate::specs::Readers::credential))]
pub fn credential(alloc: Global, body: &Body) -> Result<TextBuf, RequestError>
    ensures { IsRead (reader.credential (members_of body.now)) result }
{
    required(alloc, &body.members, Field::Credential)
}
