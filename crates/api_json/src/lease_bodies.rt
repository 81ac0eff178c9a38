//! The bodies of the routes of leases (Vault's documentation, "/sys/leases").
ghost use Rattle.api_json.specs.Parsed.{members_of};
ghost use Rattle.api_json.specs.Reads.{IsRead};
ghost use Rattle.api_json.specs.Readers as reader;

use crate::members::required;
use crate::parsed::Body;
use crate::token_bodies::increment;
use broker_types::{Field, RequestError, Seconds, TextBuf};
use std::alloc::Global;

/// Reads the id of the lease that a body names, the member `lease_id`. If it is absent: 400 `missing field: lease_id`;
/// of another kind: 400 `invalid field: lease_id`. The only fault is running out of memory.
#[tactic(auto, unfolding(crate::specs::Readers::lease_id))]
pub fn lease_id(alloc: Global, body: &Body) -> Result<TextBuf, RequestError>
    ensures { IsRead (reader.lease_id (members_of body.now)) result }
{
    required(alloc, &body.members, Field::LeaseId)
}

/// Which lease is renewed, and for how long.
#[derive(Drop)]
pub struct LeaseRenewal {
    /// The id of the lease.
    pub lease_id: TextBuf,
    /// For how long; 0 for the time that it was made for.
    pub increment: Seconds,
}

/// Reads which lease is renewed, and for how long: the members `lease_id` and `increment`, refused in this order as
/// `lease_id` and `increment` refuse them. The only fault is running out of memory.
#[tactic(auto, unfolding(crate::specs::Readers::lease_renewal))]
pub fn lease_renewal(alloc: Global, body: &Body) -> Result<LeaseRenewal, RequestError>
    ensures { IsRead (reader.lease_renewal (members_of body.now)) result }
{
    let lease_id = lease_id(alloc, body)?;
    let increment = increment(alloc, body)?;
    Ok(LeaseRenewal {
        lease_id,
        increment,
    })
}
