//! The bodies of the routes of mounts (Vault's documentation, "/sys/mounts").
ghost use Rattle.api_json.specs.Parsed.{members_of};
ghost use Rattle.api_json.specs.Reads.{IsRead};
ghost use Rattle.api_json.specs.Readers as reader;

use crate::members::{object, optional, required, within};
use crate::parsed::Body;
use broker_types::{Field, RequestError, TextBuf};
use std::alloc::Global;

/// What a body asks of a new mount.
#[derive(Drop)]
pub struct MountCreation {
    /// Its type.
    pub type_name: TextBuf,
    /// The version of the type, if the body says.
    pub version: Option<u64>,
}

/// Reads what a body asks of a new mount: the member `type`, and `version` of the member `options`. If `type` is
/// absent: 400 `missing field: type`; of another kind: 400 `invalid field: type`; then 400 `invalid field: options` or
/// `invalid field: version`. The only fault is running out of memory.
#[tactic(auto, unfolding(crate::specs::Readers::mount_creation))]
pub fn mount_creation(alloc: Global, body: &Body) -> Result<MountCreation, RequestError>
    ensures { IsRead (reader.mount_creation (members_of body.now)) result }
{
    let members = &body.members;
    let type_name: TextBuf = required(alloc, members, Field::TypeName)?;
    let options = object(members, Field::Options)?;
    let version: Option<u64> = within(alloc, options, Field::Version)?;
    Ok(MountCreation { type_name, version })
}
