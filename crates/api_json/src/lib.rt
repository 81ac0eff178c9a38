//! Bodies of requests read into their members, and the objects and bodies of replies printed (RFC 8259).
#![tactic(auto, unfolding(broker_types::specs::Text::same))]

mod by_name;
mod end_time;
mod from_member;
mod issued_bodies;
mod issued_objects;
mod laws;
mod lease_bodies;
mod lease_objects;
mod list_objects;
mod lists;
mod member_lists;
mod members;
mod mount_bodies;
mod mount_objects;
mod name;
mod parsed;
mod policy_bodies;
mod policy_objects;
mod printing;
mod reading;
mod reply;
mod secret_bodies;
mod secret_objects;
mod token_bodies;
mod token_objects;
mod version_list;
mod wrapping_bodies;
mod wrapping_objects;

pub use end_time::EndTime;
pub use issued_bodies::{RoleSettings, credential, role_settings};
pub use issued_objects::{credential_object, role_object, valid_object};
pub use laws::{kept_objects, objects_are_json};
pub use lease_bodies::{LeaseRenewal, lease_id, lease_renewal};
pub use lease_objects::{LeaseObject, lease_object};
pub use list_objects::keys_object;
pub use lists::{Counts, Listed, Pairs, Texts};
pub use mount_bodies::{MountCreation, mount_creation};
pub use mount_objects::{MountObject, mounts_object};
pub use parsed::{Body, Tree};
pub use policy_bodies::policy_text;
pub use policy_objects::policy_object;
pub use reading::read_body;
pub use reply::{lease_reply, plain_reply, reply_text, wrap_reply};
pub use secret_bodies::{
    KeySettings, MountSettings, SecretWrite, key_settings, mount_settings, secret_write,
    version_number, versions,
};
pub use secret_objects::{KeyObject, key_object, secret_object, settings_object, version_object};
pub use token_bodies::{
    TokenCreation, TokenRenewal, accessor, increment, token, token_creation, token_renewal,
};
pub use token_objects::{AuthObject, TokenObject, auth_object, token_object};
pub use version_list::{VersionObject, Versions};
pub use wrapping_bodies::wrapping_token;
pub use wrapping_objects::{WrapObject, waiting_object, wrap_object};
