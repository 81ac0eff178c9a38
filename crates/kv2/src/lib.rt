//! Versioned secrets of mounts, as rows. A call of `versions_have_keys` does nothing when it runs: it brings the law
//! of the keys of versions to the proof of its caller.
#![tactic(auto)]

mod changing;
mod describing;
mod finding;
mod keys;
mod laws;
mod limits;
mod listing;
mod own_settings;
mod pruning;
mod reading;
mod removing;
mod secret_metadata;
mod secret_settings;
mod secret_version;
mod settings;
mod writing;

pub use changing::{delete, delete_versions, destroy, undelete};
pub use describing::metadata;
pub use laws::{
    custom_metadata_are_the_last_given, destroyed_secrets_stay_away, numbers_are_given_once,
    oldest_versions_are_smallest, operations_evolve, operations_keep_soundness, other_keys_stay,
};
pub use listing::list;
pub use own_settings::set_metadata;
pub use reading::{is_there, read};
pub use removing::{drop_mount, remove_key};
pub use secret_metadata::{SecretMetadata, VersionMetadata};
pub use secret_settings::SecretSettings;
pub use secret_version::{FoundVersion, SecretVersion, WrittenVersion};
pub use settings::{config, set_config};
pub use writing::{NewVersion, write};
