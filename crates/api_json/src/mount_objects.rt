//! The object of replies that list mounts (Vault's documentation, "/sys/mounts").
ghost use Rattle.std.specs.Prelude.{◌≡◌, IfOk};
ghost use Rattle.api_json.specs.Objects.{options_object, mount_entry, mounts_object};

use crate::name::Name;
use crate::printing::ObjectText;
use broker_types::TextBuf;
use std::alloc::{AllocError, Global};

/// A mount.
#[derive(Drop)]
pub struct MountObject {
    /// Its name, with a slash behind it.
    pub name: TextBuf,
    /// Its type.
    pub type_name: TextBuf,
    /// The version of its type, the only option, if it has one.
    pub version: Option<TextBuf>,
}

/// Prints mounts by their names, in the order in which they are given. The only error is running out of memory.
#[tactic(auto, unfolding(crate::specs::Objects::mounts_object))]
pub fn mounts_object(alloc: Global, mounts: &[MountObject]) -> Result<TextBuf, AllocError>
    ensures { IfOk result (λ t. t ≡ mounts_object mounts.now) }
{
    let mut object = ObjectText::new(alloc)?;
    for mount in mounts {
        let value = mount_entry(alloc, mount)?;
        object = object.entry(mount.name.as_str(), value.as_str())?;
    }
    object.finish()
}

/// Prints one mount.
fn mount_entry(alloc: Global, mount: &MountObject) -> Result<TextBuf, AllocError>
    ensures { IfOk result (λ t. t ≡ (mount_entry mount.now).1) }
{
    let options = options_object(alloc, &mount.version)?;
    ObjectText::new(alloc)?
        .member(Name::Options, options.as_str())?
        .text(Name::TypeName, mount.type_name.as_str())?
        .finish()
}

/// Prints the options of a mount, `null` if it has none.
#[tactic(auto, unfolding(crate::specs::Objects::options_object, crate::specs::Printing::null_text))]
fn options_object(alloc: Global, version: &Option<TextBuf>) -> Result<TextBuf, AllocError>
    ensures { IfOk result (λ t. t ≡ options_object version.now) }
{
    match version {
        None => TextBuf::copied(alloc, "null"),
        Some(version) => ObjectText::new(alloc)?
            .text(Name::Version, version.as_str())?
            .finish(),
    }
}
