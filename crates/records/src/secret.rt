//! Rows of versioned secrets and of their versions.

ghost use Rattle.std.specs.Prelude.{◌≡◌, ◌<◌, ◌^◌, [], length, option_map, unwrap_or, IfOk};
ghost use Rattle.records.specs.KeyEntry.{secret_in};
ghost use Rattle.records.specs.RowForms.{key_entry_row, old_key_row, version_row};
ghost use Rattle.records.specs.RowReaders.{Reads, ReadsWithMemory};
ghost use Rattle.records.specs.Ranges.{IsKeyInRange, IsOldKey, IsVersionInRange};

use crate::field::UpTo;
use crate::key_record::KeyRecord;
use crate::row::Row;
use crate::row_fields::{read_lone, read_lone_in, write_row, write_row_in};
use crate::text_field::ShortText;
use crate::token_lists::{Borrowed, Meta};
use crate::version_record::VersionRecord;
use broker_types::{Fault, TextBuf};
use std::alloc::{AllocError, Global};

type At = UpTo<250_000_000_000>;

/// Current version, created, updated.
type OldKeyForm = ((UpTo<999_999_999_999_999_999>, At), At);

/// The same, whether a write must name the current version, how many versions are kept, custom metadata, as
/// they are read.
type KeyForm = (((OldKeyForm, bool), u64), Meta);

/// The same, as they are written.
type BorrowedForm<'t> = (((OldKeyForm, bool), u64), Borrowed<'t, (TextBuf, TextBuf)>);

/// Created, deleted, whether it is destroyed, secret.
type VersionForm<'r> = (((At, Option<At>), bool), ShortText<'r>);

/// The key in a row, without its versions. It fails as `Damaged` if the row is not one of a key in the
/// format that is written, and also if memory runs out.
pub fn read_key(alloc: Global, kept: &Row) -> Result<KeyRecord, Fault>
    ensures { ReadsWithMemory IsKeyInRange key_entry_row kept.now result }
{
    let (((((current, created), updated), cas_required), max_versions), meta) = read_lone_in::<
        Global,
        KeyForm,
    >(alloc, kept, 2)?;
    Ok(KeyRecord {
        current,
        created,
        updated,
        cas_required,
        max_versions,
        custom_metadata: meta.members,
    })
}

/// The row of a key, which has no settings of its own. The only error is running out of memory.
pub fn write_key(alloc: Global, key: &KeyRecord) -> Result<Row, AllocError>
    requires { IsKeyInRange key.now }
    ensures { IfOk result (λ kept. kept ≡ key_entry_row key.now) }
{
    let meta = Borrowed {
        items: key.custom_metadata.as_slice(),
    };
    let numbers = ((key.current, key.created), key.updated);
    let fields = (((numbers, key.cas_required), key.max_versions), meta);
    write_row_in::<BorrowedForm<'_>>(alloc, 2, "", None, &fields)
}

/// The key in a row of format 1, which has no settings. It fails as `Damaged` if the row is not one of a
/// key in this format. No memory is taken.
pub fn read_old_key(alloc: Global, kept: &Row) -> Result<KeyRecord, Fault>
    ensures { Reads IsOldKey old_key_row kept.now result }
{
    let ((current, created), updated) = read_lone::<(), OldKeyForm>((), kept)?;
    Ok(KeyRecord {
        current,
        created,
        updated,
        cas_required: false,
        max_versions: 0,
        custom_metadata: Vec::new(alloc),
    })
}

/// The secret of a version, which has none if it is destroyed.
fn secret_of<'r>(is_destroyed: bool, object: &'r str) -> Option<&'r str>
    ensures { option_map (λ s. s.now) result ≡ secret_in is_destroyed object.now }
{
    if is_destroyed { None } else { Some(object) }
}

/// The version in a row. It fails as `Damaged` if the row is not one of a version.
pub fn read_version(kept: &Row) -> Result<VersionRecord<'_>, Fault>
    ensures { Reads IsVersionInRange version_row kept.now result }
{
    let (((created, deleted), is_destroyed), object) = read_lone::<(), VersionForm<'_>>((), kept)?;
    if is_destroyed && !object.text.is_empty() {
        return Err(Fault::Damaged);
    }
    let secret = secret_of(is_destroyed, object.text);
    Ok(VersionRecord {
        created,
        deleted,
        secret,
    })
}

/// The row of a version. The only error is running out of memory.
pub fn write_version(alloc: Global, version: &VersionRecord<'_>) -> Result<Row, AllocError>
    requires { length (unwrap_or version.now.secret []) < 2 ^ 32 }
    ensures { IfOk result (λ kept. kept ≡ version_row version.now) }
{
    let object = ShortText {
        text: version.secret.unwrap_or(""),
    };
    let is_destroyed = version.secret.is_none();
    let fields = (((version.created, version.deleted), is_destroyed), object);
    write_row::<VersionForm<'_>>(alloc, "", None, &fields)
}
