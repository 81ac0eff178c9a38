//! Versions of secrets, read and written.

ghost use Rattle.std.specs.Prelude.{◌≡◌, [], Option, true};
ghost use Rattle.broker_types.specs.Fault.{IsNotBadStart};
ghost use Rattle.broker_types.specs.Names.{names_of};
ghost use Rattle.broker_types.specs.Path.{is_path};
ghost use Rattle.broker_types.specs.Text.{Text};
ghost use Rattle.records.specs.Calls.{IsRequestCall, IsRequestReading};
ghost use Rattle.api_json.specs.KeptBodies.{IsKept};
ghost use Rattle.broker_model.specs.parts.Place.{at};
ghost use Rattle.broker_model.specs.parts.Secrets as part;
ghost use Rattle.broker_rows.specs.Operating.{Performs};

use crate::secrets::shown::version_answered;
use api_json::{SecretWrite, VersionObject, version_object};
use broker_rows::{Answered, Context};
use broker_types::{Refusal, RequestError};
use kv2::NewVersion;
use records::RecordsTx;

/// Reads a version of a secret; 0 is the current one.
pub(super) fn read<T: RecordsTx>(
    tx: &mut T,
    context: &Context<'_>,
    mount: &str,
    path: &str,
    number: u64,
) -> Result<Answered, RequestError>
    ensures told { (who : Option Text) → Performs who context.now [] (T.seen tx.old) (T.seen tx.new)
        (λ b. part.read b (names_of context.now.words) (at mount.now path.now) number) result }
    ensures call { IsRequestReading (T.seen tx.old) (T.seen tx.new) result IsNotBadStart }
{
    let Some(found) = kv2::read(context.alloc, tx, mount, path, number)? else {
        return Err(RequestError::Refused(Refusal::NotFound));
    };
    Ok(version_answered(context, found)?)
}

/// Writes the next version of a secret.
pub(super) fn write<T: RecordsTx>(
    tx: &mut T,
    context: &Context<'_>,
    mount: &str,
    path: &str,
    asked: SecretWrite,
) -> Result<Answered, RequestError>
    requires { IsKept asked.object }
    ensures told { is_path path.now ≡ true
        → (who : Option Text) → Performs who context.now [] (T.seen tx.old) (T.seen tx.new)
        (λ b. part.write b (names_of context.now.words) (at mount.now path.now) asked) result }
    ensures call { IsRequestCall (T.seen tx.old) (T.seen tx.new) result IsNotBadStart }
{
    let now = context.clock;
    let text = asked.object.as_str();
    let version = NewVersion {
        cas: asked.cas,
        object: text,
    };
    let written = kv2::write(context.alloc, tx, now, mount, path, version)?;
    let made = VersionObject {
        created: now,
        deleted: None,
        destroyed: false,
        version: written.number,
    };
    let object = version_object(context.alloc, written.custom_metadata.as_slice(), &made)?;
    Ok(Answered::shown(context, object)?)
}
