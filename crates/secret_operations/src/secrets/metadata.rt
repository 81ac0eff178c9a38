//! Secrets without their texts, shown and listed, and their settings.

ghost use Rattle.std.specs.Prelude.{◌≡◌, [], Option, option_map, Ok, true};
ghost use Rattle.broker_types.specs.Fault.{IsNotBadStart};
ghost use Rattle.broker_types.specs.Name.{is_mount_name};
ghost use Rattle.broker_types.specs.Names.{names_of};
ghost use Rattle.broker_types.specs.Path.{is_path};
ghost use Rattle.broker_types.specs.Text.{Text};
ghost use Rattle.records.specs.Calls.{IsRequestCall, IsRequestReading};
ghost use Rattle.api_json.specs.KeptBodies.{IsKeptSettings};
ghost use Rattle.broker_model.specs.parts.Place.{at};
ghost use Rattle.broker_model.specs.parts.Secrets as part;
ghost use Rattle.broker_rows.specs.Operating.{Performs};

use crate::secrets::shown::secret_told;
use api_json::{KeySettings, Pairs, key_object, keys_object};
use broker_rows::{Answered, Context};
use broker_types::{Refusal, RequestError, TextBuf};
use kv2::{SecretSettings, set_metadata};
use records::RecordsTx;

/// Shows a secret without its texts.
pub(super) fn show<T: RecordsTx>(
    tx: &mut T,
    context: &Context<'_>,
    mount: &str,
    path: &str,
) -> Result<Answered, RequestError>
    ensures told { (who : Option Text) → Performs who context.now [] (T.seen tx.old) (T.seen tx.new)
        (λ b. part.metadata b (names_of context.now.words) (at mount.now path.now)) result }
    ensures call { IsRequestReading (T.seen tx.old) (T.seen tx.new) result IsNotBadStart }
{
    let alloc = context.alloc;
    let Some(found) = kv2::metadata(alloc, tx, mount, path)? else {
        return Err(RequestError::Refused(Refusal::NotFound));
    };
    let told = secret_told(alloc, found)?;
    let object = key_object(alloc, &told)?;
    Ok(Answered::shown(context, object)?)
}

/// Sets those settings of a secret that are given. One that is not there is made, without a version.
pub(super) fn set<T: RecordsTx>(
    tx: &mut T,
    context: &Context<'_>,
    mount: &str,
    path: &str,
    asked: KeySettings,
) -> Result<Answered, RequestError>
    requires { IsKeptSettings asked }
    ensures told { is_mount_name mount.now ≡ true → is_path path.now ≡ true
        → (who : Option Text) → Performs who context.now [] (T.seen tx.old) (T.seen tx.new)
        (λ b. Ok (part.set_metadata b (at mount.now path.now) asked)) result }
    ensures call { IsRequestCall (T.seen tx.old) (T.seen tx.new) result IsNotBadStart }
{
    let alloc = context.alloc;
    set_metadata(alloc, tx, context.clock, mount, path, settings_given(asked))?;
    Ok(Answered::Nothing)
}

/// The settings that a body gives.
fn settings_given(asked: KeySettings) -> SecretSettings
    ensures { result ≡ part.given_settings asked }
{
    SecretSettings {
        cas_required: asked.cas_required,
        max_versions: asked.max_versions,
        custom_metadata: metadata_given(asked.custom_metadata),
    }
}

/// The custom metadata that a body gives.
fn metadata_given(asked: Option<Pairs>) -> Option<Vec<(TextBuf, TextBuf)>>
    ensures { option_map (λ es. es.items) result ≡ asked }
{
    match asked {
        None => None,
        Some(pairs) => Some(pairs.into_vec()),
    }
}

/// Lists the secrets and folders of a folder.
pub(super) fn list<T: RecordsTx>(
    tx: &mut T,
    context: &Context<'_>,
    mount: &str,
    path: &str,
) -> Result<Answered, RequestError>
    ensures told { (who : Option Text) → Performs who context.now [] (T.seen tx.old) (T.seen tx.new)
        (λ b. part.list b (names_of context.now.words) (at mount.now path.now)) result }
    ensures call { IsRequestReading (T.seen tx.old) (T.seen tx.new) result IsNotBadStart }
{
    let names = kv2::list(context.alloc, tx, mount, path)?;
    if names.is_empty() {
        return Err(RequestError::Refused(Refusal::NotFound));
    }
    let object = keys_object(context.alloc, &names)?;
    Ok(Answered::shown(context, object)?)
}
