//! Settings of a mount of secrets.

ghost use Rattle.std.specs.Prelude.{[], Option, Ok};
ghost use Rattle.broker_types.specs.Fault.{IsNotBadStart};
ghost use Rattle.broker_types.specs.Names.{names_of};
ghost use Rattle.broker_types.specs.Text.{Text};
ghost use Rattle.records.specs.Calls.{IsRequestCall, IsRequestReading};
ghost use Rattle.broker_model.specs.parts.Place.{at};
ghost use Rattle.broker_model.specs.parts.Secrets as part;
ghost use Rattle.broker_rows.specs.Context as known;
ghost use Rattle.broker_rows.specs.Operating.{Performs};

use api_json::{MountSettings, settings_object};
use broker_rows::{Answered, Context};
use broker_types::{Refusal, RequestError};
use kv2::{config, set_config};
use records::RecordsTx;
use std::alloc::Global;

/// Shows the settings of a mount.
pub(super) fn show<T: RecordsTx>(
    tx: &mut T,
    context: &Context<'_>,
    mount: &str,
) -> Result<Answered, RequestError>
    ensures told { (path : Text) (who : Option Text) → Performs who context.now [] (T.seen tx.old) (T.seen tx.new)
        (λ b. part.settings b (names_of context.now.words) (at mount.now path)) result }
    ensures call { IsRequestReading (T.seen tx.old) (T.seen tx.new) result IsNotBadStart }
{
    let Some(found) = config(tx, mount)? else {
        return Err(RequestError::Refused(Refusal::NotFound));
    };
    let object = settings_object(context.alloc, found.cas_required, found.max_versions)?;
    Ok(Answered::shown(context, object)?)
}

/// Sets those settings of a mount that are given.
pub(super) fn set<T: RecordsTx>(
    alloc: Global,
    tx: &mut T,
    mount: &str,
    asked: MountSettings,
) -> Result<Answered, RequestError>
    ensures told { (path : Text) (who : Option Text) (x : known.Context)
        → Performs who x [] (T.seen tx.old) (T.seen tx.new) (λ b. Ok (part.set b (at mount.now path) asked)) result }
    ensures call { IsRequestCall (T.seen tx.old) (T.seen tx.new) result IsNotBadStart }
{
    set_config(alloc, tx, mount, asked.cas_required, asked.max_versions)?;
    Ok(Answered::Nothing)
}
