//! Secrets and their versions, deleted, restored, destroyed and removed.

ghost use Rattle.std.specs.Prelude.{◌≡◌, [], Option, Ok, true};
ghost use Rattle.broker_types.specs.Fault.{IsNotBadStart};
ghost use Rattle.broker_types.specs.Name.{is_mount_name};
ghost use Rattle.broker_types.specs.Operation.{nothing, plainly};
ghost use Rattle.broker_types.specs.Path.{is_path};
ghost use Rattle.broker_types.specs.Text.{Text};
ghost use Rattle.records.specs.Calls.{IsRequestCall};
ghost use Rattle.kv2.specs.Changes.{ChangesVersions};
ghost use Rattle.kv2.specs.Secrets as secrets;
ghost use Rattle.broker_rows.specs.Context as known;
ghost use Rattle.broker_rows.specs.Operating.{Performs};
ghost use Rattle.secret_operations.specs.VersionChanges.{IsTimely, change_of, changed};

use broker_rows::{Answered, Context};
use broker_types::{Fault, Moment, RequestError};
use kv2::{delete_versions, destroy, remove_key, undelete};
use records::RecordsTx;
use std::alloc::Global;

/// Deletes the current version of a secret.
pub(super) fn delete_current<T: RecordsTx>(
    tx: &mut T,
    context: &Context<'_>,
    mount: &str,
    path: &str,
) -> Result<Answered, RequestError>
    ensures told { is_mount_name mount.now ≡ true → is_path path.now ≡ true
        → (who : Option Text) → Performs who context.now [] (T.seen tx.old) (T.seen tx.new)
        (λ b. Ok (plainly nothing (secrets.delete b mount.now path.now))) result }
    ensures call { IsRequestCall (T.seen tx.old) (T.seen tx.new) result IsNotBadStart }
{
    kv2::delete(context.alloc, tx, context.clock, mount, path)?;
    Ok(Answered::Nothing)
}

/// What is done to versions of a secret by their numbers.
#[derive(Clone, Copy, Debug, PartialEq, Eq)]
pub(super) enum Change {
    /// They are deleted at this moment, which is the clock's.
    Delete(Moment),
    /// Their deletion is taken back.
    Undelete,
    /// They are destroyed.
    Destroy,
}

/// Changes versions of a secret.
pub(super) fn change_versions<T: RecordsTx>(
    alloc: Global,
    tx: &mut T,
    mount: &str,
    path: &str,
    numbers: &[u64],
    change: Change,
) -> Result<Answered, RequestError>
    ensures told { is_mount_name mount.now ≡ true → is_path path.now ≡ true
        → (who : Option Text) (x : known.Context) → IsTimely x.clock change
        → Performs who x [] (T.seen tx.old) (T.seen tx.new)
        (λ b. Ok (plainly nothing (changed change b mount.now path.now numbers.now))) result }
    ensures call { IsRequestCall (T.seen tx.old) (T.seen tx.new) result IsNotBadStart }
{
    change_rows(alloc, tx, mount, path, numbers, change)?;
    Ok(Answered::Nothing)
}

/// Changes the rows of versions of a secret.
fn change_rows<T: RecordsTx>(
    alloc: Global,
    tx: &mut T,
    mount: &str,
    path: &str,
    numbers: &[u64],
    change: Change,
) -> Result<(), Fault>
    ensures { ChangesVersions (change_of change) numbers.now mount.now path.now
        (T.seen tx.old) (T.seen tx.new) result }
{
    match change {
        Change::Delete(now) => delete_versions(alloc, tx, now, mount, path, numbers),
        Change::Undelete => undelete(alloc, tx, mount, path, numbers),
        Change::Destroy => destroy(alloc, tx, mount, path, numbers),
    }
}

/// Removes a secret with all its versions.
pub(super) fn remove<T: RecordsTx>(
    alloc: Global,
    tx: &mut T,
    mount: &str,
    path: &str,
) -> Result<Answered, RequestError>
    ensures told { is_mount_name mount.now ≡ true → is_path path.now ≡ true
        → (who : Option Text) (x : known.Context) → Performs who x [] (T.seen tx.old) (T.seen tx.new)
        (λ b. Ok (plainly nothing (secrets.remove_key b mount.now path.now))) result }
    ensures call { IsRequestCall (T.seen tx.old) (T.seen tx.new) result IsNotBadStart }
{
    remove_key(alloc, tx, mount, path)?;
    Ok(Answered::Nothing)
}
