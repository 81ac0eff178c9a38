//! What replies show of secrets.

ghost use Rattle.std.specs.Prelude.{◌≡◌, IfOk, map};
ghost use Rattle.broker_types.specs.Names.{names_of};
ghost use Rattle.kv2.specs.InRange.{IsMetadataInRange, AreToldInRange};
ghost use Rattle.records.specs.Ranges.{IsVersionInRange};
ghost use Rattle.broker_model.specs.parts.SecretReplies as part;
ghost use Rattle.broker_rows.specs.Done.{answered_of};

use api_json::{KeyObject, Pairs, VersionObject, Versions, plain_reply, secret_object};
use broker_rows::{Answered, Context, moment, moment_or_none};
use broker_types::{TextBuf, id_text};
use kv2::{FoundVersion, SecretMetadata, SecretVersion, VersionMetadata};
use std::alloc::{AllocError, Global};

/// What a read answers: 200 with the object of a version and its metadata, or 404 with the metadata of one that is
/// deleted or destroyed.
pub(super) fn version_answered(
    context: &Context<'_>,
    found: FoundVersion,
) -> Result<Answered, AllocError>
    requires { IsVersionInRange found.version }
    ensures { IfOk result (λ a. answered_of a
        ≡ part.version_answered (names_of context.now.words).request found) }
{
    let alloc = context.alloc;
    let metadata = version_shown(found.number, &found.version);
    let object = object_left(found.version);
    let is_left = object.is_some();
    let payload = secret_object(alloc, &object, found.custom_metadata.as_slice(), &metadata)?;
    let request = id_text(alloc, context.words.request())?;
    let reply = plain_reply(alloc, request.as_str(), payload)?;
    if is_left {
        Ok(Answered::Given(reply))
    } else {
        Ok(Answered::Missing(reply))
    }
}

/// The metadata of a version with its number.
fn version_shown(number: u64, version: &SecretVersion) -> VersionObject
    requires { IsVersionInRange version.now }
    ensures { result ≡ part.version_shown number version.now }
{
    VersionObject {
        created: moment(version.created),
        deleted: moment_or_none(version.deleted),
        destroyed: version.secret.is_none(),
        version: number,
    }
}

/// The object of a version, unless it is deleted or destroyed.
fn object_left(version: SecretVersion) -> Option<TextBuf>
    ensures { result ≡ part.object_left version }
{
    match version.deleted {
        Some(_) => None,
        None => version.secret,
    }
}

/// A secret as metadata show it.
pub(super) fn secret_told(alloc: Global, secret: SecretMetadata) -> Result<KeyObject, AllocError>
    requires { IsMetadataInRange secret }
    ensures { IfOk result (λ told. told ≡ part.secret_told secret) }
{
    Ok(KeyObject {
        cas_required: secret.cas_required,
        created: moment(secret.created),
        current_version: secret.current,
        custom_metadata: Pairs::new(secret.custom_metadata),
        max_versions: secret.max_versions,
        oldest_version: secret.oldest,
        updated: moment(secret.updated),
        versions: versions_told(alloc, &secret.versions)?,
    })
}

/// Versions as metadata show them.
fn versions_told(alloc: Global, versions: &[VersionMetadata]) -> Result<Versions, AllocError>
    requires { AreToldInRange versions.now }
    ensures { IfOk result (λ told. told ≡ map part.version_told versions.now) }
{
    let mut told = Vec::new(alloc);
    for version in versions {
        told.push(VersionObject {
            created: moment(version.created),
            deleted: moment_or_none(version.deleted),
            destroyed: version.destroyed,
            version: version.number,
        })?;
    }
    Ok(Versions::new(told))
}
