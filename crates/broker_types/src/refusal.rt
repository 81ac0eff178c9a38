//! Refusals of requests, each with its status and with the text that tells the client why.

ghost use Rattle.std.specs.Prelude.{◌≡◌, option_map};
ghost use Rattle.broker_types.specs.Status.{no_methods};
ghost use Rattle.broker_types.specs.Refusal.{field_name, reason_opening, reason_field, denial_text};
ghost use Rattle.broker_types.specs.Refusal.{refusal_status, refusal_methods, cutting_text};

use crate::status::{Methods, Status};

/// A named member of a request's body, or the version of its query.
#[derive(Clone, Copy, Debug, PartialEq, Eq)]
pub enum Field {
    Accessor,
    Cas,
    CasRequired,
    Credential,
    CustomMetadata,
    DeleteVersionAfter,
    ExplicitMaxTtl,
    Id,
    Increment,
    LeaseId,
    MaxTtl,
    MaxVersions,
    Meta,
    NoDefaultPolicy,
    NoParent,
    NumUses,
    Options,
    Period,
    Policies,
    Policy,
    Renewable,
    Token,
    Ttl,
    TypeName,
    Version,
    Versions,
}

impl Field {
    /// The member's name.
    pub fn name(self) -> &'static str
        ensures { result.now ≡ field_name self }
    {
        match self {
            Field::Accessor => "accessor",
            Field::Cas => "cas",
            Field::CasRequired => "cas_required",
            Field::Credential => "credential",
            Field::CustomMetadata => "custom_metadata",
            Field::DeleteVersionAfter => "delete_version_after",
            Field::ExplicitMaxTtl => "explicit_max_ttl",
            Field::Id => "id",
            Field::Increment => "increment",
            Field::LeaseId => "lease_id",
            Field::MaxTtl => "max_ttl",
            Field::MaxVersions => "max_versions",
            Field::Meta => "meta",
            Field::NoDefaultPolicy => "no_default_policy",
            Field::NoParent => "no_parent",
            Field::NumUses => "num_uses",
            Field::Options => "options",
            Field::Period => "period",
            Field::Policies => "policies",
            Field::Policy => "policy",
            Field::Renewable => "renewable",
            Field::Token => "token",
            Field::Ttl => "ttl",
            Field::TypeName => "type",
            Field::Version => "version",
            Field::Versions => "versions",
        }
    }
}

/// Why a request is refused with 400. Each reason has a text of its own (Vault's documentation, "HTTP
/// API", if Vault has such a text; else this profile's).
#[derive(Clone, Copy, Debug, PartialEq, Eq)]
pub enum Reason {
    /// A head outside the grammar of HTTP/1.1, with more fields than are read, with a wrong number of Host
    /// or Content-Length fields, or with a length that is no number; or a field with the client token that
    /// is there twice or is not UTF-8.
    MalformedRequest,
    /// A target without a valid path between `/v1/` and its query.
    InvalidPath,
    /// A text that is not a duration of at most 4,294,967,295 seconds.
    InvalidDuration,
    /// A body that is not a JSON object, or has a float or too many levels.
    InvalidJson,
    /// A member of the body, or the version of the query, of the wrong kind or with a value that is not
    /// accepted.
    InvalidField(Field),
    /// A member that the body must have.
    MissingField(Field),
    /// A write of a secret without `data`.
    NoData,
    /// A write to a cubbyhole without members.
    MissingData,
    /// A name of a mount, a policy or a role that is too long or has other characters.
    InvalidName,
    /// A caller of limited uses creates a token.
    RestrictedToken,
    /// A caller that is not root gives `root`.
    RootByRootAlone,
    /// A caller gives a policy that it does not have.
    PoliciesBeyondParent,
    /// A caller without `sudo` creates a token without a parent.
    OrphanNeedsSudo,
    /// A root token that ends creates one that does not.
    ExpiringRoot,
    /// A caller without `sudo` creates a periodic token.
    PeriodNeedsSudo,
    /// A token or a lease that cannot be renewed is renewed.
    TokenNotRenewable,
    /// An accessor that no token has.
    InvalidAccessor,
    /// A text that is not a policy.
    UnsupportedPolicy,
    /// The policy `root` is written, or `root` or `default` is deleted.
    PolicyFixed,
    /// A write of a secret without `cas`, which is required.
    CheckAndSetRequired,
    /// A write of a secret whose `cas` is not the current version.
    CheckAndSetFailed,
    /// A mount at a path that has one.
    PathInUse,
    /// A mount of an engine that this profile does not have.
    UnsupportedMount,
    /// `sys`, `auth` or `cubbyhole` is disabled.
    MountFixed,
    /// A caller with one use left asks for a lease, which would end with it.
    LastUseTakesLease,
    /// A lease id that no lease has.
    InvalidLease,
    /// `sys/wrapping/wrap` without a TTL.
    WrappingRequired,
    /// A wrapping token under which no response is kept.
    InvalidWrappingToken,
}

impl Reason {
    /// The text, but for the name of a member at its end.
    pub fn opening(self) -> &'static str
        ensures { result.now ≡ reason_opening self }
    {
        match self {
            Reason::MalformedRequest => "malformed request",
            Reason::InvalidPath => "invalid path",
            Reason::InvalidDuration => "invalid duration",
            Reason::InvalidJson => "failed to parse JSON input",
            Reason::InvalidField(_) => "invalid field: ",
            Reason::MissingField(_) => "missing field: ",
            Reason::NoData => "no data provided",
            Reason::MissingData => "missing data fields",
            Reason::InvalidName => "invalid name",
            Reason::RestrictedToken => "restricted use token cannot generate child tokens",
            Reason::RootByRootAlone => "only a root token can create root tokens",
            Reason::PoliciesBeyondParent => "child policies must be subset of parent",
            Reason::OrphanNeedsSudo => "root or sudo privileges required to create orphan token",
            Reason::ExpiringRoot => "expiring root tokens cannot create non-expiring root tokens",
            Reason::PeriodNeedsSudo => "root or sudo privileges required to create periodic token",
            Reason::TokenNotRenewable => "lease is not renewable",
            Reason::InvalidAccessor => "invalid accessor",
            Reason::UnsupportedPolicy => "unsupported policy",
            Reason::PolicyFixed => "policy cannot be changed",
            Reason::CheckAndSetRequired => "check-and-set parameter required for this call",
            Reason::CheckAndSetFailed => {
                "check-and-set parameter did not match the current version"
            }
            Reason::PathInUse => "path is already in use",
            Reason::UnsupportedMount => "unsupported mount",
            Reason::MountFixed => "cannot be disabled",
            Reason::LastUseTakesLease => "a last use cannot take a lease",
            Reason::InvalidLease => "invalid lease",
            Reason::WrappingRequired => "response wrapping is required",
            Reason::InvalidWrappingToken => "wrapping token is not valid or does not exist",
        }
    }

    /// The member that the text names at its end.
    pub fn field(self) -> Option<Field>
        ensures { result ≡ reason_field self }
    {
        match self {
            Reason::InvalidField(field) | Reason::MissingField(field) => Some(field),
            _ => None,
        }
    }
}

/// Why a request is refused with 403 (Vault's documentation, "HTTP API").
#[derive(Clone, Copy, Debug, PartialEq, Eq)]
pub enum Denial {
    /// There is no such client token, or its policies do not allow what is asked.
    PermissionDenied,
    /// There is no token to look up or to renew.
    BadToken,
}

impl Denial {
    /// The text.
    pub fn text(self) -> &'static str
        ensures { result.now ≡ denial_text self }
    {
        match self {
            Denial::PermissionDenied => "permission denied",
            Denial::BadToken => "bad token",
        }
    }
}

/// Why a request is refused.
#[derive(Clone, Copy, Debug, PartialEq, Eq)]
pub enum Refusal {
    /// 400.
    BadRequest(Reason),
    /// 403.
    Forbidden(Denial),
    /// 404.
    NotFound,
    /// 405, with the methods that the path has.
    MethodNotAllowed(Methods),
    /// 500: an identifier that the request needs was given out before, or two of them are equal.
    IdentifierUsed,
}

impl Refusal {
    /// The status.
    pub fn status(self) -> Status
        ensures { result ≡ refusal_status self }
    {
        match self {
            Refusal::BadRequest(_) => Status::BadRequest,
            Refusal::Forbidden(_) => Status::Forbidden,
            Refusal::NotFound => Status::NotFound,
            Refusal::MethodNotAllowed(_) => Status::MethodNotAllowed,
            Refusal::IdentifierUsed => Status::InternalServerError,
        }
    }

    /// The methods that the path has; none but on 405.
    pub fn methods(self) -> Methods
        ensures { result ≡ refusal_methods self }
    {
        match self {
            Refusal::MethodNotAllowed(methods) => methods,
            _ => Methods::none(),
        }
    }
}

/// The text with which bytes that are not a request are refused, by the status; a 501 has none. The
/// texts are this profile's own.
pub fn cutting_text(status: Status) -> Option<&'static str>
    ensures { option_map (λ s. s.now) result ≡ cutting_text status }
{
    match status {
        Status::BadRequest => Some("malformed request"),
        Status::PayloadTooLarge => Some("request body too large"),
        Status::HeaderFieldsTooLarge => Some("request head too large"),
        _ => None,
    }
}
