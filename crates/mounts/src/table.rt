//! The table of routes: for each type of mounts the verb, the pattern of the path within the mount, and the
//! operation. Rows of one pattern stand together. A route that is not served has no row.

ghost use Rattle.std.specs.Prelude.{◌≡◌};
ghost use Rattle.mounts.specs.RouteRow.{rows_in};
ghost use Rattle.mounts.specs.RouteTable as table;

use crate::mount_type::MountType;
use crate::operation::Operation::{
    Cubbyholes, Issued, Leases, Mounts, Policies, Secrets, Tokens, Wrappings,
};
use crate::operation::{
    CubbyholeOperation, IssuedOperation, LeaseOperation, MountOperation, Operation,
    PolicyOperation, SecretOperation, TokenOperation, WrappingOperation,
};
use broker_types::Verb::{self, Delete, Get, List, Write};

/// A row of the table: the verb, the pattern and the operation.
#[derive(Clone, Copy)]
pub(crate) struct RouteRow(
    pub(crate) Verb,
    pub(crate) &'static str,
    pub(crate) Operation,
);

const TOKEN: &[RouteRow] = &[
    RouteRow(Write, "token/create", Tokens(TokenOperation::Create)),
    RouteRow(
        Write,
        "token/create-orphan",
        Tokens(TokenOperation::CreateOrphan),
    ),
    RouteRow(Write, "token/lookup", Tokens(TokenOperation::LookUp)),
    RouteRow(Get, "token/lookup-self", Tokens(TokenOperation::LookUpSelf)),
    RouteRow(
        Write,
        "token/lookup-accessor",
        Tokens(TokenOperation::LookUpAccessor),
    ),
    RouteRow(Write, "token/renew", Tokens(TokenOperation::Renew)),
    RouteRow(Write, "token/renew-self", Tokens(TokenOperation::RenewSelf)),
    RouteRow(Write, "token/revoke", Tokens(TokenOperation::Revoke)),
    RouteRow(
        Write,
        "token/revoke-orphan",
        Tokens(TokenOperation::RevokeOrphan),
    ),
    RouteRow(
        Write,
        "token/revoke-self",
        Tokens(TokenOperation::RevokeSelf),
    ),
    RouteRow(
        Write,
        "token/revoke-accessor",
        Tokens(TokenOperation::RevokeAccessor),
    ),
    RouteRow(
        List,
        "token/accessors",
        Tokens(TokenOperation::ListAccessors),
    ),
];

const SYSTEM: &[RouteRow] = &[
    RouteRow(Write, "leases/lookup", Leases(LeaseOperation::LookUp)),
    RouteRow(Write, "leases/renew", Leases(LeaseOperation::Renew)),
    RouteRow(Write, "leases/revoke", Leases(LeaseOperation::Revoke)),
    RouteRow(
        Write,
        "leases/revoke-prefix/{*path}",
        Leases(LeaseOperation::RevokeUnder),
    ),
    RouteRow(Get, "mounts", Mounts(MountOperation::List)),
    RouteRow(Write, "mounts/{name}", Mounts(MountOperation::Enable)),
    RouteRow(Delete, "mounts/{name}", Mounts(MountOperation::Disable)),
    RouteRow(List, "policies/acl", Policies(PolicyOperation::List)),
    RouteRow(Get, "policies/acl/{name}", Policies(PolicyOperation::Show)),
    RouteRow(Write, "policies/acl/{name}", Policies(PolicyOperation::Set)),
    RouteRow(
        Delete,
        "policies/acl/{name}",
        Policies(PolicyOperation::Remove),
    ),
    RouteRow(
        Write,
        "wrapping/lookup",
        Wrappings(WrappingOperation::LookUp),
    ),
    RouteRow(
        Write,
        "wrapping/rewrap",
        Wrappings(WrappingOperation::Rewrap),
    ),
    RouteRow(
        Write,
        "wrapping/unwrap",
        Wrappings(WrappingOperation::Unwrap),
    ),
    RouteRow(Write, "wrapping/wrap", Wrappings(WrappingOperation::Wrap)),
];

const CUBBYHOLE: &[RouteRow] = &[
    RouteRow(List, "", Cubbyholes(CubbyholeOperation::List)),
    RouteRow(Get, "{*path}", Cubbyholes(CubbyholeOperation::Read)),
    RouteRow(List, "{*path}", Cubbyholes(CubbyholeOperation::List)),
    RouteRow(Write, "{*path}", Cubbyholes(CubbyholeOperation::Write)),
    RouteRow(Delete, "{*path}", Cubbyholes(CubbyholeOperation::Delete)),
];

const KV: &[RouteRow] = &[
    RouteRow(Get, "config", Secrets(SecretOperation::ShowSettings)),
    RouteRow(Write, "config", Secrets(SecretOperation::SetSettings)),
    RouteRow(Get, "data/{*path}", Secrets(SecretOperation::Read)),
    RouteRow(Write, "data/{*path}", Secrets(SecretOperation::Write)),
    RouteRow(
        Delete,
        "data/{*path}",
        Secrets(SecretOperation::DeleteCurrent),
    ),
    RouteRow(Write, "delete/{*path}", Secrets(SecretOperation::Delete)),
    RouteRow(
        Write,
        "undelete/{*path}",
        Secrets(SecretOperation::Undelete),
    ),
    RouteRow(Write, "destroy/{*path}", Secrets(SecretOperation::Destroy)),
    RouteRow(List, "metadata", Secrets(SecretOperation::List)),
    RouteRow(
        Get,
        "metadata/{*path}",
        Secrets(SecretOperation::ShowMetadata),
    ),
    RouteRow(List, "metadata/{*path}", Secrets(SecretOperation::List)),
    RouteRow(
        Write,
        "metadata/{*path}",
        Secrets(SecretOperation::SetMetadata),
    ),
    RouteRow(Delete, "metadata/{*path}", Secrets(SecretOperation::Remove)),
];

const ISSUED: &[RouteRow] = &[
    RouteRow(Get, "roles/{name}", Issued(IssuedOperation::ShowRole)),
    RouteRow(Write, "roles/{name}", Issued(IssuedOperation::SetRole)),
    RouteRow(Delete, "roles/{name}", Issued(IssuedOperation::RemoveRole)),
    RouteRow(Get, "creds/{name}", Issued(IssuedOperation::Issue)),
    RouteRow(Write, "verify", Issued(IssuedOperation::Verify)),
];

/// The rows of a type of mounts.
pub(crate) fn route_rows(mount_type: MountType) -> &'static [RouteRow]
    ensures { rows_in result.now ≡ table.route_rows mount_type }
{
    match mount_type {
        MountType::Token => TOKEN,
        MountType::System => SYSTEM,
        MountType::Cubbyhole => CUBBYHOLE,
        MountType::Kv => KV,
        MountType::Issued => ISSUED,
    }
}
