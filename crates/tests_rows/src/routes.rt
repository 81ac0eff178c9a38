//! The table of routes, with paths that fit each route and paths that almost do.

use broker_types::Verb::{self, Delete, Get, List, Write};
use broker_types::{Methods, Reason, Refusal, RequestError};
use mounts::{
    CubbyholeOperation, IssuedOperation, LeaseOperation, MountOperation, MountType, NamedMount,
    Operation, PolicyOperation, Routers, SecretOperation, TokenOperation, WrappingOperation,
    disable, enable, list, route,
};
use records::{ListRecords, ListTx};
use std::process::Abort;
use std::test::Fail;

/// A path, and the verbs that are served there with what they mean.
struct Line(&'static str, &'static [(Verb, Operation)]);

const NONE: &[(Verb, Operation)] = &[];

const OF_CUBBYHOLES: &[(Verb, Operation)] = &[(
    List,
    Operation::Cubbyholes(CubbyholeOperation::List),
)];

const IN_CUBBYHOLES: &[(Verb, Operation)] = &[
    (Get, Operation::Cubbyholes(CubbyholeOperation::Read)),
    (List, Operation::Cubbyholes(CubbyholeOperation::List)),
    (Write, Operation::Cubbyholes(CubbyholeOperation::Write)),
    (Delete, Operation::Cubbyholes(CubbyholeOperation::Delete)),
];

const OF_SETTINGS: &[(Verb, Operation)] = &[
    (Get, Operation::Secrets(SecretOperation::ShowSettings)),
    (Write, Operation::Secrets(SecretOperation::SetSettings)),
];

const OF_DATA: &[(Verb, Operation)] = &[
    (Get, Operation::Secrets(SecretOperation::Read)),
    (Write, Operation::Secrets(SecretOperation::Write)),
    (Delete, Operation::Secrets(SecretOperation::DeleteCurrent)),
];

const OF_DELETION: &[(Verb, Operation)] = &[(Write, Operation::Secrets(SecretOperation::Delete))];

const OF_UNDELETION: &[(Verb, Operation)] = &[(
    Write,
    Operation::Secrets(SecretOperation::Undelete),
)];

const OF_DESTRUCTION: &[(Verb, Operation)] = &[(
    Write,
    Operation::Secrets(SecretOperation::Destroy),
)];

const OF_LISTS: &[(Verb, Operation)] = &[(List, Operation::Secrets(SecretOperation::List))];

const OF_METADATA: &[(Verb, Operation)] = &[
    (Get, Operation::Secrets(SecretOperation::ShowMetadata)),
    (List, Operation::Secrets(SecretOperation::List)),
    (Write, Operation::Secrets(SecretOperation::SetMetadata)),
    (Delete, Operation::Secrets(SecretOperation::Remove)),
];

const OF_POLICIES: &[(Verb, Operation)] = &[(List, Operation::Policies(PolicyOperation::List))];

const OF_ONE_POLICY: &[(Verb, Operation)] = &[
    (Get, Operation::Policies(PolicyOperation::Show)),
    (Write, Operation::Policies(PolicyOperation::Set)),
    (Delete, Operation::Policies(PolicyOperation::Remove)),
];

const OF_MOUNTS: &[(Verb, Operation)] = &[(Get, Operation::Mounts(MountOperation::List))];

const OF_ONE_MOUNT: &[(Verb, Operation)] = &[
    (Write, Operation::Mounts(MountOperation::Enable)),
    (Delete, Operation::Mounts(MountOperation::Disable)),
];

const OF_PREFIXES: &[(Verb, Operation)] = &[(
    Write,
    Operation::Leases(LeaseOperation::RevokeUnder),
)];

const OF_ROLES: &[(Verb, Operation)] = &[
    (Get, Operation::Issued(IssuedOperation::ShowRole)),
    (Write, Operation::Issued(IssuedOperation::SetRole)),
    (Delete, Operation::Issued(IssuedOperation::RemoveRole)),
];

/// The routes of the profile, each with a path that fits, one with a segment more and one with a segment less.
/// `secret` is a mount of versioned secrets, `db` one that issues credentials.
const LINES: &[Line] = &[
    Line(
        "auth/token/create",
        &[(Write, Operation::Tokens(TokenOperation::Create))],
    ),
    Line("auth/token/create/a", NONE),
    Line("auth/token", NONE),
    Line("auth", NONE),
    Line(
        "auth/token/create-orphan",
        &[(Write, Operation::Tokens(TokenOperation::CreateOrphan))],
    ),
    Line("auth/token/create-orphan/a", NONE),
    Line(
        "auth/token/lookup-self",
        &[(Get, Operation::Tokens(TokenOperation::LookUpSelf))],
    ),
    Line("auth/token/lookup-self/a", NONE),
    Line(
        "auth/token/lookup",
        &[(Write, Operation::Tokens(TokenOperation::LookUp))],
    ),
    Line("auth/token/lookup/a", NONE),
    Line(
        "auth/token/lookup-accessor",
        &[(Write, Operation::Tokens(TokenOperation::LookUpAccessor))],
    ),
    Line("auth/token/lookup-accessor/a", NONE),
    Line(
        "auth/token/renew",
        &[(Write, Operation::Tokens(TokenOperation::Renew))],
    ),
    Line("auth/token/renew/a", NONE),
    Line(
        "auth/token/renew-self",
        &[(Write, Operation::Tokens(TokenOperation::RenewSelf))],
    ),
    Line("auth/token/renew-self/a", NONE),
    Line(
        "auth/token/revoke",
        &[(Write, Operation::Tokens(TokenOperation::Revoke))],
    ),
    Line("auth/token/revoke/a", NONE),
    Line(
        "auth/token/revoke-orphan",
        &[(Write, Operation::Tokens(TokenOperation::RevokeOrphan))],
    ),
    Line("auth/token/revoke-orphan/a", NONE),
    Line(
        "auth/token/revoke-self",
        &[(Write, Operation::Tokens(TokenOperation::RevokeSelf))],
    ),
    Line("auth/token/revoke-self/a", NONE),
    Line(
        "auth/token/revoke-accessor",
        &[(Write, Operation::Tokens(TokenOperation::RevokeAccessor))],
    ),
    Line("auth/token/revoke-accessor/a", NONE),
    Line(
        "auth/token/accessors",
        &[(List, Operation::Tokens(TokenOperation::ListAccessors))],
    ),
    Line("auth/token/accessors/a", NONE),
    Line(
        "sys/wrapping/wrap",
        &[(Write, Operation::Wrappings(WrappingOperation::Wrap))],
    ),
    Line("sys/wrapping/wrap/a", NONE),
    Line("sys/wrapping", NONE),
    Line(
        "sys/wrapping/lookup",
        &[(Write, Operation::Wrappings(WrappingOperation::LookUp))],
    ),
    Line("sys/wrapping/lookup/a", NONE),
    Line(
        "sys/wrapping/rewrap",
        &[(Write, Operation::Wrappings(WrappingOperation::Rewrap))],
    ),
    Line("sys/wrapping/rewrap/a", NONE),
    Line(
        "sys/wrapping/unwrap",
        &[(Write, Operation::Wrappings(WrappingOperation::Unwrap))],
    ),
    Line("sys/wrapping/unwrap/a", NONE),
    Line(
        "sys/leases/lookup",
        &[(Write, Operation::Leases(LeaseOperation::LookUp))],
    ),
    Line("sys/leases/lookup/a", NONE),
    Line("sys/leases", NONE),
    Line(
        "sys/leases/renew",
        &[(Write, Operation::Leases(LeaseOperation::Renew))],
    ),
    Line("sys/leases/renew/a", NONE),
    Line(
        "sys/leases/revoke",
        &[(Write, Operation::Leases(LeaseOperation::Revoke))],
    ),
    Line("sys/leases/revoke/a", NONE),
    Line("sys/leases/revoke-prefix/db", OF_PREFIXES),
    Line("sys/leases/revoke-prefix/db/creds", OF_PREFIXES),
    Line("sys/leases/revoke-prefix", NONE),
    Line("sys/mounts", OF_MOUNTS),
    Line("sys", NONE),
    Line("sys/mounts/db", OF_ONE_MOUNT),
    Line("sys/mounts/db/a", NONE),
    Line("sys/policies/acl", OF_POLICIES),
    Line("sys/policies", NONE),
    Line("sys/policies/acl/p", OF_ONE_POLICY),
    Line("sys/policies/acl/p/a", NONE),
    Line("cubbyhole", OF_CUBBYHOLES),
    Line("cubbyhole/a", IN_CUBBYHOLES),
    Line("cubbyhole/a/b", IN_CUBBYHOLES),
    Line("secret/config", OF_SETTINGS),
    Line("secret/config/a", NONE),
    Line("secret", NONE),
    Line("secret/data/a", OF_DATA),
    Line("secret/data/a/b", OF_DATA),
    Line("secret/data", NONE),
    Line("secret/delete/a", OF_DELETION),
    Line("secret/delete/a/b", OF_DELETION),
    Line("secret/delete", NONE),
    Line("secret/undelete/a", OF_UNDELETION),
    Line("secret/undelete/a/b", OF_UNDELETION),
    Line("secret/undelete", NONE),
    Line("secret/destroy/a", OF_DESTRUCTION),
    Line("secret/destroy/a/b", OF_DESTRUCTION),
    Line("secret/destroy", NONE),
    Line("secret/metadata", OF_LISTS),
    Line("secret/metadata/a", OF_METADATA),
    Line("secret/metadata/a/b", OF_METADATA),
    Line("db/roles/r", OF_ROLES),
    Line("db/roles/r/a", NONE),
    Line("db/roles", NONE),
    Line("db", NONE),
    Line(
        "db/creds/r",
        &[(Get, Operation::Issued(IssuedOperation::Issue))],
    ),
    Line("db/creds/r/a", NONE),
    Line("db/creds", NONE),
    Line(
        "db/verify",
        &[(Write, Operation::Issued(IssuedOperation::Verify))],
    ),
    Line("db/verify/a", NONE),
    Line("db2/creds/r", NONE),
    Line("other/data/a", NONE),
    Line("cubbyholes/a", NONE),
    Line("cubbyhole/", OF_CUBBYHOLES),
];

const VERBS: &[Verb] = &[Get, List, Write, Delete];

/// The operation that is served for a verb.
fn served(line: &Line, verb: Verb) -> Option<Operation> {
    for (served, operation) in line.1 {
        if *served == verb {
            return Some(*operation);
        }
    }
    None
}

/// The refusal of a verb that is not served.
fn refusal(line: &Line) -> Refusal {
    if line.1.is_empty() {
        return Refusal::NotFound;
    }
    Refusal::MethodNotAllowed(Methods {
        get: served(line, Get).is_some(),
        list: served(line, List).is_some(),
        write: served(line, Write).is_some(),
        delete: served(line, Delete).is_some(),
    })
}

/// A transaction with two mounts.
fn with_mounts(rt: &(impl AllocGlobal + Abort)) -> Result<ListTx, Fail> {
    let alloc = rt.alloc();
    let mut tx = ListRecords::new(alloc).begin()?;
    assert!(rt; enable(alloc, &mut tx, "secret", "kv", Some(2)) == Ok(()));
    assert!(rt; enable(alloc, &mut tx, "db", "issued", None) == Ok(()));
    Ok(tx)
}

#[test]
fn routes_of_the_profile(rt: HostRuntime) -> Result<(), Fail> {
    let routers = Routers::new(rt.alloc())?;
    let mut tx = with_mounts(&rt)?;
    for line in LINES {
        for verb in VERBS {
            let expected = served(line, *verb);
            match route(&routers, &mut tx, *verb, line.0) {
                Ok(found) => assert!(rt; expected == Some(found.operation)),
                Err(RequestError::Refused(found)) => {
                    assert!(rt; expected.is_none() && found == refusal(line))
                }
                Err(RequestError::Fault(_)) => return Err(Fail::from("a fault")),
            }
        }
    }
    Ok(())
}

#[test]
fn a_route_has_its_mount_and_its_parameter(rt: HostRuntime) -> Result<(), Fail> {
    let routers = Routers::new(rt.alloc())?;
    let mut tx = with_mounts(&rt)?;
    let Ok(found) = route(&routers, &mut tx, Get, "cubbyhole/a/b") else {
        return Err(Fail::from("no route"));
    };
    assert_eq!(rt; found.mount, "cubbyhole");
    assert_eq!(rt; found.parameter, "a/b");
    Ok(())
}

/// Mounts in turn, by name, type and version, and why each is refused, if it is.
fn expect_mounts(
    rt: &(impl Abort + AllocGlobal),
    tx: &mut ListTx,
    mounts: &[(&str, &str, Option<u64>, Option<Reason>)],
) {
    for (name, mount_type, version, reason) in mounts.iter() {
        let refused = enable(rt.alloc(), tx, name, mount_type, *version).err();
        let wanted = reason.map(|reason| RequestError::Refused(Refusal::BadRequest(reason)));
        assert!(rt; refused == wanted, "{name}");
    }
}

#[test]
fn mounts_are_refused_in_order(rt: HostRuntime) -> Result<(), Fail> {
    let mut tx = with_mounts(&rt)?;
    expect_mounts(
        &rt,
        &mut tx,
        &[
            ("a:b", "x", None, Some(Reason::InvalidName)),
            ("", "kv-v2", None, Some(Reason::InvalidName)),
            ("db", "x", None, Some(Reason::PathInUse)),
            ("identity", "kv-v2", None, Some(Reason::PathInUse)),
            ("new", "kv", None, Some(Reason::UnsupportedMount)),
            ("new", "kv", Some(1), Some(Reason::UnsupportedMount)),
            ("new", "kv-v2", Some(1), None),
            ("new", "kv-v2", None, Some(Reason::PathInUse)),
        ],
    );
    let fixed = RequestError::Refused(Refusal::BadRequest(Reason::MountFixed));
    assert!(rt; disable(&mut tx, "cubbyhole") == Err(fixed));
    assert!(rt; disable(&mut tx, "identity") == Ok(false));
    assert!(rt; disable(&mut tx, "new") == Ok(true));
    expect_mounts(&rt, &mut tx, &[("new", "issued", None, None)]);
    Ok(())
}

/// Whether these mounts are listed, by name and type.
fn are_listed(mounts: &[NamedMount], expected: &[(&str, MountType)]) -> bool {
    mounts.len() == expected.len()
        && mounts.iter().zip(expected).all(|(found, wanted)| found.name.as_str() == wanted.0
            && found.mount_type == wanted.1)
}

#[test]
fn all_mounts_are_listed_in_order(rt: HostRuntime) -> Result<(), Fail> {
    let mut tx = with_mounts(&rt)?;
    expect_mounts(
        &rt,
        &mut tx,
        &[
            ("a", "kv-v2", None, None),
            ("z", "issued", None, None),
            ("db-2", "kv-v2", None, None),
        ],
    );
    let mounts = list(rt.alloc(), &mut tx)?;
    assert!(rt;
        are_listed(
            mounts.as_slice(),
            &[
                ("a/", MountType::Kv),
                ("cubbyhole/", MountType::Cubbyhole),
                ("db-2/", MountType::Kv),
                ("db/", MountType::Issued),
                ("secret/", MountType::Kv),
                ("sys/", MountType::System),
                ("z/", MountType::Issued),
            ]
        )
    );
    Ok(())
}
