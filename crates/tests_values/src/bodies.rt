//! What bodies are read as. The outcomes of the readers are those of a reference broker that was written apart from
//! this one. What the readers make of bodies, and which of several bad members is refused, is in `lenient_members`,
//! `forms_of_settings`, `forms_of_key_settings`, `forms_of_versions`, `members_refused` and
//! `order_of_creation_refusals` of `tests/rows`; which bytes are a body, in `json_refused`, `limits_of_json` and
//! `json_read_back`; what is printed, in all.

use api_json::{
    Body, Tree, accessor, credential, increment, key_settings, lease_id, lease_renewal,
    mount_creation, mount_settings, policy_text, read_body, role_settings, secret_write, token,
    token_creation, token_renewal, versions, wrapping_token,
};
use broker_types::{Field, Reason, Refusal, RequestError, TextBuf};
use std::alloc::{AllocError, AllocGlobal, Global};
use std::process::Abort;
use std::test::Fail;

#[derive(Clone, Copy, Debug, PartialEq, Eq)]
enum Route {
    Creation,
    Token,
    Accessor,
    Increment,
    TokenRenewal,
    Settings,
    KeySettings,
    Secret,
    Versions,
    Policy,
    Mount,
    Lease,
    LeaseRenewal,
    Role,
    Credential,
    Wrapping,
}

/// Why the reader of a route refuses a body, if it does.
fn refused(alloc: Global, route: Route, body: &Body) -> Option<RequestError> {
    match route {
        Route::Creation => token_creation(alloc, body).err(),
        Route::Token => token(alloc, body).err(),
        Route::Accessor => accessor(alloc, body).err(),
        Route::Increment => increment(alloc, body).err(),
        Route::TokenRenewal => token_renewal(alloc, body).err(),
        Route::Settings => mount_settings(alloc, body).err(),
        Route::KeySettings => key_settings(alloc, body).err(),
        Route::Secret => secret_write(alloc, body).err(),
        Route::Versions => versions(alloc, body).err(),
        Route::Policy => policy_text(alloc, body).err(),
        Route::Mount => mount_creation(alloc, body).err(),
        Route::Lease => lease_id(alloc, body).err(),
        Route::LeaseRenewal => lease_renewal(alloc, body).err(),
        Route::Role => role_settings(alloc, body).err(),
        Route::Credential => credential(alloc, body).err(),
        Route::Wrapping => wrapping_token(alloc, body).err(),
    }
}

/// `.` where a body is read, `i` and `m` where the field is invalid and missing, `d` without data.
fn outcome(error: Option<RequestError>, field: Field) -> u8 {
    let Some(RequestError::Refused(Refusal::BadRequest(reason))) = error else {
        return if error.is_none() { b'.' } else { b'?' };
    };
    match reason {
        Reason::InvalidField(bad) if bad == field => b'i',
        Reason::MissingField(bad) if bad == field => b'm',
        Reason::NoData => b'd',
        _ => b'?',
    }
}

/// The values that each reader meets in the place of each of its members.
const VALUES: &str =
    "null|true|false|\"true\"|\"false\"|\"True\"|0|1|-1|18446744073709551615|4294967296|\
    \"\"|\"x\"|\"service\"|\"0s\"|\"1h30m\"|\"1d\"|\"000000000000000007\"|\
    \"0000000000000000007\"|\" a, ,b \"|[]|[\"a\"]|[\"1\",2]|[null]|{}|{\"a\":\"b\"}|\
    {\"a\":null}";

/// The outcome of a body in which the value takes the place of `@` in the template.
fn outcome_at(
    alloc: Global,
    (route, field, template): (Route, Field, &str),
    value: &str,
) -> Result<char, Fail> {
    let (before, after) = template.split_once('@').ok_or("no place")?;
    let text = format!(in alloc; "{before}{value}{after}")?;
    let body = read_body(alloc, text.as_bytes())?;
    Ok(char::from(outcome(refused(alloc, route, &body), field)))
}

/// The outcomes of the bodies that a template has for the values.
fn outcomes(alloc: Global, case: (Route, Field, &str)) -> Result<String, Fail> {
    let mut found = String::new(alloc);
    for value in VALUES.split('|') {
        found.push(outcome_at(alloc, case, value)?)?;
    }
    Ok(found)
}

/// Compares the outcomes of the bodies of each template.
fn expect_kinds(
    rt: &(impl Abort + AllocGlobal),
    rows: &[(Route, Field, &str, &str)],
) -> Result<(), Fail> {
    for (route, field, template, want) in rows.iter() {
        let found = outcomes(rt.alloc(), (*route, *field, template))?;
        assert!(rt; found.as_str() == *want, "{template}");
    }
    Ok(())
}

/// Each reader on each kind of value of each of its members.
#[test]
fn kinds_of_members(rt: HostRuntime) -> Result<(), Fail> {
    expect_kinds(
        &rt,
        &[
            (
                Route::Creation,
                Field::Policies,
                "{\"policies\":@}",
                ".ii...iiiii...........iiiii",
            ),
            (
                Route::Creation,
                Field::Meta,
                "{\"meta\":@}",
                ".iiiiiiiiiiiiiiiiiiiiiii..i",
            ),
            (
                Route::Creation,
                Field::Ttl,
                "{\"ttl\":@}",
                ".iiiii..iii.ii..i..iiiiiiii",
            ),
            (
                Route::Creation,
                Field::ExplicitMaxTtl,
                "{\"explicit_max_ttl\":@}",
                ".iiiii..iii.ii..i..iiiiiiii",
            ),
            (
                Route::Creation,
                Field::NumUses,
                "{\"num_uses\":@}",
                ".iiiii..i..iiiiii.iiiiiiiii",
            ),
            (
                Route::Creation,
                Field::NoParent,
                "{\"no_parent\":@}",
                ".....iiiiiiiiiiiiiiiiiiiiii",
            ),
            (
                Route::Creation,
                Field::NoDefaultPolicy,
                "{\"no_default_policy\":@}",
                ".....iiiiiiiiiiiiiiiiiiiiii",
            ),
            (
                Route::Creation,
                Field::Period,
                "{\"period\":@}",
                ".iiiii..iii.ii..i..iiiiiiii",
            ),
            (
                Route::Creation,
                Field::Renewable,
                "{\"renewable\":@}",
                "..i.iiiiiiiiiiiiiiiiiiiiiii",
            ),
            (
                Route::Creation,
                Field::Id,
                "{\"id\":@}",
                ".iiiiiiiiii.iiiiiiiiiiiiiii",
            ),
            (
                Route::Creation,
                Field::TypeName,
                "{\"type\":@}",
                ".iiiiiiiiii.i.iiiiiiiiiiiii",
            ),
            (
                Route::Token,
                Field::Token,
                "{\"token\":@}",
                "mii...iiiii.........iiiiiii",
            ),
            (
                Route::Accessor,
                Field::Accessor,
                "{\"accessor\":@}",
                "mii...iiiii.........iiiiiii",
            ),
            (
                Route::Increment,
                Field::Increment,
                "{\"increment\":@}",
                ".iiiii..iii.ii..i..iiiiiiii",
            ),
            (
                Route::TokenRenewal,
                Field::Token,
                "{\"token\":@}",
                "mii...iiiii.........iiiiiii",
            ),
            (
                Route::TokenRenewal,
                Field::Increment,
                "{\"token\":\"t\",\"increment\":@}",
                ".iiiii..iii.ii..i..iiiiiiii",
            ),
            (
                Route::Settings,
                Field::CasRequired,
                "{\"cas_required\":@}",
                ".....iiiiiiiiiiiiiiiiiiiiii",
            ),
            (
                Route::Settings,
                Field::MaxVersions,
                "{\"max_versions\":@}",
                ".iiiii..i..iiiiii.iiiiiiiii",
            ),
            (
                Route::Settings,
                Field::DeleteVersionAfter,
                "{\"delete_version_after\":@}",
                ".iiiiiiiiiiiii.iiiiiiiiiiii",
            ),
            (
                Route::KeySettings,
                Field::CustomMetadata,
                "{\"custom_metadata\":@}",
                ".iiiiiiiiiiiiiiiiiiiiiii..i",
            ),
            (
                Route::KeySettings,
                Field::MaxVersions,
                "{\"max_versions\":@}",
                ".iiiii..i..iiiiii.iiiiiiiii",
            ),
            (
                Route::KeySettings,
                Field::CasRequired,
                "{\"cas_required\":@}",
                ".....iiiiiiiiiiiiiiiiiiiiii",
            ),
            (
                Route::KeySettings,
                Field::DeleteVersionAfter,
                "{\"delete_version_after\":@}",
                ".iiiiiiiiiiiii.iiiiiiiiiiii",
            ),
            (
                Route::Secret,
                Field::Options,
                "{\"data\":@}",
                "dddddddddddddddddddddddd...",
            ),
            (
                Route::Secret,
                Field::Options,
                "{\"data\":{},\"options\":@}",
                ".iiiiiiiiiiiiiiiiiiiiiii...",
            ),
            (
                Route::Secret,
                Field::Cas,
                "{\"data\":{},\"options\":{\"cas\":@}}",
                ".iiiii..i..iiiiii.iiiiiiiii",
            ),
            (
                Route::Versions,
                Field::Versions,
                "{\"versions\":@}",
                "miiiiiiiiiimiiiii.iimi.iiii",
            ),
            (
                Route::Policy,
                Field::Policy,
                "{\"policy\":@}",
                "mii...iiiii.........iiiiiii",
            ),
        ],
    )
}

/// The same of the readers of mounts, leases, credentials and wrapping tokens.
#[test]
fn kinds_of_more_members(rt: HostRuntime) -> Result<(), Fail> {
    expect_kinds(
        &rt,
        &[
            (
                Route::Mount,
                Field::TypeName,
                "{\"type\":@}",
                "mii...iiiii.........iiiiiii",
            ),
            (
                Route::Mount,
                Field::Options,
                "{\"type\":\"kv\",\"options\":@}",
                ".iiiiiiiiiiiiiiiiiiiiiii...",
            ),
            (
                Route::Mount,
                Field::Version,
                "{\"type\":\"kv\",\"options\":{\"version\":@}}",
                ".iiiii..i..iiiiii.iiiiiiiii",
            ),
            (
                Route::Lease,
                Field::LeaseId,
                "{\"lease_id\":@}",
                "mii...iiiii.........iiiiiii",
            ),
            (
                Route::LeaseRenewal,
                Field::LeaseId,
                "{\"lease_id\":@}",
                "mii...iiiii.........iiiiiii",
            ),
            (
                Route::LeaseRenewal,
                Field::Increment,
                "{\"lease_id\":\"l\",\"increment\":@}",
                ".iiiii..iii.ii..i..iiiiiiii",
            ),
            (
                Route::Role,
                Field::Ttl,
                "{\"ttl\":@}",
                ".iiiii..iii.ii..i..iiiiiiii",
            ),
            (
                Route::Role,
                Field::MaxTtl,
                "{\"max_ttl\":@}",
                ".iiiii..iii.ii..i..iiiiiiii",
            ),
            (
                Route::Credential,
                Field::Credential,
                "{\"credential\":@}",
                "mii...iiiii.........iiiiiii",
            ),
            (
                Route::Wrapping,
                Field::Token,
                "{\"token\":@}",
                ".ii...iiiii.........iiiiiii",
            ),
        ],
    )
}

/// Whether this was printed.
fn prints(printed: Result<TextBuf, AllocError>, want: &str) -> Result<bool, AllocError> {
    let printed = printed?;
    Ok(printed.as_str() == want)
}

/// Whether the bytes are an array that is printed as this.
fn is_array(alloc: Global, bytes: &[u8], want: &str) -> Result<bool, AllocError> {
    match Tree::read(alloc, bytes)? {
        Some(tree) => Ok(tree.value().is_array() && prints(tree.to_text(alloc), want)?),
        None => Ok(false),
    }
}

/// Whether the bytes are no tree.
fn is_no_tree(alloc: Global, bytes: &[u8]) -> Result<bool, AllocError> {
    let tree = Tree::read(alloc, bytes)?;
    Ok(tree.is_none())
}

#[test]
fn trees(rt: HostRuntime) -> Result<(), Fail> {
    let alloc = rt.alloc();
    let bytes = b"[1, {\"b\":true, \"a\":null}]";
    assert!(rt; is_array(alloc, bytes, "[1,{\"a\":null,\"b\":true}]")?);
    assert!(rt; is_no_tree(alloc, b"[1.5]")?);
    assert!(rt; is_no_tree(alloc, b"")?);
    Ok(())
}
