//! Damaged rows: each call that reads one tells it, and as no other fault.

use broker_types::{Bytes, Fault, Moment, RequestError, Seconds, TextBuf, Verb};
use records::{Kind, ListRecords, ListTx, RecordsTx, Row};
use std::alloc::{AllocGlobal, Global};
use std::process::Abort;
use std::test::Fail;

/// Two bodies of no row: that without bytes, and one of a format that there is not.
const EMPTY: &str = "";

const OTHER_FORMAT: &str = "\t";

/// A transaction with one row, which has this body.
fn with_row(alloc: Global, kind: Kind, key: &str, body: &str) -> Result<ListTx, Fault> {
    let mut tx = ListRecords::new(alloc).begin()?;
    let mut bytes = Vec::new(alloc);
    bytes.extend_from_slice(body.as_bytes())?;
    let row = Row {
        owner: TextBuf::copied(alloc, "")?,
        due: None,
        body: Bytes::new(bytes),
    };
    tx.put(kind, key, row)?;
    Ok(tx)
}

/// Calls that read a row of tokens with this body.
fn expect_damaged_tokens(rt: &(impl Abort + AllocGlobal), body: &str) -> Result<(), Fail> {
    let alloc = rt.alloc();
    let mut tx = with_row(alloc, Kind::Token, "t", body)?;
    assert!(rt; matches!(token_tree::find(alloc, &mut tx, "t"), Err(Fault::Damaged)));
    assert!(rt; matches!(token_tree::spend(alloc, &mut tx, "t"), Err(Fault::Damaged)));
    assert!(rt; matches!(token_tree::revoke(alloc, &mut tx, "t"), Err(Fault::Damaged)));
    let mut alone = with_row(alloc, Kind::Token, "t", body)?;
    assert!(rt;
        matches!(
            token_tree::revoke_one(alloc, &mut alone, "t"),
            Err(Fault::Damaged)
        )
    );
    Ok(())
}

#[test]
fn rows_of_tokens(rt: HostRuntime) -> Result<(), Fail> {
    expect_damaged_tokens(&rt, EMPTY)?;
    expect_damaged_tokens(&rt, OTHER_FORMAT)
}

/// Calls that read a row of accessors with this body.
fn expect_damaged_accessors(rt: &(impl Abort + AllocGlobal), body: &str) -> Result<(), Fail> {
    let alloc = rt.alloc();
    let mut tx = with_row(alloc, Kind::Accessor, "a", body)?;
    assert!(rt; matches!(token_tree::find_accessor(&mut tx, "a"), Err(Fault::Damaged)));
    assert!(rt; matches!(token_tree::accessors(alloc, &mut tx), Err(Fault::Damaged)));
    Ok(())
}

#[test]
fn rows_of_accessors(rt: HostRuntime) -> Result<(), Fail> {
    expect_damaged_accessors(&rt, EMPTY)?;
    expect_damaged_accessors(&rt, OTHER_FORMAT)
}

/// Calls that read a row of waiting responses with this body.
fn expect_damaged_responses(rt: &(impl Abort + AllocGlobal), body: &str) -> Result<(), Fail> {
    let alloc = rt.alloc();
    let mut tx = with_row(alloc, Kind::Waiting, "t", body)?;
    assert!(rt; matches!(wrapping::look(alloc, &mut tx, "t"), Err(Fault::Damaged)));
    assert!(rt; matches!(wrapping::take(alloc, &mut tx, "t"), Err(Fault::Damaged)));
    assert!(rt;
        matches!(
            wrapping::drop_token(alloc, &mut tx, "t"),
            Err(Fault::Damaged)
        )
    );
    let clock = Moment::new(1000).ok_or("no moment")?;
    let moved = wrapping::rewrap(alloc, &mut tx, "t", "u", "a", clock);
    assert!(rt; matches!(moved, Err(Fault::Damaged)));
    let mut named = with_row(alloc, Kind::Accessor, "a", body)?;
    assert!(rt;
        matches!(
            wrapping::drop_accessor(alloc, &mut named, "a"),
            Err(Fault::Damaged)
        )
    );
    Ok(())
}

#[test]
fn rows_of_responses(rt: HostRuntime) -> Result<(), Fail> {
    expect_damaged_responses(&rt, EMPTY)?;
    expect_damaged_responses(&rt, OTHER_FORMAT)
}

/// Calls that read a row of mounts with this body.
fn expect_damaged_mounts(rt: &(impl Abort + AllocGlobal), body: &str) -> Result<(), Fail> {
    let alloc = rt.alloc();
    let mut tx = with_row(alloc, Kind::Mount, "team", body)?;
    let found = mounts::route(
        &mounts::Routers::new(alloc)?,
        &mut tx,
        Verb::Get,
        "team/data/a",
    );
    assert!(rt; matches!(found, Err(RequestError::Fault(Fault::Damaged))));
    assert!(rt; matches!(mounts::list(alloc, &mut tx), Err(Fault::Damaged)));
    assert!(rt; matches!(kv2::config(&mut tx, "team"), Err(Fault::Damaged)));
    let set = kv2::set_config(alloc, &mut tx, "team", None, Some(3));
    assert!(rt; matches!(set, Err(Fault::Damaged)));
    let now = Moment::new(1000).ok_or("no moment")?;
    let version = kv2::NewVersion {
        cas: None,
        object: "{}",
    };
    let written = kv2::write(alloc, &mut tx, now, "team", "a", version);
    assert!(rt; matches!(written, Err(RequestError::Fault(Fault::Damaged))));
    Ok(())
}

#[test]
fn rows_of_mounts(rt: HostRuntime) -> Result<(), Fail> {
    expect_damaged_mounts(&rt, EMPTY)?;
    expect_damaged_mounts(&rt, OTHER_FORMAT)
}

/// Calls that read a row of policies with this body.
fn expect_damaged_policies(rt: &(impl Abort + AllocGlobal), body: &str) -> Result<(), Fail> {
    let alloc = rt.alloc();
    let mut tx = with_row(alloc, Kind::Policy, "p", body)?;
    assert!(rt; matches!(policies::get(alloc, &mut tx, "p"), Err(Fault::Damaged)));
    let names = [TextBuf::copied(alloc, "p")?];
    let mut memory = policies::PolicyMemory::new(alloc);
    let rules = policies::rules_of(&mut memory, alloc, &mut tx, &names, Verb::Get);
    assert!(rt; matches!(rules, Err(Fault::Damaged)));
    Ok(())
}

#[test]
fn rows_of_policies(rt: HostRuntime) -> Result<(), Fail> {
    expect_damaged_policies(&rt, EMPTY)?;
    expect_damaged_policies(&rt, OTHER_FORMAT)
}

/// Calls that read a row of leases with this body.
fn expect_damaged_leases(rt: &(impl Abort + AllocGlobal), body: &str) -> Result<(), Fail> {
    let alloc = rt.alloc();
    let mut tx = with_row(alloc, Kind::Lease, "db/l", body)?;
    let looked = leases::lookup(&mut tx, "db/l");
    assert!(rt; matches!(looked, Err(RequestError::Fault(Fault::Damaged))));
    let now = Moment::new(1000).ok_or("no moment")?;
    let renewed = leases::renew(alloc, &mut tx, now, "db/l", Seconds::new(0));
    assert!(rt; matches!(renewed, Err(RequestError::Fault(Fault::Damaged))));
    assert!(rt; matches!(leases::revoke(&mut tx, "db/l"), Err(Fault::Damaged)));
    assert!(rt;
        matches!(
            leases::revoke_under(alloc, &mut tx, "db"),
            Err(Fault::Damaged)
        )
    );
    assert!(rt; matches!(leases::drop_owner(&mut tx, ""), Err(Fault::Damaged)));
    Ok(())
}

#[test]
fn rows_of_leases(rt: HostRuntime) -> Result<(), Fail> {
    expect_damaged_leases(&rt, EMPTY)?;
    expect_damaged_leases(&rt, OTHER_FORMAT)
}

#[test]
fn rows_of_credentials_and_roles(rt: HostRuntime) -> Result<(), Fail> {
    let alloc = rt.alloc();
    let mut tx = with_row(alloc, Kind::Credential, "c", OTHER_FORMAT)?;
    assert!(rt; matches!(leases::verify(&mut tx, "c"), Err(Fault::Damaged)));
    let mut roles = with_row(alloc, Kind::Role, "db/r", OTHER_FORMAT)?;
    assert!(rt;
        matches!(
            leases::role(alloc, &mut roles, "db", "r"),
            Err(Fault::Damaged)
        )
    );
    Ok(())
}
