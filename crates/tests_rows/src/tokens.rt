//! Tokens over rows in memory.

use crate::unlisted::Unlisted;
use broker_types::{Bytes, Fault, Moment, TextBuf};
use records::{Due, Kind, ListRecords, ListTx, RecordsTx, Row, read_token};
use std::alloc::{AllocGlobal, Global};
use std::process::Abort;
use std::test::Fail;
use token_tree::{
    accessors, create, find, find_accessor, renew, revoke, revoke_one, spend, sweep_tokens,
};

/// Makes a token of three bytes with two uses, whose accessor is its own text.
fn put(alloc: Global, tx: &mut ListTx, token: &str, parent: &str, ends: u64) -> Result<(), Fault> {
    let mut body = Vec::new(alloc);
    body.extend_from_slice(&[1, 0, 0, 0, 3])?;
    body.extend_from_slice(token.as_bytes())?;
    body.extend_from_slice(&[0; 36])?;
    body.extend_from_slice(&[1, 0, 0, 0, 0, 0, 0, 0, 2])?;
    body.extend_from_slice(&[0; 4])?;
    let row = Row {
        owner: TextBuf::copied(alloc, parent)?,
        due: Due::new(ends),
        body: Bytes::new(body),
    };
    let token_record = read_token(alloc, &row)?;
    create(alloc, tx, token, &token_record)
}

/// A tree: `top`, its child `mid`, and the child `low` of that; beside it the orphan `odd`, which ends at 7, and its
/// child `kid`.
fn tree(alloc: Global) -> Result<ListTx, Fault> {
    let mut tx = ListRecords::new(alloc).begin()?;
    put(alloc, &mut tx, "mid", "top", 100)?;
    put(alloc, &mut tx, "low", "mid", 100)?;
    put(alloc, &mut tx, "top", "", 100)?;
    put(alloc, &mut tx, "odd", "", 7)?;
    put(alloc, &mut tx, "kid", "odd", 100)?;
    Ok(tx)
}

/// How many tokens there are, and how many accessors.
fn left(alloc: Global, tx: &mut ListTx) -> Result<(usize, usize), Fault> {
    let tokens = tx.under(Kind::Token, "")?;
    let names = accessors(alloc, tx)?;
    Ok((tokens.len(), names.len()))
}

/// How many tokens the revocation of each of these ends, and how many stay.
fn expect_revoked(
    rt: &(impl Abort + AllocGlobal),
    revoked: &[(&str, usize, usize)],
) -> Result<(), Fail> {
    let alloc = rt.alloc();
    for (token, ended, stay) in revoked.iter() {
        let mut tx = tree(alloc)?;
        let list = revoke(alloc, &mut tx, token)?;
        assert!(rt; list.len() == *ended);
        assert!(rt; left(alloc, &mut tx)? == (*stay, *stay));
    }
    Ok(())
}

#[test]
fn a_token_ends_with_all_under_it(rt: HostRuntime) -> Result<(), Fail> {
    expect_revoked(
        &rt,
        &[
            ("top", 3, 2),
            ("mid", 2, 3),
            ("low", 1, 4),
            ("odd", 2, 3),
            ("", 0, 5),
            ("not", 0, 5),
        ],
    )
}

/// How many tokens have expired at each of these moments, and how many stay.
fn expect_swept(
    rt: &(impl Abort + AllocGlobal),
    moments: &[(u64, usize, usize)],
) -> Result<(), Fail> {
    let alloc = rt.alloc();
    for (clock, ended, stay) in moments.iter() {
        let mut tx = tree(alloc)?;
        let clock = Moment::new(*clock).ok_or("no moment")?;
        let list = sweep_tokens(alloc, &mut tx, clock)?;
        assert!(rt; list.len() == *ended);
        assert!(rt; left(alloc, &mut tx)? == (*stay, *stay));
    }
    Ok(())
}

#[test]
fn an_expired_parent_takes_its_children(rt: HostRuntime) -> Result<(), Fail> {
    expect_swept(&rt, &[(6, 0, 5), (7, 2, 3), (100, 5, 0)])
}

#[test]
fn children_of_a_token_that_ends_alone_are_orphans(rt: HostRuntime) -> Result<(), Fail> {
    let alloc = rt.alloc();
    let mut tx = tree(alloc)?;
    assert!(rt; revoke_one(alloc, &mut tx, "")?.is_empty());
    assert!(rt; revoke_one(alloc, &mut tx, "mid")?.len() == 1);
    assert!(rt; revoke_one(alloc, &mut tx, "mid")?.is_empty());
    assert!(rt; left(alloc, &mut tx)? == (4, 4));
    assert!(rt; find(alloc, &mut tx, "mid")?.is_none());
    assert!(rt; find(alloc, &mut tx, "low")?.is_some_and(|x| x.parent.is_none()));
    assert!(rt; find(alloc, &mut tx, "kid")?.is_some_and(|x| x.parent.is_some()));
    Ok(())
}

/// Gives the token `low` another end.
fn renew_low(alloc: Global, tx: &mut ListTx) -> Result<(), Fault> {
    if let Some(low) = find(alloc, tx, "low")? {
        renew(alloc, tx, "low", low, Due::at(200))?;
    }
    Ok(())
}

#[test]
fn uses_and_ends(rt: HostRuntime) -> Result<(), Fail> {
    let alloc = rt.alloc();
    let mut tx = tree(alloc)?;
    assert!(rt; spend(alloc, &mut tx, "low")?.is_some_and(|left| left.uses_left == Some(1)));
    assert!(rt; spend(alloc, &mut tx, "not")?.is_none());
    renew_low(alloc, &mut tx)?;
    assert!(rt;
        find(alloc, &mut tx, "low")?.is_some_and(|x| x.uses_left == Some(1)
            && x.ends == Due::new(200))
    );
    assert!(rt;
        find(alloc, &mut tx, "mid")?.is_some_and(|x| x.uses_left == Some(2)
            && x.ends == Due::new(100))
    );
    assert!(rt; find_accessor(&mut tx, "low")?.is_some_and(|token| token.as_str() == "low"));
    assert!(rt; find_accessor(&mut tx, "not")?.is_none());
    Ok(())
}

#[test]
fn tokens_end_without_a_list_of_all(rt: HostRuntime) -> Result<(), Fail> {
    let alloc = rt.alloc();
    let mut tx = Unlisted {
        tx: tree(alloc)?,
        was_listed: false,
    };
    assert!(rt; revoke(alloc, &mut tx, "mid")?.len() == 2);
    assert!(rt; revoke_one(alloc, &mut tx, "top")?.len() == 1);
    assert!(rt; sweep_tokens(alloc, &mut tx, Moment::new(6).ok_or("no moment")?)?.is_empty());
    assert!(rt; sweep_tokens(alloc, &mut tx, Moment::new(7).ok_or("no moment")?)?.len() == 2);
    assert!(rt; !tx.failed());
    assert!(rt; matches!(accessors(alloc, &mut tx), Err(Fault::Storage)));
    assert!(rt; tx.failed());
    Ok(())
}
