//! Responses that wait, over rows in memory.

use crate::unlisted::Unlisted;
use broker_types::{Bytes, Fault, Moment, TextBuf};
use records::{
    Due, Holder, Kind, ListRecords, ListTx, RecordsTx, Row, read_waiting, write_accessor,
};
use std::alloc::{AllocGlobal, Global};
use std::process::Abort;
use std::test::Fail;
use wrapping::{
    WaitingResponse, drop_accessor, drop_due, drop_token, look, rewrap, store, sweep_waiting, take,
};

/// Stores a response from 100 on, with an accessor of one byte, the path `p`, the origin `o` and the text `{}`.
fn put(alloc: Global, tx: &mut ListTx, token: &str, accessor: &str, ttl: u64) -> Result<(), Fault> {
    let mut body = Vec::new(alloc);
    body.extend_from_slice(&[1, 0, 0, 0, 1])?;
    body.extend_from_slice(accessor.as_bytes())?;
    body.extend_from_slice(&100u64.to_be_bytes())?;
    body.extend_from_slice(&ttl.to_be_bytes())?;
    body.extend_from_slice(b"\0\0\0\x01p\0\0\0\x01o\0\0\0\0\0\0\0\x02{}")?;
    let row = Row {
        owner: TextBuf::copied(alloc, "")?,
        due: Due::new(ttl.wrapping_add(100)),
        body: Bytes::new(body),
    };
    let response = read_waiting(&row)?;
    store(alloc, tx, token, &response)
}

/// Two responses: under `t1` with the accessor `a` until 105, under `t2` with `b` until 106; and `k`, the accessor of
/// the token `t`.
fn two(alloc: Global) -> Result<ListTx, Fault> {
    let mut tx = ListRecords::new(alloc).begin()?;
    put(alloc, &mut tx, "t1", "a", 5)?;
    put(alloc, &mut tx, "t2", "b", 6)?;
    let row = write_accessor(alloc, "t", Holder::Token)?;
    tx.put(Kind::Accessor, "k", row)?;
    Ok(tx)
}

/// How many responses wait, and how many accessors there are.
fn left(tx: &mut ListTx) -> Result<(usize, usize), Fault> {
    let responses = tx.under(Kind::Waiting, "")?;
    let accessors = tx.under(Kind::Accessor, "")?;
    Ok((responses.len(), accessors.len()))
}

/// Whether it is the first response, as it waits with this accessor since then.
fn is_first(response: &WaitingResponse, accessor: &str, created: u64) -> bool {
    response.accessor.as_str() == accessor
        && response.created == created
        && response.ttl == 5
        && response.path.as_str() == "p"
        && response.origin.as_str() == "o"
        && response.reply.as_str() == "{}"
}

#[test]
fn a_response_is_looked_at(rt: HostRuntime) -> Result<(), Fail> {
    let alloc = rt.alloc();
    let mut tx = two(alloc)?;
    assert!(rt; look(alloc, &mut tx, "t1")?.is_some_and(|found| is_first(&found, "a", 100)));
    assert!(rt; look(alloc, &mut tx, "t")?.is_none());
    assert!(rt; left(&mut tx)? == (2, 3));
    Ok(())
}

#[test]
fn a_response_is_taken_once(rt: HostRuntime) -> Result<(), Fail> {
    let alloc = rt.alloc();
    let mut tx = two(alloc)?;
    assert!(rt; take(alloc, &mut tx, "t1")?.is_some_and(|text| text.as_str() == "{}"));
    assert!(rt; take(alloc, &mut tx, "t1")?.is_none());
    assert!(rt; left(&mut tx)? == (1, 2));
    assert!(rt; look(alloc, &mut tx, "t2")?.is_some());
    Ok(())
}

#[test]
fn a_response_is_dropped(rt: HostRuntime) -> Result<(), Fail> {
    let alloc = rt.alloc();
    let mut tx = two(alloc)?;
    assert!(rt; drop_token(alloc, &mut tx, "t2")?);
    assert!(rt; !drop_token(alloc, &mut tx, "t2")?);
    assert!(rt; !drop_accessor(alloc, &mut tx, "b")?);
    assert!(rt; !drop_accessor(alloc, &mut tx, "k")?);
    assert!(rt; left(&mut tx)? == (1, 2));
    assert!(rt; drop_accessor(alloc, &mut tx, "a")?);
    assert!(rt; left(&mut tx)? == (0, 1));
    Ok(())
}

#[test]
fn a_response_moves(rt: HostRuntime) -> Result<(), Fail> {
    let alloc = rt.alloc();
    let mut tx = two(alloc)?;
    let clock = Moment::new(104).ok_or("no moment")?;
    assert!(rt; rewrap(alloc, &mut tx, "t", "t3", "c", clock)?.is_none());
    let moved = rewrap(alloc, &mut tx, "t1", "t3", "c", clock)?;
    assert!(rt; moved.is_some_and(|response| is_first(&response, "c", 104)));
    assert!(rt; left(&mut tx)? == (2, 3));
    assert!(rt; take(alloc, &mut tx, "t1")?.is_none());
    Ok(())
}

/// How many responses are left at each of these moments.
fn expect_left(rt: &(impl Abort + AllocGlobal), moments: &[(u64, usize)]) -> Result<(), Fail> {
    let alloc = rt.alloc();
    for (clock, stay) in moments.iter() {
        let mut tx = two(alloc)?;
        sweep_waiting(&mut tx, Moment::new(*clock).ok_or("no moment")?)?;
        assert!(rt; left(&mut tx)? == (*stay, stay.wrapping_add(1)));
    }
    Ok(())
}

#[test]
fn responses_end(rt: HostRuntime) -> Result<(), Fail> {
    expect_left(&rt, &[(104, 2), (105, 1), (106, 0)])
}

#[test]
fn responses_end_without_a_list_of_all(rt: HostRuntime) -> Result<(), Fail> {
    let alloc = rt.alloc();
    let mut tx = Unlisted {
        tx: two(alloc)?,
        was_listed: false,
    };
    sweep_waiting(&mut tx, Moment::new(105).ok_or("no moment")?)?;
    assert!(rt; look(alloc, &mut tx, "t1")?.is_none());
    let due = tx.due_until(Moment::new(106).ok_or("no moment")?)?;
    tx.remove(Kind::Accessor, "k")?;
    drop_due(&mut tx, &due)?;
    assert!(rt; look(alloc, &mut tx, "t2")?.is_none());
    assert!(rt; !tx.failed());
    Ok(())
}
