//! Rows of keys in format 1, which become those of the same keys in format 2, and the rows beside them, which stay.

use broker_types::{Bytes, Fault, TextBuf};
use records::{Kind, ListRecords, ListTx, RecordsTx, Row, upgrade_keys};
use std::alloc::Global;
use std::test::Fail;

/// Version 2, created and updated at 1000: in format 1, in format 2, and in format 2 with three versions kept.
const OLD: &[u8] = &[
    1, 0, 0, 0, 0, 0, 0, 0, 2, 0, 0, 0, 0, 0, 0, 3, 0xe8, 0, 0, 0, 0, 0, 0, 3, 0xe8,
];

const NEW: &[u8] = &[
    2, 0, 0, 0, 0, 0, 0, 0, 2, 0, 0, 0, 0, 0, 0, 3, 0xe8, 0, 0, 0, 0, 0, 0, 3, 0xe8, 0, 0, 0, 0, 0,
    0, 0, 0, 0, 0, 0, 0, 0,
];

const WITH_SETTINGS: &[u8] = &[
    2, 0, 0, 0, 0, 0, 0, 0, 2, 0, 0, 0, 0, 0, 0, 3, 0xe8, 0, 0, 0, 0, 0, 0, 3, 0xe8, 0, 0, 0, 0, 0,
    0, 0, 0, 3, 0, 0, 0, 0,
];

/// A row in neither format.
const DAMAGED: &[u8] = &[1, 0, 0, 0, 0, 0, 0, 0, 2];

fn put(alloc: Global, tx: &mut ListTx, kind: Kind, key: &str, body: &[u8]) -> Result<(), Fault> {
    let row = Row {
        owner: TextBuf::copied(alloc, "")?,
        due: None,
        body: Bytes::new(body.to_vec(alloc)?),
    };
    tx.put(kind, key, row)
}

/// A transaction with 33 keys of format 1, which are more than two pages of the walk, and with rows that it leaves.
fn old_keys(alloc: Global) -> Result<ListTx, Fault> {
    let mut tx = ListRecords::new(alloc).begin()?;
    for number in 0..33 {
        let key = format!(in alloc; "secret/{number}")?;
        put(alloc, &mut tx, Kind::KvKey, key.as_str(), OLD)?;
    }
    put(alloc, &mut tx, Kind::KvKey, "secret/11a", DAMAGED)?;
    put(alloc, &mut tx, Kind::KvKey, "secret/22a", WITH_SETTINGS)?;
    put(alloc, &mut tx, Kind::KvVersion, "secret/3", OLD)?;
    Ok(tx)
}

/// How many rows of a kind have this body.
fn count(tx: &mut ListTx, kind: Kind, body: &[u8]) -> Result<usize, Fault> {
    let listed = tx.under(kind, "")?;
    Ok(
        listed
            .iter()
            .filter(|entry| entry.row.body.as_slice() == body)
            .count(),
    )
}

/// Whether the 33 keys are in format 2, and the rows beside them as they were.
fn are_upgraded(tx: &mut ListTx) -> Result<bool, Fault> {
    Ok(
        tx.under(Kind::KvKey, "")?.len() == 35
            && count(tx, Kind::KvKey, NEW)? == 33
            && count(tx, Kind::KvKey, DAMAGED)? == 1
            && count(tx, Kind::KvKey, WITH_SETTINGS)? == 1
            && count(tx, Kind::KvVersion, OLD)? == 1,
    )
}

#[test]
fn keys_of_three_pages_are_upgraded_once(rt: HostRuntime) -> Result<(), Fail> {
    let mut tx = old_keys(rt.alloc())?;
    assert!(rt; count(&mut tx, Kind::KvKey, OLD)? == 33);
    upgrade_keys(rt.alloc(), &mut tx)?;
    assert!(rt; are_upgraded(&mut tx)?);
    upgrade_keys(rt.alloc(), &mut tx)?;
    assert!(rt; are_upgraded(&mut tx)?);
    Ok(())
}
