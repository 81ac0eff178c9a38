//! What is remembered of rows, and what is not, since it is secret.

use broker_types::{Bytes, Moment, TextBuf};
use records::{Due, Kind, Row};
use records_sql::RowMemory;
use std::alloc::Global;
use std::test::Fail;

/// A row of one byte that is due at so many seconds, if at all.
fn row(alloc: Global, byte: u8, due: Option<u64>) -> Result<Row, Fail> {
    let due = match due {
        None => None,
        Some(seconds) => Due::new(seconds),
    };
    Ok(Row {
        owner: TextBuf::copied(alloc, "")?,
        due,
        body: Bytes::new(Vec::from_slice(alloc, &[byte])?),
    })
}

/// Whether the row of a kind is recalled once it was kept, or that there is none.
fn is_recalled(alloc: Global, kind: Kind, is_there: bool) -> Result<bool, Fail> {
    let mut memory = RowMemory::new(alloc);
    let row = row(alloc, 1, None)?;
    memory.keep(kind, "a", if is_there { Some(&row) } else { None });
    Ok(match memory.recalled(kind, "a") {
        None => false,
        Some(found) => found.is_some() == is_there,
    })
}

/// Whether the row of a policy is recalled as this one byte.
fn recalls(memory: &RowMemory, byte: u8) -> bool {
    match memory.recalled(Kind::Policy, "a") {
        Some(Some(row)) => row.body.as_slice() == [byte].as_slice(),
        _ => false,
    }
}

/// Whether it is known that no row is due at a moment.
fn is_calm(memory: &RowMemory, seconds: u64) -> bool {
    match Moment::new(seconds) {
        None => false,
        Some(moment) => memory.none_due(moment).is_some(),
    }
}

#[test]
fn a_row_is_recalled(rt: HostRuntime) -> Result<(), Fail> {
    assert!(rt; is_recalled(rt.alloc(), Kind::Clock, true)?);
    assert!(rt; is_recalled(rt.alloc(), Kind::Token, true)?);
    assert!(rt; is_recalled(rt.alloc(), Kind::Mount, true)?);
    assert!(rt; is_recalled(rt.alloc(), Kind::Policy, false)?);
    assert!(rt; is_recalled(rt.alloc(), Kind::KvKey, false)?);
    Ok(())
}

#[test]
fn what_is_secret_is_not_remembered(rt: HostRuntime) -> Result<(), Fail> {
    assert!(rt; !is_recalled(rt.alloc(), Kind::KvVersion, true)?);
    assert!(rt; !is_recalled(rt.alloc(), Kind::Cubby, true)?);
    assert!(rt; !is_recalled(rt.alloc(), Kind::Waiting, true)?);
    assert!(rt; !is_recalled(rt.alloc(), Kind::Token, false)?);
    Ok(())
}

#[test]
fn what_is_put_or_removed_is_known(rt: HostRuntime) -> Result<(), Fail> {
    let mut memory = RowMemory::new(rt.alloc());
    memory.keep(Kind::Policy, "a", Some(&row(rt.alloc(), 1, None)?));
    assert!(rt; recalls(&memory, 1));
    memory.replace(Kind::Policy, "a", &row(rt.alloc(), 2, None)?);
    assert!(rt; recalls(&memory, 2));
    memory.forget(Kind::Policy, "a");
    assert!(rt; memory.recalled(Kind::Policy, "a").is_none());
    memory.keep(Kind::Policy, "a", None);
    memory.clear();
    assert!(rt; memory.recalled(Kind::Policy, "a").is_none());
    Ok(())
}

#[test]
fn what_is_due_is_found(rt: HostRuntime) -> Result<(), Fail> {
    let mut memory = RowMemory::new(rt.alloc());
    assert!(rt; !is_calm(&memory, 20));
    if let Some(moment) = Moment::new(20) {
        memory.keep_due(moment, &[]);
    }
    assert!(rt; is_calm(&memory, 20) && !is_calm(&memory, 21));
    memory.replace(Kind::Token, "a", &row(rt.alloc(), 1, Some(10))?);
    assert!(rt; is_calm(&memory, 9) && !is_calm(&memory, 10));
    Ok(())
}

/// Remembers that there is no mount of this number.
fn keep_number(memory: &mut RowMemory, alloc: Global, number: u32) -> Result<(), Fail> {
    let key = format!(in alloc; "{number}")?;
    memory.keep(Kind::Mount, key.as_str(), None);
    Ok(())
}

#[test]
fn a_row_beyond_the_last_place_takes_that_of_the_first(rt: HostRuntime) -> Result<(), Fail> {
    let mut memory = RowMemory::new(rt.alloc());
    for number in 0..1024 {
        keep_number(&mut memory, rt.alloc(), number)?;
    }
    assert!(rt; memory.recalled(Kind::Mount, "0").is_some());
    assert!(rt; memory.recalled(Kind::Policy, "0").is_none());
    keep_number(&mut memory, rt.alloc(), 1024)?;
    assert!(rt; memory.recalled(Kind::Mount, "0").is_none());
    assert!(rt; memory.recalled(Kind::Mount, "1").is_some());
    assert!(rt; memory.recalled(Kind::Mount, "1024").is_some());
    Ok(())
}
