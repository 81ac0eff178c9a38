//! Cubbyholes over rows in memory.

use broker_types::{Bytes, Fault, TextBuf};
use cubbyhole::{delete, drop_owner, is_there, list, read, write};
use records::{Kind, ListRecords, ListTx, RecordsTx, Row};
use std::test::Fail;

const ROOT: &str = "hvs.00000000-0000-0000-0000-000000000001";

const CHILD: &str = "hvs.00000000-0000-0000-0000-000000000015";

/// A transaction in which the token has an object at each path.
fn kept(rt: &HostRuntime, token: &str, paths: &[&str]) -> Result<ListTx, Fail> {
    let alloc = rt.alloc();
    let mut tx = ListRecords::new(alloc).begin()?;
    for path in paths {
        write(alloc, &mut tx, token, path, "{\"x\":1}")?;
    }
    Ok(tx)
}

/// Whether the children of a folder are these.
fn lists(
    rt: &HostRuntime,
    tx: &mut ListTx,
    token: &str,
    path: &str,
    expected: &[&str],
) -> Result<bool, Fail> {
    let names = list(rt.alloc(), tx, token, path)?;
    Ok(
        names.len() == expected.len()
            && names
                .iter()
                .zip(expected)
                .all(|(name, wanted)| name.as_str() == *wanted),
    )
}

#[test]
fn a_path_and_a_folder_may_have_one_name(rt: HostRuntime) -> Result<(), Fail> {
    let mut tx = kept(&rt, ROOT, &["a", "a/b", "a/b/c", "z"])?;
    assert!(rt; lists(&rt, &mut tx, ROOT, "", &["a", "a/", "z"])?);
    assert!(rt; lists(&rt, &mut tx, ROOT, "a", &["b", "b/"])?);
    assert!(rt; lists(&rt, &mut tx, ROOT, "z", &[])?);
    assert!(rt; lists(&rt, &mut tx, CHILD, "", &[])?);
    Ok(())
}

/// Whether a path of the token's cubbyhole has this object.
fn reads(
    rt: &HostRuntime,
    tx: &mut ListTx,
    token: &str,
    path: &str,
    expected: &str,
) -> Result<bool, Fail> {
    let object = read(rt.alloc(), tx, token, path)?;
    Ok(object.is_some_and(|object| object.as_str() == expected))
}

#[test]
fn a_path_is_deleted_alone(rt: HostRuntime) -> Result<(), Fail> {
    let alloc = rt.alloc();
    let mut tx = kept(&rt, ROOT, &["a", "a/b", "z"])?;
    assert!(rt; is_there(alloc, &mut tx, ROOT, "a")?);
    delete(alloc, &mut tx, ROOT, "a")?;
    delete(alloc, &mut tx, ROOT, "a")?;
    assert!(rt; !is_there(alloc, &mut tx, ROOT, "a")?);
    write(alloc, &mut tx, ROOT, "z", "{\"new\":[1]}")?;
    assert!(rt; read(alloc, &mut tx, ROOT, "a")?.is_none());
    assert!(rt; reads(&rt, &mut tx, ROOT, "a/b", "{\"x\":1}")?);
    assert!(rt; reads(&rt, &mut tx, ROOT, "z", "{\"new\":[1]}")?);
    Ok(())
}

#[test]
fn a_cubbyhole_goes_without_others(rt: HostRuntime) -> Result<(), Fail> {
    let alloc = rt.alloc();
    let mut tx = kept(&rt, CHILD, &["a", "a/b"])?;
    write(alloc, &mut tx, ROOT, "a", "{\"x\":1}")?;
    drop_owner(alloc, &mut tx, CHILD)?;
    assert!(rt; read(alloc, &mut tx, CHILD, "a")?.is_none());
    assert!(rt; read(alloc, &mut tx, CHILD, "a/b")?.is_none());
    assert!(rt; reads(&rt, &mut tx, ROOT, "a", "{\"x\":1}")?);
    Ok(())
}

#[test]
fn a_damaged_row_is_told_where_it_is_read(rt: HostRuntime) -> Result<(), Fail> {
    let alloc = rt.alloc();
    let mut tx = kept(&rt, ROOT, &["b"])?;
    let row = Row {
        owner: TextBuf::copied(alloc, ROOT)?,
        due: None,
        body: Bytes::new(vec![in alloc; 9u8]?),
    };
    let key = "hvs.00000000-0000-0000-0000-000000000001/a";
    tx.put(Kind::Cubby, key, row)?;
    assert!(rt; matches!(read(alloc, &mut tx, ROOT, "a"), Err(Fault::Damaged)));
    assert!(rt; is_there(alloc, &mut tx, ROOT, "a")?);
    assert!(rt; reads(&rt, &mut tx, ROOT, "b", "{\"x\":1}")?);
    Ok(())
}

#[test]
fn a_row_of_another_owner_is_damaged(rt: HostRuntime) -> Result<(), Fail> {
    let alloc = rt.alloc();
    let mut tx = kept(&rt, CHILD, &["a"])?;
    let Some(row) = tx.get(Kind::Cubby, "hvs.00000000-0000-0000-0000-000000000015/a")? else {
        return Err(Fail::from("no row"));
    };
    tx.put(
        Kind::Cubby,
        "hvs.00000000-0000-0000-0000-000000000001/a",
        row,
    )?;
    assert!(rt; matches!(read(alloc, &mut tx, ROOT, "a"), Err(Fault::Damaged)));
    Ok(())
}
