//! Secrets over a transaction in memory: each call, run once with enough memory. Check-and-set, pruning and custom
//! metadata are in `check_and_set`, `eleven_versions`, `settings_of_mount` and `custom_metadata` of `tests/rows`.

use broker_types::{Bytes, Fault, Moment, RequestError, TextBuf};
use kv2::{
    FoundVersion, NewVersion, SecretSettings, config, delete, delete_versions, destroy, drop_mount,
    is_there, list, metadata, read, remove_key, set_config, set_metadata, undelete, write,
};
use records::{Engine, Kind, ListRecords, ListTx, MountRecord, RecordsTx, Row, write_mount};
use std::alloc::{AllocError, Global};
use std::test::Fail;

const ONE: &str = "{\"a\":1}";

/// A transaction with the mounts `secret` and `secret2`.
fn started(rt: &HostRuntime) -> Result<ListTx, Fail> {
    let alloc = rt.alloc();
    let mut tx = ListRecords::new(alloc).begin()?;
    let mount = MountRecord {
        engine: Engine::Kv,
        cas_required: false,
        max_versions: 0,
    };
    tx.put(Kind::Mount, "secret", write_mount(alloc, &mount)?)?;
    tx.put(Kind::Mount, "secret2", write_mount(alloc, &mount)?)?;
    Ok(tx)
}

fn moment(seconds: u64) -> Result<Moment, Fail> {
    match Moment::new(seconds) {
        Some(moment) => Ok(moment),
        None => Err(Fail::from("no moment")),
    }
}

/// The number that a write at second 1,000 answers.
fn writes(rt: &HostRuntime, tx: &mut ListTx, path: &str, cas: Option<u64>) -> Result<u64, Fail> {
    let version = NewVersion { cas, object: ONE };
    match write(rt.alloc(), tx, moment(1000)?, "secret", path, version) {
        Ok(written) => Ok(written.number),
        Err(_) => Err(Fail::from("no write")),
    }
}

/// Whether it is this version, deleted at this second, with this object.
fn is_version(
    found: &Option<FoundVersion>,
    number: u64,
    deleted: Option<u64>,
    object: Option<&str>,
) -> bool {
    match found {
        None => false,
        Some(read) => {
            let version = &read.version;
            let same = match (&version.secret, object) {
                (None, None) => true,
                (Some(kept), Some(wanted)) => kept.as_str() == wanted,
                _ => false,
            };
            same && read.number == number && version.created == 1000 && version.deleted == deleted
        }
    }
}

/// Whether a read answers this.
fn reads(
    rt: &HostRuntime,
    tx: &mut ListTx,
    number: u64,
    expected: (u64, Option<u64>, Option<&str>),
) -> Result<bool, Fail> {
    let found = read(rt.alloc(), tx, "secret", "x", number)?;
    Ok(is_version(&found, expected.0, expected.1, expected.2))
}

#[test]
fn settings_and_metadata(rt: HostRuntime) -> Result<(), Fail> {
    let alloc = rt.alloc();
    let mut tx = started(&rt)?;
    set_config(alloc, &mut tx, "secret", Some(true), Some(2))?;
    assert!(rt; config(&mut tx, "secret")?.is_some_and(|mount| mount.cas_required));
    for last in 0..3u64 {
        assert!(rt; writes(&rt, &mut tx, "x", Some(last))? == last.saturating_add(1));
    }
    let Some(told) = metadata(alloc, &mut tx, "secret", "x")? else {
        return Err(Fail::from("no metadata"));
    };
    assert!(rt; (told.current, told.oldest, told.versions.len()) == (3, 2, 2));
    Ok(())
}

#[test]
fn a_secret_has_settings_of_its_own(rt: HostRuntime) -> Result<(), Fail> {
    let alloc = rt.alloc();
    let mut tx = started(&rt)?;
    let strict = SecretSettings {
        cas_required: Some(true),
        max_versions: Some(1),
        custom_metadata: None,
    };
    set_metadata(alloc, &mut tx, moment(900)?, "secret", "x", strict)?;
    assert!(rt; is_there(alloc, &mut tx, "secret", "x")?);
    let version = NewVersion {
        cas: None,
        object: ONE,
    };
    let refused = write(alloc, &mut tx, moment(1000)?, "secret", "x", version);
    assert!(rt; matches!(refused, Err(RequestError::Refused(_))));
    assert!(rt; writes(&rt, &mut tx, "x", Some(0))? == 1);
    assert!(rt; writes(&rt, &mut tx, "x", Some(1))? == 2);
    assert!(rt; read(alloc, &mut tx, "secret", "x", 1)?.is_none());
    let lenient = SecretSettings {
        cas_required: Some(false),
        max_versions: None,
        custom_metadata: None,
    };
    set_metadata(alloc, &mut tx, moment(1100)?, "secret", "x", lenient)?;
    let Some(told) = metadata(alloc, &mut tx, "secret", "x")? else {
        return Err(Fail::from("no metadata"));
    };
    assert!(rt; (told.created, told.updated) == (900, 1100));
    assert!(rt; (told.current, told.max_versions) == (2, 1));
    assert!(rt; reads(&rt, &mut tx, 2, (2, None, Some(ONE)))?);
    Ok(())
}

#[test]
fn versions_are_deleted_restored_and_destroyed(rt: HostRuntime) -> Result<(), Fail> {
    let alloc = rt.alloc();
    let mut tx = started(&rt)?;
    writes(&rt, &mut tx, "x", None)?;
    writes(&rt, &mut tx, "x", None)?;
    delete_versions(alloc, &mut tx, moment(1000)?, "secret", "x", &[1, 7])?;
    delete_versions(alloc, &mut tx, moment(1001)?, "secret", "x", &[1])?;
    destroy(alloc, &mut tx, "secret", "x", &[2])?;
    assert!(rt; reads(&rt, &mut tx, 1, (1, Some(1000), Some(ONE)))?);
    assert!(rt; reads(&rt, &mut tx, 2, (2, None, None))?);
    delete(alloc, &mut tx, moment(1002)?, "secret", "x")?;
    undelete(alloc, &mut tx, "secret", "x", &[1, 2])?;
    assert!(rt; reads(&rt, &mut tx, 1, (1, None, Some(ONE)))?);
    assert!(rt; reads(&rt, &mut tx, 2, (2, Some(1002), None))?);
    Ok(())
}

#[test]
fn a_deleted_secret_is_there_until_it_is_removed(rt: HostRuntime) -> Result<(), Fail> {
    let alloc = rt.alloc();
    let mut tx = started(&rt)?;
    assert!(rt; !is_there(alloc, &mut tx, "secret", "x")?);
    writes(&rt, &mut tx, "x", None)?;
    delete(alloc, &mut tx, moment(1001)?, "secret", "x")?;
    assert!(rt; is_there(alloc, &mut tx, "secret", "x")?);
    destroy(alloc, &mut tx, "secret", "x", &[1])?;
    assert!(rt; is_there(alloc, &mut tx, "secret", "x")?);
    assert!(rt; !is_there(alloc, &mut tx, "secret2", "x")?);
    remove_key(alloc, &mut tx, "secret", "x")?;
    assert!(rt; !is_there(alloc, &mut tx, "secret", "x")?);
    Ok(())
}

/// Whether the children of a folder are these.
fn lists(
    rt: &HostRuntime,
    tx: &mut ListTx,
    mount: &str,
    path: &str,
    expected: &[&str],
) -> Result<bool, Fail> {
    let names = list(rt.alloc(), tx, mount, path)?;
    Ok(
        names.len() == expected.len()
            && names
                .iter()
                .zip(expected)
                .all(|(name, wanted)| name.as_str() == *wanted),
    )
}

#[test]
fn folders_are_listed_and_mounts_are_dropped(rt: HostRuntime) -> Result<(), Fail> {
    let alloc = rt.alloc();
    let mut tx = started(&rt)?;
    for path in &["c/d/e", "a/b", "a/c", "a"] {
        writes(&rt, &mut tx, path, None)?;
    }
    let version = NewVersion {
        cas: None,
        object: ONE,
    };
    write(alloc, &mut tx, moment(1000)?, "secret2", "z", version)?;
    assert!(rt; lists(&rt, &mut tx, "secret", "", &["a", "a/", "c/"])?);
    assert!(rt; lists(&rt, &mut tx, "secret", "a", &["b", "c"])?);
    remove_key(alloc, &mut tx, "secret", "a/b")?;
    assert!(rt; lists(&rt, &mut tx, "secret", "a", &["c"])?);
    drop_mount(alloc, &mut tx, "secret")?;
    assert!(rt; lists(&rt, &mut tx, "secret", "", &[])?);
    assert!(rt; lists(&rt, &mut tx, "secret2", "", &["z"])?);
    Ok(())
}

/// A row that is in no format.
fn damaged(alloc: Global) -> Result<Row, AllocError> {
    Ok(Row {
        owner: TextBuf::copied(alloc, "")?,
        due: None,
        body: Bytes::new(vec![in alloc; 9u8]?),
    })
}

#[test]
fn a_damaged_row_is_told_where_it_is_read(rt: HostRuntime) -> Result<(), Fail> {
    let alloc = rt.alloc();
    let mut tx = started(&rt)?;
    writes(&rt, &mut tx, "x", None)?;
    tx.put(
        Kind::KvVersion,
        "secret/x\n00000000000000000001",
        damaged(alloc)?,
    )?;
    assert!(rt; matches!(read(alloc, &mut tx, "secret", "x", 1), Err(Fault::Damaged)));
    assert!(rt; read(alloc, &mut tx, "secret", "x", 2)?.is_none());
    assert!(rt; matches!(metadata(alloc, &mut tx, "secret", "x"), Err(Fault::Damaged)));
    assert!(rt;
        matches!(
            destroy(alloc, &mut tx, "secret", "x", &[1]),
            Err(Fault::Damaged)
        )
    );
    tx.put(Kind::KvKey, "secret/y", damaged(alloc)?)?;
    let given = SecretSettings {
        cas_required: Some(true),
        max_versions: None,
        custom_metadata: None,
    };
    let set = set_metadata(alloc, &mut tx, moment(1000)?, "secret", "y", given);
    assert!(rt; matches!(set, Err(Fault::Damaged)));
    Ok(())
}
