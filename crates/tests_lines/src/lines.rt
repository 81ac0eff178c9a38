//! Rows as lines, and back.

use broker_types::{Bytes, TextBuf};
use records::{
    Due, Engine, Entry, Holder, Kind, MountRecord, Row, TokenRecord, write_accessor, write_mount,
    write_policy, write_token,
};
use row_lines::{line_of, row_in};
use std::alloc::{AllocError, Global};
use std::test::Fail;

fn entry(alloc: Global, kind: Kind, key: &str, row: Row) -> Result<Entry, AllocError> {
    Ok(Entry {
        kind,
        key: TextBuf::copied(alloc, key)?,
        row,
    })
}

/// Whether the row has this line, and the line this row.
fn has_line(
    alloc: Global,
    kind: Kind,
    key: &str,
    row: Row,
    line: &str,
) -> Result<bool, AllocError> {
    let entry = entry(alloc, kind, key, row)?;
    let printed = line_of(alloc, &entry)?;
    let Some(read) = row_in(alloc, line)? else {
        return Ok(false);
    };
    Ok(
        printed.as_str() == line
            && read.kind == kind
            && read.key.as_str() == key
            && read.row.owner.as_str() == entry.row.owner.as_str()
            && read.row.due == entry.row.due
            && read.row.body.as_slice() == entry.row.body.as_slice(),
    )
}

fn text(alloc: Global, text: &str) -> Result<TextBuf, AllocError> {
    TextBuf::copied(alloc, text)
}

fn token(alloc: Global) -> Result<Row, AllocError> {
    let mut policies = Vec::new(alloc);
    policies.push(text(alloc, "a")?)?;
    policies.push(text(alloc, "default")?)?;
    let mut meta = Vec::new(alloc);
    meta.push((text(alloc, "team")?, text(alloc, "b\nü\"")?))?;
    write_token(
        alloc,
        &TokenRecord {
            parent: Some(text(alloc, "hvs.p")?),
            accessor: text(alloc, "acc")?,
            policies,
            issued: 1,
            ends: Due::new(3601),
            ttl: 3600,
            explicit_max_ttl: 0,
            period: 0,
            uses_left: None,
            meta,
        },
    )
}

#[test]
fn tokens_have_lines(rt: HostRuntime) -> Result<(), Fail> {
    let alloc = rt.alloc();
    assert!(rt;
        has_line(
            alloc,
            Kind::Token,
            "hvs.t",
            token(alloc)?,
            concat!(
                "{\"due\":3601,\"fields\":{\"accessor\":\"acc\",\"explicit_max_ttl\":0,\"issued\":1,",
                "\"metadata\":{\"team\":\"b\\nü\\\"\"},\"period\":0,\"policies\":[\"a\",\"default\"],\"ttl\":3600,",
                "\"uses_left\":null},\"format\":1,\"key\":\"hvs.t\",\"kind\":\"token\",\"owner\":\"hvs.p\"}"
            ),
        )?
    );
    assert!(rt;
        has_line(
            alloc,
            Kind::Accessor,
            "acc",
            write_accessor(alloc, "hvs.t", Holder::WrappingToken)?,
            "{\"due\":null,\"fields\":{\"holder\":2},\"format\":1,\"key\":\"acc\",\"kind\":\"accessor\",\"owner\":\"hvs.t\"}",
        )?
    );
    Ok(())
}

#[test]
fn settings_have_lines(rt: HostRuntime) -> Result<(), Fail> {
    let alloc = rt.alloc();
    assert!(rt;
        has_line(
            alloc,
            Kind::Mount,
            "secret",
            write_mount(
                alloc,
                &MountRecord {
                    engine: Engine::Kv,
                    cas_required: true,
                    max_versions: 18_446_744_073_709_551_615,
                },
            )?,
            concat!(
                "{\"due\":null,\"fields\":{\"cas_required\":true,\"max_versions\":18446744073709551615,\"type\":\"kv\"},",
                "\"format\":1,\"key\":\"secret\",\"kind\":\"mount\",\"owner\":\"\"}"
            ),
        )?
    );
    assert!(rt;
        has_line(
            alloc,
            Kind::Policy,
            "p",
            write_policy(alloc, "{\"path\":{}}")?,
            concat!(
                "{\"due\":null,\"fields\":{\"policy\":\"{\\\"path\\\":{}}\"},\"format\":1,\"key\":\"p\",",
                "\"kind\":\"policy\",\"owner\":\"\"}"
            ),
        )?
    );
    Ok(())
}

#[test]
fn damaged_rows_have_lines(rt: HostRuntime) -> Result<(), Fail> {
    let alloc = rt.alloc();
    let row = Row {
        owner: text(alloc, "")?,
        due: None,
        body: Bytes::new([1u8, 0, 255].to_vec(alloc)?),
    };
    assert!(rt;
        has_line(
            alloc,
            Kind::Clock,
            "",
            row,
            "{\"damaged\":\"0100ff\",\"due\":null,\"key\":\"\",\"kind\":\"clock\",\"owner\":\"\"}",
        )?
    );
    Ok(())
}

/// Whether a text is the line of no row.
fn is_no_line(alloc: Global, line: &str) -> Result<bool, AllocError> {
    Ok(row_in(alloc, line)?.is_none())
}

#[test]
fn other_texts_are_no_lines(rt: HostRuntime) -> Result<(), Fail> {
    let alloc = rt.alloc();
    assert!(rt;
        !is_no_line(
            alloc,
            "{\"due\":null,\"fields\":{\"moment\":7},\"format\":1,\"key\":\"\",\"kind\":\"clock\",\"owner\":\"\"}",
        )?
    );
    for line in [
        "",
        "{}",
        "{\"due\":null, \"fields\":{\"moment\":7},\"format\":1,\"key\":\"\",\"kind\":\"clock\",\"owner\":\"\"}",
        "{\"due\":null,\"fields\":{\"moment\":7.0},\"format\":1,\"key\":\"\",\"kind\":\"clock\",\"owner\":\"\"}",
        "{\"due\":null,\"fields\":{\"moment\":-7},\"format\":1,\"key\":\"\",\"kind\":\"clock\",\"owner\":\"\"}",
        "{\"due\":null,\"fields\":{\"moment\":7,\"more\":1},\"format\":1,\"key\":\"\",\"kind\":\"clock\",\"owner\":\"\"}",
        "{\"due\":null,\"fields\":{},\"format\":1,\"key\":\"\",\"kind\":\"clock\",\"owner\":\"\"}",
        "{\"due\":null,\"fields\":{\"moment\":7},\"format\":2,\"key\":\"\",\"kind\":\"clock\",\"owner\":\"\"}",
        "{\"due\":null,\"fields\":{\"moment\":7},\"format\":1,\"key\":\"\",\"kind\":\"clocks\",\"owner\":\"\"}",
        "{\"due\":9223372036854775808,\"fields\":{\"moment\":7},\"format\":1,\"key\":\"\",\"kind\":\"clock\",\"owner\":\"\"}",
        "{\"damaged\":\"0100FF\",\"due\":null,\"key\":\"\",\"kind\":\"clock\",\"owner\":\"\"}",
        "{\"damaged\":\"010\",\"due\":null,\"key\":\"\",\"kind\":\"clock\",\"owner\":\"\"}",
    ] {
        assert!(rt; is_no_line(alloc, line)?, "{line}");
    }
    Ok(())
}
