//! Leases and roles over rows in memory.

use crate::unlisted::Unlisted;
use broker_types::{Bytes, Fault, Moment, Reason, Refusal, RequestError, Seconds, TextBuf};
use leases::{
    LeaseRequest, Names, creds, drop_owner, drop_owners, drop_roles, end_due, issue, lookup,
    remove_role, renew, revoke, revoke_under, role, set_role, sweep_leases, verify,
};
use records::{Due, Kind, LeaseRecord, ListRecords, ListTx, RecordsTx, Row};
use std::alloc::Global;
use std::test::Fail;

fn moment(seconds: u64) -> Result<Moment, Fail> {
    Ok(Moment::new(seconds).ok_or("no moment")?)
}

/// Two leases made at second 1,000: one of the token `root` within `db`, which ends at 1,060, and one of `child` within
/// `db2`, which ends at 1,061. Neither may last longer than until 1,090.
fn leased(alloc: Global) -> Result<ListTx, Fault> {
    let mut tx = ListRecords::new(alloc).begin()?;
    let first = LeaseRecord {
        issued: 1000,
        ttl: 60,
        max_ttl: 90,
        ends: Due::at(1060),
        renewed: None,
        credential: "one",
    };
    issue(alloc, &mut tx, "root", "db/1", &first)?;
    let second = LeaseRecord {
        issued: 1000,
        ttl: 61,
        max_ttl: 90,
        ends: Due::at(1061),
        renewed: None,
        credential: "two",
    };
    issue(alloc, &mut tx, "child", "db2/2", &second)?;
    Ok(tx)
}

/// How many leases there are, and how many credentials.
fn left(tx: &mut ListTx) -> Result<(usize, usize), Fault> {
    let leases = tx.under(Kind::Lease, "")?;
    let credentials = tx.under(Kind::Credential, "")?;
    Ok((leases.len(), credentials.len()))
}

#[test]
fn leases_end_without_a_list_of_all(rt: HostRuntime) -> Result<(), Fail> {
    let alloc = rt.alloc();
    let mut tx = Unlisted {
        tx: leased(alloc)?,
        was_listed: false,
    };
    sweep_leases(&mut tx, moment(1059)?)?;
    assert!(rt; verify(&mut tx, "one")?);
    sweep_leases(&mut tx, moment(1060)?)?;
    assert!(rt; !verify(&mut tx, "one")?);
    drop_owner(&mut tx, "root")?;
    assert!(rt; verify(&mut tx, "two")?);
    drop_owner(&mut tx, "child")?;
    assert!(rt; !verify(&mut tx, "two")?);
    assert!(rt; !tx.failed());
    assert!(rt; matches!(revoke_under(alloc, &mut tx, "db"), Err(Fault::Storage)));
    Ok(())
}

#[test]
fn leases_are_revoked_by_id_and_by_prefix(rt: HostRuntime) -> Result<(), Fail> {
    let mut tx = leased(rt.alloc())?;
    revoke(&mut tx, "db")?;
    assert!(rt; left(&mut tx)? == (2, 2));
    revoke_under(rt.alloc(), &mut tx, "db")?;
    assert!(rt; left(&mut tx)? == (1, 1));
    assert!(rt; verify(&mut tx, "two")? && !verify(&mut tx, "tw")?);
    revoke(&mut tx, "db2/2")?;
    assert!(rt; left(&mut tx)? == (0, 0));
    Ok(())
}

/// How many leases and credentials there are once those of both tokens have ended.
fn left_of_tokens(alloc: Global) -> Result<(usize, usize), Fault> {
    let mut tx = leased(alloc)?;
    let child = TextBuf::copied(alloc, "child")?;
    let root = TextBuf::copied(alloc, "root")?;
    let tokens = vec![in alloc; child, root]?;
    drop_owners(&mut tx, &tokens)?;
    left(&mut tx)
}

/// How many there are once those among the rows that are due have ended. A token is due too, and stays.
fn left_of_due(alloc: Global, now: Moment) -> Result<(usize, usize), Fault> {
    let mut tx = leased(alloc)?;
    let token = Row {
        owner: TextBuf::copied(alloc, "")?,
        due: Due::new(7),
        body: Bytes::new(Vec::new(alloc)),
    };
    tx.put(Kind::Token, "root", token)?;
    let due = tx.due_until(now)?;
    end_due(&mut tx, &due)?;
    if tx.get(Kind::Token, "root")?.is_none() {
        return Ok((0, 0));
    }
    left(&mut tx)
}

#[test]
fn leases_end_with_tokens_and_from_a_list(rt: HostRuntime) -> Result<(), Fail> {
    assert!(rt; left_of_tokens(rt.alloc())? == (0, 0));
    assert!(rt; left_of_due(rt.alloc(), moment(1060)?)? == (1, 1));
    Ok(())
}

/// The end that a renewal of the first lease gives.
fn renewed(tx: &mut ListTx, alloc: Global, now: u64, increment: u32) -> Result<u64, Fail> {
    Ok(renew(alloc, tx, moment(now)?, "db/1", Seconds::new(increment))?.seconds())
}

#[test]
fn a_renewal_does_not_go_beyond_the_longest_time(rt: HostRuntime) -> Result<(), Fail> {
    let alloc = rt.alloc();
    let mut tx = leased(alloc)?;
    assert!(rt; renewed(&mut tx, alloc, 1050, 100)? == 1090);
    assert!(rt; renewed(&mut tx, alloc, 1010, 0)? == 1070);
    assert!(rt; renewed(&mut tx, alloc, 1020, 10)? == 1030);
    let times = lookup(&mut tx, "db/1")?;
    assert!(rt;
        times.issued == 1000 && times.ends.seconds() == 1030 && times.renewed == Some(1020)
    );
    let refused = RequestError::Refused(Refusal::BadRequest(Reason::InvalidLease));
    assert!(rt; lookup(&mut tx, "db/2").is_err_and(|error| error == refused));
    Ok(())
}

/// Sets the role `r` of a mount.
fn set(alloc: Global, tx: &mut ListTx, mount: &str, ttl: u32, max_ttl: u32) -> Result<(), Fail> {
    Ok(set_role(
        alloc,
        tx,
        mount,
        "r",
        Seconds::new(ttl),
        Seconds::new(max_ttl),
    )?)
}

#[test]
fn roles_are_kept_and_removed(rt: HostRuntime) -> Result<(), Fail> {
    let alloc = rt.alloc();
    let mut tx = ListRecords::new(alloc).begin()?;
    set(alloc, &mut tx, "db", 60, 0)?;
    set(alloc, &mut tx, "db2", 60, 90)?;
    assert!(rt;
        tx.get(Kind::Role, "db/r")?.is_some_and(|row| row.body.as_slice()
            == [1, 0, 0, 0, 0, 0, 0, 0, 60, 0, 0, 0, 0, 0, 0, 0, 0].as_slice())
    );
    assert!(rt;
        set_role(
            alloc,
            &mut tx,
            "db",
            "a/b",
            Seconds::new(60),
            Seconds::new(0)
        )
        .is_err()
    );
    drop_roles(alloc, &mut tx, "db")?;
    assert!(rt; role(alloc, &mut tx, "db", "r")?.is_none());
    assert!(rt; role(alloc, &mut tx, "db2", "r")?.is_some_and(|x| x.ttl == 60 && x.max_ttl == 90));
    remove_role(alloc, &mut tx, "db2", "r")?;
    assert!(rt; role(alloc, &mut tx, "db2", "r")?.is_none());
    Ok(())
}

/// For how long a credential of a role of `db` is issued to the token `root` at second 1,000.
fn issued(
    alloc: Global,
    tx: &mut ListTx,
    name: &str,
    is_last_use: bool,
) -> Result<u64, RequestError> {
    let Some(now) = Moment::new(1000) else {
        return Ok(0);
    };
    let asked = LeaseRequest {
        token: "root",
        is_last_use,
        names: Names {
            lease: "one",
            credential: "two",
        },
    };
    let made = creds(alloc, tx, now, "db", name, asked)?;
    if made.lease_id.as_str() != "db/creds/r/one" {
        return Ok(0);
    }
    Ok(made.ttl)
}

#[test]
fn a_credential_lasts_as_its_role_says(rt: HostRuntime) -> Result<(), Fail> {
    let alloc = rt.alloc();
    let mut tx = ListRecords::new(alloc).begin()?;
    set(alloc, &mut tx, "db", 3600, 1800)?;
    assert!(rt; issued(alloc, &mut tx, "r", false)? == 1800);
    set(alloc, &mut tx, "db", 0, 0)?;
    assert!(rt; issued(alloc, &mut tx, "r", false)? == 2_764_800);
    let unknown = RequestError::Refused(Refusal::NotFound);
    assert!(rt; issued(alloc, &mut tx, "s", true).is_err_and(|error| error == unknown));
    let last = RequestError::Refused(Refusal::BadRequest(Reason::LastUseTakesLease));
    assert!(rt; issued(alloc, &mut tx, "r", true).is_err_and(|error| error == last));
    Ok(())
}
