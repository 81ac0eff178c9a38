//! Stores in a database in memory: how they are started, opened and made ready. Keys of format 1 are upgraded in
//! `tests/upgrade`. What is tried over a store is generic in its storage: a function that calls one such at the storage
//! itself takes the prover some 20 seconds, and there is one.

use broker::Store;
use broker_sql::{SqlStore, prepare};
use broker_types::{
    Ask, BodyBytes, Bytes, CowBytes, CowText, Fault, Moment, Path, Seconds, Status, TextBuf, Verb,
    Words, WrapTtl,
};
use records::{Kind, RecordsTx, Row};
use records_sql::SqlRecords;
use sqlite::Alter;
use std::alloc::Global;
use std::borrow::{CowSlice, CowStr};
use std::mem::forget;
use std::test::Fail;

const ROOT: &str = "hvs.00000000-0000-0000-0000-000000000001";

fn moment() -> Result<Moment, Fault> {
    Moment::new(1_000).ok_or(Fault::Damaged)
}

/// What is tried over a store without rows.
pub(crate) trait Trial {
    /// Whether the store does what it should.
    fn holds<S: Alter + Drop>(&self, alloc: Global, store: SqlStore<S>) -> Result<bool, Fault>;
}

/// Whether a store in memory does what it should.
pub(crate) fn holds_in_memory<T: Trial>(alloc: Global, trial: &T) -> Result<bool, Fault> {
    trial.holds(alloc, SqlStore::in_memory(alloc)?)
}

/// Whether a store without rows can be started once, with two words that differ.
fn starts_once<S: Alter>(store: &mut SqlStore<S>) -> Result<bool, Fault> {
    let words = Words([0, 1, 2, 3, 4, 5, 6, 7]);
    Ok(
        matches!(store.start(moment()?, &Words([7; 8])), Err(Fault::BadStart))
            && store.start(moment()?, &words)?.as_str() == ROOT
            && matches!(store.start(moment()?, &words), Err(Fault::BadStart))
            && !store.failed(),
    )
}

/// What the root token asks of itself.
fn lookup() -> Result<Ask<'static>, Fault> {
    let Ok(path) = Path::read(CowStr::Borrowed("auth/token/lookup-self")) else {
        return Err(Fault::Damaged);
    };
    Ok(Ask {
        verb: Verb::Get,
        path,
        version: CowBytes::new(CowSlice::Borrowed(b"".as_slice())),
        token: Some(CowText::new(CowStr::Borrowed(ROOT))),
        wrap_ttl: WrapTtl::cut(Seconds::new(0)),
        body: BodyBytes::new(CowSlice::Borrowed(b"".as_slice())).ok_or(Fault::Damaged)?,
    })
}

/// Whether the root token is answered when it looks itself up.
fn answers<S: Alter>(store: &mut SqlStore<S>) -> Result<bool, Fault> {
    let words = Words([16, 17, 18, 19, 20, 21, 22, 23]);
    Ok(store.one(moment()?, &words, &lookup()?)?.status == Status::Success)
}

/// A store without rows is started once, and then answers.
#[derive(Drop)]
struct StartsOnce;

impl Trial for StartsOnce {
    fn holds<S: Alter + Drop>(&self, _: Global, mut store: SqlStore<S>) -> Result<bool, Fault> {
        Ok(starts_once(&mut store)? && answers(&mut store)?)
    }
}

#[test]
fn a_store_is_started_once(rt: HostRuntime) -> Result<(), Fail> {
    assert!(rt; holds_in_memory(rt.alloc(), &StartsOnce)?);
    Ok(())
}

fn row(alloc: Global, owner: &str, body: &[u8]) -> Result<Row, Fault> {
    Ok(Row {
        owner: TextBuf::copied(alloc, owner)?,
        due: None,
        body: Bytes::new(body.to_vec(alloc)?),
    })
}

/// Puts a row of the cubbyhole, once the transaction before was forgotten with what it wrote.
fn put_without_clock<S: Alter>(alloc: Global, records: &mut SqlRecords<S>) -> Result<(), Fault> {
    let mut forgotten = records.begin()?;
    forgotten.put(Kind::Clock, "", row(alloc, ROOT, &[1])?)?;
    forget(forgotten);
    let mut tx = records.begin()?;
    tx.put(Kind::Cubby, "a", row(alloc, ROOT, &[1])?)?;
    tx.commit()
}

/// Rows without that of the clock are refused, and stay.
#[derive(Drop)]
struct NeedsClock;

impl Trial for NeedsClock {
    fn holds<S: Alter + Drop>(&self, alloc: Global, store: SqlStore<S>) -> Result<bool, Fault> {
        let mut records = store.into_records();
        put_without_clock(alloc, &mut records)?;
        let words = Words([0, 1, 2, 3, 4, 5, 6, 7]);
        let refused = prepare(alloc, &mut records, moment()?, &words);
        let mut tx = records.begin()?;
        let stays = tx.get(Kind::Cubby, "a")?.is_some() && tx.get(Kind::Clock, "")?.is_none();
        Ok(matches!(refused, Err(Fault::BadStart)) && stays)
    }
}

#[test]
fn rows_without_a_clock_are_refused(rt: HostRuntime) -> Result<(), Fail> {
    assert!(rt; holds_in_memory(rt.alloc(), &NeedsClock)?);
    Ok(())
}

/// Whether the root token is told of a broker over the records that are made ready, if one is.
fn prepared<S: Alter>(
    alloc: Global,
    records: &mut SqlRecords<S>,
    words: &Words,
) -> Result<Option<bool>, Fault> {
    let told = prepare(alloc, records, moment()?, words)?;
    Ok(told.map(|token| token.as_str() == ROOT))
}

/// Records without a row become the first broker, whose root token is told, and are opened from then on: by the same
/// words, and by equal ones, which cannot start a broker.
#[derive(Drop)]
struct IsPreparedOnce;

impl Trial for IsPreparedOnce {
    fn holds<S: Alter + Drop>(&self, alloc: Global, store: SqlStore<S>) -> Result<bool, Fault> {
        let words = Words([0, 1, 2, 3, 4, 5, 6, 7]);
        let mut records = store.into_records();
        let first = prepared(alloc, &mut records, &words)?;
        let again = prepared(alloc, &mut records, &words)?;
        let equal = prepared(alloc, &mut records, &Words([7; 8]))?;
        Ok(first == Some(true) && again.is_none() && equal.is_none())
    }
}

#[test]
fn a_broker_is_started_once(rt: HostRuntime) -> Result<(), Fail> {
    assert!(rt; holds_in_memory(rt.alloc(), &IsPreparedOnce)?);
    Ok(())
}
