//! A damaged row in both stores: the request that reads it ends its connection with the fault, and another connection
//! is answered.

use crate::exchange::{READ, moment};
use crate::stores::{Trial, holds_in_memory};
use crate::streams::NOT_FOUND;
use broker::{Noticed, Store, handle};
use broker_rows::write_first_rows;
use broker_sql::SqlStore;
use broker_types::{Answer, Ask, Bytes, Fault, Moment, TextBuf, Words};
use hub::Hub;
use records::{Kind, ListRecords, RecordsTx, Row};
use records_sql::SqlRecords;
use sqlite::Alter;
use std::alloc::Global;
use std::test::Fail;
use trial_rows::Rows;

const ROOT: &str = "hvs.00000000-0000-0000-0000-000000000001";

/// The path `a` of the root token's cubbyhole, which `READ` reads.
const KEY: &str = "hvs.00000000-0000-0000-0000-000000000001/a";

const READ_ANOTHER: &str = "GET /v1/cubbyhole/b HTTP/1.1\r\nHost: b\r\n\
    X-Vault-Token: hvs.00000000-0000-0000-0000-000000000001\r\n\r\n";

const WORDS: Words = Words([16, 17, 18, 19, 20, 21, 22, 23]);

/// The rows of a start, and a row of the cubbyhole whose body is of no format that there is.
fn plant<T: RecordsTx>(alloc: Global, tx: &mut T, moment: Moment) -> Result<Rows, Fault> {
    write_first_rows(alloc, tx, moment, 1, 2)?;
    let row = Row {
        owner: TextBuf::copied(alloc, ROOT)?,
        due: None,
        body: Bytes::new(vec![in alloc; 9u8]?),
    };
    tx.put(Kind::Cubby, KEY, row)?;
    Rows::of(alloc, tx)
}

/// A store over a list of rows. Nothing is said of its rows, which need not be those of a broker.
#[derive(Drop)]
struct Planted {
    alloc: Global,
    records: ListRecords,
    failed: bool,
}

impl Planted {
    ghost use Rattle.std.specs.Prelude.{IfOk};
    ghost use Rattle.broker_types.specs.Answer.{HasRoom, response_of};
    ghost use Rattle.broker_model.specs.ListedResponses.{IsListed};

    fn answer(&mut self, moment: Moment, words: &Words, ask: &Ask<'_>) -> Result<Answer, Fault>
        ensures room { IfOk result HasRoom }
        ensures listed { IfOk result (λ a. IsListed (response_of a)) }
    {
        let mut tx = self.records.begin()?;
        let answer = handle(self.alloc, &mut tx, moment, words, ask)?;
        self.records.commit(tx);
        Ok(answer)
    }
}

impl Store for Planted {
    ghost use Rattle.std.specs.FinMap as map;
    ghost use Rattle.std.specs.Prelude.{false};

    ghost seen = { λ s. record { rows = map.empty; mismatches = 1; has_failed = s.failed; is_open = false } };

    fn one(&mut self, moment: Moment, words: &Words, ask: &Ask<'_>) -> Result<Answer, Fault> {
        let answered = self.answer(moment, words, ask);
        self.failed = matches!(answered, Err(Fault::Storage));
        answered
    }

    fn failed(&self) -> bool {
        self.failed
    }

    fn noticed(&self) -> Noticed {
        Noticed::nothing()
    }
}

/// Whether the read of the row is the fault `Damaged`, which closes its connection, and another connection finds no
/// object at another path.
fn tells_damage<S: Store>(hub: &mut Hub<S>, moment: Moment) -> Result<bool, Fault> {
    let told = hub.feed(1, READ.as_bytes(), moment, &WORDS);
    if !matches!(told, Err(Fault::Damaged)) || !hub.is_closed(1) {
        return Ok(false);
    }
    let reply = hub.feed(2, READ_ANOTHER.as_bytes(), moment, &WORDS)?;
    Ok(reply.as_slice() == NOT_FOUND.as_bytes())
}

/// Whether the damage is told over the list, and leaves the rows as they are.
fn is_told_over_list(alloc: Global, moment: Moment) -> Result<bool, Fault> {
    let mut records = ListRecords::new(alloc);
    let mut tx = records.begin()?;
    let before = plant(alloc, &mut tx, moment)?;
    records.commit(tx);
    let mut hub = Hub::new(
        alloc,
        Planted {
            alloc,
            records,
            failed: false,
        },
    );
    let is_told = tells_damage(&mut hub, moment)?;
    let Planted {
        alloc: _,
        records,
        failed: _,
    } = hub.into_store();
    let mut tx = records.begin()?;
    Ok(is_told && Rows::of(alloc, &mut tx)?.are(&before))
}

/// The records once a broker over them was asked, and whether it told the damage.
fn told_over<S: Alter + Drop>(
    alloc: Global,
    records: SqlRecords<S>,
    moment: Moment,
) -> Result<(SqlRecords<S>, bool), Fault> {
    let mut hub = Hub::new(alloc, SqlStore::new(alloc, records));
    let is_told = tells_damage(&mut hub, moment)?;
    Ok((hub.into_store().into_records(), is_told))
}

/// The rows of records.
fn rows_of<S: Alter>(alloc: Global, records: &mut SqlRecords<S>) -> Result<Rows, Fault> {
    Rows::of(alloc, &mut records.begin()?)
}

/// Plants the rows in records.
fn plant_in<S: Alter>(
    alloc: Global,
    records: &mut SqlRecords<S>,
    moment: Moment,
) -> Result<Rows, Fault> {
    let mut tx = records.begin()?;
    let planted = plant(alloc, &mut tx, moment)?;
    tx.commit()?;
    Ok(planted)
}

/// The damage is told over a database, and leaves the rows as they are.
#[derive(Drop)]
struct TellsDamage {
    moment: Moment,
}

impl Trial for TellsDamage {
    fn holds<S: Alter + Drop>(&self, alloc: Global, store: SqlStore<S>) -> Result<bool, Fault> {
        let mut records = store.into_records();
        let before = plant_in(alloc, &mut records, self.moment)?;
        let (mut records, is_told) = told_over(alloc, records, self.moment)?;
        Ok(is_told && rows_of(alloc, &mut records)?.are(&before))
    }
}

#[test]
fn damage_is_told_over_the_list(rt: HostRuntime) -> Result<(), Fail> {
    assert!(rt; is_told_over_list(rt.alloc(), moment()?)?);
    Ok(())
}

#[test]
fn damage_is_told_over_sql(rt: HostRuntime) -> Result<(), Fail> {
    let damage = TellsDamage { moment: moment()? };
    assert!(rt; holds_in_memory(rt.alloc(), &damage)?);
    Ok(())
}
