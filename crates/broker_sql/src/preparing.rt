//! Rows made ready for a store: those of a broker that was started, or none.

ghost use Rattle.std.specs.Prelude.{◌≡◌, ◌≢◌, ◌⊎◌, ◌≤◌, false, IsTrue, IfOk, IfErr, OnOk, OnErr, Err, None};
ghost use Rattle.std.specs.FinMap as map;
ghost use Rattle.broker_types.specs.Fault.{IsMemoryOrStorage};
ghost use Rattle.broker_types.specs.First.{first_broker};
ghost use Rattle.broker_types.specs.Identifier.{id};
ghost use Rattle.broker_types.specs.TokenText.{token_text};
ghost use Rattle.records.specs.Calls.{IsCall};
ghost use Rattle.records.specs.Kept.{IsHonestStore};
ghost use Rattle.records.specs.Transaction.{IsHonest, is_storage};
ghost use Rattle.records_sql.specs.KeptRecords.{kept_records};
ghost use Rattle.broker_rows.specs.Representing.{Represents};
ghost use Rattle.broker_sql.specs.Atomic.{IsAtomic};
ghost use Rattle.broker_sql.specs.Prepared.{CannotStart, IsPrepared};

use crate::emptiness::is_empty;
use broker_rows::write_first_rows;
use broker_types::{Fault, Moment, TokenText, Words};
use records::{Kind, RecordsTx, upgrade_keys};
use records_sql::SqlRecords;
use sqlite::Alter;
use std::alloc::Global;

/// Makes rows ready for a store, in one transaction. If there is none, they are those of the first broker at the
/// moment, whose root token is answered. If there is the row of the clock, they are those of a broker that was started:
/// rows of keys in format 1 are rewritten in format 2, and no token is answered. It fails with `BadStart` if there are
/// rows and none of the clock, or if there is no row and words 1 and 2 are equal; with `Memory` if memory runs out, and
/// with `Storage` if the storage failed. After a fault the rows are as before, as long as the storage returned what was
/// written and can still be asked; it can, unless the fault is `Storage`.
pub fn prepare<S: Alter>(
    alloc: Global,
    records: &mut SqlRecords<S>,
    moment: Moment,
    words: &Words,
) -> Result<Option<TokenText>, Fault>
    ensures prepared { IsHonestStore (kept_records S.Store records.new) → IfOk result (IsPrepared moment words.now
        (kept_records S.Store records.old).rows (kept_records S.Store records.new).rows) }
    ensures bad_start { IsHonestStore (kept_records S.Store records.new) → result ≡ Err Fault.BadStart
        → CannotStart words.now (kept_records S.Store records.old).rows }
    ensures faults { IfErr result (λ fault. IsMemoryOrStorage fault ⊎ (fault ≡ Fault.BadStart)) }
    ensures kept { IsHonestStore (kept_records S.Store records.new) → IsTrue (kept_records S.Store records.new).is_open
        → OnErr result ((kept_records S.Store records.new).rows ≡ (kept_records S.Store records.old).rows) }
    ensures stands { IsHonestStore (kept_records S.Store records.new)
        → OnOk result (IsTrue (kept_records S.Store records.new).is_open) }
    ensures mismatches { (kept_records S.Store records.old).mismatches
        ≤ (kept_records S.Store records.new).mismatches }
    ensures closes { IsTrue (kept_records S.Store records.new).is_open
        → IsTrue (kept_records S.Store records.old).is_open }
    ensures stays_open { IsHonestStore (kept_records S.Store records.new) → is_storage result ≡ false
        → (kept_records S.Store records.new).is_open ≡ (kept_records S.Store records.old).is_open }
    ensures failed { result ≡ Err Fault.Storage → IsTrue (kept_records S.Store records.new).has_failed }
{
    match make_ready(alloc, records, moment, words) {
        Ok(root) => Ok(root),
        Err(Fault::Storage) => Err(Fault::Storage),
        Err(fault) => {
            records.ask()?;
            Err(fault)
        }
    }
}

/// Makes rows ready, in a transaction of its own.
fn make_ready<S: Alter>(
    alloc: Global,
    records: &mut SqlRecords<S>,
    moment: Moment,
    words: &Words,
) -> Result<Option<TokenText>, Fault>
    ensures prepared { IsHonestStore (kept_records S.Store records.new) → IfOk result (IsPrepared moment words.now
        (kept_records S.Store records.old).rows (kept_records S.Store records.new).rows) }
    ensures bad_start { IsHonestStore (kept_records S.Store records.new) → result ≡ Err Fault.BadStart
        → CannotStart words.now (kept_records S.Store records.old).rows }
    ensures faults { IfErr result (λ fault. IsMemoryOrStorage fault ⊎ (fault ≡ Fault.BadStart)) }
    ensures atomic { IsAtomic (kept_records S.Store records.old) (kept_records S.Store records.new) result }
{
    let mut tx = records.begin()?;
    let root = ready_rows(alloc, &mut tx, moment, words)?;
    tx.commit()?;
    Ok(root)
}

/// Makes the rows of a transaction ready.
fn ready_rows<T: RecordsTx>(
    alloc: Global,
    tx: &mut T,
    moment: Moment,
    words: &Words,
) -> Result<Option<TokenText>, Fault>
    ensures prepared { IsHonest (T.seen tx.new)
        → IfOk result (IsPrepared moment words.now (T.seen tx.old).rows (T.seen tx.new).rows) }
    ensures bad_start { IsHonest (T.seen tx.new) → result ≡ Err Fault.BadStart
        → CannotStart words.now (T.seen tx.old).rows }
    ensures call { IsCall (T.seen tx.old) (T.seen tx.new) result
        (λ fault. IsMemoryOrStorage fault ⊎ (fault ≡ Fault.BadStart)) }
{
    if tx.get(Kind::Clock, "")?.is_some() {
        upgrade_keys(alloc, tx)?;
        return Ok(None);
    }
    let root = start_rows(alloc, tx, moment, words.token(), words.accessor())?;
    Ok(Some(root))
}

/// Writes the rows of the first broker, unless there are rows, or its words are equal.
pub(crate) fn start_rows<T: RecordsTx>(
    alloc: Global,
    tx: &mut T,
    moment: Moment,
    token_word: u128,
    accessor_word: u128,
) -> Result<TokenText, Fault>
    ensures told { IsHonest (T.seen tx.new) → OnOk result (Represents None (T.seen tx.new).rows
        (first_broker moment token_word accessor_word)) }
    ensures token { IfOk result (λ t. t ≡ token_text (id token_word)) }
    ensures empty { IsHonest (T.seen tx.new) → OnOk result ((T.seen tx.old).rows ≡ map.empty) }
    ensures differ { OnOk result (token_word ≢ accessor_word) }
    ensures bad_start { IsHonest (T.seen tx.new) → result ≡ Err Fault.BadStart
        → ((T.seen tx.old).rows ≢ map.empty) ⊎ (((T.seen tx.old).rows ≡ map.empty) × (token_word ≡ accessor_word)) }
    ensures call { IsCall (T.seen tx.old) (T.seen tx.new) result
        (λ fault. IsMemoryOrStorage fault ⊎ (fault ≡ Fault.BadStart)) }
{
    if !is_empty(tx)? {
        return Err(Fault::BadStart);
    }
    if token_word == accessor_word {
        return Err(Fault::BadStart);
    }
    write_first_rows(alloc, tx, moment, token_word, accessor_word)
}
