//! Maintenance of the rows of a database.

ghost use Rattle.std.specs.Prelude.{◌≡◌, ⊤, IsTrue, None, IfOk, OnErr};
ghost use Rattle.broker_types.specs.Broker.{Broker};
ghost use Rattle.records.specs.Calls.{IsCall};
ghost use Rattle.records.specs.Kept.{IsHonestStore};
ghost use Rattle.records.specs.Table.{table, table_of};
ghost use Rattle.records.specs.Transaction.{Rows, IsHonest};
ghost use Rattle.records.specs.Upgraded.{AreUpgraded};
ghost use Rattle.records_sql.specs.KeptRecords.{kept_records};
ghost use Rattle.broker_rows.specs.Representing.{Represents};
ghost use Rattle.maintenance.specs.Tasks.{IsDone};

use crate::task::{Done, Task, perform};
use broker_types::Fault;
use records::{RecordsTx, upgrade_keys};
use records_sql::SqlRecords;
use sqlite::Alter;
use std::alloc::Global;

/// Does the task to the rows that were committed, once those of keys in format 1 are rewritten as an opening does, in
/// one transaction: after an error the rows are as before. It fails as `perform` does.
pub fn perform_on_records<S: Alter>(
    alloc: Global,
    records: &mut SqlRecords<S>,
    task: &Task<'_>,
) -> Result<Done, Fault>
    ensures told { IsHonestStore (kept_records S.Store records.new) → (opened : Rows) (b : Broker)
        → AreUpgraded (table_of (kept_records S.Store records.old).rows) (table_of opened) → Represents None opened b
        → IfOk result (IsDone task.now b (kept_records S.Store records.new).rows) }
    ensures kept { IsHonestStore (kept_records S.Store records.new) → IsTrue (kept_records S.Store records.new).is_open
        → OnErr result ((kept_records S.Store records.new).rows ≡ (kept_records S.Store records.old).rows) }
{
    let mut tx = records.begin()?;
    let done = open_and_perform(alloc, &mut tx, task)?;
    tx.commit()?;
    Ok(done)
}

/// Rewrites the rows of keys in format 1, and does the task.
fn open_and_perform<T: RecordsTx>(alloc: Global, tx: &mut T, task: &Task<'_>) -> Result<Done, Fault>
    ensures told { IsHonest (T.seen tx.new) → (opened : Rows) (b : Broker)
        → AreUpgraded (table (T.seen tx.old)) (table_of opened) → Represents None opened b
        → IfOk result (IsDone task.now b (T.seen tx.new).rows) }
    ensures call { IsCall (T.seen tx.old) (T.seen tx.new) result (λ _. ⊤) }
{
    upgrade_keys(alloc, tx)?;
    perform(alloc, tx, task)
}
